//! The table of the layouts of messages. `message` fills it, and `dictionary` looks types up in it.
ghost use Rattle.std.specs.Prelude.{◌≡◌, OnOk, option_copied};
ghost use Rattle.std.specs.FinMap as table;

use crate::noted::NotedLayout;
use std::alloc::{AllocFailed, Global};
use std::collections::BTreeMap;
use std::marker::Model;

/// The layouts of messages by their MsgType (35). Contracts see it as the map.
#[derive(Drop)]
pub struct Messages {
    layouts: BTreeMap<Vec<u8>, NotedLayout>,
}

impl Model for Messages {
    ghost use Rattle.std.specs.Prelude.{map};
    ghost use Rattle.std.specs.Ordering.{nat_cmp};
    ghost use Rattle.std.specs.Cmp.Lexicographic.{slice_cmp};
    ghost use Rattle.std.specs.FinMap as tables;
    ghost use Rattle.std.specs.Coded.{coded_ℕ, coded_list};
    ghost use Rattle.fix_fields.specs.Shapes.{Shapes, shapes_code};
    ghost use Rattle.fix_dict.specs.Keyed.{by_bytes};

    ghost Value = { tables.FinMap (slice_cmp nat_cmp) Shapes };

    ghost coded = { tables.code (coded_list coded_ℕ) shapes_code };

    ghost view = { λ m. tables.from_entries (by_bytes m.layouts.entries) };
}

impl Messages {
    pub fn new(alloc: Global) -> Messages
        ensures { result ≡ table.empty }
    {
        Messages {
            layouts: BTreeMap::new(alloc),
        }
    }

    /// The layout of messages of the type. It costs the logarithm of the number of types.
    pub fn get(&self, kind: &[u8]) -> Option<&NotedLayout>
        ensures { option_copied result ≡ table.get self.now kind.now }
    {
        self.layouts.get(kind)
    }

    pub fn has(&self, kind: &[u8]) -> bool
        ensures { result ≡ table.contains_key self.now kind.now }
    {
        self.get(kind).is_some()
    }

    pub fn insert(
        &mut self,
        kind: Vec<u8>,
        layout: NotedLayout,
    ) -> Result<(), AllocFailed<(Vec<u8>, NotedLayout)>>
        ensures { OnOk result (self.new ≡ table.insert self.old kind.items layout) }
    {
        self.layouts.insert(kind, layout)?;
        Ok(())
    }
}
