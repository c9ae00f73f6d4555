//! The tags seen so far, so that none stands twice. `dictionary` and `message` make it, and `members` fills it.
ghost use Rattle.std.specs.Prelude.{◌≡◌, OnOk};
ghost use Rattle.std.specs.FinSet as set;

use std::alloc::{AllocError, Global};
use std::collections::BTreeSet;
use std::marker::Model;

/// A set of tags. Contracts see it as the set.
#[derive(Drop)]
pub struct Tags {
    set: BTreeSet<u32>,
}

impl Model for Tags {
    ghost use Rattle.std.specs.Ordering.{nat_cmp};
    ghost use Rattle.std.specs.FinSet as sets;
    ghost use Rattle.std.specs.Coded.{coded_ℕ};

    ghost Value = { sets.FinSet nat_cmp };

    ghost coded = { sets.code coded_ℕ };

    ghost view = { λ t. sets.from_list t.set.keys };
}

impl Tags {
    pub fn new(alloc: Global) -> Tags
        ensures { result ≡ set.empty }
    {
        Tags {
            set: BTreeSet::new(alloc),
        }
    }

    /// A look-up costs the logarithm of the number of tags.
    pub fn has(&self, tag: u32) -> bool
        ensures { result ≡ set.contains self.now tag }
    {
        self.set.contains(&tag)
    }

    pub fn insert(&mut self, tag: u32) -> Result<(), AllocError>
        ensures { OnOk result (self.new ≡ set.insert self.old tag) }
    {
        self.set.insert(tag)?;
        Ok(())
    }
}
