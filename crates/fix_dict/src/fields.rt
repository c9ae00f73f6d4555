//! The table of the rules of fields. `field` fills it, and `members` and `dictionary` look tags up in it.
ghost use Rattle.std.specs.Prelude.{◌≡◌, OnOk, option_copied, option_map, IfOk, IfErr, Ok, map};
ghost use Rattle.std.specs.FinMap as table;
ghost use Rattle.serde_json.specs.View.{view};
ghost use Rattle.fix_dict.specs.Fields.{field_in, fields_in, texts_in, values_in, listed_values, field_tag};
ghost use Rattle.fix_dict.specs.Faults.{Tells};
ghost use Rattle.fix_dict.specs.Notes.{has_values};

use crate::rule::FieldRule;
use fix_base::Tag;
use fix_fields::ValueKind;
use std::alloc::{AllocFailed, Global};
use std::collections::BTreeMap;
use std::marker::Model;

/// The rules of fields by their tags. Contracts see it as the map.
#[derive(Drop)]
pub struct Fields {
    rules: BTreeMap<u32, FieldRule>,
}

impl Model for Fields {
    ghost use Rattle.std.specs.Ordering.{nat_cmp};
    ghost use Rattle.std.specs.FinMap as tables;
    ghost use Rattle.std.specs.Coded.{coded_ℕ};
    ghost use Rattle.fix_dict.specs.declared.rule.FieldRule.{FieldRule};
    ghost use Rattle.fix_dict.specs.contracts.rule.FieldRule as rule;

    ghost Value = { tables.FinMap nat_cmp FieldRule };

    ghost coded = { tables.code coded_ℕ rule.the_row.coded };

    ghost view = { λ f. tables.from_entries f.rules.entries };
}

impl Fields {
    pub fn new(alloc: Global) -> Fields
        ensures { result ≡ table.empty }
    {
        Fields {
            rules: BTreeMap::new(alloc),
        }
    }

    /// The rule of the field with the tag. It costs the logarithm of the number of fields.
    pub fn get(&self, tag: Tag) -> Option<&FieldRule>
        ensures { option_copied result ≡ table.get self.now tag }
    {
        self.rules.get(&tag.get())
    }

    pub fn has(&self, tag: Tag) -> bool
        ensures { result ≡ table.contains_key self.now tag }
    {
        self.get(tag).is_some()
    }

    /// The kind of the field with the tag.
    pub fn kind_of(&self, tag: Tag) -> Option<ValueKind>
        ensures { result ≡ option_map (λ r. r.kind) (table.get self.now tag) }
    {
        match self.get(tag) {
            Some(rule) => Some(rule.kind),
            None => None,
        }
    }

    /// Whether values are listed for the tag.
    pub fn has_values(&self, tag: Tag) -> bool
        ensures { result ≡ has_values (table.get self.now tag) }
    {
        match self.get(tag) {
            Some(rule) => !rule.values.as_slice().is_empty(),
            None => false,
        }
    }

    pub fn insert(&mut self, tag: Tag, rule: FieldRule) -> Result<(), AllocFailed<(u32, FieldRule)>>
        ensures { OnOk result (self.new ≡ table.insert self.old tag rule) }
    {
        self.rules.insert(tag.get(), rule)?;
        Ok(())
    }
}
