//! The numbers of the messages that aren't to be sent again, as a set. `folding` takes them in.
ghost use Rattle.std.specs.Prelude.{◌≡◌, ◌||◌, OnOk, None};
ghost use Rattle.std.specs.FinSet as set;
ghost use Rattle.fix_store.specs.Folding.{withheld_in};

use std::alloc::{AllocError, Global};
use std::collections::BTreeSet;

// The number that was withheld last stands apart, so that it is taken in without memory.
#[derive(Drop)]
pub(crate) struct Withheld {
    pub(crate) numbers: BTreeSet<u32>,
    pub(crate) last: Option<u32>,
}

impl Withheld {
    pub(crate) fn new(alloc: Global) -> Withheld
        ensures { withheld_in result ≡ set.empty }
    {
        Withheld {
            numbers: BTreeSet::new(alloc),
            last: None,
        }
    }

    // Whether the number is among them. It costs the logarithm of how many there are.
    pub(crate) fn has(&self, number: u32) -> bool
        ensures { result ≡ set.contains (withheld_in self.now) number }
    {
        match self.last {
            Some(last) => either(last == number, self.numbers.contains(&number)),
            None => self.numbers.contains(&number),
        }
    }

    // Makes room for one more.
    pub(crate) fn reserve(&mut self) -> Result<(), AllocError>
        ensures same { withheld_in self.new ≡ withheld_in self.old }
        ensures room { OnOk result (self.new.last ≡ None) }
    {
        if let Some(last) = self.last {
            self.numbers.insert(last)?;
            self.last = None;
        }
        Ok(())
    }

    // Puts one more into room that is there.
    pub(crate) fn put(&mut self, number: u32)
        requires { self.old.last ≡ None }
        ensures { withheld_in self.new ≡ set.insert (withheld_in self.old) number }
    {
        self.last = Some(number);
    }

    pub(crate) fn clear(&mut self)
        ensures { withheld_in self.new ≡ set.empty }
    {
        self.numbers.clear();
        self.last = None;
    }
}

fn either(a: bool, b: bool) -> bool
    ensures { result ≡ (a || b) }
{
    if a { true } else { b }
}
