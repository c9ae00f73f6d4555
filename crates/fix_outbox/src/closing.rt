//! The closing word of an outbox.
ghost use Rattle.fix_outbox.specs.Closing.{IsClosingWord, closing_view, Found, Closes};
ghost use Rattle.std.specs.Prelude.{[], true, false};

use atomic_table::{Join, Play, Seat, Split, Table, TableRule};
use std::alloc::Global;
use std::collections::LinkedList;

// What a seat knows: the taker whether it has closed, a sender what its loads found. No value of it is made.
pub struct ClosingView {
    pub takes: bool,
    pub closed: bool,
    pub found: LinkedList<u64>,
}

pub struct ClosingRule;

impl TableRule<u8, ClosingView, ()> for ClosingRule {
    ghost use Rattle.std.specs.Prelude.{[], true, false};
    ghost use Rattle.fix_outbox.specs.Closing.{IsClosingWord, closing_view};

    ghost holds = { λ _. IsClosingWord };

    ghost first = { λ _. closing_view true false [] };
}

pub struct LoadsWord;

impl Play<u8, ClosingView> for LoadsWord {
    ghost use Rattle.fix_outbox.specs.Closing.{Found};

    ghost then = { λ _. Found };
}

pub struct ClosesWord;

impl Play<u8, ClosingView> for ClosesWord {
    ghost use Rattle.fix_outbox.specs.Closing.{Closes};

    ghost then = { λ _. Closes };
}

pub struct SharesWord;

impl Split<ClosingView> for SharesWord {
    ghost use Rattle.std.specs.Prelude.{[], false};
    ghost use Rattle.fix_outbox.specs.Closing.{closing_view};

    ghost left = { λ v. v };

    ghost right = { λ v. closing_view false false [] };
}

impl Join<ClosingView> for SharesWord {
    ghost use Rattle.std.specs.Prelude.{[], false, ◌++◌};
    ghost use Rattle.fix_outbox.specs.Closing.{closing_view};

    ghost both = { λ v w. closing_view v.takes v.closed (w.found ++ v.found) };

    ghost spent = { closing_view false false [] };
}

pub struct ChecksWord;

impl Play<u8, ClosingView> for ChecksWord {
    ghost use Rattle.fix_outbox.specs.Closing.{Checked};

    ghost then = { λ _. Checked };
}

pub type ClosingWord = Table<u8, ClosingView, (), ClosingRule, Global>;

pub type ClosingSeat = Seat<u8, ClosingView>;
