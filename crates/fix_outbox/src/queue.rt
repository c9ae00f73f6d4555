//! The queue of an outbox, and what each pass knows of it.
ghost use Rattle.fix_outbox.specs.Queue.{InOrder, taker, sender, spent, Appended, Took, CanContain, ended};
ghost use Rattle.std.specs.Prelude.{[], ◌∷◌, ◌+◌};

use crossbeam_queue::protocol::{Join, Lesson, Outcome, Protocol, Split};
use crossbeam_queue::{Pass, RuledArrayQueue};
use fix_fields::Draft;
use std::collections::LinkedList;

/// A draft in an outbox, with the number of its sender.
#[derive(Drop)]
pub struct Item {
    pub sender: u32,
    pub draft: Draft,
}

// What a sender that has ended had posted. No value of it is made.
pub struct Ended {
    pub number: u32,
    pub posted: LinkedList<Item>,
}

// What a pass knows: the taker how many senders there are and what it took, a sender its number and what it
// has posted. No value of it is made.
pub struct Part {
    pub takes: bool,
    pub sends: bool,
    pub number: u32,
    pub list: LinkedList<Item>,
    pub known: LinkedList<Ended>,
}

pub struct QueueRule;

impl Protocol<Item, Part> for QueueRule {
    ghost use Rattle.std.specs.Prelude.{[]};
    ghost use Rattle.fix_outbox.specs.Queue.{InOrder, taker};

    ghost holds = { InOrder };

    ghost first = { taker 0 [] [] };
}

pub struct Appends;

impl Outcome<Item, Part> for Appends {
    ghost use Rattle.fix_outbox.specs.Queue.{Appended};

    ghost then = { Appended };
}

impl Lesson<Item, Part> for Appends {
    ghost use Rattle.fix_outbox.specs.Queue.{CanContain};

    ghost fact = { CanContain };
}

pub struct Takes;

impl Outcome<Item, Part> for Takes {
    ghost use Rattle.fix_outbox.specs.Queue.{Took};

    ghost then = { Took };
}

impl Lesson<Item, Part> for Takes {
    ghost use Rattle.fix_outbox.specs.Queue.{CanContain};

    ghost fact = { CanContain };
}

// The taker makes its next sender, and takes in one that has ended.
pub struct Sends;

impl Split<Part> for Sends {
    ghost use Rattle.std.specs.Prelude.{[], ◌+◌};
    ghost use Rattle.fix_outbox.specs.Queue.{taker, sender};

    ghost left = { λ v. taker (v.number + 1) v.list [] };

    ghost right = { λ v. sender (v.number + 1) [] };
}

impl Join<Part> for Sends {
    ghost use Rattle.std.specs.Prelude.{[], ◌∷◌};
    ghost use Rattle.fix_outbox.specs.Queue.{taker, ended, spent};

    ghost both = { λ v w. taker v.number v.list (ended w.number w.list ∷ v.known) };

    ghost spent = { spent };
}

pub type Queue = RuledArrayQueue<Item, Part, QueueRule>;

pub type Place = Pass<Item, Part>;
