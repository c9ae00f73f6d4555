//! An application for tests. Its drafts and its failures are told to it beforehand.
ghost use Rattle.std.specs.Prelude.{◌≡◌, ◌≤◌, ◌++◌, map, drop, option_map, vec_len, vec_capacity, IfOk, OnOk, []};
ghost use Rattle.std.specs.Prelude.{◌∷◌, Some};
ghost use Rattle.fix_base.specs.Parts.{given_draft, Answers};
ghost use Rattle.fix_fields.specs.Drafted.{draft_body};
ghost use Rattle.fix_parts.specs.App.{drafts_in};

use crate::{App, Given, Handed, Said};
use fix_base::{Bytes, OutOfMemory};
use fix_disk::{Failing, put};
use fix_fields::Draft;
use std::alloc::Global;
use std::collections::VecDeque;

/// An application in memory, which keeps a copy of what it was handed, and one of each draft that
/// it gives.
#[derive(Debug, Drop)]
pub struct MemoryApp {
    alloc: Global,
    given: Vec<Given>,
    capacity: usize,
    // Its answers yet to give.
    drafts: VecDeque<Option<Draft>>,
    // A copy of each draft, and how many of them it gave.
    copies: Vec<Draft>,
    asked: usize,
    failing: Failing,
    ghost held: { vec_len given ≤ capacity },
    ghost room: { capacity ≤ vec_capacity given },
    ghost few: { asked ≤ vec_len copies },
    ghost copied: { drop asked (map draft_body copies.items) ≡ drafts_in (map (option_map draft_body) drafts.items) },
}

impl MemoryApp {
    ghost use Rattle.fix_parts.specs.App.{given_of};
    ghost use Rattle.fix_disk.specs.Script.{script_from};
    ghost use Rattle.fix_parts.specs.Memory.{app_of, app_script};

    /// An application that gives these answers where it is asked for a draft, and then none, and
    /// takes up to `capacity` messages. The calls of `hand` whose numbers are in `fail`, from 1 on,
    /// fail. The drafts are copied.
    pub fn new(
        alloc: Global,
        drafts: Vec<Option<Draft>>,
        capacity: usize,
        fail: Vec<u64>,
    ) -> Result<MemoryApp, OutOfMemory>
        ensures seen { IfOk result
            (λ made. app_of made
            ≡ record {
              given = Some [];
              lines = None;
              room = None;
              asked = Some [];
              to_ask = Some (map (option_map draft_body) drafts.items);
              faults = 0;
            }) }
        ensures script { IfOk result (λ made. app_script made ≡ script_from fail.items capacity) }
    {
        let copies = copies_of(alloc, drafts.as_slice())?;
        Ok(MemoryApp {
            alloc,
            given: Vec::with_capacity(alloc, capacity)?,
            capacity,
            drafts: VecDeque::from(drafts),
            copies,
            asked: 0,
            failing: Failing::new(fail),
        })
    }

    /// The messages that it took.
    pub fn given(&self) -> &[Given]
        ensures { (app_of self.now).given ≡ Some result.now }
    {
        self.given.as_slice()
    }

    /// The drafts that it gave.
    pub fn asked(&self) -> &[Draft]
        ensures { (app_of self.now).asked ≡ Some (map draft_body result.now) }
    {
        &self.copies[..self.asked]
    }

    // A copy of what it keeps of a message.
    fn copied(alloc: Global, h: &Handed<'_>) -> Result<Given, OutOfMemory>
        ensures { IfOk result (λ made. made ≡ given_of h.now) }
    {
        Ok(Given {
            number: h.number,
            marked: h.marked,
            body: Bytes::copy(alloc, h.body)?,
        })
    }
}

// A copy of each draft among these.
fn copies_of(alloc: Global, drafts: &[Option<Draft>]) -> Result<Vec<Draft>, OutOfMemory>
    ensures { IfOk result (λ made. map draft_body made.items ≡ drafts_in (map (option_map draft_body) drafts.now)) }
{
    let mut copies = Vec::new(alloc);
    for answer in drafts {
        if let Some(draft) = answer {
            push(&mut copies, draft.copy(alloc)?)?;
        }
    }
    Ok(copies)
}

// One more draft.
fn push(copies: &mut Vec<Draft>, draft: Draft) -> Result<(), OutOfMemory>
    ensures { OnOk result (copies.new.items ≡ copies.old.items ++ draft ∷ []) }
{
    match copies.push(draft) {
        Ok(()) => Ok(()),
        Err(_) => Err(OutOfMemory),
    }
}

impl App for MemoryApp {
    ghost use Rattle.std.specs.Prelude.{◌↔◌, ◌⊎◌};
    ghost use Rattle.fix_parts.specs.App.{AppTakes, AppAsks};
    ghost use Rattle.fix_disk.specs.Script.{FailsNext, next_call};
    ghost use Rattle.fix_parts.specs.Memory.{app_of, app_script, app_room};

    ghost app = { app_of };

    fn hand(&mut self, h: &Handed<'_>) -> Said
        ensures moves { AppTakes result h.now (app_of self.old) (app_of self.new) }
        ensures fails { (result ≡ Said.Failed) ↔ (FailsNext (app_script self.old) ⊎ (app_room self.old ≡ 0)) }
        ensures script { app_script self.new
            ≡ record (app_script self.old) { calls = next_call (app_script self.old) } }
    {
        if self.failing.strikes() {
            return Said::Failed;
        }
        if self.given.len() >= self.capacity {
            self.failing.fail();
            return Said::Failed;
        }
        match MemoryApp::copied(self.alloc, h) {
            Ok(given) => {
                put(&mut self.given, given);
                Said::Taken
            }
            Err(OutOfMemory) => Said::OutOfMemory,
        }
    }

    fn ask(&mut self) -> Option<Draft>
        ensures asks { AppAsks (option_map draft_body result) (app_of self.old) (app_of self.new) }
        ensures script { app_script self.new ≡ app_script self.old }
    {
        let draft = next_draft(&mut self.drafts);
        if draft.is_some() {
            self.asked += 1;
        }
        draft
    }
}

// The next answer, which leaves the list.
fn next_draft(drafts: &mut VecDeque<Option<Draft>>) -> Option<Draft>
    ensures answers { Answers (option_map draft_body result) (Some (map (option_map draft_body) drafts.old.items))
        (Some (map (option_map draft_body) drafts.new.items)) }
    ensures drafts { drafts_in (map (option_map draft_body) drafts.old.items)
        ≡ given_draft (option_map draft_body result) ++ drafts_in (map (option_map draft_body) drafts.new.items) }
{
    match drafts.pop_front() {
        None => None,
        Some(answer) => answer,
    }
}
