//! The tape of acts: the trait, one that keeps nothing, and one that keeps copies. `fix_rim` makes room on
//! it before each act, and notes the act after it.
ghost use Rattle.std.specs.Prelude.{◌≡◌, ◌<◌, ◌≤◌, ℕ, List, [], ◌∷◌, ◌++◌, length, Option, Some, None, IfOk, OnOk};
ghost use Rattle.std.specs.Prelude.{vec_len, vec_capacity};
ghost use Rattle.std.proofs.Math.Nat.{le_trans};
ghost use Rattle.fix_base.specs.declared.act.Act.{Act as TheAct};
ghost use Rattle.fix_base.specs.declared.entry.Entry.{Entry as TheEntry};
ghost use Rattle.fix_base.specs.Trace.{grown};
ghost use Rattle.fix_parts.specs.Tape.{act_of, bytes_in, bytes_in_entry, bytes_in_record, entries_in};
ghost use Rattle.fix_parts.specs.Tape.{entries_in_record};

use crate::Noted;
use crate::copies::copy_entries;
use fix_base::{Act, Bytes, Entries, Entry, OutOfMemory, Record};
use fix_disk::{put, put_bytes};
use std::alloc::Global;
use std::mem;

/// Where the acts of an end are noted. Room for an act is made before the act is done, so that
/// the note after it can't fail.
pub trait Tape {
    /// The acts that were noted, where they are told.
    ghost told: { Self → Option (List TheAct) };

    /// There is room for one act with so many bytes, which keeps these entries in one record.
    ghost HasRoom: { Self → ℕ → List TheEntry → Type 0 };

    /// Makes room for this act, or for another one with no more bytes: its lost form, a front of
    /// its bytes, or an act without bytes. Where it keeps several entries in one record, only such
    /// acts with the same entries have that room.
    fn reserve(&mut self, act: &Noted<'_>) -> Result<(), OutOfMemory>
        ensures told { told self.new ≡ told self.old }
        ensures room { OnOk result (HasRoom self.new (bytes_in act.now) (entries_in act.now)) };

    /// Notes the act in the room that was made.
    fn note(&mut self, act: &Noted<'_>)
        requires { HasRoom self.old (bytes_in act.now) (entries_in act.now) }
        ensures noted { told self.new ≡ grown (told self.old) (act_of act.now ∷ []) };

    /// Room for an act is room for one with fewer bytes.
    ghost less_room: { (t : Self) (m n : ℕ) (entries : List TheEntry) → m ≤ n → HasRoom t n entries
        → HasRoom t m entries };
}

/// A tape that keeps nothing.
#[derive(Drop)]
pub struct NoTape;

impl Tape for NoTape {
    ghost told = { λ t. None };

    ghost HasRoom = { λ t n entries. Unit {0} };

    ghost less_room = { λ t m n entries le h. tt };

    fn reserve(&mut self, _act: &Noted<'_>) -> Result<(), OutOfMemory> {
        Ok(())
    }

    fn note(&mut self, _act: &Noted<'_>) {}
}

/// A tape that keeps the acts.
#[derive(Drop)]
pub struct KeptTape {
    alloc: Global,
    acts: Vec<Act>,
    spare: Vec<u8>,
    // A copy of the entries of the act that there is room for.
    entries: Vec<Entry>,
}

impl KeptTape {
    ghost use Rattle.fix_parts.specs.Memory.{acts_in};

    /// A tape without acts.
    pub fn new(alloc: Global) -> KeptTape
        ensures { acts_in result ≡ [] }
    {
        KeptTape {
            alloc,
            acts: Vec::new(alloc),
            spare: Vec::new(alloc),
            entries: Vec::new(alloc),
        }
    }

    /// The acts that were noted.
    pub fn acts(&self) -> &[Act]
        ensures { result.now ≡ acts_in self.now }
    {
        self.acts.as_slice()
    }
}

// The bytes in room that is there.
fn filled(alloc: Global, spare: &mut Vec<u8>, bytes: &[u8]) -> Bytes
    requires empty { spare.old.items ≡ [] }
    requires room { length bytes.now ≤ vec_capacity spare.old }
    ensures { result ≡ bytes.now }
{
    put_bytes(spare, bytes);
    Bytes::from_vec(mem::replace(spare, Vec::new(alloc)))
}

// The entry with its body in room that is there.
fn filled_entry(alloc: Global, spare: &mut Vec<u8>, entry: &Entry) -> Entry
    requires empty { spare.old.items ≡ [] }
    requires room { bytes_in_entry entry.now ≤ vec_capacity spare.old }
    ensures { result ≡ entry.now }
{
    match entry {
        Entry::App { time, by, body } => Entry::App {
            time: *time,
            by: *by,
            body: filled(alloc, spare, body.as_slice()),
        },
        Entry::Admin { time, kind, about } => Entry::Admin {
            time: *time,
            kind: *kind,
            about: *about,
        },
    }
}

// The record with its entry's body in room that is there, or of the entries that were copied.
fn filled_record(
    alloc: Global,
    spare: &mut Vec<u8>,
    entries: &mut Vec<Entry>,
    kept: &Record,
) -> Record
    requires empty { spare.old.items ≡ [] }
    requires room { bytes_in_record kept.now ≤ vec_capacity spare.old }
    requires copied { entries.old.items ≡ entries_in_record kept.now }
    ensures { result ≡ kept.now }
{
    match kept {
        Record::Push(entry) => Record::Push(filled_entry(alloc, spare, entry)),
        Record::Expect(number) => Record::Expect(*number),
        Record::Many { expect, .. } => Record::Many {
            pushes: Entries::from_vec(mem::replace(entries, Vec::new(alloc))),
            expect: *expect,
        },
        Record::Withhold(number) => Record::Withhold(*number),
        Record::Reset(time) => Record::Reset(*time),
        Record::ResetAsk(time) => Record::ResetAsk(*time),
        Record::Confirm => Record::Confirm,
    }
}

// How many bytes an act has.
fn size_of_act(act: &Noted<'_>) -> usize
    ensures { result ≡ bytes_in act.now }
{
    match act {
        Noted::Read(bytes) | Noted::Wrote(bytes) => bytes.len(),
        Noted::Kept(kept) | Noted::KeepLost(kept) => size_of_record(kept),
        Noted::Handed(h) | Noted::HandLost(h) => h.body.len(),
        Noted::Opened
        | Noted::Now(_)
        | Noted::Idle
        | Noted::Ended
        | Noted::Withheld(_)
        | Noted::Allowed(_)
        | Noted::Cut
        | Noted::Stop => 0,
    }
}

fn size_of_record(kept: &Record) -> usize
    ensures { result ≡ bytes_in_record kept.now }
{
    match kept {
        Record::Push(Entry::App { body, .. }) => body.as_slice().len(),
        Record::Push(Entry::Admin { .. })
        | Record::Expect(_)
        | Record::Many { .. }
        | Record::Withhold(_)
        | Record::Reset(_)
        | Record::ResetAsk(_)
        | Record::Confirm => 0,
    }
}

// A copy of the entries that an act keeps in one record.
fn entries_of_act(alloc: Global, act: &Noted<'_>) -> Result<Vec<Entry>, OutOfMemory>
    ensures { IfOk result (λ made. made.items ≡ entries_in act.now) }
{
    match act {
        Noted::Kept(kept) | Noted::KeepLost(kept) => entries_of_record(alloc, kept),
        Noted::Opened
        | Noted::Now(_)
        | Noted::Read(_)
        | Noted::Idle
        | Noted::Ended
        | Noted::Wrote(_)
        | Noted::Handed(_)
        | Noted::HandLost(_)
        | Noted::Withheld(_)
        | Noted::Allowed(_)
        | Noted::Cut
        | Noted::Stop => Ok(Vec::new(alloc)),
    }
}

fn entries_of_record(alloc: Global, kept: &Record) -> Result<Vec<Entry>, OutOfMemory>
    ensures { IfOk result (λ made. made.items ≡ entries_in_record kept.now) }
{
    match kept {
        Record::Many { pushes, .. } => copy_entries(alloc, pushes.as_slice()),
        Record::Push(_)
        | Record::Expect(_)
        | Record::Withhold(_)
        | Record::Reset(_)
        | Record::ResetAsk(_)
        | Record::Confirm => Ok(Vec::new(alloc)),
    }
}

// The act with its bytes in room that is there, and the entries that were copied.
fn filled_act(alloc: Global, spare: &mut Vec<u8>, entries: &mut Vec<Entry>, act: &Noted<'_>) -> Act
    requires empty { spare.old.items ≡ [] }
    requires room { bytes_in act.now ≤ vec_capacity spare.old }
    requires copied { entries.old.items ≡ entries_in act.now }
    ensures { result ≡ act_of act.now }
{
    match act {
        Noted::Opened => Act::Opened,
        Noted::Now(time) => Act::Now(*time),
        Noted::Read(bytes) => Act::Read(filled(alloc, spare, bytes)),
        Noted::Idle => Act::Idle,
        Noted::Ended => Act::Ended,
        Noted::Wrote(bytes) => Act::Wrote(filled(alloc, spare, bytes)),
        Noted::Kept(kept) => Act::Kept(filled_record(alloc, spare, entries, kept)),
        Noted::KeepLost(kept) => Act::KeepLost(filled_record(alloc, spare, entries, kept)),
        Noted::Handed(h) => Act::Handed {
            number: h.number,
            marked: h.marked,
            body: filled(alloc, spare, h.body),
        },
        Noted::HandLost(h) => Act::HandLost {
            number: h.number,
            marked: h.marked,
            body: filled(alloc, spare, h.body),
        },
        Noted::Withheld(number) => Act::Withheld(*number),
        Noted::Allowed(number) => Act::Allowed(*number),
        Noted::Cut => Act::Cut,
        Noted::Stop => Act::Stop,
    }
}

impl Tape for KeptTape {
    ghost use Rattle.fix_parts.specs.Memory.{acts_in, KeptRoom};

    ghost told = { λ t. Some (acts_in t) };

    ghost HasRoom = { KeptRoom };

    ghost less_room = { λ t m n entries le h. (h.0, h.1, le_trans le h.2, h.3) };

    fn reserve(&mut self, act: &Noted<'_>) -> Result<(), OutOfMemory> {
        self.acts.reserve(1)?;
        self.spare = Vec::with_capacity(self.alloc, size_of_act(act))?;
        self.entries = entries_of_act(self.alloc, act)?;
        Ok(())
    }

    fn note(&mut self, act: &Noted<'_>) {
        let kept = filled_act(self.alloc, &mut self.spare, &mut self.entries, act);
        put(&mut self.acts, kept);
    }
}
