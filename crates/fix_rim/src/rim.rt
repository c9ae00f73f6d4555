//! Carries out the calls of a session, each on the part that it is for. Room on the tape is made before an
//! act, and the act is noted after it. `fix_engine` calls this as its Outside.
use crate::optional_link::OptionalLink;
use crate::reserving::reserve_read;
use crate::store_slot::StoreSlot;
use crate::{Again, FetchFault, KeepFault, Kind, LoadFault, Outside};
use fix_base::{OutOfMemory, Record, SeqNum, Stored};
use fix_disk::Disk;
use fix_fields::Draft;
use fix_parts::{App, Clock, Handed, Link, Noted, ReadTurn, Said, Tape, WriteTurn};
use std::alloc::Global;

/// An outside over a disk, a connection, an application, a clock and a tape. The message store is
/// a journal on the disk.
#[derive(Drop)]
pub struct Rim<D: Disk, L, A, C, T> {
    slot: StoreSlot<D>,
    optional_link: OptionalLink<L>,
    app: A,
    clock: C,
    tape: T,
}

impl<D: Disk, L: Link, A: App, C: Clock, T: Tape> Rim<D, L, A, C, T> {
    ghost use Rattle.std.specs.Prelude.{◌≡◌, ◌+◌, Some, None, min, option_map};
    ghost use Rattle.fix_base.specs.Trace.{LAST_COUNT, Rises};
    ghost use Rattle.fix_rim.specs.OptionalLink.{link_seen, with_faults};
    ghost use Rattle.fix_rim.specs.Rim.{disk_in, open_at_of, link_in, unlinked_in, app_in, clock_in, tape_in};
    ghost use Rattle.fix_rim.specs.Rim.{with_link_of};

    /// An outside over these parts. Its store isn't open. Without a connection a read ends, and a
    /// write fails.
    pub fn new(
        alloc: Global,
        disk: D,
        link: Option<L>,
        app: A,
        clock: C,
        tape: T,
    ) -> Rim<D, L, A, C, T>
        ensures disk { disk_in result ≡ Some disk }
        ensures shut { open_at_of result ≡ None }
        ensures link { link_in result ≡ link }
        ensures linked { unlinked_in result ≡ 0 }
        ensures app { app_in result ≡ app }
        ensures clock { clock_in result ≡ clock }
        ensures tape { tape_in result ≡ tape }
    {
        Rim {
            slot: StoreSlot::new(alloc, disk),
            optional_link: OptionalLink::new(link),
            app,
            clock,
            tape,
        }
    }

    /// The connection, if there is one.
    pub fn link(&self) -> Option<&L>
        ensures { option_map (λ l. l.now) result ≡ link_in self.now }
    {
        self.optional_link.link.as_ref()
    }

    /// Takes another connection, or none, and gives the former one. The count of the connection's faults doesn't
    /// fall: those of former connections and the writes without one stay in it.
    pub fn relink(&mut self, link: Option<L>) -> Option<L>
        ensures former { result ≡ link_in self.old }
        ensures link { link_in self.new ≡ link }
        ensures counted { unlinked_in self.new
            ≡ min (unlinked_in self.old + min (link_seen L.link (link_in self.old)).faults LAST_COUNT) LAST_COUNT }
        ensures faults { Rises 0 (with_faults (unlinked_in self.old) (link_seen L.link (link_in self.old))).faults
            (with_faults (unlinked_in self.new) (link_seen L.link (link_in self.new))).faults }
        ensures others { self.new ≡ with_link_of self.old self.new }
        ensures tape { tape_in self.new ≡ tape_in self.old }
    {
        self.optional_link.relink(link)
    }

    /// The parts, without what the store holds in memory.
    pub fn into_parts(self) -> (D, Option<L>, A, C, T)
        ensures disk { disk_in self ≡ Some result.0 }
        ensures link { result.1 ≡ link_in self }
        ensures app { result.2 ≡ app_in self }
        ensures clock { result.3 ≡ clock_in self }
        ensures tape { result.4 ≡ tape_in self }
    {
        (
            self.slot.into_disk(),
            self.optional_link.link,
            self.app,
            self.clock,
            self.tape,
        )
    }

    /// The application.
    pub fn app(&self) -> &A
        ensures { result.now ≡ app_in self.now }
    {
        &self.app
    }

    /// The tape of acts.
    pub fn tape(&self) -> &T
        ensures { result.now ≡ tape_in self.now }
    {
        &self.tape
    }
}

impl<D: Disk, L: Link, A: App, C: Clock, T: Tape> Outside for Rim<D, L, A, C, T> {
    ghost use Rattle.std.specs.Prelude.{◌≡◌, ◌<◌, ◌∷◌, [], length, option_map, MatchResult, Err};
    ghost use Rattle.fix_base.specs.Payload.{IsKeepable};
    ghost use Rattle.fix_base.specs.Trace.{Trace, Asked};
    ghost use Rattle.fix_base.specs.Parts.{ClockReads};
    ghost use Rattle.fix_fields.specs.Drafted.{draft_body};
    ghost use Rattle.fix_parts.specs.Link.{LinkReads, LinkWrites};
    ghost use Rattle.fix_outside.specs.Connection.{IsInRoom, IsInBytes};
    ghost use Rattle.fix_parts.specs.App.{AppTakes, AppAsks};
    ghost use Rattle.fix_outside.specs.Handing.{HasKind, IsKindOf};
    ghost use Rattle.fix_outside.specs.declared.outside.KeepFault.TheVariants as TheKeepFault;
    ghost use Rattle.fix_outside.specs.Outside.{marks, tells_time, reads, writes, keeps, hands, loads, fetches, came};
    ghost use Rattle.fix_outside.specs.Outside.{notes_of_again};
    ghost use Rattle.fix_outside.specs.Calls as calls;
    ghost use Rattle.fix_outside.specs.Calls.{Called, Look, Load, Mark, Read, Write, Keep, Fetch, Hand, Ask};
    ghost use Rattle.fix_outside.specs.Outside.{HasPlace, NamesApp, HasEntry, open_kept, open_loaded, open_fetched};
    ghost use Rattle.fix_outside.specs.Outside.{LoadAnswers, FetchAnswers};
    ghost use Rattle.fix_rim.specs.StoreSlot.{seen_on, KeepLeft, LoadLeaves, LoadLasts};
    ghost use Rattle.fix_rim.specs.OptionalLink.{plug_of};
    ghost use Rattle.fix_rim.specs.Rim.{seen_of, disk_seen, disk_in, tape_in, app_in, clock_in, with_clock_of};
    ghost use Rattle.fix_rim.specs.Rim.{with_tape_of, with_link_of, with_store_of, with_app_of, with_app_alone_of};

    ghost seen = { λ p. seen_of (T.told p.tape) (seen_on D.disk p.slot.device) (p.slot.open_at)
        (plug_of L.link p.optional_link) (A.app p.app) (C.readings p.clock) };

    #[tactic(auto, using(crate::proofs::Carrying::calls))]
    fn now(&mut self) -> Result<u64, OutOfMemory>
        ensures noted { Trace (seen_of (T.told self.old.tape) (seen_on D.disk self.old.slot.device) self.old.slot.open_at
            (plug_of L.link self.old.optional_link) (A.app self.old.app) (C.readings self.old.clock))
            (seen_of (T.told self.new.tape) (seen_on D.disk self.new.slot.device) self.new.slot.open_at
            (plug_of L.link self.new.optional_link) (A.app self.new.app) (C.readings self.new.clock))
            (tells_time result) }
        ensures called { Called (seen_of (T.told self.old.tape) (seen_on D.disk self.old.slot.device) self.old.slot.open_at
            (plug_of L.link self.old.optional_link) (A.app self.old.app) (C.readings self.old.clock))
            (seen_of (T.told self.new.tape) (seen_on D.disk self.new.slot.device) self.new.slot.open_at
            (plug_of L.link self.new.optional_link) (A.app self.new.app) (C.readings self.new.clock))
            (Look result ∷ []) }
        ensures clock { MatchResult result
            (λ time. ClockReads time (C.readings (clock_in self.old)) (C.readings (clock_in self.new)))
            (λ e. clock_in self.new ≡ clock_in self.old) }
        ensures opens { self.new.slot.open_at ≡ self.old.slot.open_at }
        ensures others { self.new ≡ with_clock_of self.old self.new }
    {
        self.tape.reserve(&Noted::Now(0))?;
        let time = self.clock.now();
        self.tape.note(&Noted::Now(time));
        Ok(time)
    }

    #[tactic(auto, using(crate::proofs::Carrying::calls))]
    fn load(&mut self) -> Result<Stored, LoadFault>
        ensures noted { Trace (seen_of (T.told self.old.tape) (seen_on D.disk self.old.slot.device) self.old.slot.open_at
            (plug_of L.link self.old.optional_link) (A.app self.old.app) (C.readings self.old.clock))
            (seen_of (T.told self.new.tape) (seen_on D.disk self.new.slot.device) self.new.slot.open_at
            (plug_of L.link self.new.optional_link) (A.app self.new.app) (C.readings self.new.clock)) (loads result) }
        ensures called { Called (seen_of (T.told self.old.tape) (seen_on D.disk self.old.slot.device) self.old.slot.open_at
            (plug_of L.link self.old.optional_link) (A.app self.old.app) (C.readings self.old.clock))
            (seen_of (T.told self.new.tape) (seen_on D.disk self.new.slot.device) self.new.slot.open_at
            (plug_of L.link self.new.optional_link) (A.app self.new.app) (C.readings self.new.clock))
            (Load result ∷ []) }
        ensures answers { LoadAnswers result
            (seen_of (T.told self.old.tape) (seen_on D.disk self.old.slot.device) self.old.slot.open_at
            (plug_of L.link self.old.optional_link) (A.app self.old.app) (C.readings self.old.clock)) }
        ensures opens { self.new.slot.open_at ≡ open_loaded result }
        // A crash at any moment of it leaves the end that was on the disk, or one of two where one of these was
        // on it; at Ok it is the one that is told.
        ensures leaves { LoadLeaves (disk_seen D.disk self.old) (disk_seen D.disk self.new) }
        ensures lasts { LoadLasts result (disk_seen D.disk self.new) }
        ensures others { self.new ≡ with_store_of self.old self.new }
    {
        match self.tape.reserve(&Noted::Stop) {
            Ok(()) => {}
            Err(_) => {
                self.slot.close();
                return Err(LoadFault::OutOfMemory);
            }
        }
        match self.slot.load() {
            Ok(stored) => {
                self.tape.note(&Noted::Stop);
                Ok(stored)
            }
            Err(fault) => Err(fault),
        }
    }

    #[tactic(auto, using(crate::proofs::Carrying::calls))]
    fn mark(&mut self, cut: bool) -> Result<(), OutOfMemory>
        ensures noted { Trace (seen_of (T.told self.old.tape) (seen_on D.disk self.old.slot.device) self.old.slot.open_at
            (plug_of L.link self.old.optional_link) (A.app self.old.app) (C.readings self.old.clock))
            (seen_of (T.told self.new.tape) (seen_on D.disk self.new.slot.device) self.new.slot.open_at
            (plug_of L.link self.new.optional_link) (A.app self.new.app) (C.readings self.new.clock))
            (marks cut result) }
        ensures called { Called (seen_of (T.told self.old.tape) (seen_on D.disk self.old.slot.device) self.old.slot.open_at
            (plug_of L.link self.old.optional_link) (A.app self.old.app) (C.readings self.old.clock))
            (seen_of (T.told self.new.tape) (seen_on D.disk self.new.slot.device) self.new.slot.open_at
            (plug_of L.link self.new.optional_link) (A.app self.new.app) (C.readings self.new.clock))
            (Mark cut result ∷ []) }
        ensures opens { self.new.slot.open_at ≡ self.old.slot.open_at }
        ensures others { self.new ≡ with_tape_of self.old self.new }
    {
        self.tape.reserve(&Noted::Opened)?;
        if cut {
            self.tape.note(&Noted::Cut);
        } else {
            self.tape.note(&Noted::Opened);
        }
        Ok(())
    }

    #[tactic(auto, using(crate::proofs::Carrying::calls))]
    fn read(&mut self, room: &mut [u8]) -> ReadTurn
        requires { 0 < length room.old }
        ensures noted { Trace (seen_of (T.told self.old.tape) (seen_on D.disk self.old.slot.device) self.old.slot.open_at
            (plug_of L.link self.old.optional_link) (A.app self.old.app) (C.readings self.old.clock))
            (seen_of (T.told self.new.tape) (seen_on D.disk self.new.slot.device) self.new.slot.open_at
            (plug_of L.link self.new.optional_link) (A.app self.new.app) (C.readings self.new.clock))
            (reads result room.new) }
        ensures called { Called (seen_of (T.told self.old.tape) (seen_on D.disk self.old.slot.device) self.old.slot.open_at
            (plug_of L.link self.old.optional_link) (A.app self.old.app) (C.readings self.old.clock))
            (seen_of (T.told self.new.tape) (seen_on D.disk self.new.slot.device) self.new.slot.open_at
            (plug_of L.link self.new.optional_link) (A.app self.new.app) (C.readings self.new.clock))
            (Read (length room.new) (came result room.new) ∷ []) }
        ensures in_room { IsInRoom result room.new }
        ensures link { LinkReads result room.new (plug_of L.link self.old.optional_link)
            (plug_of L.link self.new.optional_link) }
        ensures opens { self.new.slot.open_at ≡ self.old.slot.open_at }
        ensures others { self.new ≡ with_link_of self.old self.new }
    {
        if reserve_read(&mut self.tape, room).is_err() {
            return ReadTurn::OutOfMemory;
        }
        match self.optional_link.read(room) {
            ReadTurn::Bytes(n) => {
                self.tape.note(&Noted::Read(&room[..n]));
                ReadTurn::Bytes(n)
            }
            ReadTurn::Idle => {
                self.tape.note(&Noted::Idle);
                ReadTurn::Idle
            }
            ReadTurn::End => {
                self.tape.note(&Noted::Ended);
                ReadTurn::End
            }
            ReadTurn::Failed => ReadTurn::Failed,
            ReadTurn::OutOfMemory => ReadTurn::OutOfMemory,
        }
    }

    #[tactic(auto, using(crate::proofs::Carrying::calls))]
    fn write(&mut self, bytes: &[u8]) -> WriteTurn
        ensures noted { Trace (seen_of (T.told self.old.tape) (seen_on D.disk self.old.slot.device) self.old.slot.open_at
            (plug_of L.link self.old.optional_link) (A.app self.old.app) (C.readings self.old.clock))
            (seen_of (T.told self.new.tape) (seen_on D.disk self.new.slot.device) self.new.slot.open_at
            (plug_of L.link self.new.optional_link) (A.app self.new.app) (C.readings self.new.clock))
            (writes result bytes.now) }
        ensures called { Called (seen_of (T.told self.old.tape) (seen_on D.disk self.old.slot.device) self.old.slot.open_at
            (plug_of L.link self.old.optional_link) (A.app self.old.app) (C.readings self.old.clock))
            (seen_of (T.told self.new.tape) (seen_on D.disk self.new.slot.device) self.new.slot.open_at
            (plug_of L.link self.new.optional_link) (A.app self.new.app) (C.readings self.new.clock))
            (Write bytes.now result ∷ []) }
        ensures in_bytes { IsInBytes result bytes.now }
        ensures link { LinkWrites result bytes.now (plug_of L.link self.old.optional_link)
            (plug_of L.link self.new.optional_link) }
        ensures opens { self.new.slot.open_at ≡ self.old.slot.open_at }
        ensures others { self.new ≡ with_link_of self.old self.new }
    {
        if self.tape.reserve(&Noted::Wrote(bytes)).is_err() {
            return WriteTurn::OutOfMemory;
        }
        match self.optional_link.write(bytes) {
            WriteTurn::Done => {
                self.tape.note(&Noted::Wrote(bytes));
                WriteTurn::Done
            }
            WriteTurn::Failed(n) => {
                self.tape.note(&Noted::Wrote(&bytes[..n]));
                WriteTurn::Failed(n)
            }
            WriteTurn::OutOfMemory => WriteTurn::OutOfMemory,
        }
    }

    #[tactic(auto, using(crate::proofs::Carrying::calls))]
    fn keep(&mut self, kept: &Record) -> Result<(), KeepFault>
        requires payload { IsKeepable kept.now }
        requires place { HasPlace kept.now self.old.slot.open_at }
        requires named { NamesApp kept.now
            (seen_of (T.told self.old.tape) (seen_on D.disk self.old.slot.device) self.old.slot.open_at
            (plug_of L.link self.old.optional_link) (A.app self.old.app) (C.readings self.old.clock)) }
        ensures noted { Trace (seen_of (T.told self.old.tape) (seen_on D.disk self.old.slot.device) self.old.slot.open_at
            (plug_of L.link self.old.optional_link) (A.app self.old.app) (C.readings self.old.clock))
            (seen_of (T.told self.new.tape) (seen_on D.disk self.new.slot.device) self.new.slot.open_at
            (plug_of L.link self.new.optional_link) (A.app self.new.app) (C.readings self.new.clock))
            (keeps result kept.now) }
        ensures called { Called (seen_of (T.told self.old.tape) (seen_on D.disk self.old.slot.device) self.old.slot.open_at
            (plug_of L.link self.old.optional_link) (A.app self.old.app) (C.readings self.old.clock))
            (seen_of (T.told self.new.tape) (seen_on D.disk self.new.slot.device) self.new.slot.open_at
            (plug_of L.link self.new.optional_link) (A.app self.new.app) (C.readings self.new.clock))
            (Keep kept.now result ∷ []) }
        ensures opens { self.new.slot.open_at ≡ open_kept result kept.now self.old.slot.open_at }
        // A crash at any moment of it leaves the end from before, or with the record, and at Ok the latter.
        ensures leaves { KeepLeft result kept.now (disk_seen D.disk self.old) (disk_seen D.disk self.new) }
        ensures none { result ≡ Err TheKeepFault.OutOfMemory → disk_in self.new ≡ disk_in self.old }
        ensures others { self.new ≡ with_store_of self.old self.new }
    {
        if self.tape.reserve(&Noted::Kept(kept)).is_err() {
            return Err(KeepFault::OutOfMemory);
        }
        match self.slot.keep(kept) {
            Ok(()) => {
                self.tape.note(&Noted::Kept(kept));
                Ok(())
            }
            Err(KeepFault::Failed) => {
                self.tape.note(&Noted::KeepLost(kept));
                Err(KeepFault::Failed)
            }
            Err(KeepFault::OutOfMemory) => Err(KeepFault::OutOfMemory),
        }
    }

    #[tactic(auto, using(crate::proofs::Carrying::calls))]
    fn fetch(&mut self, n: SeqNum, into: &mut Vec<u8>) -> Result<Kind, FetchFault>
        requires { HasEntry n self.old.slot.open_at }
        ensures noted { Trace (seen_of (T.told self.old.tape) (seen_on D.disk self.old.slot.device) self.old.slot.open_at
            (plug_of L.link self.old.optional_link) (A.app self.old.app) (C.readings self.old.clock))
            (seen_of (T.told self.new.tape) (seen_on D.disk self.new.slot.device) self.new.slot.open_at
            (plug_of L.link self.new.optional_link) (A.app self.new.app) (C.readings self.new.clock)) (fetches result) }
        ensures called { Called (seen_of (T.told self.old.tape) (seen_on D.disk self.old.slot.device) self.old.slot.open_at
            (plug_of L.link self.old.optional_link) (A.app self.old.app) (C.readings self.old.clock))
            (seen_of (T.told self.new.tape) (seen_on D.disk self.new.slot.device) self.new.slot.open_at
            (plug_of L.link self.new.optional_link) (A.app self.new.app) (C.readings self.new.clock))
            (Fetch n result into.new.items ∷ []) }
        ensures answers { FetchAnswers result n into.new.items
            (seen_of (T.told self.old.tape) (seen_on D.disk self.old.slot.device) self.old.slot.open_at
            (plug_of L.link self.old.optional_link) (A.app self.old.app) (C.readings self.old.clock)) }
        ensures opens { self.new.slot.open_at ≡ open_fetched result self.old.slot.open_at }
        ensures others { self.new ≡ with_store_of self.old self.new }
        ensures tape { tape_in self.new ≡ tape_in self.old }
    {
        self.slot.fetch(n, into)
    }

    #[tactic(auto, using(crate::proofs::Carrying::calls))]
    fn hand(&mut self, h: &Handed<'_>) -> Said
        requires { HasKind h.now }
        ensures noted { Trace (seen_of (T.told self.old.tape) (seen_on D.disk self.old.slot.device) self.old.slot.open_at
            (plug_of L.link self.old.optional_link) (A.app self.old.app) (C.readings self.old.clock))
            (seen_of (T.told self.new.tape) (seen_on D.disk self.new.slot.device) self.new.slot.open_at
            (plug_of L.link self.new.optional_link) (A.app self.new.app) (C.readings self.new.clock))
            (hands result h.now) }
        ensures called { Called (seen_of (T.told self.old.tape) (seen_on D.disk self.old.slot.device) self.old.slot.open_at
            (plug_of L.link self.old.optional_link) (A.app self.old.app) (C.readings self.old.clock))
            (seen_of (T.told self.new.tape) (seen_on D.disk self.new.slot.device) self.new.slot.open_at
            (plug_of L.link self.new.optional_link) (A.app self.new.app) (C.readings self.new.clock))
            (Hand h.now.number h.now.marked h.now.body.now result ∷ []) }
        ensures app { AppTakes result h.now (A.app (app_in self.old)) (A.app (app_in self.new)) }
        ensures opens { self.new.slot.open_at ≡ self.old.slot.open_at }
        ensures others { self.new ≡ with_app_of self.old self.new }
    {
        if self.tape.reserve(&Noted::Handed(h)).is_err() {
            return Said::OutOfMemory;
        }
        match self.app.hand(h) {
            Said::Taken => {
                self.tape.note(&Noted::Handed(h));
                Said::Taken
            }
            Said::Failed => {
                self.tape.note(&Noted::HandLost(h));
                Said::Failed
            }
            Said::OutOfMemory => Said::OutOfMemory,
        }
    }

    #[tactic(auto, using(crate::proofs::Carrying::calls))]
    fn again(&mut self, n: SeqNum, kind: &[u8], body: &[u8]) -> Again
        requires { IsKindOf kind.now body.now }
        ensures noted { Trace (seen_of (T.told self.old.tape) (seen_on D.disk self.old.slot.device) self.old.slot.open_at
            (plug_of L.link self.old.optional_link) (A.app self.old.app) (C.readings self.old.clock))
            (seen_of (T.told self.new.tape) (seen_on D.disk self.new.slot.device) self.new.slot.open_at
            (plug_of L.link self.new.optional_link) (A.app self.new.app) (C.readings self.new.clock))
            (notes_of_again result n) }
        ensures called { Called (seen_of (T.told self.old.tape) (seen_on D.disk self.old.slot.device) self.old.slot.open_at
            (plug_of L.link self.old.optional_link) (A.app self.old.app) (C.readings self.old.clock))
            (seen_of (T.told self.new.tape) (seen_on D.disk self.new.slot.device) self.new.slot.open_at
            (plug_of L.link self.new.optional_link) (A.app self.new.app) (C.readings self.new.clock))
            (calls.Again n body.now result ∷ []) }
        ensures opens { self.new.slot.open_at ≡ self.old.slot.open_at }
        ensures app { A.app (app_in self.new) ≡ A.app (app_in self.old) }
        ensures others { self.new ≡ with_app_of self.old self.new }
    {
        if self.tape.reserve(&Noted::Allowed(0)).is_err() {
            return Again::OutOfMemory;
        }
        match self.app.again(n, kind, body) {
            Again::Send => {
                self.tape.note(&Noted::Allowed(n.get()));
                Again::Send
            }
            Again::Withhold => {
                self.tape.note(&Noted::Withheld(n.get()));
                Again::Withhold
            }
            Again::OutOfMemory => Again::OutOfMemory,
        }
    }

    #[tactic(auto, using(crate::proofs::Carrying::calls))]
    fn ask(&mut self) -> Option<Draft>
        ensures noted { Trace (seen_of (T.told self.old.tape) (seen_on D.disk self.old.slot.device) self.old.slot.open_at
            (plug_of L.link self.old.optional_link) (A.app self.old.app) (C.readings self.old.clock))
            (seen_of (T.told self.new.tape) (seen_on D.disk self.new.slot.device) self.new.slot.open_at
            (plug_of L.link self.new.optional_link) (A.app self.new.app) (C.readings self.new.clock))
            (Asked (option_map draft_body result) ∷ []) }
        ensures called { Called (seen_of (T.told self.old.tape) (seen_on D.disk self.old.slot.device) self.old.slot.open_at
            (plug_of L.link self.old.optional_link) (A.app self.old.app) (C.readings self.old.clock))
            (seen_of (T.told self.new.tape) (seen_on D.disk self.new.slot.device) self.new.slot.open_at
            (plug_of L.link self.new.optional_link) (A.app self.new.app) (C.readings self.new.clock))
            (Ask (option_map draft_body result) ∷ []) }
        ensures opens { self.new.slot.open_at ≡ self.old.slot.open_at }
        ensures app { AppAsks (option_map draft_body result) (A.app (app_in self.old)) (A.app (app_in self.new)) }
        ensures others { self.new ≡ with_app_alone_of self.old self.new }
    {
        self.app.ask()
    }
}
