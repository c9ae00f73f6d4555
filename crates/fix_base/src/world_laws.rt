//! What holds of two ends of a session and the connections between them, each law on a function
//! that does nothing.
ghost use Rattle.std.specs.Prelude.{◌≡◌, ℕ, List, [], ◌∷◌, ◌++◌, length, Some};
ghost use Rattle.fix_base.specs.Lists.{IsPrefixOf};
ghost use Rattle.fix_base.specs.Session.{Identity, IsValidIdentity, mirrored};
ghost use Rattle.fix_base.specs.End.{Reset, End, GrowsTo};
ghost use Rattle.fix_base.specs.Payload.{IsPersistent};
ghost use Rattle.fix_base.specs.Act;
ghost use Rattle.fix_base.specs.Act.{Act};
ghost use Rattle.fix_base.specs.Wrote.{Wrote, WroteWhole, WritesNext};
ghost use Rattle.fix_base.specs.EndStep.{Connection, EndState, EndStep, EndRun};
ghost use Rattle.fix_base.specs.Agrees.{Agrees};
ghost use Rattle.fix_base.specs.Reader.{bytes_read, AreOfOneConnection, ReaderKeepsUp};
ghost use Rattle.fix_base.specs.Resets.{EpochPeers, ResetEvent, ResetsRun, ResetsAgree, SharesReset, new_epoch_peers};
ghost use Rattle.fix_base.specs.World.{Event, World, WorldRun, EachPlain, WorldAgrees, Arrives, ComesAgain};
ghost use Rattle.fix_base.specs.World.{PassesWithheld, ComeInOrder, new_world};

/// What a writer has written stays lawful: nothing at the opening of a connection, with more
/// entries stored and more of them withheld, with one more original, gap fill, or repeat of a
/// message that isn't withheld, and where a write is cut at any byte.
pub fn what_a_writer_keeps_true()
    ensures start { (id : Identity) (e : End) → WroteWhole id e e (length e.out) [] }
    ensures grown { (id : Identity) (old new more : End) (last : ℕ) (w : List ℕ) → GrowsTo new more
        → WroteWhole id old new last w → WroteWhole id old more last w }
    ensures more { (id : Identity) (old new : End) (last to : ℕ) (w text : List ℕ) → WritesNext id new last text to
        → WroteWhole id old new last w → WroteWhole id old new to (w ++ text) }
    ensures wrote { (id : Identity) (old new : End) (last : ℕ) (w : List ℕ) → WroteWhole id old new last w
        → Wrote id old new w }
    ensures cut { (id : Identity) (old new : End) (w bytes : List ℕ) → IsPrefixOf bytes w → Wrote id old new w
        → Wrote id old new bytes }
{}

/// Over one connection, an end that agrees with its counterparty at the opening goes on agreeing
/// with it, however it reads, hands over, rejects, stores and stops, as long as the bytes that
/// come are a front of what such a counterparty may have written, and the counterparty keeps each
/// application message to be sent again. What it had before its connection comes marked
/// (PossDupFlag 43 = Y).
pub fn a_reader_keeps_up()
    ensures { (id : Identity) (s opened s' : EndState) (acts : List Act) (f0 f1 : End) (w : List ℕ) →
        IsPersistent f1 → Wrote (mirrored id) f0 f1 w →
        EndStep id s Act.Opened opened → EndRun id opened acts s' → AreOfOneConnection acts → IsPrefixOf (bytes_read acts) w →
        Agrees s.end.stored s.handled f0 → Agrees s.expected s.handled f0 → ReaderKeepsUp f0 f1 acts s' }
{}

/// The same after a Reset that an end keeps on the connection, as where its counterparty's Logon (35=A)
/// told of one by ResetSeqNumFlag (141) = Y: it has handled nothing since, so nothing is asked of what it
/// handled before. All that it reads on the connection, before and after the Reset, is a front of what such a
/// counterparty may have written there.
pub fn a_reader_keeps_up_after_a_reset()
    ensures { (id : Identity) (s reset s' : EndState) (t : ℕ) (acts : List Act) (f0 f1 : End) (w : List ℕ) →
        IsPersistent f1 → Wrote (mirrored id) f0 f1 w →
        EndStep id s (Act.Kept (Reset t)) reset → EndRun id reset acts s' → AreOfOneConnection acts →
        ((c : Connection) → reset.connection ≡ Some c → IsPrefixOf (c.read ++ bytes_read acts) w) → ReaderKeepsUp f0 f1 acts s' }
{}

/// Two ends that both keep to FIX's rules of numbering, resending and gap filling agree after
/// whatever happens: connections that break at any byte, crashes of either, records of which
/// nobody knows whether they were kept. No application message is lost but those that its sender
/// withheld from being sent again, and none is made up, changed or put out of order; one that an
/// application was given before comes marked (PossDupFlag 43 = Y). This is said of ends whose
/// stores are not reset, and that keep each application message to be sent again.
pub fn world_agrees()
    ensures { (id : Identity) (w : World) (events : List Event) → WorldRun id new_world events w → EachPlain events
        → WorldAgrees events w }
{}

/// Between two such ends a message that comes for its first time comes with a number above all that
/// came before: one that was withheld never comes after a later one.
pub fn no_withheld_message_comes_late()
    ensures { (id : Identity) (w : World) (events : List Event) → WorldRun id new_world events w → EachPlain events
        → ComeInOrder w }
{}

/// A message does arrive: between any two CompIDs there is a run of two new ends in which one
/// keeps a NewOrderSingle (35=D) and writes it, and the other reads it, hands it over and expects
/// the next MsgSeqNum (34). So the laws above are not about nothing.
pub fn a_message_arrives()
    ensures { (id : Identity) → IsValidIdentity id → Arrives id }
{}

/// A message does come twice, and is marked then: the reader hands a NewOrderSingle (35=D) over and
/// stops before it keeps the next MsgSeqNum (34). On the next connection the writer repeats the
/// order with PossDupFlag (43) = Y, and the reader hands it over again, marked.
pub fn a_message_comes_again()
    ensures { (id : Identity) → IsValidIdentity id → ComesAgain id }
{}

/// A message may be withheld: the writer keeps a NewOrderSingle (35=D) that never goes out, and
/// withholds it on the next connection. It fills the gap over it, and writes a second order. The
/// reader passes the first number, hands the second order over, and expects the third.
pub fn a_message_is_withheld()
    ensures { (id : Identity) → IsValidIdentity id → PassesWithheld id }
{}

/// Two new ends that reset by Logon (ResetSeqNumFlag 141 = Y): the initiator asks for a reset, which it
/// does again on each connection until it is answered, and the acceptor resets where its first message read
/// on a connection is such a Logon. Connections break at any byte, both stop, and records are lost, those for
/// a reset too. Where no record is in doubt, either the last reset is shared, and the two agree on all since
/// then as they do where nothing is reset; or the initiator is ahead: it has asked, and handled nothing
/// since. A reset of which nobody knows whether it was kept counts from where it turns out to be. Of each two
/// times that an application was given a message since one reset, the later one is marked (PossDupFlag 43 =
/// Y). This is said of ends that keep no other reset, and keep each application message to be sent again.
pub fn resets_are_shared()
    ensures { (id : Identity) (w : EpochPeers) (events : List ResetEvent) → ResetsRun id new_epoch_peers events w
        → ResetsAgree w }
{}

/// A reset may be shared: between any two CompIDs there is a run in which the initiator asks for a reset,
/// the acceptor reads the Logon (35=A) with ResetSeqNumFlag (141) = Y, resets and answers with one, and the
/// initiator confirms. Then the initiator keeps and writes a NewOrderSingle (35=D), the acceptor hands it
/// over and expects the number after it, and the two agree.
pub fn a_reset_is_shared()
    ensures { (id : Identity) → IsValidIdentity id → SharesReset id }
{}
