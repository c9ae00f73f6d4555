//! What an application answers to a session. `fix_rim` calls it to hand a message over, and to ask for a
//! draft.
ghost use Rattle.std.specs.Prelude.{◌≡◌, option_map};
ghost use Rattle.fix_fields.specs.Drafted.{draft_body};
ghost use Rattle.fix_parts.specs.App.{AppSeen, AppTakes, AppAsks};
ghost use Rattle.fix_outside.specs.Handing.{HasKind, IsKindOf};

use fix_base::{Bytes, SeqNum};
use fix_fields::Draft;
use fix_outside::{Again, Handed, Said};

/// A message that an application took.
#[derive(Debug, PartialEq, Eq, Drop)]
pub struct Given {
    /// MsgSeqNum (34).
    pub number: u32,
    /// PossDupFlag (43) was Y.
    pub marked: bool,
    /// The body.
    pub body: Bytes,
}

/// An application.
pub trait App {
    /// The messages that it took, its drafts, where they are told, and how often it failed.
    ghost app: { Self → AppSeen };

    /// Hands the message over.
    fn hand(&mut self, h: &Handed<'_>) -> Said
        requires { HasKind h.now }
        ensures moves { AppTakes result h.now (app self.old) (app self.new) };

    /// Whether the message of this number, of this MsgType (35) and with this body, is sent again, as a ResendRequest
    /// (2) asked for it. Each is, unless an application says otherwise here: a stale order, say, may be withheld, and
    /// is withheld for good then.
    fn again(&mut self, _n: SeqNum, _kind: &[u8], _body: &[u8]) -> Again
        requires { IsKindOf _kind.now _body.now }
        ensures stays { app self.new ≡ app self.old }
    {
        Again::Send
    }

    /// Asks for a message to be sent.
    fn ask(&mut self) -> Option<Draft>
        ensures asks { AppAsks (option_map draft_body result) (app self.old) (app self.new) };
}
