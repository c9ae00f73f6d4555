//! Opens a session, runs its turns, and gives the status of the program. `main` of fixacceptor and `sample`
//! call `serve_stdio`.
ghost use Rattle.std.specs.Prelude.{◌≡◌, ◌≢◌, ◌↔◌, map};
ghost use Rattle.fix_base.specs.declared.identity.Identity.{Identity as TheIdentity};
ghost use Rattle.fix_base.specs.Session.{IsValidIdentity};
ghost use Rattle.fix_base.specs.Trace.{acts_of, HasTrace};
ghost use Rattle.fix_top.specs.Words.{IsForm, IsNoForm};
ghost use Rattle.fix_top.specs.Serve.{Served, ServedLawfully, StatusHasCause};

use crate::status::{MEMORY, WORDS, load_status, status};
use crate::words::{identity_from, read_words};
use fix_base::{Identity, Status};
use fix_engine::{Outside, Session};
use std::alloc::Global;

/// Serves one session over one connection, as acceptor, in at most `turns` turns. The arguments are
/// `--stdio`, BeginString (FIX.4.2 or FIX.4.4), this program's own CompID, and the counterparty's.
/// The session goes on from what the message store has, whatever a stop left of it.
///
/// The status is 0 only where the counterparty's Logout was answered, 1 where the connection
/// closed otherwise, 2 where the arguments are others (then nothing is called), 5, 6 and 7 where the
/// store, the connection or the application failed, 5 also where the store's file is none, 8 where
/// the turns are spent, 9 where it is out of memory, 10 at a message that isn't answered yet, and 11
/// where every MsgSeqNum is used.
pub fn serve_stdio<O: Outside>(alloc: Global, words: &[&str], o: &mut O, turns: u64) -> Status
    // On other arguments.
    ensures words { (result.0 ≡ 2) ↔ IsNoForm (map (λ w. w.now) words.now) }
    ensures calls_none { result.0 ≡ 2 → o.new ≡ o.old }

    // On arguments that name a session.
    ensures serves { (id : TheIdentity) → IsForm (map (λ w. w.now) words.now) id
        → HasTrace (O.seen o.old) (O.seen o.new) (Served id turns (O.seen o.old) result.0) }
    ensures lawful { (id : TheIdentity) → IsForm (map (λ w. w.now) words.now) id
        → HasTrace (O.seen o.old) (O.seen o.new)
        (λ notes. ServedLawfully id (O.seen o.old).Holds (O.seen o.new).Holds result.0 (acts_of notes)) }
    ensures cause { StatusHasCause result.0 (O.seen o.old) (O.seen o.new) }
{
    let Some(named) = read_words(words) else {
        return WORDS;
    };
    match identity_from(alloc, &named) {
        Ok(identity) => serve(alloc, identity, o, turns),
        Err(_) => MEMORY,
    }
}

// Serves one connection of a session over what is stored.
fn serve<O: Outside>(alloc: Global, identity: Identity, o: &mut O, turns: u64) -> Status
    requires { IsValidIdentity identity }
    ensures serves { HasTrace (O.seen o.old) (O.seen o.new) (Served identity turns (O.seen o.old) result.0) }
    ensures lawful { HasTrace (O.seen o.old) (O.seen o.new)
        (λ notes. ServedLawfully identity (O.seen o.old).Holds (O.seen o.new).Holds result.0 (acts_of notes)) }
    ensures cause { StatusHasCause result.0 (O.seen o.old) (O.seen o.new) }
    ensures words { result.0 ≢ 2 }
{
    let mut session = match Session::open(alloc, o, identity) {
        Ok(session) => session,
        Err(fault) => return load_status(fault),
    };
    match session.begin(o) {
        Ok(()) => status(session.run_turns(o, turns)),
        Err(_) => MEMORY,
    }
}
