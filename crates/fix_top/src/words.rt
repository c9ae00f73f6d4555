//! Reads the arguments of a program: who the session is between. `serve` calls this first, and `main` of
//! fixacceptor asks here before it makes its parts.
ghost use Rattle.std.specs.Prelude.{◌≡◌, [], ◌∷◌, map, MatchBool, IfOk, IfSome, IfNone};
ghost use Rattle.fix_top.specs.Words.{IsForm, IsNoForm, identity_of};

use fix_base::{Begin, Bytes, Identity, OutOfMemory, is_comp_id};
use std::alloc::Global;

/// Who a session is between, as the arguments say it.
#[derive(Clone, Copy)]
pub struct Named<'a> {
    pub begin: Begin,
    /// This end.
    pub sender: &'a [u8],
    /// The counterparty.
    pub target: &'a [u8],
}

/// What the arguments name: `--stdio`, BeginString (8), this end's CompID, and the counterparty's.
pub fn read_words<'a>(words: &'a [&'a str]) -> Option<Named<'a>>
    ensures known { IfSome result (λ n. IsForm (map (λ w. w.now) words.now) (identity_of n)) }
    ensures each { IfNone result (IsNoForm (map (λ w. w.now) words.now)) }
{
    let [mode, begin, sender, target] = words else {
        return None;
    };
    named_in(
        mode.as_bytes(),
        begin.as_bytes(),
        sender.as_bytes(),
        target.as_bytes(),
    )
}

/// Whether the arguments name a session.
pub fn asks_for_session(words: &[&str]) -> bool
    ensures { MatchBool result (IsNoForm (map (λ w. w.now) words.now) → ⊥) (IsNoForm (map (λ w. w.now) words.now)) }
{
    match read_words(words) {
        Some(_) => true,
        None => false,
    }
}

/// The identity that is named.
pub fn identity_from(alloc: Global, named: &Named<'_>) -> Result<Identity, OutOfMemory>
    ensures { IfOk result (λ made. made ≡ identity_of named.now) }
{
    Ok(Identity {
        begin: named.begin,
        sender: Bytes::copy(alloc, named.sender)?,
        target: Bytes::copy(alloc, named.target)?,
    })
}

// What four arguments name, if they name a session.
fn named_in<'a>(mode: &[u8], begin: &[u8], sender: &'a [u8], target: &'a [u8]) -> Option<Named<'a>>
    ensures known { IfSome result (λ n. IsForm (mode.now ∷ begin.now ∷ sender.now ∷ target.now ∷ []) (identity_of n)) }
    ensures each { IfNone result (IsNoForm (mode.now ∷ begin.now ∷ sender.now ∷ target.now ∷ [])) }
{
    if mode != b"--stdio".as_slice() {
        return None;
    }
    let begin = Begin::of(begin)?;
    if !is_comp_id(sender) || !is_comp_id(target) {
        return None;
    }
    Some(Named {
        begin,
        sender,
        target,
    })
}
