//! What a frame presents to a session. `handling` reads each frame by this, `machine` decides on it, and
//! `performing` hands its body to the application.
ghost use Rattle.std.specs.Prelude.{◌≡◌, ◌≤◌, ℕ, pos, List, Some, IfSome, option_map};
ghost use Rattle.std.specs.Bool.{MatchBool};
ghost use Rattle.fix_base.specs.Fields.{Field};
ghost use Rattle.fix_base.specs.Shape.{IsFrame};
ghost use Rattle.fix_base.specs.Says.{HasFields, value_of};
ghost use Rattle.fix_engine.specs.Inbound.{IsOnly, IsSent, HasInt, KeepsNumbers, IsPlainLogon, IsLogon, IsInbound};
ghost use Rattle.fix_engine.specs.ReadInbound.{inbound_of};

use fix_fields::{Envelope, envelope, first_value, int, utc_time};

/// The longest HeartBtInt (108) in seconds: a day.
const LONGEST_HEART: i64 = 86_400;

/// What an inbound message presents to the session.
#[derive(Clone, Copy)]
pub struct Inbound<'a> {
    /// The whole frame.
    pub frame: &'a [u8],
    pub head: Envelope<'a>,
    /// SendingTime (52) in microseconds since 1970, where it is a UTCTimestamp.
    pub sent: Option<i64>,
    /// HeartBtInt (108), where the fields are those of a Logon that can be taken.
    pub heart: Option<u32>,
}

/// Reads what the frame presents.
pub fn read_inbound(frame: &[u8]) -> Inbound<'_>
    requires { IsFrame frame.now }
    ensures frame { result.frame.now ≡ frame.now }
    ensures presents { IsInbound frame.now (inbound_of result) }
{
    let head = envelope(frame);
    let sent = sent_of(head.sent);
    let heart = heart_of(frame, head.kind);
    Inbound {
        frame,
        head,
        sent,
        heart,
    }
}

// The time that SendingTime (52) says, where it says one.
fn sent_of(value: Option<&[u8]>) -> Option<i64>
    ensures { IsSent (option_map (λ v. v.now) value.entry) result }
{
    match value {
        None => None,
        Some(value) => utc_time(value),
    }
}

// HeartBtInt (108), where the message is a Logon that can be taken.
fn heart_of(frame: &[u8], kind: &[u8]) -> Option<u32>
    requires frame { IsFrame frame.now }
    requires kind { (fields : List Field) → HasFields frame.now fields → value_of 35 fields ≡ Some kind.now }
    ensures { (fields : List Field) → HasFields frame.now fields → IsOnly (IsLogon fields) result }
{
    if !is_plain_logon(frame, kind) {
        return None;
    }
    match number_at(frame, 108) {
        None => None,
        Some(heart) => seconds_of(heart),
    }
}

// Whether the message is a Logon without encryption that keeps the sequence numbers.
fn is_plain_logon(frame: &[u8], kind: &[u8]) -> bool
    requires frame { IsFrame frame.now }
    requires kind { (fields : List Field) → HasFields frame.now fields → value_of 35 fields ≡ Some kind.now }
    ensures { (fields : List Field) → HasFields frame.now fields →
        MatchBool result (IsPlainLogon fields) (IsPlainLogon fields → ⊥) }
{
    if kind != b"A".as_slice() {
        return false;
    }
    match number_at(frame, 98) {
        None => false,
        Some(method) => {
            if method != 0 {
                return false;
            }
            keeps_numbers(frame)
        }
    }
}

// Whether ResetSeqNumFlag (141) is absent or N.
fn keeps_numbers(frame: &[u8]) -> bool
    requires { IsFrame frame.now }
    ensures { (fields : List Field) → HasFields frame.now fields → KeepsNumbers fields result }
{
    match first_value(frame, 141) {
        None => true,
        Some(value) => value == b"N".as_slice(),
    }
}

// The number that the first field with this tag says, where it is an int.
fn number_at(frame: &[u8], tag: u32) -> Option<i64>
    requires { IsFrame frame.now }
    ensures { (fields : List Field) → HasFields frame.now fields → IsOnly (HasInt tag fields) result }
{
    match first_value(frame, tag) {
        None => None,
        Some(value) => int(value),
    }
}

// The seconds of a HeartBtInt (108), from 0 to a day.
fn seconds_of(heart: i64) -> Option<u32>
    ensures known { IfSome result (λ seconds. (heart ≡ pos seconds) × (seconds ≤ 86400)) }
    ensures each { (seconds : ℕ) → heart ≡ pos seconds → seconds ≤ 86400 → result ≡ Some seconds }
{
    if heart < 0 {
        return None;
    }
    if heart > LONGEST_HEART {
        return None;
    }
    Some(heart as u32)
}
