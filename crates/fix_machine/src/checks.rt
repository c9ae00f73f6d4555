//! Checks the CompIDs, times, PossDupFlag and content of a message, and gives the first fault. `logged_on`
//! calls `checked`, and `await_logon` calls `is_timely` alone.
ghost use Rattle.std.specs.Prelude.{◌≡◌, ◌≤◌, option_map};
ghost use Rattle.fix_base.specs.Payload.{LAST_TIME};
ghost use Rattle.fix_fields.specs.Header.{header_of};
ghost use Rattle.fix_machine.specs.Event.{verdict_seen};
ghost use Rattle.fix_machine.specs.Checks as checks;
ghost use Rattle.fix_machine.specs.Checks.{finding_seen};
ghost use Rattle.fix_machine.specs.Answer.{wrong_seen};
ghost use Rattle.fix_machine.specs.Read.{inbound_seen};

use crate::answer::{Wrong, is_named, wrong_at};
use crate::event::Refusal;
use crate::inbound::Inbound;
use crate::{MachineState, Options, Verdict};
use fix_admin::LogoutText;
use fix_base::{Fault, Identity};
use fix_fields::Envelope;

/// What a check found.
#[derive(Clone, Copy)]
pub enum Finding {
    /// Nothing.
    Fine,
    /// The message is to be rejected.
    Reject(Wrong),
    /// The message is to be rejected, and the connection closed.
    RejectAndClose {
        fault: Wrong,
        text: LogoutText,
        cause: Refusal,
    },
}

// The checks in their order: CompIDs, then times, then content.
pub fn checked(options: &Options, state: &MachineState, inbound: &Inbound<'_>) -> Finding
    requires { state.now.reading ≤ LAST_TIME }
    ensures { finding_seen result ≡ checks.checked options.now state.now (inbound_seen inbound.now) }
{
    match comp_ids(&options.identity, inbound.head) {
        Finding::Fine => times(options, state, inbound),
        found => found,
    }
}

// Whether the time is at most so many seconds from the reading.
pub fn is_timely(latency: Option<u32>, reading: u64, time: i64) -> bool
    requires { reading ≤ LAST_TIME }
    ensures { result ≡ checks.is_timely latency reading time }
{
    match latency {
        None => true,
        Some(seconds) => {
            let most = i64::from(seconds) * 1_000_000;
            let reading = reading as i64;
            time <= reading + most && reading <= time.saturating_add(most)
        }
    }
}

// A fault as its numbers.
pub fn wrong_of(fault: &Fault) -> Wrong
    ensures { wrong_seen result ≡ fault.now }
{
    match fault.tag {
        None => Wrong {
            reason: fault.reason,
            tag: None,
        },
        Some(tag) => Wrong {
            reason: fault.reason,
            tag: Some(tag.get()),
        },
    }
}

// SendingTime (52), and what stands after it.
fn times(options: &Options, state: &MachineState, inbound: &Inbound<'_>) -> Finding
    requires { state.now.reading ≤ LAST_TIME }
    ensures { finding_seen result ≡ checks.times options.now state.now (inbound_seen inbound.now) }
{
    match sending_time(
        options.latency,
        state.reading,
        inbound.head.sent,
        inbound.sent,
    ) {
        Finding::Fine => marks(inbound),
        found => found,
    }
}

// PossDupFlag (43), and the content.
fn marks(inbound: &Inbound<'_>) -> Finding
    ensures { finding_seen result ≡ checks.marks (inbound_seen inbound.now) }
{
    match poss_dup(inbound, inbound.head.dup) {
        Finding::Fine => content(inbound.verdict),
        found => found,
    }
}

// SenderCompID (49) and TargetCompID (56).
fn comp_ids(identity: &Identity, head: &Envelope<'_>) -> Finding
    ensures { finding_seen result ≡ checks.comp_ids identity.now (header_of head.now) }
{
    if head.sender.is_none() {
        return Finding::Reject(wrong_at(1, 49));
    }
    if head.target.is_none() {
        return Finding::Reject(wrong_at(1, 56));
    }
    if !is_named(head.sender, identity.target.as_slice()) {
        return wrong_comp_id(49);
    }
    if !is_named(head.target, identity.sender.as_slice()) {
        return wrong_comp_id(56);
    }
    Finding::Fine
}

fn wrong_comp_id(tag: u32) -> Finding
    requires first { 1 ≤ tag }
    requires last { tag ≤ 999999999 }
    ensures { finding_seen result ≡ checks.wrong_comp_id tag }
{
    Finding::RejectAndClose {
        fault: wrong_at(9, tag),
        text: LogoutText::CompId,
        cause: Refusal::CompId,
    }
}

fn wrong_time(tag: u32) -> Finding
    requires first { 1 ≤ tag }
    requires last { tag ≤ 999999999 }
    ensures { finding_seen result ≡ checks.wrong_time tag }
{
    Finding::RejectAndClose {
        fault: wrong_at(10, tag),
        text: LogoutText::SendingTime,
        cause: Refusal::SendingTime,
    }
}

// SendingTime (52).
fn sending_time(
    latency: Option<u32>,
    reading: u64,
    value: Option<&[u8]>,
    time: Option<i64>,
) -> Finding
    requires { reading ≤ LAST_TIME }
    ensures { finding_seen result ≡ checks.sending_time latency reading (option_map (λ v. v.now) value.entry) time }
{
    if value.is_none() {
        return Finding::Reject(wrong_at(1, 52));
    }
    let Some(time) = time else {
        return Finding::Reject(wrong_at(6, 52));
    };
    if is_timely(latency, reading, time) {
        Finding::Fine
    } else {
        wrong_time(52)
    }
}

// OrigSendingTime (122) of a message that is sent again.
fn orig_sending_time(value: Option<&[u8]>, time: Option<i64>, sent: Option<i64>) -> Finding
    ensures { finding_seen result ≡ checks.orig_sending_time (option_map (λ v. v.now) value.entry) time sent }
{
    if value.is_none() {
        return Finding::Reject(wrong_at(1, 122));
    }
    let Some(time) = time else {
        return Finding::Reject(wrong_at(6, 122));
    };
    if is_later(time, sent) {
        wrong_time(122)
    } else {
        Finding::Fine
    }
}

// Whether the time is later than that of SendingTime (52).
fn is_later(time: i64, sent: Option<i64>) -> bool
    ensures { result ≡ checks.is_later time sent }
{
    match sent {
        None => false,
        Some(sent) => sent < time,
    }
}

// PossDupFlag (43).
fn poss_dup(inbound: &Inbound<'_>, value: Option<&[u8]>) -> Finding
    ensures { finding_seen result ≡ checks.poss_dup (inbound_seen inbound.now) (option_map (λ v. v.now) value.entry) }
{
    let Some(value) = value else {
        return Finding::Fine;
    };
    if value == b"N".as_slice() {
        return Finding::Fine;
    }
    if value == b"Y".as_slice() {
        return orig_sending_time(inbound.head.first_sent, inbound.first_sent, inbound.sent);
    }
    Finding::Reject(wrong_at(6, 43))
}

// The fault that reading or validation found.
fn content(verdict: &Verdict<'_>) -> Finding
    ensures { finding_seen result ≡ checks.content (verdict_seen verdict.now) }
{
    match verdict {
        Verdict::App => Finding::Fine,
        Verdict::Admin(_) => Finding::Fine,
        Verdict::Bad(fault) => Finding::Reject(wrong_of(fault)),
    }
}
