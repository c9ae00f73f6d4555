//! What a message that was read is after its header: one of the application, a session message with what it says,
//! or one with a fault. A session gives the event to its machine.
ghost use Rattle.std.specs.Prelude.{◌≡◌, ℕ, List, Some, IfOk};
ghost use Rattle.fix_base.specs.Fields.{Field};
ghost use Rattle.fix_base.specs.Shape.{IsFrame};
ghost use Rattle.fix_base.specs.Says.{HasFields, value_of, is_yes};
ghost use Rattle.fix_machine.specs.Event.{verdict_seen};
ghost use Rattle.fix_session.specs.Judged.{rules_seen, Judged, RuledOut};

use crate::Rules;
use fix_admin::read_admin;
use fix_base::tags::{GAP_FILL_FLAG, RESET_SEQ_NUM_FLAG};
use fix_base::{Fault, OutOfMemory, is_admin_type};
use fix_fields::first_value;
use fix_machine::Verdict;
use fix_validate::check;
use std::alloc::Global;

/// What the message is after its header: the first fault, which for a session message is that of its own fields before
/// that of the dictionary; else what it says.
pub fn judge<'a>(
    alloc: Global,
    rules: &Rules<'_>,
    frame: &'a [u8],
    kind: &[u8],
) -> Result<Verdict<'a>, OutOfMemory>
    requires frame { IsFrame frame.now }
    requires kind { (fs : List Field) → HasFields frame.now fs → value_of 35 fs ≡ Some kind.now }
    ensures { IfOk result (λ verdict. Judged (rules_seen rules.now) frame.now kind.now (verdict_seen verdict)) }
{
    if !is_admin_type(kind) {
        return match ruled_out(alloc, rules, frame)? {
            Some(fault) => Ok(Verdict::Bad(fault)),
            None => Ok(Verdict::App),
        };
    }
    match read_admin(frame) {
        Err(fault) => Ok(Verdict::Bad(fault)),
        Ok(admin) => match ruled_out(alloc, rules, frame)? {
            Some(fault) => Ok(Verdict::Bad(fault)),
            None => Ok(Verdict::Admin(admin)),
        },
    }
}

// The first fault by the dictionary, where the rules have one.
fn ruled_out(alloc: Global, rules: &Rules<'_>, frame: &[u8]) -> Result<Option<Fault>, OutOfMemory>
    requires frame { IsFrame frame.now }
    ensures { IfOk result (RuledOut (rules_seen rules.now) frame.now) }
{
    match rules.dict {
        None => Ok(None),
        Some(dict) => check(alloc, dict, frame, rules.order),
    }
}

/// Whether the first GapFillFlag (123) is Y.
pub fn is_gap_fill(frame: &[u8]) -> bool
    requires { IsFrame frame.now }
    ensures { (fs : List Field) → HasFields frame.now fs → result ≡ is_yes (value_of 123 fs) }
{
    is_flagged(frame, GAP_FILL_FLAG)
}

/// Whether the first ResetSeqNumFlag (141) is Y.
pub fn asks_for_a_reset(frame: &[u8]) -> bool
    requires { IsFrame frame.now }
    ensures { (fs : List Field) → HasFields frame.now fs → result ≡ is_yes (value_of 141 fs) }
{
    is_flagged(frame, RESET_SEQ_NUM_FLAG)
}

// The first value of the tag is Y.
fn is_flagged(frame: &[u8], tag: u32) -> bool
    requires { IsFrame frame.now }
    ensures { (fs : List Field) → HasFields frame.now fs → result ≡ is_yes (value_of tag fs) }
{
    match first_value(frame, tag) {
        None => false,
        Some(value) => value == b"Y".as_slice(),
    }
}
