//! Reads what the frame of a session message says, by its MsgType (35). It takes each value by `reading`, and
//! `fix_machine` decides on what it gives.
ghost use Rattle.std.specs.Prelude.{◌≡◌, List, ℕ, Some};
ghost use Rattle.fix_base.specs.Fields.{Field};
ghost use Rattle.fix_base.specs.Shape.{IsFrame};
ghost use Rattle.fix_base.specs.Says.{HasFields, value_of};
ghost use Rattle.fix_admin.specs.Admin.{IsAdminFrame, answer_seen, admin_of, heartbeat_of, test_request_of};
ghost use Rattle.fix_admin.specs.Admin.{resend_request_of, reject_of, sequence_reset_of, logon_of, with_heart_of};

use crate::reading::{allow, fault, flag_at, need, number_at, version_in};
use crate::tags::{DEFAULT_APPL_VER_ID, OUT_OF_RANGE, REQUIRED_TAG_MISSING};
use fix_base::tags::{
    BEGIN_SEQ_NO, ENCRYPT_METHOD, END_SEQ_NO, GAP_FILL_FLAG, HEART_BT_INT, MSG_TYPE, NEW_SEQ_NO,
    REF_SEQ_NUM, RESET_SEQ_NUM_FLAG, TEST_REQ_ID,
};
use fix_base::{Fault, LAST_EXPECTED, LAST_SEQ_NUM, SeqNum};
use fix_fields::first_value;

/// The greatest HeartBtInt (108), in seconds: a day.
const LONGEST_HEART: u32 = 86_400;

/// What a session message says. What is lent is lent from its frame.
#[derive(Clone, Copy, Debug, PartialEq, Eq)]
pub enum Admin<'a> {
    /// Heartbeat (0), with TestReqID (112) where it answers a TestRequest.
    Heartbeat {
        id: Option<&'a [u8]>,
    },
    /// TestRequest (1), with TestReqID (112).
    TestRequest {
        id: &'a [u8],
    },
    /// ResendRequest (2) from BeginSeqNo (7) to EndSeqNo (16), which is 0 for all that follow.
    ResendRequest {
        from: SeqNum,
        to: u32,
    },
    /// Reject (3) of the message with this number, RefSeqNum (45): 0 to 999,999,999.
    Reject {
        about: u32,
    },
    /// SequenceReset (4) to NewSeqNo (36), 1 to 1,000,000,000, and whether GapFillFlag (123) is Y.
    SequenceReset {
        next: u32,
        gap: bool,
    },
    /// Logout (5).
    Logout,
    /// Logon (A) with HeartBtInt (108) in seconds, 0 to 86,400, whether ResetSeqNumFlag (141) is Y,
    /// and DefaultApplVerID (1137) where it is one of 4, 6, 7, 8 and 9.
    Logon {
        heart: u32,
        reset: bool,
        version: Option<u8>,
    },
}

/// What the frame of a session message says, or its first fault: the tags of its type in the order
/// of `specs/Admin.antt`, and for each the reason 1 where it is absent, 4 where it is empty, 6 where
/// its value isn't of its form, and 5 where it is out of bounds. The first field with a tag counts.
/// (FIX, "Administrative Messages".)
pub fn read_admin<'a>(frame: &'a [u8]) -> Result<Admin<'a>, Fault>
    requires frame { IsFrame frame.now }
    requires admin { IsAdminFrame frame.now }
    ensures { (type : List ℕ) (fs : List Field) → HasFields frame.now fs → value_of 35 fs ≡ Some type
        → answer_seen result
        ≡ admin_of type fs }
{
    let Some(kind) = first_value(frame, MSG_TYPE) else {
        return Err(fault(REQUIRED_TAG_MISSING, MSG_TYPE));
    };
    of_type(frame, kind)
}

// By MsgType (35).
fn of_type<'a>(frame: &'a [u8], kind: &[u8]) -> Result<Admin<'a>, Fault>
    requires { IsFrame frame.now }
    ensures { (fs : List Field) → HasFields frame.now fs → answer_seen result ≡ admin_of kind.now fs }
{
    if kind == b"0".as_slice() {
        return heartbeat(frame);
    }
    if kind == b"1".as_slice() {
        return test_request(frame);
    }
    if kind == b"2".as_slice() {
        return resend_request(frame);
    }
    if kind == b"3".as_slice() {
        return reject(frame);
    }
    if kind == b"4".as_slice() {
        return sequence_reset(frame);
    }
    if kind == b"5".as_slice() {
        return Ok(Admin::Logout);
    }
    logon(frame)
}

// Heartbeat (0).
fn heartbeat<'a>(frame: &'a [u8]) -> Result<Admin<'a>, Fault>
    requires { IsFrame frame.now }
    ensures { (fs : List Field) → HasFields frame.now fs → answer_seen result ≡ heartbeat_of fs }
{
    let id = allow(TEST_REQ_ID, first_value(frame, TEST_REQ_ID))?;
    Ok(Admin::Heartbeat { id })
}

// TestRequest (1).
fn test_request<'a>(frame: &'a [u8]) -> Result<Admin<'a>, Fault>
    requires { IsFrame frame.now }
    ensures { (fs : List Field) → HasFields frame.now fs → answer_seen result ≡ test_request_of fs }
{
    let id = need(TEST_REQ_ID, first_value(frame, TEST_REQ_ID))?;
    Ok(Admin::TestRequest { id })
}

// ResendRequest (2).
fn resend_request<'a>(frame: &'a [u8]) -> Result<Admin<'a>, Fault>
    requires { IsFrame frame.now }
    ensures { (fs : List Field) → HasFields frame.now fs → answer_seen result ≡ resend_request_of fs }
{
    let first = number_at(frame, BEGIN_SEQ_NO, 1, LAST_SEQ_NUM)?;
    let to = number_at(frame, END_SEQ_NO, 0, LAST_SEQ_NUM)?;
    if to != 0 {
        if to < first {
            return Err(fault(OUT_OF_RANGE, END_SEQ_NO));
        }
    }
    let Some(from) = SeqNum::new(first) else {
        return Err(fault(OUT_OF_RANGE, BEGIN_SEQ_NO));
    };
    Ok(Admin::ResendRequest { from, to })
}

// Reject (3).
fn reject<'a>(frame: &'a [u8]) -> Result<Admin<'a>, Fault>
    requires { IsFrame frame.now }
    ensures { (fs : List Field) → HasFields frame.now fs → answer_seen result ≡ reject_of fs }
{
    match number_at(frame, REF_SEQ_NUM, 0, LAST_SEQ_NUM) {
        Ok(about) => Ok(Admin::Reject { about }),
        Err(fault) => Err(fault),
    }
}

// SequenceReset (4).
fn sequence_reset<'a>(frame: &'a [u8]) -> Result<Admin<'a>, Fault>
    requires { IsFrame frame.now }
    ensures { (fs : List Field) → HasFields frame.now fs → answer_seen result ≡ sequence_reset_of fs }
{
    match number_at(frame, NEW_SEQ_NO, 1, LAST_EXPECTED) {
        Ok(next) => match flag_at(frame, GAP_FILL_FLAG) {
            Ok(gap) => Ok(Admin::SequenceReset { next, gap }),
            Err(fault) => Err(fault),
        },
        Err(fault) => Err(fault),
    }
}

// Logon (A).
fn logon<'a>(frame: &'a [u8]) -> Result<Admin<'a>, Fault>
    requires { IsFrame frame.now }
    ensures { (fs : List Field) → HasFields frame.now fs → answer_seen result ≡ logon_of fs }
{
    match number_at(frame, ENCRYPT_METHOD, 0, 0) {
        Ok(_) => with_heart(frame),
        Err(fault) => Err(fault),
    }
}

// HeartBtInt (108), and what stands after it in the table.
fn with_heart<'a>(frame: &'a [u8]) -> Result<Admin<'a>, Fault>
    requires { IsFrame frame.now }
    ensures { (fs : List Field) → HasFields frame.now fs → answer_seen result ≡ with_heart_of fs }
{
    match number_at(frame, HEART_BT_INT, 0, LONGEST_HEART) {
        Ok(heart) => match flag_at(frame, RESET_SEQ_NUM_FLAG) {
            Ok(reset) => Ok(Admin::Logon {
                heart,
                reset,
                version: version_in(first_value(frame, DEFAULT_APPL_VER_ID)),
            }),
            Err(fault) => Err(fault),
        },
        Err(fault) => Err(fault),
    }
}
