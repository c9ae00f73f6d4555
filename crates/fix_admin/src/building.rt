//! Writes the fields of a session message that `fix_machine` decided to send, and those of a
//! BusinessMessageReject (j). The header isn't written here.
ghost use Rattle.std.specs.Prelude.{◌≡◌, ◌++◌, ◌+◌, ◌∷◌, take, length, codes, IfOk, OnOk, option_map};
ghost use Rattle.std.specs.Fmt.{decimal};
ghost use Rattle.fix_base.specs.Frame.{HasNoSoh};
ghost use Rattle.fix_base.specs.Payload.{field, LONGEST_BODY};
ghost use Rattle.fix_base.specs.Says.{field_text, fields_text};
ghost use Rattle.fix_admin.specs.Say.{say_seen, fields_of, business_fields, logon_fields, id_fields, tag_fields};
ghost use Rattle.fix_admin.specs.Say.{reason_fields, text_fields, reset_fields, version_fields, ref_type};
ghost use Rattle.fix_admin.specs.Say as says;
ghost use Rattle.fix_admin.specs.Follows.{MayFollow, GivesBackValues};

use crate::tags::DEFAULT_APPL_VER_ID;
use crate::texts::{logout_text, reason_text};
use crate::{LogoutText, Say};
use fix_base::tags::{
    BEGIN_SEQ_NO, BUSINESS_REJECT_REASON, ENCRYPT_METHOD, END_SEQ_NO, GAP_FILL_FLAG, HEART_BT_INT,
    NEW_SEQ_NO, REF_MSG_TYPE, REF_SEQ_NUM, REF_TAG_ID, RESET_SEQ_NUM_FLAG, SESSION_REJECT_REASON,
    TEST_REQ_ID, TEXT,
};
use fix_base::{Begin, Bytes, Fault, OutOfMemory, Tag};
use fix_fields::push_field;
use itoa::Buffer;
use std::alloc::{AllocError, Global};

/// The most bytes of a MsgType (35) that RefMsgType (372) names.
const MOST_TYPE_BYTES: usize = 8;

/// The most bytes of a TestReqID (112) that are given back.
const MOST_ID_BYTES: usize = 1_048_000;

/// The greatest SessionRejectReason (373) of FIX 4.2.
const LAST_REASON_42: u16 = 11;

/// The fields after the header of what is said, in a session of this version, in the order of
/// `specs/Say.antt`.
pub fn build(alloc: Global, begin: Begin, say: &Say<'_>) -> Result<Bytes, OutOfMemory>
    ensures text { IfOk result (λ out. out ≡ fields_text (fields_of begin (say_seen say.now))) }
    // They may stand after the header of a frame that is sealed.
    ensures follows { GivesBackValues (say_seen say.now) → IfOk result (MayFollow LONGEST_BODY) }
{
    said(alloc, begin, say)
}

/// The fields after the header of a BusinessMessageReject (j) of the message with this number and
/// this MsgType (35). An empty text writes no Text (58).
pub fn business(
    alloc: Global,
    about: u32,
    kind: &[u8],
    reason: u16,
    text: &[u8],
) -> Result<Bytes, OutOfMemory>
    ensures text { IfOk result (λ out. out ≡ fields_text (business_fields about kind.now reason text.now)) }
    // They may stand after the header of a frame that is sealed.
    ensures follows { HasNoSoh kind.now → HasNoSoh text.now → IfOk result (MayFollow (length text.now + 200)) }
{
    refused(alloc, about, kind, reason, text)
}

// What is said.
fn said(alloc: Global, begin: Begin, say: &Say<'_>) -> Result<Bytes, OutOfMemory>
    ensures { IfOk result (λ out. out ≡ fields_text (fields_of begin (say_seen say.now))) }
{
    let mut out = Vec::new(alloc);
    match *say {
        Say::Heartbeat { id } => push_id(&mut out, id)?,
        Say::TestRequest => push_field(&mut out, TEST_REQ_ID, b"TEST")?,
        Say::ResendRequest { from, to } => {
            push_number(&mut out, BEGIN_SEQ_NO, from)?;
            push_number(&mut out, END_SEQ_NO, to)?;
        }
        Say::Reject { about, kind, fault } => push_reject(&mut out, begin, about, kind, fault)?,
        Say::GapFill { next } => {
            push_number(&mut out, NEW_SEQ_NO, next)?;
            push_field(&mut out, GAP_FILL_FLAG, b"Y")?;
        }
        Say::Logout { text } => push_logout(alloc, &mut out, text)?,
        Say::Logon {
            heart,
            reset,
            version,
        } => push_logon(&mut out, heart, reset, version)?,
    }
    Ok(Bytes::from_vec(out))
}

// A BusinessMessageReject (j).
fn refused(
    alloc: Global,
    about: u32,
    kind: &[u8],
    reason: u16,
    text: &[u8],
) -> Result<Bytes, OutOfMemory>
    ensures { IfOk result (λ out. out ≡ fields_text (business_fields about kind.now reason text.now)) }
{
    let mut out = Vec::new(alloc);
    push_number(&mut out, REF_SEQ_NUM, about)?;
    push_type(&mut out, kind)?;
    push_number(&mut out, BUSINESS_REJECT_REASON, u32::from(reason))?;
    push_text(&mut out, text)?;
    Ok(Bytes::from_vec(out))
}

// A Reject (3).
fn push_reject(
    out: &mut Vec<u8>,
    begin: Begin,
    about: u32,
    kind: &[u8],
    fault: Fault,
) -> Result<(), AllocError>
    ensures { OnOk result (out.new.items
        ≡ out.old.items ++ fields_text (fields_of begin (says.Reject about kind.now fault))) }
{
    push_number(out, REF_SEQ_NUM, about)?;
    push_tag(out, fault.tag)?;
    push_type(out, kind)?;
    push_reason(out, begin, fault.reason)?;
    push_text(out, reason_text(fault.reason))?;
    Ok(())
}

// A Logout (5).
fn push_logout(alloc: Global, out: &mut Vec<u8>, text: LogoutText) -> Result<(), OutOfMemory>
    ensures { OnOk result (out.new.items ≡ out.old.items ++ fields_text (text_fields (says.logout_text text))) }
{
    let text = logout_text(alloc, text)?;
    push_text(out, &text)?;
    Ok(())
}

// A Logon (A).
fn push_logon(
    out: &mut Vec<u8>,
    heart: u32,
    reset: bool,
    version: Option<u8>,
) -> Result<(), AllocError>
    ensures { OnOk result (out.new.items
        ≡ out.old.items ++ fields_text (logon_fields heart reset version)) }
{
    push_field(out, ENCRYPT_METHOD, b"0")?;
    push_number(out, HEART_BT_INT, heart)?;
    push_reset(out, reset)?;
    push_version(out, version)?;
    Ok(())
}

// A field of a number.
fn push_number(out: &mut Vec<u8>, tag: u32, number: u32) -> Result<(), AllocError>
    ensures { OnOk result (out.new.items ≡ out.old.items ++ field_text (field tag (decimal number))) }
{
    let mut digits = Buffer::new();
    push_field(out, tag, digits.format(number).as_bytes())
}

// TestReqID (112).
fn push_id(out: &mut Vec<u8>, id: Option<&[u8]>) -> Result<(), AllocError>
    ensures { OnOk result (out.new.items
        ≡ out.old.items ++ fields_text (id_fields (option_map (λ v. v.now) id.entry))) }
{
    match id {
        None => Ok(()),
        Some(id) => push_given_id(out, id),
    }
}

fn push_given_id(out: &mut Vec<u8>, id: &[u8]) -> Result<(), AllocError>
    ensures { OnOk result (out.new.items ≡ out.old.items ++ field_text (field 112 (take 1048000 id.now))) }
{
    push_field(out, TEST_REQ_ID, &id[..id.len().min(MOST_ID_BYTES)])
}

// RefTagID (371).
fn push_tag(out: &mut Vec<u8>, tag: Option<Tag>) -> Result<(), AllocError>
    ensures { OnOk result (out.new.items ≡ out.old.items ++ fields_text (tag_fields tag)) }
{
    match tag {
        None => Ok(()),
        Some(tag) => push_number(out, REF_TAG_ID, tag.get()),
    }
}

// RefMsgType (372).
fn push_type(out: &mut Vec<u8>, kind: &[u8]) -> Result<(), AllocError>
    ensures { OnOk result (out.new.items ≡ out.old.items ++ field_text (ref_type kind.now)) }
{
    push_field(out, REF_MSG_TYPE, &kind[..kind.len().min(MOST_TYPE_BYTES)])
}

// SessionRejectReason (373).
fn push_reason(out: &mut Vec<u8>, begin: Begin, reason: u16) -> Result<(), AllocError>
    ensures { OnOk result (out.new.items ≡ out.old.items ++ fields_text (reason_fields begin reason)) }
{
    if is_named(begin, reason) {
        push_number(out, SESSION_REJECT_REASON, u32::from(reason))
    } else {
        Ok(())
    }
}

// Whether the version has the reason.
fn is_named(begin: Begin, reason: u16) -> bool
    ensures { result ≡ says.is_named begin reason }
{
    match begin {
        Begin::Fix42 => reason <= LAST_REASON_42,
        Begin::Fix44 => true,
    }
}

// Text (58).
fn push_text(out: &mut Vec<u8>, text: &[u8]) -> Result<(), AllocError>
    ensures { OnOk result (out.new.items ≡ out.old.items ++ fields_text (text_fields text.now)) }
{
    if text.is_empty() {
        Ok(())
    } else {
        push_field(out, TEXT, text)
    }
}

// ResetSeqNumFlag (141).
fn push_reset(out: &mut Vec<u8>, reset: bool) -> Result<(), AllocError>
    ensures { OnOk result (out.new.items ≡ out.old.items ++ fields_text (reset_fields reset)) }
{
    if reset {
        push_field(out, RESET_SEQ_NUM_FLAG, b"Y")
    } else {
        Ok(())
    }
}

// DefaultApplVerID (1137).
fn push_version(out: &mut Vec<u8>, version: Option<u8>) -> Result<(), AllocError>
    ensures { OnOk result (out.new.items ≡ out.old.items ++ fields_text (version_fields version)) }
{
    match version {
        None => Ok(()),
        Some(version) => push_number(out, DEFAULT_APPL_VER_ID, u32::from(version)),
    }
}
