//! That the first fault of a frame is told, by the rules below and by the samples of fix_dict.
use crate::check;
use fix_base::{Fault, Tag};
use fix_dict::{Dictionary, SAMPLE_42, SAMPLE_44};
use fix_frame::{Framed, checksum, frame_at};
use std::alloc::{AllocError, Global};
use std::test::Fail;

// Groups in the header and inside a group, a tag of the standard's header in a message (57), a
// field of several values (18), and tags from 5000 on.
const RULES: &str = r#"{
  "begin": "FIX.4.4",
  "fields": [
    { "tag": 8, "name": "BeginString", "type": "STRING" },
    { "tag": 9, "name": "BodyLength", "type": "LENGTH" },
    { "tag": 10, "name": "CheckSum", "type": "STRING" },
    { "tag": 11, "name": "ClOrdID", "type": "STRING" },
    { "tag": 18, "name": "ExecInst", "type": "MULTIPLEVALUESTRING", "values": ["1", "2", "A"] },
    { "tag": 21, "name": "HandlInst", "type": "CHAR", "values": ["1", "2", "3"] },
    { "tag": 34, "name": "MsgSeqNum", "type": "SEQNUM" },
    { "tag": 35, "name": "MsgType", "type": "STRING" },
    { "tag": 38, "name": "OrderQty", "type": "QTY" },
    { "tag": 43, "name": "PossDupFlag", "type": "BOOLEAN" },
    { "tag": 44, "name": "Price", "type": "PRICE" },
    { "tag": 49, "name": "SenderCompID", "type": "STRING" },
    { "tag": 50, "name": "SenderSubID", "type": "STRING" },
    { "tag": 52, "name": "SendingTime", "type": "UTCTIMESTAMP" },
    { "tag": 54, "name": "Side", "type": "CHAR" },
    { "tag": 56, "name": "TargetCompID", "type": "STRING" },
    { "tag": 57, "name": "TargetSubID", "type": "STRING" },
    { "tag": 58, "name": "Text", "type": "STRING" },
    { "tag": 60, "name": "TransactTime", "type": "UTCTIMESTAMP" },
    { "tag": 89, "name": "Signature", "type": "DATA" },
    { "tag": 93, "name": "SignatureLength", "type": "LENGTH" },
    { "tag": 95, "name": "RawDataLength", "type": "LENGTH" },
    { "tag": 96, "name": "RawData", "type": "DATA" },
    { "tag": 112, "name": "TestReqID", "type": "STRING" },
    { "tag": 447, "name": "PartyIDSource", "type": "CHAR" },
    { "tag": 448, "name": "PartyID", "type": "STRING" },
    { "tag": 452, "name": "PartyRole", "type": "INT" },
    { "tag": 453, "name": "NoPartyIDs", "type": "NUMINGROUP" },
    { "tag": 523, "name": "PartySubID", "type": "STRING" },
    { "tag": 627, "name": "NoHops", "type": "NUMINGROUP" },
    { "tag": 628, "name": "HopCompID", "type": "STRING" },
    { "tag": 629, "name": "HopSendingTime", "type": "UTCTIMESTAMP" },
    { "tag": 802, "name": "NoPartySubIDs", "type": "NUMINGROUP" },
    { "tag": 803, "name": "PartySubIDType", "type": "INT" },
    { "tag": 5001, "name": "Own", "type": "INT" },
    { "tag": 5003, "name": "OwnBeat", "type": "INT" }
  ],
  "header": [
    { "tag": 8, "required": true }, { "tag": 9, "required": true }, { "tag": 35, "required": true },
    { "tag": 34, "required": true }, { "tag": 49, "required": true }, { "tag": 52, "required": true },
    { "tag": 56, "required": true }, { "tag": 43, "required": false }, { "tag": 50, "required": false },
    { "group": 627, "required": false, "members": [
      { "tag": 628, "required": true }, { "tag": 629, "required": true } ] }
  ],
  "trailer": [
    { "tag": 93, "required": false }, { "tag": 89, "required": false }, { "tag": 10, "required": true }
  ],
  "messages": [
    { "type": "0", "name": "Heartbeat", "members": [
      { "tag": 112, "required": false }, { "tag": 5003, "required": false } ] },
    { "type": "D", "name": "NewOrderSingle", "members": [
      { "tag": 11, "required": true },
      { "group": 453, "required": false, "members": [
        { "tag": 448, "required": true }, { "tag": 447, "required": false },
        { "group": 802, "required": false, "members": [
          { "tag": 523, "required": true }, { "tag": 803, "required": true } ] },
        { "tag": 452, "required": true } ] },
      { "tag": 18, "required": false }, { "tag": 21, "required": false }, { "tag": 38, "required": false },
      { "tag": 44, "required": false }, { "tag": 54, "required": true }, { "tag": 57, "required": false },
      { "tag": 60, "required": false }, { "tag": 58, "required": false }, { "tag": 95, "required": false },
      { "tag": 96, "required": false }, { "tag": 5001, "required": false } ] }
  ]
}"#;

// What stands before an order's own fields.
const HEAD: &str = "35=D|34=2|49=BUY|52=20240102-10:00:00|56=SELL|";

// No fault.
const NONE: u16 = 99;

// Fields after HEAD, or all of them where they begin with `35=`; SessionRejectReason and RefTagID (0 where
// there is none).
const FREE: [(&str, u16, u32); 82] = [
    ("11=A|54=1|", NONE, 0),
    ("54=1|11=A|", NONE, 0),
    // the type
    ("35=Z|34=2|49=BUY|52=20240102-10:00:00|56=SELL|", 11, 0),
    ("35=Z|34=2|49=BUY|4999=x|", 11, 0),
    // 0
    ("11=A|54=1|4999=x|", 0, 4999),
    ("11=A|54=1|4999=|", 0, 4999),
    ("11=A|4999=x|54=|", 0, 4999),
    ("11=A|54=1|5000=x|", NONE, 0),
    // 4
    ("11=|54=1|", 4, 11),
    ("11=A|54=|4999=x|", 4, 54),
    ("11=A|54=1|5002=|", 4, 5002),
    ("11=A|54=1|38=|", 4, 38),
    ("11=A|54=1|112=|", 4, 112),
    ("11=A|54=1|453=|", 4, 453),
    ("11=A|11=|54=1|", 4, 11),
    ("58=|", 4, 58),
    // 2
    ("11=A|54=1|112=X|", 2, 112),
    ("11=A|54=1|5003=1|", 2, 5003),
    ("11=A|54=1|112=X|112=X|", 2, 112),
    (
        "35=0|34=2|49=BUY|52=20240102-10:00:00|56=SELL|112=X|",
        NONE,
        0,
    ),
    ("35=0|34=2|49=BUY|52=20240102-10:00:00|56=SELL|11=A|", 2, 11),
    (
        "35=0|34=2|49=BUY|52=20240102-10:00:00|56=SELL|448=P|",
        2,
        448,
    ),
    // 13
    ("11=A|11=B|54=1|", 13, 11),
    ("11=A|54=1|11=A|", 13, 11),
    ("11=A|54=1|5002=x|5002=x|", 13, 5002),
    ("11=A|54=1|34=3|", 13, 34),
    ("11=A|54=1|453=1|448=P|452=1|453=1|448=P|452=1|", 13, 453),
    ("11=A|54=1|453=2|448=P|452=1|448=Q|452=2|", NONE, 0),
    ("11=A|54=1|38=1|38=x|", 13, 38),
    ("54=1|11=A|60=x|11=B|", 6, 60),
    // 14 is not asked for
    ("11=A|50=T|54=1|", NONE, 0),
    ("11=A|54=1|93=1|89=s|58=x|", NONE, 0),
    ("11=A|57=T|54=1|", NONE, 0),
    // 6
    ("11=A|54=12|", 6, 54),
    ("11=A|54=1|44=1.2.3|", 6, 44),
    ("11=A|54=1|38=-5|", NONE, 0),
    ("11=A|54=1|60=20240230-10:00:00|", 6, 60),
    ("11=A|54=1|5001=x|", 6, 5001),
    ("11=A|54=1|453=x|", 6, 453),
    ("11=A|54=1|21=44|", 6, 21),
    ("35=D|34=2|49=BUY|52=now|56=SELL|11=A|54=1|", 6, 52),
    ("35=D|34=x|49=BUY|52=20240102-10:00:00|56=SELL|11=|", 6, 34),
    ("11=A|54=1|95=3|96=a|b|", NONE, 0),
    // 5
    ("11=A|54=1|21=4|", 5, 21),
    ("11=A|54=1|21=3|18=2|", NONE, 0),
    ("11=A|54=1|18=1 A|", NONE, 0),
    ("11=A|54=1|18=1 Z|", 5, 18),
    ("11=A|54=1|18=Z 1|", 5, 18),
    ("11=A|54=1|18=1  A|", 5, 18),
    // 16
    ("11=A|54=1|453=0|", NONE, 0),
    ("11=A|54=1|453=2|448=P|452=1|", 16, 453),
    ("11=A|54=1|453=0|448=P|452=1|", 16, 453),
    ("11=A|54=1|453=1|448=P|802=2|523=a|803=1|452=1|", 16, 802),
    ("11=A|54=1|453=2|448=P|802=2|523=a|803=1|452=1|", 16, 453),
    ("627=2|628=H|11=A|54=1|453=2|448=P|452=1|", 16, 627),
    ("11=A|54=1|453=2|448=P|452=1|627=2|628=H|", 16, 453),
    ("11=A|54=1|453=2|447=D|448=P|452=1|", 16, 453),
    ("453=2|448=P|", 16, 453),
    // 15
    ("11=A|54=1|453=1|447=D|448=P|452=1|", 15, 453),
    ("11=A|54=1|453=1|448=P|452=1|447=D|", 15, 453),
    ("11=A|54=1|453=1|448=P|447=D|447=E|452=1|", 15, 453),
    ("11=A|453=1|448=P|452=1|54=1|447=D|", 15, 453),
    ("447=D|11=A|54=1|453=2|448=P|452=1|", 16, 453),
    ("11=A|54=1|448=P|448=Q|", 15, 453),
    ("11=A|54=1|802=1|523=a|803=1|", 15, 453),
    ("11=A|54=1|453=1|448=P|452=1|802=5|523=a|803=1|", 15, 453),
    (
        "11=A|54=1|453=1|448=P|802=1|523=a|803=1|452=1|523=b|",
        15,
        802,
    ),
    // 1
    ("11=A|", 1, 54),
    ("54=1|", 1, 11),
    ("58=x|", 1, 11),
    ("35=D|49=BUY|52=20240102-10:00:00|56=SELL|11=A|54=1|", 1, 34),
    ("35=D|34=2|49=BUY|52=20240102-10:00:00|54=1|", 1, 56),
    ("11=A|54=1|453=1|448=P|", 1, 452),
    ("11=A|54=1|453=2|448=P|452=1|448=Q|", 1, 452),
    ("11=A|453=1|448=P|", 1, 452),
    ("453=1|448=P|54=1|", 1, 11),
    ("11=A|54=1|453=1|448=P|802=1|523=a|452=1|", 1, 803),
    ("11=A|54=1|453=1|448=P|802=1|523=a|", 1, 803),
    (
        "11=A|54=1|453=2|448=P|452=1|448=Q|802=1|523=a|452=2|",
        1,
        803,
    ),
    ("627=1|628=H|11=A|54=1|", 1, 629),
    ("627=1|628=H|54=1|", 1, 629),
    ("627=1|628=H|629=20240102-10:00:00|11=A|54=1|", NONE, 0),
];

// The same where the order of header and trailer is asked for.
const ORDERED: [(&str, u16, u32); 15] = [
    ("11=A|54=1|", NONE, 0),
    ("50=T|11=A|54=1|", NONE, 0),
    ("57=T|11=A|54=1|", NONE, 0),
    ("11=A|54=1|93=1|89=s|", NONE, 0),
    ("627=1|628=H|629=20240102-10:00:00|11=A|54=1|", NONE, 0),
    ("11=A|50=T|54=1|", 14, 50),
    ("11=A|57=T|54=1|", 14, 57),
    ("11=A|54=1|93=1|89=s|58=x|", 14, 58),
    ("11=A|93=1|89=s|54=1|", 14, 54),
    ("5002=x|50=T|11=A|54=1|", 14, 50),
    ("11=A|54=1|93=1|89=s|5002=x|", 14, 5002),
    ("11=A|627=1|628=H|629=20240102-10:00:00|54=1|", 14, 627),
    ("11=A|54=1|43=N|38=x|", 14, 43),
    ("11=A|43=x|54=1|", 14, 43),
    ("11=A|54=1|34=3|", 13, 34),
];

// By the samples: an order of FIX.4.2, and one of FIX.4.4.
const ORDER: &str =
    "35=D|34=2|49=BUY|52=20240102-10:00:00|56=SELL|11=A1|21=1|55=XYZ|60=20240102-10:00:00|40=1|";

const SAMPLE_ORDERS: [(&str, u16, u32); 4] = [
    ("54=1|", NONE, 0),
    ("", 1, 54),
    ("54=1|44=1.2.3|", 6, 44),
    ("54=1|78=2|79=AC1|", 16, 78),
];

fn push_text(out: &mut Vec<u8>, text: &str) -> Result<(), AllocError> {
    for b in text.as_bytes() {
        out.push(if *b == b'|' { 1 } else { *b })?;
    }
    Ok(())
}

// The frame of these fields.
fn frame_of(alloc: Global, head: &str, text: &str) -> Result<Vec<u8>, AllocError> {
    let mut body = Vec::new(alloc);
    push_text(&mut body, head)?;
    push_text(&mut body, text)?;
    let mut frame = Vec::new(alloc);
    push_text(
        &mut frame,
        &format!(in alloc; "8=FIX.4.4|9={}|", body.len())?,
    )?;
    frame.extend_from_slice(&body)?;
    let sum = checksum(&frame);
    push_text(&mut frame, &format!(in alloc; "10={:03}|", sum)?)?;
    Ok(frame)
}

fn is_fault(found: Option<Fault>, reason: u16, tag: u32) -> bool {
    match found {
        None => reason == NONE,
        Some(fault) => {
            fault.reason == reason
                && match fault.tag {
                    Some(found) => found.get() == tag,
                    None => tag == 0,
                }
        }
    }
}

// Whether the frame of these fields has this fault first.
fn has_first(
    alloc: Global,
    dict: &Dictionary,
    order: bool,
    head: &str,
    text: &str,
    reason: u16,
    tag: u32,
) -> bool {
    let Ok(bytes) = frame_of(alloc, head, text) else {
        return false;
    };
    let Framed::Frame(frame) = frame_at(&bytes, 0) else {
        return false;
    };
    match check(alloc, dict, frame, order) {
        Ok(found) => is_fault(found, reason, tag),
        Err(_) => false,
    }
}

fn head_of(text: &str) -> &'static str {
    if text.as_bytes().starts_with(b"35=") {
        ""
    } else {
        HEAD
    }
}

#[test]
fn the_first_fault_is_told(rt: HostRuntime) -> Result<(), Fail> {
    let alloc = rt.alloc();
    let Ok(dict) = Dictionary::read(alloc, RULES.as_bytes()) else {
        assert!(rt; false);
        return Ok(());
    };
    for (text, reason, tag) in &FREE {
        assert!(rt;
            has_first(alloc, &dict, false, head_of(text), text, *reason, *tag),
            "{text}"
        );
    }
    for (text, reason, tag) in &ORDERED {
        assert!(rt;
            has_first(alloc, &dict, true, head_of(text), text, *reason, *tag),
            "{text}"
        );
    }
    Ok(())
}

#[test]
fn orders_of_the_sample_42_are_checked(rt: HostRuntime) -> Result<(), Fail> {
    let alloc = rt.alloc();
    let Ok(dict) = Dictionary::read(alloc, SAMPLE_42.as_bytes()) else {
        assert!(rt; false);
        return Ok(());
    };
    for (text, reason, tag) in &SAMPLE_ORDERS {
        assert!(rt;
            has_first(alloc, &dict, true, ORDER, text, *reason, *tag),
            "{text}"
        );
    }
    Ok(())
}

#[test]
fn an_order_of_the_sample_44_is_checked(rt: HostRuntime) -> Result<(), Fail> {
    let alloc = rt.alloc();
    let Ok(dict) = Dictionary::read(alloc, SAMPLE_44.as_bytes()) else {
        assert!(rt; false);
        return Ok(());
    };
    assert!(rt; has_first(alloc, &dict, true, ORDER, "54=1|453=2|448=P1|", 16, 453));
    Ok(())
}

// A hundred tags from 6000 on, and then this.
fn many(alloc: Global, last: &str) -> Result<String, AllocError> {
    let mut text = String::new(alloc);
    text.push_str("11=A|54=1|")?;
    for tag in 6000..6100u32 {
        text.push_str(&format!(in alloc; "{tag}=x|")?)?;
    }
    text.push_str(last)?;
    Ok(text)
}

#[test]
fn a_tag_appears_again_among_many(rt: HostRuntime) -> Result<(), Fail> {
    let alloc = rt.alloc();
    let Ok(dict) = Dictionary::read(alloc, RULES.as_bytes()) else {
        assert!(rt; false);
        return Ok(());
    };
    for (last, reason, tag) in [
        ("", NONE, 0u32),
        ("5999=x|", NONE, 0),
        ("6000=x|", 13, 6000),
        ("6050=x|", 13, 6050),
        ("6099=x|", 13, 6099),
        ("6100=x|11=A|", 13, 11),
    ] {
        let text = many(alloc, last)?;
        assert!(rt;
            has_first(alloc, &dict, true, HEAD, text.as_str(), reason, tag),
            "{last}"
        );
    }
    Ok(())
}
