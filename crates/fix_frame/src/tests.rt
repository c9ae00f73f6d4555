//! What is a frame, what is garbled, what waits for more bytes, and what is sealed.
ghost use Rattle.std.specs.Prelude.{◌≡◌, ◌∷◌, ◌++◌, [], IfOk, replicate, codes};
ghost use Rattle.std.specs.Fmt.{decimal};

use crate::{Framed, Reader, SealFault, frame_at, frames_of, seal};
use fix_base::{Begin, Bytes};
use fix_fields::body_of;
use std::alloc::{AllocError, Global};
use std::test::Fail;

/// A Heartbeat (35=0).
const HEARTBEAT: &[u8] = b"8=FIX.4.2\x019=5\x0135=0\x0110=161\x01";

/// The same with a wrong checksum.
const WRONG_SUM: &[u8] = b"8=FIX.4.2\x019=5\x0135=0\x0110=162\x01";

/// RawData (96) of the three bytes `a`, SOH, `b`.
const RAW_DATA: &[u8] = b"8=FIX.4.2\x019=17\x0135=0\x0195=3\x0196=a\x01b\x0110=036\x01";

/// The same with RawDataLength (95) = 4.
const LONG_DATA: &[u8] = b"8=FIX.4.2\x019=17\x0135=0\x0195=4\x0196=a\x01b\x0110=037\x01";

/// A text field (58) of so many `x`.
fn text_field(alloc: Global, count: usize) -> Result<Vec<u8>, AllocError>
    ensures { IfOk result (λ made. made.items ≡ codes "58=" ++ replicate count 120 ++ 1 ∷ []) }
{
    let value = Vec::from_elem(alloc, b'x', count)?;
    let mut field = Vec::from_slice(alloc, b"58=")?;
    field.extend_from_slice(&value)?;
    field.push(1)?;
    Ok(field)
}

/// A Heartbeat with a text of so many `x`.
fn long_heartbeat(alloc: Global, count: usize) -> Result<Bytes, SealFault> {
    let Ok(rest) = text_field(alloc, count) else {
        return Err(SealFault::OutOfMemory);
    };
    seal(alloc, Begin::Fix42, b"0", &[], &rest)
}

#[test]
fn items_at_a_place(rt: HostRuntime) -> Result<(), Fail> {
    assert!(rt; frame_at(HEARTBEAT, 0) == Framed::Frame(HEARTBEAT));
    assert!(rt; frame_at(WRONG_SUM, 0) == Framed::Skip(26));
    assert!(rt; frame_at(RAW_DATA, 0) == Framed::Frame(RAW_DATA));
    assert!(rt; frame_at(LONG_DATA, 0) == Framed::Skip(39));
    for (stream, want) in [
        (
            b"8=FIX.4.2\x019=6\x0135=0\x0110=161\x01".as_slice(),
            Framed::Skip(1),
        ),
        (b"8=FIX.4.2\x019=1048577".as_slice(), Framed::Skip(1)),
        (b"8=FIX.4.2\x019=104857".as_slice(), Framed::More),
        (b"8=FIX.4.2\x019=4".as_slice(), Framed::More),
        (b"8=FIX.4.2\x019=4\x01".as_slice(), Framed::Skip(1)),
        (b"8=FI".as_slice(), Framed::More),
        (b"".as_slice(), Framed::More),
    ] {
        assert!(rt; frame_at(stream, 0) == want);
    }
    Ok(())
}

#[test]
fn each_front_of_a_frame_waits(rt: HostRuntime) -> Result<(), Fail> {
    for end in 0..HEARTBEAT.len() {
        assert!(rt; frame_at(&HEARTBEAT[..end], 0) == Framed::More, "at {end}");
    }
    Ok(())
}

#[test]
fn fed_byte_by_byte_a_frame_comes_once(rt: HostRuntime) -> Result<(), Fail> {
    let mut reader = Reader::new(rt.alloc())?;
    let mut last = 0;
    let mut count = 0u8;
    for (i, b) in HEARTBEAT.iter().enumerate() {
        reader.feed(&[*b])?;
        if let Some(frame) = reader.next() {
            assert!(rt; frame == HEARTBEAT);
            last = i;
            count = count.wrapping_add(1);
        }
    }
    assert_eq!(rt; count, 1);
    assert_eq!(rt; last, 25);
    Ok(())
}

#[test]
fn a_frame_with_data_comes_at_its_last_byte(rt: HostRuntime) -> Result<(), Fail> {
    let mut reader = Reader::new(rt.alloc())?;
    let (front, last) = RAW_DATA.split_at(RAW_DATA.len() - 1);
    for b in front {
        reader.feed(&[*b])?;
        assert!(rt; reader.next().is_none());
    }
    reader.feed(last)?;
    assert!(rt; reader.next() == Some(RAW_DATA));
    Ok(())
}

#[test]
fn data_stands_in_the_body(rt: HostRuntime) -> Result<(), Fail> {
    let Framed::Frame(frame) = frame_at(RAW_DATA, 0) else {
        return Err(Fail::new("no frame"));
    };
    let body = body_of(rt.alloc(), frame)?;
    assert!(rt; body.as_slice() == b"35=0\x0195=3\x0196=a\x01b\x01".as_slice());
    Ok(())
}

#[test]
fn a_good_frame_follows_a_garbled_one(rt: HostRuntime) -> Result<(), Fail> {
    for garbled in [
        WRONG_SUM,
        LONG_DATA,
        b"8=FIX.4.2\x019=6\x0135=0\x0110=161\x01".as_slice(),
        b"8=FIX.4.2\x019=6\x01108=FIX\x01".as_slice(),
        b"x8=FIX.4.2\x01".as_slice(),
    ] {
        let mut pieces = Vec::new(rt.alloc());
        for piece in [garbled, HEARTBEAT] {
            pieces.push(Bytes::copy(rt.alloc(), piece)?)?;
        }
        let frames = frames_of(rt.alloc(), &pieces)?;
        assert_eq!(rt; frames.len(), 1);
        for frame in &frames {
            assert!(rt; frame.as_slice() == HEARTBEAT);
        }
    }
    Ok(())
}

#[test]
fn the_longest_body_is_a_frame(rt: HostRuntime) -> Result<(), Fail> {
    let frame = long_heartbeat(rt.alloc(), 1_048_567)?;
    assert!(rt; frame_at(frame.as_slice(), 0) == Framed::Frame(frame.as_slice()));
    assert_eq!(rt; frame.as_slice().len(), 1_048_603);
    Ok(())
}

#[test]
fn a_body_past_the_longest_is_too_large(rt: HostRuntime) {
    let fault = long_heartbeat(rt.alloc(), 1_048_568).err();
    assert!(rt; fault == Some(SealFault::TooLarge { length: 1_048_577 }));
}

#[test]
fn a_heartbeat_is_sealed(rt: HostRuntime) -> Result<(), Fail> {
    let frame = seal(rt.alloc(), Begin::Fix42, b"0", &[], &[])?;
    assert!(rt; frame.as_slice() == HEARTBEAT);
    Ok(())
}
