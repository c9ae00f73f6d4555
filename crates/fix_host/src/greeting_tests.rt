//! Who speaks on a connection, by its first frame.
use crate::{Greeted, Held, greet};
use fix_base::{Begin, Bytes, Identity};
use fix_parts::{Link, MemoryClock, MemoryLink, ReadTurn};
use std::alloc::Global;
use std::test::Fail;

// A Logon of BUY to SELL, and one of BUY to NOONE.
const LOGON: &[u8] =
    b"8=FIX.4.2\x019=58\x0135=A\x0134=1\x0149=BUY\x0152=20260105-09:30:00\x0156=SELL\x0198=0\x01108=30\x0110=079\x01";

const STRANGER: &[u8] =
    b"8=FIX.4.2\x019=59\x0135=A\x0134=1\x0149=BUY\x0152=20260105-09:30:00\x0156=NOONE\x0198=0\x01108=30\x0110=159\x01";

// A session of SELL with BUY, as its own end sees it, and one with another version.
fn sessions(alloc: Global) -> Result<Vec<Identity>, Fail> {
    let mut known = Vec::new(alloc);
    known.push(identity(alloc, Begin::Fix44)?)?;
    known.push(identity(alloc, Begin::Fix42)?)?;
    Ok(known)
}

fn identity(alloc: Global, begin: Begin) -> Result<Identity, Fail> {
    Ok(Identity {
        begin,
        sender: Bytes::copy(alloc, b"SELL")?,
        target: Bytes::copy(alloc, b"BUY")?,
    })
}

// A connection that gives these pieces.
fn link_of(alloc: Global, pieces: &[&[u8]]) -> Result<Held<MemoryLink>, Fail> {
    let mut list = Vec::new(alloc);
    for piece in pieces {
        list.push(Bytes::copy(alloc, piece)?)?;
    }
    Ok(Held::new(alloc, MemoryLink::new(alloc, list, 0, Vec::new(alloc))?))
}

// A clock that stands still.
fn still(alloc: Global) -> Result<MemoryClock, Fail> {
    Ok(MemoryClock::new(vec![in alloc; 1_767_605_400_000_000]?))
}

#[test]
fn a_logon_in_parts_is_known_and_read_again(rt: HostRuntime) -> Result<(), Fail> {
    let alloc = rt.alloc();
    let known = sessions(alloc)?;
    let mut link = link_of(
        alloc,
        &[b"jun\x01", &LOGON[..20], b"", &LOGON[20..], b"more"],
    )?;
    let mut clock = still(alloc)?;
    let answer = greet(alloc, &mut link, &mut clock, &known, 10, 100);
    assert_eq!(rt; answer, Greeted::Known { index: 1 });
    let mut room = [0u8; 4];
    assert_eq!(rt; link.read(&mut room), ReadTurn::Bytes(4));
    assert_eq!(rt; room, *b"jun\x01");
    assert_eq!(rt; link.ahead(), LOGON);
    Ok(())
}

#[test]
fn a_logon_to_another_end_is_unknown(rt: HostRuntime) -> Result<(), Fail> {
    let alloc = rt.alloc();
    let known = sessions(alloc)?;
    let mut link = link_of(alloc, &[STRANGER])?;
    let mut clock = still(alloc)?;
    let answer = greet(alloc, &mut link, &mut clock, &known, 10, 100);
    assert_eq!(rt; answer, Greeted::Unknown);
    Ok(())
}

#[test]
fn ten_seconds_are_late(rt: HostRuntime) -> Result<(), Fail> {
    let alloc = rt.alloc();
    let known = sessions(alloc)?;
    let mut link = link_of(alloc, &[b"", b""])?;
    let mut clock = MemoryClock::new(vec![in alloc; 5, 10_000_005]?);
    let answer = greet(alloc, &mut link, &mut clock, &known, 10, 100);
    let late = Greeted::Late {
        since: 5,
        now: 10_000_005,
    };
    assert_eq!(rt; answer, late);
    Ok(())
}

#[test]
fn so_many_bytes_without_a_frame_are_none(rt: HostRuntime) -> Result<(), Fail> {
    let alloc = rt.alloc();
    let known = sessions(alloc)?;
    let junk = Bytes::from_vec(Vec::from_elem(alloc, b'x', 1_048_612)?);
    let pieces = vec![in alloc; junk]?;
    let mut link = Held::new(alloc, MemoryLink::new(alloc, pieces, 0, Vec::new(alloc))?);
    let mut clock = still(alloc)?;
    let answer = greet(alloc, &mut link, &mut clock, &known, 10, 100);
    assert_eq!(rt; answer, Greeted::NotFrame);
    assert_eq!(rt; link.ahead().len(), 1_048_612);
    Ok(())
}

#[test]
fn an_end_a_fault_and_the_last_turn(rt: HostRuntime) -> Result<(), Fail> {
    let alloc = rt.alloc();
    let known = sessions(alloc)?;
    let mut clock = still(alloc)?;
    let mut link = link_of(alloc, &[b"8=FIX"])?;
    assert_eq!(rt;
        greet(alloc, &mut link, &mut clock, &known, 10, 1),
        Greeted::TurnsSpent
    );
    assert_eq!(rt;
        greet(alloc, &mut link, &mut clock, &known, 10, 1),
        Greeted::Ended
    );
    let broken = MemoryLink::new(alloc, Vec::new(alloc), 0, vec![in alloc; 1]?)?;
    let mut link = Held::new(alloc, broken);
    assert_eq!(rt;
        greet(alloc, &mut link, &mut clock, &known, 10, 1),
        Greeted::LinkFault
    );
    Ok(())
}
