//! That two links over loopback read each other's bytes. Nothing comes before these are sent, or after the end.
use crate::{TcpEar, TcpLink, dial};
use fix_host::Ear;
use fix_parts::{Link, ReadTurn, WriteTurn};
use std::alloc::Global;
use std::net::{Net, TcpListener, TcpStream};

// What comes of a connection over loopback: a read with nothing sent, bytes each way, and a read after the other
// side's end.
fn over_loopback<R: Net<Listener = TcpListener, Stream = TcpStream>>(rt: &R) -> Option<[bool; 6]> {
    let listener = TcpListener::bind(rt, "127.0.0.1:0").ok()?;
    let addr = listener.local_addr().ok()?;
    let mut ours = TcpLink::new(TcpStream::connect(rt, addr).ok()?)?;
    let (stream, _) = listener.accept().ok()?;
    let mut theirs = TcpLink::new(stream)?;
    let mut room = [0u8; 8];
    let idle = theirs.read(&mut room) == ReadTurn::Idle;
    let there = ours.write(b"abc") == WriteTurn::Done;
    let read = comes(&mut theirs, &mut room) == Some(3) && room[..3] == b"abc"[..];
    let back = theirs.write(b"de") == WriteTurn::Done;
    let again = comes(&mut ours, &mut room) == Some(2) && room[..2] == b"de"[..];
    drop(ours);
    let end = comes(&mut theirs, &mut room) == None;
    Some([idle, there, read, back, again, end])
}

// How many bytes come, tried again while nothing does.
fn comes<L: Link>(link: &mut L, room: &mut [u8; 8]) -> Option<usize> {
    for _ in 0..1000 {
        match link.read(room) {
            ReadTurn::Idle => {}
            ReadTurn::Bytes(count) => return Some(count),
            ReadTurn::End | ReadTurn::Failed | ReadTurn::OutOfMemory => return None,
        }
    }
    None
}

#[test]
fn a_link_over_loopback(rt: HostRuntime) {
    assert_eq!(rt; over_loopback(&rt), Some([true; 6]));
}

// What comes of an ear on a free port: a connection that is dialled, a byte each way, a second ear on the same port,
// and a dialled connection whose other side is gone.
fn by_an_ear<R: Net<Listener = TcpListener, Stream = TcpStream>>(
    rt: &R,
    alloc: Global,
) -> Option<[bool; 6]> {
    let mut ear = TcpEar::listen(rt, "127.0.0.1", 0)?;
    let port = ear.port()?;
    let mut ours = dial(rt, "127.0.0.1", port)?;
    let mut theirs = ear.accept(alloc).ok()?;
    let mut room = [0u8; 8];
    let there = ours.write(b"a") == WriteTurn::Done;
    let read = comes(&mut theirs, &mut room) == Some(1) && room[..1] == b"a"[..];
    let back = theirs.write(b"b") == WriteTurn::Done;
    let again = comes(&mut ours, &mut room) == Some(1) && room[..1] == b"b"[..];
    let in_use = TcpEar::listen(rt, "127.0.0.1", port).is_none();
    drop(theirs);
    let closed = comes(&mut ours, &mut room) == None;
    Some([there, read, back, again, in_use, closed])
}

#[test]
fn an_ear_accepts_what_is_dialled(rt: HostRuntime) {
    assert_eq!(rt; by_an_ear(&rt, rt.alloc()), Some([true; 6]));
}

// Where nothing can be had: a port on which nobody listens, a host that isn't this one, and a name that has no address.
fn nowhere<R: Net<Listener = TcpListener, Stream = TcpStream>>(rt: &R) -> Option<[bool; 3]> {
    let ear = TcpEar::listen(rt, "127.0.0.1", 0)?;
    let port = ear.port()?;
    drop(ear);
    let unheard = dial(rt, "127.0.0.1", port).is_none();
    let elsewhere = TcpEar::listen(rt, "192.0.2.1", 0).is_none();
    let unnamed = dial(rt, "no host", port).is_none();
    Some([unheard, elsewhere, unnamed])
}

#[test]
fn nothing_is_had_where_nobody_is(rt: HostRuntime) {
    assert_eq!(rt; nowhere(&rt), Some([true; 3]));
}

// How often a write goes out to a side that reads nothing, before one fails.
fn to_a_side_that_reads_nothing<R: Net<Listener = TcpListener, Stream = TcpStream>>(
    rt: &R,
    alloc: Global,
) -> Option<bool> {
    let mut ear = TcpEar::listen(rt, "127.0.0.1", 0)?;
    let port = ear.port()?;
    let mut ours = dial(rt, "127.0.0.1", port)?;
    let silent = ear.accept(alloc).ok()?;
    let bytes = Vec::from_elem(alloc, b'x', 1_048_576).ok()?;
    for _ in 0..64 {
        if ours.write(&bytes) != WriteTurn::Done {
            drop(silent);
            return Some(true);
        }
    }
    drop(silent);
    Some(false)
}

#[test]
fn a_side_that_reads_nothing_fails_a_write(rt: HostRuntime) {
    assert_eq!(rt; to_a_side_that_reads_nothing(&rt, rt.alloc()), Some(true));
}
