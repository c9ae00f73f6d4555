//! The link of a session over a TCP socket: how long each read waits, and what an error of the socket comes to.
ghost use Rattle.std.specs.Prelude.{◌≡◌, ◌≤◌, ◌<◌, length, IfErr};
ghost use Rattle.fix_parts.specs.Link.{LinkReads, LinkWrites};
ghost use Rattle.fix_outside.specs.Connection.{IsInRoom};
ghost use Rattle.fix_net.specs.Waits.{wait_after};

use fix_disk::write_out;
use fix_parts::{Link, ReadTurn, WriteTurn};
use std::io;
use std::io::{ErrorKind, Read, Write};
use std::net::OpenStream;
use std::time::Duration;

/// The longest that a read waits for bytes, in milliseconds.
const LONGEST_WAIT: u64 = 16;

/// How long a write may wait while the other side takes nothing, in seconds.
const WRITE_SECONDS: u64 = 10;

/// A connection over a socket. A read after bytes or after a write doesn't wait, so that a session whose
/// connection is busy goes on at once. A read after an Idle one waits a millisecond, the next one two, and so on up
/// to 16. A write fails where the other side has taken nothing for ten seconds. It tells no content.
#[derive(Drop)]
pub struct TcpLink<S> {
    stream: S,
    faults: u64,
    // how long the next read waits, in milliseconds
    wait: u64,
}

impl<S: OpenStream + Drop> TcpLink<S> {
    ghost use Rattle.std.specs.Prelude.{◌≡◌, IfSome};
    ghost use Rattle.fix_net.specs.Adapters.{tcp_link_of};

    /// A connection over the socket, which sends each write at once (TCP_NODELAY). None is that the socket refused
    /// that, or its time-outs.
    pub fn new(stream: S) -> Option<TcpLink<S>>
        ensures { IfSome result (λ link. (tcp_link_of link).faults ≡ 0) }
    {
        let longest = Duration::from_secs(WRITE_SECONDS);
        stream.set_write_timeout(Some(longest)).ok()?;
        stream.set_nodelay(true).ok()?;
        Some(TcpLink {
            stream,
            faults: 0,
            wait: 0,
        })
    }
}

impl<S: Read + Write + OpenStream> Link for TcpLink<S> {
    ghost use Rattle.fix_net.specs.Adapters.{tcp_link_of};

    ghost link = { tcp_link_of };

    fn read(&mut self, room: &mut [u8]) -> ReadTurn {
        let turn = match wait_at_most(&self.stream, self.wait) {
            Ok(()) => read_or_idle(&mut self.stream, room),
            Err(_) => ReadTurn::Failed,
        };
        self.wait = next_wait(turn, self.wait);
        if matches!(turn, ReadTurn::Failed) {
            self.faults = self.faults.saturating_add(1);
        }
        turn
    }

    fn write(&mut self, bytes: &[u8]) -> WriteTurn {
        self.wait = 0;
        match write_waiting(&mut self.stream, bytes) {
            Ok(()) => WriteTurn::Done,
            Err(count) => {
                self.faults = self.faults.saturating_add(1);
                WriteTurn::Failed(count)
            }
        }
    }

    fn faults(&self) -> u64 {
        self.faults
    }
}

// Has the next read wait so many milliseconds, or not at all.
fn wait_at_most<S: OpenStream>(stream: &S, millis: u64) -> io::Result<()> {
    if millis == 0 {
        return stream.set_nonblocking(true);
    }
    stream.set_nonblocking(false)?;
    stream.set_read_timeout(Some(Duration::from_millis(millis)))
}

// Writes the bytes, and waits for the other side to take them. At an error it says how many went out.
fn write_waiting<S: Write + OpenStream>(stream: &mut S, bytes: &[u8]) -> Result<(), usize>
    ensures { IfErr result (λ count. count ≤ length bytes.now) }
{
    if stream.set_nonblocking(false).is_err() {
        return Err(0);
    }
    write_out(stream, bytes)
}

// How long the read after this one waits.
fn next_wait(turn: ReadTurn, wait: u64) -> u64
    ensures { result ≡ wait_after turn wait }
{
    match turn {
        ReadTurn::Idle => {
            if wait == 0 {
                1
            } else if wait >= LONGEST_WAIT / 2 {
                LONGEST_WAIT
            } else {
                wait * 2
            }
        }
        ReadTurn::Bytes(_) | ReadTurn::End | ReadTurn::Failed | ReadTurn::OutOfMemory => 0,
    }
}

// One read, which is Idle where it waited too long or was interrupted.
fn read_or_idle<S: Read>(stream: &mut S, room: &mut [u8]) -> ReadTurn
    requires { 0 < length room.old }
    ensures in_room { IsInRoom result room.new }
{
    match stream.read(room) {
        Ok(0) => ReadTurn::End,
        Ok(count) => ReadTurn::Bytes(count),
        Err(e) => match e.kind() {
            ErrorKind::WouldBlock | ErrorKind::TimedOut | ErrorKind::Interrupted => ReadTurn::Idle,
            _ => ReadTurn::Failed,
        },
    }
}
