//! An application that shows what it takes as lines of text, and has no drafts. `fixacceptor` runs with it.
ghost use Rattle.std.specs.Prelude.{◌≡◌, ◌++◌, ◌<◌, OnOk, None, option_map};
ghost use Rattle.fix_fields.specs.Drafted.{draft_body};
ghost use Rattle.fix_parts.specs.App.{AppTakes, AppAsks, line_of};
ghost use Rattle.fix_base.specs.Line.{hex_digit, byte_text, body_text};
ghost use Rattle.fix_parts.specs.Line.{LineWrites, line_seen};

use crate::{App, Handed, Said};
use fix_disk::{Sink, SinkFailed};
use fix_fields::Draft;
use itoa::Buffer;
use std::alloc::{AllocError, Global};
use std::marker::Model;

/// An application that writes a line of text for each message. Contracts see it as its sink.
#[derive(Drop)]
pub struct LineApp<S: Sink> {
    // The line of the message in hand. It is kept to be used again.
    line: Vec<u8>,
    sink: S,
}

impl<S: Sink> Model for LineApp<S> {
    ghost Value = { S };

    ghost view = { λ a. a.sink };
}

impl<S: Sink> LineApp<S> {
    /// An application that writes to the sink.
    pub fn new(alloc: Global, sink: S) -> LineApp<S>
        ensures { result ≡ sink }
    {
        LineApp {
            line: Vec::new(alloc),
            sink,
        }
    }

    pub fn sink(&self) -> &S
        ensures { result.now ≡ self.now }
    {
        &self.sink
    }

    /// The sink, so that it can be let go where it came from.
    pub fn into_sink(self) -> S
        ensures { result ≡ self }
    {
        self.sink
    }
}

impl<S: Sink> App for LineApp<S> {
    ghost app = { λ a. line_seen (S.sink a) };

    fn hand(&mut self, h: &Handed<'_>) -> Said
        ensures moves { AppTakes result h.now (line_seen (S.sink self.old)) (line_seen (S.sink self.new)) }
        ensures line { LineWrites result h.now (S.sink self.old) (S.sink self.new) }
    {
        self.line.clear();
        if push_line(&mut self.line, h).is_err() {
            return Said::OutOfMemory;
        }
        match self.sink.write(self.line.as_slice()) {
            Ok(()) => Said::Taken,
            Err(SinkFailed) => Said::Failed,
        }
    }

    fn ask(&mut self) -> Option<Draft>
        ensures asks { AppAsks (option_map draft_body result) (line_seen (S.sink self.old))
            (line_seen (S.sink self.new)) }
        ensures none { result ≡ None }
        ensures stays { self.new ≡ self.old }
    {
        None
    }
}

// The line of the message, after what is there.
pub(crate) fn push_line(line: &mut Vec<u8>, h: &Handed<'_>) -> Result<(), AllocError>
    ensures { OnOk result (line.new.items ≡ line.old.items ++ line_of h.now) }
{
    let mut number = Buffer::new();
    line.extend_from_slice(number.format(h.number).as_bytes())?;
    line.extend_from_slice(if h.marked { b" Y " } else { b" N " })?;
    push_body(line, h.body)?;
    line.push(b'\n')?;
    Ok(())
}

// The body text of the bytes.
fn push_body(line: &mut Vec<u8>, body: &[u8]) -> Result<(), AllocError>
    ensures { OnOk result (line.new.items ≡ line.old.items ++ body_text body.now) }
{
    for byte in body {
        push_byte(line, *byte)?;
    }
    Ok(())
}

// The text of one byte.
fn push_byte(line: &mut Vec<u8>, byte: u8) -> Result<(), AllocError>
    ensures { OnOk result (line.new.items ≡ line.old.items ++ byte_text byte) }
{
    match byte {
        1 => line.push(b'|')?,
        b'\\' => line.extend_from_slice(b"\\\\")?,
        b'|' => line.extend_from_slice(b"\\|")?,
        0..=0x1F | 0x7F..=0xFF => {
            line.extend_from_slice(b"\\x")?;
            line.push(digit(byte / 16))?;
            line.push(digit(byte % 16))?;
        }
        _ => line.push(byte)?,
    }
    Ok(())
}

// 0 to 9 and a to f.
fn digit(value: u8) -> u8
    requires { value < 16 }
    ensures { result ≡ hex_digit value }
{
    if value < 10 {
        b'0' + value
    } else {
        b'a' + (value - 10)
    }
}
