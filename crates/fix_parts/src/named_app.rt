//! An application that shows what it takes as lines of text, each with the name of its session in front. The programs
//! of several sessions run with it.
ghost use Rattle.std.specs.Prelude.{◌≡◌, ◌++◌, OnOk, None, option_map};
ghost use Rattle.fix_fields.specs.Drafted.{draft_body};
ghost use Rattle.fix_parts.specs.App.{AppTakes, AppAsks};
ghost use Rattle.fix_parts.specs.Line.{NamedWrites, named_seen, named_line, name_text};

use crate::line_app::push_line;
use crate::{App, Handed, LineApp, Said};
use fix_base::Identity;
use fix_disk::{Sink, SinkFailed};
use fix_fields::Draft;
use std::alloc::{AllocError, Global};
use std::marker::Model;

/// An application that writes a line of text for each message, with the name of the session in front, as
/// `FIX.4.2:SELL->BUY`. Contracts see it as that name and its sink. It tells no lines.
#[derive(Drop)]
pub struct NamedApp<S: Sink> {
    identity: Identity,
    // The line of the message in hand. It is kept to be used again.
    line: Vec<u8>,
    sink: S,
}

impl<S: Sink> Model for NamedApp<S> {
    ghost use Rattle.fix_parts.specs.Line.{NamedSeen, name_text};

    ghost Value = { NamedSeen S };

    ghost view = { λ a. record { name = name_text a.identity; sink = a.sink } };
}

impl<S: Sink> LineApp<S> {
    /// An application that writes to the sink, and begins each line with the name of the session.
    pub fn named(alloc: Global, sink: S, identity: Identity) -> NamedApp<S>
        ensures { result ≡ record { name = name_text identity; sink = sink } }
    {
        NamedApp {
            identity,
            line: Vec::new(alloc),
            sink,
        }
    }
}

impl<S: Sink> NamedApp<S> {
    /// The sink.
    pub fn sink(&self) -> &S
        ensures { result.now ≡ self.now.sink }
    {
        &self.sink
    }

    /// The sink, so that it can be let go where it came from.
    pub fn into_sink(self) -> S
        ensures { result ≡ self.sink }
    {
        self.sink
    }
}

impl<S: Sink> App for NamedApp<S> {
    ghost app = { λ a. named_seen (S.sink a.sink) };

    fn hand(&mut self, h: &Handed<'_>) -> Said
        ensures moves { AppTakes result h.now (named_seen (S.sink self.old.sink)) (named_seen (S.sink self.new.sink)) }
        ensures line { NamedWrites result self.old.name h.now (S.sink self.old.sink) (S.sink self.new.sink) }
        ensures name { self.new.name ≡ self.old.name }
    {
        self.line.clear();
        if push_named(&mut self.line, &self.identity, h).is_err() {
            return Said::OutOfMemory;
        }
        match self.sink.write(self.line.as_slice()) {
            Ok(()) => Said::Taken,
            Err(SinkFailed) => Said::Failed,
        }
    }

    fn ask(&mut self) -> Option<Draft>
        ensures asks { AppAsks (option_map draft_body result) (named_seen (S.sink self.old.sink))
            (named_seen (S.sink self.new.sink)) }
        ensures none { result ≡ None }
        ensures stays { self.new ≡ self.old }
    {
        None
    }
}

// The line of the message with the name in front, after what is there.
fn push_named(line: &mut Vec<u8>, identity: &Identity, h: &Handed<'_>) -> Result<(), AllocError>
    ensures { OnOk result (line.new.items ≡ line.old.items ++ named_line (name_text identity.now) h.now) }
{
    push_name(line, identity)?;
    line.push(b' ')?;
    push_line(line, h)
}

// The name of the session, after what is there.
fn push_name(line: &mut Vec<u8>, identity: &Identity) -> Result<(), AllocError>
    ensures { OnOk result (line.new.items ≡ line.old.items ++ name_text identity.now) }
{
    line.extend_from_slice(identity.begin.text())?;
    line.extend_from_slice(b":")?;
    line.extend_from_slice(identity.sender.as_slice())?;
    line.extend_from_slice(b"->")?;
    line.extend_from_slice(identity.target.as_slice())?;
    Ok(())
}
