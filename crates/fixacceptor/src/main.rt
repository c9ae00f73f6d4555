//! A FIX acceptor over the standard streams: bytes come in on standard input and go out on
//! standard output, and each application message becomes a line on standard error.
#![tactic(auto)]

mod help;

ghost use Rattle.std.specs.Prelude.{◌≡◌, ◌↔◌, map};
ghost use Rattle.fix_top.specs.Words.{IsNoForm};

use fix_base::Status;
use fix_disk::{MemoryDisk, StreamSink};
use fix_parts::{LineApp, NoTape, StdioLink, SystemClock};
use fix_rim::Rim;
use fix_top::{asks_for_session, serve_stdio, status_name};
use help::{HELP, VERSION};
use std::alloc::{AllocError, Global};
use std::env;
use std::process::ExitCode;

/// Arguments that can't be read.
const WORDS: Status = Status(2);
/// The text can't be printed.
const LINK: Status = Status(6);

const MEMORY: Status = Status(9);

/// So many bytes of the message store are kept, in memory.
const STORE: usize = 16_777_216;

// Serves a session over the standard streams.
fn serve(rt: &HostRuntime, words: &[&str]) -> Status
    ensures { (result.0 ≡ 2) ↔ IsNoForm (map (λ w. w.now) words.now) }
{
    if !asks_for_session(words) {
        return WORDS;
    }
    let alloc = rt.alloc();
    let Ok(disk) = MemoryDisk::new(alloc, STORE, 0, Vec::new(alloc), None) else {
        return MEMORY;
    };
    let mut o = Rim::new(
        alloc,
        disk,
        Some(StdioLink::new(rt.stdin(), rt.stdout())),
        LineApp::new(alloc, StreamSink::new(rt.stderr())),
        SystemClock::new(rt),
        NoTape,
    );
    serve_stdio(alloc, words, &mut o, u64::MAX)
}

// Prints the text on standard output.
fn print(rt: &HostRuntime, text: &str) -> Status {
    match rt.print(text) {
        Ok(()) => Status(0),
        Err(_) => LINK,
    }
}

fn run(rt: &HostRuntime, words: &[&str]) -> Status {
    match words {
        ["--help"] => print(rt, HELP),
        ["--version"] => print(rt, VERSION),
        _ => serve(rt, words),
    }
}

// The arguments as texts, without the program's name.
fn words_of(alloc: Global, args: &[String]) -> Result<Vec<&str>, AllocError> {
    let mut words = Vec::new(alloc);
    for arg in args.iter().skip(1) {
        words.push(arg.as_str())?;
    }
    Ok(words)
}

fn started(rt: &HostRuntime) -> Status {
    let Ok(args) = env::args(rt) else {
        return WORDS;
    };
    let args: Vec<String> = match args.collect(rt.alloc()) {
        Ok(args) => args,
        Err(_) => return MEMORY,
    };
    match words_of(rt.alloc(), &args) {
        Ok(words) => run(rt, &words),
        Err(_) => MEMORY,
    }
}

fn main(rt: HostRuntime) -> ExitCode {
    let status = started(&rt);
    if status.0 >= 2 {
        let name = status_name(status);
        let _ = eprintln!(rt; "fixacceptor: {name}");
    }
    ExitCode::from(status.0)
}
