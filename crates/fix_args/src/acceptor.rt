//! The arguments of `fixacceptor`.
ghost use Rattle.std.specs.Prelude.{◌≡◌, IfOk, MatchOption, map, option_map};
ghost use Rattle.clap.specs.Words.{app_of, rows_of, found_of};
ghost use Rattle.fix_args.specs.Command.{acceptor_command, Asks, AsksNothing};
ghost use Rattle.fix_args.specs.Acceptor.{acceptor_line, line_of, text_of};

use crate::matches::{flag, is_set, names, option, value};
use clap::error::ErrorKind;
use clap::{ArgMatches, Command};
use fix_base::OutOfMemory;
use std::alloc::{AllocError, Global};

/// What `fixacceptor` is asked for.
#[derive(Clone, Copy, Debug, PartialEq, Eq)]
pub enum AcceptorArgs<'a> {
    /// `--stdio [--settings FILE] [--store FILE] BEGIN SENDER TARGET`: one session over the standard streams.
    Stdio {
        settings: Option<&'a str>,
        store: Option<&'a str>,
        begin: &'a str,
        sender: &'a str,
        target: &'a str,
    },
    /// `--check SETTINGS`: the settings are printed as read.
    Check {
        settings: &'a str,
    },
    /// `[--echo] SETTINGS`: all sessions are served, with `--echo` each message is sent back.
    Serve {
        echo: bool,
        settings: &'a str,
    },
}

/// What these arguments ask for. None is that they are no line of the table.
pub fn acceptor_args<'a>(
    alloc: Global,
    words: &'a [&'a str],
) -> Result<Option<AcceptorArgs<'a>>, OutOfMemory>
    ensures { IfOk result (λ found. MatchOption found
        (AsksNothing acceptor_command acceptor_line (map (λ w. w.now) words.now))
        (λ args. Asks acceptor_command acceptor_line (map (λ w. w.now) words.now) (text_of args))) }
{
    let Ok(command) = acceptor(alloc) else {
        return Err(OutOfMemory);
    };
    match command.try_get_matches_from(words) {
        Ok(m) => Ok(line_met(&m)),
        Err(e) if e.kind() == ErrorKind::OutOfMemory => Err(OutOfMemory),
        Err(_) => Ok(None),
    }
}

fn acceptor<'a>(alloc: Global) -> Result<Command<'a>, AllocError>
    ensures { IfOk result (λ c. app_of c ≡ acceptor_command) }
{
    Command::new(alloc, "fixacceptor")
        .no_binary_name(true)
        .disable_help_flag(true)
        .arg(flag(alloc, "stdio"))?
        .arg(flag(alloc, "check"))?
        .arg(flag(alloc, "echo"))?
        .arg(option(alloc, "settings"))?
        .arg(option(alloc, "store"))?
        .arg(names(alloc))
}

// The line that the matches meet.
fn line_met<'a>(m: &ArgMatches<'a>) -> Option<AcceptorArgs<'a>>
    ensures { option_map text_of result ≡ acceptor_line (rows_of (found_of m.now)) }
{
    line(
        is_set(m, "stdio"),
        is_set(m, "check"),
        is_set(m, "echo"),
        value(m, "settings"),
        value(m, "store"),
        m.get_strs("names").unwrap_or(&[]),
    )
}

// The line of the table with these flags, values and names.
fn line<'a>(
    stdio: bool,
    check: bool,
    echo: bool,
    settings: Option<&'a str>,
    store: Option<&'a str>,
    names: &[&'a str],
) -> Option<AcceptorArgs<'a>>
    ensures { option_map text_of result ≡ line_of stdio check echo (option_map (λ s. s.now) settings.entry)
        (option_map (λ s. s.now) store.entry) (map (λ s. s.now) names.entry.now) }
{
    match (stdio, check, echo, settings, store, names) {
        (true, false, false, settings, store, [begin, sender, target]) => {
            Some(AcceptorArgs::Stdio {
                settings,
                store,
                begin,
                sender,
                target,
            })
        }
        (false, true, false, None, None, [settings]) => Some(AcceptorArgs::Check { settings }),
        (false, false, echo, None, None, [settings]) => {
            Some(AcceptorArgs::Serve { echo, settings })
        }
        _ => None,
    }
}
