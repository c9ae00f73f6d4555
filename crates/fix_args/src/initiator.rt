//! The arguments of `fixinitiator`.
ghost use Rattle.std.specs.Prelude.{◌≡◌, IfOk, MatchOption, OnOk, map, option_map};
ghost use Rattle.clap.specs.Words.{app_of, rows_of, found_of};
ghost use Rattle.fix_args.specs.Command.{initiator_command, Asks, AsksNothing};
ghost use Rattle.fix_args.specs.Initiator.{initiator_line, line_of, text_of};

use crate::matches::{flag, is_set, names};
use clap::error::ErrorKind;
use clap::{ArgMatches, Command};
use fix_base::OutOfMemory;
use std::alloc::{AllocError, Global};

/// What `fixinitiator` is asked for.
#[derive(Drop, Debug)]
pub enum InitiatorArgs<'a> {
    /// `SETTINGS`: each session is dialled.
    Serve {
        settings: &'a str,
    },
    /// `--send SETTINGS FILES`: the drafts of the files are sent by the first session. There is at least one file.
    Send {
        settings: &'a str,
        files: Vec<&'a str>,
    },
    /// `--check SETTINGS`: the settings are printed as read.
    Check {
        settings: &'a str,
    },
}

/// What these arguments ask for. None is that they are no line of the table.
pub fn initiator_args<'a>(
    alloc: Global,
    words: &'a [&'a str],
) -> Result<Option<InitiatorArgs<'a>>, OutOfMemory>
    ensures { IfOk result (λ found. MatchOption found
        (AsksNothing initiator_command initiator_line (map (λ w. w.now) words.now))
        (λ args. Asks initiator_command initiator_line (map (λ w. w.now) words.now) (text_of args))) }
{
    let Ok(command) = initiator(alloc) else {
        return Err(OutOfMemory);
    };
    match command.try_get_matches_from(words) {
        Ok(m) => line_met(alloc, &m),
        Err(e) if e.kind() == ErrorKind::OutOfMemory => Err(OutOfMemory),
        Err(_) => Ok(None),
    }
}

fn initiator<'a>(alloc: Global) -> Result<Command<'a>, AllocError>
    ensures { IfOk result (λ c. app_of c ≡ initiator_command) }
{
    Command::new(alloc, "fixinitiator")
        .no_binary_name(true)
        .disable_help_flag(true)
        .arg(flag(alloc, "send"))?
        .arg(flag(alloc, "check"))?
        .arg(names(alloc))
}

// The line that the matches meet.
fn line_met<'a>(alloc: Global, m: &ArgMatches<'a>) -> Result<Option<InitiatorArgs<'a>>, OutOfMemory>
    ensures { IfOk result (λ found. option_map text_of found ≡ initiator_line (rows_of (found_of m.now))) }
{
    line(
        alloc,
        is_set(m, "send"),
        is_set(m, "check"),
        m.get_strs("names").unwrap_or(&[]),
    )
}

// The line of the table with these flags and names.
fn line<'a>(
    alloc: Global,
    send: bool,
    check: bool,
    names: &[&'a str],
) -> Result<Option<InitiatorArgs<'a>>, OutOfMemory>
    ensures { IfOk result (λ found. option_map text_of found ≡ line_of send check (map (λ s. s.now) names.entry.now)) }
{
    match (send, check, names) {
        (false, false, [settings]) => Ok(Some(InitiatorArgs::Serve { settings })),
        (false, true, [settings]) => Ok(Some(InitiatorArgs::Check { settings })),
        (true, false, [settings, _, ..]) => {
            let mut files = Vec::new(alloc);
            files.extend_from_slice(&names[1..])?;
            Ok(Some(InitiatorArgs::Send { settings, files }))
        }
        _ => Ok(None),
    }
}
