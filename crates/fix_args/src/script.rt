//! The arguments of `fixscript`.
ghost use Rattle.std.specs.Prelude.{◌≡◌, IfOk, MatchOption, map, option_map};
ghost use Rattle.clap.specs.Words.{app_of, rows_of, found_of};
ghost use Rattle.fix_args.specs.Command.{script_command, Asks, AsksNothing};
ghost use Rattle.fix_args.specs.Script.{script_line, line_of, text_of};

use crate::matches::{flag, is_set, names};
use clap::error::ErrorKind;
use clap::{ArgMatches, Command};
use fix_base::OutOfMemory;
use std::alloc::{AllocError, Global};

/// What `fixscript` is asked for.
#[derive(Clone, Copy, Debug, PartialEq, Eq)]
pub enum ScriptArgs<'a> {
    /// `SCRIPT SETTINGS`: the script is run against the first session.
    Run { script: &'a str, settings: &'a str },
    /// `--make N SEED`: a run of two ends is made. The numbers are as they were given.
    Make { count: &'a str, seed: &'a str },
}

/// What these arguments ask for. None is that they are no line of the table.
pub fn script_args<'a>(
    alloc: Global,
    words: &'a [&'a str],
) -> Result<Option<ScriptArgs<'a>>, OutOfMemory>
    ensures { IfOk result (λ found. MatchOption found
        (AsksNothing script_command script_line (map (λ w. w.now) words.now))
        (λ args. Asks script_command script_line (map (λ w. w.now) words.now) (text_of args))) }
{
    let Ok(command) = script(alloc) else {
        return Err(OutOfMemory);
    };
    match command.try_get_matches_from(words) {
        Ok(m) => Ok(line_met(&m)),
        Err(e) if e.kind() == ErrorKind::OutOfMemory => Err(OutOfMemory),
        Err(_) => Ok(None),
    }
}

fn script<'a>(alloc: Global) -> Result<Command<'a>, AllocError>
    ensures { IfOk result (λ c. app_of c ≡ script_command) }
{
    Command::new(alloc, "fixscript")
        .no_binary_name(true)
        .disable_help_flag(true)
        .arg(flag(alloc, "make"))?
        .arg(names(alloc))
}

// The line that the matches meet.
fn line_met<'a>(m: &ArgMatches<'a>) -> Option<ScriptArgs<'a>>
    ensures { option_map text_of result ≡ script_line (rows_of (found_of m.now)) }
{
    line(is_set(m, "make"), m.get_strs("names").unwrap_or(&[]))
}

// The line of the table with this flag and these names.
fn line<'a>(make: bool, names: &[&'a str]) -> Option<ScriptArgs<'a>>
    ensures { option_map text_of result ≡ line_of make (map (λ s. s.now) names.entry.now) }
{
    match (make, names) {
        (false, [script, settings]) => Some(ScriptArgs::Run { script, settings }),
        (true, [count, seed]) => Some(ScriptArgs::Make { count, seed }),
        _ => None,
    }
}
