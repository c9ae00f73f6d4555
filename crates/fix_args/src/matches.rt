//! The parts of a command line, and what clap found of them. The modules of the programs build their commands
//! from these, and ask for flags and values here.
ghost use Rattle.std.specs.Prelude.{◌≡◌, false, option_map};
ghost use Rattle.clap.specs.Words.{rule_of, first_of, rows_of, found_of};
ghost use Rattle.fix_args.specs.Command.{flag as flag_rule, option as option_rule, names as names_rule};
ghost use Rattle.fix_args.specs.Command.{flag_of};

use clap::{Arg, ArgAction, ArgMatches};
use std::alloc::Global;

/// A flag, as `--check`: it is there or not.
pub fn flag<'a>(alloc: Global, name: &'a str) -> Arg<'a>
    ensures rule { rule_of result ≡ flag_rule name.entry.now }
    ensures global { result.global ≡ false }
{
    Arg::new(alloc, name).long(name).action(ArgAction::SetTrue)
}

/// An option with a value, as `--store FILE`.
pub fn option<'a>(alloc: Global, name: &'a str) -> Arg<'a>
    ensures rule { rule_of result ≡ option_rule name.entry.now }
    ensures global { result.global ≡ false }
{
    Arg::new(alloc, name).long(name).action(ArgAction::Set)
}

/// The words that are no flag, no option and no option's value.
pub fn names(alloc: Global) -> Arg<'static>
    ensures rule { rule_of result ≡ names_rule }
    ensures global { result.global ≡ false }
{
    Arg::new(alloc, "names").action(ArgAction::Append)
}

/// Whether this flag is there.
pub fn is_set(m: &ArgMatches<'_>, name: &str) -> bool
    ensures { result ≡ flag_of (first_of name.now (rows_of (found_of m.now))) }
{
    match m.get_str(name) {
        Some(text) => text == "true",
        None => false,
    }
}

/// The value of this option.
pub fn value<'a>(m: &ArgMatches<'a>, name: &str) -> Option<&'a str>
    ensures { option_map (λ s. s.now) result ≡ first_of name.now (rows_of (found_of m.now)) }
{
    m.get_str(name)
}
