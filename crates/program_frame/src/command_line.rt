//! The options of a command line.

ghost use Rattle.std.specs.Prelude.{◌≡◌, false, option_copied};
ghost use Rattle.clap.specs.Words.{app_of, first_of, rule_of};
ghost use Rattle.program_frame.specs.CommandLine.{program_app, flag_rule, option_rule, required_rule, option_rows, IsFlag};

use clap::builder::ValueParser;
use clap::{Arg, ArgAction, ArgMatches, Command};
use std::alloc::Global;

/// The version of the programs, and the logic that they are proved in, as `rt version` tells it: kits of the toolchain that have the
/// same logic prove the same. `--version` prints both.
pub const VERSION: &str = "0.11.0 (rattle logic dac8208d650f15bf)";

/// A program of a name, with no option yet: what it does, and what its help says after the options.
pub fn program<'a>(alloc: Global, name: &'a str, about: &'a str, after_help: &'a str) -> Command<'a>
    ensures app { app_of result ≡ program_app name.entry.now }
{
    Command::new(alloc, name)
        .about(about)
        .after_help(after_help)
        .version(VERSION)
}

/// An option `--NAME` that is given once, with a value that is not empty: an empty folder's name would mean the root.
pub fn option<'a>(alloc: Global, name: &'a str, value_name: &'a str, help: &'a str) -> Arg<'a>
    ensures rule { rule_of result ≡ option_rule name.entry.now }
    ensures local { result.global ≡ false }
{
    Arg::new(alloc, name)
        .long(name)
        .value_name(value_name)
        .help(help)
        .action(ArgAction::Set)
        .value_parser(ValueParser::NonEmptyString)
}

/// An option `--NAME` as [`option`] makes it, which has to be given.
pub fn required_option<'a>(
    alloc: Global,
    name: &'a str,
    value_name: &'a str,
    help: &'a str,
) -> Arg<'a>
    ensures rule { rule_of result ≡ required_rule name.entry.now }
    ensures local { result.global ≡ false }
{
    option(alloc, name, value_name, help).required(true)
}

/// A flag `--NAME`.
pub fn flag<'a>(alloc: Global, name: &'a str, help: &'a str) -> Arg<'a>
    ensures rule { rule_of result ≡ flag_rule name.entry.now }
    ensures local { result.global ≡ false }
{
    Arg::new(alloc, name)
        .long(name)
        .help(help)
        .action(ArgAction::SetTrue)
}

/// The value of the option of a name, where it is given. Takes no memory.
pub fn value_of<'a>(matches: &ArgMatches<'a>, name: &str) -> Option<&'a str>
    ensures value { option_copied result ≡ first_of name.now (option_rows matches.now) }
{
    matches.get_str(name)
}

/// Whether the flag of a name is given. Takes no memory.
pub fn has_flag(matches: &ArgMatches<'_>, name: &str) -> bool
    ensures flag { IsFlag (option_rows matches.now) name.now result }
{
    matches.get_flag(name)
}
