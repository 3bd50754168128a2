//! The command line.

ghost use Rattle.std.specs.Prelude.{◌≡◌, codes, false, map, None, IfErr, IfOk, IfSome};
ghost use Rattle.clap.specs.Words.{app_of, rule_of};
ghost use Rattle.program_frame.specs.CommandLine.{option_rows};
ghost use Rattle.audit_program.specs.Asked.{audit_app, paths_app, wanting_rule, GivesBadDate, HasPaths, IsAskedBy, IsAskedIn, IsWhyNotRead, SaysWritten};

use crate::failure::AuditFailure;
use clap::{Arg, ArgMatches, Command};
use dbf_fields::Day;
use program_frame::{
    Ending, Failure, date_of, flag, has_flag, option, program, required_option, value_of,
};
use std::alloc::{AllocError, Global};
use std::convert::AsStr;

// What the help tells after the options.
const STATUSES: &str = "Exit status:
  0  all entries hold, and the tables are written where a folder is given
  1  the command line, the date or a line of the setup is bad
  2  a file is refused or can't be read, or the tables can't be opened together
  3  memory was refused
  4  all entries hold, and the tables are not written, or not all
  5  an entry does not hold
  6  the journal is none or is cut, or the run was with other files or another --reindex
  7  all entries hold, and a file that was written is not the run's";

/// What the command line says.
#[derive(Clone, Copy, Debug)]
pub struct Options<'a> {
    /// The path of the setup.
    pub setup: &'a str,
    /// The path of the journal.
    pub journal: &'a str,
    /// Whether the run made the indexes anew from the records, in place of reading them.
    pub reindex: bool,
    /// Where the tables at the journal's end are written, if they are.
    pub written: Option<Written<'a>>,
}

/// Where the tables at the journal's end are written.
#[derive(Clone, Copy, Debug)]
pub struct Written<'a> {
    /// The path of the folder.
    pub out: &'a str,
    /// The date that they tell, of the years 1900 to 2155.
    pub today: Day,
}

// The command line without what is written.
fn command_of_paths<'a>(alloc: Global) -> Result<Command<'a>, AllocError>
    ensures app { IfOk result (λ command. app_of command ≡ paths_app) }
{
    let about = "Performs the journal of a run once more and compares each answer";
    program(alloc, "station_audit", about, STATUSES)
        .arg(required_option(
            alloc,
            "setup",
            "FILE",
            "The setup of the run, with its files as the run found them",
        ))?
        .arg(required_option(alloc, "journal", "FILE", "The journal of the run"))
}

/// The command line, for `clap` to read. An error where memory is refused.
pub fn command<'a>(alloc: Global) -> Result<Command<'a>, AllocError>
    ensures app { IfOk result (λ command. app_of command ≡ audit_app) }
{
    command_of_paths(alloc)?
        .arg(out_option(alloc)?)?
        .arg(today_option(alloc)?)?
        .arg(flag(
            alloc,
            "reindex",
            "Make the indexes anew from the records, as the run did",
        ))
}

// The folder for the tables, which wants a date.
fn out_option<'a>(alloc: Global) -> Result<Arg<'a>, AllocError>
    ensures rule { IfOk result (λ arg. rule_of arg ≡ wanting_rule (codes "out")) }
    ensures local { IfOk result (λ arg. arg.global ≡ false) }
{
    option(
        alloc,
        "out",
        "DIR",
        "The folder for the tables at the journal's end, which has to exist",
    )
    .requires_arg("today")
}

// The date of the tables, which wants a folder.
fn today_option<'a>(alloc: Global) -> Result<Arg<'a>, AllocError>
    ensures rule { IfOk result (λ arg. rule_of arg ≡ wanting_rule (codes "today")) }
    ensures local { IfOk result (λ arg. arg.global ≡ false) }
{
    option(
        alloc,
        "today",
        "YYYYMMDD",
        "The date that the written tables tell, of 1900 to 2155",
    )
    .requires_arg("out")
}

// What a command line says of the written tables: nothing, where it has not both the folder and the day. `None` where the
// date is bad.
fn written_of<'a>(matches: &ArgMatches<'a>) -> Option<Option<Written<'a>>>
    ensures says { IfSome result (SaysWritten (option_rows matches.now)) }
    ensures bad { result ≡ None → GivesBadDate (option_rows matches.now) }
{
    let Some(out) = value_of(matches, "out") else {
        return Some(None);
    };
    let Some(text) = value_of(matches, "today") else {
        return Some(None);
    };
    let today = date_of(text.as_bytes())?;
    Some(Some(Written { out, today }))
}

/// What a command line says that `clap` has read. `None` where the date is no calendar date of the years 1900 to 2155.
/// Takes no memory.
pub fn options_of<'a>(matches: &ArgMatches<'a>) -> Option<Options<'a>>
    ensures asked { IfSome result (IsAskedBy (option_rows matches.now)) }
    ensures bad { result ≡ None → HasPaths (option_rows matches.now) → GivesBadDate (option_rows matches.now) }
{
    let setup = value_of(matches, "setup")?;
    let journal = value_of(matches, "journal")?;
    let written = written_of(matches)?;
    let reindex = has_flag(matches, "reindex");
    Some(Options {
        setup,
        journal,
        reindex,
        written,
    })
}

/// What the words of a command line ask for, of which the first is the program's name.
///
/// `CommandLine` says that `clap` gives no options, `Failed(BadDate)` that the date is no calendar date of the years 1900 to 2155.
pub fn read_options<'a, T: AsStr>(
    alloc: Global,
    words: &'a [T],
) -> Result<Options<'a>, Ending<Failure<AuditFailure>>>
    ensures asked { IfOk result (IsAskedIn (map T.text words.entry.now)) }
    ensures fault { IfErr result (IsWhyNotRead (map T.text words.entry.now)) }
{
    let matches = command(alloc)?.try_get_matches_from(words)?;
    match options_of(&matches) {
        Some(options) => Ok(options),
        None => Err(Ending::Failed(Failure::BadDate)),
    }
}
