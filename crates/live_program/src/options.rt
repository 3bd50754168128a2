//! The command line.

ghost use Rattle.std.specs.Prelude.{◌≡◌, None, IfErr, IfOk, IfSome, map};
ghost use Rattle.clap.specs.Words.{app_of};
ghost use Rattle.program_frame.specs.CommandLine.{option_rows, HasBadDate};
ghost use Rattle.live_program.specs.Asked.{paths_app, prompt_app, HasPaths, IsAskedBy, IsAskedIn, IsWhyNotRead};

use crate::failure::LiveFailure;
use clap::{ArgMatches, Command};
use dbf_fields::Day;
use program_frame::{Ending, Failure, date_of, flag, has_flag, program, required_option, value_of};
use std::alloc::{AllocError, Global};
use std::convert::AsStr;

// What the help tells after the options.
const STATUSES: &str =
    "Lines come from standard input, each as one line of a script. STATION n gives the keyboard to
station n, QUIT or the end of input closes the day.

With --live the path of each STATION line is a pipe (mkfifo) or a terminal where that station
types; its answers go to that path with .OUT, which has to be there too. QUIT or the end of a
station's input ends that station, and the end of all closes the day.

Exit status:
  0  the day is closed, and all files are written
  1  the command line, the date or a line of the setup is bad
  2  a file is refused or can't be read, or the tables can't be opened together
  3  memory was refused
  4  the log or the files are not written, or not all; or the answers can't be printed
  5  the log does not hold on the tables";

/// What the command line says.
#[derive(Clone, Copy, Debug)]
pub struct Options<'a> {
    /// The path of the setup.
    pub setup: &'a str,
    /// The path of the folder that files are written to.
    pub out: &'a str,
    /// The date of the day, of the years 1900 to 2155.
    pub today: Day,
    /// Whether the indexes are made anew from the records, in place of being read.
    pub reindex: bool,
    /// Whether each station's lines come from a pipe or terminal of its own.
    pub live: bool,
}

// The command line without its flag.
fn command_of_paths<'a>(alloc: Global) -> Result<Command<'a>, AllocError>
    ensures app { IfOk result (λ command. app_of command ≡ paths_app) }
{
    let about = "Answers the lines of stations as they come, on shared dBASE III PLUS tables";
    program(alloc, "station_prompt", about, STATUSES)
        .arg(required_option(
            alloc,
            "setup",
            "FILE",
            "The setup: its tables, its indexes and how many stations there are",
        ))?
        .arg(required_option(
            alloc,
            "out",
            "DIR",
            "The folder for the written files and the log, which has to exist",
        ))?
        .arg(required_option(
            alloc,
            "today",
            "YYYYMMDD",
            "The date that the written tables tell, of 1900 to 2155",
        ))
}

/// The command line, for `clap` to read. An error where memory is refused.
pub fn command<'a>(alloc: Global) -> Result<Command<'a>, AllocError>
    ensures app { IfOk result (λ command. app_of command ≡ prompt_app) }
{
    command_of_paths(alloc)?
        .arg(flag(alloc, "reindex", "Make the indexes anew from the records"))?
        .arg(flag(
            alloc,
            "live",
            "Hear each station at its STATION line's path, and answer it at that path with .OUT",
        ))
}

/// What a command line says that `clap` has read. `None` where the date is no calendar date of the years 1900
/// to 2155. Takes no memory.
pub fn options_of<'a>(matches: &ArgMatches<'a>) -> Option<Options<'a>>
    ensures asked { IfSome result (IsAskedBy (option_rows matches.now)) }
    ensures bad { result ≡ None → HasPaths (option_rows matches.now) → HasBadDate (option_rows matches.now) }
{
    let setup = value_of(matches, "setup")?;
    let out = value_of(matches, "out")?;
    let today = date_of(value_of(matches, "today")?.as_bytes())?;
    let reindex = has_flag(matches, "reindex");
    let live = has_flag(matches, "live");
    Some(Options {
        setup,
        out,
        today,
        reindex,
        live,
    })
}

/// What the words of a command line ask for, of which the first is the program's name.
///
/// `CommandLine` says that `clap` gives no options, `Failed(BadDate)` that the date is no calendar date of the years 1900 to 2155.
pub fn read_options<'a, T: AsStr>(
    alloc: Global,
    words: &'a [T],
) -> Result<Options<'a>, Ending<Failure<LiveFailure>>>
    ensures asked { IfOk result (IsAskedIn (map T.text words.entry.now)) }
    ensures fault { IfErr result (IsWhyNotRead (map T.text words.entry.now)) }
{
    let matches = command(alloc)?.try_get_matches_from(words)?;
    match options_of(&matches) {
        Some(options) => Ok(options),
        None => Err(Ending::Failed(Failure::BadDate)),
    }
}
