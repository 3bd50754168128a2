//! Runs cases: texts of what stations type and are answered, of files that are read, of programs and what they print.
//!
//! Each word of the command line is the path of a file: one that ends with `.case` has cases, and any other is a file that all cases
//! of the files after it have under its name. `--ample` leaves out the second run of cases that begin with `scarce`. The form of a
//! case is told in data/README.md. A line a case is printed, and at last how many have passed; on standard error is told of
//! each step that is not as written the file, the line, what is wanted and what was shown. The status is 0 where all is as written, 1
//! where something is not, and 2 where a file can't be read.
//!
//! Behind a first word `--run` stand a folder, files, and the words of programs, which are run on copies of these files: see
//! `shown_runs.rt`.
//!
//! Start reading at `suite.rt`, then `stage.rt`: a step after another is performed there, over the files of the crate `case_files`.
#![tactic(auto)]

mod file_steps;
mod program_steps;
mod programs;
mod scarce_lines;
mod seen_steps;
mod setup_steps;
mod shown_runs;
mod stage;
mod station_steps;
mod suite;
mod sweep;
mod tool_steps;

use crate::shown_runs::run_programs;
use crate::suite::{Suite, Tally};
use std::env;
use std::fs::{self, File};
use std::io::{self, Write};
use std::process::ExitCode;
use std::rt::{Env, Files, Runtime};
use std::sync::Wait;
use std::thread::Threads;

/// The word that leaves scarce memory out, for a build that watches the memory of its process.
const AMPLE: &str = "--ample";

/// The word behind which programs stand.
const RUN: &str = "--run";

/// The status where a file can't be read.
const UNREAD: u8 = 2;

/// Runs the cases, or programs.
fn main(rt: HostRuntime) -> ExitCode {
    let Ok(words) = read_words(&rt) else {
        return ExitCode::from(UNREAD);
    };
    if let [_, first, programs @ ..] = words.as_slice() {
        if first.as_str() == RUN {
            return match run_programs(&rt, &mut rt.stdout(), &mut rt.stderr(), programs) {
                Ok(status) => ExitCode::from(status),
                Err(_) => {
                    let _ = writeln!(rt.stderr(), "cases: a file can't be read or written");
                    ExitCode::from(UNREAD)
                }
            };
        }
    }
    match run_files(&rt, &words, &mut rt.stdout(), &mut rt.stderr()) {
        Ok(tally) if tally.failed == 0 => ExitCode::SUCCESS,
        Ok(_) => ExitCode::FAILURE,
        Err(_) => ExitCode::from(UNREAD),
    }
}

// The words of the command line.
fn read_words<R: Env + AllocGlobal>(rt: &R) -> io::Result<Vec<String>> {
    Ok(env::args(rt)?.collect(rt.alloc())?)
}

// Runs the cases of all files that the words name.
fn run_files<
    R: Runtime + Files<File = File> + AllocGlobal + Threads + Wait + Sync,
    O: Write,
    E: Write,
>(rt: &R, words: &[String], out: &mut O, err: &mut E) -> io::Result<Tally> {
    let is_ample = words.iter().any(|word| word.as_str() == AMPLE);
    let mut suite = Suite::new(rt.alloc(), is_ample);
    for word in words.iter().skip(1) {
        if word.as_str() != AMPLE {
            run_file(rt, &mut suite, word.as_str(), out, err)?;
        }
    }
    suite.tell(out)?;
    Ok(suite.tally())
}

// Runs the cases of a file, or gives the file to the cases after it.
fn run_file<R: Runtime + Files<File = File> + Threads + Wait + Sync, O: Write, E: Write>(
    rt: &R,
    suite: &mut Suite,
    path: &str,
    out: &mut O,
    err: &mut E,
) -> io::Result<()> {
    let bytes = match fs::read(rt, path) {
        Ok(bytes) => bytes,
        Err(error) => {
            writeln!(err, "cases: {path}: cannot read")?;
            return Err(error);
        }
    };
    if path.ends_with(".case") {
        suite.run(rt, path, &bytes, out, err)
    } else {
        Ok(suite.give(path, &bytes)?)
    }
}
