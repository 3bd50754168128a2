//! Shows and compares dBASE III PLUS tables, shows answers, checks setups, makes tables and loads records into them.
//!
//! The program reads a table, with its memos, and prints it as people read it, as CSV, or what its fields are; or it prints what has
//! changed from one table to another, or the commands of a journal with their answers, or looks at every file that a setup names, or makes a
//! table, empty or with the records of a CSV file.
//! This file has `main`: it reads the command line, has what it asks for done, and has its end told. The commands are the crate
//! `tool_program`; what is printed of a table is defined in the crate `table_text`, of two in `table_diff`, and of answers in
//! `entry_text`; a table is made by `table_maker`.
#![tactic(auto)]

use folders::DiskSource;
use program_frame::{Ending, Host};
use std::env;
use std::fs::File;
use std::io::Write;
use std::process::ExitCode;
use std::rt::{Env, Files, Runtime};
use std::thread::Threads;
use tool_program::{StreamSink, ToolFault, ToolReport, run_words, tell_end};

/// Runs the program. What it prints besides what is asked for, and its exit status, are those of [`tell_end`].
fn main(rt: HostRuntime) -> ExitCode {
    let words = match read_words(&rt) {
        Ok(words) => words,
        Err(ending) => return tell_end(&mut rt.stdout(), &mut rt.stderr(), &Err(ending)).status,
    };
    let ended = run_program(&rt, rt.stdout(), &mut rt.stderr(), words.as_slice());
    tell_end(&mut rt.stdout(), &mut rt.stderr(), &ended).status
}

// The words of the command line, the program's name too.
fn read_words<'a, R: Env + AllocGlobal>(rt: &R) -> Result<Vec<String>, Ending<ToolFault<'a>>> {
    Ok(env::args(rt)?.collect(rt.alloc())?)
}

// Does what the words ask for, over the files of the system and two streams.
fn run_program<
    'a,
    R: Runtime + Files<File = File> + AllocGlobal + Threads,
    W: Write + Drop,
    E: Write,
>(rt: &R, out: W, err: &mut E, words: &'a [String]) -> Result<ToolReport, Ending<ToolFault<'a>>> {
    let mut source = DiskSource::new(rt.clone()?);
    let mut sink = StreamSink::new(out);
    run_words(
        rt.alloc(),
        &mut source,
        &mut sink,
        &Host::new(rt),
        err,
        words,
    )
}
