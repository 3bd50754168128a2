//! A server for dBASE III PLUS tables.
//!
//! The program reads a setup and the files that it names, runs a script for each station, and writes the tables
//! as they were left and the stations' answers. This file has `main`: it reads the words of the command line, has the run
//! served, and has its end told. What the program does with the words is the crate `server_program`. The whole
//! run is the crate `office_run`: start reading at its `specs/WholeRun.antt`. Setups, files and
//! the run of all stations are crates of their own, too.
#![tactic(auto)]

use folders::DiskSource;
use office_run::ServeFault;
use program_frame::{Ending, Failure, Host, tell};
use server_program::{PROGRAM, Served, run_program};
use std::env;
use std::fs::File;
use std::io::Write;
use std::process::ExitCode;
use std::rt::{Files, Runtime};
use std::sync::Wait;
use std::thread::Threads;

/// Runs the program. What it prints and its exit status are those of [`tell`]. A stream that takes no text changes
/// nothing of them: where all files are written the status is 0.
fn main(rt: HostRuntime) -> ExitCode {
    let ended = run_words(&rt, &mut rt.stderr());
    tell(&mut rt.stdout(), &mut rt.stderr(), PROGRAM, &ended).status
}

// Runs the program on the words of its command line, over the system.
fn run_words<R: Runtime + Files<File = File> + AllocGlobal + Threads + Wait + Sync, E: Write>(
    rt: &R,
    err: &mut E,
) -> Result<Served, Ending<Failure<ServeFault>>> {
    let alloc = rt.alloc();
    let words: Vec<String> = env::args(rt)?.collect(alloc)?;
    let mut source = DiskSource::new(rt.clone()?);
    run_program(
        rt,
        alloc,
        &Host::new(rt),
        &mut source,
        err,
        words.as_slice(),
    )
}
