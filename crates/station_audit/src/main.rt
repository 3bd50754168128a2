//! Audits the journal of a run of `station_server`.
//!
//! The program reads the journal, and then the setup and the files that it names, which have to be those that the run read. It
//! opens the tables as the run found them, performs the journal's entries one after another in one thread, and compares each
//! answer; where a folder is given it writes the tables as they are at the journal's end, and says whether their files are
//! those that the run wrote. This file has `main`: it reads the words of the command line, has the journal audited, and has
//! the end told. What the program does with the words is the crate `audit_program`. The audit itself is the crate `audit`: start
//! reading at its `specs/Audits.antt`.
#![tactic(auto)]

use audit_program::{AuditFailure, Audited, PROGRAM, run_program};
use folders::DiskSource;
use program_frame::{Ending, Failure, Host, tell};
use std::env;
use std::fs::File;
use std::io::Write;
use std::process::ExitCode;
use std::rt::{Files, Runtime};
use std::thread::Threads;

/// Runs the program. What it prints and its exit status are those of [`tell`]. A stream that takes no text changes
/// nothing of them.
fn main(rt: HostRuntime) -> ExitCode {
    let ended = run_words(&rt, &mut rt.stderr());
    tell(&mut rt.stdout(), &mut rt.stderr(), PROGRAM, &ended).status
}

// Runs the program on the words of its command line, over the system.
fn run_words<R: Runtime + Files<File = File> + AllocGlobal + Threads, E: Write>(
    rt: &R,
    err: &mut E,
) -> Result<Audited, Ending<Failure<AuditFailure>>> {
    let alloc = rt.alloc();
    let words: Vec<String> = env::args(rt)?.collect(alloc)?;
    let mut source = DiskSource::new(rt.clone()?);
    run_program(alloc, &Host::new(rt), &mut source, err, words.as_slice())
}
