//! Answers the lines of stations as they come, on shared dBASE III PLUS tables.
//!
//! The program opens the tables of a setup, performs the log of an earlier life once more on them, and answers each line from standard
//! input at once, or with `--live` from each station's own pipe or terminal: before an answer is shown its entry is in the log, on the
//! disk. At QUIT or the end of input the new files take their places all together, with an empty log. This file has `main`: it reads
//! the words of the command line, has the day lived, and has its end told. What the program does with the words is the crate
//! `live_program`, and with live stations `live_stations`. A day is the crate `live_day`: start reading at its `specs/Shows.antt`.
#![tactic(auto)]

use folders::{DiskSource, Source};
use live_program::{
    HostPlaces, LiveFailure, Lived, PROGRAM, PrintedAnswers, ShownBytes, TypedLines, run_program,
};
use live_stations::{
    Asked, LiveSetup, StationPaths, StationsDay, Terminals, live_setup, live_stations, tell_day,
};
use program_frame::{Ending, Failure, tell};
use std::env;
use std::fs::File;
use std::io::{BufRead, BufReader, IsTerminal};
use std::process::ExitCode;
use std::rt::{Files, Runtime, Stderr, Stdin, Stdout};
use std::sync::Wait;
use std::thread::Threads;

// The standard streams.
#[derive(Clone, Copy)]
struct Streams {
    input: Stdin,
    out: Stdout,
    err: Stderr,
}

/// Runs the program. What it prints at its end and its exit status are those of [`tell`], and with live stations those of [`tell_day`]. A
/// stream that takes no text changes nothing of them.
fn main(rt: HostRuntime) -> ExitCode {
    let streams = Streams {
        input: rt.stdin(),
        out: rt.stdout(),
        err: rt.stderr(),
    };
    let (words, setup) = match read_words(&rt) {
        Ok(read) => read,
        Err(ending) => return tell_end(streams, Err(ending)),
    };
    match setup {
        LiveSetup::Live { source, paths } => {
            let count = paths.len();
            // Only here it is known that the system's runtime may be used by several threads.
            let stations = StationPaths::new(&rt, paths);
            let lived = run_live(&rt, words.as_slice(), source, &stations, count, streams);
            tell_live(streams, lived)
        }
        LiveSetup::NoneLive { source } => {
            tell_end(streams, run_words(&rt, words.as_slice(), source, streams))
        }
        LiveSetup::NotAsked { source } => {
            tell_end(streams, run_words(&rt, words.as_slice(), source, streams))
        }
    }
}

// Tells how a day ended: the exit status.
fn tell_end(streams: Streams, ended: Result<Lived, Ending<Failure<LiveFailure>>>) -> ExitCode {
    let mut out = streams.out;
    let mut err = streams.err;
    tell(&mut out, &mut err, PROGRAM, &ended).status
}

// Tells what there is to say of each station, or why there was no day of theirs: the exit status.
fn tell_live<K: Drop, S: Drop, P: Drop, F: Drop>(
    streams: Streams,
    lived: Result<StationsDay<K, S, P, F>, Ending<Failure<LiveFailure>>>,
) -> ExitCode {
    let mut err = streams.err;
    match lived {
        Ok(day) => tell_day(&mut err, &day),
        Err(ending) => tell_end(streams, Err(ending)),
    }
}

// The words of the command line, and what they and the setup say of live stations.
fn read_words<R: Runtime + Files<File = File> + AllocGlobal>(
    rt: &R,
) -> Result<(Vec<String>, LiveSetup<DiskSource<R>>), Ending<Failure<LiveFailure>>> {
    let alloc = rt.alloc();
    let words: Vec<String> = env::args(rt)?.collect(alloc)?;
    match live_setup(alloc, DiskSource::new(rt.clone()?), words.as_slice()) {
        Ok(setup) => Ok((words, setup)),
        Err(fault) => Err(Ending::Failed(Failure::Work(LiveFailure::Serve(fault)))),
    }
}

// Lives a day with live stations, and has its end told.
fn run_live<
    R: Runtime + Files<File = File> + AllocGlobal + Threads + Wait + Sync,
    S: Source + Drop,
    T: Terminals + Sync,
>(
    rt: &R,
    words: &[String],
    source: S,
    stations: &T,
    count: usize,
    streams: Streams,
) -> Result<StationsDay<T::Keyboard, T::Screen, Stdout, Stderr>, Ending<Failure<LiveFailure>>> {
    let asked = Asked {
        places: &HostPlaces::new(rt),
        source,
        out: streams.out,
        err: streams.err,
        words,
    };
    Ok(live_stations(rt, rt.alloc(), stations, count, asked)?)
}

// The lines of standard input. Where they are typed at a terminal and answers go to one, there is a prompt, and what a person there wants
// to know.
fn typed_lines<R: BufRead + Drop>(reader: R, streams: Streams) -> TypedLines<R, Stdout> {
    if !streams.input.is_terminal() {
        return TypedLines::new(reader, None);
    }
    let prompt = if streams.out.is_terminal() {
        Some(streams.out)
    } else {
        None
    };
    TypedLines::at_terminal(reader, prompt)
}

// Lives a day of one keyboard, over the system.
fn run_words<R: Runtime + Files<File = File> + AllocGlobal + Threads, S: Source + Drop>(
    rt: &R,
    words: &[String],
    source: S,
    streams: Streams,
) -> Result<Lived, Ending<Failure<LiveFailure>>> {
    let alloc = rt.alloc();
    let mut source = source;
    let mut err = streams.err;
    let mut keyboard = typed_lines(BufReader::new(alloc, rt.reader())?, streams);
    let is_terminal = streams.out.is_terminal();
    let mut screen = PrintedAnswers::new(ShownBytes::new(streams.out, is_terminal));
    run_program(
        alloc,
        &HostPlaces::new(rt),
        &mut source,
        &mut keyboard,
        &mut screen,
        &mut err,
        words,
    )
}
