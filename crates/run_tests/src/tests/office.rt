//! Whole runs over files in memory.

use byte_io::{Bytes, Failures};
use dbf_fields::{Day, day_of};
use folders::{MemoryFolder, MemorySource, NamedFile};
use office_run::{Asked, CommandCounts, OpenGate, ServeFault, serve, serve_asked};
use sample_files::{EMPTY, EMPTY_INDEX, NOTE, TABLE, with_zeros};
use std::alloc::{AllocError, Global};
use std::sync::Wait;
use std::test::Fail;
use std::thread::Threads;

// The path of each setup here.
const SETUP: &[u8] = b"S.SET";

// The script s.prg.
const SCRIPT: &[u8] = b"USE T\n? RECCOUNT()\n";

/// What a run is asked for: its setup, its year, and whether the journal is written.
pub(super) type Wish = (&'static [u8], u16, bool);

fn named(alloc: Global, name: &[u8], bytes: &[u8]) -> Result<NamedFile, AllocError> {
    Ok(NamedFile {
        name: Bytes::from_slice(alloc, name)?,
        bytes: Bytes::from_slice(alloc, bytes)?,
    })
}

// Puts a file after others.
fn add(
    alloc: Global,
    files: &mut Vec<NamedFile>,
    name: &[u8],
    bytes: &[u8],
) -> Result<(), AllocError> {
    files.push(named(alloc, name, bytes)?)?;
    Ok(())
}

// A memo file whose block 1 has the text HELLO.
fn hello(alloc: Global) -> Result<Vec<u8>, AllocError> {
    let mut bytes = with_zeros(alloc, b"", 512)?;
    bytes.extend_from_slice(b"HELLO\x1a\x1a")?;
    with_zeros(alloc, bytes.as_slice(), 1_024)
}

// Puts the files that setups name after others.
fn add_office(alloc: Global, files: &mut Vec<NamedFile>) -> Result<(), AllocError> {
    add(alloc, files, b"t.dbf", &TABLE)?;
    add(alloc, files, b"empty.dbf", &EMPTY)?;
    let index = with_zeros(alloc, &EMPTY_INDEX, 1_024)?;
    add(alloc, files, b"x.ndx", index.as_slice())?;
    add(alloc, files, b"m.dbf", &NOTE)?;
    add(alloc, files, b"m.dbt", hello(alloc)?.as_slice())?;
    add(alloc, files, b"s.prg", SCRIPT)?;
    add(alloc, files, b"nothing", b"")
}

// A setup and the files that it names.
fn office(alloc: Global, setup: &[u8]) -> Result<MemorySource, AllocError> {
    let mut files = vec![in alloc; named(alloc, SETUP, setup)?]?;
    add_office(alloc, &mut files)?;
    Ok(MemorySource {
        files,
        loads: u64::MAX,
        failures: Failures::none(),
    })
}

// Serves the office on a day. A run without a journal is one of `serve`.
fn serve_on<R: Threads + Wait + Sync>(
    rt: &R,
    alloc: Global,
    source: &mut MemorySource,
    (today, journal): (Day, bool),
    folder: &mut MemoryFolder,
) -> Result<Result<CommandCounts, ServeFault>, AllocError> {
    let setup = Bytes::from_slice(alloc, SETUP)?;
    if !journal {
        return Ok(serve(rt, alloc, &setup, today, false, source, folder, &OpenGate));
    }
    let asked = Asked {
        setup: &setup,
        today,
        reindex: false,
        journal,
    };
    Ok(serve_asked(rt, alloc, &asked, source, folder, &OpenGate))
}

// How many commands a run has performed, or why it failed.
fn performed(served: Result<CommandCounts, ServeFault>) -> Result<u64, ServeFault> {
    Ok(served?.all)
}

/// Serves a setup: how many commands were performed, or why the run failed.
pub(super) fn serve_wish<R: Threads + Wait + Sync>(
    rt: &R,
    alloc: Global,
    (setup, year, journal): Wish,
    folder: &mut MemoryFolder,
) -> Result<Result<u64, ServeFault>, Fail> {
    let today = day_of(year, 3, 15).ok_or("a date")?;
    let mut source = office(alloc, setup)?;
    let served = serve_on(rt, alloc, &mut source, (today, journal), folder)?;
    Ok(performed(served))
}
