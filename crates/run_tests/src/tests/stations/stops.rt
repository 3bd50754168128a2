//! Runs that do not come to their end: memory is taken away from them.

use super::gates::FirstLines;
use super::hoard::hoard;
use super::{named, repeated, run_on, source, texts};
use byte_io::Bytes;
use catalogue_core::{Stop, TableSource};
use dbf_image::read_table;
use office_run::{Gate, OpenGate, RunFault};
use sample_files::{NOTE, with_zeros};
use std::alloc::Global;
use std::sync::Wait;
use std::test::Fail;
use std::thread::Threads;

// The table of one memo under the name T, whose one record has a text of 65,535 bytes.
fn long_note(alloc: Global) -> Result<TableSource, Fail> {
    let mut memos = with_zeros(alloc, b"", 512)?;
    memos.resize(512 + 65_535, b'm')?;
    let dbf = Bytes::from_slice(alloc, &NOTE)?;
    let content = read_table(alloc, dbf, Some(Bytes::from_vec(memos)))?;
    Ok(named(alloc, b"T", content)?)
}

// The fault of a run on a table, a station a script, where all memory is taken but `rooms.0` rooms of `rooms.1` bytes.
fn fault_in<G: Gate + Sync, R: Threads + Wait + Sync>(
    rt: &R,
    alloc: Global,
    rooms: (usize, usize),
    table: TableSource,
    stations: u32,
    scripts: &[Bytes],
    gate: &G,
) -> Result<Option<RunFault>, Fail> {
    let held = hoard(alloc, rooms.0, rooms.1)?;
    let run = run_on(rt, alloc, table, stations, scripts, gate)?;
    drop(held);
    Ok(run.err())
}

// A script of one line, or of one whose answers and entries take over 390 MB.
fn script(alloc: Global, hungry: bool) -> Result<Vec<u8>, Fail> {
    let mut text = Vec::from_slice(alloc, b"USE T\n")?;
    if hungry {
        text.extend_from_slice(repeated(alloc, b"? NOTE\n", 3_000)?.as_slice())?;
    }
    Ok(text)
}

// The scripts of two stations.
fn two_scripts(alloc: Global, hungry: (bool, bool)) -> Result<Vec<Bytes>, Fail> {
    let first = script(alloc, hungry.0)?;
    let second = script(alloc, hungry.1)?;
    Ok(texts(alloc, &[first.as_slice(), second.as_slice()])?)
}

// The fault of a run of two stations in 128 MB, where some want more.
fn fault_of<R: Threads + Wait + Sync>(
    rt: &R,
    alloc: Global,
    hungry: (bool, bool),
) -> Result<Option<RunFault>, Fail> {
    let scripts = two_scripts(alloc, hungry)?;
    let table = long_note(alloc)?;
    let gate = FirstLines::new();
    fault_in(rt, alloc, (4, 1 << 25), table, 2, &scripts, &gate)
}

#[test]
fn lowest_stopped_station_is_named(rt: HostRuntime) -> Result<(), Fail> {
    let cases = [((false, true), 2), ((true, false), 1), ((true, true), 1)];
    for (hungry, station) in cases {
        let fault = fault_of(&rt, rt.alloc(), hungry)?;
        assert!(rt; fault == Some(RunFault::Stopped(station, Stop::NoMemory)));
    }
    Ok(())
}

// The fault of a run of empty scripts in 1 MB, where no thread finds room for its stack.
fn fault_without_threads<R: Threads + Wait + Sync>(
    rt: &R,
    alloc: Global,
    empty: &[&[u8]],
    stations: u32,
) -> Result<Option<RunFault>, Fail> {
    let scripts = texts(alloc, empty)?;
    let table = source(alloc)?;
    fault_in(
        rt,
        alloc,
        (1, 1 << 20),
        table,
        stations,
        &scripts,
        &OpenGate,
    )
}

#[test]
fn station_without_a_thread_is_named(rt: HostRuntime) -> Result<(), Fail> {
    let cases: [(u32, &[&[u8]]); 2] = [(1, &[b""]), (2, &[b"", b""])];
    for (stations, empty) in cases {
        let fault = fault_without_threads(&rt, rt.alloc(), empty, stations)?;
        assert!(rt; fault == Some(RunFault::NoThread(stations)));
    }
    Ok(())
}
