//! Stations at work, each in a thread of its own.

mod gates;
mod hoard;
mod rows;
mod runs;
mod stops;

use byte_io::Bytes;
use catalogue_core::{Catalogue, TableSource};
use dbf_image::TableData;
use office_run::{Gate, OpenGate, Outcome, RunFault, run_catalogue};
use sample_files::{EMPTY, TABLE, table};
use std::alloc::{AllocError, Global};
use std::sync::Wait;
use std::test::Fail;
use std::thread::Threads;

// A table under a name.
fn named(alloc: Global, name: &[u8], content: TableData) -> Result<TableSource, AllocError> {
    Ok(TableSource {
        name: Bytes::from_slice(alloc, name)?,
        content,
        indexes: Vec::new(alloc),
    })
}

// The sample's table under the name T.
fn source(alloc: Global) -> Result<TableSource, Fail> {
    Ok(named(alloc, b"T", table(alloc, &TABLE)?)?)
}

// The table without records, under the name L.
fn empty_source(alloc: Global) -> Result<TableSource, Fail> {
    Ok(named(alloc, b"L", table(alloc, &EMPTY)?)?)
}

fn texts(alloc: Global, texts: &[&[u8]]) -> Result<Vec<Bytes>, AllocError> {
    let mut copies = Vec::new(alloc);
    for text in texts {
        copies.push(Bytes::from_slice(alloc, text)?)?;
    }
    Ok(copies)
}

// Runs the scripts on a catalogue of one table for `stations` stations.
fn run_on<G: Gate + Sync, R: Threads + Wait + Sync>(
    rt: &R,
    alloc: Global,
    table: TableSource,
    stations: u32,
    scripts: &[Bytes],
    gate: &G,
) -> Result<Result<Outcome, RunFault>, Fail> {
    let sources = vec![in alloc; table]?;
    let catalogue = Catalogue::open(alloc, sources, stations, false)?;
    Ok(run_catalogue(rt, alloc, catalogue, scripts, gate))
}

// Sixteen stations that run one script on the table L together.
fn run_sixteen<R: Threads + Wait + Sync>(
    rt: &R,
    alloc: Global,
    script: &[u8],
) -> Result<Outcome, Fail> {
    let scripts = texts(alloc, &[script; 16])?;
    Ok(run_on(rt, alloc, empty_source(alloc)?, 16, &scripts, &OpenGate)??)
}

// A text so many times.
fn repeated(alloc: Global, text: &[u8], times: usize) -> Result<Vec<u8>, AllocError> {
    let mut all = Vec::new(alloc);
    for _ in 0..times {
        all.extend_from_slice(text)?;
    }
    Ok(all)
}
