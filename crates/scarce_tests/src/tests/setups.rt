//! Setups, what is read for them, and the catalogue of their tables.

use super::sample::{SCRIPT, SETUP, Sample, is_sample, make_sample, source};
use super::sweep::{Calls, assert_all, refused};
use byte_io::Bytes;
use catalogue_core::{Catalogue, IndexSource, OpenFault, TableSource};
use folders::{LoadFault, Source, read_whole};
use lock_table::Locks;
use ndx_index::NdxFile;
use station_lines::{SetupEntry, SetupFault, parse_setup};
use std::alloc::{AllocError, Global};
use std::test::Fail;

// Whether the setup is read: a table with memos, an index, and a station.
fn reads_setup(alloc: Global) -> Result<bool, AllocError> {
    match parse_setup(alloc, SETUP) {
        Ok(entries) => Ok(matches!(
            entries.as_slice(),
            [
                SetupEntry::Table { dbt: Some(_), .. },
                SetupEntry::Index { .. },
                SetupEntry::Station { .. }
            ]
        )),
        Err(fault) => refused(fault == SetupFault::NoMemory),
    }
}

// Whether the script is loaded.
fn loads(alloc: Global) -> Result<bool, AllocError> {
    match source(alloc)?.load(alloc, b"s.prg") {
        Ok(bytes) => Ok(bytes.as_slice() == SCRIPT),
        Err(fault) => refused(fault == LoadFault::NoMemory),
    }
}

// Whether the script is read whole where so many bytes are expected.
fn reads_whole(alloc: Global, expected: usize) -> Result<bool, AllocError> {
    match read_whole(alloc, SCRIPT, expected as u64, 1000) {
        Ok(bytes) => Ok(bytes.as_slice() == SCRIPT),
        Err(fault) => refused(fault == LoadFault::NoMemory),
    }
}

// The sample's index as its file has it.
fn index_source(alloc: Global, sample: &Sample) -> Result<IndexSource, AllocError> {
    let name = Bytes::from_slice(alloc, b"X")?;
    let expr = Bytes::from_slice(alloc, b"NAME")?;
    let pairs = sample.index.pairs(alloc)?;
    let file = NdxFile {
        expr,
        key_len: pairs.key_len(),
        pairs,
    };
    Ok(IndexSource { name, file })
}

// The sample's table as its files have it.
fn table_source(alloc: Global, sample: &Sample) -> Result<TableSource, AllocError> {
    let name = Bytes::from_slice(alloc, b"T")?;
    let content = sample.data.copy(alloc)?;
    let indexes = vec![in alloc; index_source(alloc, sample)?]?;
    Ok(TableSource {
        name,
        content,
        indexes,
    })
}

/// The catalogue of the sample's table for so many stations; none where it is not opened.
pub(super) fn opened(
    alloc: Global,
    sample: &Sample,
    stations: u32,
) -> Result<Option<Catalogue>, AllocError> {
    let sources = vec![in alloc; table_source(alloc, sample)?]?;
    match Catalogue::open(alloc, sources, stations, false) {
        Ok(catalogue) => Ok(Some(catalogue)),
        Err(OpenFault::NoMemory) => Err(AllocError),
        Err(_) => Ok(None),
    }
}

// Whether a catalogue has the sample's table.
fn has_sample(catalogue: &Catalogue) -> bool {
    catalogue.table_count() == 1 && is_sample(catalogue.table(1))
}

// Whether the catalogue is opened.
fn opens(alloc: Global, sample: &Sample) -> Result<bool, AllocError> {
    match opened(alloc, sample, 2)? {
        Some(catalogue) => Ok(has_sample(&catalogue)),
        None => Ok(false),
    }
}

// Puts so many catalogues of a sample's table after others.
fn open_all(
    alloc: Global,
    sample: &Sample,
    stations: u32,
    count: usize,
    all: &mut Vec<Catalogue>,
) -> Result<(), Fail> {
    for _ in 0..count {
        all.push(opened(alloc, sample, stations)?.ok_or("the catalogue is not opened")?)?;
    }
    Ok(())
}

/// So many catalogues of the sample's table, each for so many stations.
pub(super) fn catalogues(
    alloc: Global,
    stations: u32,
    count: usize,
) -> Result<Vec<Catalogue>, Fail> {
    let mut all = Vec::new(alloc);
    open_all(alloc, &make_sample(alloc)?, stations, count, &mut all)?;
    Ok(all)
}

// Whether nobody has a lock in a new table of locks.
fn makes_locks(alloc: Global) -> Result<bool, AllocError> {
    let locks = Locks::new(alloc, 16, 1)?;
    Ok(locks.station_count() == 16 && locks.file_holder(1) == 0 && locks.record_locks(1) == 0)
}

struct OfSetups;

impl Calls for OfSetups {
    fn make(&self, alloc: Global, sample: &mut Sample, number: usize) -> Result<bool, AllocError> {
        match number {
            0 => reads_setup(alloc),
            1 => loads(alloc),
            2 => reads_whole(alloc, 0),
            3 => reads_whole(alloc, SCRIPT.len()),
            4 => opens(alloc, sample),
            5 => makes_locks(alloc),
            _ => Ok(false),
        }
    }
}

#[test]
fn each_call_of_setups_where_memory_is_refused(rt: HostRuntime) -> Result<(), Fail> {
    assert_all(&rt, rt.alloc(), &OfSetups, 6)
}
