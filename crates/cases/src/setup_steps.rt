//! Tables and indexes that a case makes, and the stations that use them.

use byte_io::Bytes;
use case_files::words::{count, cut_word};
use case_files::{MadeIndex, MadeTable, Place, PlaceSource, Step, Trouble};
use catalogue_core::Catalogue;
use folders::file_name;
use live_program::open_tables;
use office_run::ServeFault;
use std::alloc::{AllocError, Global};

/// The path of the setup of what a case has made.
const SETUP: &[u8] = b"~setup";

/// The word behind which the indexes are made anew.
const REINDEX: &[u8] = b"reindex";

/// The setup of the tables and indexes that a case has made.
#[derive(Drop)]
pub(crate) struct Setup {
    lines: Vec<u8>,
    // The name of the table that was made last.
    table: Vec<u8>,
}

// A path without the ending of its name.
fn without_ending(path: &[u8]) -> &[u8] {
    match path.iter().rposition(|byte| *byte == b'.') {
        Some(at) => path.split_at(at).0,
        None => path,
    }
}

// A path with another ending.
fn with_ending(alloc: Global, path: &[u8], ending: &[u8]) -> Result<Vec<u8>, AllocError> {
    let mut other = Vec::from_slice(alloc, without_ending(path))?;
    other.extend_from_slice(ending)?;
    Ok(other)
}

// The name of a path without its ending, in capitals.
fn name_of(alloc: Global, path: &[u8]) -> Result<Vec<u8>, AllocError> {
    let mut name = Vec::new(alloc);
    for byte in without_ending(file_name(path)) {
        name.push(byte.to_ascii_uppercase())?;
    }
    Ok(name)
}

impl Setup {
    /// Of no tables.
    pub(crate) fn new(alloc: Global) -> Setup {
        Setup {
            lines: Vec::new(alloc),
            table: Vec::new(alloc),
        }
    }

    // Appends a line of some words.
    fn add_line(&mut self, words: &[&[u8]]) -> Result<(), AllocError> {
        for word in words {
            self.lines.extend_from_slice(word)?;
            self.lines.push(b' ')?;
        }
        self.lines.pop();
        self.lines.push(b'\n')?;
        Ok(())
    }

    // Adds a table, and its memos if it has some.
    fn add_table(&mut self, alloc: Global, path: &[u8], memos: &[u8]) -> Result<(), AllocError> {
        let name = name_of(alloc, path)?;
        if memos.is_empty() {
            self.add_line(&[b"TABLE", &name, path])?;
        } else {
            self.add_line(&[b"TABLE", &name, path, memos])?;
        }
        self.table = name;
        Ok(())
    }

    // Adds an index of the table that was made last.
    fn add_index(&mut self, alloc: Global, path: &[u8]) -> Result<(), AllocError> {
        let name = name_of(alloc, path)?;
        let table = self.table.clone()?;
        self.add_line(&[b"INDEX", &table, &name, path])
    }

    /// Opens what was made for so many stations: `2`, or `2 reindex`.
    pub(crate) fn open_for(
        &self,
        alloc: Global,
        place: &Place,
        form: &[u8],
    ) -> Result<Catalogue, Trouble> {
        let (stations, reindex) = cut_word(form);
        let mut setup = self.lines.clone()?;
        for _ in 0..count(stations)? {
            setup.extend_from_slice(b"STATION none\n")?;
        }
        place.put(SETUP, setup)?;
        match open_path(alloc, place, SETUP, reindex)? {
            Ok(catalogue) => Ok(catalogue),
            Err(_) => Err(Trouble::Bad("the tables are not opened")),
        }
    }
}

/// Makes a table: `table T.DBF NAME C 10`, with a record a line below it. A field of memos makes a file of memos beside it.
pub(crate) fn make_table(
    alloc: Global,
    place: &Place,
    setup: &mut Setup,
    step: &Step<'_, '_>,
) -> Result<(), Trouble> {
    let (path, fields) = cut_word(step.rest());
    let mut made = MadeTable::read(alloc, fields)?;
    add_records(alloc, &mut made, step)?;
    place.put(path, made.dbf(alloc)?)?;
    if !made.has_memos() {
        return Ok(setup.add_table(alloc, path, b"")?);
    }
    let is_small = path.ends_with(b"dbf");
    let memos = with_ending(alloc, path, if is_small { b".dbt" } else { b".DBT" })?;
    place.put(&memos, made.dbt(alloc)?)?;
    Ok(setup.add_table(alloc, path, &memos)?)
}

// Adds the records below a step.
fn add_records(
    alloc: Global,
    made: &mut MadeTable<'_>,
    step: &Step<'_, '_>,
) -> Result<(), Trouble> {
    for line in step.below {
        if let Some(record) = line.after(b'-') {
            made.add_record(alloc, record)?;
        } else if let Some(record) = line.after(b'*') {
            made.add_marked(alloc, record)?;
        } else {
            return Err(Trouble::Bad("a record begins with - or *"));
        }
    }
    Ok(())
}

/// Makes an index of the table that was made last: `index X.NDX 10 NAME`, with a key a line below it.
pub(crate) fn make_index(
    alloc: Global,
    place: &Place,
    setup: &mut Setup,
    step: &Step<'_, '_>,
) -> Result<(), Trouble> {
    let (path, form) = cut_word(step.rest());
    let mut made = MadeIndex::read(alloc, form)?;
    for line in step.below {
        match line.after(b'-') {
            Some(key) => made.add_key(alloc, key)?,
            None => return Err(Trouble::Bad("a key begins with -")),
        }
    }
    place.put(path, made.ndx(alloc)?)?;
    Ok(setup.add_index(alloc, path)?)
}

// Opens the tables of a setup.
fn open_path(
    alloc: Global,
    place: &Place,
    path: &[u8],
    reindex: &[u8],
) -> Result<Result<Catalogue, ServeFault>, AllocError> {
    let setup = Bytes::from_slice(alloc, path)?;
    let mut source = PlaceSource::new(place);
    Ok(
        match open_tables(alloc, &setup, reindex == REINDEX, &mut source) {
            Ok(opened) => Ok(opened.catalogue),
            Err(fault) => Err(fault),
        },
    )
}

/// Opens the tables of a setup: `O.SET`, or `O.SET reindex`.
pub(crate) fn open_setup(
    alloc: Global,
    place: &Place,
    form: &[u8],
) -> Result<Result<Catalogue, ServeFault>, AllocError> {
    let (path, reindex) = cut_word(form);
    open_path(alloc, place, path, reindex)
}

/// What is said of a setup that was opened, or was not.
pub(crate) fn said_of(
    alloc: Global,
    opened: &Result<Catalogue, ServeFault>,
) -> Result<Vec<u8>, AllocError> {
    match opened {
        Ok(_) => Vec::from_slice(alloc, b"OK"),
        Err(ServeFault::Refused(fault)) => Ok(format!(in alloc; "{fault:?}")?.into_bytes()),
        Err(ServeFault::Setup(bad)) => {
            let line = bad.number;
            Ok(format!(in alloc; "line {line} is bad")?.into_bytes())
        }
        Err(_) => Vec::from_slice(alloc, b"a file is refused"),
    }
}
