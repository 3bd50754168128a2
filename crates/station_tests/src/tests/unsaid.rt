//! Commands that no line of a script means, and tables that no setup names: the refusals of names, of expressions and of lists that
//! a line can't have, and of a second table of one name that has too many indexes.

use super::calls::{command_of, is_said};
use super::sample::{open_file, source};
use byte_io::Bytes;
use catalogue_core::{Catalogue, Command, IndexSource, Numbers, OpenFault, TableSource};
use dbf_image::TableData;
use ndx_index::{NdxFile, PairList};
use sample_files::{WITH_CYD, table};
use std::alloc::Global;
use std::process::Abort;
use std::test::Fail;

// A command: a line's, or one that no line means.
#[derive(Clone, Copy)]
enum Asked {
    Line(&'static [u8]),
    // INDEX ON, with its expression and its name.
    IndexOn(&'static [u8], &'static [u8]),
    // A lock on a list without records.
    NoRecords,
}

// Commands of station 1 with their answers' lines, one after another. The name is asked for before the table, and an expression before
// whether its index's name is used.
const UNSAID: [(Asked, &[u8]); 10] = [
    (Asked::IndexOn(b"NAME+", b""), b"REFUSED 19 BadCommand"),
    (Asked::IndexOn(b"NAME+", b"9X"), b"REFUSED 19 BadCommand"),
    (Asked::IndexOn(b"NAME+", b"X-1"), b"REFUSED 19 BadCommand"),
    (Asked::IndexOn(b"NAME+", b"X"), b"REFUSED 2 NoTableInUse"),
    (Asked::NoRecords, b"REFUSED 2 NoTableInUse"),
    (Asked::Line(b"USE T EXCLUSIVE"), b"OK"),
    (Asked::NoRecords, b"REFUSED 6 OutOfRange"),
    (Asked::Line(b"INDEX ON NAME TO X"), b"OK"),
    (Asked::IndexOn(b"", b"Y"), b"REFUSED 21 BadExpression"),
    (
        Asked::IndexOn(&[b' '; 489], b"X"),
        b"REFUSED 21 BadExpression",
    ),
];

fn index_on(alloc: Global, expr: &[u8], name: &[u8]) -> Result<Command, Fail> {
    let expr = Bytes::from_slice(alloc, expr)?;
    let name = Bytes::from_slice(alloc, name)?;
    Ok(Command::IndexOn { expr, name })
}

fn asked_command(alloc: Global, asked: Asked) -> Result<Command, Fail> {
    match asked {
        Asked::Line(line) => command_of(alloc, line),
        Asked::IndexOn(expr, name) => index_on(alloc, expr, name),
        Asked::NoRecords => Ok(Command::RecordLocks(Numbers::from_vec(Vec::new(alloc)))),
    }
}

// Whether a station's command has the next number and this answer.
fn is_answered(
    alloc: Global,
    catalogue: &mut Catalogue,
    station: u32,
    command: &Command,
    said: &[u8],
) -> Result<bool, Fail> {
    if station < 1 || station > catalogue.station_count() {
        return Err("there is no such station".into());
    }
    let before = catalogue.journal().len() as u64;
    let (number, answer) = catalogue.perform(alloc, station, command)?;
    Ok(number > before && number - 1 == before && is_said(alloc, &answer, said)?)
}

// The index of the first command of station 1 that is answered otherwise.
fn first_other(
    alloc: Global,
    catalogue: &mut Catalogue,
    cases: &[(Asked, &'static [u8])],
) -> Result<Option<usize>, Fail> {
    for i in 0..cases.len() {
        let (asked, said) = cases[i];
        let command = asked_command(alloc, asked)?;
        if !is_answered(alloc, catalogue, 1, &command, said)? {
            return Ok(Some(i));
        }
    }
    Ok(None)
}

// How many records the first table has.
fn record_count(alloc: Global, catalogue: &Catalogue) -> Result<u32, Fail> {
    if catalogue.table_count() == 0 {
        return Err("there is no table".into());
    }
    Ok(catalogue.content(alloc, 1)?.record_count())
}

// Asserts that the commands are answered so, and that the table keeps its three records.
fn assert_unsaid(rt: &impl Abort, alloc: Global, catalogue: &mut Catalogue) -> Result<(), Fail> {
    let other = first_other(alloc, catalogue, &UNSAID)?;
    assert_eq!(rt; (other, record_count(alloc, catalogue)?), (None, 3));
    Ok(())
}

#[test]
fn commands_of_no_line_are_refused(rt: HostRuntime) -> Result<(), Fail> {
    assert_unsaid(&rt, rt.alloc(), &mut open_file(rt.alloc(), &WITH_CYD, 1)?)
}

// An index without pairs.
fn index(alloc: Global, name: &[u8], expr: &[u8]) -> Result<IndexSource, Fail> {
    let name = Bytes::from_slice(alloc, name)?;
    let expr = Bytes::from_slice(alloc, expr)?;
    let pairs = PairList::new(alloc, 1);
    let file = NdxFile {
        expr,
        key_len: 1,
        pairs,
    };
    Ok(IndexSource { name, file })
}

// Eight indexes, the first with a bad expression, the others of one name.
fn eight(alloc: Global) -> Result<Vec<IndexSource>, Fail> {
    let mut indexes = Vec::new(alloc);
    indexes.push(index(alloc, b"Z", b"NAME+")?)?;
    for _ in 0..7 {
        indexes.push(index(alloc, b"X", b"NAME")?)?;
    }
    Ok(indexes)
}

fn three_records(alloc: Global) -> Result<TableData, Fail> {
    Ok(table(alloc, &WITH_CYD)?)
}

fn without_indexes(alloc: Global, name: &[u8]) -> Result<TableSource, Fail> {
    source(alloc, name, three_records(alloc)?, Vec::new(alloc))
}

fn with_eight(alloc: Global) -> Result<TableSource, Fail> {
    source(alloc, b"T", three_records(alloc)?, eight(alloc)?)
}

// The tables T and U, and a second T with eight indexes.
fn two_of_one_name(alloc: Global) -> Result<Vec<TableSource>, Fail> {
    let mut sources = Vec::new(alloc);
    sources.push(without_indexes(alloc, b"T")?)?;
    sources.push(without_indexes(alloc, b"U")?)?;
    sources.push(with_eight(alloc)?)?;
    Ok(sources)
}

// The fault of opening tables for one station.
fn fault_of(alloc: Global, sources: Vec<TableSource>) -> Option<OpenFault> {
    Catalogue::open(alloc, sources, 1, false).err()
}

#[test]
fn a_name_that_is_used_is_told_before_too_many_indexes(rt: HostRuntime) -> Result<(), Fail> {
    let fault = fault_of(rt.alloc(), two_of_one_name(rt.alloc())?);
    assert_eq!(rt; fault, Some(OpenFault::DuplicateTable(3)));
    Ok(())
}
