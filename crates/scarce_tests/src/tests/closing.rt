//! The files of a run, of which a refusal begins none.

use super::indexes::index_of_three;
use super::sample::{Sample, data};
use super::sweep::{Calls, assert_all, refused};
use byte_io::Bytes;
use dbf_fields::{Day, day_of};
use dbf_image::TableData;
use folders::MemoryFolder;
use key_expr::KeyExpr;
use ndx_index::{MAX_PAIRS, OrderedIndex};
use office_run::{CloseFault, ClosedIndex, ClosedTable, close_files};
use std::alloc::{AllocError, Global};
use std::test::Fail;

// The index X on NAME, with the pairs of this one.
fn closed_index(
    alloc: Global,
    data: &TableData,
    index: &OrderedIndex,
) -> Result<ClosedIndex, Fail> {
    let name = Bytes::from_slice(alloc, b"X")?;
    let expr = KeyExpr::parse(alloc, b"NAME", data.schema())?;
    let pairs = index.pairs(alloc)?;
    if pairs.len() > MAX_PAIRS || index.key_len() != expr.key_len() {
        return Err("keys of another length".into());
    }
    Ok(ClosedIndex::new(name, expr, pairs))
}

// The sample's table with that index.
fn closed_table(alloc: Global) -> Result<ClosedTable, Fail> {
    let name = Bytes::from_slice(alloc, b"T")?;
    let content = data(alloc)?;
    let index = closed_index(alloc, &content, &index_of_three(alloc)?)?;
    let indexes = vec![in alloc; index]?;
    Ok(ClosedTable {
        name,
        content,
        indexes,
    })
}

// What a run leaves to be written on a day.
#[derive(Drop)]
struct Closing {
    tables: Vec<ClosedTable>,
    answers: Vec<Bytes>,
    day: Day,
}

fn make_closing(alloc: Global) -> Result<Closing, Fail> {
    let day = day_of(1987, 3, 15).ok_or("a date")?;
    let answers = vec![in alloc; Bytes::from_slice(alloc, b"OK\n")?]?;
    let tables = vec![in alloc; closed_table(alloc)?]?;
    Ok(Closing {
        tables,
        answers,
        day,
    })
}

impl Calls for Closing {
    // T.DBF, T.DBT, X.NDX and STATION1.TXT are written, or none is begun.
    fn make(
        &self,
        alloc: Global,
        _sample: &mut Sample,
        _number: usize,
    ) -> Result<bool, AllocError> {
        let mut folder = MemoryFolder::with_room(alloc, 4, 12, 2048)?;
        match close_files(alloc, &self.tables, &self.answers, self.day, &mut folder) {
            Ok(()) => Ok(folder.files.len() == 4),
            Err(fault) => refused(fault == CloseFault::NoMemory && folder.files.is_empty()),
        }
    }
}

#[test]
fn refused_closing_begins_no_file(rt: HostRuntime) -> Result<(), Fail> {
    assert_all(&rt, rt.alloc(), &make_closing(rt.alloc())?, 1)
}
