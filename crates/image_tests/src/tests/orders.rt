//! Indexes of a table by the calls that no program makes.

use byte_io::Bytes;
use dbf_fields::{CHARACTER, Field, Schema};
use dbf_image::TableData;
use key_expr::{Key, KeyExpr};
use ndx_index::{Pair, PairList};
use std::alloc::Global;
use std::process::Abort;
use std::test::*;
use table_core::Table;

// The names of records 1 to 7, and their numbers by their names: A, AB, AB, B, BA, C, D.
const SEVEN: [&[u8; 4]; 7] = [
    b" C  ", b" AB ", b" B  ", b" A  ", b" BA ", b" AB ", b" D  ",
];

const BY_NAME: [u32; 7] = [4, 2, 6, 3, 5, 1, 7];

// Adds these records.
fn add_records(data: &mut TableData, records: &[&[u8; 4]]) -> Result<(), Fail> {
    for record in records {
        if data.record_count() > 7 || data.schema().record_length() != 4 {
            return Err("no such table".into());
        }
        data.append_record(*record)?;
    }
    Ok(())
}

// A table of one field NAME of characters, three bytes wide, with the seven records.
fn seven(alloc: Global) -> Result<TableData, Fail> {
    let name = Field::new(alloc, b"NAME", CHARACTER, 3, 0)?;
    let mut data = TableData::empty(alloc, Schema::new(alloc, &[name])?);
    add_records(&mut data, &SEVEN)?;
    Ok(data)
}

// That table with an index on NAME.
fn indexed(alloc: Global) -> Result<Table, Fail> {
    let name = Bytes::from_slice(alloc, b"NAMES")?;
    let source = seven(alloc)?;
    let expr = KeyExpr::parse(alloc, b"NAME", source.schema())?;
    let indexes = vec![in alloc; (name, expr)]?;
    Ok(Table::new(alloc, source, indexes)?)
}

// Whether the first index has the records in that order.
fn has_order(alloc: Global, table: &Table, numbers: &[u32]) -> Result<bool, Fail> {
    if table.index_count() < 1 {
        return Err("no such index".into());
    }
    let pairs = table.index_pairs(alloc, 1)?;
    let mut is_same = pairs.len() == numbers.len();
    for (at, number) in numbers.iter().enumerate() {
        if at < pairs.len() && pairs.get(at).number != *number {
            is_same = false;
        }
    }
    Ok(is_same)
}

#[test]
fn new_table_sorts_its_indexes(rt: HostRuntime) -> Result<(), Fail> {
    let table = indexed(rt.alloc())?;
    assert!(rt; has_order(rt.alloc(), &table, &BY_NAME)?);
    Ok(())
}

// The pairs of that table's index, in the order of their records, as no index file has them.
fn unsorted(alloc: Global) -> Result<PairList, Fail> {
    let mut list = PairList::new(alloc, 3);
    for (before, record) in SEVEN.iter().enumerate() {
        let bytes = record.as_slice();
        let pair = Pair {
            key: Key::new(&bytes[1..]),
            number: before as u32 + 1,
        };
        if pair.key.as_bytes().len() != list.key_len() {
            return Err("a key of another length".into());
        }
        list.push(&pair)?;
    }
    Ok(list)
}

// Adds an index on NAME that is made of those pairs, where they are all of the table's.
fn add_unsorted(alloc: Global, table: &mut Table) -> Result<bool, Fail> {
    let name = Bytes::from_slice(alloc, b"NAMES")?;
    let expr = KeyExpr::parse(alloc, b"NAME", table.schema())?;
    Ok(table.add_kept_index(alloc, name, expr, unsorted(alloc)?)?)
}

#[test]
fn unsorted_pairs_are_put_in_order(rt: HostRuntime) -> Result<(), Fail> {
    let mut table = Table::without_indexes(rt.alloc(), seven(rt.alloc())?);
    assert!(rt; add_unsorted(rt.alloc(), &mut table)?);
    assert!(rt; has_order(rt.alloc(), &table, &BY_NAME)?);
    Ok(())
}
