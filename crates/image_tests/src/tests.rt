//! What the tests share.

use byte_io::{Bytes, MemorySink, WriteFault};
use dbf_fields::{Day, Field, MEMO, Schema, day_of};
use dbf_image::*;
use std::alloc::{AllocError, Global};
use std::process::Abort;
use std::test::*;

mod faults;
mod memo_store;
mod orders;
mod reading;
mod sink;
mod table;
mod values;
mod write;

// Two records of one field NAME, C, 10 wide, dated 1987-03-15.
#[rattlefmt::skip]
const TWO_NAMES: [u8; 88] = [
    0x03, 0x57, 0x03, 0x0f, 0x02, 0, 0, 0, 0x41, 0, 0x0b, 0, 0, 0, 0, 0,
    0, 0, 0, 0, 0, 0, 0, 0, 0, 0, 0, 0, 0, 0, 0, 0,
    b'N', b'A', b'M', b'E', 0, 0, 0, 0, 0, 0, 0, b'C', 0, 0, 0, 0,
    10, 0, 0, 0, 0, 0, 0, 0, 0, 0, 0, 0, 0, 0, 0, 0,
    0x0d,
    b' ', b'A', b'D', b'A', b' ', b' ', b' ', b' ', b' ', b' ', b' ',
    b' ', b'B', b'O', b'B', b' ', b' ', b' ', b' ', b' ', b' ', b' ',
    0x1a,
];

// TWO_NAMES with some of its bytes changed.
fn changed(changes: &[(usize, u8)]) -> [u8; 88] {
    let mut dbf = TWO_NAMES;
    for (offset, value) in changes {
        if let Some(byte) = dbf.get_mut(*offset) {
            *byte = *value;
        }
    }
    dbf
}

// The first bytes, or all.
fn front(bytes: &[u8], length: usize) -> &[u8] {
    if length < bytes.len() {
        return &bytes[..length];
    }
    bytes
}

// The date that tables are written with.
fn written_day() -> Result<Day, Fail> {
    Ok(day_of(1987, 3, 15).ok_or("no such day")?)
}

// The table of a copy of these bytes, which has no memos.
fn read_copy(alloc: Global, dbf: &[u8]) -> Result<TableData, ImageFault> {
    read_table(alloc, Bytes::from_slice(alloc, dbf)?, None)
}

// Adds a blank record.
fn add_blank(table: &mut TableData) -> Result<(), Fail> {
    if table.record_count() >= MAX_RECORDS {
        return Err("the table is full".into());
    }
    table.append_blank()?;
    Ok(())
}

// Replaces a memo, where there is one.
fn put_memo(table: &mut TableData, number: u32, field: usize, text: &[u8]) -> Result<(), Fail> {
    if number < 1 || number > table.record_count() || field >= table.schema().fields().len() {
        return Err("no such cell".into());
    }
    if table.schema().fields()[field].kind != MEMO || !is_memo_text(text) {
        return Err("no such memo".into());
    }
    table.set_memo(number, field, text)?;
    Ok(())
}

// Adds three records, the first two of which have a text of 510 and of 511 bytes.
fn fill_notes(table: &mut TableData) -> Result<(), Fail> {
    for _ in 0..3 {
        add_blank(table)?;
    }
    put_memo(table, 1, 0, &[b'a'; 510])?;
    put_memo(table, 2, 0, &[b'b'; 511])
}

// The table of one memo NOTE with those records: with 0x1A 0x1A after it the first text fills its block, and the other
// takes two.
fn notes(alloc: Global) -> Result<TableData, Fail> {
    let note = Field::new(alloc, b"NOTE", MEMO, 10, 0)?;
    let mut table = TableData::empty(alloc, Schema::new(alloc, &[note])?);
    fill_notes(&mut table)?;
    Ok(table)
}

// The file of those records, dated 1987-03-15.
#[rattlefmt::skip]
const NOTES: [u8; 99] = [
    0x83, 0x57, 0x03, 0x0f, 0x03, 0, 0, 0, 0x41, 0, 0x0b, 0, 0, 0, 0, 0,
    0, 0, 0, 0, 0, 0, 0, 0, 0, 0, 0, 0, 0, 0, 0, 0,
    b'N', b'O', b'T', b'E', 0, 0, 0, 0, 0, 0, 0, b'M', 0, 0, 0, 0,
    10, 0, 0, 0, 0, 0, 0, 0, 0, 0, 0, 0, 0, 0, 0, 0,
    0x0d,
    b' ', b' ', b' ', b' ', b' ', b' ', b' ', b' ', b' ', b' ', b'1',
    b' ', b' ', b' ', b' ', b' ', b' ', b' ', b' ', b' ', b' ', b'2',
    b' ', b' ', b' ', b' ', b' ', b' ', b' ', b' ', b' ', b' ', b' ',
    0x1a,
];

// And the file of their memos: three blocks after the header's.
fn blocks(alloc: Global) -> Result<Vec<u8>, Fail> {
    let mut dbt = Vec::from_slice(alloc, &[4, 0, 0, 0])?;
    dbt.resize(16, 0)?;
    dbt.push(3)?;
    dbt.resize(512, 0)?;
    dbt.resize(1022, b'a')?;
    dbt.extend_from_slice(&[0x1a, 0x1a])?;
    dbt.resize(1535, b'b')?;
    dbt.extend_from_slice(&[0x1a, 0x1a])?;
    dbt.resize(2048, 0)?;
    Ok(dbt)
}
