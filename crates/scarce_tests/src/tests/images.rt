//! Tables, their files and their memos.

use super::sample::{Sample, dbf_file, is_written, memo_file};
use super::sweep::{Calls, assert_all, refused};
use byte_io::Bytes;
use dbf_fields::MEMO;
use dbf_image::*;
use std::alloc::{AllocError, Global};
use std::test::Fail;

// A record that is appended.
const CYD: &[u8] = b"*CYD                                ";

// A memo of five blocks, for which the table has no room.
const LATER: [u8; 2100] = [b'L'; 2100];

// Whether a table has the sample's files.
fn is_sample(sample: &mut Sample, table: &TableData) -> bool {
    is_written(&mut sample.sink, table, &dbf_file(), &memo_file())
}

// Whether the sample's files are read as its table.
fn reads_table(alloc: Global, sample: &mut Sample) -> Result<bool, AllocError> {
    let dbf = Bytes::from_slice(alloc, &dbf_file())?;
    let dbt = Bytes::from_slice(alloc, &memo_file())?;
    match read_table(alloc, dbf, Some(dbt)) {
        Ok(table) => Ok(is_sample(sample, &table)),
        Err(fault) => refused(fault == ImageFault::NoMemory),
    }
}

fn is_hello(text: &Bytes) -> bool {
    text.as_slice() == b"HELLO".as_slice()
}

// Whether the first memo is read.
fn reads_memo(alloc: Global) -> Result<bool, AllocError> {
    match read_memo(alloc, &memo_file(), 1) {
        Ok(text) => Ok(is_hello(&text)),
        Err(fault) => refused(fault == ImageFault::NoMemory),
    }
}

// Whether the sample's file tells its fields.
fn tells_fields(alloc: Global) -> Result<bool, AllocError> {
    match told_fields(alloc, &dbf_file())? {
        Some(fields) => Ok(fields.len() == 5 && fields[4].kind == MEMO),
        None => Ok(false),
    }
}

// Whether the table has the memo of the first record.
fn has_memo(alloc: Global, table: &TableData) -> Result<bool, AllocError> {
    if table.record_count() < 1 || table.schema().fields().len() < 5 {
        return Ok(false);
    }
    if table.schema().fields()[4].kind != MEMO {
        return Ok(false);
    }
    Ok(is_hello(&table.memo(alloc, 1, 4)?))
}

// The same of a table that is changed in place.
fn has_memo_in_place(alloc: Global, table: &GrowingTable) -> Result<bool, AllocError> {
    if table.record_count() < 1 || table.schema().fields().len() < 5 {
        return Ok(false);
    }
    if table.schema().fields()[4].kind != MEMO {
        return Ok(false);
    }
    Ok(is_hello(&table.memo(alloc, 1, 4)?))
}

// Whether a record is appended.
fn appends(table: &mut TableData) -> Result<bool, AllocError> {
    if table.record_count() >= MAX_RECORDS || table.schema().record_length() != CYD.len() {
        return Ok(false);
    }
    table.append_record(CYD)?;
    Ok(table.record_count() == 4)
}

// Whether a record without values is appended.
fn appends_blank(table: &mut TableData) -> Result<bool, AllocError> {
    if table.record_count() >= MAX_RECORDS {
        return Ok(false);
    }
    table.append_blank()?;
    Ok(table.record_count() == 4)
}

// Whether the second record has a memo then.
fn sets_memo(table: &mut TableData) -> Result<bool, AllocError> {
    if table.record_count() < 2 || table.schema().fields().len() < 5 || !is_memo_text(&LATER) {
        return Ok(false);
    }
    if table.schema().fields()[4].kind != MEMO {
        return Ok(false);
    }
    table.set_memo(2, 4, &LATER)?;
    Ok(next_free_block(table) == Some(7))
}

// Whether the table is copied out as it is.
fn copies(alloc: Global, sample: &mut Sample) -> Result<bool, AllocError> {
    let table = sample.data.copy(alloc)?;
    Ok(is_sample(sample, &table))
}

// The same of a table that is changed in place.
fn copies_in_place(alloc: Global, sample: &mut Sample) -> Result<bool, AllocError> {
    let table = sample.growing.content(alloc)?;
    Ok(is_sample(sample, &table))
}

// Whether room is made for a record, or for a text.
fn makes_room(answer: Result<(), AllocError>) -> Result<bool, AllocError> {
    match answer {
        Ok(()) => Ok(true),
        Err(AllocError) => Err(AllocError),
    }
}

struct OfTables;

impl Calls for OfTables {
    fn make(&self, alloc: Global, sample: &mut Sample, number: usize) -> Result<bool, AllocError> {
        match number {
            0 => reads_table(alloc, sample),
            1 => reads_memo(alloc),
            2 => tells_fields(alloc),
            3 => copies(alloc, sample),
            4 => has_memo(alloc, &sample.data),
            5 => copies_in_place(alloc, sample),
            6 => has_memo_in_place(alloc, &sample.growing),
            7 => appends(&mut sample.data),
            8 => appends_blank(&mut sample.data),
            9 => sets_memo(&mut sample.data),
            10 => makes_room(sample.growing.reserve_record()),
            11 => makes_room(sample.growing.reserve_text(2100)),
            _ => Ok(false),
        }
    }
}

#[test]
fn each_call_of_tables_where_memory_is_refused(rt: HostRuntime) -> Result<(), Fail> {
    assert_all(&rt, rt.alloc(), &OfTables, 12)
}
