//! Orders that no index has: numbers that no record has are passed over, and a record whose number comes twice is shown twice.

use crate::tests::table_of;
use byte_io::MemorySink;
use dbf_image::TableData;
use std::alloc::Global;
use std::process::Abort;
use std::test::*;
use table_text::{MemoForm, Selection, write_csv, write_records};

// The records of these numbers in columns, marked ones, too.
fn columns_of(alloc: Global, table: &TableData, numbers: &[u32]) -> Result<Vec<u8>, Fail> {
    let all = Selection {
        first: 0,
        last: u32::MAX,
        with_deleted: true,
    };
    let mut sink = MemorySink::new(alloc);
    write_records(
        alloc,
        &mut sink,
        table,
        Some(numbers),
        all,
        MemoForm::FirstLine,
    )?;
    Ok(sink.bytes)
}

// The records of these numbers that are not marked as CSV, with the column of marks.
fn csv_of(alloc: Global, table: &TableData, numbers: &[u32]) -> Result<Vec<u8>, Fail> {
    let mut sink = MemorySink::new(alloc);
    write_csv(
        alloc,
        &mut sink,
        table,
        Some(numbers),
        Selection::kept(),
        true,
    )?;
    Ok(sink.bytes)
}

// Asserts what is shown of three records, of which the third is marked.
fn assert_shown(rt: &impl Abort, alloc: Global, table: &TableData) -> Result<(), Fail> {
    let columns = columns_of(alloc, table, &[0, 4, 2, 2, u32::MAX])?;
    assert_eq!(rt;
        columns.as_slice(),
        b"Record#   N\n      2   7\n      2   7\n".as_slice()
    );
    let csv = csv_of(alloc, table, &[2, 3, 9, 1])?;
    assert_eq!(rt;
        csv.as_slice(),
        b"N,deleted\r\n7,false\r\n123,false\r\n".as_slice()
    );
    Ok(())
}

#[test]
fn records_stand_in_the_order_of_the_numbers(rt: HostRuntime) -> Result<(), Fail> {
    let table = table_of(rt.alloc(), &[b" 123", b"   7", b"*  5"])?;
    assert_shown(&rt, rt.alloc(), &table)
}
