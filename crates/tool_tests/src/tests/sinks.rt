//! Sinks that fail in the middle of a text.

use crate::tests::table_of;
use byte_io::LimitedSink;
use dbf_image::TableData;
use std::alloc::Global;
use std::process::Abort;
use std::test::*;
use table_text::{MemoForm, Selection, TextFault, write_csv, write_fields, write_records};

// The table of the number 123 in three ways, and the texts.
const TEXTS: [(u8, &[u8]); 3] = [
    (0, b"Record#     N\n      1   123\n"),
    (1, b"N\r\n123\r\n"),
    (
        2,
        b"Records: 1\nLast change: no date\nField Name       Kind      Width Decimals\n    1 N          Number        3        0\n",
    ),
];

// Writes a table in one of three ways.
fn write(
    alloc: Global,
    sink: &mut LimitedSink,
    table: &TableData,
    way: u8,
) -> Result<(), TextFault> {
    match way {
        0 => write_records(alloc, sink, table, None, Selection::kept(), MemoForm::Whole),
        1 => write_csv(alloc, sink, table, None, Selection::kept(), false),
        _ => write_fields(alloc, sink, table, None),
    }
}

// What a call answers into a sink that takes so many bytes of so long a text.
fn answer(taken: usize, length: usize) -> Result<(), TextFault> {
    if taken < length {
        Err(TextFault::Sink)
    } else {
        Ok(())
    }
}

// Whether a sink that takes so many bytes, one each time, has these of the text then, and the answer says whether that was all.
fn has_front(alloc: Global, table: &TableData, way: u8, text: &[u8], taken: usize) -> bool {
    let mut sink = LimitedSink::new(alloc, 1, taken as u64);
    let written = write(alloc, &mut sink, table, way);
    let (front, _) = text.split_at(taken.min(text.len()));
    written == answer(taken, text.len()) && sink.taken.bytes.as_slice() == front
}

// The first count of bytes after which that is not so.
fn first_other(alloc: Global, table: &TableData, way: u8, text: &[u8]) -> Option<usize> {
    for taken in 0..=text.len() {
        if !has_front(alloc, table, way, text, taken) {
            return Some(taken);
        }
    }
    None
}

// Asserts that there is none in each way.
fn assert_fronts(rt: &impl Abort, alloc: Global, table: &TableData) -> Result<(), Fail> {
    for (way, text) in TEXTS {
        assert_eq!(rt; (way, first_other(alloc, table, way, text)), (way, None));
    }
    Ok(())
}

#[test]
fn failing_sink_has_the_front(rt: HostRuntime) -> Result<(), Fail> {
    let table = table_of(rt.alloc(), &[b" 123"])?;
    assert_fronts(&rt, rt.alloc(), &table)
}
