//! What sinks have that take a byte a write and fail after so many, or that take all.

use super::sample::{index_of, write_into, written};
use byte_io::{LimitedSink, WriteFault};
use dbf_fields::{Field, NUMBER, Schema};
use dbf_image::{GrowingTable, TableData};
use key_expr::KeyExpr;
use ndx_index::OrderedIndex;
use std::alloc::Global;
use std::process::Abort;
use std::test::Fail;
use table_diff::{write_diff, write_diff_by_key};
use table_text::TextFault;

// A sink that takes so many bytes, one a write.
fn limited(alloc: Global, taken: usize) -> LimitedSink {
    LimitedSink::new(alloc, 1, taken as u64)
}

// Whether a sink has the first bytes of a text, so many.
fn has_front(sink: &LimitedSink, text: &[u8], taken: usize) -> bool {
    text.starts_with(sink.taken.bytes.as_slice()) && sink.taken.bytes.len() == taken
}

// Whether a sink that has three bytes of another file and takes `taken` more of an index's file has the front of both.
fn has_index_front(
    alloc: Global,
    index: &OrderedIndex,
    file: &[u8],
    taken: usize,
) -> Result<bool, Fail> {
    let mut sink = limited(alloc, taken);
    sink.taken.bytes.extend_from_slice(b"ABC")?;
    let answer = write_into(&mut sink, alloc, index, 10)?;
    let bytes = sink.taken.bytes.as_slice();
    let is_front = bytes
        .strip_prefix(b"ABC")
        .is_some_and(|front| file.starts_with(front) && front.len() == taken);
    Ok(answer == Err(WriteFault::Sink) && is_front)
}

// Asserts it of some counts of bytes.
fn assert_index_fronts(rt: &impl Abort, alloc: Global, index: &OrderedIndex) -> Result<(), Fail> {
    let file = written(alloc, index, 10)?;
    assert!(rt; file.len() == 2_048);
    for taken in [0usize, 1, 600, 2_047] {
        assert!(rt; has_index_front(alloc, index, &file, taken)?);
    }
    Ok(())
}

#[test]
fn failing_sink_has_the_front_of_an_index(rt: HostRuntime) -> Result<(), Fail> {
    let index = index_of(rt.alloc(), 26, 10)?;
    assert_index_fronts(&rt, rt.alloc(), &index)
}

#[test]
fn small_pieces_are_gathered(rt: HostRuntime) -> Result<(), Fail> {
    let index = index_of(rt.alloc(), 21, 100)?;
    let mut sink = LimitedSink::new(rt.alloc(), usize::MAX, u64::MAX);
    write_into(&mut sink, rt.alloc(), &index, 100)??;
    assert!(rt; sink.writes == 1 && sink.taken.bytes == written(rt.alloc(), &index, 100)?);
    Ok(())
}

// Adds a record: its flag and its cells.
fn add(table: &mut TableData, record: &[u8]) -> Result<(), Fail> {
    if table.record_count() > 50 || table.schema().record_length() != record.len() {
        return Err("no such record".into());
    }
    table.append_record(record)?;
    Ok(())
}

// A table of the field N of one digit, with these records, each its flag and its cell.
fn digits(alloc: Global, records: &[&[u8]]) -> Result<GrowingTable, Fail> {
    let field = Field::new(alloc, b"N", NUMBER, 1, 0)?;
    let mut table = TableData::empty(alloc, Schema::new(alloc, &[field])?);
    for record in records {
        add(&mut table, record)?;
    }
    Ok(table.into_growing())
}

// The lines of two changes, by the numbers of records and by a key.
const CHANGES: &[u8] = b"record 1: N 1 -> 2\nrecord 2 added: N 3\n";

const CHANGES_BY_KEY: &[u8] = b"record 1 marked as deleted\nrecord 2 added: N 3\n";

// Whether the answer to a sink that takes so many bytes of a text says whether it took all: two changes are told.
fn is_answered(answer: Result<usize, TextFault>, text: &[u8], taken: usize) -> bool {
    match answer {
        Ok(count) => count == 2 && taken == text.len(),
        Err(fault) => matches!(fault, TextFault::Sink) && taken < text.len(),
    }
}

// Whether it has the front of what is told of two tables.
fn has_diff_front(alloc: Global, old: &GrowingTable, new: &GrowingTable, taken: usize) -> bool {
    let mut sink = limited(alloc, taken);
    let answer = write_diff(alloc, &mut sink, old, new);
    is_answered(answer, CHANGES, taken) && has_front(&sink, CHANGES, taken)
}

// Asserts it of each count of bytes.
fn assert_diff_fronts(rt: &impl Abort, alloc: Global, old: &GrowingTable, new: &GrowingTable) {
    for taken in 0..CHANGES.len() + 1 {
        assert!(rt; has_diff_front(alloc, old, new, taken));
    }
}

#[test]
fn failing_sink_has_the_front_of_changes(rt: HostRuntime) -> Result<(), Fail> {
    let old = digits(rt.alloc(), &[b" 1"])?;
    let new = digits(rt.alloc(), &[b" 2", b" 3"])?;
    assert_diff_fronts(&rt, rt.alloc(), &old, &new);
    Ok(())
}

// The same of records that are matched by a key.
fn has_keyed_front(
    alloc: Global,
    old: &GrowingTable,
    new: &GrowingTable,
    taken: usize,
) -> Result<bool, Fail> {
    let old_key = KeyExpr::parse(alloc, b"STR(N,1)", old.schema())?;
    let new_key = KeyExpr::parse(alloc, b"STR(N,1)", new.schema())?;
    let mut sink = limited(alloc, taken);
    let answer = write_diff_by_key(alloc, &mut sink, old, new, &old_key, &new_key);
    Ok(is_answered(answer, CHANGES_BY_KEY, taken) && has_front(&sink, CHANGES_BY_KEY, taken))
}

// Asserts it of each count of bytes.
fn assert_keyed_fronts(
    rt: &impl Abort,
    alloc: Global,
    old: &GrowingTable,
    new: &GrowingTable,
) -> Result<(), Fail> {
    for taken in 0..CHANGES_BY_KEY.len() + 1 {
        assert!(rt; has_keyed_front(alloc, old, new, taken)?);
    }
    Ok(())
}

#[test]
fn failing_sink_has_the_front_of_changes_by_key(rt: HostRuntime) -> Result<(), Fail> {
    let old = digits(rt.alloc(), &[b" 1"])?;
    let new = digits(rt.alloc(), &[b"*1", b" 3"])?;
    assert_keyed_fronts(&rt, rt.alloc(), &old, &new)
}
