//! The tests, and the small table that several of them share.

use dbf_fields::{Field, NUMBER, Schema};
use dbf_image::TableData;
use std::alloc::Global;
use std::test::Fail;

mod dates;
mod orders;
mod sinks;
mod want_of_memory;

// The table of one field of numbers that has no records.
fn empty_table(alloc: Global) -> Result<TableData, Fail> {
    let mut fields = Vec::new(alloc);
    fields.push(Field::new(alloc, b"N", NUMBER, 3, 0)?)?;
    Ok(TableData::empty(alloc, Schema::new(alloc, &fields)?))
}

// Adds a record: its flag and its number.
fn add(table: &mut TableData, record: &[u8]) -> Result<(), Fail> {
    if table.record_count() > 50 || table.schema().record_length() != record.len() {
        return Err("no such record".into());
    }
    table.append_record(record)?;
    Ok(())
}

// Adds records.
fn add_each(table: &mut TableData, records: &[&[u8]]) -> Result<(), Fail> {
    for record in records {
        add(table, record)?;
    }
    Ok(())
}

// The table of these records, each a flag and a number.
fn table_of(alloc: Global, records: &[&[u8]]) -> Result<TableData, Fail> {
    let mut table = empty_table(alloc)?;
    add_each(&mut table, records)?;
    Ok(table)
}
