//! Records as lines of CSV.

ghost use Rattle.std.specs.Prelude.{◌≡◌, ◌++◌, ◌≤◌, ◌<◌, length, OnOk};
ghost use Rattle.std.specs.List.{flat_map, list_any};
ghost use Rattle.dbf_image.specs.Table.{cell_at, kind_at};
ghost use Rattle.table_text.specs.Csv.{wants_quotes, quoted_byte, csv_field, csv_value, separator, csv_fields, is_alone as is_alone_in, csv_cell, mark_field, csv_heading, csv_line};

use crate::format::{COMMA, CR, LF, QUOTE};
use crate::shown::trimmed_end;
use dbf_fields::{MEMO, NUMBER, trimmed};
use dbf_image::TableData;
use std::alloc::{AllocError, Global};

fn byte_wants_quotes(byte: u8) -> bool
    ensures value { result ≡ wants_quotes byte }
{
    byte == COMMA || byte == QUOTE || byte == CR || byte == LF
}

fn has_such_byte(text: &[u8]) -> bool
    ensures value { result ≡ list_any wants_quotes text.now }
{
    text.iter().any(|byte| byte_wants_quotes(*byte))
}

fn append_quoted_byte(line: &mut Vec<u8>, byte: u8) -> Result<(), AllocError>
    ensures ok { OnOk result (line.new.items ≡ line.old.items ++ quoted_byte byte) }
{
    if byte == QUOTE {
        return line.extend_from_slice(&[QUOTE, QUOTE]);
    }
    line.push(byte)?;
    Ok(())
}

fn append_quoted_bytes(line: &mut Vec<u8>, text: &[u8]) -> Result<(), AllocError>
    ensures ok { OnOk result (line.new.items ≡ line.old.items ++ flat_map quoted_byte text.now) }
{
    for byte in text {
        append_quoted_byte(line, *byte)?;
    }
    Ok(())
}

// A text as a field after those before.
#[tactic(auto, unfolding(crate::specs::Csv::csv_field))]
fn append_field(line: &mut Vec<u8>, alone: bool, text: &[u8]) -> Result<(), AllocError>
    ensures ok { OnOk result (line.new.items ≡ line.old.items ++ csv_field alone text.now) }
{
    if has_such_byte(text) || (alone && text.is_empty()) {
        line.push(QUOTE)?;
        append_quoted_bytes(line, text)?;
        line.push(QUOTE)?;
        return Ok(());
    }
    line.extend_from_slice(text)
}

// The cell of a record and of a field of this kind, as a field after those before.
#[tactic(auto, unfolding(crate::specs::Csv::csv_value))]
fn append_cell(
    alloc: Global,
    line: &mut Vec<u8>,
    table: &TableData,
    number: u32,
    index: usize,
    kind: u8,
    alone: bool,
) -> Result<(), AllocError>
    requires number { 1 ≤ number }
    requires inside { number ≤ length table.now.rows }
    requires index { index < length table.now.schema }
    requires kind { kind_at table.now.schema index ≡ kind }
    ensures ok { OnOk result (line.new.items ≡ line.old.items ++ csv_field alone (csv_value kind (cell_at table.now number index))) }
{
    if kind == MEMO {
        let memo = table.memo(alloc, number, index)?;
        return append_field(line, alone, memo.as_slice());
    }
    let cell = table.cell(number, index);
    if kind == NUMBER {
        return append_field(line, alone, trimmed(cell));
    }
    append_field(line, alone, trimmed_end(cell))
}

// A comma before every field but the first.
fn append_separator(line: &mut Vec<u8>, index: usize) -> Result<(), AllocError>
    ensures ok { OnOk result (line.new.items ≡ line.old.items ++ separator index) }
{
    if index > 0 {
        line.push(COMMA)?;
    }
    Ok(())
}

fn is_alone(table: &TableData, deleted_column: bool) -> bool
    ensures value { result ≡ is_alone_in deleted_column table.now }
{
    !deleted_column && table.schema().fields().len() == 1
}

// The cells of a record as fields after what the line has.
fn append_cells(
    alloc: Global,
    line: &mut Vec<u8>,
    table: &TableData,
    number: u32,
    deleted_column: bool,
) -> Result<(), AllocError>
    requires number { 1 ≤ number }
    requires inside { number ≤ length table.now.rows }
    ensures ok { OnOk result (line.new.items ≡ line.old.items ++ csv_fields (csv_cell deleted_column table.now number) 0 table.now.schema) }
{
    let alone = is_alone(table, deleted_column);
    let fields = table.schema().fields();
    for (index, field) in fields.iter().enumerate() {
        append_separator(line, index)?;
        append_cell(alloc, line, table, number, index, field.kind, alone)?;
    }
    Ok(())
}

fn mark_of(deleted_column: bool, deleted: bool) -> &'static [u8]
    ensures value { result.now ≡ mark_field deleted_column deleted }
{
    match (deleted_column, deleted) {
        (false, _) => b"",
        (true, true) => b",true",
        (true, false) => b",false",
    }
}

/// The line of a record after what the line has. Records count from 1.
///
/// An `Err` says that there was no memory.
pub(crate) fn append_csv_line(
    alloc: Global,
    line: &mut Vec<u8>,
    table: &TableData,
    number: u32,
    deleted_column: bool,
) -> Result<(), AllocError>
    requires number { 1 ≤ number }
    requires inside { number ≤ length table.now.rows }
    ensures ok { OnOk result (line.new.items ≡ line.old.items ++ csv_line deleted_column table.now number) }
{
    append_cells(alloc, line, table, number, deleted_column)?;
    line.extend_from_slice(mark_of(deleted_column, table.is_deleted(number)))?;
    line.extend_from_slice(&[CR, LF])
}

fn append_names(line: &mut Vec<u8>, table: &TableData) -> Result<(), AllocError>
    ensures ok { OnOk result (line.new.items ≡ line.old.items ++ csv_fields (λ _ f. f.name) 0 table.now.schema) }
{
    let fields = table.schema().fields();
    for (index, field) in fields.iter().enumerate() {
        append_separator(line, index)?;
        line.extend_from_slice(field.name.as_slice())?;
    }
    Ok(())
}

/// The line of the fields' names after what the line has.
///
/// An `Err` says that there was no memory.
pub(crate) fn append_csv_heading(
    line: &mut Vec<u8>,
    table: &TableData,
    deleted_column: bool,
) -> Result<(), AllocError>
    ensures ok { OnOk result (line.new.items ≡ line.old.items ++ csv_heading deleted_column table.now) }
{
    append_names(line, table)?;
    if deleted_column {
        line.extend_from_slice(b",deleted")?;
    }
    line.extend_from_slice(&[CR, LF])
}
