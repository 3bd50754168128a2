//! What has changed of a value.

ghost use Rattle.std.specs.Prelude.{◌≡◌, ◌≤◌, ◌<◌, ◌++◌, length, IfOk, OnOk};
ghost use Rattle.dbf_image.specs.Table.{cell_at, kind_at};
ghost use Rattle.table_diff.specs.Changes.{cell_changes, is_same_value as is_value_same, changes_of_cells};
ghost use Rattle.table_diff.specs.Matching.{HasRecord};
ghost use Rattle.table_diff.specs.DiffText.{both_told, change_lines, now_words, numbers_words, record_words, replaced_line, value_told};

use crate::fields::SharedField;
use crate::format::LF;
use crate::matching::RecordNumbers;
use crate::told::{append_told, text_of};
use byte_io::Bytes;
use dbf_fields::{BLANK, MEMO};
use dbf_image::GrowingTable;
use std::alloc::{AllocError, Global};

/// Where a line speaks of a record: that it does, and the record's number.
///
/// An `Err` says that there was no memory.
pub(crate) fn append_record_words(
    alloc: Global,
    line: &mut Vec<u8>,
    number: u32,
) -> Result<(), AllocError>
    ensures ok { OnOk result (line.new.items ≡ line.old.items ++ record_words number) }
{
    let digits = format!(in alloc; "{number}")?;
    line.extend_from_slice(b"record ")?;
    line.extend_from_slice(digits.as_bytes())
}

// The number that a record has now, where it was another.
fn append_now(alloc: Global, line: &mut Vec<u8>, numbers: RecordNumbers) -> Result<(), AllocError>
    ensures ok { OnOk result (line.new.items ≡ line.old.items ++ now_words numbers) }
{
    let RecordNumbers {
        old_number,
        new_number,
    } = numbers;
    if old_number == new_number {
        return Ok(());
    }
    let digits = format!(in alloc; "{new_number}")?;
    line.extend_from_slice(b" (now ")?;
    line.extend_from_slice(digits.as_bytes())?;
    line.extend_from_slice(b")")
}

/// Where a line speaks of a record that both tables have: the record's number, and the one that it has now where it was another.
///
/// An `Err` says that there was no memory.
pub(crate) fn append_numbers(
    alloc: Global,
    line: &mut Vec<u8>,
    numbers: RecordNumbers,
) -> Result<(), AllocError>
    ensures ok { OnOk result (line.new.items ≡ line.old.items ++ numbers_words numbers) }
{
    append_record_words(alloc, line, numbers.old_number)?;
    append_now(alloc, line, numbers)
}

// A field's name, and its old and its new text.
#[tactic(auto, unfolding(crate::specs::DiffText::both_told))]
fn append_both(
    line: &mut Vec<u8>,
    name: &[u8],
    old_text: &[u8],
    new_text: &[u8],
) -> Result<(), AllocError>
    ensures ok { OnOk result (line.new.items ≡ line.old.items ++ both_told name.now old_text.now new_text.now) }
{
    line.extend_from_slice(name)?;
    line.push(BLANK)?;
    append_told(line, old_text)?;
    line.extend_from_slice(b" -> ")?;
    append_told(line, new_text)
}

// The line of a value.
#[tactic(auto, unfolding(crate::specs::DiffText::value_told))]
fn append_value(
    alloc: Global,
    line: &mut Vec<u8>,
    numbers: RecordNumbers,
    name: &[u8],
    old_text: &[u8],
    new_text: &[u8],
) -> Result<(), AllocError>
    ensures ok { OnOk result (line.new.items ≡ line.old.items ++ value_told numbers name.now old_text.now new_text.now) }
{
    append_numbers(alloc, line, numbers)?;
    line.extend_from_slice(b": ")?;
    append_both(line, name, old_text, new_text)?;
    line.push(LF)?;
    Ok(())
}

// The line of a value that was another: what CSV has of the two cells, or where that is the same the cells.
fn append_replaced(
    alloc: Global,
    line: &mut Vec<u8>,
    numbers: RecordNumbers,
    name: &[u8],
    old_cell: &[u8],
    new_cell: &[u8],
    old_text: &[u8],
    new_text: &[u8],
) -> Result<(), AllocError>
    ensures ok { OnOk result (line.new.items ≡ line.old.items ++ replaced_line numbers name.now old_cell.now new_cell.now old_text.now new_text.now) }
{
    if old_text == new_text {
        return append_value(alloc, line, numbers, name, old_cell, new_cell);
    }
    append_value(alloc, line, numbers, name, old_text, new_text)
}

/// A cell of a record, with its field's kind.
#[derive(Clone, Copy)]
pub(crate) struct Cell<'a> {
    pub kind: u8,
    pub bytes: &'a [u8],
}

fn is_same_value(is_same: bool, old: Cell<'_>, new: Cell<'_>) -> bool
    ensures value { result ≡ is_value_same is_same old.entry.kind new.entry.kind old.entry.bytes.now new.entry.bytes.now }
{
    if is_same {
        return old.bytes == new.bytes;
    }
    text_of(old.kind, old.bytes) == text_of(new.kind, new.bytes)
}

// The line of a value where it was another, and whether it was.
fn append_value_changes(
    alloc: Global,
    line: &mut Vec<u8>,
    numbers: RecordNumbers,
    name: &[u8],
    is_same: bool,
    old: Cell<'_>,
    new: Cell<'_>,
) -> Result<usize, AllocError>
    ensures lines { OnOk result (line.new.items ≡ line.old.items ++ change_lines (changes_of_cells numbers name.now is_same old.entry new.entry)) }
    ensures count { IfOk result (λ count. count ≡ length (changes_of_cells numbers name.now is_same old.entry new.entry)) }
    ensures bounded { IfOk result (λ count. count ≤ 1) }
{
    if is_same_value(is_same, old, new) {
        return Ok(0);
    }
    let old_text = text_of(old.kind, old.bytes);
    let new_text = text_of(new.kind, new.bytes);
    append_replaced(
        alloc, line, numbers, name, old.bytes, new.bytes, old_text, new_text,
    )?;
    Ok(1)
}

/// The cell of a record and of a field of this kind, copied out: the text of a memo, or its bytes.
///
/// An `Err` says that there was no memory.
pub(crate) fn copied_cell(
    alloc: Global,
    table: &GrowingTable,
    number: u32,
    index: usize,
    kind: u8,
) -> Result<Bytes, AllocError>
    requires number { 1 ≤ number }
    requires inside { number ≤ length table.now.table.rows }
    requires index { index < length table.now.table.schema }
    requires kind { kind_at table.now.table.schema index ≡ kind }
    ensures value { IfOk result (λ cell. cell ≡ cell_at table.now.table number index) }
{
    if kind == MEMO {
        return table.memo(alloc, number, index);
    }
    Bytes::from_slice(alloc, table.cell(number, index))
}

/// The line of a record's value in a field that both tables have, after what the line has, where it was another; and how
/// many lines that are.
///
/// An `Err` says that there was no memory.
pub(crate) fn append_cell_changes(
    alloc: Global,
    line: &mut Vec<u8>,
    old_table: &GrowingTable,
    new_table: &GrowingTable,
    numbers: RecordNumbers,
    shared: SharedField,
) -> Result<usize, AllocError>
    requires old_has { HasRecord old_table.now.table numbers.old_number }
    requires new_has { HasRecord new_table.now.table numbers.new_number }
    requires old_index { shared.old_index < length old_table.now.table.schema }
    requires new_index { shared.new_index < length new_table.now.table.schema }
    ensures lines { OnOk result (line.new.items ≡ line.old.items ++ change_lines (cell_changes old_table.now.table new_table.now.table numbers shared)) }
    ensures count { IfOk result (λ count. count ≡ length (cell_changes old_table.now.table new_table.now.table numbers shared)) }
    ensures bounded { IfOk result (λ count. count ≤ 1) }
{
    let SharedField {
        old_index,
        new_index,
        is_same,
    } = shared;
    let RecordNumbers {
        old_number,
        new_number,
    } = numbers;
    let old_field = &old_table.schema().fields()[old_index];
    let new_field = &new_table.schema().fields()[new_index];
    let name = old_field.name.as_slice();
    if old_field.kind != MEMO && new_field.kind != MEMO {
        let old = Cell {
            kind: old_field.kind,
            bytes: old_table.cell(old_number, old_index),
        };
        let new = Cell {
            kind: new_field.kind,
            bytes: new_table.cell(new_number, new_index),
        };
        return append_value_changes(alloc, line, numbers, name, is_same, old, new);
    }
    let old_cell = copied_cell(alloc, old_table, old_number, old_index, old_field.kind)?;
    let new_cell = copied_cell(alloc, new_table, new_number, new_index, new_field.kind)?;
    let old = Cell {
        kind: old_field.kind,
        bytes: old_cell.as_slice(),
    };
    let new = Cell {
        kind: new_field.kind,
        bytes: new_cell.as_slice(),
    };
    append_value_changes(alloc, line, numbers, name, is_same, old, new)
}
