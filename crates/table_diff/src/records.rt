//! What has changed of a record.

ghost use Rattle.std.specs.Prelude.{◌≡◌, ◌≤◌, ◌<◌, ◌++◌, ◌+◌, [], length, IfOk, IsTrue, OnOk};
ghost use Rattle.std.specs.Prelude.{false};
ghost use Rattle.std.specs.List.{All};
ghost use Rattle.dbf_fields.specs.declared.format.TheConstants.{MAX_FIELDS};
ghost use Rattle.dbf_image.specs.Table.{has_memos, kind_at, row_at};
ghost use Rattle.table_text.specs.Csv.{csv_fields, separator};
ghost use Rattle.table_diff.specs.Changes.{mark_changes, match_changes, row_changes, values_changed};
ghost use Rattle.table_diff.specs.DiffText.{change_lines, mark_told, mark_words as words_of_mark, row_told, value_words};
ghost use Rattle.table_diff.specs.Fields.{shared_fields};
ghost use Rattle.table_diff.specs.Matching.{HasRecord, HaveRecords};

use crate::cells::{append_cell_changes, append_numbers, append_record_words, copied_cell};
use crate::fields::SharedField;
use crate::format::{COMMA, LF};
use crate::matching::{Match, RecordNumbers};
use crate::told::{append_told, text_of};
use dbf_fields::{BLANK, Field};
use dbf_image::GrowingTable;
use std::alloc::{AllocError, Global};

// A comma before every value but the first.
fn append_separator(line: &mut Vec<u8>, index: usize) -> Result<(), AllocError>
    ensures ok { OnOk result (line.new.items ≡ line.old.items ++ separator index) }
{
    if index > 0 {
        line.push(COMMA)?;
    }
    Ok(())
}

// A value of a record, with its field's name.
fn append_named_value(
    alloc: Global,
    line: &mut Vec<u8>,
    table: &GrowingTable,
    number: u32,
    index: usize,
    field: &Field,
) -> Result<(), AllocError>
    requires number { 1 ≤ number }
    requires inside { number ≤ length table.now.table.rows }
    requires index { index < length table.now.table.schema }
    requires kind { kind_at table.now.table.schema index ≡ field.now.kind }
    ensures ok { OnOk result (line.new.items ≡ line.old.items ++ value_words (row_at table.now.table number) index field.now) }
{
    let cell = copied_cell(alloc, table, number, index, field.kind)?;
    line.push(BLANK)?;
    line.extend_from_slice(field.name.as_slice())?;
    line.push(BLANK)?;
    append_told(line, text_of(field.kind, cell.as_slice()))
}

// The values of a record.
fn append_values(
    alloc: Global,
    line: &mut Vec<u8>,
    table: &GrowingTable,
    number: u32,
) -> Result<(), AllocError>
    requires number { 1 ≤ number }
    requires inside { number ≤ length table.now.table.rows }
    ensures ok { OnOk result (line.new.items ≡ line.old.items ++ csv_fields (value_words (row_at table.now.table number)) 0 table.now.table.schema) }
{
    let fields = table.schema().fields();
    for (index, field) in fields.iter().enumerate() {
        append_separator(line, index)?;
        append_named_value(alloc, line, table, number, index, field)?;
    }
    Ok(())
}

fn mark_words(deleted: bool) -> &'static [u8]
    ensures value { result.now ≡ words_of_mark deleted }
{
    if deleted { b", marked as deleted" } else { b"" }
}

// The line of a record that one table alone has.
#[tactic(auto, unfolding(crate::specs::DiffText::row_told))]
fn append_row(
    alloc: Global,
    line: &mut Vec<u8>,
    words: &[u8],
    table: &GrowingTable,
    number: u32,
) -> Result<(), AllocError>
    requires number { 1 ≤ number }
    requires inside { number ≤ length table.now.table.rows }
    ensures ok { OnOk result (line.new.items ≡ line.old.items ++ row_told words.now number table.now.table.schema (row_at table.now.table number)) }
{
    append_record_words(alloc, line, number)?;
    line.extend_from_slice(words)?;
    line.extend_from_slice(mark_words(table.is_deleted(number)))?;
    line.extend_from_slice(b":")?;
    append_values(alloc, line, table, number)?;
    line.push(LF)?;
    Ok(())
}

// The line of a mark.
#[tactic(auto, unfolding(crate::specs::DiffText::mark_told))]
fn append_mark(
    alloc: Global,
    line: &mut Vec<u8>,
    words: &[u8],
    numbers: RecordNumbers,
) -> Result<(), AllocError>
    ensures ok { OnOk result (line.new.items ≡ line.old.items ++ mark_told words.now numbers) }
{
    append_numbers(alloc, line, numbers)?;
    line.extend_from_slice(words)?;
    line.push(LF)?;
    Ok(())
}

// The line of a record's mark where it was set or taken away, and how many lines that are.
fn append_mark_changes(
    alloc: Global,
    line: &mut Vec<u8>,
    numbers: RecordNumbers,
    was: bool,
    is: bool,
) -> Result<usize, AllocError>
    ensures lines { OnOk result (line.new.items ≡ line.old.items ++ change_lines (mark_changes numbers was is)) }
    ensures count { IfOk result (λ count. count ≡ length (mark_changes numbers was is)) }
    ensures bounded { IfOk result (λ count. count ≤ 1) }
{
    if was == is {
        return Ok(0);
    }
    if is {
        append_mark(alloc, line, b" marked as deleted", numbers)?;
    } else {
        append_mark(alloc, line, b" recalled", numbers)?;
    }
    Ok(1)
}

// The lines of a record's values that were others, and how many they are.
fn append_values_changed(
    alloc: Global,
    line: &mut Vec<u8>,
    old_table: &GrowingTable,
    new_table: &GrowingTable,
    numbers: RecordNumbers,
    shared: &[SharedField],
) -> Result<usize, AllocError>
    requires old_has { HasRecord old_table.now.table numbers.old_number }
    requires new_has { HasRecord new_table.now.table numbers.new_number }
    requires old_indexes { All (λ s. s.old_index < length old_table.now.table.schema) shared.now }
    requires new_indexes { All (λ s. s.new_index < length new_table.now.table.schema) shared.now }
    ensures lines { OnOk result (line.new.items ≡ line.old.items ++ change_lines (values_changed old_table.now.table new_table.now.table numbers shared.now)) }
    ensures count { IfOk result (λ count. count ≡ length (values_changed old_table.now.table new_table.now.table numbers shared.now)) }
    ensures bounded { IfOk result (λ count. count ≤ length shared.now) }
{
    let mut count = 0;
    for field in shared {
        let told = append_cell_changes(alloc, line, old_table, new_table, numbers, *field)?;
        count += told;
    }
    Ok(count)
}

// The lines of a record that both tables have, and how many they are.
fn append_row_changes(
    alloc: Global,
    line: &mut Vec<u8>,
    old_table: &GrowingTable,
    new_table: &GrowingTable,
    numbers: RecordNumbers,
    shared: &[SharedField],
) -> Result<usize, AllocError>
    requires old_has { HasRecord old_table.now.table numbers.old_number }
    requires new_has { HasRecord new_table.now.table numbers.new_number }
    requires shared { shared.now ≡ shared_fields old_table.now.table.schema new_table.now.table.schema }
    ensures lines { OnOk result (line.new.items ≡ line.old.items ++ change_lines (row_changes old_table.now.table new_table.now.table numbers)) }
    ensures count { IfOk result (λ count. count ≡ length (row_changes old_table.now.table new_table.now.table numbers)) }
    ensures bounded { IfOk result (λ count. count ≤ 1 + MAX_FIELDS) }
{
    // For contracts alone: how many fields there are.
    let _fields = old_table.schema().fields();
    let was = old_table.is_deleted(numbers.old_number);
    let is = new_table.is_deleted(numbers.new_number);
    let marks = append_mark_changes(alloc, line, numbers, was, is)?;
    let values = append_values_changed(alloc, line, old_table, new_table, numbers, shared)?;
    Ok(marks + values)
}

// Whether a record that both tables have is of the same bytes in both. Where the fields are the same and none is a memo, nothing
// has changed of it then.
fn has_same_bytes(
    old_table: &GrowingTable,
    new_table: &GrowingTable,
    numbers: RecordNumbers,
) -> bool
    requires old_has { HasRecord old_table.now.table numbers.old_number }
    requires new_has { HasRecord new_table.now.table numbers.new_number }
    requires fields { old_table.now.table.schema ≡ new_table.now.table.schema }
    requires memos { has_memos old_table.now.table.schema ≡ false }
    ensures same { IsTrue result → row_changes old_table.now.table new_table.now.table numbers ≡ [] }
{
    // For contracts alone: the fields are those of a table.
    let _count = old_table.record_count();
    let old_bytes = old_table.record(numbers.old_number);
    let new_bytes = new_table.record(numbers.new_number);
    old_bytes == new_bytes
}

// The lines of a record that both tables have, and how many they are. `by_bytes` says that the fields are the same, and none is a
// memo: then a record is the same where its bytes are.
fn append_both_changes(
    alloc: Global,
    line: &mut Vec<u8>,
    old_table: &GrowingTable,
    new_table: &GrowingTable,
    numbers: RecordNumbers,
    shared: &[SharedField],
    by_bytes: bool,
) -> Result<usize, AllocError>
    requires old_has { HasRecord old_table.now.table numbers.old_number }
    requires new_has { HasRecord new_table.now.table numbers.new_number }
    requires shared { shared.now ≡ shared_fields old_table.now.table.schema new_table.now.table.schema }
    requires fields { IsTrue by_bytes → old_table.now.table.schema ≡ new_table.now.table.schema }
    requires memos { IsTrue by_bytes → has_memos old_table.now.table.schema ≡ false }
    ensures lines { OnOk result (line.new.items ≡ line.old.items ++ change_lines (row_changes old_table.now.table new_table.now.table numbers)) }
    ensures count { IfOk result (λ count. count ≡ length (row_changes old_table.now.table new_table.now.table numbers)) }
    ensures bounded { IfOk result (λ count. count ≤ 1 + MAX_FIELDS) }
{
    if by_bytes && has_same_bytes(old_table, new_table, numbers) {
        return Ok(0);
    }
    append_row_changes(alloc, line, old_table, new_table, numbers, shared)
}

/// The lines of what has changed of records that are matched, or of one that one table alone has, after what the line has; and how
/// many they are. `by_bytes` says that the fields are the same, and none is a memo: then a record is the same where its bytes are.
///
/// An `Err` says that there was no memory.
pub(crate) fn append_match_changes(
    alloc: Global,
    line: &mut Vec<u8>,
    old_table: &GrowingTable,
    new_table: &GrowingTable,
    matched: Match,
    shared: &[SharedField],
    by_bytes: bool,
) -> Result<usize, AllocError>
    requires records { HaveRecords old_table.now.table new_table.now.table matched }
    requires shared { shared.now ≡ shared_fields old_table.now.table.schema new_table.now.table.schema }
    requires fields { IsTrue by_bytes → old_table.now.table.schema ≡ new_table.now.table.schema }
    requires memos { IsTrue by_bytes → has_memos old_table.now.table.schema ≡ false }
    ensures lines { OnOk result (line.new.items ≡ line.old.items ++ change_lines (match_changes old_table.now.table new_table.now.table matched)) }
    ensures count { IfOk result (λ count. count ≡ length (match_changes old_table.now.table new_table.now.table matched)) }
    ensures bounded { IfOk result (λ count. count ≤ 1 + MAX_FIELDS) }
{
    match matched {
        Match::Both(numbers) => append_both_changes(
            alloc, line, old_table, new_table, numbers, shared, by_bytes,
        ),
        Match::Old(number) => {
            append_row(alloc, line, b" removed", old_table, number)?;
            Ok(1)
        }
        Match::New(number) => {
            append_row(alloc, line, b" added", new_table, number)?;
            Ok(1)
        }
    }
}
