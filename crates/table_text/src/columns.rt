//! Texts in columns.

ghost use Rattle.std.specs.Prelude.{◌≡◌, ◌++◌, ◌≤◌, length, replicate, IfOk, OnOk};
ghost use Rattle.dbf_fields.specs.declared.format.TheConstants.{BLANK as BLANK_BYTE};
ghost use Rattle.table_text.specs.Columns.{aligned, cell_shown, columns_text, number_width as width_of_numbers};

use crate::memo_form::MemoForm;
use crate::shown::show_cell;
use dbf_fields::{BLANK, Field, NUMBER};
use dbf_image::TableData;
use std::alloc::{AllocError, Global};

/// The heading of the column of record numbers.
pub(crate) const NUMBER_HEADING: &[u8] = b"Record#";

fn append_blanks(line: &mut Vec<u8>, count: usize) -> Result<(), AllocError>
    ensures ok { OnOk result (line.new.items ≡ line.old.items ++ replicate count BLANK_BYTE) }
{
    for _ in 0..count {
        line.push(BLANK)?;
    }
    Ok(())
}

/// A text in a column after those before: that of a number at the right, and every other at the left.
#[tactic(auto, unfolding(crate::specs::Columns::aligned))]
pub(crate) fn append_aligned(
    line: &mut Vec<u8>,
    kind: u8,
    width: usize,
    text: &[u8],
) -> Result<(), AllocError>
    ensures ok { OnOk result (line.new.items ≡ line.old.items ++ aligned kind width text.now) }
{
    let fill = width.saturating_sub(text.len());
    if kind == NUMBER {
        append_blanks(line, fill)?;
        return line.extend_from_slice(text);
    }
    line.extend_from_slice(text)?;
    append_blanks(line, fill)
}

/// The names of the fields in columns of these widths, each after a blank.
pub(crate) fn append_names(
    line: &mut Vec<u8>,
    fields: &[Field],
    widths: &[usize],
) -> Result<(), AllocError>
    requires widths { length widths.now ≡ length fields.now }
    ensures ok { OnOk result (line.new.items ≡ line.old.items ++ columns_text widths.now (λ _ f. f.name) 0 fields.now) }
{
    for (index, field) in fields.iter().enumerate() {
        line.push(BLANK)?;
        append_aligned(line, field.kind, widths[index], field.name.as_slice())?;
    }
    Ok(())
}

/// The cells of a record in columns of these widths, each after a blank. `text` is for one cell at a time.
pub(crate) fn append_cells(
    alloc: Global,
    line: &mut Vec<u8>,
    text: &mut Vec<u8>,
    table: &TableData,
    number: u32,
    widths: &[usize],
    memos: MemoForm,
) -> Result<(), AllocError>
    requires number { 1 ≤ number }
    requires inside { number ≤ length table.now.rows }
    requires widths { length widths.now ≡ length table.now.schema }
    ensures ok { OnOk result (line.new.items ≡ line.old.items ++ columns_text widths.now (cell_shown table.now memos number) 0 table.now.schema) }
{
    let fields = table.schema().fields();
    for (index, field) in fields.iter().enumerate() {
        show_cell(alloc, text, table, number, index, field.kind, memos)?;
        line.push(BLANK)?;
        append_aligned(line, field.kind, widths[index], text.as_slice())?;
    }
    Ok(())
}

/// How wide the column of record numbers is.
///
/// An `Err` says that there was no memory.
pub(crate) fn number_width(alloc: Global, table: &TableData) -> Result<usize, AllocError>
    ensures value { IfOk result (λ width. width ≡ width_of_numbers table.now) }
{
    let count = table.record_count();
    let digits = format!(in alloc; "{count}")?;
    Ok(NUMBER_HEADING.len().max(digits.len()))
}
