//! How wide the columns of a table are.

ghost use Rattle.std.specs.Prelude.{◌≡◌, ◌++◌, ◌∷◌, ◌+◌, ◌<◌, ◌≤◌, ◌==◌, ◌&&◌, ℕ, List, [], true, false, not, length, slice_index_or, option_copied, IfOk, OnOk, vec_len};
ghost use Rattle.dbf_fields.specs.declared.format.TheConstants.{NUMBER as NUMBER_KIND};
ghost use Rattle.dbf_image.specs.Table.{kind_at};
ghost use Rattle.table_text.specs.Columns.{column_widths as widths_of, filled_width as width_filled};
ghost use Rattle.table_text.specs.declared.memo_form.MemoForm.{MemoForm as Form};
ghost use Rattle.table_text.specs.Selection.{is_among, is_selected, numbers_in, selected};

use crate::memo_form::MemoForm;
use crate::selection::{Selection, number_at, number_count};
use crate::shown::show_cell;
use dbf_fields::{Field, NUMBER};
use dbf_image::TableData;
use std::alloc::{AllocError, Global};

// For each record, from the first on, whether its number is one of an order.
fn are_in_order(
    alloc: Global,
    table: &TableData,
    order: Option<&[u32]>,
) -> Result<Vec<bool>, AllocError>
    ensures many { IfOk result (λ answers. length answers.items ≡ length table.now.rows) }
    ensures each { IfOk result (λ answers. (place : ℕ) → place < length table.now.rows
        → slice_index_or answers.items place false ≡ is_among (numbers_in table.now (option_copied order.entry)) (place + 1)) }
{
    let mut answers = vec![in alloc; false; table.record_count() as usize]?;
    for place in 0..number_count(table, order) {
        let number = number_at(table, order, place) as usize;
        if number >= 1 && number <= answers.len() {
            answers[number - 1] = true;
        }
    }
    Ok(answers)
}

// Whether the record at a place, from 0, is shown, where these are the answers of `are_in_order`.
fn is_shown(table: &TableData, answers: &[bool], selection: Selection, place: u32) -> bool
    requires inside { place < length answers.now }
    requires many { length answers.now ≡ length table.now.rows }
    ensures value { result ≡ (slice_index_or answers.now place false && is_selected table.now selection (place + 1)) }
{
    // For contracts alone: a number counts all records.
    let _count = table.record_count();
    answers[place as usize] && selection.takes(table, place + 1)
}

// Whether the column of a field is filled up: each but the last one, where its texts stand at the left.
fn is_filled(fields: &[Field], index: usize, kind: u8) -> bool
    requires inside { index < length fields.now }
    ensures value { result ≡ not ((index + 1 == length fields.now) && not (kind == NUMBER_KIND)) }
{
    index + 1 != fields.len() || kind == NUMBER
}

// The width that the column of a field is filled up to where no record is shown.
fn heading_width(table: &TableData, index: usize, field: &Field) -> usize
    requires inside { index < length table.now.schema }
    ensures value { (memos : Form) → result ≡ width_filled table.now [] memos index field.now }
{
    if is_filled(table.schema().fields(), index, field.kind) {
        field.name.as_slice().len()
    } else {
        0
    }
}

// The widths that the columns are filled up to where no record is shown.
fn heading_widths(alloc: Global, table: &TableData) -> Result<Vec<usize>, AllocError>
    ensures value { (memos : Form) → IfOk result (λ widths. widths.items ≡ widths_of table.now [] memos) }
    ensures many { IfOk result (λ widths. length widths.items ≡ length table.now.schema) }
{
    let mut widths = Vec::new(alloc);
    let fields = table.schema().fields();
    for (index, field) in fields.iter().enumerate() {
        widths.push(heading_width(table, index, field))?;
    }
    Ok(widths)
}

// The width of the column of a field, which was so wide before, for what is shown in it of one more record. `text` is for that.
fn widened(
    alloc: Global,
    text: &mut Vec<u8>,
    table: &TableData,
    number: u32,
    index: usize,
    field: &Field,
    width: usize,
    memos: MemoForm,
) -> Result<usize, AllocError>
    requires number { 1 ≤ number }
    requires inside { number ≤ length table.now.rows }
    requires index { index < length table.now.schema }
    requires kind { kind_at table.now.schema index ≡ field.now.kind }
    ensures wider { IfOk result (λ new. (shown : List ℕ) → width ≡ width_filled table.now shown memos index field.now
        → new ≡ width_filled table.now (shown ++ number ∷ []) memos index field.now) }
{
    if is_filled(table.schema().fields(), index, field.kind) {
        show_cell(alloc, text, table, number, index, field.kind, memos)?;
        let wide = width.max(text.as_slice().len());
        return Ok(wide);
    }
    Ok(width)
}

// Widens the columns for what is shown in them of one more record. `text` is for one cell at a time.
fn widen(
    alloc: Global,
    text: &mut Vec<u8>,
    table: &TableData,
    number: u32,
    widths: &mut Vec<usize>,
    memos: MemoForm,
) -> Result<(), AllocError>
    requires number { 1 ≤ number }
    requires inside { number ≤ length table.now.rows }
    requires widths { vec_len widths.old ≡ length table.now.schema }
    ensures wider { OnOk result ((shown : List ℕ) → widths.old.items ≡ widths_of table.now shown memos
        → widths.new.items ≡ widths_of table.now (shown ++ number ∷ []) memos) }
    ensures many { vec_len widths.new ≡ vec_len widths.old }
{
    let fields = table.schema().fields();
    for (index, field) in fields.iter().enumerate() {
        let width = widths[index];
        let wide = widened(alloc, text, table, number, index, field, width, memos)?;
        widths[index] = wide;
    }
    Ok(())
}

// Widens the columns for the record at a place, from 0, where it is shown. The answers are those of `are_in_order`.
fn widen_shown(
    alloc: Global,
    text: &mut Vec<u8>,
    table: &TableData,
    answers: &[bool],
    selection: Selection,
    place: u32,
    widths: &mut Vec<usize>,
    memos: MemoForm,
) -> Result<(), AllocError>
    requires inside { place < length answers.now }
    requires answers { length answers.now ≡ length table.now.rows }
    requires widths { vec_len widths.old ≡ length table.now.schema }
    ensures wider { (slice_index_or answers.now place false && is_selected table.now selection (place + 1)) ≡ true
        → OnOk result ((shown : List ℕ) → widths.old.items ≡ widths_of table.now shown memos
        → widths.new.items ≡ widths_of table.now (shown ++ (place + 1) ∷ []) memos) }
    ensures same { (slice_index_or answers.now place false && is_selected table.now selection (place + 1)) ≡ false
        → OnOk result (widths.new.items ≡ widths.old.items) }
    ensures many { vec_len widths.new ≡ vec_len widths.old }
{
    if is_shown(table, answers, selection, place) {
        return widen(alloc, text, table, place + 1, widths, memos);
    }
    Ok(())
}

/// The widths that the columns of a table are filled up to. They are the same in whatever order records are shown, so the
/// records are gone through as they stand in the table.
///
/// An `Err` says that there was no memory.
pub(crate) fn column_widths(
    alloc: Global,
    table: &TableData,
    order: Option<&[u32]>,
    selection: Selection,
    memos: MemoForm,
) -> Result<Vec<usize>, AllocError>
    ensures value { IfOk result (λ widths. widths.items ≡ widths_of table.now (selected table.now (option_copied order.entry) selection) memos) }
    ensures many { IfOk result (λ widths. length widths.items ≡ length table.now.schema) }
{
    let answers = are_in_order(alloc, table, order)?;
    let mut text = Vec::new(alloc);
    let mut widths = heading_widths(alloc, table)?;
    for place in 0..table.record_count() {
        widen_shown(
            alloc,
            &mut text,
            table,
            answers.as_slice(),
            selection,
            place,
            &mut widths,
            memos,
        )?;
    }
    Ok(widths)
}
