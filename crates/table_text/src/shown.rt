//! What is shown of a cell.

ghost use Rattle.std.specs.Prelude.{◌≡◌, ◌++◌, ◌≤◌, ◌<◌, ◌||◌, ◌==◌, length, OnOk};
ghost use Rattle.std.specs.List.{list_all, position, position_or_len};
ghost use Rattle.dbf_image.specs.Table.{cell_at, kind_at};
ghost use Rattle.table_text.specs.declared.format.TheConstants.{CR as CR_BYTE, LF as LF_BYTE};
ghost use Rattle.table_text.specs.Shown.{is_plain, shown_bytes, first_line as before_line_end, memo_part as part_of_memo, trimmed_end as without_end, shown_cell};

use crate::format::{CR, LF};
use crate::memo_form::MemoForm;
use crate::shown_byte::{is_plain_byte, shown};
use dbf_fields::{BLANK, DATE, MEMO, NUMBER, shown_date, trimmed};
use dbf_image::TableData;
use std::alloc::{AllocError, Global};

fn are_plain(bytes: &[u8]) -> bool
    ensures value { result ≡ list_all is_plain bytes.now }
{
    bytes.iter().all(|byte| is_plain_byte(*byte))
}

// Bytes after those before, as they are shown. Most are plain, and then they are copied at once.
#[tactic(auto, using(crate::proofs::ShownLaws::plain_bytes))]
fn append_shown(text: &mut Vec<u8>, bytes: &[u8]) -> Result<(), AllocError>
    ensures ok { OnOk result (text.new.items ≡ text.old.items ++ shown_bytes bytes.now) }
{
    if are_plain(bytes) {
        return text.extend_from_slice(bytes);
    }
    for byte in bytes {
        text.extend_from_slice(shown(*byte).as_slice())?;
    }
    Ok(())
}

fn ends_line(byte: u8) -> bool
    ensures value { result ≡ (byte == CR_BYTE || byte == LF_BYTE) }
{
    byte == CR || byte == LF
}

fn line_end_at(text: &[u8]) -> Option<usize>
    ensures value { result ≡ position (λ b. b == CR_BYTE || b == LF_BYTE) text.now }
{
    text.iter().position(|byte| ends_line(*byte))
}

// How many bytes stand before the first CR or LF, or all.
#[tactic(auto, using(crate::proofs::Positions::position_none))]
fn line_length(text: &[u8]) -> usize
    ensures value { result ≡ position_or_len (λ b. b == CR_BYTE || b == LF_BYTE) text.now }
    ensures short { result ≤ length text.now }
{
    match line_end_at(text) {
        Some(end) => end,
        None => text.len(),
    }
}

fn first_line(text: &[u8]) -> &[u8]
    ensures value { result.now ≡ before_line_end text.now }
{
    &text[..line_length(text)]
}

fn memo_part(memos: MemoForm, text: &[u8]) -> &[u8]
    ensures value { result.now ≡ part_of_memo memos text.now }
{
    match memos {
        MemoForm::FirstLine => first_line(text),
        MemoForm::Whole => text,
    }
}

/// The bytes without the blanks at their end. Takes no memory.
#[tactic(auto, unfolding(crate::specs::Shown::trimmed_end))]
pub fn trimmed_end(bytes: &[u8]) -> &[u8]
    ensures value { result.now ≡ without_end bytes.now }
{
    let mut text = bytes;
    while let [rest @ .., BLANK] = text {
        text = rest;
    }
    text
}

/// What is shown of the cell of a record and of a field of this kind, in place of what the text was. Records count from
/// 1, fields from 0.
///
/// An `Err` says that there was no memory.
#[tactic(auto, unfolding(crate::specs::Shown::shown_cell))]
pub(crate) fn show_cell(
    alloc: Global,
    text: &mut Vec<u8>,
    table: &TableData,
    number: u32,
    index: usize,
    kind: u8,
    memos: MemoForm,
) -> Result<(), AllocError>
    requires number { 1 ≤ number }
    requires inside { number ≤ length table.now.rows }
    requires index { index < length table.now.schema }
    requires kind { kind_at table.now.schema index ≡ kind }
    ensures ok { OnOk result (text.new.items ≡ shown_cell memos kind (cell_at table.now number index)) }
{
    text.clear();
    if kind == MEMO {
        let memo = table.memo(alloc, number, index)?;
        return append_shown(text, memo_part(memos, memo.as_slice()));
    }
    let cell = table.cell(number, index);
    match kind {
        DATE => append_shown(text, &shown_date(cell)),
        NUMBER => append_shown(text, trimmed(cell)),
        _ => append_shown(text, trimmed_end(cell)),
    }
}
