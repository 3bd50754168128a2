//! The lines of the records that are shown, one after the other into a sink.

ghost use Rattle.std.specs.Prelude.{◌≡◌, ◌++◌, ◌≤◌, length, option_copied, OnOk, OnErr};
ghost use Rattle.byte_io.specs.Output.{Puts};
ghost use Rattle.byte_io.specs.Sink.{grown, IsFront, Rises};
ghost use Rattle.table_text.specs.Lines.{line_in, lines_in, HasWidths};
ghost use Rattle.table_text.specs.Output.{PutsFront};
ghost use Rattle.table_text.specs.Selection.{numbers_in, selected, selected_from, AreNumbersOf};
ghost use Rattle.table_text.specs.Records.{mark_of as mark_in};

use crate::columns::{append_aligned, append_cells};
use crate::csv::append_csv_line;
use crate::fault::TextFault;
use crate::format::LF;
use crate::memo_form::MemoForm;
use crate::selection::{Selection, number_at, number_count};
use byte_io::{ByteSink, SinkWriter};
use dbf_fields::{ASTERISK, BLANK, NUMBER};
use dbf_image::TableData;
use std::alloc::{AllocError, Global};

/// How the columns of a table are laid out.
#[derive(Debug, Drop)]
pub(crate) struct ColumnLayout {
    /// How wide the column of record numbers is.
    pub number_width: usize,
    /// How wide the columns of the fields are.
    pub widths: Vec<usize>,
    /// How much of memos is shown.
    pub memos: MemoForm,
}

/// How the line of a record is made.
#[derive(Debug, Drop)]
pub(crate) enum LineFormat {
    /// In columns, for people.
    Columns(ColumnLayout),
    /// As CSV, with or without a column of marks.
    Csv(bool),
}

fn mark_of(deleted: bool) -> u8
    ensures value { result ≡ mark_in deleted }
{
    if deleted { ASTERISK } else { BLANK }
}

// The line of a record in columns, after what the line has.
fn append_record(
    alloc: Global,
    line: &mut Vec<u8>,
    text: &mut Vec<u8>,
    table: &TableData,
    number: u32,
    layout: &ColumnLayout,
) -> Result<(), AllocError>
    requires number { 1 ≤ number }
    requires inside { number ≤ length table.now.rows }
    requires widths { length layout.now.widths.items ≡ length table.now.schema }
    ensures ok { OnOk result (line.new.items ≡ line.old.items ++ line_in (LineFormat.Columns layout.now) table.now number) }
{
    let digits = format!(in alloc; "{number}")?;
    append_aligned(line, NUMBER, layout.number_width, digits.as_bytes())?;
    line.extend_from_slice(&[BLANK, mark_of(table.is_deleted(number))])?;
    append_cells(
        alloc,
        line,
        text,
        table,
        number,
        &layout.widths,
        layout.memos,
    )?;
    line.push(LF)?;
    Ok(())
}

// The line of a record after what the line has. `text` is for one cell at a time.
fn append_line(
    alloc: Global,
    line: &mut Vec<u8>,
    text: &mut Vec<u8>,
    table: &TableData,
    number: u32,
    format: &LineFormat,
) -> Result<(), AllocError>
    requires number { 1 ≤ number }
    requires inside { number ≤ length table.now.rows }
    requires widths { HasWidths format.now table.now }
    ensures ok { OnOk result (line.new.items ≡ line.old.items ++ line_in format.now table.now number) }
{
    match format {
        LineFormat::Columns(layout) => append_record(alloc, line, text, table, number, layout),
        LineFormat::Csv(deleted_column) => {
            append_csv_line(alloc, line, table, number, *deleted_column)
        }
    }
}

// How many records are looked at before their lines are made. Where an order scatters them over the table, reading the mark of one need
// not wait for that of the one before.
const RECORDS_AT_ONCE: usize = 64;

// Adds the numbers of the records that are shown of those from one place of the order to before another.
fn append_selected(
    numbers: &mut Vec<u32>,
    table: &TableData,
    order: Option<&[u32]>,
    selection: Selection,
    first: usize,
    end: usize,
) -> Result<(), AllocError>
    requires order { first ≤ end }
    requires inside { end ≤ length (numbers_in table.now (option_copied order)) }
    ensures selected { OnOk result (numbers.new.items ++ selected_from table.now (option_copied order.entry) selection end
        ≡ numbers.old.items ++ selected_from table.now (option_copied order.entry) selection first) }
    ensures records { OnOk result (AreNumbersOf table.now numbers.old.items → AreNumbersOf table.now numbers.new.items) }
{
    for place in first..end {
        let number = number_at(table, order, place);
        if selection.takes(table, number) {
            numbers.push(number)?;
        }
    }
    Ok(())
}

// The lines of some records. An `Err` says that there was no memory: those before were put. `text` is for one cell at a time.
fn put_records<S: ByteSink>(
    alloc: Global,
    out: &mut SinkWriter<'_, S>,
    text: &mut Vec<u8>,
    table: &TableData,
    numbers: &[u32],
    format: &LineFormat,
) -> Result<(), AllocError>
    requires records { AreNumbersOf table.now numbers.now }
    requires widths { HasWidths format.now table.now }
    ensures put { OnOk result (Puts out.old (lines_in format.now table.now numbers.now) out.new) }
    ensures front { PutsFront out.old (lines_in format.now table.now numbers.now) out.new }
{
    let mut line = Vec::new(alloc);
    for number in numbers {
        line.clear();
        append_line(alloc, &mut line, text, table, *number, format)?;
        out.put(line.as_slice());
    }
    Ok(())
}

// The lines of the records that are shown. An `Err` says that there was no memory: those before were put.
fn put_lines<S: ByteSink>(
    alloc: Global,
    out: &mut SinkWriter<'_, S>,
    table: &TableData,
    order: Option<&[u32]>,
    selection: Selection,
    format: &LineFormat,
) -> Result<(), AllocError>
    requires widths { HasWidths format.now table.now }
    ensures put { OnOk result (Puts out.old (lines_in format.now table.now (selected table.now (option_copied order.entry) selection)) out.new) }
    ensures front { PutsFront out.old (lines_in format.now table.now (selected table.now (option_copied order.entry) selection)) out.new }
{
    let mut text = Vec::new(alloc);
    let mut numbers = Vec::new(alloc);
    let count = number_count(table, order);
    let mut first = 0;
    while first < count {
        let end = first + RECORDS_AT_ONCE.min(count - first);
        numbers.clear();
        append_selected(&mut numbers, table, order, selection, first, end)?;
        put_records(alloc, out, &mut text, table, numbers.as_slice(), format)?;
        first = end;
    }
    Ok(())
}

/// Writes a heading, and the lines of the records that are shown, into a sink.
///
/// `Sink` says that the sink failed, and `NoMemory` that there was no memory for a line. It has then taken a front part
/// of the text.
pub(crate) fn write_lines<S: ByteSink>(
    alloc: Global,
    sink: &mut S,
    table: &TableData,
    order: Option<&[u32]>,
    selection: Selection,
    heading: &[u8],
    format: &LineFormat,
) -> Result<(), TextFault>
    requires widths { HasWidths format.now table.now }
    ensures wrote { OnOk result (S.written sink.new ≡ grown (S.written sink.old) (heading.now ++ lines_in format.now table.now (selected table.now (option_copied order.entry) selection))) }
    ensures no_failure { OnOk result (S.failures sink.new ≡ S.failures sink.old) }
    ensures failed { result ≡ Err TextFault.Sink → Rises (S.failures sink.old) (S.failures sink.new) }
    ensures unfailed { result ≡ Err TextFault.NoMemory → S.failures sink.new ≡ S.failures sink.old }
    ensures kept { IsFront (S.written sink.old) (S.written sink.new) }
    ensures front { OnErr result (IsFront (S.written sink.new) (grown (S.written sink.old) (heading.now ++ lines_in format.now table.now (selected table.now (option_copied order.entry) selection)))) }
{
    let mut out = SinkWriter::new(sink);
    out.put(heading);
    let put = put_lines(alloc, &mut out, table, order, selection, format);
    out.flush()?;
    put?;
    Ok(())
}
