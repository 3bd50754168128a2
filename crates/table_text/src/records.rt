//! The records of a table as text.

ghost use Rattle.std.specs.Prelude.{◌≡◌, ◌++◌, length, option_copied, IfOk, OnOk, OnErr};
ghost use Rattle.byte_io.specs.Sink.{grown, IsFront, Rises};
ghost use Rattle.table_text.specs.Csv.{csv_text};
ghost use Rattle.table_text.specs.Records.{beyond_text, heading_with, is_beyond as comes_after, records_text};

use crate::columns::{NUMBER_HEADING, append_aligned, append_names, number_width};
use crate::csv::append_csv_heading;
use crate::fault::TextFault;
use crate::format::LF;
use crate::lines::{ColumnLayout, LineFormat, write_lines};
use crate::memo_form::MemoForm;
use crate::selection::Selection;
use crate::widths::column_widths;
use byte_io::ByteSink;
use dbf_fields::{BLANK, Field, NUMBER};
use dbf_image::TableData;
use std::alloc::{AllocError, Global};

// The line of headings.
fn heading(
    alloc: Global,
    fields: &[Field],
    number_width: usize,
    widths: &[usize],
) -> Result<Vec<u8>, AllocError>
    requires widths { length widths.now ≡ length fields.now }
    ensures value { IfOk result (λ line. line.items ≡ heading_with number_width widths.now fields.now) }
{
    let mut line = Vec::new(alloc);
    append_aligned(&mut line, NUMBER, number_width, NUMBER_HEADING)?;
    line.extend_from_slice(&[BLANK, BLANK])?;
    append_names(&mut line, fields, widths)?;
    line.push(LF)?;
    Ok(line)
}

// Whether the first record that is asked for comes after the last one.
fn is_beyond(table: &TableData, selection: Selection) -> bool
    ensures value { result ≡ comes_after table.now selection }
{
    selection.first > 1 && selection.first > table.record_count()
}

// How many records there are, after the headings, where all that are asked for come after the last one.
fn append_beyond(
    alloc: Global,
    heading: &mut Vec<u8>,
    table: &TableData,
    selection: Selection,
) -> Result<(), AllocError>
    ensures ok { OnOk result (heading.new.items ≡ heading.old.items ++ beyond_text table.now selection) }
{
    if is_beyond(table, selection) {
        let count = table.record_count();
        let line = format!(in alloc; "records of the table: {count}")?;
        heading.extend_from_slice(line.as_bytes())?;
        heading.push(LF)?;
    }
    Ok(())
}

/// Writes a table as people read it: a line of headings, and a line for each record that is shown, with its number,
/// `*` where it is marked as deleted, and its cells. Records are shown in the order of the numbers that are given; one that
/// is no record's is passed over. Where none are given they are shown by their numbers. Where all records that are asked for come after
/// the last one a line says how many there are.
///
/// Columns are as wide as what is shown in them, but the last isn't filled up with blanks. Record numbers and numbers
/// stand at the right. Dates are shown as MM/DD/YY. Of a memo `memos` says how much is shown. A byte that is no printable
/// character of ASCII is shown as a backslash, `x` and two digits to the base 16, and a backslash twice. The records are
/// gone through once as they stand in the table, to see how wide the columns are, and once more to be written, each as a line of
/// its own: the memory that is taken is that of one line, of one memo, and of a byte for each record.
///
/// `NoMemory` says that there was no memory, for the widths, a line or a memo, and `Sink` that the sink failed. It has
/// then taken a front part of the text, which may be nothing.
#[tactic(auto, using(byte_io::specs::Laws::Sinks::front_same, byte_io::specs::Laws::Sinks::front_grown))]
pub fn write_records<S: ByteSink>(
    alloc: Global,
    sink: &mut S,
    table: &TableData,
    order: Option<&[u32]>,
    selection: Selection,
    memos: MemoForm,
) -> Result<(), TextFault>
    ensures wrote { OnOk result (S.written sink.new ≡ grown (S.written sink.old) (records_text table.now (option_copied order.entry) selection memos)) }
    ensures no_failure { OnOk result (S.failures sink.new ≡ S.failures sink.old) }
    ensures failed { result ≡ Err TextFault.Sink → Rises (S.failures sink.old) (S.failures sink.new) }
    ensures unfailed { result ≡ Err TextFault.NoMemory → S.failures sink.new ≡ S.failures sink.old }
    // What the sink held before the call it still holds.
    ensures kept { IsFront (S.written sink.old) (S.written sink.new) }
    // What it has after a fault is a front part of the text.
    ensures front { OnErr result (IsFront (S.written sink.new) (grown (S.written sink.old) (records_text table.now (option_copied order.entry) selection memos))) }
{
    let number_width = number_width(alloc, table)?;
    let widths = column_widths(alloc, table, order, selection, memos)?;
    let mut heading = heading(alloc, table.schema().fields(), number_width, &widths)?;
    append_beyond(alloc, &mut heading, table, selection)?;
    let format = LineFormat::Columns(ColumnLayout {
        number_width,
        widths,
        memos,
    });
    write_lines(alloc, sink, table, order, selection, &heading, &format)
}

/// Writes the records of a table that are shown as CSV: a line of the fields' names, and a line for each record, each
/// line ended by CR and LF. They stand in the same order as in [`write_records`].
///
/// A memo stands whole, a number without the blanks around it, a date as its eight digits, and every other cell without
/// the blanks at its end. Bytes stand as they are. A text with a comma, a quote, a CR or an LF stands between quotes, with
/// each of its quotes twice; so does an empty text that is alone in its line. Where `deleted_column` says so a last
/// column `deleted` tells `true` of the records that are marked as deleted, and `false` of the others.
///
/// `NoMemory` says that there was no memory for a line or a memo, and `Sink` that the sink failed. It has then taken a
/// front part of the text, which may be nothing.
#[tactic(auto, using(byte_io::specs::Laws::Sinks::front_same, byte_io::specs::Laws::Sinks::front_grown))]
pub fn write_csv<S: ByteSink>(
    alloc: Global,
    sink: &mut S,
    table: &TableData,
    order: Option<&[u32]>,
    selection: Selection,
    deleted_column: bool,
) -> Result<(), TextFault>
    ensures wrote { OnOk result (S.written sink.new ≡ grown (S.written sink.old) (csv_text table.now (option_copied order.entry) selection deleted_column)) }
    ensures no_failure { OnOk result (S.failures sink.new ≡ S.failures sink.old) }
    ensures failed { result ≡ Err TextFault.Sink → Rises (S.failures sink.old) (S.failures sink.new) }
    ensures unfailed { result ≡ Err TextFault.NoMemory → S.failures sink.new ≡ S.failures sink.old }
    // What the sink held before the call it still holds.
    ensures kept { IsFront (S.written sink.old) (S.written sink.new) }
    // What it has after a fault is a front part of the text.
    ensures front { OnErr result (IsFront (S.written sink.new) (grown (S.written sink.old) (csv_text table.now (option_copied order.entry) selection deleted_column))) }
{
    let mut heading = Vec::new(alloc);
    append_csv_heading(&mut heading, table, deleted_column)?;
    let format = LineFormat::Csv(deleted_column);
    write_lines(alloc, sink, table, order, selection, &heading, &format)
}
