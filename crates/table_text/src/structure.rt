//! The fields of a table as text.

ghost use Rattle.std.specs.Prelude.{◌≡◌, ◌≤◌, ◌++◌, ◌↔◌, ◌^◌, ◌<◌, length, IsSome, IfSome, IfOk, OnOk, OnErr};
ghost use Rattle.byte_io.specs.Sink.{grown, IsFront, Rises};
ghost use Rattle.dbf_fields.specs.Digits.{last_digits};
ghost use Rattle.table_text.specs.Structure.{count_line, date_line, date_words, decimals_part, field_line, field_lines, fields_text};
ghost use Rattle.table_text.specs.Structure.{kind_and_width, kind_word as word_of_kind, numbered_name, IsHeaderDate, TellsDay};

use crate::columns::append_aligned;
use crate::fault::TextFault;
use crate::format::LF;
use byte_io::{ByteSink, write_all};
use dbf_fields::{BLANK, CHARACTER, DATE, Day, Field, LOGICAL, NUMBER, SLASH, ZERO_DIGIT, day_of};
use dbf_image::TableData;
use std::alloc::{AllocError, Global};

/// The year that a header's date tells as 0.
pub const FIRST_HEADER_YEAR: u16 = 1900;

// How wide the columns are: as their headings, and a name has at most ten bytes.
pub(crate) const NUMBER_COLUMN: usize = 5;

pub(crate) const NAME_COLUMN: usize = 10;

pub(crate) const KIND_COLUMN: usize = 9;

pub(crate) const WIDTH_COLUMN: usize = 5;

pub(crate) const DECIMALS_COLUMN: usize = 8;

const HEADING: &[u8] = b"Field Name       Kind      Width Decimals";

/// The date of the last change that a table's file tells, of the years 1900 to 2155. `None` where the bytes end before
/// it or tell no date of the calendar. Takes no memory.
pub fn header_date(bytes: &[u8]) -> Option<Day>
    ensures some { IfSome result (λ day. IsHeaderDate bytes.now day) }
    ensures only { IsSome result ↔ ((4 ≤ length bytes.now) × TellsDay bytes.now) }
{
    if bytes.len() < 4 {
        return None;
    }
    day_of(FIRST_HEADER_YEAR + u16::from(bytes[1]), bytes[2], bytes[3])
}

fn two_digits(number: u16) -> [u8; 2]
    ensures value { result ≡ last_digits 2 number }
{
    [
        ZERO_DIGIT + (number / 10 % 10) as u8,
        ZERO_DIGIT + (number % 10) as u8,
    ]
}

fn append_date(text: &mut Vec<u8>, date: Option<Day>) -> Result<(), AllocError>
    ensures ok { OnOk result (text.new.items ≡ text.old.items ++ date_words date) }
{
    match date {
        None => text.extend_from_slice(b"no date"),
        Some(day) => {
            text.extend_from_slice(&two_digits(u16::from(day.month)))?;
            text.push(SLASH)?;
            text.extend_from_slice(&two_digits(u16::from(day.day)))?;
            text.push(SLASH)?;
            text.extend_from_slice(&two_digits(day.year))
        }
    }
}

fn kind_word(kind: u8) -> &'static [u8]
    ensures value { result.now ≡ word_of_kind kind }
{
    match kind {
        CHARACTER => b"Character",
        NUMBER => b"Number",
        LOGICAL => b"Logical",
        DATE => b"Date",
        _ => b"Memo",
    }
}

// The decimals of a number, and nothing of another field.
fn append_decimals(alloc: Global, text: &mut Vec<u8>, field: &Field) -> Result<(), AllocError>
    ensures ok { OnOk result (text.new.items ≡ text.old.items ++ decimals_part field.now) }
{
    if field.kind != NUMBER {
        return Ok(());
    }
    let decimals = field.decimals;
    let digits = format!(in alloc; "{decimals}")?;
    text.push(BLANK)?;
    append_aligned(text, NUMBER, DECIMALS_COLUMN, digits.as_bytes())
}

fn append_numbered_name(
    alloc: Global,
    text: &mut Vec<u8>,
    number: usize,
    field: &Field,
) -> Result<(), AllocError>
    ensures ok { OnOk result (text.new.items ≡ text.old.items ++ numbered_name number field.now) }
{
    let digits = format!(in alloc; "{number}")?;
    append_aligned(text, NUMBER, NUMBER_COLUMN, digits.as_bytes())?;
    text.push(BLANK)?;
    append_aligned(text, CHARACTER, NAME_COLUMN, field.name.as_slice())
}

fn append_kind_and_width(alloc: Global, text: &mut Vec<u8>, field: &Field) -> Result<(), AllocError>
    ensures ok { OnOk result (text.new.items ≡ text.old.items ++ kind_and_width field.now) }
{
    text.push(BLANK)?;
    append_aligned(text, CHARACTER, KIND_COLUMN, kind_word(field.kind))?;
    text.push(BLANK)?;
    let width = field.width;
    let digits = format!(in alloc; "{width}")?;
    append_aligned(text, NUMBER, WIDTH_COLUMN, digits.as_bytes())?;
    append_decimals(alloc, text, field)
}

// The line of the field of this number.
fn append_field(
    alloc: Global,
    text: &mut Vec<u8>,
    number: usize,
    field: &Field,
) -> Result<(), AllocError>
    ensures ok { OnOk result (text.new.items ≡ text.old.items ++ field_line number field.now) }
{
    append_numbered_name(alloc, text, number, field)?;
    append_kind_and_width(alloc, text, field)?;
    text.push(LF)?;
    Ok(())
}

fn append_fields(alloc: Global, text: &mut Vec<u8>, fields: &[Field]) -> Result<(), AllocError>
    requires short { length fields.now < 2 ^ 16 }
    ensures ok { OnOk result (text.new.items ≡ text.old.items ++ field_lines 1 fields.now) }
{
    for (index, field) in fields.iter().enumerate() {
        append_field(alloc, text, index + 1, field)?;
    }
    Ok(())
}

fn append_count_line(alloc: Global, text: &mut Vec<u8>, record_count: u32) -> Result<(), AllocError>
    ensures ok { OnOk result (text.new.items ≡ text.old.items ++ count_line record_count) }
{
    let digits = format!(in alloc; "{record_count}")?;
    text.extend_from_slice(b"Records: ")?;
    text.extend_from_slice(digits.as_bytes())?;
    text.push(LF)?;
    Ok(())
}

fn append_date_line(text: &mut Vec<u8>, date: Option<Day>) -> Result<(), AllocError>
    ensures ok { OnOk result (text.new.items ≡ text.old.items ++ date_line date) }
{
    text.extend_from_slice(b"Last change: ")?;
    append_date(text, date)?;
    text.push(LF)?;
    Ok(())
}

fn structure_text(
    alloc: Global,
    table: &TableData,
    date: Option<Day>,
) -> Result<Vec<u8>, AllocError>
    ensures value { IfOk result (λ text. text.items ≡ fields_text table.now date) }
{
    let mut text = Vec::new(alloc);
    append_count_line(alloc, &mut text, table.record_count())?;
    append_date_line(&mut text, date)?;
    text.extend_from_slice(HEADING)?;
    text.push(LF)?;
    append_fields(alloc, &mut text, table.schema().fields())?;
    Ok(text)
}

/// Writes what the fields of a table are: a line with the number of records, a line with the date of the last change, a
/// line of headings, and for each field a line with its number from 1 on, its name, its kind, its width and, of a number,
/// its decimals. The file's header tells the date ([`header_date`]), since a table in memory has none.
///
/// `NoMemory` says that there was no memory, and nothing was written. `Sink` says that the sink failed; it has then taken
/// a front part of the text, which may be nothing.
#[tactic(auto, using(byte_io::specs::Laws::Sinks::front_same, byte_io::specs::Laws::Sinks::front_grown))]
pub fn write_fields<S: ByteSink>(
    alloc: Global,
    sink: &mut S,
    table: &TableData,
    date: Option<Day>,
) -> Result<(), TextFault>
    ensures wrote { OnOk result (S.written sink.new ≡ grown (S.written sink.old) (fields_text table.now date)) }
    ensures no_failure { OnOk result (S.failures sink.new ≡ S.failures sink.old) }
    ensures failed { result ≡ Err TextFault.Sink → Rises (S.failures sink.old) (S.failures sink.new) }
    ensures unwritten { result ≡ Err TextFault.NoMemory → sink.new ≡ sink.old }
    // What the sink held before the call it still holds.
    ensures kept { IsFront (S.written sink.old) (S.written sink.new) }
    // What it has after a fault is a front part of the text.
    ensures front { OnErr result (IsFront (S.written sink.new) (grown (S.written sink.old) (fields_text table.now date))) }
{
    let text = structure_text(alloc, table, date)?;
    write_all(sink, &text)?;
    Ok(())
}
