//! An entry as text.

ghost use Rattle.std.specs.Prelude.{◌≡◌, ◌++◌, codes, replicate, OnOk};
ghost use Rattle.std.specs.Fmt.{decimal};
ghost use Rattle.dbf_fields.specs.declared.format.TheConstants.{BLANK as BLANK_BYTE};
ghost use Rattle.entry_text.specs.declared.text.TheConstants.{STATION_WIDTH as STATION_COLUMN};
ghost use Rattle.entry_text.specs.Layout.{answer_byte, answer_text, count_text, entry_text, in_column};

use dbf_fields::BLANK;
use station_lines::{CutEntry, LF};
use std::alloc::{AllocError, Global};

/// How wide the column of the stations is.
pub(crate) const STATION_WIDTH: usize = 7;

/// How wide the column of the commands is.
pub(crate) const COMMAND_WIDTH: usize = 42;

/// How many blanks stand before another line of an answer, which stands below the first: both columns, and a blank.
pub(crate) const MARGIN: usize = 50;

// Appends as many blanks.
fn append_blanks(line: &mut Vec<u8>, count: usize) -> Result<(), AllocError>
    ensures ok { OnOk result (line.new.items ≡ line.old.items ++ replicate count BLANK_BYTE) }
{
    for _ in 0..count {
        line.push(BLANK)?;
    }
    Ok(())
}

// Appends a text, and as many blanks as fill a column.
fn append_column(line: &mut Vec<u8>, width: usize, text: &[u8]) -> Result<(), AllocError>
    ensures ok { OnOk result (line.new.items ≡ line.old.items ++ in_column width text.now) }
{
    line.extend_from_slice(text)?;
    append_blanks(line, width.saturating_sub(text.len()))
}

// Appends a byte of an answer, and after an LF what stands before the next line.
fn append_byte(text: &mut Vec<u8>, byte: u8) -> Result<(), AllocError>
    ensures ok { OnOk result (text.new.items ≡ text.old.items ++ answer_byte byte) }
{
    text.push(byte)?;
    if byte != LF {
        return Ok(());
    }
    append_blanks(text, MARGIN)
}

// Appends an answer, each of its lines below the one before.
fn append_answer(text: &mut Vec<u8>, answer: &[u8]) -> Result<(), AllocError>
    ensures ok { OnOk result (text.new.items ≡ text.old.items ++ answer_text answer.now) }
{
    for byte in answer {
        append_byte(text, *byte)?;
    }
    text.push(LF)?;
    Ok(())
}

// Appends the number of a station in its column.
fn append_station(alloc: Global, text: &mut Vec<u8>, station: u64) -> Result<(), AllocError>
    ensures ok { OnOk result (text.new.items ≡ text.old.items ++ in_column STATION_COLUMN (decimal station ++ codes ":")) }
{
    let digits = format!(in alloc; "{station}:")?;
    append_column(text, STATION_WIDTH, digits.as_bytes())
}

/// Appends the line of an entry: its station, its command, and its answer beside that.
pub(crate) fn append_entry(
    alloc: Global,
    text: &mut Vec<u8>,
    entry: &CutEntry<'_>,
) -> Result<(), AllocError>
    ensures ok { OnOk result (text.new.items ≡ text.old.items ++ entry_text (entry.now.station, entry.now.command.now, entry.now.answer.now)) }
{
    append_station(alloc, text, entry.station)?;
    append_column(text, COMMAND_WIDTH, entry.command)?;
    text.push(BLANK)?;
    append_answer(text, entry.answer)
}

/// Appends how many of how many entries were refused.
pub(crate) fn append_refused_count(
    alloc: Global,
    text: &mut Vec<u8>,
    refused: u64,
    all: u64,
) -> Result<(), AllocError>
    ensures ok { OnOk result (text.new.items ≡ text.old.items ++ count_text refused all) }
{
    let line = format!(in alloc; "{refused} of {all} refused\n")?;
    text.extend_from_slice(line.as_bytes())
}
