//! Commands as lines of a script.

ghost use Rattle.std.specs.Prelude.{◌≡◌, ◌++◌, true, codes, OnOk, IfOk};
ghost use Rattle.std.specs.Fmt.{decimal, signed_decimal};
ghost use Rattle.station_lines.specs.Script.Meaning.{Means};
ghost use Rattle.station_lines.specs.Script.Lines.{has_no_lf};
ghost use Rattle.station_lines.specs.CommandLines.{text_of_command, IsMeant, IsOfALine};

mod value;

pub(crate) use crate::command_lines::value::append_number;
use crate::command_lines::value::{append_both, append_quoted, append_value, append_with_commas};
use crate::script::Line;
use crate::script::call::{CallName, call_text};
use byte_io::Bytes;
use catalogue_core::{Command, Numbers};
use dbf_fields::Literal;
use itoa::Buffer;
use std::alloc::{AllocError, Global};

// Appends a command's words before its number, and the number.
fn append_words_and_number(line: &mut Vec<u8>, words: &[u8], number: u64) -> Result<(), AllocError>
    ensures ok { OnOk result (line.new.items ≡ line.old.items ++ (words.now ++ decimal number)) }
{
    line.extend_from_slice(words)?;
    append_number(line, number)
}

// Appends SKIP and how many records.
fn append_skip(line: &mut Vec<u8>, records: i64) -> Result<(), AllocError>
    ensures ok { OnOk result (line.new.items ≡ line.old.items ++ (codes "SKIP " ++ signed_decimal records)) }
{
    let mut buffer = Buffer::new();
    append_both(line, b"SKIP ", buffer.format(records).as_bytes())
}

// Appends SEEK and a text.
fn append_seek(line: &mut Vec<u8>, text: &[u8]) -> Result<(), AllocError>
    ensures ok { OnOk result (line.new.items ≡ line.old.items ++ text_of_command (Command.Seek text.now)) }
{
    line.extend_from_slice(b"SEEK ")?;
    append_quoted(line, text)
}

// Appends a first word, a part, and a word after it.
fn append_three(
    line: &mut Vec<u8>,
    word: &[u8],
    part: &[u8],
    after: &[u8],
) -> Result<(), AllocError>
    ensures ok { OnOk result (line.new.items ≡ line.old.items ++ (word.now ++ (part.now ++ after.now))) }
{
    line.extend_from_slice(word)?;
    line.extend_from_slice(part)?;
    line.extend_from_slice(after)
}

// Appends REPLACE, a field and a value.
fn append_replace(line: &mut Vec<u8>, field: &[u8], value: &Literal) -> Result<(), AllocError>
    ensures ok { OnOk result (line.new.items ≡ line.old.items ++ text_of_command (Command.Replace field.now value.now)) }
{
    append_three(line, b"REPLACE ", field, b" WITH ")?;
    append_value(line, value)
}

// Appends MEMO, a field and a text.
fn append_memo(line: &mut Vec<u8>, field: &[u8], text: &[u8]) -> Result<(), AllocError>
    ensures ok { OnOk result (line.new.items ≡ line.old.items ++ text_of_command (Command.Memo field.now text.now)) }
{
    append_three(line, b"MEMO ", field, b" WITH ")?;
    append_quoted(line, text)
}

// Appends INDEX ON, an expression and a name.
fn append_index_on(line: &mut Vec<u8>, expr: &[u8], name: &[u8]) -> Result<(), AllocError>
    ensures ok { OnOk result (line.new.items ≡ line.old.items ++ text_of_command (Command.IndexOn expr.now name.now)) }
{
    append_three(line, b"INDEX ON ", expr, b" TO ")?;
    line.extend_from_slice(name)
}

// Appends USE, a table's name, and nothing or EXCLUSIVE.
fn append_use(line: &mut Vec<u8>, name: &[u8], exclusive: bool) -> Result<(), AllocError>
    ensures ok { OnOk result (line.new.items ≡ line.old.items ++ text_of_command (Command.UseTable name.now exclusive)) }
{
    if exclusive {
        append_three(line, b"USE ", name, b" EXCLUSIVE")
    } else {
        append_both(line, b"USE ", name)
    }
}

// Appends ?, and RLOCK with record numbers in its parentheses.
fn append_locks(line: &mut Vec<u8>, numbers: &Numbers) -> Result<(), AllocError>
    ensures ok { OnOk result (line.new.items ≡ line.old.items ++ text_of_command (Command.RecordLocks numbers.now)) }
{
    line.extend_from_slice(b"? RLOCK(")?;
    append_with_commas(line, numbers.as_slice())?;
    line.push(b')')?;
    Ok(())
}

/// Appends the line of a command, as [`command_line`] makes it. An error where memory is refused: a front part of it may have been
/// appended then.
pub fn append_command(line: &mut Vec<u8>, command: &Command) -> Result<(), AllocError>
    ensures ok { OnOk result (line.new.items ≡ line.old.items ++ text_of_command command.now) }
{
    match command {
        Command::Select(area) => append_words_and_number(line, b"SELECT ", *area),
        Command::UseTable { name, exclusive } => append_use(line, name.as_slice(), *exclusive),
        Command::CloseTable => line.extend_from_slice(b"USE"),
        Command::Go(record) => append_words_and_number(line, b"GO ", *record),
        Command::Top => line.extend_from_slice(b"GO TOP"),
        Command::Bottom => line.extend_from_slice(b"GO BOTTOM"),
        Command::Skip(records) => append_skip(line, *records),
        Command::Seek(text) => append_seek(line, text.as_slice()),
        Command::Order(order) => append_words_and_number(line, b"SET ORDER TO ", *order),
        Command::AppendBlank => line.extend_from_slice(b"APPEND BLANK"),
        Command::Replace { field, value } => append_replace(line, field.as_slice(), value),
        Command::Memo { field, text } => append_memo(line, field.as_slice(), text.as_slice()),
        Command::Delete => line.extend_from_slice(b"DELETE"),
        Command::Recall => line.extend_from_slice(b"RECALL"),
        Command::Pack => line.extend_from_slice(b"PACK"),
        Command::IndexOn { expr, name } => append_index_on(line, expr.as_slice(), name.as_slice()),
        Command::Unlock => line.extend_from_slice(b"UNLOCK"),
        Command::UnlockAll => line.extend_from_slice(b"UNLOCK ALL"),
        Command::Show(field) => append_both(line, b"? ", field.as_slice()),
        Command::RecordLock => append_both(line, b"? ", call_text(CallName::Rlock)),
        Command::RecordLocks(numbers) => append_locks(line, numbers),
        Command::FileLock => append_both(line, b"? ", call_text(CallName::Flock)),
        Command::Ask(question) => append_both(line, b"? ", call_text(CallName::Ask(*question))),
        Command::Bad => line.extend_from_slice(b"BAD"),
    }
}

/// The line of a command, without an ending: in whole words and capitals, apart by one blank, as `USE T EXCLUSIVE`,
/// `REPLACE AMOUNT WITH -4.80` or `? RLOCK(16,17)`. What [`parse_line`] makes of a line reads back: the line of such
/// a command means this command. That of `Bad` is `BAD`, which can't be read, and a date that is none stands as
/// `99/99/99`. The line of a command that a script's line means has no LF. An error where memory is refused.
///
/// [`parse_line`]: crate::parse_line
#[tactic(auto, using(crate::proofs::CommandLaws::LineLaws::text_means))]
pub fn command_line(alloc: Global, command: &Command) -> Result<Bytes, AllocError>
    ensures value { IfOk result (λ line. line ≡ text_of_command command.now) }
    ensures read_back { IfOk result (λ line. IsMeant command.now → Means line (Line.Run command.now)) }
    ensures one_line { IfOk result (λ line. IsOfALine command.now → has_no_lf line ≡ true) }
{
    let mut line = Vec::new(alloc);
    append_command(&mut line, command)?;
    Ok(Bytes::from_vec(line))
}
