//! How long the line of an entry of the journal is at most, told without making it. Bounds are lost where a sum is over the greatest
//! `usize`: then nothing is said.

ghost use Rattle.std.specs.Prelude.{◌≤◌, ◌<◌, ◌+◌, [], length};
ghost use Rattle.std.specs.Fmt.{decimal, signed_decimal};
ghost use Rattle.station_lines.specs.AnswerLines.{line_of, refusal_text};
ghost use Rattle.station_lines.specs.CommandLines.{text_of_command, with_commas, written_number, written_value};
ghost use Rattle.station_lines.specs.JournalLines.{entry_and, line_parts};

use catalogue_core::{Answer, Command, Entry, Refusal};
use dbf_fields::Literal;

// The most digits of a number of 64 bits, and a byte beside them.
const MAX_NUMBER: usize = 21;

// The words of a command, a value or an answer have no more bytes beside its texts, with one number.
const MAX_WORDS: usize = 64;

// How many bytes words with two texts have at most.
fn texts_bound(first: &[u8], second: &[u8]) -> usize
    ensures bound { result < usize.MAX → MAX_WORDS + length first.now + length second.now ≤ result }
{
    MAX_WORDS
        .saturating_add(first.len())
        .saturating_add(second.len())
}

// How many bytes words with a number have at most.
fn number_bound(number: u64) -> usize
    ensures bound { MAX_WORDS + length (decimal number) ≤ result }
{
    // The number counts for contracts alone.
    let _ = number;
    MAX_WORDS + MAX_NUMBER
}

// How many bytes words with a number that may have a sign have at most.
fn signed_bound(number: i64) -> usize
    ensures bound { MAX_WORDS + length (signed_decimal number) ≤ result }
{
    // The number counts for contracts alone.
    let _ = number;
    MAX_WORDS + MAX_NUMBER
}

// How many bytes words with numbers have at most, apart by commas.
fn numbers_bound(numbers: &[u64]) -> usize
    ensures bound { result < usize.MAX → MAX_WORDS + length (with_commas numbers.now) ≤ result }
{
    numbers
        .len()
        .saturating_mul(MAX_NUMBER)
        .saturating_add(MAX_WORDS)
}

// How many bytes a number with all its decimals has at most.
fn decimal_bound(digits: i128, scale: u8) -> usize
    ensures bound { length (written_number digits scale) ≤ result }
{
    // The digits count for contracts alone.
    let _ = digits;
    MAX_WORDS + usize::from(scale)
}

// How many bytes the line of a refusal has at most.
fn refusal_bound(refusal: Refusal) -> usize
    ensures bound { length (refusal_text refusal) ≤ result }
{
    // The refusal counts for contracts alone.
    let _ = refusal;
    MAX_WORDS
}

// How many bytes the word of a value has at most.
fn value_bound(value: &Literal) -> usize
    ensures bound { result < usize.MAX → length (written_value value.now) ≤ result }
{
    match value {
        Literal::Text(text) => texts_bound(text.as_slice(), b""),
        Literal::Number { digits, scale } => decimal_bound(digits.get(), *scale),
        Literal::Truth(_) => MAX_WORDS,
        Literal::Date(_) => MAX_WORDS,
        Literal::BlankDate => MAX_WORDS,
        Literal::BadDate => MAX_WORDS,
    }
}

// How many bytes the line of a command has at most.
fn command_bound(command: &Command) -> usize
    ensures bound { result < usize.MAX → length (text_of_command command.now) ≤ result }
{
    match command {
        Command::UseTable { name, exclusive: _ } => texts_bound(name.as_slice(), b""),
        Command::Seek(text) => texts_bound(text.as_slice(), b""),
        Command::Replace { field, value } => {
            texts_bound(field.as_slice(), b"").saturating_add(value_bound(value))
        }
        Command::Memo { field, text } => texts_bound(field.as_slice(), text.as_slice()),
        Command::IndexOn { expr, name } => texts_bound(expr.as_slice(), name.as_slice()),
        Command::Show(field) => texts_bound(field.as_slice(), b""),
        Command::RecordLocks(numbers) => numbers_bound(numbers.as_slice()),
        Command::Select(area) => number_bound(*area),
        Command::CloseTable => MAX_WORDS,
        Command::Go(record) => number_bound(*record),
        Command::Top => MAX_WORDS,
        Command::Bottom => MAX_WORDS,
        Command::Skip(records) => signed_bound(*records),
        Command::Order(order) => number_bound(*order),
        Command::AppendBlank => MAX_WORDS,
        Command::Delete => MAX_WORDS,
        Command::Recall => MAX_WORDS,
        Command::Pack => MAX_WORDS,
        Command::Unlock => MAX_WORDS,
        Command::UnlockAll => MAX_WORDS,
        Command::RecordLock => MAX_WORDS,
        Command::FileLock => MAX_WORDS,
        Command::Ask(_) => MAX_WORDS,
        Command::Bad => MAX_WORDS,
    }
}

// How many bytes the line of an answer has at most.
fn answer_bound(answer: &Answer) -> usize
    ensures bound { result < usize.MAX → length (line_of answer.now) ≤ result }
{
    match answer {
        Answer::Text(text) => texts_bound(text.as_slice(), b""),
        Answer::Done => MAX_WORDS,
        Answer::Number(number) => number_bound(*number),
        Answer::Truth(_) => MAX_WORDS,
        Answer::Refused(refusal) => refusal_bound(*refusal),
    }
}

/// As many bytes as the line of an entry has at most, or the greatest `usize`. The line is not made, and no memory is taken.
pub fn line_bound(entry: &Entry) -> usize
    ensures bound { result < usize.MAX → length (entry_and (line_parts entry.now) []) ≤ result }
{
    // The words before the two lines are three numbers with a blank after each; a blank and an LF stand after them.
    number_bound(u64::from(entry.station))
        .saturating_add(command_bound(&entry.command))
        .saturating_add(answer_bound(&entry.answer))
}
