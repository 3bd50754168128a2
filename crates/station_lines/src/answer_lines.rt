//! Answers as lines of an answer file.

ghost use Rattle.std.specs.Prelude.{◌≡◌, ◌++◌, OnOk, IfOk};
ghost use Rattle.station_lines.specs.AnswerLines.{line_of, refusal_text, numbers_text, status_text};

use crate::command_lines::append_number;
use byte_io::Bytes;
use catalogue_core::{Answer, Refusal, StatusRow};
use std::alloc::{AllocError, Global};

// Appends a refusal's number and name.
fn append_refusal(line: &mut Vec<u8>, refusal: Refusal) -> Result<(), AllocError>
    ensures ok { OnOk result (line.new.items ≡ line.old.items ++ refusal_text refusal) }
{
    line.extend_from_slice(b"REFUSED ")?;
    append_number(line, u64::from(refusal.code()))?;
    line.push(b' ')?;
    line.extend_from_slice(refusal.name().as_bytes())
}

/// Appends the text of an answer, as [`answer_line`] makes it. An error where memory is refused: a front part of it may have been
/// appended then.
pub fn append_answer(line: &mut Vec<u8>, answer: &Answer) -> Result<(), AllocError>
    ensures ok { OnOk result (line.new.items ≡ line.old.items ++ line_of answer.now) }
{
    match answer {
        Answer::Done => line.extend_from_slice(b"OK"),
        Answer::Number(number) => append_number(line, *number),
        Answer::Truth(true) => line.extend_from_slice(b".T."),
        Answer::Truth(false) => line.extend_from_slice(b".F."),
        Answer::Text(text) => line.extend_from_slice(text.as_slice()),
        Answer::Refused(refusal) => append_refusal(line, *refusal),
    }
}

/// The text of an answer in an answer file, without the LF that ends its line: `OK`, a number in
/// decimal digits, `.T.` or `.F.`, the bytes of a text, or `REFUSED` with the refusal's number and
/// name. An error where memory is refused.
pub fn answer_line(alloc: Global, answer: &Answer) -> Result<Bytes, AllocError>
    ensures value { IfOk result (λ line. line ≡ line_of answer.now) }
{
    let mut line = Vec::new(alloc);
    append_answer(&mut line, answer)?;
    Ok(Bytes::from_vec(line))
}

// Appends numbers, each after one blank.
fn append_numbers(line: &mut Vec<u8>, numbers: &[u64]) -> Result<(), AllocError>
    ensures ok { OnOk result (line.new.items ≡ line.old.items ++ numbers_text numbers.now) }
{
    for number in numbers {
        line.push(b' ')?;
        append_number(line, *number)?;
    }
    Ok(())
}

/// Appends the text of a status row, as [`status_line`] makes it. An error where memory is refused: a front part of it may have been
/// appended then.
pub fn append_status(line: &mut Vec<u8>, row: &StatusRow) -> Result<(), AllocError>
    ensures ok { OnOk result (line.new.items ≡ line.old.items ++ status_text row.now) }
{
    line.extend_from_slice(b"STATUS")?;
    append_numbers(line, &row.words())
}

/// The text of DISPLAY STATUS in an answer file, without the LF that ends its line: `STATUS` and the 23
/// numbers of the row, each after one blank. An error where memory is refused.
pub fn status_line(alloc: Global, row: &StatusRow) -> Result<Bytes, AllocError>
    ensures value { IfOk result (λ line. line ≡ status_text row.now) }
{
    let mut line = Vec::new(alloc);
    append_status(&mut line, row)?;
    Ok(Bytes::from_vec(line))
}
