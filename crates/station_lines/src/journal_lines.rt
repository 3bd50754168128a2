//! The journal as a file: a line an entry.

ghost use Rattle.std.specs.Prelude.{◌≡◌, ◌==◌, ◌++◌, ◌∷◌, List, [], ℕ, position, OnOk, IfOk, IfSome, IfNone};
ghost use Rattle.std.specs.Fmt.{decimal};
ghost use Rattle.dbf_fields.specs.declared.format.TheConstants.{BLANK};
ghost use Rattle.station_lines.specs.AnswerLines.{line_of};
ghost use Rattle.station_lines.specs.CommandLines.{text_of_command};
ghost use Rattle.station_lines.specs.JournalLines.{entry_and, lines_and, is_plain_number, HasSmallNumbers, HaveSmallNumbers, IsNoNumber, BeginsWithNumber, BeginsWithNoNumber, BeginsWithPart, BeginsWithNoPart, BeginsWithEntry, BeginsWithNoEntry};

use crate::answer_lines::append_answer;
use crate::command_lines::{append_command, append_number};
use crate::script::format::LF;
use byte_io::Bytes;
use catalogue_core::{Answer, Command};
use dbf_fields::{BLANK, ZERO_DIGIT, are_digits};
use std::alloc::{AllocError, Global};

// Appends a part of a line, and the byte after it.
fn append_part(line: &mut Vec<u8>, part: &[u8], after: u8) -> Result<(), AllocError>
    ensures ok { OnOk result (line.new.items ≡ line.old.items ++ (part.now ++ (after ∷ []))) }
{
    line.extend_from_slice(part)?;
    line.push(after)?;
    Ok(())
}

// Appends a number and a blank.
fn append_count(line: &mut Vec<u8>, count: u64) -> Result<(), AllocError>
    ensures ok { OnOk result (line.new.items ≡ line.old.items ++ (decimal count ++ (BLANK ∷ []))) }
{
    append_number(line, count)?;
    line.push(BLANK)?;
    Ok(())
}

// Appends the numbers that are first in an entry's line, each with a blank after it.
fn append_counts(line: &mut Vec<u8>, first: u64, second: u64, third: u64) -> Result<(), AllocError>
    ensures ok { OnOk result (line.new.items ≡ line.old.items ++ (decimal first ++ (BLANK ∷ (decimal second ++ (BLANK ∷ (decimal third ++ (BLANK ∷ []))))))) }
{
    append_count(line, first)?;
    append_count(line, second)?;
    append_count(line, third)
}

// Appends the line that shows these parts of an entry.
fn append_parts(
    line: &mut Vec<u8>,
    station: u32,
    command: &[u8],
    answer: &[u8],
) -> Result<(), AllocError>
    ensures ok { OnOk result (line.new.items ≡ line.old.items ++ entry_and (station, command.now, answer.now) []) }
{
    append_counts(
        line,
        u64::from(station),
        command.len() as u64,
        answer.len() as u64,
    )?;
    append_part(line, command, BLANK)?;
    append_part(line, answer, LF)
}

/// The line of an entry of the journal, made in memory that is used again for the next entry's.
#[derive(Drop)]
pub struct EntryLine {
    // The command's line and the answer's, one after the other.
    parts: Vec<u8>,
    line: Vec<u8>,
}

impl EntryLine {
    /// No line yet. Takes no memory.
    pub fn new(alloc: Global) -> EntryLine {
        EntryLine {
            parts: Vec::new(alloc),
            line: Vec::new(alloc),
        }
    }

    /// The line of an entry, with the LF that ends it, as `1 12 2 APPEND BLANK OK`: the station's number, how many bytes the
    /// command's line and the answer's line have, and these two lines, apart by one blank. These numbers are of 64 bits. An error where
    /// memory is refused.
    #[tactic(auto, using(crate::proofs::JournalLaws::entry_small))]
    pub fn of(
        &mut self,
        station: u32,
        command: &Command,
        answer: &Answer,
    ) -> Result<&[u8], AllocError>
        ensures value { IfOk result (λ line. line.now ≡ entry_and (station, text_of_command command.now, line_of answer.now) []) }
        ensures small { OnOk result (HasSmallNumbers (station, text_of_command command.now, line_of answer.now)) }
    {
        self.parts.clear();
        append_command(&mut self.parts, command)?;
        let command_length = self.parts.len();
        append_answer(&mut self.parts, answer)?;
        let (command, answer) = self.parts.as_slice().split_at(command_length);
        self.line.clear();
        append_parts(&mut self.line, station, command, answer)?;
        Ok(self.line.as_slice())
    }
}

/// The line of one entry of the journal, as [`EntryLine::of`] makes it. An error where memory is refused.
pub fn entry_line(
    alloc: Global,
    station: u32,
    command: &Command,
    answer: &Answer,
) -> Result<Bytes, AllocError>
    ensures value { IfOk result (λ line. line ≡ entry_and (station, text_of_command command.now, line_of answer.now) []) }
{
    let mut line = EntryLine::new(alloc);
    let line = line.of(station, command, answer)?;
    Bytes::from_slice(alloc, line)
}

/// An entry that is cut off a journal's text, and what stands after its line.
#[derive(Clone, Copy, Debug)]
pub struct CutEntry<'a> {
    /// The station's number.
    pub station: u64,
    /// The line of the command.
    pub command: &'a [u8],
    /// The line of the answer.
    pub answer: &'a [u8],
    /// What stands after the entry's line.
    pub rest: &'a [u8],
}

// Whether a text is digits, and no zero before others.
fn is_plain(text: &[u8]) -> bool
    ensures value { result ≡ is_plain_number text.now }
{
    !text.is_empty() && (text.len() == 1 || text[0] != ZERO_DIGIT) && are_digits(text)
}

/// The number of 64 bits that a text is as it is written: in digits, and with no zero before others. Takes no memory.
pub fn plain_number(text: &[u8]) -> Option<u64>
    ensures found { IfSome result (λ n. text.now ≡ decimal n) }
    ensures none { IfNone result (IsNoNumber text.now) }
{
    if !is_plain(text) {
        return None;
    }
    let Ok(digits) = str::from_utf8(text) else {
        return None;
    };
    match digits.parse::<u64>() {
        Ok(number) => Some(number),
        Err(_) => None,
    }
}

// Where the first blank stands.
fn blank_in(text: &[u8]) -> Option<usize>
    ensures value { result ≡ position (λ b. b == BLANK) text.now }
{
    text.iter().position(|byte| *byte == BLANK)
}

/// A number that is first in a text, with a blank after it, and what stands after this. Takes no memory.
pub fn cut_number(text: &[u8]) -> Option<(u64, &[u8])>
    ensures found { IfSome result (λ cut. BeginsWithNumber text.now cut.0 cut.1.now) }
    ensures none { IfNone result (BeginsWithNoNumber text.now) }
{
    let Some(end) = blank_in(text) else {
        return None;
    };
    let (digits, _) = text.split_at(end);
    let (_, rest) = text.split_at(end + 1);
    match plain_number(digits) {
        Some(number) => Some((number, rest)),
        None => None,
    }
}

/// As many bytes as are asked for, where this byte stands after them, and what stands after this. Takes no memory.
pub fn cut_part(text: &[u8], count: u64, end: u8) -> Option<(&[u8], &[u8])>
    ensures found { IfSome result (λ cut. BeginsWithPart text.now count end cut.0.now cut.1.now) }
    ensures none { IfNone result (BeginsWithNoPart text.now count end) }
{
    if count >= text.len() as u64 {
        return None;
    }
    let count = count as usize;
    if text[count] != end {
        return None;
    }
    let (part, _) = text.split_at(count);
    let (_, rest) = text.split_at(count + 1);
    Some((part, rest))
}

/// The entry whose line is first in a journal's text, and what stands after it. `None` where no entry's line is first:
/// an entry's line is cut back into its parts, in one way. Takes no memory.
pub fn cut_entry(text: &[u8]) -> Option<CutEntry<'_>>
    ensures found { IfSome result (λ cut. BeginsWithEntry text.now (cut.station, cut.command.now, cut.answer.now) cut.rest.now) }
    ensures none { IfNone result (BeginsWithNoEntry text.now) }
{
    let Some((station, after_station)) = cut_number(text) else {
        return None;
    };
    let Some((command_len, after_command_len)) = cut_number(after_station) else {
        return None;
    };
    let Some((answer_len, lines)) = cut_number(after_command_len) else {
        return None;
    };
    let Some((command, after_command)) = cut_part(lines, command_len, BLANK) else {
        return None;
    };
    let Some((answer, rest)) = cut_part(after_command, answer_len, LF) else {
        return None;
    };
    Some(CutEntry {
        station,
        command,
        answer,
        rest,
    })
}

/// Lines of a journal are cut into what they show in one way: no text is the lines of these entries and of others.
#[tactic(auto, using(crate::proofs::JournalLaws::lines_one))]
pub fn one_journal()
    ensures one { (a b : List (ℕ × List ℕ × List ℕ)) → HaveSmallNumbers a → HaveSmallNumbers b → lines_and a [] ≡ lines_and b [] → a ≡ b }
{}
