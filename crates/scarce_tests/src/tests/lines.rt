//! Lines of commands, of answers and of a journal's entry, and what is copied of commands and answers.

use super::sample::Sample;
use super::sweep::{Calls, assert_all};
use byte_io::Bytes;
use catalogue_core::{Answer, Command, MAX_TABLES, Refusal, StatusRow, TableStatus};
use shared_catalogue::{Receipt, Receipts};
use station_lines::{Line, answer_line, command_line, entry_line, parse_line, status_line};
use std::alloc::{AllocError, Global};
use std::test::Fail;

// A line of each command that keeps a text or numbers.
const LINES: [&[u8]; 7] = [
    b"USE T EXCLUSIVE",
    b"REPLACE NAME WITH \"Eve\"",
    b"MEMO NOTE WITH \"later\"",
    b"INDEX ON UPPER(NAME) TO BYUPPER",
    b"SEEK \"BO\"",
    b"? NAME",
    b"? RLOCK(1,12)",
];

/// The command of a line.
pub(super) fn command_of(alloc: Global, line: &[u8]) -> Result<Command, Fail> {
    match parse_line(alloc, line)? {
        Line::Run(command) => Ok(command),
        _ => Err("the line is no command".into()),
    }
}

// Whether a line is read as a command.
fn reads(alloc: Global, line: &[u8], command: &Command) -> Result<bool, AllocError> {
    match parse_line(alloc, line)? {
        Line::Run(found) => Ok(found == *command),
        _ => Ok(false),
    }
}

// Whether a command is copied as it is, and has a line.
fn tells(alloc: Global, command: &Command, line: &[u8]) -> Result<bool, AllocError> {
    let copy = command.copy(alloc)?;
    Ok(copy == *command && command_line(alloc, &copy)?.as_slice() == line)
}

// Whether an answer is copied as it is, and has a line.
fn answers(alloc: Global, answer: &Answer, line: &[u8]) -> Result<bool, AllocError> {
    let copy = answer.copy(alloc)?;
    Ok(copy == *answer && answer_line(alloc, &copy)?.as_slice() == line)
}

// The answer that is a text.
fn text(alloc: Global) -> Result<Answer, AllocError> {
    Ok(Answer::Text(Bytes::from_slice(alloc, b"ADA")?))
}

// Whether the receipt of a command is copied and kept as the only one, and the list of it is copied as it is.
fn keeps_receipt(alloc: Global, command: &Command) -> Result<bool, AllocError> {
    let command = command.copy(alloc)?;
    let answer = text(alloc)?;
    let receipt = Receipt { command, answer };
    let mut receipts = Receipts::new(alloc);
    receipts.push(receipt.copy(alloc)?)?;
    let copy = receipts.copy(alloc)?;
    let all = copy.as_slice();
    Ok(all.len() == 1 && all[0] == receipt && copy == receipts)
}

// Whether the line of an entry is told.
fn tells_entry(alloc: Global, command: &Command, line: &[u8]) -> Result<bool, AllocError> {
    let found = entry_line(alloc, 16, command, &Answer::Truth(false))?;
    Ok(found.as_slice() == line)
}

// A row of seven entries, of which the last was a refusal of station 2, where station 1 has the first table for itself.
fn row() -> StatusRow {
    let mut tables = [TableStatus {
        holder: 0,
        record_locks: 0,
    }; MAX_TABLES];
    tables[0].holder = 1;
    StatusRow {
        journal_length: 7,
        last_station: 2,
        last_answer: 112,
        tables,
    }
}

// Whether the line of that row is told.
fn tells_row(alloc: Global, line: &[u8]) -> Result<bool, AllocError> {
    Ok(status_line(alloc, &row())?.as_slice() == line)
}

// Calls on a line and its command.
#[derive(Drop)]
struct OfCommand {
    line: &'static [u8],
    command: Command,
}

impl Calls for OfCommand {
    fn make(&self, alloc: Global, _sample: &mut Sample, number: usize) -> Result<bool, AllocError> {
        match number {
            0 => reads(alloc, self.line, &self.command),
            1 => tells(alloc, &self.command, self.line),
            2 => keeps_receipt(alloc, &self.command),
            _ => Ok(false),
        }
    }
}

// The calls on a line.
fn of_command(alloc: Global, line: &'static [u8]) -> Result<OfCommand, Fail> {
    let command = command_of(alloc, line)?;
    Ok(OfCommand { line, command })
}

#[test]
fn each_call_of_commands_where_memory_is_refused(rt: HostRuntime) -> Result<(), Fail> {
    for line in LINES {
        assert_all(&rt, rt.alloc(), &of_command(rt.alloc(), line)?, 3)?;
    }
    Ok(())
}

// Calls that tell lines, and the command of one.
#[derive(Drop)]
struct OfLines {
    locks: Command,
}

impl Calls for OfLines {
    fn make(&self, alloc: Global, _sample: &mut Sample, number: usize) -> Result<bool, AllocError> {
        match number {
            0 => answers(alloc, &text(alloc)?, b"ADA"),
            1 => answers(alloc, &Answer::Done, b"OK"),
            2 => answers(alloc, &Answer::Number(4_294_967_295), b"4294967295"),
            3 => answers(alloc, &Answer::Truth(true), b".T."),
            4 => answers(
                alloc,
                &Answer::Refused(Refusal::NumberTooWide),
                b"REFUSED 12 NumberTooWide",
            ),
            5 => tells_row(
                alloc,
                b"STATUS 7 2 112 1 0 0 0 0 0 0 0 0 0 0 0 0 0 0 0 0 0 0 0",
            ),
            6 => tells_entry(alloc, &self.locks, b"16 14 3 ? RLOCK(16,17) .F.\n"),
            _ => Ok(false),
        }
    }
}

#[test]
fn each_line_is_told_where_memory_is_refused(rt: HostRuntime) -> Result<(), Fail> {
    let alloc = rt.alloc();
    let locks = command_of(alloc, b"? RLOCK(16,17)")?;
    assert_all(&rt, alloc, &OfLines { locks }, 7)
}
