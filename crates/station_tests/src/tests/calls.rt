//! Calls of stations: lines of scripts, and the lines of their answers.

use catalogue_core::{Answer, Command};
use station_lines::{Line, answer_line, parse_line};
use std::alloc::{AllocError, Global};
use std::test::Fail;

/// A station, its line, and the line of its answer.
pub type Call = (u32, &'static [u8], &'static [u8]);

/// The command that a line means.
pub(crate) fn command_of(alloc: Global, line: &[u8]) -> Result<Command, Fail> {
    match parse_line(alloc, line)? {
        Line::Run(command) => Ok(command),
        _ => Err("the line means no command".into()),
    }
}

/// Whether an answer has this line.
pub(crate) fn is_said(alloc: Global, answer: &Answer, line: &[u8]) -> Result<bool, AllocError> {
    Ok(answer_line(alloc, answer)?.as_slice() == line)
}

/// The calls of two stations on one record.
pub const TWO_STATIONS: [Call; 7] = [
    (1, b"USE T", b"OK"),
    (2, b"USE T", b"OK"),
    (1, b"? RLOCK()", b".T."),
    (2, b"? RLOCK()", b".F."),
    (2, b"REPLACE NAME WITH \"X\"", b"REFUSED 5 NotLocked"),
    (1, b"UNLOCK", b"OK"),
    (2, b"? RLOCK()", b".T."),
];

/// The calls of one station that has locked its table.
pub const FILE_LOCKED: [Call; 3] = [
    (1, b"USE T", b"OK"),
    (1, b"GO TOP", b"OK"),
    (1, b"? FLOCK()", b".T."),
];

/// The calls of two stations that lock lists of records.
pub const LISTED: [Call; 7] = [
    (1, b"USE T", b"OK"),
    (2, b"USE T", b"OK"),
    (1, b"? RLOCK(1,3)", b".T."),
    (2, b"? RLOCK(2,3)", b".F."),
    (2, b"? RLOCK(2)", b".T."),
    (2, b"? FLOCK()", b".F."),
    (1, b"? RLOCK(3,3)", b".T."),
];

/// The same, and one more, after which station 2 has the records 1 and 2 locked.
pub const LISTED_AND_ONE: [Call; 8] = [
    (1, b"USE T", b"OK"),
    (2, b"USE T", b"OK"),
    (1, b"? RLOCK(1,3)", b".T."),
    (2, b"? RLOCK(2,3)", b".F."),
    (2, b"? RLOCK(2)", b".T."),
    (2, b"? FLOCK()", b".F."),
    (1, b"? RLOCK(3,3)", b".T."),
    (2, b"? RLOCK(1,2)", b".T."),
];
