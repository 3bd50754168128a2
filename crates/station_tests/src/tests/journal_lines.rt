//! Lines of a journal, as they are written by hand, and texts that begin with none.

use byte_io::Bytes;
use catalogue_core::{Answer, Command, Entry, Refusal};
use station_lines::{Line, cut_entry, entry_line, line_bound, parse_line};
use std::alloc::{AllocError, Global};
use std::test::Fail;

// An answer, of a text its bytes.
#[derive(Clone, Copy)]
enum Said {
    Done,
    Number(u64),
    Truth(bool),
    Text(&'static [u8]),
    Refused(Refusal),
}

// The station, a line of a command, its answer, and the line of the entry: the command's line and the answer's.
const ENTRIES: [(u32, &[u8], Said, &[u8]); 15] = [
    (1, b"appe blan", Said::Done, b"1 12 2 APPEND BLANK OK\n"),
    (
        16,
        b"? lock(16,17)",
        Said::Truth(false),
        b"16 14 3 ? RLOCK(16,17) .F.\n",
    ),
    (2, b"? recno()", Said::Number(31), b"2 9 2 ? RECNO() 31\n"),
    (2, b"? notes", Said::Text(b""), b"2 7 0 ? NOTES \n"),
    (
        3,
        b"use staff excl",
        Said::Refused(Refusal::TableInUse),
        b"3 19 20 USE STAFF EXCLUSIVE REFUSED 3 TableInUse\n",
    ),
    (
        3,
        b"frob",
        Said::Refused(Refusal::BadCommand),
        b"3 3 21 BAD REFUSED 19 BadCommand\n",
    ),
    (
        4,
        b"seek 'it is \"x\"'",
        Said::Truth(true),
        b"4 16 3 SEEK 'it is \"x\"' .T.\n",
    ),
    (
        4,
        b"seek \"it's\"",
        Said::Truth(true),
        b"4 11 3 SEEK \"it's\" .T.\n",
    ),
    (
        5,
        b"memo notes with '\x80\xff\x1a\r 1 2 3 '",
        Said::Done,
        b"5 29 2 MEMO NOTES WITH \"\x80\xff\x1a\r 1 2 3 \" OK\n",
    ),
    (
        10,
        b"? notes",
        Said::Text(b"\r\n1 12 2 APPEND BLANK OK\n"),
        b"10 7 25 ? NOTES \r\n1 12 2 APPEND BLANK OK\n\n",
    ),
    (
        10,
        b"? notes",
        Said::Text(b"\x1a\x1a\n\0 \xff"),
        b"10 7 6 ? NOTES \x1a\x1a\n\0 \xff\n",
    ),
    (
        4_294_967_295,
        b"pack",
        Said::Done,
        b"4294967295 4 2 PACK OK\n",
    ),
    // A table is full at a thousand million records.
    (
        1,
        b"append blank",
        Said::Refused(Refusal::TableFull),
        b"1 12 20 APPEND BLANK REFUSED 17 TableFull\n",
    ),
    (
        2,
        b"? reccount()",
        Said::Number(4_294_967_295),
        b"2 12 10 ? RECCOUNT() 4294967295\n",
    ),
    (
        2,
        b"? reccount()",
        Said::Number(0),
        b"2 12 1 ? RECCOUNT() 0\n",
    ),
];

// Texts that begin with no entry's line: each is cut off, or has one thing wrong.
const NO_ENTRIES: [&[u8]; 20] = [
    b"",
    b"\n",
    b"1",
    b"1 ",
    b" 1 4 2 PACK OK\n",
    b"1 4 2",
    b"1 4 2 PACK",
    b"1 4 2 PACK OK",
    b"1 4 2 PACK O\n",
    b"1 4 2 PACK OK\r\n",
    b"1 4 1 PACK OK\n",
    b"1 5 2 PACK OK\n",
    b"01 4 2 PACK OK\n",
    b"1 04 2 PACK OK\n",
    b"1  4 2 PACK OK\n",
    b"1 4 00000000002 PACK OK\n",
    b"+1 4 2 PACK OK\n",
    b"1 18446744073709551616 2 PACK OK\n",
    b"1 18446744073709551615 2 PACK OK\n",
    b"1 4 \xb2 PACK OK\n",
];

fn answer_of(alloc: Global, said: Said) -> Result<Answer, AllocError> {
    Ok(match said {
        Said::Done => Answer::Done,
        Said::Number(number) => Answer::Number(number),
        Said::Truth(truth) => Answer::Truth(truth),
        Said::Text(text) => Answer::Text(Bytes::from_slice(alloc, text)?),
        Said::Refused(refusal) => Answer::Refused(refusal),
    })
}

// Whether the entry of a command and what is said to it has this line.
fn has_line(
    alloc: Global,
    station: u32,
    command: &Command,
    said: Said,
    wanted: &[u8],
) -> Result<bool, AllocError> {
    let answer = answer_of(alloc, said)?;
    Ok(entry_line(alloc, station, command, &answer)?.as_slice() == wanted)
}

// Whether the entry of a line's command has this line.
fn is_written(
    alloc: Global,
    station: u32,
    line: &[u8],
    said: Said,
    wanted: &[u8],
) -> Result<bool, AllocError> {
    match parse_line(alloc, line)? {
        Line::Run(command) => has_line(alloc, station, &command, said, wanted),
        _ => Ok(false),
    }
}

// The index of the first entry that has another line.
fn first_miswritten(alloc: Global) -> Result<Option<usize>, AllocError> {
    for i in 0..ENTRIES.len() {
        let (station, line, said, wanted) = ENTRIES[i];
        if !is_written(alloc, station, line, said, wanted)? {
            return Ok(Some(i));
        }
    }
    Ok(None)
}

// Whether the bound of an entry is a line's length, or at most 300 bytes over it.
fn is_near(entry: &Entry, length: usize) -> bool {
    let bound = line_bound(entry);
    bound >= length && bound.saturating_sub(length) <= 300
}

// Whether the bound of the entry of a line's command is near this length.
fn is_bound_near(
    alloc: Global,
    station: u32,
    line: &[u8],
    said: Said,
    length: usize,
) -> Result<bool, AllocError> {
    let answer = answer_of(alloc, said)?;
    match parse_line(alloc, line)? {
        Line::Run(command) => {
            let entry = Entry {
                station,
                command,
                answer,
            };
            Ok(is_near(&entry, length))
        }
        _ => Ok(false),
    }
}

// The index of the first entry whose bound is less than its line's length, or more than 300 bytes over it.
fn first_far_bound(alloc: Global) -> Result<Option<usize>, AllocError> {
    for i in 0..ENTRIES.len() {
        let (station, line, said, wanted) = ENTRIES[i];
        if !is_bound_near(alloc, station, line, said, wanted.len())? {
            return Ok(Some(i));
        }
    }
    Ok(None)
}

#[test]
fn bounds_are_near_the_lines(rt: HostRuntime) -> Result<(), Fail> {
    assert_eq!(rt; first_far_bound(rt.alloc())?, None);
    Ok(())
}

#[test]
fn entries_have_their_lines(rt: HostRuntime) -> Result<(), Fail> {
    assert_eq!(rt; first_miswritten(rt.alloc())?, None);
    Ok(())
}

#[test]
fn other_texts_begin_with_no_entry(rt: HostRuntime) -> Result<(), Fail> {
    for text in NO_ENTRIES {
        assert!(rt; cut_entry(text).is_none());
    }
    Ok(())
}
