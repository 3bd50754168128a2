//! Runs over a folder that fails, or takes few bytes a call: which file is named, and what stands in the folder then.

use super::office::{Wish, serve_wish};
use byte_io::Bytes;
use folders::{MemoryFolder, OpenFile};
use office_run::{CloseFault, ServeFault};
use std::alloc::Global;
use std::process::Abort;
use std::sync::Wait;
use std::test::Fail;
use std::thread::Threads;

// A run of one table, whose journal is written.
const ONE_TABLE: Wish = (b"TABLE T t.dbf\nSTATION s.prg\n", 1987, true);

// A run of two tables, of which one has an index.
const TWO_TABLES: Wish = (
    b"TABLE T t.dbf\nTABLE E empty.dbf\nINDEX E X x.ndx\nSTATION s.prg\n",
    1987,
    false,
);

// A run of a table with an index, one with memos, and two stations, of which the second has no commands.
const SIX_FILES: Wish = (
    b"TABLE T empty.dbf\nINDEX T X x.ndx\nTABLE M m.dbf m.dbt\nSTATION s.prg\nSTATION nothing\n",
    1987,
    false,
);

// A folder of which this many calls succeed, and which takes this many bytes a call of `write` at most.
fn failing_folder(alloc: Global, calls: u64, most: usize) -> MemoryFolder {
    let mut folder = MemoryFolder::new(alloc);
    folder.calls = calls;
    folder.most = most;
    folder
}

// The name of the file that a run couldn't write, if so it ended.
fn unwritten(served: Result<u64, ServeFault>) -> Option<Bytes> {
    match served {
        Err(ServeFault::Close(CloseFault::Write(name))) => Some(name),
        _ => None,
    }
}

// Whether a run ended since it couldn't write the file of this name.
fn ended_at(served: Result<u64, ServeFault>, name: &[u8]) -> bool {
    match unwritten(served) {
        Some(file) => file.as_slice() == name,
        None => false,
    }
}

// What a folder has after a run of two commands.
fn folder_of<R: Threads + Wait + Sync>(
    rt: &R,
    alloc: Global,
    wish: Wish,
) -> Result<MemoryFolder, Fail> {
    let mut folder = MemoryFolder::new(alloc);
    match serve_wish(rt, alloc, wish, &mut folder)? {
        Ok(2) => Ok(folder),
        _ => Err("another count of commands".into()),
    }
}

// Whether two files have the same name and the same bytes.
fn is_same(file: &OpenFile, other: &OpenFile) -> bool {
    file.name.as_slice() == other.name.as_slice() && file.bytes.as_slice() == other.bytes.as_slice()
}

// Whether the first files of two folders, so many, are the same.
fn begin_alike(folder: &MemoryFolder, other: &MemoryFolder, count: usize) -> bool {
    for place in 0..count {
        match (folder.files.get(place), other.files.get(place)) {
            (Some(file), Some(wanted)) if is_same(file, wanted) => {}
            _ => return false,
        }
    }
    true
}

// Whether a folder has all files of another, and no more.
fn are_same(folder: &MemoryFolder, other: &MemoryFolder) -> bool {
    folder.files.len() == other.files.len() && begin_alike(folder, other, other.files.len())
}

// Whether a folder has this file, without bytes, as its last.
fn has_begun(folder: &MemoryFolder, name: &[u8]) -> bool {
    match folder.files.last() {
        Some(file) => file.name.as_slice() == name && file.bytes.is_empty(),
        None => false,
    }
}

// The file that a run of six files names where each call is the first that fails. The calls are `begin` and `write` of one file
// after another; the last has no bytes.
const NAMES: [&[u8]; 11] = [
    b"T.DBF",
    b"T.DBF",
    b"X.NDX",
    b"X.NDX",
    b"M.DBF",
    b"M.DBF",
    b"M.DBT",
    b"M.DBT",
    b"STATION1.TXT",
    b"STATION1.TXT",
    b"STATION2.TXT",
];

// Whether that run, into a folder of so many calls, names this file, and leaves the files before it whole and this one without
// bytes, or not begun.
fn leaves<R: Threads + Wait + Sync>(
    rt: &R,
    alloc: Global,
    (calls, name): (usize, &[u8]),
    whole: &MemoryFolder,
) -> Result<bool, Fail> {
    let mut folder = failing_folder(alloc, calls as u64, usize::MAX);
    let served = serve_wish(rt, alloc, SIX_FILES, &mut folder)?;
    let before = calls / 2;
    let is_begun = calls % 2 == 1;
    Ok(
        ended_at(served, name)
            && begin_alike(&folder, whole, before)
            && folder.files.len() == before + calls % 2
            && (!is_begun || has_begun(&folder, name)),
    )
}

// Asserts it of each call.
fn assert_left<R: Threads + Wait + Sync + Abort>(
    rt: &R,
    alloc: Global,
    whole: &MemoryFolder,
) -> Result<(), Fail> {
    for calls in 0..NAMES.len() {
        assert!(rt;
            leaves(rt, alloc, (calls, NAMES[calls]), whole)?,
            "at {calls}"
        );
    }
    Ok(())
}

#[test]
fn folder_fails_at_each_call(rt: HostRuntime) -> Result<(), Fail> {
    let whole = folder_of(&rt, rt.alloc(), SIX_FILES)?;
    assert_left(&rt, rt.alloc(), &whole)
}

// Whether a file has the name of a whole one and a front part of its bytes.
fn is_part(file: &OpenFile, whole: &OpenFile) -> bool {
    file.name.as_slice() == whole.name.as_slice()
        && whole.bytes.as_slice().starts_with(file.bytes.as_slice())
}

// Whether a folder has the files of a whole run before the one of this name, of that one a front part or nothing, and
// no other file.
fn is_cut_at(folder: &MemoryFolder, whole: &MemoryFolder, name: &[u8]) -> bool {
    for (place, file) in whole.files.iter().enumerate() {
        if file.name.as_slice() == name {
            let is_begun = match folder.files.get(place) {
                Some(begun) => is_part(begun, file),
                None => true,
            };
            return is_begun && folder.files.len() <= place.saturating_add(1);
        }
        match folder.files.get(place) {
            Some(written) if is_same(written, file) => {}
            _ => return false,
        }
    }
    false
}

// Whether a run came to its end, and its folder is as the whole one; where it didn't, its folder has what stands before the file
// that it names.
fn is_done(
    served: Result<u64, ServeFault>,
    folder: &MemoryFolder,
    whole: &MemoryFolder,
) -> Result<bool, Fail> {
    if served == Ok(2) {
        return match are_same(folder, whole) {
            true => Ok(true),
            false => Err("other files".into()),
        };
    }
    match unwritten(served) {
        Some(name) if is_cut_at(folder, whole, name.as_slice()) => Ok(false),
        _ => Err("another ending".into()),
    }
}

// Whether the run comes to its end in a folder of this many calls, which takes this many bytes a call at most.
fn ends_in<R: Threads + Wait + Sync>(
    rt: &R,
    alloc: Global,
    (wish, calls, most): (Wish, u64, usize),
    whole: &MemoryFolder,
) -> Result<bool, Fail> {
    let mut folder = failing_folder(alloc, calls, most);
    let served = serve_wish(rt, alloc, wish, &mut folder)?;
    is_done(served, &folder, whole)
}

// How many calls of the folder the run needs that takes this many bytes a call at most. One call after another is the
// first that fails until none does; each time what is left is looked at.
fn calls_of_run<R: Threads + Wait + Sync>(
    rt: &R,
    alloc: Global,
    (wish, most): (Wish, usize),
    whole: &MemoryFolder,
) -> Result<u64, Fail> {
    for calls in 0..1_000 {
        if ends_in(rt, alloc, (wish, calls, most), whole)? {
            return Ok(calls);
        }
    }
    Err("too many calls".into())
}

// How many calls the run needs of a folder that takes all bytes in one call, and of one that takes 32.
fn calls_of_both<R: Threads + Wait + Sync>(
    rt: &R,
    alloc: Global,
    wish: Wish,
) -> Result<[u64; 2], Fail> {
    let whole = folder_of(rt, alloc, wish)?;
    let calls = calls_of_run(rt, alloc, (wish, usize::MAX), &whole)?;
    Ok([calls, calls_of_run(rt, alloc, (wish, 32), &whole)?])
}

// The calls are `begin` of each file, and `write` once for each 32 bytes or part of them, or once a file. The files of the first
// run have 88, 5 and 476 bytes, those of the second 88, 66, 1,024 and 5.
#[test]
fn each_call_of_the_folder_fails_in_turn(rt: HostRuntime) -> Result<(), Fail> {
    for (wish, calls) in [(ONE_TABLE, [6, 22]), (TWO_TABLES, [8, 43])] {
        assert_eq!(rt; calls_of_both(&rt, rt.alloc(), wish)?, calls);
    }
    Ok(())
}

// Whether a run writes the same files into a folder that takes this many bytes a call.
fn writes_the_same<R: Threads + Wait + Sync>(
    rt: &R,
    alloc: Global,
    wish: Wish,
    most: usize,
) -> Result<bool, Fail> {
    let whole = folder_of(rt, alloc, wish)?;
    ends_in(rt, alloc, (wish, u64::MAX, most), &whole)
}

#[test]
fn folder_that_takes_few_bytes_a_call_has_the_same_files(rt: HostRuntime) -> Result<(), Fail> {
    for (wish, most) in [(ONE_TABLE, 1), (TWO_TABLES, 1), (SIX_FILES, 7)] {
        assert!(rt; writes_the_same(&rt, rt.alloc(), wish, most)?);
    }
    Ok(())
}

// Years of which no table can have a date, and whether the journal is written.
const OTHER_YEARS: [(u16, bool); 3] = [(2156, false), (1899, false), (2156, true)];

// Whether a run in a year begins no file, since the date is outside.
fn is_outside<R: Threads + Wait + Sync>(
    rt: &R,
    alloc: Global,
    (year, journal): (u16, bool),
) -> Result<bool, Fail> {
    let (setup, _, _) = ONE_TABLE;
    let mut folder = MemoryFolder::new(alloc);
    let served = serve_wish(rt, alloc, (setup, year, journal), &mut folder)?;
    let outside = ServeFault::Close(CloseFault::DateOutside);
    Ok(served == Err(outside) && folder.files.is_empty())
}

#[test]
fn other_years_begin_no_file(rt: HostRuntime) -> Result<(), Fail> {
    for year in OTHER_YEARS {
        assert!(rt; is_outside(&rt, rt.alloc(), year)?);
    }
    Ok(())
}
