//! Days whose disk fails.

use crate::clerks::{Clerk, Then};
use crate::living::{Left, LeftDay, live_at};
use crate::samples::{SETUP, empty_folder, source};
use byte_io::Bytes;
use folders::LoadFault;
use live_log::LogFault;
use live_program::{LOG_NAME, LiveFailure, Places};
use memory_disk::MemoryDisk;
use program_frame::{Beside, Ending, Failure, PlaceFault};
use std::alloc::Global;
use std::fs::File;
use std::rt::{Files, Runtime};
use std::sync::Wait;
use std::test::Fail;
use std::thread::Threads;

// A system with a folder in memory, whose disk does so many calls, and then all fail.
#[derive(Drop)]
pub(crate) struct FailingPlaces {
    pub(crate) calls: u64,
}

impl Places for FailingPlaces {
    type Disk = MemoryDisk;

    ghost opens = { λ _ _ _. Unit {0} };

    ghost names_log = { λ _ _ _. Unit {0} };

    fn open(&self, alloc: Global, _path: &str) -> Result<Option<MemoryDisk>, PlaceFault> {
        Ok(Some(empty_folder(alloc, self.calls)))
    }

    fn log_path(&self, alloc: Global, _folder: &str) -> Result<Bytes, PlaceFault> {
        Ok(Bytes::from_slice(alloc, LOG_NAME)?)
    }
}

// No file lies beside those that a day reads.
impl Beside for FailingPlaces {
    ghost answers = { λ _ _ _. Unit {0} };

    ghost lies = { λ _ _ _. Unit {0} };

    fn read_if_there(&self, _alloc: Global, _path: &[u8]) -> Result<Option<Bytes>, LoadFault> {
        Ok(None)
    }

    // All that a day reads lies in the folder of its log.
    fn lies_in(&self, _alloc: Global, _path: &[u8], _folder: &str) -> Result<bool, LoadFault> {
        Ok(true)
    }
}

// What two clerks are answered.
const ANSWERS: [&[u8]; 2] = [b"OK\nOK\n2\n", b"OK\n.T.\nOK\n"];

// More calls of the disk than such a day makes.
const CALLS: u64 = 100;

// How a day ends.
#[derive(Clone, Copy, PartialEq, Eq)]
enum End {
    // It was not begun.
    Unbegun,
    // A line was performed whose entry may not be in the log.
    Log,
    // Its files were not written.
    Unclosed,
    // It was closed.
    Closed,
}

// How a day ended.
fn end_of(day: &LeftDay) -> End {
    match &day.ended {
        Ok(_) => End::Closed,
        Err(Ending::Failed(Failure::Work(LiveFailure::Log(LogFault::Failed)))) => End::Log,
        Err(_) => {
            if day.opens == 0 {
                End::Unbegun
            } else {
                End::Unclosed
            }
        }
    }
}

// What a station was shown, where it has a screen.
fn shown_at(day: &LeftDay, station: usize) -> &[u8] {
    match day.station(station) {
        Some(
            Left {
                shown: Some(shown),
                ..
            },
        ) => shown.as_slice(),
        _ => b"",
    }
}

// Whether so much was shown as belongs to such an end: the first of the answers, all of them where all lines were answered, not all where
// the log has failed, and none where no day was begun.
fn is_shown(day: &LeftDay, end: End) -> bool {
    let mut are_all = true;
    let mut are_none = true;
    for (number, answers) in (1..).zip(ANSWERS) {
        let shown = shown_at(day, number);
        if !answers.starts_with(shown) {
            return false;
        }
        are_all = are_all && shown.len() == answers.len();
        are_none = are_none && shown.is_empty();
    }
    match end {
        End::Unbegun => are_none,
        End::Log => !are_all,
        End::Unclosed | End::Closed => are_all,
    }
}

// How a day ended. An error where something else was shown than belongs to that.
fn shown_end(day: &LeftDay) -> Result<End, Fail> {
    let end = end_of(day);
    if !is_shown(day, end) {
        return Err("other answers".into());
    }
    Ok(end)
}

// How a day ends whose disk does so many calls.
fn ends_on<R: Runtime + Files<File = File> + AllocGlobal + Threads + Wait + Sync>(
    rt: &R,
    calls: u64,
) -> Result<End, Fail> {
    let source = source(rt.alloc(), SETUP, u64::MAX)?;
    let clerks = [
        Clerk::new(&[(1, 0, b"USE T\nGO 2\n? RECNO()\n")], Then::Ends),
        Clerk::new(
            &[(2, 0, b"USE T\n"), (2, 0, b"? RLOCK()\nDELETE\n")],
            Then::Ends,
        ),
    ];
    let day = live_at(rt, &FailingPlaces { calls }, source, "no_folder", &clerks)?;
    shown_end(&day)
}

// How days end whose disks do ever more calls.
fn ends_of<R: Runtime + Files<File = File> + AllocGlobal + Threads + Wait + Sync>(
    rt: &R,
) -> Result<Vec<End>, Fail> {
    let mut ends = Vec::new(rt.alloc());
    for calls in 0..CALLS {
        ends.push(ends_on(rt, calls)?)?;
    }
    Ok(ends)
}

// Whether days ended in each way.
fn are_all_ends(ends: &[End]) -> bool {
    ends.contains(&End::Unbegun)
        && ends.contains(&End::Log)
        && ends.contains(&End::Unclosed)
        && ends.contains(&End::Closed)
}

#[test]
fn a_disk_that_fails_ends_the_day_and_its_threads(rt: HostRuntime) -> Result<(), Fail> {
    let ends = ends_of(&rt)?;
    assert!(rt; are_all_ends(&ends));
    Ok(())
}
