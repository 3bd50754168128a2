//! Clerks who type very much, and read slowly.

use crate::clerks::{Clerk, Then, Turn};
use crate::living::{LeftDay, live};
use live_stations::LinesEnd;
use std::alloc::{AllocError, Global};
use std::fs::File;
use std::rt::{Files, Runtime};
use std::sync::Wait;
use std::test::Fail;
use std::thread::Threads;

// Lines that each clerk types again and again after USE T, and their answers.
const LINES: [&[u8]; 2] = [
    b"GO 2\n? RECNO()\nGO 1\n? RECNO()\n? EOF()\n",
    b"? RECNO()\nSKIP\n? EOF()\nGO 1\nnonsense\n",
];

const ANSWERS: [&[u8]; 2] = [
    b"OK\n2\nOK\n1\n.F.\n",
    b"1\nOK\n.F.\nOK\nREFUSED 19 BadCommand\n",
];

// How many lines these are.
const BLOCK: u64 = 5;

// How often two clerks type them, who read at once. The first types all at once, and the second waits for the answers of each five.
const EVEN: [u64; 2] = [40, 40];

// How often they do where the first reads nothing before the second has all answers: more than may wait for a station.
const UNEVEN: [u64; 2] = [1_400, 40];

// A text after another, so many times.
fn repeated(alloc: Global, first: &[u8], block: &[u8], times: u64) -> Result<Vec<u8>, AllocError> {
    let mut text = Vec::new(alloc);
    text.extend_from_slice(first)?;
    for _ in 0..times {
        text.extend_from_slice(block)?;
    }
    Ok(text)
}

// The turns of a clerk who types the lines of a block once the block before is answered at the own station.
fn turns_of<'a>(
    alloc: Global,
    station: usize,
    block: &'a [u8],
    times: u64,
) -> Result<Vec<Turn<'a>>, AllocError> {
    let mut turns: Vec<Turn<'a>> = Vec::new(alloc);
    turns.push((station, 0, b"USE T\n"))?;
    for done in 0..times {
        turns.push((station, answer_count(done), block))?;
    }
    Ok(turns)
}

// How many answers a station has.
fn answer_count(times: u64) -> u64 {
    times.saturating_mul(BLOCK).saturating_add(1)
}

// Whether a station was answered all its lines.
fn is_answered(
    alloc: Global,
    day: &LeftDay,
    station: usize,
    (answers, times): (&[u8], u64),
) -> Result<bool, AllocError> {
    let wanted = repeated(alloc, b"OK\n", answers, times)?;
    Ok(day.is_whole(station, wanted.as_slice(), LinesEnd::Ended))
}

// Whether both stations were.
fn are_answered(alloc: Global, day: &LeftDay, times: [u64; 2]) -> Result<bool, Fail> {
    let first = is_answered(alloc, day, 1, (ANSWERS[0], times[0]))?;
    let second = is_answered(alloc, day, 2, (ANSWERS[1], times[1]))?;
    let count = answer_count(times[0]).saturating_add(answer_count(times[1]));
    Ok(first && second && day.count() == Some(count) && day.all_heard)
}

// A day of two clerks who type their lines so often, of whom the first reads once this was shown.
fn live_many<R: Runtime + Files<File = File> + AllocGlobal + Threads + Wait + Sync>(
    rt: &R,
    times: [u64; 2],
    waits: Option<(usize, u64)>,
) -> Result<LeftDay, Fail> {
    let first = repeated(rt.alloc(), b"USE T\n", LINES[0], times[0])?;
    let second = turns_of(rt.alloc(), 2, LINES[1], times[1])?;
    let turns: [Turn<'_>; 1] = [(1, 0, first.as_slice())];
    let mut slow = Clerk::new(&turns, Then::Ends);
    slow.waits = waits;
    let clerks = [slow, Clerk::new(second.as_slice(), Then::Ends)];
    live(rt, "many", &clerks)
}

// Whether two clerks are answered all their lines, of whom the first reads once this was shown.
fn ends_whole<R: Runtime + Files<File = File> + AllocGlobal + Threads + Wait + Sync>(
    rt: &R,
    times: [u64; 2],
    waits: Option<(usize, u64)>,
) -> Result<bool, Fail> {
    let day = live_many(rt, times, waits)?;
    are_answered(rt.alloc(), &day, times)
}

#[test]
fn two_clerks_with_very_many_lines_are_answered_all(rt: HostRuntime) -> Result<(), Fail> {
    assert!(rt; ends_whole(&rt, EVEN, None)?);
    Ok(())
}

#[test]
fn nobody_waits_for_a_clerk_who_does_not_read(rt: HostRuntime) -> Result<(), Fail> {
    assert!(rt; ends_whole(&rt, UNEVEN, Some((2, answer_count(UNEVEN[1]))))?);
    Ok(())
}
