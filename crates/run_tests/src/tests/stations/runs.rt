//! What stations are answered that work at the same time. The answers are those of dBASE's rules on areas and locks.

use super::gates::{InOrder, Meeting};
use super::{repeated, run_on, run_sixteen, source, texts};
use byte_io::Bytes;
use office_run::{Gate, OpenGate, Outcome, RunFault};
use station_lines::lines;
use std::alloc::Global;
use std::sync::Wait;
use std::test::Fail;
use std::thread::Threads;

// Whether a run of two stations has these answers, and a journal of so many entries.
fn has_told(outcome: &Outcome, answers: [&[u8]; 2], entries: u64) -> bool {
    let [first, second] = answers;
    match outcome.answers.as_slice() {
        [own, other] => {
            own.as_slice() == first
                && other.as_slice() == second
                && outcome.closed.entry_count() == entries
        }
        _ => false,
    }
}

// Whether a run of these scripts on the sample's table has these answers, and a journal of so many entries.
fn tells<G: Gate + Sync, R: Threads + Wait + Sync>(
    rt: &R,
    alloc: Global,
    scripts: [&[u8]; 2],
    gate: &G,
    (answers, entries): ([&[u8]; 2], u64),
) -> Result<bool, Fail> {
    let scripts = texts(alloc, &scripts)?;
    let outcome = run_on(rt, alloc, source(alloc)?, 2, &scripts, gate)??;
    Ok(has_told(&outcome, answers, entries))
}

#[test]
fn two_stations_one_record(rt: HostRuntime) -> Result<(), Fail> {
    let gate = InOrder::new();
    let scripts: [&[u8]; 2] = [
        b"USE T\n? RLOCK()\nUNLOCK\n",
        b"USE T\n? RLOCK()\nREPLACE NAME WITH \"X\"\n? RLOCK()\n",
    ];
    let answers: [&[u8]; 2] = [b"OK\n.T.\nOK\n", b"OK\n.F.\nREFUSED 5 NotLocked\n.T.\n"];
    let are_told = tells(&rt, rt.alloc(), scripts, &gate, (answers, 7))?;
    assert!(rt; are_told && gate.was_kept());
    Ok(())
}

// The last line of station 1 is run after all others: its own last call was the sixth.
#[test]
fn status_after_seven_calls(rt: HostRuntime) -> Result<(), Fail> {
    let gate = InOrder::new();
    let scripts: [&[u8]; 2] = [
        b"USE T\n? RLOCK()\nUNLOCK\nDISPLAY STATUS\n",
        b"USE T\n? RLOCK()\nREPLACE NAME WITH \"X\"\n? RLOCK()\n",
    ];
    let answers: [&[u8]; 2] = [
        b"OK\n.T.\nOK\nSTATUS 7 2 2 0 1 0 0 0 0 0 0 0 0 0 0 0 0 0 0 0 0 0 0\n",
        b"OK\n.F.\nREFUSED 5 NotLocked\n.T.\n",
    ];
    let are_told = tells(&rt, rt.alloc(), scripts, &gate, (answers, 7))?;
    assert!(rt; are_told && gate.was_kept());
    Ok(())
}

#[test]
fn stations_run_side_by_side(rt: HostRuntime) -> Result<(), Fail> {
    let gate = Meeting::new();
    let scripts: [&[u8]; 2] = [b"USE T\n? RECNO()\n? NAME\n", b"USE T\nGO BOTTOM\n? NAME\n"];
    let answers: [&[u8]; 2] = [b"OK\n1\nADA       \n", b"OK\nOK\nBOB       \n"];
    let are_told = tells(&rt, rt.alloc(), scripts, &gate, (answers, 6))?;
    assert!(rt; are_told && gate.was_kept());
    Ok(())
}

// The fault of a run of these scripts for so many stations.
fn fault_of<R: Threads + Wait + Sync>(
    rt: &R,
    alloc: Global,
    stations: u32,
    scripts: &[&[u8]],
) -> Result<Option<RunFault>, Fail> {
    let scripts = texts(alloc, scripts)?;
    let table = source(alloc)?;
    Ok(run_on(rt, alloc, table, stations, &scripts, &OpenGate)?.err())
}

#[test]
fn script_count(rt: HostRuntime) -> Result<(), Fail> {
    let line: &[u8] = b"USE T\n";
    let cases: [(u32, &[&[u8]]); 2] = [(2, &[line]), (1, &[line, line])];
    for (stations, scripts) in cases {
        let fault = fault_of(&rt, rt.alloc(), stations, scripts)?;
        assert!(rt; fault == Some(RunFault::ScriptCount));
    }
    Ok(())
}

// How often each of the sixteen stations goes through its four lines.
const ROUNDS: usize = 2_000;

// How many lines all of them have.
const LINES: u64 = 128_000;

// How many of a station's answers to APPEND BLANK, the third line of each round, are `OK`.
fn appended(answers: &Bytes) -> u32 {
    let mut rest = lines(answers.as_slice());
    let mut count = 0u32;
    for index in 0..4 * ROUNDS {
        let Some(line) = rest.next_line() else {
            return count;
        };
        if index % 4 == 2 && line == b"OK".as_slice() {
            count = count.wrapping_add(1);
        }
    }
    count
}

fn appended_by_all(answers: &[Bytes]) -> u32 {
    let mut count = 0u32;
    for text in answers {
        count = count.wrapping_add(appended(text));
    }
    count
}

// Whether the journal has every line, and the table as many records as were appended.
fn has_all(outcome: &Outcome, count: u32) -> bool {
    let closed = &outcome.closed;
    closed.entry_count() == LINES
        && closed.table_count() > 0
        && count > 0
        && closed.table(1).record_count() == count
}

// Whether a run leaves all that, and hands over the one table with as many records.
fn leaves_all(outcome: Outcome) -> bool {
    let count = appended_by_all(&outcome.answers);
    let is_all = has_all(&outcome, count);
    let tables = outcome.closed.into_tables();
    let counts = tables.iter().map(|table| table.record_count());
    counts.eq([count]) && is_all
}

#[test]
fn sixteen_stations_count_together(rt: HostRuntime) -> Result<(), Fail> {
    let round = b"USE L\n? FLOCK()\nAPPEND BLANK\nUNLOCK\n";
    let script = repeated(rt.alloc(), round, ROUNDS)?;
    let outcome = run_sixteen(&rt, rt.alloc(), script.as_slice())?;
    assert!(rt; leaves_all(outcome));
    Ok(())
}
