//! A catalogue that is put under its lock, and commands that are stopped there.

ghost use Rattle.std.specs.Prelude.{◌≡◌, []};

use super::lines::command_of;
use super::setups::catalogues;
use super::stack::grow_stack;
use byte_io::Bytes;
use catalogue_core::{Answer, Catalogue, Command, Refusal, Stop};
use scarce::{Attempt, refusals};
use shared_catalogue::{Lot, Naming, Seat, Shared};
use std::alloc::{AllocError, Global};
use std::marker::Brand;
use std::process::Abort;
use std::sync::Wait;
use std::test::Fail;

// The most bytes that the calls need.
const ENOUGH: usize = 8192;

// How often a catalogue is shared at most.
const TRIES: usize = ENOUGH / 16 + 2;

// A command at the seat of an index, and its answer.
#[derive(Drop)]
struct Case {
    seat: usize,
    command: Command,
    answer: Answer,
}

// Commands of both stations, one after another: edits of the first, which has the table for itself, and a refusal.
const LINES: [(usize, &[u8]); 7] = [
    (0, b"USE T EXCLUSIVE"),
    (1, b"SELECT 2"),
    (0, b"APPEND BLANK"),
    (0, b"REPLACE NAME WITH 'EVE'"),
    (0, b"REPLACE ZIP WITH 'EVE'"),
    (0, b"? NAME"),
    (0, b"PACK"),
];

// The answer to the command at a place, from 0.
fn answer_at(alloc: Global, place: usize) -> Result<Answer, AllocError> {
    match place {
        4 => Ok(Answer::Refused(Refusal::NoSuchField)),
        5 => Ok(Answer::Text(Bytes::from_slice(alloc, b"EVE       ")?)),
        _ => Ok(Answer::Done),
    }
}

// The case of a line at a place.
fn make_case(alloc: Global, place: usize, seat: usize, line: &[u8]) -> Result<Case, Fail> {
    let answer = answer_at(alloc, place)?;
    let command = command_of(alloc, line)?;
    Ok(Case {
        seat,
        command,
        answer,
    })
}

fn cases(alloc: Global) -> Result<Vec<Case>, Fail> {
    let mut all = Vec::new(alloc);
    for (place, (seat, line)) in LINES.iter().enumerate() {
        all.push(make_case(alloc, place, *seat, line)?)?;
    }
    Ok(all)
}

// Whether there are two seats, which see the opening row.
fn see_opening_row<J: Naming, R: Wait>(rt: &R, shared: &Shared<J>, seats: &mut [Seat<J>]) -> bool {
    let count = seats.len();
    match seats.get_mut(1) {
        Some(seat) => count == 2 && shared.look(rt, seat).words() == [0; 23],
        None => false,
    }
}

// How a command at a seat ends: as the next entry with the case's answer, or with the row as it was.
fn attempt_of<J: Naming, R: Wait>(
    alloc: Global,
    rt: &R,
    shared: &Shared<J>,
    seat: &mut Seat<J>,
    case: &Case,
) -> Attempt {
    let before = shared.look(rt, seat);
    match shared.perform(alloc, rt, seat, &case.command) {
        Ok(answer) => {
            let next = before.journal_length.saturating_add(1);
            let is_next = shared.look(rt, seat).journal_length == next;
            Attempt::right_if(is_next && answer == case.answer)
        }
        Err(Stop::NoMemory) => Attempt::refused_if(shared.look(rt, seat) == before),
        Err(Stop::JournalFull) => Attempt::Wrong,
    }
}

// How often cases are stopped before they are performed as they are to be, together; `None` where one ends in any other way.
fn stops_of_all<J: Naming, R: Wait>(
    alloc: Global,
    rt: &R,
    shared: &Shared<J>,
    seats: &mut [Seat<J>],
    cases: &[Case],
) -> Option<usize> {
    let mut all: usize = 0;
    for case in cases {
        let seat = seats.get_mut(case.seat)?;
        let found = refusals(alloc, ENOUGH, || attempt_of(alloc, rt, shared, seat, case));
        all = all.saturating_add(found.unwrap_or(None)?);
    }
    Some(all)
}

// Shares a catalogue, and performs cases while memory is scarce.
fn stops_as<J: Naming, R: Wait>(
    alloc: Global,
    rt: &R,
    lot: Lot,
    catalogue: Catalogue,
    cases: &[Case],
) -> Result<Option<usize>, AllocError>
    requires empty { catalogue.journal ≡ [] }
    requires opened { catalogue.opened ≡ J.opened }
    requires ledger { (lot.ledger ≡ J.name) × (lot.parts ≡ J.parts) }
    requires board { lot.board ≡ J.board }
    requires parts { lot.parts ≡ catalogue.opened.stations }
{
    let (shared, mut seats) = Shared::<J>::new(alloc, catalogue, lot)?;
    if !see_opening_row(rt, &shared, &mut seats) {
        return Ok(None);
    }
    Ok(stops_of_all(alloc, rt, &shared, &mut seats, cases))
}

// The same of the last of some catalogues.
fn stops<R: Wait>(
    alloc: Global,
    rt: &R,
    catalogues: &mut Vec<Catalogue>,
    cases: &[Case],
) -> Result<Option<usize>, AllocError> {
    let Some(catalogue) = catalogues.pop() else {
        return Ok(None);
    };
    if !catalogue.journal().is_empty() {
        return Ok(None);
    }
    let lot = Lot::new(alloc, catalogue.station_count())?;
    stops_as::<Brand, R>(alloc, rt, lot, catalogue, cases)
}

// How the sharing of the last of some catalogues ends.
fn sharing_attempt<R: Wait>(alloc: Global, rt: &R, catalogues: &mut Vec<Catalogue>) -> Attempt {
    match stops(alloc, rt, catalogues, &[]) {
        Ok(found) => Attempt::right_if(found == Some(0)),
        Err(AllocError) => Attempt::Refused,
    }
}

// How the sharing ends with ample memory, and how often it is refused memory before it ends so again.
fn sharing<R: Wait>(
    alloc: Global,
    rt: &R,
    catalogues: &mut Vec<Catalogue>,
) -> Result<(Attempt, usize), AllocError> {
    let ample = sharing_attempt(alloc, rt, catalogues);
    let found = refusals(alloc, ENOUGH, || sharing_attempt(alloc, rt, catalogues))?;
    Ok((ample, found.unwrap_or(0)))
}

#[test]
fn catalogue_is_shared_where_memory_is_refused(rt: HostRuntime) -> Result<(), Fail> {
    let (ample, found) = sharing(rt.alloc(), &rt, &mut catalogues(rt.alloc(), 2, TRIES)?)?;
    println!(rt; "Lot::new, Shared::new: {found}")?;
    assert!(rt; ample == Attempt::Right && 0 < found);
    Ok(())
}

#[test]
fn same_call_after_a_stop(rt: HostRuntime) -> Result<(), Fail> {
    let alloc = rt.alloc();
    grow_stack(alloc)?;
    let cases = cases(alloc)?;
    let found = stops(alloc, &rt, &mut catalogues(alloc, 2, 1)?, &cases)?;
    println!(rt; "Shared::perform: {found:?}")?;
    assert!(rt; 0 < found.unwrap_or(0));
    Ok(())
}
