//! The run of all stations, each in a thread of its own.

ghost use Rattle.std.specs.Prelude.{◌≡◌, ◌≢◌, ◌↔◌, ◌≤◌, IfOk, IfErr, IsErrOf, length, map, vec_len};
ghost use Rattle.catalogue_core.specs.declared.catalogue.TheConstants.{MAX_ENTRIES};
ghost use Rattle.catalogue_core.specs.Replay.{IsLegal, AreOfStations};
ghost use Rattle.office_run.specs.RunFaults.{IsFaultOfStart, IsFaultOfRun};
ghost use Rattle.office_run.specs.Reports.{first_stop, text_of, AreSeatsInOrder, AreReports, HaveEnded};

use crate::gate::Gate;
use crate::run_fault::RunFault;
use crate::worker::{Worker, WorkerEnd, start_worker};
use byte_io::Bytes;
use catalogue_core::{MAX_ENTRIES, Stop};
use shared_catalogue::{Closed, Naming, Seat, Shared};
use std::alloc::{AllocError, Global};
use std::sync::Wait;
use std::thread;
use std::thread::{Scope, Threads};

/// What a run leaves: the catalogue, closed, and each station's answers.
#[derive(Drop)]
pub struct Outcome {
    /// The tables and the journal.
    pub closed: Closed,
    /// The text of each station's answer file, in the order of the stations.
    pub answers: Vec<Bytes>,
}

/// Runs each station's script in a thread of its own, and settles the catalogue. The seats are all those
/// of this `Shared`, in the order of the stations, which have performed no command yet; the scripts stand in that order too.
///
/// The faults, in order: `ScriptCount` where there are not as many scripts as seats; `NoThread` where no
/// thread could be started for a station; `Stopped` for the lowest station whose worker was stopped (the
/// others go on to their scripts' ends, and the catalogue is settled); and `NoMemory`, which may come wherever memory is taken. `Settle` never comes,
/// since each station has its seat.
pub fn run_stations<J: Naming + Send + Sync, G: Gate + Sync, R: Threads + Wait + Sync>(
    rt: &R,
    alloc: Global,
    shared: Shared<J>,
    seats: Vec<Seat<J>>,
    scripts: &[Bytes],
    gate: &G,
) -> Result<Outcome, RunFault>
    requires parts { J.parts ≡ J.opened.stations }
    requires seats { AreSeatsInOrder J.opened.stations seats.items }
    ensures opened { IfOk result (λ outcome. outcome.closed.opened ≡ J.opened) }
    ensures scripts { IfOk result (λ _. length scripts.now ≡ J.opened.stations) }
    ensures reports { IfOk result (λ outcome. AreReports J.opened outcome.closed.journal scripts.now outcome.answers.items) }
    ensures fault { IfErr result (IsFaultOfRun J.opened scripts.now) }
    ensures count { IsErrOf result RunFault.ScriptCount ↔ (length scripts.now ≢ J.opened.stations) }
{
    if scripts.len() != seats.len() {
        return Err(RunFault::ScriptCount);
    }
    let ends = run_workers(rt, alloc, &shared, gate, seats, scripts)?;
    let stopped = lowest_stopped(&ends);
    let (seats, answers) = split_ends(alloc, ends)?;
    let closed = shared.settle_seats(rt, seats)?;
    match stopped {
        None => Ok(Outcome { closed, answers }),
        Some((station, stop)) => Err(RunFault::Stopped(station, told_stop(&closed, stop))),
    }
}

// The lowest station whose worker was stopped, and why, of the ends of the stations' workers in order.
fn lowest_stopped<J: Naming>(ends: &[WorkerEnd<J>]) -> Option<(u32, Stop)>
    ensures value { result ≡ first_stop ends.now }
{
    for end in ends {
        let stop = end.stop();
        if stop.is_some() {
            return stop;
        }
    }
    None
}

// Why a worker was stopped, of the closed catalogue of its run: a journal that is not full has stopped none.
fn told_stop(closed: &Closed, stop: Stop) -> Stop
    ensures full { result ≡ Stop.JournalFull → length closed.now.journal ≡ MAX_ENTRIES }
    // As of every closed catalogue.
    ensures legal { IsLegal closed.now.opened closed.now.journal }
    ensures of_stations { AreOfStations closed.now.opened closed.now.journal }
{
    if closed.entry_count() == MAX_ENTRIES as u64 {
        stop
    } else {
        Stop::NoMemory
    }
}

// Runs each station's script, and joins all threads.
fn run_workers<J: Naming + Send + Sync, G: Gate + Sync, R: Threads + Wait + Sync>(
    rt: &R,
    alloc: Global,
    shared: &Shared<J>,
    gate: &G,
    seats: Vec<Seat<J>>,
    scripts: &[Bytes],
) -> Result<Vec<WorkerEnd<J>>, RunFault>
    requires scripts { vec_len seats ≤ length scripts.now }
    ensures count { IfOk result (λ ends. vec_len ends ≡ vec_len seats) }
    ensures each { IfOk result (λ ends. HaveEnded scripts.now seats.items ends.items) }
    ensures fault { IfErr result (IsFaultOfStart J.opened) }
{
    thread::scope(
        thread::scope_env(),
        rt,
        |scope| -> Result<Vec<WorkerEnd<J>>, RunFault>
            requires scripts { vec_len seats ≤ length scripts.now }
            ensures count { IfOk result (λ ends. vec_len ends ≡ vec_len seats) }
            ensures each { IfOk result (λ ends. HaveEnded scripts.entry.now seats.items ends.items) }
            ensures fault { IfErr result (IsFaultOfStart J.opened) }
        { run_from(scope, rt, alloc, shared, gate, seats, scripts) },
    )
}

// Starts a worker for each seat, the last station's first, and joins them from the first station on.
fn run_from<'s, E, J: Naming + Send + Sync, G: Gate + Sync, R: Threads + Wait + Sync>(
    scope: &Scope<'s, E>,
    rt: &'s R,
    alloc: Global,
    shared: &'s Shared<J>,
    gate: &'s G,
    mut seats: Vec<Seat<J>>,
    scripts: &'s [Bytes],
) -> Result<Vec<WorkerEnd<J>>, RunFault>
    requires scripts { vec_len seats ≤ length scripts.now }
    ensures count { IfOk result (λ ends. vec_len ends ≡ vec_len seats) }
    ensures each { IfOk result (λ ends. HaveEnded scripts.now seats.items ends.items) }
    ensures fault { IfErr result (IsFaultOfStart J.opened) }
{
    let Some(seat) = seats.pop() else {
        return Ok(Vec::new(alloc));
    };
    let script = &scripts[seats.len()];
    let worker: Worker<J> = start_worker(scope, rt, alloc, shared, gate, seat, script)?;
    let mut ends = run_from(scope, rt, alloc, shared, gate, seats, scripts)?;
    ends.reserve(1)?;
    ends.push_reserved(worker.join(rt));
    Ok(ends)
}

// The seats and the answers of the ends of workers, each in order.
fn split_ends<J: Naming>(
    alloc: Global,
    ends: Vec<WorkerEnd<J>>,
) -> Result<(Vec<Seat<J>>, Vec<Bytes>), AllocError>
    ensures seats { IfOk result (λ parts. parts.0.items ≡ map (λ e. e.seat) ends.items) }
    ensures answers { IfOk result (λ parts. parts.1.items ≡ map text_of ends.items) }
{
    let mut seats = Vec::new(alloc);
    let mut answers = Vec::new(alloc);
    for end in ends {
        seats.reserve(1)?;
        answers.reserve(1)?;
        let (seat, text) = end.into_parts(alloc);
        seats.push_reserved(seat);
        answers.push_reserved(text);
    }
    Ok((seats, answers))
}
