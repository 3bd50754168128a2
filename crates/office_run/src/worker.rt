//! The worker of a station, which runs its script line by line.

ghost use Rattle.std.specs.Prelude.{◌≡◌, ◌≢◌, Ok, Some, None, IfOk, IfErr, OnOk, OnErr};
ghost use Rattle.station_lines.specs.declared.script.line.Line.{Line as LineValue};
ghost use Rattle.station_lines.specs.Script.Meaning.{Means};
ghost use Rattle.office_run.specs.RunFaults.{IsStationOf};
ghost use Rattle.office_run.specs.Reports.{new_session, stop_of, text_of, HasRun, HasBegun, HasEnded};

use crate::gate::Gate;
use crate::run_fault::RunFault;
use crate::session::Session;
use byte_io::Bytes;
use catalogue_core::Stop;
use shared_catalogue::{Naming, Seat, Shared};
use station_lines::{Line, lines, parse_line};
use std::alloc::{AllocError, Global};
use std::marker::Model;
use std::snapshot::Snapshot;
use std::sync::Wait;
use std::thread::{Promise, PromisedHandle, Scope, Threads};

/// That a worker runs this script at this seat.
#[derive(Drop)]
pub(crate) struct Runs<J: Naming> {
    pub(crate) seat: Snapshot<Seat<J>>,
    pub(crate) script: Snapshot<Bytes>,
}

impl<J: Naming> Promise<WorkerEnd<J>> for Runs<J> {
    ghost use Rattle.office_run.specs.Reports.{HasEnded};

    ghost kept_by = { λ p end. HasEnded p.seat.value p.script.value end };
}

/// What a worker leaves: its seat, and the text of its answer file, or why it was stopped.
#[derive(Drop)]
pub(crate) struct WorkerEnd<J: Naming> {
    seat: Seat<J>,
    answers: Result<Bytes, Stop>,
}

impl<J: Naming> Model for WorkerEnd<J> {
    ghost use Rattle.office_run.specs.Reports.{EndValue, end_of};

    ghost Value = { EndValue };

    ghost view = { λ e. end_of e.seat e.answers };
}

impl<J: Naming> WorkerEnd<J> {
    /// The station, and why its worker was stopped, where it was.
    pub(crate) fn stop(&self) -> Option<(u32, Stop)>
        ensures value { result ≡ stop_of self.now }
    {
        match self.answers {
            Ok(_) => None,
            Err(stop) => Some((self.seat.station(), stop)),
        }
    }

    /// The seat, and the text of the answer file, which is empty where the worker was stopped.
    pub(crate) fn into_parts(self, alloc: Global) -> (Seat<J>, Bytes)
        ensures seat { result.0 ≡ self.seat }
        ensures answers { result.1 ≡ text_of self }
    {
        let WorkerEnd { seat, answers } = self;
        match answers {
            Ok(text) => (seat, text),
            Err(_) => (seat, Bytes::from_vec(Vec::new(alloc))),
        }
    }
}

/// A worker's thread.
pub(crate) type Worker<J> = PromisedHandle<WorkerEnd<J>, Runs<J>>;

// What a line means, and `None` where it is blank.
fn parse_unless_blank(alloc: Global, text: &[u8]) -> Result<Option<Line>, AllocError>
    ensures some { (line : LineValue) → result ≡ Ok (Some line) → Means text.now line × (line ≢ Line.Blank) }
    ensures none { result ≡ Ok None → Means text.now Line.Blank }
{
    match parse_line(alloc, text)? {
        Line::Blank => Ok(None),
        line => Ok(Some(line)),
    }
}

// Runs the lines of a station's script in order, in a session that has run none.
fn run_lines<J: Naming, G: Gate, R: Wait>(
    rt: &R,
    alloc: Global,
    shared: &Shared<J>,
    gate: &G,
    station: u32,
    session: &mut Session<J>,
    script: &Bytes,
) -> Result<(), Stop>
    requires none_run { session.old ≡ new_session session.old.seat }
    ensures ran { OnOk result (HasRun session.old.seat script.now session.new) }
    ensures begun { OnErr result (HasBegun session.old.seat script.now session.new.seat) }
{
    let mut number = 0;
    let mut cursor = lines(script.as_slice());
    while let Some(text) = cursor.next_line() {
        let Some(line) = parse_unless_blank(alloc, text)? else {
            continue;
        };
        number += 1;
        gate.before(station, number);
        session.run_line(alloc, rt, shared, line)?;
        gate.after(station, number);
    }
    Ok(())
}

// Runs a station's script, and gives its seat back. Where the worker is stopped its answers are let go, so that the others have
// their memory.
fn run_script<J: Naming, G: Gate, R: Wait>(
    rt: &R,
    alloc: Global,
    shared: &Shared<J>,
    gate: &G,
    seat: Seat<J>,
    script: &Bytes,
) -> WorkerEnd<J>
    ensures ended { HasEnded seat script.now result }
{
    let station = seat.station();
    let mut session = Session::new(alloc, seat);
    let ran = run_lines(rt, alloc, shared, gate, station, &mut session, script);
    let (seat, text) = session.into_parts();
    let answers = match ran {
        Ok(()) => Ok(text),
        Err(stop) => Err(stop),
    };
    WorkerEnd { seat, answers }
}

/// Starts the worker of a seat.
pub(crate) fn start_worker<
    's,
    E,
    J: Naming + Send + Sync,
    G: Gate + Sync,
    R: Threads + Wait + Sync,
>(
    scope: &Scope<'s, E>,
    rt: &'s R,
    alloc: Global,
    shared: &'s Shared<J>,
    gate: &'s G,
    seat: Seat<J>,
    script: &'s Bytes,
) -> Result<Worker<J>, RunFault>
    ensures ok { IfOk result (λ worker. (worker.promise.seat.value ≡ seat) × (worker.promise.script.value ≡ script.now)) }
    ensures fault { IfErr result (λ fault. (fault ≡ RunFault.NoThread seat.station) × IsStationOf J.opened seat.station) }
{
    let station = seat.station();
    let promise = Runs {
        seat: Snapshot::of(&seat),
        script: Snapshot::of(script),
    };
    match scope.spawn_with(
        promise,
        move || run_script(rt, alloc, shared, gate, seat, script),
    ) {
        Ok(worker) => Ok(worker),
        Err(_) => Err(RunFault::NoThread(station)),
    }
}
