//! The run of a catalogue, from its opening to its end.

ghost use Rattle.std.specs.Prelude.{◌≡◌, ◌≢◌, ◌↔◌, [], IfOk, IfErr, IsErrOf, length};
ghost use Rattle.office_run.specs.RunFaults.{IsFaultOfRun};
ghost use Rattle.office_run.specs.Reports.{AreReports};

use crate::gate::Gate;
use crate::run_fault::RunFault;
use crate::stations::{Outcome, run_stations};
use byte_io::Bytes;
use catalogue_core::Catalogue;
use shared_catalogue::{Lot, Naming, Shared};
use std::alloc::Global;
use std::marker::Brand;
use std::sync::Wait;
use std::thread::Threads;

/// Runs a script for each station of a catalogue that has performed no command: see
/// [`crate::stations::run_stations`]. Whether there are as many scripts as stations is tested before memory is taken.
pub fn run_catalogue<G: Gate + Sync, R: Threads + Wait + Sync>(
    rt: &R,
    alloc: Global,
    catalogue: Catalogue,
    scripts: &[Bytes],
    gate: &G,
) -> Result<Outcome, RunFault>
    requires empty { catalogue.journal ≡ [] }
    ensures opened { IfOk result (λ outcome. outcome.closed.opened ≡ catalogue.opened) }
    ensures scripts { IfOk result (λ _. length scripts.now ≡ catalogue.opened.stations) }
    ensures reports { IfOk result (λ outcome. AreReports catalogue.opened outcome.closed.journal scripts.now outcome.answers.items) }
    ensures fault { IfErr result (IsFaultOfRun catalogue.opened scripts.now) }
    ensures count { IsErrOf result RunFault.ScriptCount ↔ (length scripts.now ≢ catalogue.opened.stations) }
{
    if scripts.len() != catalogue.station_count() as usize {
        return Err(RunFault::ScriptCount);
    }
    let lot = Lot::new(alloc, catalogue.station_count())?;
    run_as::<Brand, G, R>(rt, alloc, lot, catalogue, scripts, gate)
}

// The same for the ledger, the board and the opened tables of a name.
fn run_as<J: Naming + Send + Sync, G: Gate + Sync, R: Threads + Wait + Sync>(
    rt: &R,
    alloc: Global,
    lot: Lot,
    catalogue: Catalogue,
    scripts: &[Bytes],
    gate: &G,
) -> Result<Outcome, RunFault>
    requires empty { catalogue.journal ≡ [] }
    requires opened { catalogue.opened ≡ J.opened }
    requires ledger { (lot.ledger ≡ J.name) × (lot.parts ≡ J.parts) }
    requires board { lot.board ≡ J.board }
    requires parts { lot.parts ≡ catalogue.opened.stations }
    requires counted { length scripts.now ≡ catalogue.opened.stations }
    ensures opened { IfOk result (λ outcome. outcome.closed.opened ≡ J.opened) }
    ensures scripts { IfOk result (λ _. length scripts.now ≡ J.opened.stations) }
    ensures reports { IfOk result (λ outcome. AreReports J.opened outcome.closed.journal scripts.now outcome.answers.items) }
    ensures fault { IfErr result (IsFaultOfRun J.opened scripts.now) }
    ensures count { ¬ IsErrOf result RunFault.ScriptCount }
{
    let (shared, seats) = Shared::<J>::new(alloc, catalogue, lot)?;
    run_stations(rt, alloc, shared, seats, scripts, gate)
}
