//! How many commands a run has performed, and how many of them were refused.

ghost use Rattle.std.specs.Prelude.{◌≡◌, ◌≤◌, length, IfOk, OnOk};
ghost use Rattle.catalogue_core.specs.declared.catalogue.TheConstants.{MAX_ENTRIES};
ghost use Rattle.catalogue_core.specs.Replay.{IsLegal, AreOfStations};
ghost use Rattle.office_run.specs.Counts.{is_refusal as refuses, AreRefusedIn};

use catalogue_core::Answer;
use shared_catalogue::Closed;
use std::alloc::{AllocError, Global};

/// How many commands a run has performed, and how many of them were refused.
#[derive(Debug, PartialEq, Eq, Drop)]
pub struct CommandCounts {
    /// How many commands were performed, the refused ones too: `MAX_ENTRIES` at most.
    pub all: u64,
    /// How many of them were refused.
    pub refused: u64,
    /// How many of these were each station's, station 1 first: an element a station.
    pub refused_by_station: Vec<u64>,
}

// Whether it answers a command that was refused.
fn is_refusal(answer: &Answer) -> bool
    ensures value { result ≡ refuses answer.now }
{
    match answer {
        Answer::Refused(_) => true,
        _ => false,
    }
}

/// What a closed catalogue has performed for as many stations as it was opened for. An error where memory is refused.
pub(crate) fn command_counts(
    alloc: Global,
    closed: &Closed,
    stations: usize,
) -> Result<CommandCounts, AllocError>
    requires stations { stations ≡ closed.now.opened.stations }
    ensures all { IfOk result (λ counts. counts.all ≡ length closed.now.journal) }
    ensures refused { IfOk result (AreRefusedIn closed.now) }
    // As of every closed catalogue.
    ensures count_bounded { OnOk result (length closed.now.journal ≤ MAX_ENTRIES) }
    ensures legal { OnOk result (IsLegal closed.now.opened closed.now.journal) }
    ensures of_stations { OnOk result (AreOfStations closed.now.opened closed.now.journal) }
{
    let all = closed.entry_count();
    let mut refused = 0;
    let mut refused_by_station = vec![in alloc; 0; stations]?;
    for index in 0..all {
        let entry = closed.entry(index + 1);
        if is_refusal(&entry.answer) {
            refused += 1;
            refused_by_station[entry.station as usize - 1] += 1;
        }
    }
    Ok(CommandCounts {
        all,
        refused,
        refused_by_station,
    })
}
