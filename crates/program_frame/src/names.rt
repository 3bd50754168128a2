//! The names of faults, without what they carry.

ghost use Rattle.std.specs.Prelude.{◌≡◌};
ghost use Rattle.program_frame.specs.FaultNames.{close_name as name_of_close, open_name as name_of_opening, run_name as name_of_run, settle_name as name_of_settling, stop_name as name_of_stop};

use catalogue_core::{OpenFault, Stop};
use office_run::{CloseFault, RunFault};
use shared_catalogue::SettleFault;

/// The name of the fault for which a catalogue can't be opened.
pub(crate) fn open_name(fault: OpenFault) -> &'static str
    ensures value { result.now ≡ name_of_opening fault }
{
    match fault {
        OpenFault::NoStation => "NoStation",
        OpenFault::TooManyStations => "TooManyStations",
        OpenFault::TooManyTables => "TooManyTables",
        OpenFault::DuplicateTable(_) => "DuplicateTable",
        OpenFault::TooManyIndexes(_) => "TooManyIndexes",
        OpenFault::DuplicateIndex(_, _) => "DuplicateIndex",
        OpenFault::BadExpression(_, _, _) => "BadExpression",
        OpenFault::IndexStale(_, _) => "IndexStale",
        OpenFault::NoMemory => "NoMemory",
    }
}

/// The name of the fault for which a worker was stopped.
fn stop_name(stop: Stop) -> &'static str
    ensures value { result.now ≡ name_of_stop stop }
{
    match stop {
        Stop::JournalFull => "JournalFull",
        Stop::NoMemory => "NoMemory",
    }
}

/// The name of the fault for which a catalogue was not settled.
fn settle_name(fault: SettleFault) -> &'static str
    ensures value { result.now ≡ name_of_settling fault }
{
    match fault {
        SettleFault::SeatMissing(_) => "SeatMissing",
        SettleFault::ReceiptMismatch(_) => "ReceiptMismatch",
    }
}

/// The name of the fault for which the stations' run did not come to its end. Where it was stopped or not settled
/// this is the name of the fault that is carried.
pub(crate) fn run_name(fault: RunFault) -> &'static str
    ensures value { result.now ≡ name_of_run fault }
{
    match fault {
        RunFault::ScriptCount => "ScriptCount",
        RunFault::NoThread(_) => "NoThread",
        RunFault::Stopped(_, stop) => stop_name(stop),
        RunFault::Settle(fault) => settle_name(fault),
        RunFault::NoMemory => "NoMemory",
    }
}

/// The name of the fault for which the files were not written.
pub(crate) fn close_name(fault: &CloseFault) -> &'static str
    ensures value { result.now ≡ name_of_close fault.now }
{
    match fault {
        CloseFault::DateOutside => "DateOutside",
        CloseFault::TooManyBlocks(_) => "TooManyBlocks",
        CloseFault::NoMemory => "NoMemory",
        CloseFault::Write(_) => "Write",
    }
}
