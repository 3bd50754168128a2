//! How faults are shown of opening tables together, and of a run.

use catalogue_core::{OpenFault, Stop};
use key_expr::ExprFault;
use office_run::RunFault;
use shared_catalogue::SettleFault;
use std::alloc::Global;
use std::fmt::Display;
use std::test::Fail;

const OPENING: [(OpenFault, &str); 9] = [
    (OpenFault::NoStation, "there is no station"),
    (OpenFault::TooManyStations, "there are too many stations"),
    (OpenFault::TooManyTables, "there are too many tables"),
    (
        OpenFault::DuplicateTable(3),
        "table 3 has the name of an earlier one",
    ),
    (OpenFault::TooManyIndexes(2), "table 2 has too many indexes"),
    (
        OpenFault::DuplicateIndex(2, 1),
        "index 1 of table 2 has the name of an earlier one",
    ),
    (
        OpenFault::BadExpression(1, 2, ExprFault::NoSuchField),
        "index 2 of table 1 has no good key expression: there is no such field",
    ),
    (OpenFault::IndexStale(1, 7), "index 7 of table 1 is stale"),
    (OpenFault::NoMemory, "out of memory"),
];

const RUN: [(RunFault, &str); 7] = [
    (
        RunFault::ScriptCount,
        "there are not as many scripts as stations",
    ),
    (RunFault::NoThread(3), "no thread for station 3"),
    (
        RunFault::Stopped(2, Stop::JournalFull),
        "station 2 was stopped: the journal is full",
    ),
    (
        RunFault::Stopped(2, Stop::NoMemory),
        "station 2 was stopped: out of memory",
    ),
    (
        RunFault::Settle(SettleFault::SeatMissing(1)),
        "not settled: the seat of station 1 is missing",
    ),
    (
        RunFault::Settle(SettleFault::ReceiptMismatch(2)),
        "not settled: the receipts of station 2 are not those of the journal",
    ),
    (RunFault::NoMemory, "out of memory"),
];

// Whether a fault is shown by this text.
fn is_shown<F: Display>(alloc: Global, fault: &F, text: &str) -> Result<bool, Fail> {
    let shown = format!(in alloc; "{fault}")?;
    Ok(shown.as_str() == text)
}

#[test]
fn faults_have_their_texts(rt: HostRuntime) -> Result<(), Fail> {
    for (fault, text) in OPENING {
        assert!(rt; is_shown(rt.alloc(), &fault, text)?, "{text}");
    }
    for (fault, text) in RUN {
        assert!(rt; is_shown(rt.alloc(), &fault, text)?, "{text}");
    }
    Ok(())
}
