//! Ends of the server and the audit that no file and no words bring about: their statuses, and what is said of them.

use audit::AuditFault;
use audit_program::{AuditFailure, Audited};
use catalogue_core::Stop;
use files_in_place::LockFault;
use office_run::{CloseFault, RunFault, ServeFault};
use program_frame::{Ending, Failure, PlaceFault, Reason, Report, tell};
use server_program::Served;
use shared_catalogue::SettleFault;
use std::alloc::Global;
use std::io;
use std::process::ExitCode;

// Whether a program that ends so has this exit status, and prints this line on standard error alone.
fn is_told<T: Report, F: Reason>(
    alloc: Global,
    program: &str,
    ended: &Result<T, Ending<F>>,
    (status, line): (u8, &str),
) -> bool {
    let mut out: Vec<u8> = Vec::new(alloc);
    let mut err: Vec<u8> = Vec::new(alloc);
    let told = tell(&mut out, &mut err, program, ended);
    told.status == ExitCode::from(status) && out.is_empty() && err.as_slice() == line.as_bytes()
}

// The same of the server.
fn says(alloc: Global, ending: Ending<Failure<ServeFault>>, told: (u8, &str)) -> bool {
    let ended: Result<Served, Ending<Failure<ServeFault>>> = Err(ending);
    is_told(alloc, server_program::PROGRAM, &ended, told)
}

const STOPPED: [(RunFault, &str); 7] = [
    (RunFault::ScriptCount, "station_server: run: ScriptCount\n"),
    (RunFault::NoThread(2), "station_server: run: NoThread\n"),
    (
        RunFault::Stopped(1, Stop::JournalFull),
        "station_server: run: JournalFull\n",
    ),
    (
        RunFault::Stopped(2, Stop::NoMemory),
        "station_server: run: NoMemory\n",
    ),
    (
        RunFault::Settle(SettleFault::SeatMissing(1)),
        "station_server: run: SeatMissing\n",
    ),
    (
        RunFault::Settle(SettleFault::ReceiptMismatch(2)),
        "station_server: run: ReceiptMismatch\n",
    ),
    (RunFault::NoMemory, "station_server: run: NoMemory\n"),
];

#[test]
fn failures_of_the_run(rt: HostRuntime) {
    for (fault, line) in STOPPED {
        let failure = Failure::Work(ServeFault::Run(fault));
        assert!(rt;
            says(rt.alloc(), Ending::Failed(failure), (3, line)),
            "{line}"
        );
    }
}

const OTHERS: [(u8, &str); 7] = [
    (4, "station_server: close: DateOutside\n"),
    (4, "station_server: close: TooManyBlocks\n"),
    (4, "station_server: close: NoMemory\n"),
    (3, "station_server: run: NoMemory\n"),
    (3, "station_server: run: NoMemory\n"),
    (1, "error: an argument is no UTF-8 text\n"),
    (3, "station_server: run: NoMemory\n"),
];

// The end with this number in `OTHERS`.
fn other_end(number: usize) -> Ending<Failure<ServeFault>> {
    match number {
        0 => Ending::Failed(Failure::Work(ServeFault::Close(CloseFault::DateOutside))),
        1 => Ending::Failed(Failure::Work(ServeFault::Close(CloseFault::TooManyBlocks(3)))),
        2 => Ending::Failed(Failure::Work(ServeFault::Close(CloseFault::NoMemory))),
        3 => Ending::Failed(Failure::Work(ServeFault::NoMemory)),
        4 => Ending::Failed(Failure::from(PlaceFault::from(LockFault::NoMemory))),
        5 => Ending::from(io::Error::from(io::ErrorKind::InvalidData)),
        _ => Ending::from(io::Error::from(io::ErrorKind::OutOfMemory)),
    }
}

#[test]
fn other_ends_of_the_server(rt: HostRuntime) {
    for number in 0..OTHERS.len() {
        let told = OTHERS[number];
        assert!(rt; says(rt.alloc(), other_end(number), told), "at {number}");
    }
}

const AUDITS: [(u8, &str); 4] = [
    (3, "station_audit: run: NoMemory\n"),
    (5, "station_audit: there are too many entries\n"),
    (1, "error: an argument is no UTF-8 text\n"),
    (3, "station_audit: run: NoMemory\n"),
];

// The end of the audit with this number in `AUDITS`.
fn audit_end(number: usize) -> Result<Audited, Ending<Failure<AuditFailure>>> {
    match number {
        0 => Err(Ending::Failed(Failure::Work(AuditFailure::from(AuditFault::NoMemory)))),
        1 => Err(Ending::Failed(Failure::Work(AuditFailure::from(AuditFault::TooLong)))),
        2 => Err(Ending::from(io::Error::from(io::ErrorKind::InvalidData))),
        _ => Err(Ending::from(io::Error::from(io::ErrorKind::OutOfMemory))),
    }
}

#[test]
fn ends_of_the_audit(rt: HostRuntime) {
    for number in 0..AUDITS.len() {
        let ended = audit_end(number);
        let told = is_told(rt.alloc(), audit_program::PROGRAM, &ended, AUDITS[number]);
        assert!(rt; told, "at {number}");
    }
}
