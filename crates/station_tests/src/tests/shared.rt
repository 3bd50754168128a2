//! Stations that share a catalogue: their calls under the lock, the status row, and settling.

ghost use Rattle.std.specs.Prelude.{◌≡◌, [], length};

use super::calls::{Call, FILE_LOCKED, LISTED, LISTED_AND_ONE, TWO_STATIONS, command_of, is_said};
use super::sample::open_file;
use catalogue_core::{Answer, Catalogue, Command};
use sample_files::{TABLE, WITH_CYD};
use shared_catalogue::{Closed, Lot, Naming, Receipt, Receipts, Seat, SettleFault, Shared};
use std::alloc::{AllocError, Global};
use std::marker::Brand;
use std::sync::Wait;
use std::test::Fail;

// The receipts with which a catalogue is settled.
#[derive(Clone, Copy, PartialEq, Eq)]
enum Handed {
    // None: it is settled by its seats alone.
    Nothing,
    // Those of all calls.
    Kept,
    // The last one says false.
    OtherAnswer,
    // The last one has another command.
    OtherCommand,
    // The last one is left out.
    Fewer,
    // The last one stands there twice.
    Twice,
    // The stations' lists stand in the other order.
    Exchanged,
}

// What is seen of a run: the status rows that the stations see after its calls, the last station first, and how many
// entries there are at the end.
#[derive(Drop)]
struct Seen {
    rows: Vec<[u64; 23]>,
    settled: Result<u64, SettleFault>,
}

// Performs a call at its station's seat, and answers the receipt. It fails where the answer has another line.
fn perform<J: Naming>(
    alloc: Global,
    rt: &impl Wait,
    shared: &Shared<J>,
    seats: &mut [Seat<J>],
    call: Call,
) -> Result<Receipt, Fail> {
    let (station, line, said) = call;
    let Some(seat) = seats.get_mut((station as usize).wrapping_sub(1)) else {
        return Err("there is no such seat".into());
    };
    let command = command_of(alloc, line)?;
    let answer = shared.perform(alloc, rt, seat, &command)?;
    if !is_said(alloc, &answer, said)? {
        return Err("another answer".into());
    }
    Ok(Receipt { command, answer })
}

// No receipts, for each of the stations.
fn no_receipts(alloc: Global, stations: u32) -> Result<Vec<Receipts>, AllocError> {
    let mut receipts = Vec::new(alloc);
    for _ in 0..stations {
        receipts.push(Receipts::new(alloc))?;
    }
    Ok(receipts)
}

// Puts a receipt to those of its station.
fn keep(receipts: &mut [Receipts], station: u32, receipt: Receipt) -> Result<(), Fail> {
    match receipts.get_mut((station as usize).wrapping_sub(1)) {
        Some(own) => Ok(own.push(receipt)?),
        None => Err("there is no such station".into()),
    }
}

// A receipt that says false.
fn with_other_answer(receipt: Receipt) -> Receipt {
    Receipt {
        command: receipt.command,
        answer: Answer::Truth(false),
    }
}

// A receipt of another command.
fn with_other_command(receipt: Receipt) -> Receipt {
    Receipt {
        command: Command::FileLock,
        answer: receipt.answer,
    }
}

// Puts a receipt to those of its station twice.
fn keep_twice(
    alloc: Global,
    receipts: &mut [Receipts],
    station: u32,
    receipt: Receipt,
) -> Result<(), Fail> {
    keep(receipts, station, receipt.copy(alloc)?)?;
    keep(receipts, station, receipt)
}

// Keeps a receipt as it is to be handed.
fn keep_as(
    alloc: Global,
    receipts: &mut [Receipts],
    station: u32,
    receipt: Receipt,
    handed: Handed,
) -> Result<(), Fail> {
    match handed {
        Handed::Fewer => Ok(()),
        Handed::OtherAnswer => keep(receipts, station, with_other_answer(receipt)),
        Handed::OtherCommand => keep(receipts, station, with_other_command(receipt)),
        Handed::Twice => keep_twice(alloc, receipts, station, receipt),
        Handed::Nothing | Handed::Kept | Handed::Exchanged => keep(receipts, station, receipt),
    }
}

// Performs the calls in order, and keeps the receipts as they are to be handed.
fn perform_all<J: Naming>(
    alloc: Global,
    rt: &impl Wait,
    shared: &Shared<J>,
    seats: &mut [Seat<J>],
    receipts: &mut [Receipts],
    calls: &[Call],
    handed: Handed,
) -> Result<(), Fail> {
    for i in 0..calls.len() {
        let receipt = perform(alloc, rt, shared, seats, calls[i])?;
        let as_handed = if i == calls.len() - 1 {
            handed
        } else {
            Handed::Kept
        };
        keep_as(alloc, receipts, calls[i].0, receipt, as_handed)?;
    }
    if handed == Handed::Exchanged {
        receipts.reverse();
    }
    Ok(())
}

// The status rows as the seats see them one after another, the last station's first.
fn rows_seen<J: Naming>(
    alloc: Global,
    rt: &impl Wait,
    shared: &Shared<J>,
    seats: &mut [Seat<J>],
) -> Result<Vec<[u64; 23]>, Fail> {
    let mut rows = Vec::new(alloc);
    for i in (0..seats.len()).rev() {
        rows.push(shared.look(rt, &mut seats[i]).words())?;
    }
    Ok(rows)
}

// Performs the calls for a number of stations. It answers the receipts as they are to be handed, and the rows that are seen.
fn call_all<J: Naming>(
    alloc: Global,
    rt: &impl Wait,
    shared: &Shared<J>,
    seats: &mut [Seat<J>],
    stations: u32,
    calls: &[Call],
    handed: Handed,
) -> Result<(Vec<Receipts>, Vec<[u64; 23]>), Fail> {
    let mut receipts = no_receipts(alloc, stations)?;
    perform_all(alloc, rt, shared, seats, &mut receipts, calls, handed)?;
    let rows = rows_seen(alloc, rt, shared, seats)?;
    Ok((receipts, rows))
}

// Takes the first seat away where the catalogue is settled without it.
fn leave_out_first<J: Naming>(seats: &mut Vec<Seat<J>>, without_first: bool) {
    if without_first && !seats.is_empty() {
        seats.remove(0);
    }
}

// How many entries there are at the end, or why there is none.
fn entries_of(settled: Result<Closed, SettleFault>) -> Result<u64, SettleFault> {
    match settled {
        Ok(closed) => Ok(closed.entry_count()),
        Err(fault) => Err(fault),
    }
}

// Settles a catalogue with these receipts, or by its seats alone.
fn settle_as<J: Naming, R: Wait>(
    rt: &R,
    shared: Shared<J>,
    seats: Vec<Seat<J>>,
    receipts: Vec<Receipts>,
    handed: Handed,
) -> Result<u64, SettleFault>
    requires parts { J.parts ≡ J.opened.stations }
    requires lists { length receipts.items ≡ J.opened.stations }
{
    if handed == Handed::Nothing {
        entries_of(shared.settle_seats(rt, seats))
    } else {
        entries_of(shared.settle(rt, seats, receipts))
    }
}

// Performs the calls on a catalogue that has performed nothing, for the ledger and the opened tables of a name, and settles it
// with all seats, or without that of station 1.
fn run_as<J: Naming, R: Wait>(
    alloc: Global,
    rt: &R,
    lot: Lot,
    catalogue: Catalogue,
    calls: &[Call],
    handed: Handed,
    without_first: bool,
) -> Result<Seen, Fail>
    requires empty { catalogue.journal ≡ [] }
    requires opened { catalogue.opened ≡ J.opened }
    requires ledger { (lot.ledger ≡ J.name) × (lot.parts ≡ J.parts) }
    requires board { lot.board ≡ J.board }
    requires parts { lot.parts ≡ catalogue.opened.stations }
{
    let stations = catalogue.station_count();
    let (shared, mut seats) = Shared::<J>::new(alloc, catalogue, lot)?;
    let (receipts, rows) = call_all(alloc, rt, &shared, &mut seats, stations, calls, handed)?;
    leave_out_first(&mut seats, without_first);
    if receipts.len() != stations as usize {
        return Err("a list of receipts is gone".into());
    }
    let settled = settle_as(rt, shared, seats, receipts, handed);
    Ok(Seen { rows, settled })
}

// The same under a name of its own.
fn run_on<R: Wait>(
    alloc: Global,
    rt: &R,
    catalogue: Catalogue,
    calls: &[Call],
    handed: Handed,
    without_first: bool,
) -> Result<Seen, Fail>
    requires empty { catalogue.journal ≡ [] }
{
    let lot = Lot::new(alloc, catalogue.station_count())?;
    run_as::<Brand, R>(alloc, rt, lot, catalogue, calls, handed, without_first)
}

// The same on the table of a file, for a number of stations.
fn run<R: Wait>(
    alloc: Global,
    rt: &R,
    file: &[u8],
    stations: u32,
    calls: &[Call],
    handed: Handed,
    without_first: bool,
) -> Result<Seen, Fail> {
    let catalogue = open_file(alloc, file, stations)?;
    run_on(alloc, rt, catalogue, calls, handed, without_first)
}

// Whether as many stations saw a row, and each this one.
fn have_seen(rows: &[[u64; 23]], stations: usize, row: &[u64; 23]) -> bool {
    rows.len() == stations && rows.iter().all(|seen| seen == row)
}

// The status row after the seven calls of two stations.
const AFTER_SEVEN: [u64; 23] = [
    7, 2, 2, 0, 1, 0, 0, 0, 0, 0, 0, 0, 0, 0, 0, 0, 0, 0, 0, 0, 0, 0, 0,
];

// The receipts that are handed, whether the seat of station 1 is gone, and how the seven calls are settled.
const SETTLINGS: [(Handed, bool, Result<u64, SettleFault>); 11] = [
    (Handed::Kept, false, Ok(7)),
    (Handed::Nothing, false, Ok(7)),
    (
        Handed::OtherAnswer,
        false,
        Err(SettleFault::ReceiptMismatch(2)),
    ),
    (
        Handed::OtherCommand,
        false,
        Err(SettleFault::ReceiptMismatch(2)),
    ),
    (Handed::Fewer, false, Err(SettleFault::ReceiptMismatch(2))),
    (Handed::Twice, false, Err(SettleFault::ReceiptMismatch(2))),
    (
        Handed::Exchanged,
        false,
        Err(SettleFault::ReceiptMismatch(1)),
    ),
    (Handed::Kept, true, Err(SettleFault::SeatMissing(1))),
    (Handed::Nothing, true, Err(SettleFault::SeatMissing(1))),
    (Handed::OtherAnswer, true, Err(SettleFault::SeatMissing(1))),
    (Handed::Exchanged, true, Err(SettleFault::SeatMissing(1))),
];

// How the seven calls are settled, and whether both stations saw their row.
fn settle_seven<R: Wait>(
    alloc: Global,
    rt: &R,
    handed: Handed,
    without_first: bool,
) -> Result<(Result<u64, SettleFault>, bool), Fail> {
    let seen = run(alloc, rt, &TABLE, 2, &TWO_STATIONS, handed, without_first)?;
    Ok((seen.settled, have_seen(&seen.rows, 2, &AFTER_SEVEN)))
}

#[test]
fn two_stations_one_record(rt: HostRuntime) -> Result<(), Fail> {
    for (handed, without_first, settled) in SETTLINGS {
        let found = settle_seven(rt.alloc(), &rt, handed, without_first)?;
        assert_eq!(rt; found, (settled, true));
    }
    Ok(())
}

// Whether so many stations see this row after these calls on the table of a file.
fn see_after<R: Wait>(
    alloc: Global,
    rt: &R,
    file: &[u8],
    stations: u32,
    calls: &[Call],
    row: &[u64; 23],
) -> Result<bool, Fail> {
    let seen = run(alloc, rt, file, stations, calls, Handed::Kept, false)?;
    Ok(have_seen(&seen.rows, stations as usize, row))
}

// Station 2 looks first, whose call was the seventh; the last call of station 1 was the sixth.
#[test]
fn status_after_seven_calls(rt: HostRuntime) -> Result<(), Fail> {
    assert!(rt; see_after(rt.alloc(), &rt, &TABLE, 2, &TWO_STATIONS, &AFTER_SEVEN)?);
    Ok(())
}

const AFTER_FILE_LOCKED: [u64; 23] = [
    3, 1, 2, 1, 0, 0, 0, 0, 0, 0, 0, 0, 0, 0, 0, 0, 0, 0, 0, 0, 0, 0, 0,
];

#[test]
fn status_row(rt: HostRuntime) -> Result<(), Fail> {
    assert!(rt; see_after(rt.alloc(), &rt, &TABLE, 1, &FILE_LOCKED, &AFTER_FILE_LOCKED)?);
    Ok(())
}

const AFTER_LISTED: [u64; 23] = [
    7, 1, 2, 0, 2, 0, 0, 0, 0, 0, 0, 0, 0, 0, 0, 0, 0, 0, 0, 0, 0, 0, 0,
];

const AFTER_ONE_MORE: [u64; 23] = [
    8, 2, 2, 0, 3, 0, 0, 0, 0, 0, 0, 0, 0, 0, 0, 0, 0, 0, 0, 0, 0, 0, 0,
];

// Whether two stations see this row after these calls on a table of three records.
fn see_in_three<R: Wait>(
    alloc: Global,
    rt: &R,
    calls: &[Call],
    row: &[u64; 23],
) -> Result<bool, Fail> {
    see_after(alloc, rt, &WITH_CYD, 2, calls, row)
}

#[test]
fn locks_over_a_list_are_seen(rt: HostRuntime) -> Result<(), Fail> {
    let are_seen = [
        see_in_three(rt.alloc(), &rt, &LISTED, &AFTER_LISTED)?,
        see_in_three(rt.alloc(), &rt, &LISTED_AND_ONE, &AFTER_ONE_MORE)?,
    ];
    assert_eq!(rt; are_seen, [true; 2]);
    Ok(())
}
