//! Settling: what the seats know is compared with the journal, for contracts alone, and the receipts that a caller kept are
//! compared with it entry by entry.

ghost use Rattle.std.specs.Prelude.{◌≡◌, ℕ, ◌≤◌, ◌↔◌, true, length, vec_len, All, IsTrue, IfSome, IfNone, IfOk, IsErrOf};
ghost use Rattle.std.specs.List.{sum_by};
ghost use Rattle.crossbeam_utils.specs.Seq.{cell_view};
ghost use Rattle.shared_catalogue.specs.OwnCalls.{AreOwn, IsLowestOther};
ghost use Rattle.shared_catalogue.specs.Seats.{HasSeat, AreSeated, IsLowestMissing, IsOwn, AgreesWith, IsWithin};
ghost use Rattle.shared_catalogue.specs.StatusRows.{status_rows};

use crate::board::{Board, BoardPass};
use crate::closed::Closed;
use crate::locked::LockedCatalogue;
use crate::lot::Naming;
use crate::receipt::{Receipts, are_receipts_of};
use crate::seat::Seat;
use catalogue_core::Entry;
use std::sync::Wait;
use std::sync::ledger::Share;
use thiserror::Error;

/// Why a shared catalogue was not settled.
#[derive(Clone, Copy, Debug, PartialEq, Eq, Error)]
pub enum SettleFault {
    /// The station has no seat in the list.
    #[error("the seat of station {0} is missing")]
    SeatMissing(u32),
    /// The station's receipts are not its entries of the journal.
    #[error("the receipts of station {0} are not those of the journal")]
    ReceiptMismatch(u32),
}

impl<J: Naming> LockedCatalogue<J> {
    /// See [`crate::Shared::settle_seats`].
    pub(crate) fn settle_seats<R: Wait>(
        self,
        rt: &R,
        board: &Board,
        seats: Vec<Seat<J>>,
    ) -> Result<Closed, SettleFault>
        requires board { board.now.table.shared.table_id ≡ J.board }
        requires parts { J.parts ≡ J.opened.stations }
        ensures opened { IfOk result (λ closed. (closed.opened ≡ J.opened) × (closed ≡ self)) }
        ensures seated { IfOk result (λ _. AreSeated seats.items J.opened.stations) }
        ensures own { IfOk result (λ closed. All (IsOwn closed.journal) seats.items) }
        ensures counted { IfOk result (λ closed. length closed.journal ≡ sum_by (λ z. z.share) seats.items) }
        ensures agrees { IfOk result (λ closed. All (AgreesWith (status_rows closed)) seats.items) }
        ensures missing { (s : ℕ) → IsErrOf result (SettleFault.SeatMissing s) ↔ IsLowestMissing seats.items J.opened.stations s }
        ensures no_mismatch { (s : ℕ) → ¬ IsErrOf result (SettleFault.ReceiptMismatch s) }
    {
        let LockedCatalogue {
            catalogue,
            mut book,
            spare,
            mut pass,
        } = self;
        if let Some(station) = first_missing(&seats, catalogue.station_count()) {
            return Err(SettleFault::SeatMissing(station));
        }
        let mut whole = gather(rt, board, &mut pass, spare, seats);
        book.audit(&mut whole);
        Ok(Closed::new(catalogue))
    }
}

// Whether one of the seats is the station's.
fn has_seat<J: Naming>(seats: &[Seat<J>], station: u32) -> bool
    ensures value { IsTrue result ↔ HasSeat seats.now station }
{
    seats.iter().any(|seat| seat.station() == station)
}

// The lowest station that has no seat.
fn first_missing<J: Naming>(seats: &[Seat<J>], stations: u32) -> Option<u32>
    ensures some { IfSome result (IsLowestMissing seats.now stations) }
    ensures none { IfNone result (AreSeated seats.now stations) }
{
    for index in 0..stations {
        if !has_seat(seats, index + 1) {
            return Some(index + 1);
        }
    }
    None
}

// Compares what each seat knows with what the writer's pass knows, and merges the seats' shares into one.
fn gather<J: Naming, R: Wait>(
    rt: &R,
    board: &Board,
    pass: &mut BoardPass,
    mut whole: Share<J>,
    mut seats: Vec<Seat<J>>,
) -> Share<J>
    requires spare { (whole.parts ≡ 0) × (whole.amount ≡ 0) }
    requires board { (board.now.table.shared.table_id ≡ J.board) × (pass.old.table_id ≡ J.board) }
    requires writer { (cell_view pass.old).writes ≡ true }
    ensures parts { result.parts ≡ vec_len seats }
    ensures amount { result.amount ≡ sum_by (λ z. z.share) seats.items }
    ensures most { result.parts ≤ J.parts }
    ensures within { All (IsWithin (cell_view pass.old).known) seats.items }
{
    while let Some(seat) = seats.pop() {
        whole.merge(seat.give_up(rt, board, pass));
    }
    whole
}

// The lowest station whose receipts are not its entries of the journal.
pub(crate) fn first_mismatch(journal: &[Entry], stations: u32, receipts: &[Receipts]) -> Option<u32>
    requires lists { length receipts.now ≡ stations }
    ensures some { IfSome result (IsLowestOther journal.now receipts.now) }
    ensures none { IfNone result (AreOwn journal.now receipts.now stations) }
{
    for index in 0..stations {
        let own = receipts[index as usize].as_slice();
        if !are_receipts_of(index + 1, own, journal) {
            return Some(index + 1);
        }
    }
    None
}
