//! The catalogue under one lock, which stations share.

ghost use Rattle.std.specs.Prelude.{◌≡◌, ℕ, ◌+◌, ◌<◌, ◌≤◌, ◌↔◌, [], ◌∷◌, ◌++◌, length, All, IfOk, OnOk, OnErr, IsErrOf};
ghost use Rattle.std.specs.List.{sum_by};
ghost use mathlib.Core.List.{IsPrefix};
ghost use Rattle.catalogue_core.specs.declared.catalogue.TheConstants.{MAX_ENTRIES};
ghost use Rattle.catalogue_core.specs.Replay.{History, answer_of, IsHistoryOf};
ghost use Rattle.shared_catalogue.specs.OwnCalls.{receipt, AreOwn};
ghost use Rattle.shared_catalogue.specs.Seats.{seated, new_seats, AreSeated, IsLowestMissing, IsLowestMismatch, IsOwn, IsTold, AgreesWith};
ghost use Rattle.shared_catalogue.specs.StatusRows.{status_rows, last_row, IsNumbered, calls_of, IsToldOfCall, AreRowsOfCall};

use crate::board::{Board, Copied};
use crate::closed::Closed;
use crate::locked::LockedCatalogue;
use crate::lot::{Lot, Naming};
use crate::receipt::Receipts;
use crate::seat::Seat;
use crate::settle::{SettleFault, first_mismatch};
use catalogue_core::{Answer, Catalogue, Command, StatusRow, Stop};
use std::alloc::{AllocError, Global};
use std::sync::{Mutex, Wait};

/// A catalogue that stations share. It is under one lock, and whoever has the lock finds the state that
/// the commands of the journal make of the opened tables, and a journal as long as the ledger's book. The status board
/// is beside the lock.
#[derive(Drop)]
pub struct Shared<J: Naming> {
    board: Board,
    locked: Mutex<LockedCatalogue<J>>,
    ghost named: { board.table.shared.table_id ≡ J.board },
}

impl<J: Naming> Shared<J> {
    /// Puts a catalogue under the lock, and makes a seat for each station, in the order of the stations.
    /// No command has been performed, and the lot and the name are those of this catalogue.
    ///
    /// An `Err` says that there was no memory.
    pub fn new(
        alloc: Global,
        catalogue: Catalogue,
        lot: Lot,
    ) -> Result<(Shared<J>, Vec<Seat<J>>), AllocError>
        requires empty { catalogue.journal ≡ [] }
        requires opened { catalogue.opened ≡ J.opened }
        requires ledger { (lot.ledger ≡ J.name) × (lot.parts ≡ J.parts) }
        requires board { lot.board ≡ J.board }
        requires parts { lot.parts ≡ catalogue.opened.stations }
        ensures seats { IfOk result (λ made. made.1.items ≡ new_seats J.opened.stations) }
    {
        let stations = catalogue.station_count();
        let (board, mut pass, book, mut whole) = lot.open::<J>();
        let mut seats = Vec::new(alloc);
        for index in 0..stations {
            let share = whole.split_off(1, 0);
            let copy = board.split_pass::<Copied>(&mut pass);
            seats.push(Seat::new(index + 1, share, copy))?;
        }
        let locked = Mutex::new(LockedCatalogue::new(catalogue, book, whole, pass));
        Ok((Shared { board, locked }, seats))
    }

    /// Performs a command of the seat's station under the lock, for which it may wait, as one step: one
    /// entry of the journal, which the seat's share counts. It is answered as in the history that stood under the lock:
    /// a legal one of these opened tables, in which the seat's own entries stand already. In the same hold of the lock
    /// the row of the entry is put on the board, which is not read, and the seat is told of all rows up to it. For contracts
    /// the seat keeps the command and the answer as a receipt, which takes no memory.
    ///
    /// A `Stop` is the catalogue's, and then board and catalogue are as they were. At `NoMemory` the seat is too. `JournalFull` says
    /// that the journal has `MAX_ENTRIES` entries: the seat is told of all its rows.
    ///
    /// As a caller has it:
    ///
    /// ```text
    /// let Some(seat) = seats.get_mut((station as usize).wrapping_sub(1)) else {
    ///     return Err("there is no such seat".into());
    /// };
    /// let command = command_of(alloc, line)?;
    /// let answer = shared.perform(alloc, rt, seat, &command)?;
    /// ```
    pub fn perform<R: Wait>(
        &self,
        alloc: Global,
        rt: &R,
        seat: &mut Seat<J>,
        command: &Command,
    ) -> Result<Answer, Stop>
        ensures share { OnOk result (seat.new ≡ seated seat.old.station (seat.old.share + 1) seat.new.rows seat.new.receipts seat.new.loads) }
        ensures receipt { IfOk result (λ answer. seat.new.receipts ≡ seat.old.receipts ++ receipt command.now answer ∷ []) }
        ensures answer { IfOk result (λ answer. (h : History) × IsHistoryOf J.opened seat.old.share h × (answer ≡ answer_of h seat.old.station command.now)) }
        ensures rows { IfOk result (λ answer. AreRowsOfCall J.opened seat.old.share seat.old.station command.now answer seat.new.rows) }
        ensures told { IfOk result (λ answer. IsToldOfCall seat.old.rows seat.old.station answer seat.new.rows) }
        ensures loads { OnOk result (seat.new.loads ≡ seat.old.loads) }
        ensures stopped { OnErr result (IsTold seat.old seat.new.rows seat.new) }
        ensures no_memory { IsErrOf result Stop.NoMemory → seat.new ≡ seat.old }
        ensures full { IsErrOf result Stop.JournalFull → length seat.new.rows ≡ MAX_ENTRIES + 1 }
    {
        let mut locked = self.locked.lock(rt);
        locked.perform(alloc, rt, &self.board, seat, command)
    }

    /// The status row that stands on the board. It takes no memory, and it doesn't take the catalogue's lock: it waits at
    /// most until a row has been written. The row is the last that the seat then knows; the rows that it knew stand
    /// before it or are it, and those of its own commands are among them.
    pub fn look<R: Wait>(&self, rt: &R, seat: &mut Seat<J>) -> StatusRow
        ensures last { last_row seat.new.rows ≡ result }
        ensures later { IsPrefix seat.old.rows seat.new.rows }
        ensures numbered { (0 < length seat.new.rows) × IsNumbered seat.new.rows }
        ensures own { seat.new.share ≤ calls_of seat.new.rows seat.new.station }
        ensures seat { seat.new ≡ seated seat.old.station seat.old.share seat.new.rows seat.old.receipts (seat.old.loads + 1) }
    {
        seat.load(rt, &self.board)
    }

    /// Closes the catalogue, where each station has its seat and the receipts that the caller kept are those of the journal: the
    /// lists stand in the order of the stations, and each has to be its station's entries, in order, each once, with their
    /// commands and answers. What [`Shared::settle_seats`] says of the journal holds here too. It takes no memory.
    ///
    /// The faults, in order: `SeatMissing` for the lowest station that has no seat in the list; `ReceiptMismatch` for the lowest
    /// station whose receipts are others than those that its seat knows.
    pub fn settle<R: Wait>(
        self,
        rt: &R,
        seats: Vec<Seat<J>>,
        receipts: Vec<Receipts>,
    ) -> Result<Closed, SettleFault>
        requires parts { J.parts ≡ J.opened.stations }
        requires lists { length receipts.items ≡ J.opened.stations }
        ensures opened { IfOk result (λ closed. closed.opened ≡ J.opened) }
        ensures seated { IfOk result (λ _. AreSeated seats.items J.opened.stations) }
        ensures own { IfOk result (λ closed. All (IsOwn closed.journal) seats.items) }
        ensures handed { IfOk result (λ closed. AreOwn closed.journal receipts.items J.opened.stations) }
        ensures counted { IfOk result (λ closed. length closed.journal ≡ sum_by (λ z. z.share) seats.items) }
        ensures agrees { IfOk result (λ closed. All (AgreesWith (status_rows closed)) seats.items) }
        ensures missing { (s : ℕ) → IsErrOf result (SettleFault.SeatMissing s) ↔ IsLowestMissing seats.items J.opened.stations s }
        ensures mismatch { let seated = AreSeated seats.items J.opened.stations in
            (s : ℕ) → IsErrOf result (SettleFault.ReceiptMismatch s) ↔ (seated × IsLowestMismatch seats.items receipts.items s) }
    {
        let closed = self.settle_seats(rt, seats)?;
        match first_mismatch(closed.journal(), closed.station_count(), &receipts) {
            Some(station) => Err(SettleFault::ReceiptMismatch(station)),
            None => Ok(closed),
        }
    }

    /// Closes the catalogue. What each station was answered is its entries of the journal, in order: a seat's receipts are
    /// all of them. The journal is as long as the seats' shares together. The rows that each seat knew are those of the
    /// journal, from the first on, and each of its commands has one of them.
    ///
    /// `SeatMissing` comes for the lowest station that has no seat in the list, and is the one fault. It takes no memory.
    pub fn settle_seats<R: Wait>(self, rt: &R, seats: Vec<Seat<J>>) -> Result<Closed, SettleFault>
        requires parts { J.parts ≡ J.opened.stations }
        ensures opened { IfOk result (λ closed. closed.opened ≡ J.opened) }
        ensures seated { IfOk result (λ _. AreSeated seats.items J.opened.stations) }
        ensures own { IfOk result (λ closed. All (IsOwn closed.journal) seats.items) }
        ensures counted { IfOk result (λ closed. length closed.journal ≡ sum_by (λ z. z.share) seats.items) }
        ensures agrees { IfOk result (λ closed. All (AgreesWith (status_rows closed)) seats.items) }
        ensures missing { (s : ℕ) → IsErrOf result (SettleFault.SeatMissing s) ↔ IsLowestMissing seats.items J.opened.stations s }
        ensures no_mismatch { (s : ℕ) → ¬ IsErrOf result (SettleFault.ReceiptMismatch s) }
    {
        let Shared { board, locked } = self;
        let locked = locked.into_inner();
        locked.settle_seats(rt, &board, seats)
    }
}
