//! What is under the lock: the catalogue, the book of its ledger, and the writer's pass of its board.

ghost use Rattle.std.specs.Prelude.{◌≡◌, ◌+◌, [], ◌∷◌, ◌++◌, length, IfOk, OnOk, OnErr, IsErrOf};
ghost use Rattle.crossbeam_utils.specs.Seq.{cell_view};
ghost use Rattle.catalogue_core.specs.declared.catalogue.TheConstants.{MAX_ENTRIES};
ghost use Rattle.catalogue_core.specs.Replay.{answer_of, with_entry, IsHistoryOf};
ghost use Rattle.shared_catalogue.specs.Board.{first_view};
ghost use Rattle.shared_catalogue.specs.OwnCalls.{receipt};
ghost use Rattle.shared_catalogue.specs.Seats.{seated, IsTold};
ghost use Rattle.shared_catalogue.specs.StatusRows.{status_rows, IsToldOfCall};

use crate::board::{Board, BoardPass};
use crate::lot::Naming;
use crate::seat::Seat;
use catalogue_core::{Answer, Catalogue, Command, MAX_ENTRIES, Stop};
use std::alloc::Global;
use std::marker::{Brand, Model};
use std::sync::Wait;
use std::sync::ledger::{Book, Share};

/// What is under the lock, which contracts see as the catalogue. In every value of this type the
/// ledger's book has counted as many commands as the journal has entries, the opened tables are
/// those of the name, and the rows and entries that the board's writer knows are those of the journal.
#[derive(Drop)]
pub(crate) struct LockedCatalogue<J: Naming> {
    pub(crate) catalogue: Catalogue,
    pub(crate) book: Book<J>,
    // A share of no part, into which the seats' shares are merged at the end.
    pub(crate) spare: Share<J>,
    // The writer's pass of the board.
    pub(crate) pass: BoardPass,
}

impl<J: Naming> Model for LockedCatalogue<J> {
    ghost use Rattle.std.specs.Coded.{codes};
    ghost use Rattle.crossbeam_utils.specs.Seq.{cell_view};
    ghost use Rattle.key_expr.specs.ExprCode.{expr_code};
    ghost use Rattle.catalogue_core.specs.Replay.{History};
    ghost use Rattle.shared_catalogue.specs.Locked.{IsLocked};

    ghost Value = { History };

    ghost coded = { Prim.hlevel (codes, expr_code) };

    ghost view = { λ l. l.catalogue };

    ghost invariant = { λ l. IsLocked J.opened J.board l.catalogue l.book.total l.spare.parts l.spare.amount l.pass.table_id (cell_view l.pass) };
}

impl<J: Naming> LockedCatalogue<J> {
    /// A catalogue that has performed no command, a book that has counted none, and the board's first pass.
    pub(crate) fn new(
        catalogue: Catalogue,
        book: Book<J>,
        spare: Share<J>,
        pass: BoardPass,
    ) -> LockedCatalogue<J>
        requires empty { catalogue.journal ≡ [] }
        requires named { catalogue.opened ≡ J.opened }
        requires book { (book.total ≡ 0) × (spare.parts ≡ 0) × (spare.amount ≡ 0) }
        requires pass { (pass.table_id ≡ J.board) × (cell_view pass ≡ first_view) }
        ensures value { result ≡ catalogue }
    {
        LockedCatalogue {
            catalogue,
            book,
            spare,
            pass,
        }
    }

    // Changes nothing, and tells contracts that the catalogue is a history of the named tables, with as many entries
    // as the seat has performed commands, at least: the journal says that it is legal, and the book that it is as long.
    fn audit(&mut self, seat: &mut Seat<J>)
        ensures history { IsHistoryOf J.opened seat.old.share self.old }
        ensures same { self.new ≡ self.old }
        ensures seat { seat.new ≡ seat.old }
    {
        let _ = self.catalogue.journal();
        seat.audit(&mut self.book);
    }

    /// Performs a command of the seat's station: one entry, which the book and the seat's share count, and whose row
    /// is put on the board. The seat then knows all rows, and has the command and its answer as a receipt. Before it
    /// the catalogue was a history of the named tables, with as many entries as the seat had performed commands, at least.
    ///
    /// All that takes memory comes before the entry, so that a `Stop` leaves the board and the seat too; but a seat that meets a full journal
    /// knows all its rows then.
    pub(crate) fn perform<R: Wait>(
        &mut self,
        alloc: Global,
        rt: &R,
        board: &Board,
        seat: &mut Seat<J>,
        command: &Command,
    ) -> Result<Answer, Stop>
        requires board { board.now.table.shared.table_id ≡ J.board }
        ensures answer { IfOk result (λ answer. answer ≡ answer_of self.old seat.old.station command.now) }
        ensures entry { IfOk result (λ _. self.new ≡ with_entry self.old seat.old.station command.now) }
        ensures share { IfOk result (λ _. seat.new ≡ seated seat.old.station (seat.old.share + 1) seat.new.rows seat.new.receipts seat.new.loads) }
        ensures receipt { IfOk result (λ answer. seat.new.receipts ≡ seat.old.receipts ++ receipt command.now answer ∷ []) }
        ensures rows { OnOk result (seat.new.rows ≡ status_rows self.new) }
        ensures told { IfOk result (λ answer. IsToldOfCall seat.old.rows seat.old.station answer seat.new.rows) }
        ensures loads { OnOk result (seat.new.loads ≡ seat.old.loads) }
        ensures same { OnErr result (self.new ≡ self.old) }
        ensures stopped { OnErr result (IsTold seat.old seat.new.rows seat.new) }
        ensures no_memory { IsErrOf result Stop.NoMemory → seat.new ≡ seat.old }
        ensures full { IsErrOf result Stop.JournalFull → (length self.old.journal ≡ MAX_ENTRIES) × (seat.new.rows ≡ status_rows self.old) }
        ensures history { IsHistoryOf J.opened seat.old.share self.old }
    {
        self.audit(seat);
        if self.catalogue.journal().len() == MAX_ENTRIES {
            seat.learn(rt, board, &mut self.pass);
            return Err(Stop::JournalFull);
        }
        let (_number, answer) = self.catalogue.perform(alloc, seat.station(), command)?;
        // Which entry is the last is picked for contracts, at `Brand`.
        seat.put_up::<Brand, R>(rt, board, &mut self.pass, &self.catalogue, &mut self.book);
        Ok(answer)
    }
}
