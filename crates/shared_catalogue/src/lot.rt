//! Which ledger counts the calls, which board shows the status rows, and which opened tables are meant.

ghost use Rattle.std.specs.Prelude.{◌≡◌, [], ◌∷◌, IfOk};
ghost use Rattle.crossbeam_utils.specs.Seq.{cell_view};
ghost use Rattle.shared_catalogue.specs.Board.{first_view};
ghost use Rattle.shared_catalogue.specs.StatusRows.{opening_row};

use crate::board::{Board, BoardPass};
use std::alloc::{AllocError, Global};
use std::marker::{Brand, Model};
use std::sync::ledger::{Blank, Book, Ledger, Share};

/// A name, which says which ledger, which board and which opened tables are meant. One call of a program picks it, by
/// handing [`Brand`] to a function of its own.
pub trait Naming: Ledger {
    ghost use Rattle.atomic_table.specs.Seated.{TableId};
    ghost use Rattle.catalogue_core.specs.Replay.{Opened};

    ghost opened: { Opened };

    ghost board: { TableId };
}

impl Naming for Brand {
    ghost use Rattle.std.specs.Prelude.{[]};
    ghost use Rattle.shared_catalogue.specs.Seats.{no_board};

    ghost opened = { record { stations = 0; tables = [] } };

    ghost board = { no_board };
}

/// A blank ledger that has a part for each station, and a board with its first pass.
pub struct Lot {
    blank: Blank,
    board: Board,
    writer: BoardPass,
}

impl Model for Lot {
    ghost use Rattle.std.specs.Prelude.{◌≡◌};
    ghost use Rattle.crossbeam_utils.specs.Seq.{cell_view};
    ghost use Rattle.shared_catalogue.specs.Board.{first_view};
    ghost use Rattle.shared_catalogue.specs.Seats.{LotParts};

    ghost Value = { LotParts };

    ghost view = { λ l. record { ledger = l.blank.name; parts = l.blank.parts; board = l.board.table.shared.table_id; rows = (cell_view l.writer).known.rows } };

    ghost invariant = { λ l. (l.writer.table_id ≡ l.board.table.shared.table_id) × (cell_view l.writer ≡ first_view) };
}

impl Lot {
    /// A blank ledger for a number of stations, and a board that shows the opening row, 23 zeros.
    ///
    /// An `Err` says that there was no memory.
    pub fn new(alloc: Global, stations: u32) -> Result<Lot, AllocError>
        ensures parts { IfOk result (λ lot. lot.parts ≡ stations) }
        ensures rows { IfOk result (λ lot. lot.rows ≡ opening_row ∷ []) }
    {
        let (board, writer) = Board::ruled(alloc, [0; 23])?;
        Ok(Lot {
            blank: Blank::new(u64::from(stations)),
            board,
            writer,
        })
    }

    /// The board and its first pass, the ledger's book, which has counted nothing, and the share of all parts.
    pub(crate) fn open<J: Naming>(self) -> (Board, BoardPass, Book<J>, Share<J>)
        requires name { self.ledger ≡ J.name }
        requires parts { self.parts ≡ J.parts }
        ensures board { result.0.table.shared.table_id ≡ self.board }
        ensures pass { (result.1.table_id ≡ self.board) × (cell_view result.1 ≡ first_view) }
        ensures total { result.2.total ≡ 0 }
        ensures parts { result.3.parts ≡ J.parts }
        ensures amount { result.3.amount ≡ 0 }
    {
        let Lot {
            blank,
            board,
            writer,
        } = self;
        let (book, share) = blank.open::<J>();
        (board, writer, book, share)
    }
}
