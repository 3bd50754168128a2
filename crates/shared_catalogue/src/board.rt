//! The status board: one cell with the words of the last status row, and what each pass knows of the rows and of the
//! journal so far.

mod words;

ghost use Rattle.std.specs.Prelude.{◌≡◌, true, []};
ghost use Rattle.crossbeam_utils.specs.Seq.{cell_view};
ghost use Rattle.shared_catalogue.specs.Board.{writer_of, IsPartOf};

use crate::receipt::Receipt;
use atomic_table::{Join, Split};
use catalogue_core::{Entry, StatusRow};
use crossbeam_utils::atomic::seq_cell::{Pass, RuledSeqCell};
use crossbeam_utils::rule::{Outcome, Protocol};
use std::collections::LinkedList;
use std::marker::{Brand, PhantomData};
use std::sync::Wait;
pub(crate) use words::{row_of_words, words_of_row};

/// What a pass knows of a journal. No value of it is made: it is seen by contracts alone.
pub struct Known {
    /// The status rows, the opening row first.
    pub rows: LinkedList<StatusRow>,
    /// The entries.
    pub entries: LinkedList<Entry>,
}

/// What a pass stands for. No value of it is made: it is seen by contracts alone.
pub struct View {
    /// Whether it is the writer's.
    pub writes: bool,
    /// What it knows.
    pub known: Known,
    /// What the seat knew that it noted last. Only the writer's notes any.
    pub noted: Known,
    /// The commands that the seat gave, and what each was answered, in order.
    pub receipts: LinkedList<Receipt>,
    /// How often the board was loaded with it.
    pub loads: u64,
}

/// Which entry is put up: a name that one call picks, for contracts alone, by handing [`Brand`] to a function of its own.
/// The board's words don't tell the entry.
pub trait Entering {
    ghost use Rattle.catalogue_core.specs.declared.entry.Entry.{Entry};

    ghost entry: { Entry };
}

impl Entering for Brand {
    ghost use Rattle.shared_catalogue.specs.Board.{no_entry};

    ghost entry = { no_entry };
}

/// The rule of the board.
pub struct Published;

impl Protocol<[u64; 23], View> for Published {
    ghost use Rattle.shared_catalogue.specs.Board.{IsBoard, first_view};

    ghost holds = { IsBoard };

    ghost first = { first_view };
}

/// A swap to the row of the next entry, by the writer.
pub struct Swaps<E: Entering> {
    entry: PhantomData<E>,
}

impl<E: Entering> Outcome<[u64; 23], View> for Swaps<E> {
    ghost use Rattle.shared_catalogue.specs.Board.{IsSwapOf};

    ghost then = { IsSwapOf E.entry };
}

/// A load, by one that reads.
pub struct Loads;

impl Outcome<[u64; 23], View> for Loads {
    ghost use Rattle.shared_catalogue.specs.Board.{IsLoadOf};

    ghost then = { IsLoadOf };
}

/// A load, by the writer.
pub struct WriterLoads;

impl Outcome<[u64; 23], View> for WriterLoads {
    ghost use Rattle.shared_catalogue.specs.Board.{IsWriterLoadOf};

    ghost then = { IsWriterLoadOf };
}

/// A split of a pass.
pub struct Copied;

impl Split<View> for Copied {
    ghost use Rattle.shared_catalogue.specs.Board.{copied_view};

    ghost left = { λ v. v };

    ghost right = { copied_view };
}

/// The join of a copy of the writer's pass into a seat's, which has the entry's command and answer as a receipt then.
pub struct Answered<E: Entering> {
    entry: PhantomData<E>,
}

impl<E: Entering> Join<View> for Answered<E> {
    ghost use Rattle.shared_catalogue.specs.Board.{answered_view, spent_view};

    ghost both = { answered_view E.entry };

    ghost spent = { spent_view };
}

/// The join of a copy of the writer's pass into a seat's, which knows all that the writer knows then.
pub struct Told;

impl Join<View> for Told {
    ghost use Rattle.shared_catalogue.specs.Board.{told_view, spent_view};

    ghost both = { told_view };

    ghost spent = { spent_view };
}

/// The join of a copy of a seat's pass into the writer's.
pub struct Noted;

impl Join<View> for Noted {
    ghost use Rattle.shared_catalogue.specs.Board.{noting_view, spent_view};

    ghost both = { noting_view };

    ghost spent = { spent_view };
}

/// The cell, which holds the words of one row.
pub type Board = RuledSeqCell<[u64; 23], View, Published, 23>;

/// A pass of the board.
pub type BoardPass = Pass<[u64; 23], View>;

/// Tells contracts that what a copy of a seat's pass knows is a part of what the writer's pass knows. It changes nothing.
/// It reads the board, since only a step on the board's cell tells that.
pub(crate) fn compare_known<R: Wait>(rt: &R, board: &Board, pass: &mut BoardPass, copy: BoardPass)
    requires board { (pass.old.table_id ≡ board.now.table.shared.table_id) × (copy.table_id ≡ pass.old.table_id) }
    requires copy { copy.me.1 ≡ [] }
    requires writer { (cell_view pass.old).writes ≡ true }
    ensures part { IsPartOf (cell_view copy).known (cell_view pass.old).known }
    ensures pass { (pass.new.table_id ≡ pass.old.table_id) × (cell_view pass.new ≡ writer_of (cell_view pass.old).known) }
{
    board.join_pass::<Noted>(pass, copy);
    board.load_as::<WriterLoads, R>(rt, pass);
}
