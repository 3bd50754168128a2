//! The seats of the stations.

ghost use Rattle.std.specs.Prelude.{◌≡◌, ◌+◌, ◌<◌, ◌≤◌, true, [], ◌∷◌, ◌++◌, length, Some};
ghost use mathlib.Core.List.{IsPrefix};
ghost use Rattle.crossbeam_utils.specs.Seq.{cell_view};
ghost use Rattle.catalogue_core.specs.Status.{row as row_of, last_entry};
ghost use Rattle.shared_catalogue.specs.Board.{known_of, with_next, writer_of, reader_of};
ghost use Rattle.shared_catalogue.specs.OwnCalls.{receipt_of};
ghost use Rattle.shared_catalogue.specs.Seats.{seated, seated_after, IsWithin};
ghost use Rattle.shared_catalogue.specs.StatusRows.{opening_row, last_row, IsNumbered, calls_of};

use crate::board::{
    Answered, Board, BoardPass, Copied, Entering, Loads, Noted, Swaps, Told, compare_known,
    row_of_words, words_of_row,
};
use crate::lot::Naming;
use catalogue_core::{Catalogue, StatusRow};
use std::marker::Model;
use std::sync::Wait;
use std::sync::ledger::{Book, Share};

/// A station's seat: its number; its share of the ledger, which counts the commands that the seat has performed; and
/// its pass of the status board, of which contracts see the rows that the seat knows, its commands with what each was
/// answered, and how often it has looked. In every value of this type the share is no more than the rows that name the
/// station, and the answered commands, as many as the share, are among the station's entries that the pass knows.
#[derive(Drop)]
pub struct Seat<J: Naming> {
    station: u32,
    share: Share<J>,
    pass: BoardPass,
}

impl<J: Naming> Model for Seat<J> {
    ghost use Rattle.crossbeam_utils.specs.Seq.{cell_view};
    ghost use Rattle.shared_catalogue.specs.Seats.{Seated, seated, IsSeat};

    ghost Value = { Seated };

    ghost view = { λ s. seated s.station s.share.amount (cell_view s.pass).known.rows (cell_view s.pass).receipts (cell_view s.pass).loads };

    ghost invariant = { λ s. IsSeat J.opened.stations J.board s.station s.share.parts s.share.amount s.pass.table_id (cell_view s.pass) };
}

impl<J: Naming> Seat<J> {
    /// A seat that has performed nothing and knows the opening row.
    pub(crate) fn new(station: u32, share: Share<J>, pass: BoardPass) -> Seat<J>
        requires part { (share.parts ≡ 1) × (share.amount ≡ 0) }
        requires counted { 1 ≤ station }
        requires inside { station ≤ J.opened.stations }
        requires board { pass.table_id ≡ J.board }
        requires rows { cell_view pass ≡ reader_of (known_of (opening_row ∷ []) []) }
        ensures value { result ≡ seated station 0 (opening_row ∷ []) [] 0 }
    {
        Seat {
            station,
            share,
            pass,
        }
    }

    /// The number of the station, from 1.
    pub fn station(&self) -> u32
        ensures value { result ≡ self.now.station }
        ensures counted { 1 ≤ result }
        ensures inside { result ≤ J.opened.stations }
    {
        // The share tells contracts that the seat is one of the opened stations'.
        let _ = &self.share;
        self.station
    }

    /// Reads the board. The seat then knows all rows up to the one that it read.
    pub(crate) fn load<R: Wait>(&mut self, rt: &R, board: &Board) -> StatusRow
        requires board { board.now.table.shared.table_id ≡ J.board }
        ensures last { last_row self.new.rows ≡ result }
        ensures later { IsPrefix self.old.rows self.new.rows }
        ensures numbered { (0 < length self.new.rows) × IsNumbered self.new.rows }
        ensures own { self.new.share ≤ calls_of self.new.rows self.new.station }
        ensures seat { self.new ≡ seated self.old.station self.old.share self.new.rows self.old.receipts (self.old.loads + 1) }
    {
        let words = board.load_as::<Loads, R>(rt, &mut self.pass);
        row_of_words(&words)
    }

    /// Puts the row of the catalogue's last entry on the board, which is that of a command of the seat's station, counts the
    /// command in the book and in the seat's share, and tells the seat of all rows and entries: the entry's command and
    /// answer are its receipt. The writer's pass notes what the seat knows before it swaps the row in: the swap then tells
    /// contracts that this was a part of what the pass knew. Nothing is read.
    ///
    /// `E` is the entry, for contracts alone.
    pub(crate) fn put_up<E: Entering, R: Wait>(
        &mut self,
        rt: &R,
        board: &Board,
        pass: &mut BoardPass,
        catalogue: &Catalogue,
        book: &mut Book<J>,
    )
        requires board { (board.now.table.shared.table_id ≡ J.board) × (pass.old.table_id ≡ J.board) }
        requires writer { (cell_view pass.old).writes ≡ true }
        requires next { (0 < (row_of catalogue.now).journal_length) × ((row_of catalogue.now).journal_length ≡ length (cell_view pass.old).known.rows) }
        requires own { (row_of catalogue.now).last_station ≡ self.old.station }
        requires entry { last_entry catalogue.now.journal ≡ Some E.entry }
        ensures pass { (pass.new.table_id ≡ J.board) × (cell_view pass.new ≡ writer_of (with_next (cell_view pass.old).known (row_of catalogue.now) E.entry)) }
        ensures later { IsPrefix self.old.rows (cell_view pass.old).known.rows }
        ensures seat { self.new ≡ seated_after self.old ((cell_view pass.old).known.rows ++ row_of catalogue.now ∷ []) (receipt_of E.entry) }
        ensures total { book.new.total ≡ book.old.total + 1 }
    {
        let known = board.split_pass::<Copied>(&mut self.pass);
        board.join_pass::<Noted>(pass, known);
        let row = catalogue.status();
        let words = words_of_row(&row);
        board.swap_as::<Swaps<E>, R>(rt, pass, words);
        let copy = board.split_pass::<Copied>(pass);
        board.join_pass::<Answered<E>>(&mut self.pass, copy);
        book.add(&mut self.share, 1);
    }

    /// Tells the seat of all rows that the writer's pass knows. It changes nothing else.
    pub(crate) fn learn<R: Wait>(&mut self, rt: &R, board: &Board, pass: &mut BoardPass)
        requires board { (board.now.table.shared.table_id ≡ J.board) × (pass.old.table_id ≡ J.board) }
        requires writer { (cell_view pass.old).writes ≡ true }
        ensures pass { (pass.new.table_id ≡ J.board) × (cell_view pass.new ≡ writer_of (cell_view pass.old).known) }
        ensures later { IsPrefix self.old.rows (cell_view pass.old).known.rows }
        ensures seat { self.new ≡ seated self.old.station self.old.share (cell_view pass.old).known.rows self.old.receipts self.old.loads }
    {
        let known = board.split_pass::<Copied>(&mut self.pass);
        compare_known(rt, board, pass, known);
        let copy = board.split_pass::<Copied>(pass);
        board.join_pass::<Told>(&mut self.pass, copy);
    }

    /// Changes nothing, and tells contracts that the seat has performed no more commands than the book has counted.
    pub(crate) fn audit(&mut self, book: &mut Book<J>)
        ensures bound { self.old.share ≤ book.old.total }
        ensures total { book.new.total ≡ book.old.total }
        ensures same { self.new ≡ self.old }
    {
        book.audit(&mut self.share);
    }

    /// The seat's share. Tells contracts that what the seat knows is a part of what the writer's pass knows.
    pub(crate) fn give_up<R: Wait>(self, rt: &R, board: &Board, pass: &mut BoardPass) -> Share<J>
        requires board { (board.now.table.shared.table_id ≡ J.board) × (pass.old.table_id ≡ J.board) }
        requires writer { (cell_view pass.old).writes ≡ true }
        ensures parts { result.parts ≡ 1 }
        ensures amount { result.amount ≡ self.share }
        ensures within { IsWithin (cell_view pass.old).known self }
        ensures pass { (pass.new.table_id ≡ J.board) × ((cell_view pass.new).writes ≡ true) }
        ensures known { (cell_view pass.new).known ≡ (cell_view pass.old).known }
    {
        let Seat {
            station: _,
            share,
            pass: mut own,
        } = self;
        let copy = board.split_pass::<Copied>(&mut own);
        compare_known(rt, board, pass, copy);
        share
    }
}
