//! The moves of a cursor. They take no memory, and a refused move leaves the cursor as it was.

ghost use Rattle.std.specs.Prelude.{◌≡◌, ◌+◌, ◌-◌, ◌≤◌, Ok, Err, length, slice_get, IfErr, OnOk, OnErr, IsOk};
ghost use Rattle.table_core.specs.Content.{order_at, has_no_records};
ghost use Rattle.table_core.specs.Cursors.{IsCursor, IsCursorPlace};
ghost use Rattle.table_core.specs.Moves.{at_top, top, bottom, go, skip, seek, set_order, forward, backward, numbers, place_of};
ghost use Rattle.ndx_index.specs.Order.{first_with as first_with_text};
ghost use Rattle.ndx_index.specs.Places.{place_in, back_from};

use crate::cursor::Cursor;
use crate::moves::by_index::{
    first_record, first_with, last_record, record_after, record_before, record_from_end,
};
use crate::moves::by_number::{
    first_number, last_number, number_after, number_before, number_from_end,
};
use crate::refusal::Refusal;
use crate::table::Table;
use ndx_index::Pair;

impl Table {
    /// GO TOP: the cursor goes to the first record in its order, or to the end of a table without records. It is
    /// never refused.
    pub fn top(&self, cursor: &mut Cursor) -> Result<(), Refusal>
        requires order { cursor.old.order ≤ length self.now.content.indexes }
        ensures done { IsOk result }
        ensures value { top self.now.content cursor.old ≡ Ok cursor.new }
    {
        *cursor = self.at_top(cursor);
        Ok(())
    }

    /// GO BOTTOM: the cursor goes to the last record in its order, or to the end of a table without records. It
    /// is never refused.
    pub fn bottom(&self, cursor: &mut Cursor) -> Result<(), Refusal>
        requires order { cursor.old.order ≤ length self.now.content.indexes }
        ensures done { IsOk result }
        ensures value { bottom self.now.content cursor.old ≡ Ok cursor.new }
    {
        *cursor = cursor.moved(self.last(cursor.order), self.has_no_records());
        Ok(())
    }

    /// GO: the cursor goes to the record of a number, from 1. `OutOfRange` where there is no such record.
    pub fn go(&self, cursor: &mut Cursor, number: u64) -> Result<(), Refusal>
        ensures done { OnOk result (go self.now.content cursor.old number ≡ Ok cursor.new) }
        ensures refused { IfErr result (λ refusal. go self.now.content cursor.old number ≡ Err refusal) }
        ensures err { OnErr result (cursor.new ≡ cursor.old) }
    {
        if number < 1 || number > u64::from(self.record_count()) {
            return Err(Refusal::OutOfRange);
        }
        *cursor = cursor.at_record(number as u32);
        Ok(())
    }

    /// SKIP: the cursor goes the given number of records on in its order, or back where the number is below 0.
    ///
    /// Past the last record it comes to the end, and before the first it stays at the first with BOF() true.
    /// `EndOfFile` for a number above 0 at the end; `BeginOfFile` for one below 0 where BOF() is true or the table
    /// has no records. By 0 it changes FOUND() alone.
    pub fn skip(&self, cursor: &mut Cursor, steps: i64) -> Result<(), Refusal>
        requires cursor { IsCursor self.now.content cursor.old }
        ensures done { OnOk result (skip self.now.content cursor.old steps ≡ Ok cursor.new) }
        ensures refused { IfErr result (λ refusal. skip self.now.content cursor.old steps ≡ Err refusal) }
        ensures err { OnErr result (cursor.new ≡ cursor.old) }
    {
        if steps > 0 {
            return self.skip_forward(cursor, steps.unsigned_abs());
        }
        if steps < 0 {
            return self.skip_backward(cursor, steps.unsigned_abs());
        }
        cursor.found = false;
        Ok(())
    }

    /// SEEK: the cursor goes to the first record in its order whose key begins with the text, with FOUND() true;
    /// where there is none, to the end. `NotIndexed` where its order is that of the record numbers.
    pub fn seek(&self, cursor: &mut Cursor, text: &[u8]) -> Result<(), Refusal>
        requires order { cursor.old.order ≤ length self.now.content.indexes }
        ensures done { OnOk result (seek self.now.content cursor.old text.now ≡ Ok cursor.new) }
        ensures refused { IfErr result (λ refusal. seek self.now.content cursor.old text.now ≡ Err refusal) }
        ensures err { OnErr result (cursor.new ≡ cursor.old) }
    {
        if cursor.order == 0 {
            return Err(Refusal::NotIndexed);
        }
        match self.first_beginning(cursor.order, text) {
            Some(pair) => {
                *cursor = cursor.at_record(pair.number);
                cursor.found = true;
            }
            None => *cursor = cursor.moved(None, self.has_no_records()),
        }
        Ok(())
    }

    /// SET ORDER: from now on the cursor moves by the index of a number, or by the record numbers where it is
    /// 0. The record, BOF() and FOUND() stay. `NoSuchOrder` where there is no such index.
    pub fn set_order(&self, cursor: &mut Cursor, order: u64) -> Result<(), Refusal>
        ensures done { OnOk result (set_order self.now.content cursor.old order ≡ Ok cursor.new) }
        ensures refused { IfErr result (λ refusal. set_order self.now.content cursor.old order ≡ Err refusal) }
        ensures err { OnErr result (cursor.new ≡ cursor.old) }
    {
        if order > self.index_count() as u64 {
            return Err(Refusal::NoSuchOrder);
        }
        cursor.order = order as usize;
        Ok(())
    }

    fn has_no_records(&self) -> bool
        ensures value { result ≡ has_no_records self.now.content }
    {
        self.record_count() == 0
    }

    // The cursor at the top.
    pub(crate) fn at_top(&self, cursor: &Cursor) -> Cursor
        requires order { cursor.now.order ≤ length self.now.content.indexes }
        ensures value { result ≡ at_top self.now.content cursor.now }
    {
        cursor.moved(self.first(cursor.order), self.has_no_records())
    }

    // The first record in an order.
    fn first(&self, order: usize) -> Option<u32>
        requires order { order ≤ length self.now.content.indexes }
        ensures value { result ≡ slice_get (numbers self.now.content order) 0 }
    {
        if order == 0 {
            return first_number(self.record_count());
        }
        first_record(&self.indexes[order - 1], &self.records)
    }

    // The last record in an order.
    fn last(&self, order: usize) -> Option<u32>
        requires order { order ≤ length self.now.content.indexes }
        ensures value { result ≡ slice_get (numbers self.now.content order) (length (numbers self.now.content order) - 1) }
    {
        if order == 0 {
            return last_number(self.record_count());
        }
        last_record(&self.indexes[order - 1], &self.records)
    }

    // The first pair of an index whose key begins with a text.
    fn first_beginning(&self, order: usize, text: &[u8]) -> Option<Pair>
        requires one { 1 ≤ order }
        requires order { order ≤ length self.now.content.indexes }
        ensures value { result ≡ first_with_text text.now (order_at self.now.content order) }
    {
        first_with(&self.indexes[order - 1], &self.records, text)
    }

    // SKIP by one or more.
    fn skip_forward(&self, cursor: &mut Cursor, steps: u64) -> Result<(), Refusal>
        requires cursor { IsCursor self.now.content cursor.old }
        ensures done { OnOk result (forward self.now.content cursor.old steps ≡ Ok cursor.new) }
        ensures refused { IfErr result (λ refusal. forward self.now.content cursor.old steps ≡ Err refusal) }
        ensures err { OnErr result (cursor.new ≡ cursor.old) }
    {
        let Some(number) = cursor.at else {
            return Err(Refusal::EndOfFile);
        };
        *cursor = cursor.moved(self.later(cursor.order, number, steps), false);
        Ok(())
    }

    // SKIP back by one or more.
    fn skip_backward(&self, cursor: &mut Cursor, steps: u64) -> Result<(), Refusal>
        requires cursor { IsCursor self.now.content cursor.old }
        requires some { 1 ≤ steps }
        ensures done { OnOk result (backward self.now.content cursor.old steps ≡ Ok cursor.new) }
        ensures refused { IfErr result (λ refusal. backward self.now.content cursor.old steps ≡ Err refusal) }
        ensures err { OnErr result (cursor.new ≡ cursor.old) }
    {
        if cursor.bof || self.has_no_records() {
            return Err(Refusal::BeginOfFile);
        }
        *cursor = match self.earlier(cursor.order, cursor.at, steps) {
            Some(number) => cursor.at_record(number),
            None => cursor.moved(self.first(cursor.order), true),
        };
        Ok(())
    }

    // The record `steps` places after one in an order.
    fn later(&self, order: usize, number: u32, steps: u64) -> Option<u32>
        requires one { 1 ≤ number }
        requires inside { number ≤ length self.now.content.table.rows }
        requires order { order ≤ length self.now.content.indexes }
        ensures value { result ≡ slice_get (numbers self.now.content order) (place_in number (numbers self.now.content order) + steps) }
    {
        if order == 0 {
            return number_after(self.record_count(), number, steps);
        }
        record_after(&self.indexes[order - 1], &self.records, number, steps)
    }

    // The record `steps` places before a record or the end in an order.
    fn earlier(&self, order: usize, at: Option<u32>, steps: u64) -> Option<u32>
        requires place { IsCursorPlace self.now.content at }
        requires order { order ≤ length self.now.content.indexes }
        requires some { 1 ≤ steps }
        ensures value { result ≡ back_from (numbers self.now.content order) (place_of (numbers self.now.content order) at) steps }
    {
        match at {
            Some(number) => self.earlier_record(order, number, steps),
            None => self.from_end(order, steps),
        }
    }

    fn earlier_record(&self, order: usize, number: u32, steps: u64) -> Option<u32>
        requires one { 1 ≤ number }
        requires inside { number ≤ length self.now.content.table.rows }
        requires order { order ≤ length self.now.content.indexes }
        ensures value { result ≡ back_from (numbers self.now.content order) (place_in number (numbers self.now.content order)) steps }
    {
        if order == 0 {
            return number_before(self.record_count(), number, steps);
        }
        record_before(&self.indexes[order - 1], &self.records, number, steps)
    }

    fn from_end(&self, order: usize, steps: u64) -> Option<u32>
        requires order { order ≤ length self.now.content.indexes }
        requires some { 1 ≤ steps }
        ensures value { result ≡ back_from (numbers self.now.content order) (length (numbers self.now.content order)) steps }
    {
        if order == 0 {
            return number_from_end(self.record_count(), steps);
        }
        record_from_end(&self.indexes[order - 1], &self.records, steps)
    }
}
