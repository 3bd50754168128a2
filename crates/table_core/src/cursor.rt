//! Where a station is in a table.

ghost use Rattle.std.specs.Prelude.{◌≡◌, false};
ghost use Rattle.table_core.specs.Moves.{at_record, in_order_of};

/// Where a station is in a table: at a record or at the end, what its last move found, and the order in
/// which it moves.
///
/// The calls of a table want a cursor of that table: at one of its records or at the end, in one of its orders.
/// A move leads from such a cursor to another, and so does an edit; after a Pack all other cursors may be past
/// the last record.
#[derive(Clone, Copy, Debug, PartialEq, Eq)]
pub struct Cursor {
    /// The record, from 1; `None` at the end.
    pub at: Option<u32>,
    /// Whether the last move went back past the first record, or to the top or bottom of an empty table.
    pub bof: bool,
    /// Whether the last SEEK found a record, and no move came since.
    pub found: bool,
    /// 0 for the order of the record numbers, or the number of an index, from 1.
    pub order: usize,
}

impl Cursor {
    /// The cursor at a record, from 1, in the same order.
    pub(crate) fn at_record(self, number: u32) -> Cursor
        ensures value { result ≡ at_record self number }
    {
        self.moved(Some(number), false)
    }

    /// The same cursor in another order.
    pub(crate) fn in_order_of(self, order: usize) -> Cursor
        ensures value { result ≡ in_order_of self order }
    {
        Cursor { order, ..self }
    }

    /// The cursor at a record, from 1, or at the end, in the same order.
    pub(crate) fn moved(self, at: Option<u32>, bof: bool) -> Cursor
        ensures value { result ≡ record { at = at; bof = bof; found = false; order = self.order } }
    {
        Cursor {
            at,
            bof,
            found: false,
            order: self.order,
        }
    }
}
