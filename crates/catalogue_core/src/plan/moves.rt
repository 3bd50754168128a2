//! Plans of the commands that move the cursor.

ghost use Rattle.std.specs.Prelude.{◌≡◌, Ok, IfOk, IfErr, OnOk};
ghost use Rattle.table_core.specs.Cursors.{IsCursor};
ghost use Rattle.catalogue_core.specs.Planned.{after_move, outcome_of, CanChange};
ghost use Rattle.catalogue_core.specs.Rooms.{seen};
ghost use Rattle.catalogue_core.specs.State.{IsState, HasStation};
ghost use Rattle.catalogue_core.specs.Step.{move};

use crate::change::{Change, Plan};
use crate::state::State;
use byte_io::Bytes;
use table_core::{Cursor, Refusal, Table};

/// Where a command moves the cursor.
#[derive(Clone, Copy)]
pub(crate) enum Move<'a> {
    /// To the record of a number.
    Go(u64),
    /// To the first record in the order.
    Top,
    /// To the last record in the order.
    Bottom,
    /// The given number of records on in the order.
    Skip(i64),
    /// To the first record whose key begins with a text.
    Seek(&'a Bytes),
    /// Nowhere, but it has the order of a number.
    Order(u64),
}

/// The plan of a move of the current area's cursor.
pub(crate) fn plan_move(state: &State, station: u32, to: Move<'_>) -> Result<Plan, Refusal>
    requires state { IsState (seen state.now) }
    requires station { HasStation (seen state.now) station }
    ensures outcome { outcome_of (seen state.now) station result ≡ move (seen state.now) station (after_move to.entry) }
    ensures can { IfOk result (λ plan. CanChange state.now station plan.change) }
{
    let mut area = state.area(station).ok_or(Refusal::NoTableInUse)?;
    move_cursor(state.table(area.table), &mut area.cursor, to)?;
    Ok(Plan::done(Change::Move(area)))
}

// Moves a cursor of the table.
fn move_cursor(table: &Table, cursor: &mut Cursor, to: Move<'_>) -> Result<(), Refusal>
    requires cursor { IsCursor table.now.content cursor.old }
    ensures done { OnOk result (after_move to.entry table.now.content cursor.old ≡ Ok cursor.new) }
    ensures refused { IfErr result (λ refusal. after_move to.entry table.now.content cursor.old ≡ Err refusal) }
{
    match to {
        Move::Go(number) => table.go(cursor, number),
        Move::Top => table.top(cursor),
        Move::Bottom => table.bottom(cursor),
        Move::Skip(steps) => table.skip(cursor, steps),
        Move::Seek(text) => table.seek(cursor, text.as_slice()),
        Move::Order(number) => table.set_order(cursor, number),
    }
}
