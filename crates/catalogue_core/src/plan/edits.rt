//! Plans of the commands that edit a table: the refusals of areas and locks, and then the table's own.

ghost use Rattle.std.specs.Prelude.{◌≡◌, Ok, Some, IfOk, IfErr};
ghost use Rattle.table_core.specs.Edits.{edit_value};
ghost use Rattle.table_core.specs.Outcomes.{IsFaultOf};
ghost use Rattle.catalogue_core.specs.Planned.{planned, CanChange};
ghost use Rattle.catalogue_core.specs.Rooms.{seen};
ghost use Rattle.catalogue_core.specs.State.{area_of, IsState, HasStation, IsArea};
ghost use Rattle.catalogue_core.specs.Step.{append_record, change_record, pack_table, writable_area};

use crate::area::Area;
use crate::change::{Change, Plan};
use crate::state::State;
use std::alloc::Global;
use table_core::{Edit, Refusal, TableFault};

pub(crate) fn plan_append_blank(
    alloc: Global,
    state: &mut State,
    station: u32,
) -> Result<Plan, TableFault>
    requires state { IsState (seen state.old) }
    requires station { HasStation (seen state.old) station }
    ensures planned { IfOk result (λ plan. append_record (seen state.old) station ≡ Ok (planned (seen state.old) station plan)) }
    ensures can { IfOk result (λ plan. CanChange state.new station plan.change) }
    ensures refused { IfErr result (λ fault. IsFaultOf fault (append_record (seen state.old) station)) }
    ensures same { seen state.new ≡ seen state.old }
{
    let area = state.area(station).ok_or(Refusal::NoTableInUse)?;
    if !state.can_append(station, area) {
        return Err(Refusal::TableInUse.into());
    }
    let edit = state.plan_edit(alloc, area, Edit::AppendBlank)?;
    Ok(Plan::done(Change::Edit(area, edit)))
}

/// The plan of an edit of the record at the cursor: of REPLACE, MEMO, DELETE and RECALL.
pub(crate) fn plan_change(
    alloc: Global,
    state: &mut State,
    station: u32,
    edit: Edit<'_>,
) -> Result<Plan, TableFault>
    requires state { IsState (seen state.old) }
    requires station { HasStation (seen state.old) station }
    ensures planned { IfOk result (λ plan. change_record (seen state.old) station (edit_value edit.entry) ≡ Ok (planned (seen state.old) station plan)) }
    ensures can { IfOk result (λ plan. CanChange state.new station plan.change) }
    ensures refused { IfErr result (λ fault. IsFaultOf fault (change_record (seen state.old) station (edit_value edit.entry))) }
    ensures same { seen state.new ≡ seen state.old }
{
    let area = find_target(state, station)?;
    let edit = state.plan_edit(alloc, area, edit)?;
    Ok(Plan::done(Change::Edit(area, edit)))
}

pub(crate) fn plan_pack(alloc: Global, state: &mut State, station: u32) -> Result<Plan, TableFault>
    requires state { IsState (seen state.old) }
    requires station { HasStation (seen state.old) station }
    ensures planned { IfOk result (λ plan. pack_table (seen state.old) station ≡ Ok (planned (seen state.old) station plan)) }
    ensures can { IfOk result (λ plan. CanChange state.new station plan.change) }
    ensures refused { IfErr result (λ fault. IsFaultOf fault (pack_table (seen state.old) station)) }
    ensures same { seen state.new ≡ seen state.old }
{
    let area = state.area(station).ok_or(Refusal::NoTableInUse)?;
    if !area.exclusive {
        return Err(Refusal::NeedsExclusive.into());
    }
    let edit = state.plan_edit(alloc, area, Edit::Pack)?;
    Ok(Plan::done(Change::Pack(area, edit)))
}

// The current area, where its cursor is at a record that the station may write.
fn find_target(state: &State, station: u32) -> Result<Area, Refusal>
    requires state { IsState (seen state.now) }
    requires station { HasStation (seen state.now) station }
    ensures value { result ≡ writable_area (seen state.now) station }
    ensures open { IfOk result (λ area. area_of (seen state.now) station ≡ Some area) }
    ensures is_area { IfOk result (IsArea (seen state.now).tables) }
{
    let area = state.area(station).ok_or(Refusal::NoTableInUse)?;
    let number = area.cursor.at.ok_or(Refusal::EndOfFile)?;
    if !state.can_write(station, area, number) {
        return Err(Refusal::NotLocked);
    }
    Ok(area)
}
