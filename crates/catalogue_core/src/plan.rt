//! What a command will change, and what it will be answered: the refusals of each command, in order.

ghost use Rattle.std.specs.Prelude.{◌≡◌, Ok, IfOk, IfErr, IsOk, OnErr};
ghost use Rattle.catalogue_core.specs.Planned.{planned, CanChange, IsPlanFault};
ghost use Rattle.catalogue_core.specs.Rooms.{seen};
ghost use Rattle.catalogue_core.specs.State.{IsState, HasStation};
ghost use Rattle.catalogue_core.specs.Step.{early_outcome, outcome, step};

mod areas;
mod edits;
mod index_on;
mod moves;

use crate::answer::Answer;
use crate::change::{Change, Plan};
use crate::command::Command;
use crate::state::State;
use areas::{
    plan_ask, plan_file_lock, plan_record_lock, plan_record_locks, plan_select, plan_show,
    plan_unlock, plan_use_table,
};
use edits::{plan_append_blank, plan_change, plan_pack};
use index_on::plan_index_on;
use moves::{Move, plan_move};
use std::alloc::{AllocError, Global};
use table_core::{Edit, Refusal, TableFault};

/// The plan of a station's command, with all memory that it needs; a refused command has the plan to answer its
/// refusal. Nothing changes yet, but for room that is made. An error where memory is refused, and only after all
/// tests: a refused command always has a plan, but for an INDEX ON whose name, table and length of text are good, since
/// its expression is read in memory before the refusals that come after these are told.
pub(crate) fn plan(
    alloc: Global,
    state: &mut State,
    station: u32,
    command: &Command,
) -> Result<Plan, AllocError>
    requires state { IsState (seen state.old) }
    requires station { HasStation (seen state.old) station }
    ensures stepped { IfOk result (λ plan. planned (seen state.old) station plan ≡ step (seen state.old) station command.now) }
    ensures can { IfOk result (λ plan. CanChange state.new station plan.change) }
    ensures early { OnErr result (IsOk (early_outcome (seen state.old) station command.now)) }
    ensures same { seen state.new ≡ seen state.old }
{
    match plan_command(alloc, state, station, command) {
        Ok(plan) => Ok(plan),
        Err(TableFault::Refused(refusal)) => Ok(Plan::answered(Answer::Refused(refusal))),
        Err(TableFault::NoMemory) => Err(AllocError),
    }
}

// The plan of a command that is not refused.
fn plan_command(
    alloc: Global,
    state: &mut State,
    station: u32,
    command: &Command,
) -> Result<Plan, TableFault>
    requires state { IsState (seen state.old) }
    requires station { HasStation (seen state.old) station }
    ensures planned { IfOk result (λ plan. outcome (seen state.old) station command.now ≡ Ok (planned (seen state.old) station plan)) }
    ensures can { IfOk result (λ plan. CanChange state.new station plan.change) }
    ensures refused { IfErr result (IsPlanFault (seen state.old) station command.now) }
    ensures same { seen state.new ≡ seen state.old }
{
    match command {
        Command::Select(number) => Ok(plan_select(state, station, *number)?),
        Command::UseTable { name, exclusive } => {
            Ok(plan_use_table(state, station, name, *exclusive)?)
        }
        Command::CloseTable => Ok(Plan::done(Change::Close)),
        Command::Go(number) => Ok(plan_move(state, station, Move::Go(*number))?),
        Command::Top => Ok(plan_move(state, station, Move::Top)?),
        Command::Bottom => Ok(plan_move(state, station, Move::Bottom)?),
        Command::Skip(steps) => Ok(plan_move(state, station, Move::Skip(*steps))?),
        Command::Seek(text) => Ok(plan_move(state, station, Move::Seek(text))?),
        Command::Order(number) => Ok(plan_move(state, station, Move::Order(*number))?),
        Command::AppendBlank => plan_append_blank(alloc, state, station),
        Command::Replace { field, value } => {
            plan_change(alloc, state, station, Edit::Replace { field, value })
        },
        Command::Memo { field, text } => {
            plan_change(alloc, state, station, Edit::Memo { field, text })
        },
        Command::Delete => plan_change(alloc, state, station, Edit::Delete),
        Command::Recall => plan_change(alloc, state, station, Edit::Recall),
        Command::Pack => plan_pack(alloc, state, station),
        Command::IndexOn { expr, name } => plan_index_on(alloc, state, station, expr, name),
        Command::Unlock => Ok(plan_unlock(state, station)?),
        Command::UnlockAll => Ok(Plan::done(Change::UnlockAll)),
        Command::Show(field) => plan_show(alloc, state, station, field),
        Command::RecordLock => Ok(plan_record_lock(state, station)?),
        Command::RecordLocks(numbers) => plan_record_locks(alloc, state, station, numbers),
        Command::FileLock => Ok(plan_file_lock(state, station)?),
        Command::Ask(question) => Ok(plan_ask(state, station, *question)?),
        Command::Bad => Err(Refusal::BadCommand.into()),
    }
}
