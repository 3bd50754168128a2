//! Plans of the commands on areas and locks, and of those that only show.

ghost use Rattle.std.specs.Prelude.{◌≡◌, ◌≤◌, ◌^◌, nat_lt, true, length, Ok, IfOk, IfErr};
ghost use Rattle.std.specs.Int.{is_in_range};
ghost use Rattle.std.specs.List.{list_all};
ghost use Rattle.table_core.specs.Outcomes.{IsFaultOf};
ghost use Rattle.catalogue_core.specs.Planned.{planned, outcome_of, CanChange};
ghost use Rattle.catalogue_core.specs.Rooms.{seen};
ghost use Rattle.catalogue_core.specs.State.{IsState, HasStation};
ghost use Rattle.catalogue_core.specs.Step.{select, use_table, unlock, lock_record, lock_records, lock_file, are_records, show_field, ask, reply, new_cursor, record_number};
ghost use Rattle.table_core.specs.Cursors.{IsCursor};

use crate::answer::Answer;
use crate::area::{Area, MAX_AREAS};
use crate::change::{Change, Plan};
use crate::command::Question;
use crate::numbers::Numbers;
use crate::state::State;
use byte_io::Bytes;
use lock_table::MAX_RECORD_LOCKS;
use std::alloc::{AllocError, Global};
use table_core::{Cursor, Refusal, Table, TableFault};

pub(crate) fn plan_select(state: &State, station: u32, number: u64) -> Result<Plan, Refusal>
    ensures outcome { outcome_of (seen state.now) station result ≡ select (seen state.now) station number }
    ensures can { IfOk result (λ plan. CanChange state.now station plan.change) }
{
    if number < 1 || number > MAX_AREAS as u64 {
        return Err(Refusal::BadArea);
    }
    Ok(Plan::done(Change::Select(number as u32)))
}

pub(crate) fn plan_use_table(
    state: &State,
    station: u32,
    name: &Bytes,
    exclusive: bool,
) -> Result<Plan, Refusal>
    requires state { IsState (seen state.now) }
    requires station { HasStation (seen state.now) station }
    ensures outcome { outcome_of (seen state.now) station result ≡ use_table (seen state.now) station name.now exclusive }
    ensures can { IfOk result (λ plan. CanChange state.now station plan.change) }
{
    let table = state.table_named(name).ok_or(Refusal::NoTable)?;
    if state.is_open_beside(station, table) {
        return Err(Refusal::AlreadyOpen);
    }
    if state.is_in_use(station, table, exclusive) {
        return Err(Refusal::TableInUse);
    }
    let mut cursor = first_cursor(state.table(table));
    state.table(table).top(&mut cursor)?;
    Ok(Plan::done(Change::Open(Area {
        table,
        exclusive,
        cursor,
    })))
}

pub(crate) fn plan_unlock(state: &State, station: u32) -> Result<Plan, Refusal>
    requires state { IsState (seen state.now) }
    requires station { HasStation (seen state.now) station }
    ensures outcome { outcome_of (seen state.now) station result ≡ unlock (seen state.now) station }
    ensures can { IfOk result (λ plan. CanChange state.now station plan.change) }
{
    let area = state.area(station).ok_or(Refusal::NoTableInUse)?;
    Ok(Plan::done(Change::Unlock(area)))
}

pub(crate) fn plan_record_lock(state: &State, station: u32) -> Result<Plan, Refusal>
    requires state { IsState (seen state.now) }
    requires station { HasStation (seen state.now) station }
    ensures outcome { outcome_of (seen state.now) station result ≡ lock_record (seen state.now) station }
    ensures can { IfOk result (λ plan. CanChange state.now station plan.change) }
{
    let area = state.area(station).ok_or(Refusal::NoTableInUse)?;
    let number = area.cursor.at.ok_or(Refusal::EndOfFile)?;
    if !state.is_free_record(station, area, number) {
        return Ok(Plan::answered(Answer::Truth(false)));
    }
    Ok(Plan {
        change: Change::RecordLock(area, number),
        answer: Answer::Truth(true),
    })
}

/// The plan of locks on the records of a list, all or none.
pub(crate) fn plan_record_locks(
    alloc: Global,
    state: &State,
    station: u32,
    numbers: &Numbers,
) -> Result<Plan, TableFault>
    requires state { IsState (seen state.now) }
    requires station { HasStation (seen state.now) station }
    ensures planned { IfOk result (λ plan. lock_records (seen state.now) station numbers.now ≡ Ok (planned (seen state.now) station plan)) }
    ensures can { IfOk result (λ plan. CanChange state.now station plan.change) }
    ensures refused { IfErr result (λ fault. IsFaultOf fault (lock_records (seen state.now) station numbers.now)) }
{
    let area = state.area(station).ok_or(Refusal::NoTableInUse)?;
    let numbers = numbers.as_slice();
    if numbers.len() > MAX_RECORD_LOCKS {
        return Err(Refusal::TooManyLocks.into());
    }
    if !are_records(state.table(area.table).record_count(), numbers) {
        return Err(Refusal::OutOfRange.into());
    }
    let records = records_of(alloc, numbers)?;
    if !state.is_free_records(station, area, records.as_slice()) {
        return Ok(Plan::answered(Answer::Truth(false)));
    }
    Ok(Plan {
        change: Change::RecordLocks(area, records),
        answer: Answer::Truth(true),
    })
}

pub(crate) fn plan_file_lock(state: &State, station: u32) -> Result<Plan, Refusal>
    requires state { IsState (seen state.now) }
    requires station { HasStation (seen state.now) station }
    ensures outcome { outcome_of (seen state.now) station result ≡ lock_file (seen state.now) station }
    ensures can { IfOk result (λ plan. CanChange state.now station plan.change) }
{
    let area = state.area(station).ok_or(Refusal::NoTableInUse)?;
    if !state.is_free_whole(station, area) {
        return Ok(Plan::answered(Answer::Truth(false)));
    }
    Ok(Plan {
        change: Change::FileLock(area),
        answer: Answer::Truth(true),
    })
}

pub(crate) fn plan_ask(state: &State, station: u32, question: Question) -> Result<Plan, Refusal>
    requires state { IsState (seen state.now) }
    requires station { HasStation (seen state.now) station }
    ensures outcome { outcome_of (seen state.now) station result ≡ ask (seen state.now) station question }
    ensures can { IfOk result (λ plan. CanChange state.now station plan.change) }
{
    let area = state.area(station).ok_or(Refusal::NoTableInUse)?;
    let answer = reply(question, state.table(area.table), &area.cursor);
    Ok(Plan::answered(answer))
}

pub(crate) fn plan_show(
    alloc: Global,
    state: &State,
    station: u32,
    field: &Bytes,
) -> Result<Plan, TableFault>
    requires state { IsState (seen state.now) }
    requires station { HasStation (seen state.now) station }
    ensures planned { IfOk result (λ plan. show_field (seen state.now) station field.now ≡ Ok (planned (seen state.now) station plan)) }
    ensures can { IfOk result (λ plan. CanChange state.now station plan.change) }
    ensures refused { IfErr result (λ fault. IsFaultOf fault (show_field (seen state.now) station field.now)) }
{
    let area = state.area(station).ok_or(Refusal::NoTableInUse)?;
    let text = state.table(area.table).show(alloc, &area.cursor, field)?;
    Ok(Plan::answered(Answer::Text(text)))
}

// Whether this is the number of a record of a table with this many.
fn is_record(count: u32, number: u64) -> bool
    ensures value { result ≡ is_in_range 1 count number }
{
    1 <= number && number <= u64::from(count)
}

// Whether each is the number of a record of a table with this many.
fn all_records(count: u32, numbers: &[u64]) -> bool
    ensures value { result ≡ list_all (is_in_range 1 count) numbers.now }
{
    numbers.iter().all(|number| is_record(count, *number))
}

// The same, and that there is one.
fn are_records(count: u32, numbers: &[u64]) -> bool
    ensures value { result ≡ are_records count numbers.now }
{
    !numbers.is_empty() && all_records(count, numbers)
}

// The numbers of records, as the table of locks has them.
fn records_of(alloc: Global, numbers: &[u64]) -> Result<Vec<u32>, AllocError>
    requires records { list_all (λ n. nat_lt n (2 ^ 32)) numbers.now ≡ true }
    ensures value { IfOk result (λ records. records.items ≡ numbers.now) }
{
    let mut records = Vec::with_capacity(alloc, numbers.len())?;
    for number in numbers {
        records.push(*number as u32)?;
    }
    Ok(records)
}

// The cursor with which a table is opened, before it goes to the top: in the order of the first index, where the
// table has one.
fn first_cursor(table: &Table) -> Cursor
    ensures value { result ≡ new_cursor table.now.content }
    ensures is_cursor { IsCursor table.now.content result }
{
    Cursor {
        at: None,
        bof: false,
        found: false,
        order: if table.index_count() == 0 { 0 } else { 1 },
    }
}

// What a question about a cursor is answered.
fn reply(question: Question, table: &Table, cursor: &Cursor) -> Answer
    requires cursor { IsCursor table.now.content cursor.now }
    ensures value { result ≡ reply question table.now.content cursor.now }
{
    match question {
        Question::Eof => Answer::Truth(cursor.at.is_none()),
        Question::Bof => Answer::Truth(cursor.bof),
        Question::Found => Answer::Truth(cursor.found),
        Question::Deleted => Answer::Truth(table.is_deleted(cursor)),
        Question::Recno => Answer::Number(record_number(table, cursor)),
        Question::Reccount => Answer::Number(u64::from(table.record_count())),
    }
}

// The record at the cursor, and one more than there are at the end.
fn record_number(table: &Table, cursor: &Cursor) -> u64
    ensures value { result ≡ record_number table.now.content cursor.now.at }
{
    match cursor.at {
        Some(number) => u64::from(number),
        None => u64::from(table.record_count()) + 1,
    }
}
