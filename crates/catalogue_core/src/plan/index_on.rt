//! The plan of INDEX ON. Its expression is read in memory, so want of memory may come in place of the refusals from there
//! on, and of none before.

ghost use Rattle.std.specs.Prelude.{◌≡◌, ◌≢◌, ◌≤◌, length, Ok, Err, Some, None, IfOk, IfErr};
ghost use Rattle.std.specs.List.{list_all};
ghost use Rattle.dbf_fields.specs.Name.{is_name_char};
ghost use Rattle.key_expr.specs.declared.format.TheConstants.{MAX_EXPRESSION_BYTES};
ghost use Rattle.key_expr.specs.Expression.{Expression, expression_in};
ghost use Rattle.table_core.specs.declared.fault.TableFault.TheVariants.{Refused, NoMemory};
ghost use Rattle.table_core.specs.declared.refusal.Refusal.TheVariants.{BadExpression};
ghost use Rattle.catalogue_core.specs.IndexOn.{index_target, is_index_name as is_name, new_index};
ghost use Rattle.catalogue_core.specs.Planned.{planned, CanChange, IsIndexOnFault, IsNewIndex};
ghost use Rattle.catalogue_core.specs.Rooms.{seen};
ghost use Rattle.catalogue_core.specs.State.{area_of, table_of, IsState, HasStation, IsArea};
ghost use Rattle.catalogue_core.specs.Step.{index_on};

use crate::area::Area;
use crate::change::{Change, Plan};
use crate::opening::MAX_INDEXES;
use crate::state::State;
use byte_io::Bytes;
use dbf_fields::Schema;
use key_expr::{ExprFault, KeyExpr};
use std::alloc::Global;
use table_core::{Refusal, TableFault};

/// The greatest number of bytes of the name of an index that is made.
pub(crate) const MAX_INDEX_NAME_BYTES: usize = 8;

// A letter, a digit or `_`.
fn is_name_byte(byte: u8) -> bool
    ensures value { result ≡ is_name_char byte }
{
    byte.is_ascii_alphanumeric() || byte == b'_'
}

fn are_name_bytes(name: &[u8]) -> bool
    ensures value { result ≡ list_all is_name_char name.now }
{
    name.iter().all(|byte| is_name_byte(*byte))
}

// Whether an index can have the name.
fn is_index_name(name: &[u8]) -> bool
    ensures value { result ≡ is_name name.now }
{
    name.len() >= 1
        && name.len() <= MAX_INDEX_NAME_BYTES
        && name[0].is_ascii_alphabetic()
        && are_name_bytes(name)
}

// The current area, where the name is one for an index, and the table is open exclusively.
fn find_index_target(state: &State, station: u32, name: &Bytes) -> Result<Area, Refusal>
    requires state { IsState (seen state.now) }
    requires station { HasStation (seen state.now) station }
    ensures value { result ≡ index_target (seen state.now) station name.now }
    ensures open { IfOk result (λ area. area_of (seen state.now) station ≡ Some area) }
    ensures is_area { IfOk result (IsArea (seen state.now).tables) }
{
    if !is_index_name(name.as_slice()) {
        return Err(Refusal::BadCommand);
    }
    let area = state.area(station).ok_or(Refusal::NoTableInUse)?;
    if !area.exclusive {
        return Err(Refusal::NeedsExclusive);
    }
    Ok(area)
}

// The key expression of a text for the fields of a table.
fn read_key(alloc: Global, text: &[u8], schema: &Schema) -> Result<KeyExpr, TableFault>
    ensures read { IfOk result (λ expr. expression_in schema.now text.now ≡ Some expr) }
    ensures fields { IfOk result (λ expr. expr.fields ≡ schema.now) }
    ensures refused { IfErr result (λ fault. fault ≢ NoMemory → (fault ≡ Refused BadExpression) × (expression_in schema.now text.now ≡ None)) }
    ensures early { IfErr result (λ fault. fault ≡ NoMemory → length text.now ≤ MAX_EXPRESSION_BYTES) }
{
    match KeyExpr::parse(alloc, text, schema) {
        Ok(expr) => Ok(expr),
        Err(ExprFault::NoMemory) => Err(TableFault::NoMemory),
        Err(_) => Err(Refusal::BadExpression.into()),
    }
}

// The tests of the new index once its expression has been read.
fn check_new_index(state: &State, area: Area, name: &Bytes) -> Result<(), Refusal>
    requires state { IsState (seen state.now) }
    requires area { IsArea (seen state.now).tables area }
    ensures passed { IfOk result (λ _. (e : Expression) → new_index (seen state.now) area name.now e ≡ Ok (record { name = name.now; expr = e })) }
    ensures refused { IfErr result (λ refusal. (e : Expression) → new_index (seen state.now) area name.now e ≡ Err refusal) }
{
    if state.is_any_index(name) {
        return Err(Refusal::IndexNameUsed);
    }
    if state.table(area.table).index_count() >= MAX_INDEXES {
        return Err(Refusal::TooManyIndexes);
    }
    Ok(())
}

// The area and the key expression of an INDEX ON that is not refused.
fn find_new_index(
    alloc: Global,
    state: &State,
    station: u32,
    text: &Bytes,
    name: &Bytes,
) -> Result<(Area, KeyExpr), TableFault>
    requires state { IsState (seen state.now) }
    requires station { HasStation (seen state.now) station }
    ensures made { IfOk result (IsNewIndex (seen state.now) station text.now name.now) }
    ensures is_area { IfOk result (λ made. IsArea (seen state.now).tables made.0) }
    ensures fields { IfOk result (λ made. made.1.fields ≡ (table_of (seen state.now) made.0).table.schema) }
    ensures refused { IfErr result (IsIndexOnFault (seen state.now) station text.now name.now) }
{
    let area = find_index_target(state, station, name)?;
    let expr = read_key(alloc, text.as_slice(), state.table(area.table).schema())?;
    check_new_index(state, area, name)?;
    Ok((area, expr))
}

pub(crate) fn plan_index_on(
    alloc: Global,
    state: &State,
    station: u32,
    text: &Bytes,
    name: &Bytes,
) -> Result<Plan, TableFault>
    requires state { IsState (seen state.now) }
    requires station { HasStation (seen state.now) station }
    ensures planned { IfOk result (λ plan. index_on (seen state.now) station text.now name.now ≡ Ok (planned (seen state.now) station plan)) }
    ensures can { IfOk result (λ plan. CanChange state.now station plan.change) }
    ensures refused { IfErr result (IsIndexOnFault (seen state.now) station text.now name.now) }
{
    let (area, expr) = find_new_index(alloc, state, station, text, name)?;
    let index = state.plan_index(alloc, area, name.copy(alloc)?, expr)?;
    Ok(Plan::done(Change::Edit(area, index)))
}
