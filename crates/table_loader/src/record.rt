//! The record of a line.

ghost use Rattle.std.specs.Prelude.{◌≡◌, ◌+◌, ◌≤◌, ◌<◌, true, length, Ok, IfErr, OnOk};
ghost use Rattle.csv.specs.Records.{fields_of};
ghost use Rattle.dbf_fields.specs.Field.{has_width};
ghost use Rattle.dbf_fields.specs.Layout.{width_of};
ghost use Rattle.dbf_image.specs.Table.{kind_at};
ghost use Rattle.table_loader.specs.Loading.{fault_told, filled_by, mark_said as mark_of, with_line, HasValuePut, IsCsvFault, IsFilled};
ghost use Rattle.table_loader.specs.Values.{value_of, IsPutFault};

use crate::fault::{CsvFault, ValueFault};
use crate::form::CsvForm;
use crate::heading::Heading;
use crate::value::{PutFault, cell_of};
use csv::ByteRecord;
use dbf_fields::{Field, MEMO, Schema};
use dbf_image::{GrowingTable, MAX_RECORDS, is_memo_text};
use std::alloc::Global;

/// What lines are loaded by.
#[derive(Drop)]
pub(crate) struct Plan {
    /// The fields of the table.
    pub schema: Schema,
    /// The columns of the text.
    pub heading: Heading,
    /// How the text is written.
    pub form: CsvForm,
}

// Puts what a text says into a record's cell or memo.
#[tactic(auto, unfolding(crate::specs::Values::value_of))]
fn put_value(
    alloc: Global,
    table: &mut GrowingTable,
    number: u32,
    index: usize,
    field: &Field,
    text: &[u8],
    form: CsvForm,
) -> Result<(), PutFault>
    requires number { 1 ≤ number }
    requires inside { number ≤ length table.old.table.rows }
    requires index { index < length table.old.table.schema }
    requires kind { kind_at table.old.table.schema index ≡ field.now.kind }
    requires wide { width_of table.old.table.schema index ≡ field.now.width }
    requires width { has_width field.now ≡ true }
    ensures ok { OnOk result (HasValuePut (value_of form field.now text.now) table.old.table number index table.new.table) }
    ensures refused { IfErr result (λ fault. IsPutFault fault (value_of form field.now text.now)) }
{
    if field.kind == MEMO {
        if !is_memo_text(text) {
            return Err(PutFault::Value(ValueFault::BadText));
        }
        table.reserve_text(text.len())?;
        table.set_memo(number, index, text);
        return Ok(());
    }
    let cell = cell_of(alloc, field, text, form)?;
    table.set_cell(number, index, cell.as_slice());
    Ok(())
}

// The fault of a value in a line.
fn fault_of(line: u32, index: usize, fault: PutFault) -> CsvFault
    ensures value { result ≡ fault_told line index fault }
{
    match fault {
        PutFault::Value(why) => CsvFault::Value(line, index, why),
        PutFault::NoMemory => CsvFault::NoMemory,
    }
}

// Adds a record in which each field has what the line says.
fn add_filled(
    alloc: Global,
    table: &mut GrowingTable,
    plan: &Plan,
    line: u32,
    cells: &ByteRecord,
) -> Result<(), CsvFault>
    requires schema { plan.now.schema ≡ table.old.table.schema }
    requires columns { length plan.now.heading.of_fields ≡ length plan.now.schema }
    requires room { length table.old.table.rows < MAX_RECORDS }
    ensures ok { OnOk result (IsFilled (filled_by plan.now line (fields_of cells.now)) table.old.table table.new.table) }
    ensures refused { IfErr result (λ fault. IsCsvFault fault (filled_by plan.now line (fields_of cells.now))) }
{
    table.reserve_record()?;
    table.append_blank();
    let number = table.record_count();
    let fields = plan.schema.fields();
    for (index, field) in fields.iter().enumerate() {
        let text = plan.heading.text_for(cells, index);
        match put_value(alloc, table, number, index, field, text, plan.form) {
            Ok(()) => {}
            Err(fault) => return Err(fault_of(line, index, fault)),
        }
    }
    Ok(())
}

// Whether a line's record is marked.
fn mark_said(line: u32, text: &[u8]) -> Result<bool, CsvFault>
    ensures value { result ≡ mark_of line text.now }
{
    match text {
        b"true" => Ok(true),
        b"false" => Ok(false),
        b"" => Ok(false),
        _ => Err(CsvFault::BadMark(line)),
    }
}

/// Adds the record of a line.
///
/// The faults, in order: `CellCount`, `TableFull`, `Value` of the first field whose text is no value of it, and `BadMark`.
/// `NoMemory` says that there was no memory.
pub(crate) fn add_line(
    alloc: Global,
    table: &mut GrowingTable,
    plan: &Plan,
    line: u32,
    cells: &ByteRecord,
) -> Result<(), CsvFault>
    requires schema { plan.now.schema ≡ table.old.table.schema }
    requires columns { length plan.now.heading.of_fields ≡ length plan.now.schema }
    ensures ok { OnOk result (with_line plan.now.form plan.now.heading line table.old.table (fields_of cells.now) ≡ Ok table.new.table) }
    ensures refused { IfErr result (λ fault. IsCsvFault fault (with_line plan.now.form plan.now.heading line table.old.table (fields_of cells.now))) }
    ensures schema { OnOk result (table.new.table.schema ≡ table.old.table.schema) }
    ensures one_more { OnOk result (length table.new.table.rows ≡ length table.old.table.rows + 1) }
    ensures count_bounded { OnOk result (length table.new.table.rows ≤ MAX_RECORDS) }
{
    if cells.len() != plan.heading.count() {
        return Err(CsvFault::CellCount(line));
    }
    if table.record_count() >= MAX_RECORDS {
        return Err(CsvFault::TableFull(line));
    }
    add_filled(alloc, table, plan, line, cells)?;
    let deleted = mark_said(line, plan.heading.mark_in(cells))?;
    let number = table.record_count();
    table.set_deleted(number, deleted);
    Ok(())
}
