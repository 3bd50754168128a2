//! A text that is a list of fields.

ghost use Rattle.std.specs.Prelude.{◌≡◌, ◌≢◌, ◌++◌, ◌∷◌, [], ℕ, Result, Option, Ok, Err, IfOk, IfErr, OnOk, List, length};
ghost use Rattle.dbf_fields.specs.declared.day.Day.{Day as Date};
ghost use Rattle.dbf_fields.specs.declared.field.Field.{Field as OneField};
ghost use Rattle.dbf_fields.specs.BadField.{first_bad_field as bad_field_in};
ghost use Rattle.dbf_image.specs.Table.{Table, IsTable};
ghost use Rattle.table_text.specs.Structure.{fields_text};
ghost use Rattle.field_list.specs.FieldList.{line_refusal as refusal_of, listed_fields, field_line_numbers, HasBadFieldLine, IsFieldList, IsFieldListFault, AreListed, IsFirstBadLine, schema_fault as schema_fault_of};

use crate::fault::{FieldLineFault, FieldListFault};
use crate::field_line::{field_of, says_nothing, why_no_field};
use dbf_fields::{Field, Schema, SchemaFault, first_bad_field};
use station_lines::lines;
use std::alloc::{AllocError, Global};

// Why a line says no field though it should.
fn why_bad(line: &[u8]) -> Option<FieldLineFault>
    ensures value { result ≡ refusal_of line.now }
{
    if says_nothing(line) {
        None
    } else {
        why_no_field(line)
    }
}

// The first bad line, with its number.
fn first_bad_line(text: &[u8]) -> Option<(usize, FieldLineFault)>
    ensures value { IsFirstBadLine text.now result }
{
    let mut number = 0;
    let mut cursor = lines(text);
    while let Some(line) = cursor.next_line() {
        number += 1;
        if let Some(why) = why_bad(line) {
            return Some((number, why));
        }
    }
    None
}

// Fields, and the numbers of the lines that say them.
#[derive(Debug, Drop)]
struct Listed {
    fields: Vec<Field>,
    numbers: Vec<usize>,
}

// Adds the field of the line of this number, where it says one.
fn add_line(
    alloc: Global,
    listed: &mut Listed,
    number: usize,
    line: &[u8],
) -> Result<(), AllocError>
    ensures fields { OnOk result (listed.new.fields.items ≡ listed.old.fields.items ++ listed_fields (line.now ∷ [])) }
    ensures numbers { OnOk result (listed.new.numbers.items ≡ listed.old.numbers.items ++ field_line_numbers number (line.now ∷ [])) }
{
    if says_nothing(line) {
        return Ok(());
    }
    listed.fields.push(field_of(alloc, line)?)?;
    listed.numbers.push(number)?;
    Ok(())
}

// The fields of a text without a bad line.
fn list_fields(alloc: Global, text: &[u8]) -> Result<Listed, AllocError>
    ensures value { IfOk result (λ listed. AreListed text.now listed.fields.items listed.numbers.items) }
{
    let mut listed = Listed {
        fields: Vec::new(alloc),
        numbers: Vec::new(alloc),
    };
    let mut number = 0;
    let mut cursor = lines(text);
    while let Some(line) = cursor.next_line() {
        number += 1;
        add_line(alloc, &mut listed, number, line)?;
    }
    Ok(listed)
}

// Why the fields are no schema.
fn why_no_schema(listed: &Listed) -> FieldListFault
    requires each { length listed.now.numbers.items ≡ length listed.now.fields.items }
    ensures value { result ≡ schema_fault_of listed.now.numbers.items (bad_field_in listed.now.fields.items) }
{
    match first_bad_field(&listed.fields) {
        Some(bad) => FieldListFault::BadField {
            line: listed.numbers[bad.field_number - 1],
            why: bad.why,
        },
        None => FieldListFault::NoFields,
    }
}

// What is told of a fault of the schema of the fields.
fn told_of(listed: &Listed, fault: SchemaFault) -> FieldListFault
    requires each { length listed.now.numbers.items ≡ length listed.now.fields.items }
    ensures memory { fault ≡ SchemaFault.NoMemory → result ≡ FieldListFault.NoMemory }
    ensures other { fault ≢ SchemaFault.NoMemory → result ≡ schema_fault_of listed.now.numbers.items (bad_field_in listed.now.fields.items) }
{
    match fault {
        SchemaFault::NoMemory => FieldListFault::NoMemory,
        _ => why_no_schema(listed),
    }
}

/// The schema that a text says, a line for each field: its number, which may be missing and is not looked at, its name,
/// its kind, which is Character, Number, Logical, Date or Memo in any case, its width and, of a number, its decimals, which
/// are 0 where they are missing. Words are apart by blanks or tabs. Lines without words say nothing, and so do the lines
/// that [`table_text::write_fields`] prints before those of the fields.
///
/// `BadLine` tells the first line that says no field though it should, whether there is memory or not. Then `NoFields` and
/// `BadField` tell why the fields are no schema: the first line up to whose field they are none. `NoMemory` says that
/// memory was refused.
pub fn read_field_list(alloc: Global, text: &[u8]) -> Result<Schema, FieldListFault>
    ensures read { IfOk result (λ schema. IsFieldList text.now (Ok schema)) }
    ensures fault { IfErr result (IsFieldListFault text.now) }
    ensures early { (line : ℕ) (why : FieldLineFault) → HasBadFieldLine text.now line why → result ≡ Err (FieldListFault.BadLine line why) }
{
    if let Some((line, why)) = first_bad_line(text) {
        return Err(FieldListFault::BadLine { line, why });
    }
    let listed = list_fields(alloc, text)?;
    match Schema::new(alloc, &listed.fields) {
        Ok(schema) => Ok(schema),
        Err(fault) => Err(told_of(&listed, fault)),
    }
}

/// A text says one thing as a list of fields: a schema, or why it is none, and no text says two things.
pub fn one_field_list()
    ensures some { (text : List ℕ) → (said : Result (List OneField) FieldListFault) × IsFieldList text said }
    ensures one { (text : List ℕ) (a b : Result (List OneField) FieldListFault) → IsFieldList text a → IsFieldList text b → a ≡ b }
{}

/// What is printed of the fields of a table, whatever date is told, is a list of these fields.
pub fn printed_fields_are_read()
    ensures read_back { (table : Table) (date : Option Date) → IsTable table → IsFieldList (fields_text table date) (Ok table.schema) }
{}
