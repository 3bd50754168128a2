//! Why a text of CSV is not loaded, with the name of the field at fault, and in words.

ghost use Rattle.std.specs.Prelude.{◌≡◌, ◌++◌, [], codes, slice_index_or, Ok, IfOk, IfErr, OnOk};
ghost use Rattle.std.specs.Io.KnownBytes.{Appends};
ghost use Rattle.table_loader.specs.FaultWords.{column_words, csv_words, fault_words, field_at_fault, field_names as names_of_fields, line_words, name_at_fault, value_name as name_of_value};
ghost use Rattle.table_loader.specs.Loading.{csv_loaded, IsCsvFault};

use crate::fault::{CsvFault, ValueFault};
use crate::form::CsvForm;
use crate::load::load_csv;
use crate::told::told_of;
use byte_io::Bytes;
use dbf_fields::{Field, Schema};
use dbf_image::TableData;
use std::alloc::{AllocError, Global};
use std::io::Write;
use std::{io, mem};

/// Why a text of CSV is not loaded, as its user is told.
#[derive(Debug, PartialEq, Eq, Drop)]
pub struct NamedFault {
    /// Why it is not.
    pub why: CsvFault,
    /// The name of the field whose value a text is not; empty where the fault is another.
    pub field: Bytes,
    /// What is told of it: a line for each cell that is refused, up to a hundred, or the name that no field has; empty where the fault is
    /// another, or memory was refused.
    pub told: Bytes,
}

// The names of fields, copied out.
fn field_names(alloc: Global, fields: &[Field]) -> Result<Vec<Bytes>, AllocError>
    ensures value { IfOk result (λ names. names.items ≡ names_of_fields fields.now) }
{
    let mut names = Vec::new(alloc);
    for field in fields {
        names.push(field.name.copy(alloc)?)?;
    }
    Ok(names)
}

// The name of this index, from 0; an empty one, where there are fewer.
fn name_at(alloc: Global, names: Vec<Bytes>, index: usize) -> Bytes
    ensures value { result ≡ slice_index_or names.items index [] }
{
    let mut names = names;
    if index < names.len() {
        mem::replace(&mut names[index], Bytes::new(alloc))
    } else {
        Bytes::new(alloc)
    }
}

// Of these names, that of the field whose value a text is not; an empty one, where the fault is another.
fn name_of(alloc: Global, names: Vec<Bytes>, why: CsvFault) -> Bytes
    ensures value { result ≡ name_at_fault names.items why }
{
    match why {
        CsvFault::Value(_, index, _) => name_at(alloc, names, index),
        _ => Bytes::new(alloc),
    }
}

// A fault with the name of its field, where fields have these names.
fn named(alloc: Global, names: Vec<Bytes>, why: CsvFault, told: Bytes) -> NamedFault
    ensures why { result.why ≡ why }
    ensures field { result.field ≡ name_at_fault names.items why }
{
    let field = name_of(alloc, names, why);
    NamedFault { why, field, told }
}

// The names of a table's fields, and its schema, copied out.
fn names_and_schema(alloc: Global, table: &TableData) -> Result<(Vec<Bytes>, Schema), AllocError>
    ensures names { IfOk result (λ kept. kept.0.items ≡ names_of_fields table.now.schema) }
{
    let schema = table.schema();
    let names = field_names(alloc, schema.fields())?;
    Ok((names, schema.copy(alloc)?))
}

fn no_memory(alloc: Global) -> NamedFault
    ensures why { result.why ≡ CsvFault.NoMemory }
    ensures field { result.field ≡ [] }
{
    NamedFault {
        why: CsvFault::NoMemory,
        field: Bytes::new(alloc),
        told: Bytes::new(alloc),
    }
}

/// Adds a record for each line of a text of CSV after its heading to a table, as [`load_csv`] does. A fault tells the name of the
/// field whose value a text is not.
pub fn load_csv_named(
    alloc: Global,
    table: TableData,
    text: &[u8],
    form: CsvForm,
) -> Result<TableData, NamedFault>
    ensures loaded { IfOk result (λ new. csv_loaded form table text.now ≡ Ok new) }
    ensures refused { IfErr result (λ fault. IsCsvFault fault.why (csv_loaded form table text.now)) }
    ensures named { IfErr result (λ fault. fault.field ≡ field_at_fault table.schema fault.why) }
{
    let (names, schema) = match names_and_schema(alloc, &table) {
        Ok(kept) => kept,
        Err(_) => return Err(no_memory(alloc)),
    };
    match load_csv(alloc, table, text, form) {
        Ok(new) => Ok(new),
        Err(why) => {
            let told = told_or_nothing(alloc, &schema, text, form, why);
            Err(named(alloc, names, why, told))
        }
    }
}

// What is told of a fault, where there is memory for it.
fn told_or_nothing(
    alloc: Global,
    schema: &Schema,
    text: &[u8],
    form: CsvForm,
    why: CsvFault,
) -> Bytes {
    match told_of(alloc, schema, text, form, why) {
        Ok(told) => told,
        Err(_) => Bytes::new(alloc),
    }
}

// Why a text is no value of a field.
fn value_name(why: ValueFault) -> &'static [u8]
    ensures value { result.now ≡ name_of_value why }
{
    match why {
        ValueFault::TypeMismatch => b"TypeMismatch",
        ValueFault::NumberTooWide => b"NumberTooWide",
        ValueFault::BadDate => b"BadDate",
        ValueFault::TextTooWide => b"TextTooWide",
        ValueFault::BadText => b"BadText",
    }
}

// Prints what is said of a line.
fn print_line<W: Write>(out: &mut W, line: u32, words: &[u8]) -> io::Result<()>
    ensures text { OnOk result (Appends (W.contents out.old) (W.contents out.new) (line_words line words.now)) }
{
    write!(out, "line {line}")?;
    out.write_all(words)?;
    Ok(())
}

// Prints what is said of a column.
fn print_column<W: Write>(out: &mut W, column: usize, words: &[u8]) -> io::Result<()>
    ensures text { OnOk result (Appends (W.contents out.old) (W.contents out.new) (column_words column words.now)) }
{
    write!(out, "column {column}")?;
    out.write_all(words)?;
    Ok(())
}

// Prints that in a line the text for a field is no value of it, and why.
fn print_value<W: Write>(out: &mut W, line: u32, field: &[u8], why: ValueFault) -> io::Result<()>
    ensures text { OnOk result (Appends (W.contents out.old) (W.contents out.new)
        (line_words line (codes ", " ++ (field.now ++ (codes ": " ++ name_of_value why))))) }
{
    print_line(out, line, b", ")?;
    out.write_all(field)?;
    out.write_all(b": ")?;
    out.write_all(value_name(why))?;
    Ok(())
}

impl NamedFault {
    // Prints the fault alone.
    fn print_fault<W: Write>(&self, out: &mut W) -> io::Result<()>
        ensures text { OnOk result (Appends (W.contents out.old) (W.contents out.new) (csv_words self.now.field self.now.why)) }
    {
        match self.why {
            CsvFault::NoHeading => out.write_all(b"there is no heading"),
            CsvFault::UnknownName(column) => {
                print_column(out, column, b": no field has the name")
            }
            CsvFault::DoubledName(column) => {
                print_column(out, column, b": an earlier column has the name")
            }
            CsvFault::CellCount(line) => {
                print_line(out, line, b": not as many cells as the heading")
            }
            CsvFault::TableFull(line) => print_line(out, line, b": TableFull"),
            CsvFault::Value(line, _, why) => print_value(out, line, self.field.as_slice(), why),
            CsvFault::BadMark(line) => print_line(out, line, b": the mark is not true or false"),
            CsvFault::NoMemory => out.write_all(b"out of memory"),
        }
    }

    /// Prints why a text of CSV is not loaded: what is told of the fault, or the fault alone. Takes no memory. An error where a write
    /// fails.
    pub fn print<W: Write>(&self, out: &mut W) -> io::Result<()>
        ensures text { OnOk result (Appends (W.contents out.old) (W.contents out.new) (fault_words self.now)) }
    {
        let told = self.told.as_slice();
        if told.is_empty() {
            self.print_fault(out)
        } else {
            out.write_all(told)
        }
    }
}
