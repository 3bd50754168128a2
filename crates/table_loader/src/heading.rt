//! The heading of a text of CSV.

ghost use Rattle.std.specs.Prelude.{◌≡◌, ◌<◌, ◌||◌, [], length, map, bytes_eq, slice_index_or, Some, None, IfOk, IfErr, OnOk};
ghost use Rattle.csv.specs.Records.{fields_of};
ghost use Rattle.dbf_fields.specs.Faults.{first_fault};
ghost use Rattle.dbf_fields.specs.Field.{has_name as one_has_name};
ghost use Rattle.std.specs.Char.{to_ascii_uppercase as capital_of};
ghost use Rattle.table_loader.specs.Headings.{column_name as name_of_column, column_of as column_by, columns_by, is_named, mark_name, names_tests, text_for as text_of_field, text_in_column};
ghost use Rattle.table_loader.specs.Loading.{IsHeadingFault};

use crate::fault::CsvFault;
use byte_io::Bytes;
use csv::ByteRecord;
use dbf_fields::Field;
use std::alloc::{AllocError, Global};
use std::marker::Model;

/// The name of the column of marks.
const MARK_NAME: &[u8] = b"deleted";

/// Which column has the values of which field.
#[derive(Drop)]
pub(crate) struct Heading {
    of_fields: Vec<Option<usize>>,
    of_marks: Option<usize>,
    count: usize,
}

impl Model for Heading {
    ghost use Rattle.table_loader.specs.Headings.{Columns};

    ghost Value = { Columns };

    ghost view = { λ h. record { of_fields = h.of_fields.items; of_marks = h.of_marks; count = h.count } };
}

// What a line has in the column of an index, from 0; nothing, where it has fewer columns.
fn text_at(cells: &ByteRecord, column: usize) -> &[u8]
    ensures value { result.now ≡ slice_index_or (fields_of cells.now) column [] }
{
    match cells.get(column) {
        Some(text) => text,
        None => &[],
    }
}

// A text in capitals.
fn in_capitals(alloc: Global, text: &[u8]) -> Result<Bytes, AllocError>
    ensures value { IfOk result (λ name. name ≡ map capital_of text.now) }
{
    let bytes = text
        .iter()
        .map(|byte| byte.to_ascii_uppercase())
        .collect(alloc)?;
    Ok(Bytes::from_vec(bytes))
}

// The name that a text of a heading is.
fn column_name(alloc: Global, text: &[u8]) -> Result<Bytes, AllocError>
    ensures value { IfOk result (λ name. name ≡ name_of_column text.now) }
{
    if text == MARK_NAME {
        return Bytes::from_slice(alloc, text);
    }
    in_capitals(alloc, text)
}

// The names of a heading.
fn names_of(alloc: Global, heading: &ByteRecord) -> Result<Vec<Bytes>, AllocError>
    ensures value { IfOk result (λ names. names.items ≡ map name_of_column (fields_of heading.now)) }
{
    let mut names = Vec::new(alloc);
    for column in 0..heading.len() {
        names.push(column_name(alloc, text_at(heading, column))?)?;
    }
    Ok(names)
}

fn has_name(fields: &[Field], name: &Bytes) -> bool
    ensures value { result ≡ one_has_name fields.now name.now }
{
    fields.iter().any(|field| field.name == *name)
}

fn is_earlier(earlier: &[Bytes], name: &Bytes) -> bool
    ensures value { result ≡ is_named earlier.now name.now }
{
    earlier.iter().any(|n| *n == *name)
}

// Whether the name is that of a field or of the column of marks.
fn is_known(fields: &[Field], name: &Bytes) -> bool
    ensures value { result ≡ (one_has_name fields.now name.now || bytes_eq mark_name name.now) }
{
    has_name(fields, name) || MARK_NAME == name.as_slice()
}

// Tests the names, one after the other. Takes no memory.
fn check_names(fields: &[Field], names: &[Bytes]) -> Result<(), CsvFault>
    ensures accepted { OnOk result (first_fault (names_tests fields.now [] names.now) ≡ None) }
    ensures refused { IfErr result (λ fault. first_fault (names_tests fields.now [] names.now) ≡ Some fault) }
{
    for (column, name) in names.iter().enumerate() {
        if !is_known(fields, name) {
            return Err(CsvFault::UnknownName(column + 1));
        }
        if is_earlier(&names[..column], name) {
            return Err(CsvFault::DoubledName(column + 1));
        }
    }
    Ok(())
}

fn column_of(names: &[Bytes], name: &[u8]) -> Option<usize>
    ensures value { result ≡ column_by names.now name.now }
{
    names.iter().position(|n| n.as_slice() == name)
}

// The columns of the fields.
fn columns_of(
    alloc: Global,
    fields: &[Field],
    names: &[Bytes],
) -> Result<Vec<Option<usize>>, AllocError>
    ensures value { IfOk result (λ columns. columns.items ≡ map (λ f. column_by names.now f.name) fields.now) }
{
    fields
        .iter()
        .map(|field| column_of(names, field.name.as_slice()))
        .collect(alloc)
}

impl Heading {
    /// The columns by a heading, which may have the fields' names in any letters.
    ///
    /// `UnknownName` and `DoubledName` tell the first name that is of no field or of an earlier column, and `NoMemory` that there
    /// was no memory.
    pub(crate) fn new(
        alloc: Global,
        fields: &[Field],
        heading: &ByteRecord,
    ) -> Result<Heading, CsvFault>
        ensures value { IfOk result (λ columns. columns ≡ columns_by fields.now (map name_of_column (fields_of heading.now))) }
        ensures accepted { OnOk result (first_fault (names_tests fields.now [] (map name_of_column (fields_of heading.now))) ≡ None) }
        ensures refused { IfErr result (λ fault. IsHeadingFault fault fields.now (map name_of_column (fields_of heading.now))) }
    {
        let names = names_of(alloc, heading)?;
        check_names(fields, &names)?;
        let of_fields = columns_of(alloc, fields, &names)?;
        let of_marks = column_of(&names, MARK_NAME);
        Ok(Heading {
            of_fields,
            of_marks,
            count: names.len(),
        })
    }

    /// How many columns there are.
    pub(crate) fn count(&self) -> usize
        ensures value { result ≡ self.now.count }
    {
        self.count
    }

    /// What a line has for the field of an index, from 0.
    pub(crate) fn text_for<'a>(&self, cells: &'a ByteRecord, field: usize) -> &'a [u8]
        requires field { field < length self.now.of_fields }
        ensures value { result.now ≡ text_of_field self.now (fields_of cells.now) field }
    {
        text_in(cells, self.of_fields[field])
    }

    /// What a line has for the mark.
    pub(crate) fn mark_in<'a>(&self, cells: &'a ByteRecord) -> &'a [u8]
        ensures value { result.now ≡ text_in_column (fields_of cells.now) self.now.of_marks }
    {
        text_in(cells, self.of_marks)
    }
}

// What a line has in a column; nothing, where there is no column.
fn text_in(cells: &ByteRecord, column: Option<usize>) -> &[u8]
    ensures value { result.now ≡ text_in_column (fields_of cells.now) column }
{
    match column {
        Some(column) => text_at(cells, column),
        None => &[],
    }
}
