//! Fields, schemas, literals and cells.

use super::sample::Sample;
use super::sweep::{Calls, assert_all, refused};
use byte_io::Bytes;
use dbf_fields::*;
use std::alloc::{AllocError, Global};
use std::test::Fail;

// Whether a field is the first of the sample.
fn is_first(field: &Field, sample: &Sample) -> bool {
    match sample.data.schema().fields().first() {
        Some(first) => {
            field.name == first.name
                && field.kind == first.kind
                && field.width == first.width
                && field.decimals == first.decimals
        }
        None => false,
    }
}

// Whether a field is made as the first of the sample.
fn makes_field(alloc: Global, sample: &Sample) -> Result<bool, AllocError> {
    let field = Field::new(alloc, b"NAME", CHARACTER, 10, 0)?;
    Ok(is_first(&field, sample))
}

// Whether the first field of the sample is copied as it is.
fn copies_field(alloc: Global, sample: &Sample) -> Result<bool, AllocError> {
    match sample.data.schema().fields().first() {
        Some(first) => Ok(is_first(&first.copy(alloc)?, sample)),
        None => Ok(false),
    }
}

// Whether a schema has five fields, of which the first is that of the sample.
fn is_schema(schema: &Schema, sample: &Sample) -> bool {
    match schema.fields().first() {
        Some(first) => {
            schema.fields().len() == 5 && schema.record_length() == 36 && is_first(first, sample)
        }
        None => false,
    }
}

// Whether a schema is made of the fields of the sample.
fn makes_schema(alloc: Global, sample: &Sample) -> Result<bool, AllocError> {
    match Schema::new(alloc, sample.data.schema().fields()) {
        Ok(schema) => Ok(is_schema(&schema, sample)),
        Err(fault) => refused(fault == SchemaFault::NoMemory),
    }
}

// Whether the schema of the sample is copied as it is.
fn copies_schema(alloc: Global, sample: &Sample) -> Result<bool, AllocError> {
    Ok(is_schema(&sample.data.schema().copy(alloc)?, sample))
}

// A text that is kept in a cell.
fn text(alloc: Global) -> Result<Literal, AllocError> {
    Ok(Literal::Text(Bytes::from_slice(alloc, b"CYD")?))
}

// Whether a text is copied as it is.
fn copies_text(alloc: Global) -> Result<bool, AllocError> {
    let text = text(alloc)?;
    Ok(text.copy(alloc)? == text)
}

// Whether a field of the sample keeps a value as this cell.
fn keeps(
    alloc: Global,
    sample: &Sample,
    index: usize,
    value: &Literal,
    cell: &[u8],
) -> Result<bool, AllocError> {
    let Some(field) = sample.data.schema().fields().get(index) else {
        return Ok(false);
    };
    match encode_cell(alloc, field, value) {
        Ok(found) => Ok(found.as_slice() == cell),
        Err(fault) => refused(fault == CellFault::NoMemory),
    }
}

// The number 7.5.
fn seven_and_a_half() -> Literal {
    Literal::Number {
        digits: WholeNumber::new(75),
        scale: 1,
    }
}

struct OfFields;

impl Calls for OfFields {
    fn make(&self, alloc: Global, sample: &mut Sample, number: usize) -> Result<bool, AllocError> {
        match number {
            0 => makes_field(alloc, sample),
            1 => copies_field(alloc, sample),
            2 => copies_text(alloc),
            3 => makes_schema(alloc, sample),
            4 => copies_schema(alloc, sample),
            5 => keeps(alloc, sample, 0, &text(alloc)?, b"CYD       "),
            6 => keeps(alloc, sample, 1, &seven_and_a_half(), b"  7.50"),
            7 => keeps(alloc, sample, 2, &Literal::Truth(true), b"T"),
            8 => keeps(alloc, sample, 3, &Literal::BlankDate, b"        "),
            _ => Ok(false),
        }
    }
}

#[test]
fn each_call_of_fields_where_memory_is_refused(rt: HostRuntime) -> Result<(), Fail> {
    assert_all(&rt, rt.alloc(), &OfFields, 9)
}
