//! The fields of a table.

ghost use Rattle.std.specs.Prelude.{◌≡◌, ◌+◌, ◌<◌, ◌≤◌, [], length, Some, None, map, drop, slice_index_or, IfOk, IfErr, OnOk};
ghost use Rattle.dbf_fields.specs.Faults.{first_fault};
ghost use Rattle.dbf_fields.specs.Field.{folded, has_name, widths};
ghost use Rattle.dbf_fields.specs.Schema.{field_tests, schema_refusal};
ghost use Rattle.dbf_fields.specs.Layout.{cells_of, offsets_from, offset_of, width_of};
ghost use Rattle.dbf_fields.specs.declared.format.TheConstants.{MAX_CHARACTER_WIDTH};

use crate::field::Field;
use crate::format::{MAX_FIELDS, MAX_RECORD_BYTES};
use std::alloc::{AllocError, AllocFailed, Global};
use std::marker::Model;
use thiserror::Error;

/// Why a list of fields is no schema: the first fault, from left to right.
#[derive(Clone, Copy, Debug, PartialEq, Eq, Error)]
pub enum SchemaFault {
    /// There is no field, or there are more than 128.
    #[error("there are no fields, or more than 128")]
    BadFieldCount,
    /// A name is not 1 to 10 letters, digits or `_` with a letter first.
    #[error("a field's name is bad")]
    BadName,
    /// An earlier field has the name, in capitals.
    #[error("two fields have one name")]
    DuplicateName,
    /// The letter is of no kind that a table may have.
    #[error("a field is of no known kind")]
    BadKind,
    /// The width is none that the kind may have.
    #[error("a field's width is bad")]
    BadWidth,
    /// The cells of a record are over 4,000 bytes together.
    #[error("a record is too long")]
    RecordTooLong,
    /// Memory was refused.
    #[error("out of memory")]
    NoMemory,
}

impl From<AllocError> for SchemaFault {
    ghost use Rattle.std.specs.Prelude.{◌≡◌};
    ghost use Rattle.dbf_fields.specs.declared.schema.SchemaFault.TheVariants.{NoMemory};

    ghost from_gives = { λ _ fault. fault ≡ NoMemory };

    fn from(_refused: AllocError) -> SchemaFault {
        SchemaFault::NoMemory
    }
}

impl<T: Drop> From<AllocFailed<T>> for SchemaFault {
    ghost use Rattle.std.specs.Prelude.{◌≡◌};
    ghost use Rattle.dbf_fields.specs.declared.schema.SchemaFault.TheVariants.{NoMemory};

    ghost from_gives = { λ _ fault. fault ≡ NoMemory };

    fn from(_refused: AllocFailed<T>) -> SchemaFault {
        SchemaFault::NoMemory
    }
}

/// The fields of a table, in order, which contracts see as their list. Every value of this type is a
/// list that the layout allows, with the names in capitals.
#[derive(Debug, Drop)]
pub struct Schema {
    fields: Vec<Field>,
    // Where the cell of each field begins in a record.
    offsets: Vec<u16>,
    record_length: u16,
}

impl Model for Schema {
    ghost use Rattle.std.specs.Prelude.{List};
    ghost use Rattle.dbf_fields.specs.declared.field.Field.{Field};

    ghost Value = { List Field };

    ghost use Rattle.dbf_fields.specs.Layout.{IsLaidOut};

    ghost view = { λ s. s.fields.items };

    ghost invariant = { λ s. IsLaidOut s.fields.items s.offsets.items s.record_length };
}

// Whether an earlier field has the name of a field, whatever the case of the letters.
fn is_duplicate(earlier: &[Field], field: &Field) -> bool
    ensures value { result ≡ has_name (map folded earlier.now) (folded field.now).name }
{
    Field::any_has_name(earlier, field.name.as_slice())
}

// Tests a field after the earlier ones. Takes no memory.
fn check_field(earlier: &[Field], field: &Field) -> Result<(), SchemaFault>
    ensures accepted { OnOk result (first_fault (field_tests (map folded earlier.now) field.now) ≡ None) }
    ensures refused { IfErr result (λ fault. first_fault (field_tests (map folded earlier.now) field.now) ≡ Some fault) }
{
    if !field.has_good_name() {
        return Err(SchemaFault::BadName);
    }
    if is_duplicate(earlier, field) {
        return Err(SchemaFault::DuplicateName);
    }
    if !field.has_known_kind() {
        return Err(SchemaFault::BadKind);
    }
    if !field.has_good_width() {
        return Err(SchemaFault::BadWidth);
    }
    Ok(())
}

/// Tests the fields, one after the other. Takes no memory.
pub(crate) fn check_fields(fields: &[Field]) -> Result<(), SchemaFault>
    ensures accepted { OnOk result (schema_refusal fields.now ≡ None) }
    ensures refused { IfErr result (λ fault. schema_refusal fields.now ≡ Some fault) }
{
    if fields.is_empty() || fields.len() > MAX_FIELDS {
        return Err(SchemaFault::BadFieldCount);
    }
    let mut widths = 0;
    for (i, field) in fields.iter().enumerate() {
        check_field(&fields[..i], field)?;
        widths += u32::from(field.width);
    }
    if widths > MAX_RECORD_BYTES {
        return Err(SchemaFault::RecordTooLong);
    }
    Ok(())
}

// The fields as a schema keeps them.
fn folded_fields(alloc: Global, fields: &[Field]) -> Result<Vec<Field>, AllocError>
    ensures value { IfOk result (λ kept. kept.items ≡ map folded fields.now) }
{
    let mut kept = Vec::with_capacity(alloc, fields.len())?;
    for field in fields {
        kept.push(field.folded(alloc)?)?;
    }
    Ok(kept)
}

// The offsets of the cells in a record, whose flag byte stands first, and the record's length.
fn layout_of(alloc: Global, fields: &[Field]) -> Result<(Vec<u16>, u16), AllocError>
    requires short { widths fields.now ≤ MAX_RECORD_BYTES }
    ensures offsets { IfOk result (λ layout. layout.0.items ≡ offsets_from 1 fields.now) }
    ensures end { IfOk result (λ layout. layout.1 ≡ 1 + widths fields.now) }
{
    let mut offsets = Vec::with_capacity(alloc, fields.len())?;
    let mut offset = 1;
    for field in fields {
        offsets.push(offset)?;
        offset += u16::from(field.width);
    }
    Ok((offsets, offset))
}

impl Schema {
    ghost use Rattle.dbf_fields.specs.Schema.{IsSchemaRefusal, IsSchema};

    /// The schema of the fields: the names in capitals, and no decimals but for numbers.
    ///
    /// The faults are tested in this order: `BadFieldCount`; then, field by field, `BadName`,
    /// `DuplicateName`, `BadKind` (any letter but the capitals `C`, `N`, `L`, `D` and `M`), `BadWidth`; then
    /// `RecordTooLong`. All of them are tested before memory is taken, so `NoMemory` comes only for fields
    /// that a table may have. The rules are those of the published DBF layout, and the limit of 4,000 bytes
    /// that of dBASE III PLUS records.
    pub fn new(alloc: Global, fields: &[Field]) -> Result<Schema, SchemaFault>
        ensures accepted { IfOk result (λ _. schema_refusal fields.now ≡ None) }
        ensures value { IfOk result (λ schema. schema ≡ map folded fields.now) }
        ensures refused { IfErr result (λ fault. IsSchemaRefusal fault fields.now) }
        ensures early { IfErr result (λ fault. (f : SchemaFault) → schema_refusal fields.now ≡ Some f → fault ≡ f) }
    {
        check_fields(fields)?;
        let fields = folded_fields(alloc, fields)?;
        let (offsets, record_length) = layout_of(alloc, &fields)?;
        Ok(Schema {
            fields,
            offsets,
            record_length,
        })
    }

    /// The fields in order, at least 1 and at most 128. They make a schema again.
    pub fn fields(&self) -> &[Field]
        ensures fields { result.now ≡ self.now }
        ensures each { IsSchema self.now }
        ensures count_bounded { length self.now ≤ MAX_FIELDS }
    {
        self.fields.as_slice()
    }

    /// The same schema once more, or an error where memory is refused.
    pub fn copy(&self, alloc: Global) -> Result<Schema, AllocError>
        ensures value { IfOk result (λ schema. schema ≡ self.now) }
    {
        let mut fields = Vec::new(alloc);
        for field in &self.fields {
            fields.push(field.copy(alloc)?)?;
        }
        Ok(Schema {
            fields,
            offsets: Vec::from_slice(alloc, self.offsets.as_slice())?,
            record_length: self.record_length,
        })
    }

    /// The bytes of a record in the file: one for the flag, and the cells, so 2 to 4,001. Takes the same
    /// time however many fields there are.
    pub fn record_length(&self) -> usize
        ensures value { result ≡ 1 + widths self.now }
        ensures short { result ≤ 1 + MAX_RECORD_BYTES }
    {
        usize::from(self.record_length)
    }

    /// Where the cell of a field begins in a record's bytes: after the flag and the cells of the earlier
    /// fields. Fields count from 0. Takes the same time for each.
    pub fn offset(&self, index: usize) -> usize
        requires inside { index < length self.now }
        ensures value { result ≡ offset_of self.now index }
        ensures within { result + width_of self.now index ≤ 1 + widths self.now }
        ensures bounded { result ≤ 1 + MAX_RECORD_BYTES }
    {
        usize::from(self.offsets[index])
    }

    /// How many bytes the cells of a field have. Fields count from 0.
    pub fn width(&self, index: usize) -> usize
        requires inside { index < length self.now }
        ensures value { result ≡ width_of self.now index }
        ensures bounded { result ≤ MAX_CHARACTER_WIDTH }
    {
        usize::from(self.fields[index].width)
    }

    /// The cell of a field in a record's bytes, whose flag stands first. Fields count from 0. Takes the same
    /// time for each.
    pub fn cell_in<'a>(&self, record_bytes: &'a [u8], index: usize) -> &'a [u8]
        requires inside { index < length self.now }
        requires whole { length record_bytes.now ≡ 1 + widths self.now }
        ensures value { result.now ≡ slice_index_or (cells_of self.now (drop 1 record_bytes.now)) index [] }
        ensures wide { length result.now ≡ width_of self.now index }
    {
        let start = self.offset(index);
        let end = start + self.width(index);
        &record_bytes[start..end]
    }
}
