//! Reading a table from the bytes of a DBF file.

ghost use Rattle.std.specs.Prelude.{◌≡◌, ◌+◌, ◌*◌, ◌≤◌, ◌==◌, ◌||◌, true, nat_le, length, map, take, drop, Some, None, is_none, IfOk, IfErr, OnOk, MatchResult};
ghost use Rattle.dbf_fields.specs.BadField.{first_bad_field as first_bad_in};
ghost use Rattle.dbf_fields.specs.Faults.{first_fault};
ghost use Rattle.dbf_fields.specs.Field.{folded, widths};
ghost use Rattle.dbf_fields.specs.Schema as schemas;
ghost use Rattle.dbf_image.specs.DbfText.{IsDbf, header_length as dbf_header_length};
ghost use Rattle.dbf_image.specs.Table.{Table};
ghost use Rattle.dbf_image.specs.declared.fault.ImageFault.{ImageFault};
ghost use Rattle.dbf_image.specs.declared.format.TheConstants.{HEADER, MAX_RECORDS, VERSION, VERSION_WITH_MEMOS};
ghost use Rattle.dbf_image.specs.Reading.{field_count, dbf_header, schema_of, header_tests, record_tests, early_refusal, table_read, image_refusal, IsImageRefusal};
ghost use Rattle.dbf_image.specs.BadTable.{bad_in, part_of_field, fields_tests, IsBad, IsFieldsRefusal, IsTableRefusal};
ghost use Rattle.dbf_image.specs.declared.bad_table.TablePart.TheVariants.{Header as InHeader};

use crate::bad_table::{BadTable, TablePart};
use crate::dbf::fields::{descriptor_count, fields_at};
use crate::dbf::header::{Header, header_of};
use crate::dbt::memos::memos_at;
use crate::fault::ImageFault;
use crate::format::{HEADER, MAX_RECORDS, VERSION, VERSION_WITH_MEMOS};
use crate::table::TableData;
use crate::table::records::RecordBytes;
use byte_io::Bytes;
use dbf_fields::{Field, Schema, SchemaFault, first_bad_field};
use std::alloc::{AllocError, Global};

// The numbers of the header, where all of it is there.
#[tactic(auto, unfolding(crate::specs::Reading::header_tests))]
fn header_at(dbf: &[u8]) -> Result<Header, ImageFault>
    ensures accepted { IfOk result (λ _. first_fault (header_tests dbf.now) ≡ None) }
    ensures refused { IfErr result (λ fault. first_fault (header_tests dbf.now) ≡ Some fault) }
    ensures value { IfOk result (λ header. header ≡ dbf_header dbf.now) }
    ensures long { OnOk result (HEADER ≤ length dbf.now) }
    ensures inside { IfOk result (λ header. header.header_length ≤ length dbf.now) }
{
    if dbf.len() < HEADER {
        return Err(ImageFault::Truncated);
    }
    if !has_version(dbf[0]) {
        return Err(ImageFault::BadVersion);
    }
    let header = header_of(dbf);
    if usize::from(header.header_length) > dbf.len() {
        return Err(ImageFault::Truncated);
    }
    Ok(header)
}

// Version 3, without a memo file or with one.
fn has_version(first: u8) -> bool
    ensures value { result ≡ (first == VERSION || first == VERSION_WITH_MEMOS) }
{
    first == VERSION || first == VERSION_WITH_MEMOS
}

// The fields of the schema, by their descriptors.
#[tactic(auto, unfolding(crate::specs::BadTable::fields_tests))]
fn schema_at(alloc: Global, dbf: &[u8], header_length: usize) -> Result<Schema, BadTable>
    requires long { HEADER ≤ length dbf.now }
    requires inside { header_length ≤ length dbf.now }
    requires value { header_length ≡ dbf_header_length dbf.now }
    ensures accepted { IfOk result (λ _. first_fault (fields_tests dbf.now) ≡ None) }
    ensures refused { IfErr result (λ bad. IsBad bad (fields_tests dbf.now)) }
    ensures early { IfErr result (λ bad. field_count dbf.now ≡ None → bad ≡ bad_in InHeader ImageFault.BadHeaderLength) }
    ensures value { IfOk result (λ schema. schema ≡ schema_of dbf.now) }
{
    let Some(count) = descriptor_count(dbf, header_length) else {
        return Err(ImageFault::BadHeaderLength.into());
    };
    let fields = fields_at(alloc, count, &dbf[HEADER..])?;
    let schema = schema_of_fields(alloc, &fields)?;
    Ok(schema)
}

// A list of fields as a schema.
fn schema_of_fields(alloc: Global, fields: &[Field]) -> Result<Schema, BadTable>
    ensures accepted { IfOk result (λ _. is_none (schemas.schema_refusal fields.now) ≡ true) }
    ensures value { IfOk result (λ schema. schema ≡ map folded fields.now) }
    ensures refused { IfErr result (λ bad. IsFieldsRefusal bad fields.now) }
{
    match Schema::new(alloc, fields) {
        Ok(schema) => Ok(schema),
        Err(SchemaFault::NoMemory) => Err(ImageFault::NoMemory.into()),
        Err(_) => Err(BadTable {
            why: ImageFault::BadSchema,
            part: bad_part(fields),
        }),
    }
}

// The part of the files in which the fields are no schema.
fn bad_part(fields: &[Field]) -> TablePart
    ensures value { result ≡ part_of_field (first_bad_in fields.now) }
{
    match first_bad_field(fields) {
        Some(bad) => TablePart::Field(bad),
        None => TablePart::Header,
    }
}

// The tests of the records, whose length the schema gives.
#[tactic(auto, unfolding(crate::specs::Reading::record_tests))]
fn check_records(dbf: &[u8], header: Header, record_length: usize) -> Result<(), ImageFault>
    requires value { header ≡ dbf_header dbf.now }
    requires wide { record_length ≡ 1 + widths (schema_of dbf.now) }
    ensures accepted { OnOk result (first_fault (record_tests dbf.now) ≡ None) }
    ensures refused { IfErr result (λ fault. first_fault (record_tests dbf.now) ≡ Some fault) }
    ensures wide { OnOk result (header.record_length ≡ record_length) }
    ensures count_bounded { OnOk result (header.record_count ≤ MAX_RECORDS) }
    ensures whole { OnOk result (header.header_length + header.record_count * header.record_length ≤ length dbf.now) }
{
    if usize::from(header.record_length) != record_length {
        return Err(ImageFault::BadRecordLength);
    }
    if header.record_count > MAX_RECORDS {
        return Err(ImageFault::TooManyRecords);
    }
    if !has_records(dbf, header) {
        return Err(ImageFault::Truncated);
    }
    Ok(())
}

// Whether the file goes on to the end of its last record; the mark after it may be missing.
fn has_records(dbf: &[u8], header: Header) -> bool
    ensures value { result ≡ nat_le (header.header_length + header.record_count * header.record_length) (length dbf.now) }
{
    let size = u64::from(header.record_count) * u64::from(header.record_length);
    u64::from(header.header_length) + size <= dbf.len() as u64
}

// The bytes of all records.
fn records_at(dbf: &[u8], header: Header) -> &[u8]
    requires whole { header.header_length + header.record_count * header.record_length ≤ length dbf.now }
    ensures value { result.now ≡ take (header.record_count * header.record_length) (drop header.header_length dbf.now) }
{
    let size = u64::from(header.record_count) * u64::from(header.record_length);
    let (_, rest) = dbf.split_at(usize::from(header.header_length));
    let (records, _) = rest.split_at(size as usize);
    records
}

// The bytes of all records, which stay where they are. It takes no memory.
fn records_of(dbf: Bytes, header: Header) -> RecordBytes
    requires whole { header.header_length + header.record_count * header.record_length ≤ length dbf }
    ensures items { result.items ≡ take (header.record_count * header.record_length) (drop header.header_length dbf) }
{
    let size = u64::from(header.record_count) * u64::from(header.record_length);
    RecordBytes::of_file(dbf, usize::from(header.header_length), size as usize)
}

// The table that the bytes tell, or the first test that fails.
fn table_at(alloc: Global, dbf: Bytes, dbt: Option<Bytes>) -> Result<TableData, BadTable>
    ensures accepted { IfOk result (λ _. image_refusal dbf dbt ≡ None) }
    ensures value { IfOk result (λ table. table ≡ table_read dbf dbt) }
    ensures refused { IfErr result (λ bad. IsTableRefusal bad dbf dbt) }
    ensures early { IfErr result (λ bad. (first : ImageFault) → early_refusal dbf ≡ Some first → bad ≡ bad_in InHeader first) }
{
    let file = dbf.as_slice();
    let header = header_at(file)?;
    let start = usize::from(header.header_length);
    let schema = schema_at(alloc, file, start)?;
    let size = schema.record_length();
    check_records(file, header, size)?;
    let bytes = records_at(file, header);
    let (texts, memos) = memos_at(alloc, dbt, &schema, header.record_count, bytes)?;
    let records = records_of(dbf, header);
    Ok(TableData::new(schema, header.record_count, records, texts, memos))
}

/// Reads a table from the bytes of a DBF file, laid out as dBASE III PLUS publishes it, and from those of
/// the file of its memos, where some field is a memo. Numbers stand with their lowest byte first.
///
/// The header tells its own length in bytes 8 and 9, the length of a record in 10 and 11, and how many
/// records there are in 4 to 7. From byte 32 on a descriptor of 32 bytes tells each field, up to a byte
/// 0x0D in place of one. The records stand after the header: a flag, and the cells without separators.
/// Ignored are the date, the reserved bytes, what stands after a name's first zero, what stands between
/// that 0x0D and the header's end, and what stands after the last record: the closing 0x1A may be
/// missing. A flag other than 0x2A means kept, and cells are kept as they are.
///
/// A memo's cell has the number of a block of 512 bytes between blanks, or none or 0 for no memo. The
/// block's text is read as [`read_memo`](crate::read_memo) reads it. The first byte may be 0x03 or 0x83
/// with memos or without. What is read costs time and memory in proportion to the two files, also where
/// many cells name one block.
///
/// The bytes of the two files become those of the table, which has its records and its memos in them.
///
/// An `Err` is the fault of the first test that fails, with the part of the files that it is found in: see [`ImageFault`] and
/// [`TablePart`]. `NoMemory` may stand in its place where memory was refused before that test, and so never in place of a fault
/// of the header.
pub fn read_table_at(alloc: Global, dbf: Bytes, dbt: Option<Bytes>) -> Result<TableData, BadTable>
    // What is read is the files' table.
    ensures found { IfOk result (IsDbf dbf dbt) }
    // No test fails where a table is read.
    ensures accepted { IfOk result (λ _. image_refusal dbf dbt ≡ None) }
    // Files of a table are read, unless memory is refused.
    ensures only { (table : Table) → IsDbf dbf dbt table → MatchResult result (λ t. t ≡ table) (λ bad. bad.why ≡ ImageFault.NoMemory) }
    // Which fault it is, and where.
    ensures refused { IfErr result (λ bad. IsTableRefusal bad dbf dbt) }
    // What is tested before memory is taken is answered as it is, and never as `NoMemory`.
    ensures early { IfErr result (λ bad. (first : ImageFault) → early_refusal dbf ≡ Some first → bad ≡ bad_in InHeader first) }
{
    table_at(alloc, dbf, dbt)
}

/// Reads a table as [`read_table_at`] does, and says of a fault only what it is.
///
/// As a caller has it:
///
/// ```text
/// let table = read_table(alloc, dbf, memos)?;
/// ```
pub fn read_table(alloc: Global, dbf: Bytes, dbt: Option<Bytes>) -> Result<TableData, ImageFault>
    // What is read is the files' table.
    ensures found { IfOk result (IsDbf dbf dbt) }
    // No test fails where a table is read.
    ensures accepted { IfOk result (λ _. image_refusal dbf dbt ≡ None) }
    // Files of a table are read, unless memory is refused.
    ensures only { (table : Table) → IsDbf dbf dbt table → MatchResult result (λ t. t ≡ table) (λ fault. fault ≡ ImageFault.NoMemory) }
    // Which fault it is.
    ensures refused { IfErr result (λ fault. IsImageRefusal fault dbf dbt) }
    // What is tested before memory is taken is answered as it is, and never as `NoMemory`.
    ensures early { IfErr result (λ fault. (first : ImageFault) → early_refusal dbf ≡ Some first → fault ≡ first) }
    // Two files are those of one table at most.
    ensures one { (a b : Table) → IsDbf dbf dbt a → IsDbf dbf dbt b → a ≡ b }
{
    match read_table_at(alloc, dbf, dbt) {
        Ok(table) => Ok(table),
        Err(bad) => Err(bad.why),
    }
}
