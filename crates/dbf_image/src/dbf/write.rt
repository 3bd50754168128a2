//! Writing a table as the bytes of a DBF file.
#![tactic(auto, using(byte_io::specs::Laws::Sinks::sinks))]

ghost use Rattle.std.specs.Prelude.{◌≡◌, ◌+◌, ◌≤◌, ◌*◌, ◌↔◌, ℕ, List, Option, Some, true, false, length, flat_map, if◌then◌else◌, OnOk};
ghost use Rattle.std.specs.List.{list_all};
ghost use Rattle.dbf_fields.specs.Field.{widths};
ghost use Rattle.dbf_fields.specs.Schema.{IsSchema};
ghost use Rattle.dbf_image.specs.DbfText.{IsDbf};
ghost use Rattle.dbf_image.specs.Table.{has_memos as some_memo};
ghost use Rattle.dbf_image.specs.Blocks.{HasTooManyBlocks, next_free, memo_image};
ghost use Rattle.dbf_image.specs.Image.{header_with, descriptor, version_of, image, IsOutside};
ghost use Rattle.byte_io.specs.Output.{Puts};
ghost use Rattle.byte_io.specs.Sink.{grown, is_byte, IsFront, Rises};
ghost use Rattle.dbf_image.specs.declared.format.TheConstants.{DESCRIPTOR, FIRST_YEAR, HEADER, LAST_YEAR, MAX_BLOCK_NUMBER, NAME_BYTES};

use crate::dbf::header::{Header, dbf_header};
use crate::dbf::rows::put_records;
use crate::dbt::blocks::next_free_block;
use crate::dbt::memos::has_memos;
use crate::format::{
    DESCRIPTOR, END_OF_FILE, FIRST_YEAR, HEADER, HEADER_END, HEADER_LENGTH_OFFSET, LAST_YEAR,
    RECORD_COUNT_OFFSET, RECORD_LENGTH_OFFSET, VERSION, VERSION_WITH_MEMOS,
};
use crate::table::TableData;
use byte_io::{ByteSink, SinkFault, SinkWriter, WriteFault};
use byteorder::{ByteOrder, LittleEndian};
use dbf_fields::{Day, Field};

// The version: 0x83 where there is a file of memos.
fn version_byte(fields: &[Field]) -> u8
    ensures value { result ≡ version_of fields.now }
{
    if has_memos(fields) {
        VERSION_WITH_MEMOS
    } else {
        VERSION
    }
}

// The 32 bytes before the descriptors.
fn header_bytes(version: u8, header: Header, day: Day) -> [u8; HEADER]
    requires low { FIRST_YEAR ≤ day.year }
    requires high { day.year ≤ LAST_YEAR }
    ensures value { result ≡ header_with version header.record_count header.header_length header.record_length day.year day.month day.day }
{
    let mut bytes = [0; HEADER];
    bytes[0] = version;
    bytes[1] = (day.year - FIRST_YEAR) as u8;
    bytes[2] = day.month;
    bytes[3] = day.day;
    LittleEndian::write_u32(&mut bytes[RECORD_COUNT_OFFSET..], header.record_count);
    LittleEndian::write_u16(&mut bytes[HEADER_LENGTH_OFFSET..], header.header_length);
    LittleEndian::write_u16(&mut bytes[RECORD_LENGTH_OFFSET..], header.record_length);
    bytes
}

// The 32 bytes of a field.
#[tactic(auto, unfolding(crate::specs::Image::descriptor))]
fn descriptor_bytes(field: &Field) -> [u8; DESCRIPTOR]
    requires short { length field.now.name ≤ NAME_BYTES }
    ensures value { result ≡ descriptor field.now }
{
    let name = field.name.as_slice();
    let mut bytes = [0; DESCRIPTOR];
    bytes[..name.len()].copy_from_slice(name);
    bytes[11] = field.kind;
    bytes[16] = field.width;
    bytes[17] = field.decimals;
    bytes
}

fn put_descriptors<S: ByteSink>(out: &mut SinkWriter<'_, S>, fields: &[Field])
    requires schema { IsSchema fields.now }
    ensures put { Puts out.old (flat_map descriptor fields.now) out.new }
{
    for field in fields {
        out.put(&descriptor_bytes(field));
    }
}

// The bytes of the file.
fn put_image<S: ByteSink>(out: &mut SinkWriter<'_, S>, table: &TableData, header: Header, day: Day)
    requires low { FIRST_YEAR ≤ day.year }
    requires high { day.year ≤ LAST_YEAR }
    requires count { header.record_count ≡ length table.now.rows }
    requires header { header.header_length ≡ DESCRIPTOR * length table.now.schema + (HEADER + 1) }
    requires wide { header.record_length ≡ 1 + widths table.now.schema }
    ensures put { Puts out.old (image table.now day.year day.month day.day) out.new }
{
    let fields = table.schema().fields();
    out.put(&header_bytes(version_byte(fields), header, day));
    put_descriptors(out, fields);
    out.put(&[HEADER_END]);
    put_records(out, fields, header, table.store());
    out.put(&[END_OF_FILE]);
}

/// Writes the DBF file of a table into a sink, with the date of its last change, of the years 1900 to
/// 2155: the header, a descriptor of 32 bytes for each field, 0x0D, the records, 0x1A. A memo's cell is
/// the number of the block at which its text stands in the file that `write_dbt` writes of the same
/// table, or blanks. It takes no memory: chunks are gathered, up to 65,536 bytes, before the sink is
/// called; what is longer, as the records of a large table without memos, goes to it as it stands.
///
/// `DateOutside` says that the header cannot tell the year, and `TooManyBlocks` that the memos take more
/// blocks than 32 bits count; nothing was written. `Sink` says that the sink failed; it has then taken a
/// front part of the file, which may be all of it or nothing.
pub fn write_dbf<S: ByteSink>(sink: &mut S, table: &TableData, day: Day) -> Result<(), WriteFault>
    ensures wrote { OnOk result (S.written sink.new ≡ grown (S.written sink.old) (image table.now day.year day.month day.day)) }
    ensures no_failure { OnOk result (S.failures sink.new ≡ S.failures sink.old) }
    ensures outside { (result ≡ Err WriteFault.DateOutside) ↔ IsOutside day.year }
    ensures blocks { (result ≡ Err WriteFault.TooManyBlocks) ↔ ((IsOutside day.year → ⊥) × HasTooManyBlocks table.now) }
    ensures dated { result ≡ Err WriteFault.DateOutside → sink.new ≡ sink.old }
    ensures unwritten { result ≡ Err WriteFault.TooManyBlocks → sink.new ≡ sink.old }
    ensures failed { result ≡ Err WriteFault.Sink → Rises (S.failures sink.old) (S.failures sink.new) }
    // What the sink held before the call it still holds.
    ensures kept { IsFront (S.written sink.old) (S.written sink.new) }
    // What a sink that failed has taken is a front part of the file.
    ensures front { result ≡ Err WriteFault.Sink → IsFront (S.written sink.new) (grown (S.written sink.old) (image table.now day.year day.month day.day)) }
    ensures bytes { OnOk result (list_all is_byte (image table.now day.year day.month day.day) ≡ true) }
    // What is written can be read: with the file of memos it is a file of this table,
    ensures reads_back { next_free table.now ≤ MAX_BLOCK_NUMBER → IsDbf (image table.now day.year day.month day.day) (Some (memo_image table.now)) table.now }
    // and where no field is a memo, beside any file of memos or none.
    ensures plain { some_memo table.now.schema ≡ false → (dbt : Option (List ℕ)) → IsDbf (image table.now day.year day.month day.day) dbt table.now }
{
    let header = dbf_header(table);
    if day.year < FIRST_YEAR || day.year > LAST_YEAR {
        return Err(WriteFault::DateOutside);
    }
    if next_free_block(table).is_none() {
        return Err(WriteFault::TooManyBlocks);
    }
    let mut out = SinkWriter::new(sink);
    put_image(&mut out, table, header, day);
    match out.flush() {
        Ok(()) => Ok(()),
        Err(SinkFault) => Err(WriteFault::Sink),
    }
}
