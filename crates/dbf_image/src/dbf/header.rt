//! The numbers of a header.

ghost use Rattle.std.specs.Prelude.{◌≡◌, ◌+◌, ◌*◌, ◌≤◌, length};
ghost use Rattle.dbf_fields.specs.Field.{widths};
ghost use Rattle.dbf_image.specs.Reading.{dbf_header as header_in, table_numbers as numbers_in};
ghost use Rattle.dbf_image.specs.Table.{IsTable};
ghost use Rattle.dbf_image.specs.declared.format.TheConstants.{DESCRIPTOR, HEADER};

use crate::format::{
    DESCRIPTOR, HEADER, HEADER_LENGTH_OFFSET, RECORD_COUNT_OFFSET, RECORD_LENGTH_OFFSET,
};
use crate::table::TableData;
use byteorder::{ByteOrder, LittleEndian};

/// The numbers of a header that tell where the records stand.
#[derive(Clone, Copy)]
pub(crate) struct Header {
    pub(crate) record_count: u32,
    pub(crate) header_length: u16,
    pub(crate) record_length: u16,
}

/// The numbers at the head of a table's file, as they stand there, whether the file is a table's or not. But for the first they are
/// 0 where the file is shorter than the 32 bytes before the fields.
#[derive(Clone, Copy, Debug, PartialEq, Eq)]
pub struct TableNumbers {
    /// How many bytes the file has.
    pub file_length: usize,
    /// The version.
    pub version: u8,
    /// How many bytes the header has.
    pub header_length: u16,
    /// How many bytes a record has.
    pub record_length: u16,
    /// How many records there are.
    pub record_count: u32,
}

/// The numbers of the header of a file that is long enough for them.
pub(crate) fn header_of(dbf: &[u8]) -> Header
    requires long { HEADER ≤ length dbf.now }
    ensures value { result ≡ header_in dbf.now }
{
    Header {
        record_count: LittleEndian::read_u32(&dbf[RECORD_COUNT_OFFSET..]),
        header_length: LittleEndian::read_u16(&dbf[HEADER_LENGTH_OFFSET..]),
        record_length: LittleEndian::read_u16(&dbf[RECORD_LENGTH_OFFSET..]),
    }
}

/// The numbers at the head of a table's file, for whoever says what is wrong with a file that
/// [`read_table_at`](crate::read_table_at) refuses. Takes no memory.
pub fn table_numbers(dbf: &[u8]) -> TableNumbers
    ensures value { result ≡ numbers_in dbf.now }
{
    if dbf.len() < HEADER {
        return TableNumbers {
            file_length: dbf.len(),
            version: 0,
            header_length: 0,
            record_length: 0,
            record_count: 0,
        };
    }
    let header = header_of(dbf);
    TableNumbers {
        file_length: dbf.len(),
        version: dbf[0],
        header_length: header.header_length,
        record_length: header.record_length,
        record_count: header.record_count,
    }
}

/// The numbers of the header that is written of a table.
pub(crate) fn dbf_header(table: &TableData) -> Header
    ensures count { result.record_count ≡ length table.now.rows }
    ensures header { result.header_length ≡ DESCRIPTOR * length table.now.schema + (HEADER + 1) }
    ensures wide { result.record_length ≡ 1 + widths table.now.schema }
    ensures each { IsTable table.now }
{
    let schema = table.schema();
    Header {
        record_count: table.record_count(),
        header_length: (DESCRIPTOR * schema.fields().len() + HEADER + 1) as u16,
        record_length: schema.record_length() as u16,
    }
}
