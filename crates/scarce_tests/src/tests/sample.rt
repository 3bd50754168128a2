//! The one sample of all sweeps: a table with a memo and an index, their files, the setup that names them, and what of it is
//! compared without memory.

ghost use Rattle.std.specs.Prelude.{IsTrue};
ghost use Rattle.table_core.specs.Cursors.{IsCursor};

use super::indexes::{has_pairs, index_file, index_of_three};
use byte_io::{Bytes, Failures, MemorySink};
use dbf_fields::day_of;
use dbf_image::{GrowingTable, TableData, read_table, write_dbf, write_dbt};
use folders::{MemorySource, NamedFile};
use key_expr::KeyExpr;
use ndx_index::OrderedIndex;
use std::alloc::{AllocError, Global};
use std::test::Fail;
use table_core::{Cursor, Table};

// The fields NAME, AMT, PAID, BORN and NOTE, a memo, for three records; dated 1987-03-15.
#[rattlefmt::skip]
const HEADER: [u8; 193] = [
    // Version, date, record count, header length 193, record length 36.
    0x83, 0x57, 0x03, 0x0f, 0x03, 0x00, 0x00, 0x00, 0xc1, 0x00, 0x24, 0x00, 0, 0, 0, 0,
    0, 0, 0, 0, 0, 0, 0, 0, 0, 0, 0, 0, 0, 0, 0, 0,
    // The descriptors.
    b'N', b'A', b'M', b'E', 0, 0, 0, 0, 0, 0, 0, b'C', 0, 0, 0, 0,
    10, 0, 0, 0, 0, 0, 0, 0, 0, 0, 0, 0, 0, 0, 0, 0,
    b'A', b'M', b'T', 0, 0, 0, 0, 0, 0, 0, 0, b'N', 0, 0, 0, 0,
    6, 2, 0, 0, 0, 0, 0, 0, 0, 0, 0, 0, 0, 0, 0, 0,
    b'P', b'A', b'I', b'D', 0, 0, 0, 0, 0, 0, 0, b'L', 0, 0, 0, 0,
    1, 0, 0, 0, 0, 0, 0, 0, 0, 0, 0, 0, 0, 0, 0, 0,
    b'B', b'O', b'R', b'N', 0, 0, 0, 0, 0, 0, 0, b'D', 0, 0, 0, 0,
    8, 0, 0, 0, 0, 0, 0, 0, 0, 0, 0, 0, 0, 0, 0, 0,
    b'N', b'O', b'T', b'E', 0, 0, 0, 0, 0, 0, 0, b'M', 0, 0, 0, 0,
    10, 0, 0, 0, 0, 0, 0, 0, 0, 0, 0, 0, 0, 0, 0, 0,
    0x0d,
];

/// The first record, which has a memo.
pub(super) const BOB: &[u8; 36] = b" BOB         1.00T19870302         1";

const ADA: &[u8; 36] = b" ADA         2.00                   ";

const DAN: &[u8; 36] = b"*DAN         3.00F19870101          ";

/// The file of the table.
pub(super) fn dbf_file() -> [u8; 302] {
    let mut dbf = [0; 302];
    dbf[..193].copy_from_slice(&HEADER);
    dbf[193..229].copy_from_slice(BOB);
    dbf[229..265].copy_from_slice(ADA);
    dbf[265..301].copy_from_slice(DAN);
    dbf[301] = 0x1a;
    dbf
}

/// The file of its memos: the next free block is 2, and block 1 has the text HELLO.
pub(super) fn memo_file() -> [u8; 1024] {
    let mut dbt = [0; 1024];
    dbt[0] = 2;
    dbt[16] = 3;
    dbt[512..519].copy_from_slice(b"HELLO\x1a\x1a");
    dbt
}

/// The records by the index.
pub(super) const BY_NAME: [u32; 3] = [2, 1, 3];

/// What the calls are made on.
#[derive(Drop)]
pub(super) struct Sample {
    pub(super) data: TableData,
    pub(super) growing: GrowingTable,
    pub(super) table: Table,
    pub(super) cursor: Cursor,
    pub(super) index: OrderedIndex,
    // It has room for the files.
    pub(super) sink: MemorySink,
}

/// The table of the files, without room for more.
pub(super) fn data(alloc: Global) -> Result<TableData, Fail> {
    let dbf = Bytes::from_slice(alloc, &dbf_file())?;
    let dbt = Bytes::from_slice(alloc, &memo_file())?;
    let table = read_table(alloc, dbf, Some(dbt))?;
    Ok(table.copy(alloc)?)
}

// The same table with its index.
fn table(alloc: Global) -> Result<Table, Fail> {
    let mut table = Table::without_indexes(alloc, data(alloc)?);
    let name = Bytes::from_slice(alloc, b"BYNAME")?;
    let expr = KeyExpr::parse(alloc, b"NAME", table.schema())?;
    table.add_index(alloc, name, expr)?;
    Ok(table)
}

// A sink with room for the files.
fn roomy_sink(alloc: Global) -> Result<MemorySink, AllocError> {
    let mut sink = MemorySink::new(alloc);
    sink.bytes.reserve(8192)?;
    Ok(sink)
}

/// A new sample.
pub(super) fn make_sample(alloc: Global) -> Result<Sample, Fail> {
    let sink = roomy_sink(alloc)?;
    let index = index_of_three(alloc)?;
    let data = data(alloc)?;
    let growing = data.copy(alloc)?.into_growing();
    let table = table(alloc)?;
    Ok(Sample {
        data,
        growing,
        table,
        cursor: at_first(),
        index,
        sink,
    })
}

/// The cursor at the first record, in the order of the index.
pub(super) fn at_first() -> Cursor {
    Cursor {
        at: Some(1),
        bof: false,
        found: false,
        order: 1,
    }
}

/// Whether the cursor is one of the table.
pub(super) fn is_cursor(table: &Table, cursor: &Cursor) -> bool
    ensures cursor { IsTrue result → IsCursor table.now.content cursor.now }
{
    let inside = match cursor.at {
        Some(number) => number >= 1 && number <= table.record_count(),
        None => true,
    };
    inside && cursor.order <= table.index_count()
}

// Leads a cursor to the next record; false where it can't go.
fn goes_on(table: &Table, cursor: &mut Cursor) -> bool {
    is_cursor(table, cursor) && table.skip(cursor, 1).is_ok()
}

/// Whether these are all records in an order, one after another.
pub(super) fn has_order(table: &Table, order: usize, numbers: &[u32]) -> bool {
    if order > table.index_count() {
        return false;
    }
    let mut cursor = Cursor {
        order,
        ..at_first()
    };
    if table.top(&mut cursor).is_err() {
        return false;
    }
    for number in numbers {
        if cursor.at != Some(*number) || !goes_on(table, &mut cursor) {
            return false;
        }
    }
    cursor.at.is_none()
}

/// Whether the table has the sample's records, and its index alone.
pub(super) fn is_sample(table: &Table) -> bool {
    table.index_count() == 1 && has_order(table, 0, &[1, 2, 3]) && has_order(table, 1, &BY_NAME)
}

// Puts the two files of a table after what a sink has. It takes no memory where the sink has room.
fn write_files(sink: &mut MemorySink, data: &TableData) -> bool {
    match day_of(1987, 3, 15) {
        Some(day) => write_dbf(sink, data, day).is_ok() && write_dbt(sink, data).is_ok(),
        None => false,
    }
}

/// Whether a table is written as these two files. It takes no memory where the sink has room.
pub(super) fn is_written(sink: &mut MemorySink, table: &TableData, dbf: &[u8], dbt: &[u8]) -> bool {
    sink.bytes.clear();
    write_files(sink, table)
        && sink.bytes.as_slice().starts_with(dbf)
        && sink.bytes.as_slice().ends_with(dbt)
        && sink.bytes.len() == dbf.len() + dbt.len()
}

/// Whether a sample is as it was made. It takes no memory.
pub(super) fn is_kept(sample: &mut Sample) -> bool {
    is_written(&mut sample.sink, &sample.data, &dbf_file(), &memo_file())
        && is_sample(&sample.table)
        && sample.cursor == at_first()
        && has_pairs(&sample.index)
}

/// The files of all tables of a sample, one after another.
pub(super) fn files_of(alloc: Global, sample: Sample) -> Result<Vec<u8>, Fail> {
    let Sample {
        data,
        growing,
        table,
        ..
    } = sample;
    let mut sink = MemorySink::new(alloc);
    let is_written = write_files(&mut sink, &data)
        && write_files(&mut sink, &TableData::from_growing(growing))
        && write_files(&mut sink, &table.into_data());
    if !is_written {
        return Err("the tables can't be written".into());
    }
    Ok(sink.bytes)
}

/// A setup of one station.
pub(super) const SETUP: &[u8] = b"TABLE T t.dbf t.dbt\nINDEX T X x.ndx\nSTATION s.prg\n";

/// What the station of the setup asks.
pub(super) const SCRIPT: &[u8] =
    b"USE T EXCLUSIVE\nAPPEND BLANK\nREPLACE NAME WITH \"EVE\"\n? NAME\nREPLACE ZIP WITH \"1\"\nDISPLAY STATUS\n";

// Puts a file after others.
fn add(
    alloc: Global,
    files: &mut Vec<NamedFile>,
    name: &[u8],
    bytes: &[u8],
) -> Result<(), AllocError> {
    let name = Bytes::from_slice(alloc, name)?;
    let bytes = Bytes::from_slice(alloc, bytes)?;
    files.push(NamedFile { name, bytes })?;
    Ok(())
}

// Puts the setup, and what it names, after other files.
fn add_files(alloc: Global, files: &mut Vec<NamedFile>) -> Result<(), AllocError> {
    add(alloc, files, b"S.SET", SETUP)?;
    add(alloc, files, b"t.dbf", &dbf_file())?;
    add(alloc, files, b"t.dbt", &memo_file())?;
    add(alloc, files, b"x.ndx", &index_file())?;
    add(alloc, files, b"s.prg", SCRIPT)
}

/// A source of the setup, and of what it names.
pub(super) fn source(alloc: Global) -> Result<MemorySource, AllocError> {
    let mut files = Vec::with_capacity(alloc, 5)?;
    add_files(alloc, &mut files)?;
    Ok(MemorySource {
        files,
        loads: u64::MAX,
        failures: Failures::none(),
    })
}
