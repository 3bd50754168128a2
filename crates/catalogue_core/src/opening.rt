//! How a catalogue is opened: the tests of the tables and indexes that are handed over, in order.

ghost use Rattle.std.specs.Prelude.{◌≡◌, ◌+◌, bytes_eq, ◌<◌, ◌≤◌, [], ◌∷◌, ◌++◌, None, Some, Ok, Err, false, length, map, IfOk, IfErr, OnOk};
ghost use Rattle.std.specs.List.{list_any};
ghost use Rattle.dbf_fields.specs.Faults.{first_fault};
ghost use Rattle.catalogue_core.specs.Names.{includes_name};
ghost use Rattle.catalogue_core.specs.Opening.{count_tests, name_and_text, table_tests, without_indexes, IndexesOpening, IsNextOpened, NamesDiffer, TableOpening, TablesOpening};
ghost use Rattle.catalogue_core.specs.Tables.{named_table};

mod index;

use crate::opening::index::open_index;
use crate::source::{IndexSource, TableSource};
use byte_io::Bytes;
use dbf_image::TableData;
use key_expr::ExprFault;
use ndx_index::PairList;
use std::alloc::{AllocError, AllocFailed, Global};
use table_core::Table;
use thiserror::Error;

/// The greatest number of tables of a catalogue.
pub const MAX_TABLES: usize = 10;

/// The greatest number of indexes of a table.
pub const MAX_INDEXES: usize = 7;

/// The greatest number of stations of a catalogue.
pub const MAX_STATIONS: u32 = 16;

/// Why a catalogue can't be opened: the first fault. Tables count from 1, and so do the indexes of a table.
#[derive(Clone, Copy, Debug, PartialEq, Eq, Error)]
pub enum OpenFault {
    /// There is no station.
    #[error("there is no station")]
    NoStation,
    /// There are more than 16 stations.
    #[error("there are too many stations")]
    TooManyStations,
    /// There are more than 10 tables.
    #[error("there are too many tables")]
    TooManyTables,
    /// The table of this number has the name of an earlier one.
    #[error("table {0} has the name of an earlier one")]
    DuplicateTable(u32),
    /// The table of this number has more than 7 indexes.
    #[error("table {0} has too many indexes")]
    TooManyIndexes(u32),
    /// The index of the second number, of the table of the first, has the name of an earlier index of any table.
    #[error("index {1} of table {0} has the name of an earlier one")]
    DuplicateIndex(u32, u32),
    /// The text of this index is no key expression for the table's fields.
    #[error("index {1} of table {0} has no good key expression: {2}")]
    BadExpression(u32, u32, ExprFault),
    /// The file of this index is not of the table as it is: its keys have another length, or its pairs are not
    /// those of the table's records, each as often.
    #[error("index {1} of table {0} is stale")]
    IndexStale(u32, u32),
    /// Memory was refused.
    #[error("out of memory")]
    NoMemory,
}

impl From<AllocError> for OpenFault {
    ghost use Rattle.std.specs.Prelude.{◌≡◌};
    ghost use Rattle.catalogue_core.specs.declared.opening.OpenFault.TheVariants.{NoMemory};

    ghost from_gives = { λ _ fault. fault ≡ NoMemory };

    fn from(_refused: AllocError) -> OpenFault {
        OpenFault::NoMemory
    }
}

impl<T: Drop> From<AllocFailed<T>> for OpenFault {
    ghost use Rattle.std.specs.Prelude.{◌≡◌};
    ghost use Rattle.catalogue_core.specs.declared.opening.OpenFault.TheVariants.{NoMemory};

    ghost from_gives = { λ _ fault. fault ≡ NoMemory };

    fn from(_refused: AllocFailed<T>) -> OpenFault {
        OpenFault::NoMemory
    }
}

/// A table that is opened, under its name.
#[derive(Drop)]
pub(crate) struct OpenedTable {
    pub(crate) name: Bytes,
    pub(crate) table: Table,
}

/// Tests the number of stations and of tables. Takes no memory.
pub(crate) fn check_counts(tables: usize, stations: u32) -> Result<(), OpenFault>
    ensures accepted { OnOk result (first_fault (count_tests tables stations) ≡ None) }
    ensures refused { IfErr result (λ fault. first_fault (count_tests tables stations) ≡ Some fault) }
    ensures count_bounded { OnOk result (tables ≤ MAX_TABLES) }
{
    if stations < 1 {
        return Err(OpenFault::NoStation);
    }
    if stations > MAX_STATIONS {
        return Err(OpenFault::TooManyStations);
    }
    if tables > MAX_TABLES {
        return Err(OpenFault::TooManyTables);
    }
    Ok(())
}

/// Tests the tables and their indexes in order, and makes the tables.
pub(crate) fn open_tables(
    alloc: Global,
    sources: Vec<TableSource>,
    reindex: bool,
) -> Result<Vec<OpenedTable>, OpenFault>
    requires count_bounded { length sources.items ≤ MAX_TABLES }
    ensures opened { IfOk result (λ tables. TablesOpening reindex [] sources.items (Ok (map named_table tables.items))) }
    ensures refused { IfErr result (λ fault. TablesOpening reindex [] sources.items (Err fault)) }
    ensures named { IfOk result (λ tables. NamesDiffer (map (λ t. t.name) tables.items)) }
    ensures count_bounded { IfOk result (λ tables. length tables.items ≤ MAX_TABLES) }
{
    let mut opened = Vec::new(alloc);
    for source in sources {
        if let Err(fault) = open_table(alloc, &mut opened, source, reindex) {
            return Err(fault);
        }
    }
    Ok(opened)
}

// Adds the next table after those that are opened.
fn open_table(
    alloc: Global,
    opened: &mut Vec<OpenedTable>,
    source: TableSource,
    reindex: bool,
) -> Result<(), OpenFault>
    requires count_bounded { length opened.old.items < MAX_TABLES }
    ensures opened { OnOk result (IsNextOpened reindex source (map named_table opened.old.items) (map named_table opened.new.items)) }
    ensures refused { IfErr result (λ fault. TableOpening reindex (map named_table opened.old.items) source (Err fault)) }
    ensures new { OnOk result (includes_name (map (λ t. t.name) opened.old.items) source.name ≡ false) }
    ensures name { OnOk result (map (λ t. t.name) opened.new.items ≡ map (λ t. t.name) opened.old.items ++ source.name ∷ []) }
    ensures count { OnOk result (length opened.new.items ≡ length opened.old.items + 1) }
{
    check_table(opened, &source)?;
    let table = open_indexes(alloc, opened, source.content, source.indexes, reindex)?;
    opened.push(OpenedTable {
        name: source.name,
        table,
    })?;
    Ok(())
}

// Tests the name of the next table, and the number of its indexes. Takes no memory.
fn check_table(opened: &[OpenedTable], source: &TableSource) -> Result<(), OpenFault>
    requires count_bounded { length opened.now < MAX_TABLES }
    ensures accepted { OnOk result (first_fault (table_tests (map named_table opened.now) source.now) ≡ None) }
    ensures refused { IfErr result (λ fault. first_fault (table_tests (map named_table opened.now) source.now) ≡ Some fault) }
    ensures new { OnOk result (includes_name (map (λ t. t.name) opened.now) source.now.name ≡ false) }
    ensures count_bounded { OnOk result (length source.now.indexes.items ≤ MAX_INDEXES) }
{
    let number = opened.len() as u32 + 1;
    if is_opened(opened, &source.name) {
        return Err(OpenFault::DuplicateTable(number));
    }
    if source.indexes.len() > MAX_INDEXES {
        return Err(OpenFault::TooManyIndexes(number));
    }
    Ok(())
}

fn is_opened(opened: &[OpenedTable], name: &Bytes) -> bool
    ensures value { result ≡ includes_name (map (λ t. t.name) opened.now) name.now }
{
    any_has_name(opened, name)
}

fn any_has_name(opened: &[OpenedTable], name: &Bytes) -> bool
    ensures value { result ≡ list_any (λ t. bytes_eq name.now t.name) opened.now }
{
    opened.iter().any(|table| *name == table.name)
}

// The table with its indexes.
fn open_indexes(
    alloc: Global,
    earlier: &[OpenedTable],
    content: TableData,
    indexes: Vec<IndexSource>,
    reindex: bool,
) -> Result<Table, OpenFault>
    requires earlier { length earlier.now < MAX_TABLES }
    requires count_bounded { length indexes.items ≤ MAX_INDEXES }
    ensures opened { IfOk result (λ table. IndexesOpening reindex (map named_table earlier.now) (without_indexes content) indexes.items (Ok table.content)) }
    ensures refused { IfErr result (λ fault. IndexesOpening reindex (map named_table earlier.now) (without_indexes content) indexes.items (Err fault)) }
{
    let mut indexes = indexes;
    if reindex {
        // The files' pairs are let go before the first index is made.
        let_pairs_go(alloc, &mut indexes);
    }
    add_indexes(alloc, earlier, content, indexes, reindex)
}

// Lets the pairs of an index file go. It takes no memory.
fn let_go(alloc: Global, index: &mut IndexSource)
    ensures same { name_and_text index.new ≡ name_and_text index.old }
{
    index.file.pairs = PairList::new(alloc, index.file.pairs.key_len());
}

// Lets the pairs of index files go. It takes no memory.
fn let_pairs_go(alloc: Global, indexes: &mut Vec<IndexSource>)
    ensures same { map name_and_text indexes.new.items ≡ map name_and_text indexes.old.items }
    ensures count { length indexes.new.items ≡ length indexes.old.items }
{
    for index in indexes.iter_mut() {
        let_go(alloc, index);
    }
}

// The table with indexes, one after another.
fn add_indexes(
    alloc: Global,
    earlier: &[OpenedTable],
    content: TableData,
    indexes: Vec<IndexSource>,
    reindex: bool,
) -> Result<Table, OpenFault>
    requires earlier { length earlier.now < MAX_TABLES }
    requires count_bounded { length indexes.items ≤ MAX_INDEXES }
    ensures opened { IfOk result (λ table. IndexesOpening reindex (map named_table earlier.now) (without_indexes content) indexes.items (Ok table.content)) }
    ensures refused { IfErr result (λ fault. IndexesOpening reindex (map named_table earlier.now) (without_indexes content) indexes.items (Err fault)) }
{
    let mut table = Table::without_indexes(alloc, content);
    for index in indexes {
        if let Err(fault) = open_index(alloc, earlier, &mut table, index, reindex) {
            return Err(fault);
        }
    }
    Ok(table)
}
