//! Handing a closed catalogue's tables over to the writing of files.

ghost use Rattle.std.specs.Prelude.{◌≡◌, ◌+◌, ◌<◌, ◌≤◌, length, map, true, Some, IfOk, IfSome, OnOk};
ghost use Rattle.std.specs.List.{AllByRecursion};
ghost use Rattle.std.specs.Option.{option_map};
ghost use Rattle.dbf_image.specs.Table.{IsTable};
ghost use Rattle.table_core.specs.Content.{index_at};
ghost use Rattle.catalogue_core.specs.Replay.{History, names_of};
ghost use Rattle.table_core.specs.Parts.{handed, FitsTable};
ghost use Rattle.office_run.specs.HandedOver.{closed_with, index_of, IsIndexFor, WasReadFor, AreEndOf, AreHandedOver};

use crate::closed::ClosedTable;
use crate::closed_index::ClosedIndex;
use byte_io::Bytes;
use catalogue_core::Entry;
use dbf_image::TableData;
use shared_catalogue::Closed;
use std::alloc::{AllocError, Global};
use table_core::{IndexParts, Table};

// The index of a number, from 1, with its pairs copied out.
fn closed_index(alloc: Global, table: &Table, number: usize) -> Result<ClosedIndex, AllocError>
    requires one { 1 ≤ number }
    requires inside { number ≤ length table.now.content.indexes }
    ensures value { IfOk result (λ index. Some index ≡ option_map (index_of table.now.content.table) (index_at table.now.content number)) }
    ensures read { OnOk result (IfSome (index_at table.now.content number) (IsIndexFor table.now.content.table.schema)) }
{
    let name = table.index_name(number).copy(alloc)?;
    let expr = table.expr(number);
    // For contracts alone: the expression was read for the table's fields.
    let _ = expr.text();
    let expr = expr.copy(alloc)?;
    let pairs = table.index_pairs(alloc, number)?;
    // A pair for each record, and so no more than a file can have.
    prove!(pairs.len() <= table.record_count() as usize);
    Ok(ClosedIndex::new(name, expr, pairs))
}

/// The indexes of a table, in order. An error where memory is refused.
pub(crate) fn closed_indexes(alloc: Global, table: &Table) -> Result<Vec<ClosedIndex>, AllocError>
    ensures value { IfOk result (λ indexes. indexes.items ≡ map (index_of table.now.content.table) table.now.content.indexes) }
    ensures read { OnOk result (AllByRecursion (IsIndexFor table.now.content.table.schema) table.now.content.indexes) }
{
    let mut indexes = Vec::new(alloc);
    for i in 0..table.index_count() {
        indexes.push(closed_index(alloc, table, i + 1)?)?;
    }
    Ok(indexes)
}

// An index that a table has handed over, for the writing of its file.
fn closed_of(content: &TableData, parts: IndexParts) -> ClosedIndex
    requires fits { FitsTable content.now parts }
    ensures value { result ≡ closed_with (handed parts) }
    ensures read { WasReadFor content.now.schema (handed parts) }
{
    // For contracts alone: the expression was read for the table's fields.
    let _ = parts.expr.text();
    // A pair for each record, and so no more than a file can have.
    prove!(parts.pairs.len() <= content.record_count() as usize);
    ClosedIndex::new(parts.name, parts.expr, parts.pairs)
}

// All indexes that a table has handed over, in order.
fn all_closed(
    alloc: Global,
    content: &TableData,
    indexes: Vec<IndexParts>,
) -> Result<Vec<ClosedIndex>, AllocError>
    requires fits { AllByRecursion (FitsTable content.now) indexes.items }
    ensures value { IfOk result (λ closed. closed.items ≡ map closed_with (map handed indexes.items)) }
    ensures read { OnOk result (AllByRecursion (WasReadFor content.now.schema) (map handed indexes.items)) }
{
    let mut closed = Vec::new(alloc);
    for parts in indexes {
        closed.push(closed_of(content, parts))?;
    }
    Ok(closed)
}

// A table under its name, with its indexes, for the writing of its files. Its records are not copied.
fn closed_table(alloc: Global, name: Bytes, table: Table) -> Result<ClosedTable, AllocError>
    ensures named { IfOk result (λ closed. closed.name ≡ name) }
    ensures content { IfOk result (λ closed. closed.content ≡ table.content.table) }
    ensures indexes { IfOk result (λ closed. closed.indexes.items ≡ map (index_of table.content.table) table.content.indexes) }
    ensures table { OnOk result (IsTable table.content.table) }
    ensures read { OnOk result (AllByRecursion (IsIndexFor table.content.table.schema) table.content.indexes) }
{
    // For contracts alone: what is true of every table.
    let _ = table.record_count();
    let (content, parts) = table.into_parts(alloc)?;
    let indexes = all_closed(alloc, &content, parts)?;
    Ok(ClosedTable {
        name,
        content,
        indexes,
    })
}

// The names of the tables, in order.
fn table_names(alloc: Global, closed: &Closed) -> Result<Vec<Bytes>, AllocError>
    ensures value { IfOk result (λ names. names.items ≡ names_of closed.now.opened) }
{
    let mut names = Vec::new(alloc);
    for i in 0..closed.table_count() {
        names.push(closed.table_name(i as u32 + 1).copy(alloc)?)?;
    }
    Ok(names)
}

// Tables under these names, with their indexes, as they are handed over of each catalogue that has them.
fn handed_over(
    alloc: Global,
    names: &[Bytes],
    tables: Vec<Table>,
) -> Result<Vec<ClosedTable>, AllocError>
    requires as_many { length names.now ≡ length tables.items }
    ensures value { IfOk result (λ closed. (h : History) → AreEndOf h names.now (map (λ t. t.content) tables.items) → AreHandedOver h closed.items) }
{
    let mut closed = Vec::new(alloc);
    for table in tables {
        let name = names[closed.len()].copy(alloc)?;
        closed.push(closed_table(alloc, name, table)?)?;
    }
    Ok(closed)
}

/// The tables of a closed catalogue with their indexes, and the entries of its journal where they are wanted, and else none. The
/// tables' records and the entries are not copied; the pairs of indexes are, one index after another, each let go before the
/// pairs of the next are copied. An error where memory is refused.
pub(crate) fn closed_parts(
    alloc: Global,
    closed: Closed,
    with_entries: bool,
) -> Result<(Vec<ClosedTable>, Vec<Entry>), AllocError>
    ensures tables { IfOk result (λ parts. AreHandedOver closed parts.0.items) }
    ensures entries { with_entries ≡ true → IfOk result (λ parts. parts.1.items ≡ closed.journal) }
{
    let names = table_names(alloc, &closed)?;
    let (tables, entries) = if with_entries {
        closed.into_parts()
    } else {
        (closed.into_tables(), Vec::new(alloc))
    };
    Ok((handed_over(alloc, &names, tables)?, entries))
}
