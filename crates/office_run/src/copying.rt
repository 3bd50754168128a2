//! Copies of a catalogue's tables, for the writing of their files while the catalogue stays.

ghost use Rattle.std.specs.Prelude.{◌≡◌, map, IfOk, OnOk};
ghost use Rattle.std.specs.List.{AllByRecursion};
ghost use Rattle.dbf_image.specs.Table.{IsTable};
ghost use Rattle.office_run.specs.HandedOver.{index_of, IsIndexFor, AreHandedOver};

use crate::closed::ClosedTable;
use crate::closing::closed_indexes;
use byte_io::Bytes;
use catalogue_core::Catalogue;
use std::alloc::{AllocError, Global};
use table_core::Table;

// A copy of a table under its name, with its indexes.
fn copied_table(alloc: Global, name: &Bytes, table: &Table) -> Result<ClosedTable, AllocError>
    ensures named { IfOk result (λ copy. copy.name ≡ name.now) }
    ensures content { IfOk result (λ copy. copy.content ≡ table.now.content.table) }
    ensures indexes { IfOk result (λ copy. copy.indexes.items ≡ map (index_of table.now.content.table) table.now.content.indexes) }
    ensures table { OnOk result (IsTable table.now.content.table) }
    ensures read { OnOk result (AllByRecursion (IsIndexFor table.now.content.table.schema) table.now.content.indexes) }
{
    // For contracts alone: what is true of every table.
    let _ = table.record_count();
    let name = name.copy(alloc)?;
    let content = table.content(alloc)?;
    let indexes = closed_indexes(alloc, table)?;
    Ok(ClosedTable {
        name,
        content,
        indexes,
    })
}

/// Copies of a catalogue's tables with their indexes, as they stand now. An error where memory is refused.
pub(crate) fn copied_tables(
    alloc: Global,
    catalogue: &Catalogue,
) -> Result<Vec<ClosedTable>, AllocError>
    ensures value { IfOk result (λ copies. AreHandedOver catalogue.now copies.items) }
{
    let mut copies = Vec::new(alloc);
    for i in 0..catalogue.table_count() {
        let number = i as u32 + 1;
        let copy = copied_table(alloc, catalogue.table_name(number), catalogue.table(number))?;
        copies.push(copy)?;
    }
    Ok(copies)
}
