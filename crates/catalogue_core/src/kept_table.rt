//! A table as it was opened, which the catalogue's history begins with.

ghost use Rattle.std.specs.Prelude.{◌≡◌, map, IfOk};
ghost use Rattle.catalogue_core.specs.Tables.{named_table, kept_table};

use crate::opening::OpenedTable;
use byte_io::Bytes;
use std::alloc::{AllocError, Global};
use std::snapshot::Snapshot;
use table_core::Table;

/// The name under which a table was opened, and the table as it was then, which is for clauses alone and takes
/// no bytes.
#[derive(Drop)]
pub(crate) struct KeptTable {
    pub(crate) name: Bytes,
    pub(crate) table: Snapshot<Table>,
}

/// The tables' names, in order, beside the tables as they are. An error where memory is refused.
pub(crate) fn kept_tables(
    alloc: Global,
    tables: &[OpenedTable],
) -> Result<Vec<KeptTable>, AllocError>
    ensures value { IfOk result (λ kept. map kept_table kept.items ≡ map named_table tables.now) }
{
    let mut kept = Vec::new(alloc);
    for i in 0..tables.len() {
        let opened = &tables[i];
        let name = opened.name.copy(alloc)?;
        let table = Snapshot::of(&opened.table);
        kept.push(KeptTable { name, table })?;
    }
    Ok(kept)
}
