//! How an index of a table is opened.

ghost use Rattle.std.specs.Prelude.{◌≡◌, ◌+◌, ◌<◌, false, length, map, Ok, Err, IfOk, IfErr, OnOk};
ghost use Rattle.std.specs.List.{list_any};
ghost use Rattle.key_expr.specs.declared.fault.ExprFault.{ExprFault};
ghost use Rattle.table_core.specs.Content.{has_index, with_index};
ghost use Rattle.catalogue_core.specs.declared.opening.OpenFault.TheVariants.{BadExpression, IndexStale};
ghost use Rattle.catalogue_core.specs.Opening.{is_index, named_index, IndexOpening, Keeping, KeepingSource, Reading};
ghost use Rattle.catalogue_core.specs.Tables.{named_table};

use crate::opening::{MAX_INDEXES, MAX_TABLES, OpenFault, OpenedTable};
use crate::source::IndexSource;
use byte_io::Bytes;
use dbf_fields::Schema;
use key_expr::{ExprFault, KeyExpr};
use ndx_index::NdxFile;
use std::alloc::Global;
use table_core::Table;

// The numbers of a table and of one of its indexes, from 1.
#[derive(Clone, Copy)]
struct Numbers {
    table: u32,
    index: u32,
}

/// Adds the next index to the table that comes after the earlier ones.
pub(crate) fn open_index(
    alloc: Global,
    earlier: &[OpenedTable],
    table: &mut Table,
    source: IndexSource,
    reindex: bool,
) -> Result<(), OpenFault>
    requires earlier { length earlier.now < MAX_TABLES }
    requires count_bounded { length table.old.content.indexes < MAX_INDEXES }
    ensures opened { OnOk result (IndexOpening reindex (map named_table earlier.now) table.old.content source (Ok table.new.content)) }
    ensures refused { IfErr result (λ fault. IndexOpening reindex (map named_table earlier.now) table.old.content source (Err fault)) }
    ensures count { OnOk result (length table.new.content.indexes ≡ length table.old.content.indexes + 1) }
{
    let at = Numbers {
        table: earlier.len() as u32 + 1,
        index: table.index_count() as u32 + 1,
    };
    if is_taken(earlier, table, &source.name) {
        return Err(OpenFault::DuplicateIndex(at.table, at.index));
    }
    let expr = match read_expression(alloc, source.file.expr.as_slice(), table.schema(), at) {
        Ok(expr) => expr,
        Err(fault) => return Err(fault),
    };
    keep_index(alloc, table, source, expr, reindex, at)
}

// Whether an index of an earlier table, or one of this table, has the name.
fn is_taken(earlier: &[OpenedTable], table: &Table, name: &Bytes) -> bool
    ensures value { result ≡ is_index (map named_table earlier.now) table.now.content name.now }
{
    is_earlier_index(earlier, name) || table.has_index(name)
}

fn is_earlier_index(earlier: &[OpenedTable], name: &Bytes) -> bool
    ensures value { result ≡ list_any (λ t. has_index t.content name.now) (map named_table earlier.now) }
{
    any_has_index(earlier, name)
}

fn any_has_index(earlier: &[OpenedTable], name: &Bytes) -> bool
    ensures value { result ≡ list_any (λ t. has_index t.table.content name.now) earlier.now }
{
    earlier.iter().any(|opened| opened.table.has_index(name))
}

// The key expression of a text for the fields of a table.
fn read_expression(
    alloc: Global,
    text: &[u8],
    schema: &Schema,
    at: Numbers,
) -> Result<KeyExpr, OpenFault>
    ensures read { IfOk result (λ expr. Reading schema.now text.now (BadExpression at.table at.index) (Ok expr)) }
    ensures refused { IfErr result (λ fault. Reading schema.now text.now (BadExpression at.table at.index) (Err fault)) }
{
    match KeyExpr::parse(alloc, text, schema) {
        Ok(expr) => Ok(expr),
        Err(ExprFault::NoMemory) => Err(OpenFault::NoMemory),
        Err(fault) => Err(OpenFault::BadExpression(at.table, at.index, fault)),
    }
}

// Adds the index by its file's pairs, or sorted anew.
fn keep_index(
    alloc: Global,
    table: &mut Table,
    source: IndexSource,
    expr: KeyExpr,
    reindex: bool,
    at: Numbers,
) -> Result<(), OpenFault>
    requires read { expr.fields ≡ table.old.content.table.schema }
    ensures opened { OnOk result (KeepingSource reindex table.old.content source expr (IndexStale at.table at.index) (Ok table.new.content)) }
    ensures refused { IfErr result (λ fault. KeepingSource reindex table.old.content source expr (IndexStale at.table at.index) (Err fault)) }
    ensures added { OnOk result (table.new.content ≡ with_index table.old.content (named_index source.name expr)) }
{
    let IndexSource { name, file } = source;
    if reindex {
        table.add_index(alloc, name, expr)?;
        return Ok(());
    }
    keep_file(alloc, table, name, expr, file, at)
}

// Adds the index by its file's pairs, where the file is of the table as it is.
fn keep_file(
    alloc: Global,
    table: &mut Table,
    name: Bytes,
    expr: KeyExpr,
    file: NdxFile,
    at: Numbers,
) -> Result<(), OpenFault>
    requires read { expr.fields ≡ table.old.content.table.schema }
    ensures opened { OnOk result (Keeping false table.old.content (named_index name expr) file (IndexStale at.table at.index) (Ok table.new.content)) }
    ensures refused { IfErr result (λ fault. Keeping false table.old.content (named_index name expr) file (IndexStale at.table at.index) (Err fault)) }
    ensures added { OnOk result (table.new.content ≡ with_index table.old.content (named_index name expr)) }
{
    if file.key_len != expr.key_len() {
        return Err(OpenFault::IndexStale(at.table, at.index));
    }
    match table.add_kept_index(alloc, name, expr, file.pairs) {
        Ok(true) => Ok(()),
        Ok(false) => Err(OpenFault::IndexStale(at.table, at.index)),
        Err(_) => Err(OpenFault::NoMemory),
    }
}
