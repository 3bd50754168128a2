//! Indexes that are built anew.

ghost use Rattle.std.specs.Prelude.{◌≡◌, map, IfOk};
ghost use Rattle.std.specs.List.{AllByRecursion};
ghost use Rattle.table_core.specs.Content.{named, IsReadFor};
ghost use Rattle.table_core.specs.Indexes.{Follows, indexed};
ghost use Rattle.dbf_image.specs.Table.{packed};
ghost use Rattle.key_expr.specs.Keys.{key_length};
ghost use Rattle.table_order.specs.Packing.{packed_numbers};
ghost use Rattle.table_order.specs.TableOrder.{order};

use crate::indexes::TableIndex;
use byte_io::Bytes;
use dbf_image::GrowingTable;
use key_expr::KeyExpr;
use ndx_index::OrderedIndex;
use std::alloc::{AllocError, Global};
use table_order::record_pairs;

/// The pairs of all records, in order. An `Err` says that there was no memory.
pub(crate) fn sorted(
    alloc: Global,
    records: &GrowingTable,
    expr: &KeyExpr,
) -> Result<OrderedIndex, AllocError>
    requires fields { expr.now.fields ≡ records.now.table.schema }
    ensures pairs { IfOk result (λ index. index.pairs ≡ order records.now.table expr.now.expr) }
    ensures key_len { IfOk result (λ index. index.key_len ≡ key_length expr.now.fields expr.now.expr) }
{
    let pairs = record_pairs(alloc, records, expr)?;
    OrderedIndex::from_pairs(alloc, pairs)
}

// The new numbers of a table's records, without those that are marked as deleted; 0 for these. An `Err` says that there
// was no memory.
fn new_numbers(alloc: Global, records: &GrowingTable) -> Result<Vec<u32>, AllocError>
    ensures numbers { IfOk result (λ numbers. numbers.items ≡ packed_numbers 1 records.now.table.rows) }
{
    let mut numbers = Vec::new(alloc);
    numbers.reserve(records.record_count() as usize)?;
    let mut next = 1;
    for index in 0..records.record_count() {
        if records.is_deleted(index + 1) {
            numbers.push(0)?;
        } else {
            numbers.push(next)?;
            next += 1;
        }
    }
    Ok(numbers)
}

/// Each index of a table, for the table without the records that are marked as deleted. The new numbers of the others rise
/// with the old ones, so nothing is sorted. An `Err` says that there was no memory.
pub(crate) fn packed_all(
    alloc: Global,
    indexes: &Vec<TableIndex>,
    records: &GrowingTable,
) -> Result<Vec<TableIndex>, AllocError>
    requires follow { AllByRecursion (Follows records.now.table) indexes.now.items }
    ensures follow { IfOk result (λ made. AllByRecursion (Follows (packed records.now.table)) made.items) }
    ensures same { IfOk result (λ made. map indexed made.items ≡ map indexed indexes.now.items) }
{
    let numbers = new_numbers(alloc, records)?;
    let mut made = Vec::new(alloc);
    for index in indexes {
        let order = index.order.renumbered(alloc, numbers.as_slice())?;
        made.push(index.with_order(alloc, order)?)?;
    }
    Ok(made)
}

/// The indexes of a table, each by its name and its expression. An `Err` says that there was no memory.
pub(crate) fn made_all(
    alloc: Global,
    records: &GrowingTable,
    indexes: Vec<(Bytes, KeyExpr)>,
) -> Result<Vec<TableIndex>, AllocError>
    requires read { AllByRecursion (IsReadFor records.now.table.schema) indexes.items }
    ensures follow { IfOk result (λ made. AllByRecursion (Follows records.now.table) made.items) }
    ensures same { IfOk result (λ made. map indexed made.items ≡ map named indexes.items) }
{
    let mut made = Vec::new(alloc);
    for (name, expr) in indexes {
        made.push(TableIndex::new(alloc, records, name, expr)?)?;
    }
    Ok(made)
}
