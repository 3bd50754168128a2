//! The pairs of a table's records.

ghost use Rattle.std.specs.Prelude.{◌≡◌, ◌≤◌, length, IfOk};
ghost use Rattle.dbf_image.specs.Table.{row_at};
ghost use Rattle.key_expr.specs.Keys.{key, key_length};
ghost use Rattle.table_order.specs.TableOrder.{pair_at, pairs_of};

use dbf_image::GrowingTable;
use key_expr::{Key, KeyExpr};
use ndx_index::{Pair, PairList};
use std::alloc::{AllocError, Global};

// The key of a record, from 1, by an expression that was read for the table's fields. It takes no memory.
fn key_at(expr: &KeyExpr, records: &GrowingTable, number: u32) -> Key
    requires one { 1 ≤ number }
    requires inside { number ≤ length records.now.table.rows }
    requires fields { expr.now.fields ≡ records.now.table.schema }
    ensures value { result ≡ key (row_at records.now.table number).cells expr.now.expr }
    ensures long { length result ≡ key_length expr.now.fields expr.now.expr }
{
    expr.key_of(records.record(number))
}

/// The pair of a record, from 1, by an expression that was read for the table's fields. It takes no memory.
pub fn pair_of(expr: &KeyExpr, records: &GrowingTable, number: u32) -> Pair
    requires one { 1 ≤ number }
    requires inside { number ≤ length records.now.table.rows }
    requires fields { expr.now.fields ≡ records.now.table.schema }
    ensures value { result ≡ pair_at records.now.table number expr.now.expr }
    ensures long { length result.key ≡ key_length expr.now.fields expr.now.expr }
{
    let key = key_at(expr, records, number);
    Pair { key, number }
}

/// The pairs of all records, in the order of their numbers. An `Err` says that there was no memory.
pub fn record_pairs(
    alloc: Global,
    records: &GrowingTable,
    expr: &KeyExpr,
) -> Result<PairList, AllocError>
    requires fields { expr.now.fields ≡ records.now.table.schema }
    ensures pairs { IfOk result (λ list. list.pairs ≡ pairs_of records.now.table expr.now.expr) }
    ensures key_len { IfOk result (λ list. list.key_len ≡ key_length expr.now.fields expr.now.expr) }
{
    let mut pairs = PairList::new(alloc, expr.key_len());
    pairs.reserve(records.record_count() as usize)?;
    for index in 0..records.record_count() {
        pairs.push(&pair_of(expr, records, index + 1))?;
    }
    Ok(pairs)
}
