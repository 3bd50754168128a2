//! Indexes that are made of pairs that were kept, as an index file's.

ghost use Rattle.std.specs.Prelude.{◌≡◌, ◌↔◌, ◌≤◌, length, IfOk, IfSome, IsSome, IsTrue, IsPermutation, OnErr};
ghost use Rattle.std.specs.List.{AllByRecursion};
ghost use Rattle.dbf_image.specs.Table.{row_at};
ghost use Rattle.key_expr.specs.Keys.{key, key_length};
ghost use Rattle.ndx_index.specs.Places.{counted};
ghost use Rattle.table_order.specs.TableOrder.{order, pairs_of, IsRecordPair};
ghost use Rattle.table_core.specs.Indexes.{Follows, indexed};

use crate::indexes::TableIndex;
use crate::indexes::sort::sorted;
use byte_io::Bytes;
use dbf_image::GrowingTable;
use key_expr::KeyExpr;
use ndx_index::{OrderedIndex, PairList};
use std::alloc::{AllocError, Global};

impl TableIndex {
    /// An index of a table, of pairs that stand in any order; `None` where they are not the pairs of the
    /// table's records, each as often. Pairs that stand in order, as an index file's mostly do, are looked over once, and
    /// the index is made of them; of others it is known that they are the table's before the index is made of the records.
    /// An `Err` says that there was no memory for the pages of the pairs, which are the table's.
    pub(crate) fn kept(
        alloc: Global,
        records: &GrowingTable,
        name: Bytes,
        expr: KeyExpr,
        pairs: PairList,
    ) -> Result<Option<TableIndex>, AllocError>
        requires fields { expr.fields ≡ records.now.table.schema }
        ensures whole { IfOk result (λ made. IsSome made ↔ IsPermutation (pairs_of records.now.table expr.expr) pairs.pairs) }
        ensures tested { OnErr result (IsPermutation (pairs_of records.now.table expr.expr) pairs.pairs) }
        ensures follows { IfOk result (λ made. IfSome made (λ index. Follows records.now.table index)) }
        ensures same { IfOk result (λ made. IfSome made (λ index. indexed index ≡ record { name = name; expr = expr })) }
    {
        // For contracts alone: the expression keeps the rules on the table's fields.
        let _ = expr.text();
        if is_order_of(records, &expr, &pairs) {
            return match OrderedIndex::from_sorted(alloc, pairs) {
                Ok(order) => Ok(Some(TableIndex { name, expr, order })),
                Err(refused) => Err(refused),
            };
        }
        if !are_all_pairs(records, &expr, pairs) {
            return Ok(None);
        }
        match sorted(alloc, records, &expr) {
            Ok(order) => Ok(Some(TableIndex { name, expr, order })),
            Err(refused) => Err(refused),
        }
    }
}

// Whether the pairs stand in the order of the table: as many as there are records, each before the next, and each that
// of its record, with keys of the expression's length.
fn is_order_of(records: &GrowingTable, expr: &KeyExpr, pairs: &PairList) -> bool
    requires fields { expr.now.fields ≡ records.now.table.schema }
    ensures order { IsTrue result → (pairs.now.pairs ≡ order records.now.table expr.now.expr) }
    ensures key_len { IsTrue result → (pairs.now.key_len ≡ key_length expr.now.fields expr.now.expr) }
{
    if pairs.key_len() != expr.key_len() {
        return false;
    }
    if pairs.len() != records.record_count() as usize {
        return false;
    }
    if !pairs.is_in_order() {
        return false;
    }
    are_record_pairs(records, expr, pairs)
}

/// Whether the pairs are those of the table's records, each as often, in whatever order: each is that of its record, and
/// each record's number is there once. The keys are made by an expression that was read for the table's fields. It takes
/// no memory.
pub fn are_all_pairs(records: &GrowingTable, expr: &KeyExpr, pairs: PairList) -> bool
    requires fields { expr.now.fields ≡ records.now.table.schema }
    ensures value { IsTrue result ↔ IsPermutation (pairs_of records.now.table expr.now.expr) pairs.pairs }
{
    if !are_record_pairs(records, expr, &pairs) {
        return false;
    }
    are_all_numbers(pairs.into_numbers(), records.record_count())
}

// Whether each pair is that of its record.
fn are_record_pairs(records: &GrowingTable, expr: &KeyExpr, pairs: &PairList) -> bool
    requires fields { expr.now.fields ≡ records.now.table.schema }
    ensures value { IsTrue result ↔ AllByRecursion (IsRecordPair records.now.table expr.now.expr) pairs.now.pairs }
{
    for at in 0..pairs.len() {
        if !is_record_pair(records, expr, pairs.key(at), pairs.number(at)) {
            return false;
        }
    }
    true
}

// Whether there is a record of the number, and the key is its key.
fn is_record_pair(records: &GrowingTable, expr: &KeyExpr, bytes: &[u8], number: u32) -> bool
    requires fields { expr.now.fields ≡ records.now.table.schema }
    ensures value { IsTrue result ↔ IsRecordPair records.now.table expr.now.expr (record { key = bytes.now; number = number }) }
{
    if number < 1 {
        return false;
    }
    if number > records.record_count() {
        return false;
    }
    has_key_at(expr, records, number, bytes)
}

// Whether the numbers are those from 1 to a count, each once. They are put in order in place.
fn are_all_numbers(mut numbers: Vec<u32>, count: u32) -> bool
    ensures value { IsTrue result ↔ IsPermutation (counted 1 count) numbers.items }
{
    numbers.sort_unstable();
    are_counted(numbers.as_slice(), count)
}

// Whether the numbers stand counted from 1 to a count.
fn are_counted(numbers: &[u32], count: u32) -> bool
    ensures value { IsTrue result ↔ (numbers.now ≡ counted 1 count) }
{
    if numbers.len() != count as usize {
        return false;
    }
    for i in 0..numbers.len() {
        if numbers[i] as usize != i + 1 {
            return false;
        }
    }
    true
}

// Whether a record, from 1, has a key by an expression that was read for the table's fields. It takes no memory.
fn has_key_at(expr: &KeyExpr, records: &GrowingTable, number: u32, bytes: &[u8]) -> bool
    requires one { 1 ≤ number }
    requires inside { number ≤ length records.now.table.rows }
    requires fields { expr.now.fields ≡ records.now.table.schema }
    ensures value { IsTrue result ↔ (key (row_at records.now.table number).cells expr.now.expr ≡ bytes.now) }
    ensures long { IsTrue result → length bytes.now ≡ key_length expr.now.fields expr.now.expr }
{
    expr.has_key(records.record(number), bytes)
}
