//! The first pair of an index's file that isn't that of its table's record.

ghost use Rattle.std.specs.Prelude.{◌≡◌, ◌≤◌, length, bytes_eq};
ghost use Rattle.dbf_image.specs.Table.{row_at};
ghost use Rattle.key_expr.specs.Keys.{key};
ghost use Rattle.setup_check.specs.WrongPair.{first_wrong as first_in, has_record as is_number_of, is_record_pair as is_pair_of, key_of_number as key_in, wrong_pair as wrong_pair_in};

use dbf_image::GrowingTable;
use key_expr::{Key, KeyExpr};
use ndx_index::{Pair, PairList};

/// A pair of an index's file that isn't that of the record of its number.
#[derive(Clone, Copy, PartialEq, Eq)]
pub struct WrongPair {
    /// Which pair of the file it is, from 1.
    pub pair_number: usize,
    /// The record number in the file.
    pub record_number: u32,
    /// The key in the file.
    pub key: Key,
    /// The key of the table's record of that number, where there is one.
    pub record_key: Option<Key>,
}

// Whether there is a record of the number.
fn has_record(records: &GrowingTable, number: u32) -> bool
    ensures value { result ≡ is_number_of records.now.table number }
{
    number >= 1 && number <= records.record_count()
}

// Whether a record, from 1, has a key by an expression that was read for the table's fields. Takes no memory.
fn has_key_at(expr: &KeyExpr, records: &GrowingTable, number: u32, bytes: &[u8]) -> bool
    requires one { 1 ≤ number }
    requires inside { number ≤ length records.now.table.rows }
    requires fields { expr.now.fields ≡ records.now.table.schema }
    ensures value { result ≡ bytes_eq bytes.now (key (row_at records.now.table number).cells expr.now.expr) }
{
    expr.has_key(records.record(number), bytes)
}

// The key of the record of a number, where there is one.
fn key_of_number(records: &GrowingTable, expr: &KeyExpr, number: u32) -> Option<Key>
    requires fields { expr.now.fields ≡ records.now.table.schema }
    ensures value { result ≡ key_in records.now.table expr.now.expr number }
{
    if !has_record(records, number) {
        return None;
    }
    Some(expr.key_of(records.record(number)))
}

// Whether a pair of this record number and this key is that of the record.
fn is_record_pair(records: &GrowingTable, expr: &KeyExpr, number: u32, bytes: &[u8]) -> bool
    requires fields { expr.now.fields ≡ records.now.table.schema }
    ensures value { result ≡ is_pair_of records.now.table expr.now.expr (record { key = bytes.now; number = number }) }
{
    if !has_record(records, number) {
        return false;
    }
    has_key_at(expr, records, number, bytes)
}

// The pair of this number in the file, which isn't its record's.
fn wrong_pair(records: &GrowingTable, expr: &KeyExpr, pair_number: usize, pair: Pair) -> WrongPair
    requires fields { expr.now.fields ≡ records.now.table.schema }
    ensures value { result ≡ wrong_pair_in records.now.table expr.now.expr pair_number pair }
{
    WrongPair {
        pair_number,
        record_number: pair.number,
        key: pair.key,
        record_key: key_of_number(records, expr, pair.number),
    }
}

/// The first pair that isn't its record's, where there is one. The expression was read for the table's fields. Takes no memory.
pub(crate) fn first_wrong(
    records: &GrowingTable,
    expr: &KeyExpr,
    pairs: &PairList,
) -> Option<WrongPair>
    requires fields { expr.now.fields ≡ records.now.table.schema }
    ensures value { result ≡ first_in records.now.table expr.now.expr pairs.now.pairs }
{
    for i in 0..pairs.len() {
        if !is_record_pair(records, expr, pairs.number(i), pairs.key(i)) {
            return Some(wrong_pair(records, expr, i + 1, pairs.get(i)));
        }
    }
    None
}
