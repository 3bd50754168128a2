//! Moves by the order of an index.

ghost use Rattle.std.specs.Prelude.{◌≡◌, ◌+◌, ◌-◌, ◌≤◌, length, slice_get};
ghost use Rattle.table_order.specs.TableOrder.{order};
ghost use Rattle.table_core.specs.Indexes.{Follows, numbers_by};
ghost use Rattle.std.specs.Option.{option_map};
ghost use Rattle.ndx_index.specs.Order.{first_with as first_with_text};
ghost use Rattle.ndx_index.specs.Places.{place_in, back_from};

use crate::indexes::TableIndex;
use dbf_image::GrowingTable;
use ndx_index::Pair;
use table_order::pair_of;

// The record of a pair.
fn number_of(found: Option<Pair>) -> Option<u32>
    ensures value { result ≡ option_map (λ p. p.number) found }
{
    found.map(|pair| pair.number)
}

/// The first record.
pub(crate) fn first_record(index: &TableIndex, records: &GrowingTable) -> Option<u32>
    requires follows { Follows records.now.table index.now }
    ensures value { result ≡ slice_get (numbers_by records.now.table index.now) 0 }
{
    number_of(index.order.first())
}

/// The last record.
pub(crate) fn last_record(index: &TableIndex, records: &GrowingTable) -> Option<u32>
    requires follows { Follows records.now.table index.now }
    ensures value { result ≡ slice_get (numbers_by records.now.table index.now) (length (numbers_by records.now.table index.now) - 1) }
{
    number_of(index.order.last())
}

/// The record `steps` places after one.
pub(crate) fn record_after(
    index: &TableIndex,
    records: &GrowingTable,
    number: u32,
    steps: u64,
) -> Option<u32>
    requires one { 1 ≤ number }
    requires inside { number ≤ length records.now.table.rows }
    requires follows { Follows records.now.table index.now }
    ensures value { result ≡ slice_get (numbers_by records.now.table index.now) (place_in number (numbers_by records.now.table index.now) + steps) }
{
    number_of(index.after(pair_of(&index.expr, records, number), steps))
}

/// The record `steps` places before one.
pub(crate) fn record_before(
    index: &TableIndex,
    records: &GrowingTable,
    number: u32,
    steps: u64,
) -> Option<u32>
    requires one { 1 ≤ number }
    requires inside { number ≤ length records.now.table.rows }
    requires follows { Follows records.now.table index.now }
    ensures value { result ≡ back_from (numbers_by records.now.table index.now) (place_in number (numbers_by records.now.table index.now)) steps }
{
    number_of(index.back(pair_of(&index.expr, records, number), steps))
}

/// The record `steps` places before the end.
pub(crate) fn record_from_end(index: &TableIndex, records: &GrowingTable, steps: u64) -> Option<u32>
    requires some { 1 ≤ steps }
    requires follows { Follows records.now.table index.now }
    ensures value { result ≡ back_from (numbers_by records.now.table index.now) (length (numbers_by records.now.table index.now)) steps }
{
    match index.order.last() {
        Some(last) => number_of(index.back(last, steps - 1)),
        None => None,
    }
}

/// The first pair whose key begins with a text.
pub(crate) fn first_with(index: &TableIndex, records: &GrowingTable, text: &[u8]) -> Option<Pair>
    requires follows { Follows records.now.table index.now }
    ensures value { result ≡ first_with_text text.now (order records.now.table index.now.expr.expr) }
{
    let Some(found) = index.order.first_from(text) else {
        return None;
    };
    if found.key.as_bytes().starts_with(text) {
        Some(found)
    } else {
        None
    }
}
