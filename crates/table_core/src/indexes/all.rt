//! All indexes of a table.

ghost use Rattle.std.specs.Prelude.{◌≡◌, ◌+◌, ◌≤◌, [], ◌∷◌, ◌++◌, length, map, vec_capacity, OnOk};
ghost use Rattle.std.specs.List.{AllByRecursion};
ghost use Rattle.table_core.specs.Indexes.{Follows, FollowsAside, FollowsBut, HasRoom, indexed, seen_index};

use crate::edits::planned::Target;
use crate::indexes::TableIndex;
use dbf_image::GrowingTable;
use std::alloc::AllocError;

/// Takes a record's pair out of each index whose key names the field that is to change. It takes no memory.
pub(crate) fn take_out_named(indexes: &mut Vec<TableIndex>, records: &GrowingTable, target: Target)
    requires one { 1 ≤ target.number }
    requires inside { target.number ≤ length records.now.table.rows }
    requires follow { AllByRecursion (Follows records.now.table) indexes.old.items }
    requires room { AllByRecursion HasRoom indexes.old.items }
    ensures aside { AllByRecursion (FollowsAside target records.now.table) indexes.new.items }
    ensures room { AllByRecursion HasRoom indexes.new.items }
    ensures same { map indexed indexes.new.items ≡ map indexed indexes.old.items }
{
    for index in indexes.iter_mut() {
        index.take_out_named(records, target);
    }
}

/// Puts a record's pair into each index whose key names the field that changed. It takes no memory.
pub(crate) fn put_in_named(indexes: &mut Vec<TableIndex>, records: &GrowingTable, target: Target)
    requires one { 1 ≤ target.number }
    requires inside { target.number ≤ length records.now.table.rows }
    requires aside { AllByRecursion (FollowsAside target records.now.table) indexes.old.items }
    requires room { AllByRecursion HasRoom indexes.old.items }
    ensures follow { AllByRecursion (Follows records.now.table) indexes.new.items }
    ensures same { map indexed indexes.new.items ≡ map indexed indexes.old.items }
{
    for index in indexes.iter_mut() {
        index.put_in_named(records, target);
    }
}

/// Puts a record's pair into each index. It takes no memory.
pub(crate) fn put_in_all(indexes: &mut Vec<TableIndex>, records: &GrowingTable, number: u32)
    requires one { 1 ≤ number }
    requires inside { number ≤ length records.now.table.rows }
    requires rest { AllByRecursion (FollowsBut number records.now.table) indexes.old.items }
    requires room { AllByRecursion HasRoom indexes.old.items }
    ensures follow { AllByRecursion (Follows records.now.table) indexes.new.items }
    ensures same { map indexed indexes.new.items ≡ map indexed indexes.old.items }
{
    for index in indexes.iter_mut() {
        index.put_in(records, number);
    }
}

/// Adds an index after the others, and moves all into an empty list with room for them, so it takes no memory.
pub(crate) fn add_in_list(
    indexes: &mut Vec<TableIndex>,
    index: TableIndex,
    mut list: Vec<TableIndex>,
)
    requires empty { list.items ≡ [] }
    requires room { length indexes.old.items + 1 ≤ vec_capacity list }
    ensures added { indexes.new.items ≡ indexes.old.items ++ index ∷ [] }
{
    match list.append(indexes) {
        Ok(()) => list.push_reserved(index),
        Err(_) => unreachable!(),
    }
    *indexes = list;
}

/// Makes room for one more pair in each index. An `Err` says that there was no memory.
pub(crate) fn reserve_all(indexes: &mut Vec<TableIndex>) -> Result<(), AllocError>
    ensures ok { OnOk result (AllByRecursion HasRoom indexes.new.items) }
    ensures same { map seen_index indexes.new.items ≡ map seen_index indexes.old.items }
{
    for index in indexes.iter_mut() {
        index.reserve()?;
    }
    Ok(())
}
