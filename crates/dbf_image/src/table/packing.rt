//! Packing a table's records in place.

ghost use Rattle.std.specs.Prelude.{◌≡◌, ◌≤◌, ◌*◌, ◌+◌, length};
ghost use Rattle.std.specs.List.{AllByRecursion};
ghost use Rattle.dbf_image.specs.DbfText.{AreRecords};
ghost use Rattle.dbf_image.specs.MemoStore.{Texts};
ghost use Rattle.dbf_image.specs.Packing.{Moved, HasKeptRows};
ghost use Rattle.dbf_image.specs.Store.{memo_count, IsMemo};

use crate::format::DELETED;
use crate::table::offsets::memo_count_of;
use crate::table::records::RecordBytes;
use dbf_fields::Schema;

// Copies a part of `size` elements to another place in front of it. It takes no memory.
fn move_part<T: Copy>(list: &mut Vec<T>, size: usize, from: usize, to: usize)
    requires before { to ≤ from }
    requires inside { from * size + size ≤ length list.old.items }
    ensures moved { Moved size from to list.old.items list.new.items }
{
    let start = from * size;
    list.copy_within(start..start + size, to * size);
}

/// Moves the records that are not marked as deleted to the front, with the numbers of their memos, and drops what
/// stands after them. The answer is how many there are. It takes no memory.
pub(crate) fn keep_records(
    schema: &Schema,
    count: u32,
    records: &mut RecordBytes,
    memos: &mut Vec<u32>,
) -> u32
    requires whole { AreRecords schema.now count records.old.items }
    requires many { length memos.old.items ≡ count * memo_count schema.now }
    ensures whole { AreRecords schema.now result records.new.items }
    ensures many { length memos.new.items ≡ result * memo_count schema.now }
    ensures each { (texts : Texts) → AllByRecursion (IsMemo texts) memos.old.items → AllByRecursion (IsMemo texts) memos.new.items }
    ensures rows { HasKeptRows schema.now count records.old.items memos.old.items result records.new.items memos.new.items }
{
    let size = schema.record_length();
    let memos_each = memo_count_of(schema.fields());
    let mut kept: usize = 0;
    for index in 0..count as usize {
        if records.as_slice()[index * size] != DELETED {
            records.move_part(size, index, kept);
            move_part(memos, memos_each, index, kept);
            kept += 1;
        }
    }
    records.truncate(kept * size);
    memos.truncate(kept * memos_each);
    kept as u32
}
