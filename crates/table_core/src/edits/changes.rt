//! Changes of a table's records that its indexes follow. They take no memory.

ghost use Rattle.std.specs.Prelude.{◌≡◌, ◌+◌, ◌<◌, true, length, map};
ghost use Rattle.std.specs.List.{AllByRecursion};
ghost use Rattle.dbf_image.specs.declared.format.TheConstants.{MAX_RECORDS};
ghost use Rattle.dbf_image.specs.Table.{blank_row, with_row, with_cell};
ghost use Rattle.table_core.specs.Indexes.{Follows, HasRoom, indexed};
ghost use Rattle.table_core.specs.Planned.{IsCellOf};

use crate::edits::planned::Target;
use crate::indexes::TableIndex;
use crate::indexes::all::{put_in_all, put_in_named, take_out_named};
use dbf_image::GrowingTable;

/// Replaces a cell. An index whose key doesn't name the field is left alone.
pub(crate) fn set_cell(
    records: &mut GrowingTable,
    indexes: &mut Vec<TableIndex>,
    target: Target,
    cell: &[u8],
)
    requires cell { IsCellOf records.old.table target (length cell.now) }
    requires follow { AllByRecursion (Follows records.old.table) indexes.old.items }
    requires room { AllByRecursion HasRoom indexes.old.items }
    ensures table { records.new.table ≡ with_cell records.old.table target.number target.field cell.now }
    ensures follow { AllByRecursion (Follows records.new.table) indexes.new.items }
    ensures same { map indexed indexes.new.items ≡ map indexed indexes.old.items }
{
    take_out_named(indexes, records, target);
    records.set_cell(target.number, target.field, cell);
    put_in_named(indexes, records, target);
}

/// Adds a record of blanks after the others, and answers its number.
pub(crate) fn add_blank(records: &mut GrowingTable, indexes: &mut Vec<TableIndex>) -> u32
    requires count_bounded { length records.old.table.rows < MAX_RECORDS }
    requires for_record { records.old.record_room ≡ true }
    requires follow { AllByRecursion (Follows records.old.table) indexes.old.items }
    requires room { AllByRecursion HasRoom indexes.old.items }
    ensures table { records.new.table ≡ with_row records.old.table (blank_row records.old.table.schema) }
    ensures follow { AllByRecursion (Follows records.new.table) indexes.new.items }
    ensures same { map indexed indexes.new.items ≡ map indexed indexes.old.items }
    ensures number { result ≡ length records.old.table.rows + 1 }
{
    records.append_blank();
    let number = records.record_count();
    put_in_all(indexes, records, number);
    number
}
