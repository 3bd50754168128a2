//! Where the records and cells of a table stand in its bytes.

ghost use Rattle.std.specs.Prelude.{◌≡◌, ◌+◌, ◌-◌, ◌*◌, ◌^◌, ◌<◌, ◌≤◌, length, take};
ghost use Rattle.dbf_fields.specs.Field.{widths};
ghost use Rattle.dbf_fields.specs.declared.format.TheConstants.{MAX_FIELDS, MAX_RECORD_BYTES};
ghost use Rattle.dbf_image.specs.Store.{memo_count};

use dbf_fields::{Field, MEMO, Schema};

/// The index of a record among the records. Records count from 1 for every caller of this crate, and
/// from 0 in the bytes: here alone the one becomes the other.
fn index_of(number: u32) -> usize
    requires number { 1 ≤ number }
    ensures value { result ≡ number - 1 }
{
    number as usize - 1
}

/// Where a record begins.
pub(crate) fn record_start(schema: &Schema, number: u32) -> usize
    requires number { 1 ≤ number }
    ensures value { result ≡ (number - 1) * (1 + widths schema.now) }
    ensures bounded { result < 2 ^ 32 * (1 + MAX_RECORD_BYTES) }
{
    index_of(number) * schema.record_length()
}

/// Where the cell of a record and a field begins.
pub(crate) fn cell_start(schema: &Schema, number: u32, field: usize) -> usize
    requires number { 1 ≤ number }
    requires field { field < length schema.now }
    ensures value { result ≡ (number - 1) * (1 + widths schema.now) + (1 + widths (take field schema.now)) }
    ensures bounded { result < (2 ^ 32 + 1) * (1 + MAX_RECORD_BYTES) }
{
    record_start(schema, number) + schema.offset(field)
}

/// How many memos a record has.
pub(crate) fn memo_count_of(fields: &[Field]) -> usize
    requires count_bounded { length fields.now ≤ MAX_FIELDS }
    ensures value { result ≡ memo_count fields.now }
    ensures bounded { result ≤ MAX_FIELDS }
{
    let mut count = 0;
    for field in fields {
        if field.kind == MEMO {
            count += 1;
        }
    }
    count
}

/// The index of a memo among the memos of all records, in the order of records and fields.
pub(crate) fn memo_index(schema: &Schema, number: u32, field: usize) -> usize
    requires number { 1 ≤ number }
    requires field { field < length schema.now }
    ensures value { result ≡ (number - 1) * memo_count schema.now + memo_count (take field schema.now) }
    ensures bounded { result < (2 ^ 32 + 1) * MAX_FIELDS }
{
    let fields = schema.fields();
    index_of(number) * memo_count_of(fields) + memo_count_of(&fields[..field])
}
