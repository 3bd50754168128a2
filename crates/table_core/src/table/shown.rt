//! Values of fields as they are shown.

ghost use Rattle.std.specs.Prelude.{◌≡◌, IfOk};
ghost use Rattle.table_core.specs.Shown.{shown as value_shown, truth_shown};

use byte_io::Bytes;
use dbf_fields::{DATE, Field, LOGICAL, read_truth, shown_date};
use std::alloc::{AllocError, Global};

/// The value of a field's cell as `?` shows it. An `Err` says that there was no memory.
pub(crate) fn shown(alloc: Global, field: &Field, cell: &[u8]) -> Result<Bytes, AllocError>
    ensures value { IfOk result (λ text. text ≡ value_shown field.now cell.now) }
{
    match field.kind {
        LOGICAL => Bytes::from_slice(alloc, shown_truth(cell)),
        DATE => Bytes::from_slice(alloc, &shown_date(cell)),
        _ => Bytes::from_slice(alloc, cell),
    }
}

fn shown_truth(cell: &[u8]) -> &'static [u8]
    ensures value { result.now ≡ truth_shown cell.now }
{
    if read_truth(cell) { b".T." } else { b".F." }
}
