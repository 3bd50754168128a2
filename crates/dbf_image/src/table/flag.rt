//! The first byte of a record.

ghost use Rattle.std.specs.Prelude.{◌≡◌, if◌then◌else◌};
ghost use Rattle.dbf_image.specs.declared.format.TheConstants.{DELETED, KEPT};

use crate::format::{DELETED, KEPT};

/// The flag of a record that is marked as deleted, or of one that is kept.
pub(crate) fn flag_of(deleted: bool) -> u8
    ensures value { result ≡ (if deleted then DELETED else KEPT) }
{
    if deleted { DELETED } else { KEPT }
}
