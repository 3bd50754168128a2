//! Why bytes are no table, and where.

use crate::fault::ImageFault;
use dbf_fields::BadField;
use std::alloc::{AllocError, AllocFailed};

/// The cell of a memo in a table's file.
#[derive(Clone, Copy, Debug, PartialEq, Eq)]
pub struct MemoCell {
    /// The number of its record, from 1.
    pub record_number: u32,
    /// The number of its field, from 1.
    pub field_number: usize,
    /// The number of the block that it names; 0 is no memo, and `None` a cell that has no number.
    pub block: Option<u64>,
}

/// The part of a table's files that is bad.
#[derive(Clone, Copy, Debug, PartialEq, Eq)]
pub enum TablePart {
    /// The header, or a file as a whole: its length, and whether it is there.
    Header,
    /// The first field up to which the fields are no schema.
    Field(BadField),
    /// A memo.
    Memo(MemoCell),
}

/// Why bytes are no table, and where.
#[derive(Clone, Copy, Debug, PartialEq, Eq)]
pub struct BadTable {
    /// The fault.
    pub why: ImageFault,
    /// The part that it is found in; [`Header`](TablePart::Header) where memory was refused.
    pub part: TablePart,
}

impl From<ImageFault> for BadTable {
    ghost use Rattle.std.specs.Prelude.{◌≡◌};
    ghost use Rattle.dbf_image.specs.BadTable.{bad_in};
    ghost use Rattle.dbf_image.specs.declared.bad_table.TablePart.TheVariants.{Header};

    ghost from_gives = { λ why bad. bad ≡ bad_in Header why };

    fn from(why: ImageFault) -> BadTable {
        BadTable {
            why,
            part: TablePart::Header,
        }
    }
}

impl From<AllocError> for BadTable {
    ghost use Rattle.std.specs.Prelude.{◌≡◌};
    ghost use Rattle.dbf_image.specs.declared.fault.ImageFault.TheVariants.{NoMemory};

    ghost from_gives = { λ _ bad. bad.why ≡ NoMemory };

    fn from(_e: AllocError) -> BadTable {
        ImageFault::NoMemory.into()
    }
}

impl<T: Drop> From<AllocFailed<T>> for BadTable {
    ghost use Rattle.std.specs.Prelude.{◌≡◌};
    ghost use Rattle.dbf_image.specs.declared.fault.ImageFault.TheVariants.{NoMemory};

    ghost from_gives = { λ _ bad. bad.why ≡ NoMemory };

    fn from(_e: AllocFailed<T>) -> BadTable {
        ImageFault::NoMemory.into()
    }
}
