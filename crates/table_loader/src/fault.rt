//! Why a text of CSV is not loaded.

use std::alloc::{AllocError, AllocFailed};
use thiserror::Error;

/// Why a text is no value of a field.
#[derive(Clone, Copy, Debug, PartialEq, Eq, Error)]
pub enum ValueFault {
    /// It is not of the field's kind.
    #[error("TypeMismatch")]
    TypeMismatch,
    /// The number has a text wider than the field, or more decimals other than zero.
    #[error("NumberTooWide")]
    NumberTooWide,
    /// The date is not one of the calendar.
    #[error("BadDate")]
    BadDate,
    /// The text is wider than the field.
    #[error("TextTooWide")]
    TextTooWide,
    /// A memo can't have the text: it has over [`dbf_image::MAX_MEMO_BYTES`] bytes, or a 0x1A.
    #[error("BadText")]
    BadText,
}

/// Why a text of CSV is not loaded: the first fault, line by line. The heading is line 1; a line without a byte does not
/// count, and a cell between quotes may go on over a line's end.
#[derive(Clone, Copy, Debug, PartialEq, Eq, Error)]
pub enum CsvFault {
    /// The text has no line.
    #[error("there is no heading")]
    NoHeading,
    /// The column of this number, from 1, has a name that no field has.
    #[error("column {0}: no field has the name")]
    UnknownName(usize),
    /// The column of this number, from 1, has the name of an earlier one.
    #[error("column {0}: an earlier column has the name")]
    DoubledName(usize),
    /// The line of this number has more or fewer cells than the heading.
    #[error("line {0}: not as many cells as the heading")]
    CellCount(u32),
    /// At the line of this number the table has [`dbf_image::MAX_RECORDS`] records.
    #[error("line {0}: TableFull")]
    TableFull(u32),
    /// In the line of this number the text for the field of this index, from 0, is no value of it.
    #[error("line {0}, field {1}: {2}")]
    Value(u32, usize, ValueFault),
    /// In the line of this number the mark is not `true`, `false` or nothing.
    #[error("line {0}: the mark is not true or false")]
    BadMark(u32),
    /// Memory was refused.
    #[error("out of memory")]
    NoMemory,
}

impl From<AllocError> for CsvFault {
    ghost use Rattle.std.specs.Prelude.{◌≡◌};
    ghost use Rattle.table_loader.specs.declared.fault.CsvFault.TheVariants.{NoMemory};

    ghost from_gives = { λ _ fault. fault ≡ NoMemory };

    fn from(_refused: AllocError) -> CsvFault {
        CsvFault::NoMemory
    }
}

impl<T: Drop> From<AllocFailed<T>> for CsvFault {
    ghost use Rattle.std.specs.Prelude.{◌≡◌};
    ghost use Rattle.table_loader.specs.declared.fault.CsvFault.TheVariants.{NoMemory};

    ghost from_gives = { λ _ fault. fault ≡ NoMemory };

    fn from(_refused: AllocFailed<T>) -> CsvFault {
        CsvFault::NoMemory
    }
}
