//! Why a text is no list of fields.

use dbf_fields::SchemaFault;
use std::alloc::AllocError;
use thiserror::Error;

/// Why a line says no field: the first fault, from left to right.
#[derive(Clone, Copy, Debug, PartialEq, Eq, Error)]
pub enum FieldLineFault {
    /// The word after the name is none of the kinds.
    #[error("the word after the name is none of Character, Number, Logical, Date and Memo")]
    NoKind,
    /// The word after the kind is no number up to 255, or it is missing.
    #[error("the word after the kind is no width")]
    NoWidth,
    /// The word after the width of a number is no number up to 255.
    #[error("the word after the width is no number of decimals")]
    NoDecimals,
    /// A word stands after the field.
    #[error("there is a word too many")]
    WordTooMany,
}

/// Why a text is no list of fields. Lines count from 1, those that say nothing too.
#[derive(Clone, Copy, Debug, PartialEq, Eq, Error)]
pub enum FieldListFault {
    /// The first line that says no field though it should.
    #[error("line {line}: {why}")]
    BadLine {
        /// The line's number.
        line: usize,
        /// Why it says no field.
        why: FieldLineFault,
    },
    /// The first line up to whose field the fields are no schema.
    #[error("line {line}: {why}")]
    BadField {
        /// The line's number.
        line: usize,
        /// Why they are none.
        why: SchemaFault,
    },
    /// No line says a field.
    #[error("there is no field")]
    NoFields,
    /// Memory was refused.
    #[error("out of memory")]
    NoMemory,
}

impl From<AllocError> for FieldListFault {
    ghost use Rattle.std.specs.Prelude.{◌≡◌};
    ghost use Rattle.field_list.specs.declared.fault.FieldListFault.TheVariants.{NoMemory};

    ghost from_gives = { λ _ fault. fault ≡ NoMemory };

    fn from(_refused: AllocError) -> FieldListFault {
        FieldListFault::NoMemory
    }
}
