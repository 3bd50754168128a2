//! The cells of a record: what a field keeps of a value.

ghost use Rattle.std.specs.Prelude.{◌≡◌, ◌⊎◌, length, true, IfOk, IfErr};
ghost use Rattle.dbf_fields.specs.Field.{has_width};
ghost use Rattle.dbf_fields.specs.Cell.{stored, IsNumberAgain, IsTruthAgain, IsDateAgain};
ghost use Rattle.dbf_fields.specs.Padding.{padded as padded_text};

use crate::date::date_text;
use crate::field::Field;
use crate::format::{BLANK, CHARACTER, DATE, LOGICAL, NUMBER};
use crate::literal::Literal;
use crate::logical::truth_text;
use crate::number_text::number_cell;
use byte_io::Bytes;
use std::alloc::{AllocError, Global};
use thiserror::Error;

/// Why a field's cell can't keep a value.
#[derive(Clone, Copy, Debug, PartialEq, Eq, Error)]
pub enum CellFault {
    /// The value is not of the field's kind.
    #[error("the value is of another type than the field")]
    TypeMismatch,
    /// The value stands for a date that is not one of the calendar.
    #[error("the date is not one of the calendar")]
    BadDate,
    /// The number's text is wider than the field, or it has more decimals other than zero.
    #[error("the number is too wide for the field")]
    NumberTooWide,
    /// Memory was refused.
    #[error("out of memory")]
    NoMemory,
}

impl From<AllocError> for CellFault {
    ghost use Rattle.std.specs.Prelude.{◌≡◌};
    ghost use Rattle.dbf_fields.specs.declared.cell.CellFault.TheVariants.{NoMemory};

    ghost from_gives = { λ _ fault. fault ≡ NoMemory };

    fn from(_refused: AllocError) -> CellFault {
        CellFault::NoMemory
    }
}

// A text cut to the width, or filled up with blanks to it.
fn padded(alloc: Global, text: &[u8], width: usize) -> Result<Bytes, AllocError>
    ensures value { IfOk result (λ cell. cell ≡ padded_text width text.now) }
{
    let kept = text.len().min(width);
    let mut cell = Vec::with_capacity(alloc, width)?;
    cell.extend_from_slice(&text[..kept])?;
    cell.resize(width, BLANK)?;
    Ok(Bytes::from_vec(cell))
}

/// The cell in which a field of a schema keeps a value: as many bytes as the field is wide.
///
/// - `C`: a text, cut to the width or filled up with blanks to it.
/// - `N`: a number in decimal digits after blanks, with exactly the field's decimals, a digit before the
///   point, and `-` before a number below zero. Nothing is rounded.
/// - `L`: `T` or `F`.
/// - `D`: a date as `YYYYMMDD`, and the blank date as eight blanks.
/// - `M`: nothing, since a memo's text stands in a file of its own; every value is a `TypeMismatch`.
///
/// The faults are tested in this order: `TypeMismatch` (a value that the field's kind doesn't keep),
/// `BadDate` (the text that is no date, in a date's field), `NumberTooWide` (more decimals other than zero
/// than the field has, or a text wider than the field). All of them are tested before memory is taken, so
/// `NoMemory` comes only for a value that the field can keep. The widths and the forms of the cells are those
/// of the published DBF layout; that nothing is rounded is this project's rule.
pub fn encode_cell(alloc: Global, field: &Field, value: &Literal) -> Result<Bytes, CellFault>
    ensures stored { IfOk result (λ cell. stored field.now value.now ≡ Ok cell) }
    ensures wide { IfOk result (λ cell. length cell ≡ field.now.width) }
    ensures refused { IfErr result (λ fault. (fault ≡ CellFault.NoMemory) ⊎ (stored field.now value.now ≡ Err fault)) }
    ensures early { IfErr result (λ fault. (f : CellFault) → stored field.now value.now ≡ Err f → fault ≡ f) }
    ensures number_again { IfOk result (λ cell. IsNumberAgain field.now value.now cell) }
    ensures truth_again { has_width field.now ≡ true → IfOk result (λ cell. IsTruthAgain value.now cell) }
    ensures date_again { has_width field.now ≡ true → IfOk result (λ cell. IsDateAgain value.now cell) }
{
    let width = usize::from(field.width);
    match value {
        Literal::Text(text) if field.kind == CHARACTER => {
            Ok(padded(alloc, text.as_slice(), width)?)
        }
        Literal::Number { digits, scale } if field.kind == NUMBER => {
            Ok(number_cell(alloc, field.width, field.decimals, digits.get(), *scale)?)
        }
        Literal::Truth(truth) if field.kind == LOGICAL => {
            Ok(padded(alloc, &truth_text(*truth), width)?)
        }
        Literal::Date(day) if field.kind == DATE => Ok(padded(alloc, &date_text(day), width)?),
        Literal::BlankDate if field.kind == DATE => Ok(padded(alloc, b"", width)?),
        Literal::BadDate if field.kind == DATE => Err(CellFault::BadDate),
        _ => Err(CellFault::TypeMismatch),
    }
}
