//! Values as commands give them.

ghost use Rattle.std.specs.Prelude.{◌≡◌, IfOk};

use crate::day::Day;
use crate::whole_number::WholeNumber;
use byte_io::Bytes;
use std::alloc::{AllocError, Global};

/// A value as a command gives it.
#[derive(Debug, Drop)]
pub enum Literal {
    /// A text of any length.
    Text(Bytes),
    /// A number: the whole number of all its digits, and how many of them stand after the point.
    Number {
        /// All digits as one whole number, with the sign.
        digits: WholeNumber,
        /// How many of the digits stand after the point.
        scale: u8,
    },
    /// A logical value.
    Truth(bool),
    /// A date.
    Date(Day),
    /// The date that is not there, which a cell keeps as blanks.
    BlankDate,
    /// A text in a date's place that is no date.
    BadDate,
}

impl Literal {
    /// The same value once more, or an error where memory is refused.
    pub fn copy(&self, alloc: Global) -> Result<Literal, AllocError>
        ensures value { IfOk result (λ literal. literal ≡ self.now) }
    {
        Ok(match self {
            Literal::Text(text) => Literal::Text(text.copy(alloc)?),
            Literal::Number { digits, scale } => Literal::Number {
                digits: WholeNumber::new(digits.get()),
                scale: *scale,
            },
            Literal::Truth(truth) => Literal::Truth(*truth),
            Literal::Date(day) => Literal::Date(*day),
            Literal::BlankDate => Literal::BlankDate,
            Literal::BadDate => Literal::BadDate,
        })
    }
}

impl PartialEq for Literal {
    ghost use Rattle.dbf_fields.specs.Same.{same_literal, literal_partial};

    ghost eq = { same_literal };

    ghost laws = { literal_partial };

    #[tactic(auto, unfolding(crate::specs::Same::same_literal))]
    fn eq(&self, other: &Literal) -> bool {
        match self {
            Literal::Text(text) => matches!(other, Literal::Text(its) if text == its),
            Literal::Number { digits, scale } => {
                matches!(other, Literal::Number { digits: d, scale: s } if digits.get() == d.get() && scale == s)
            }
            Literal::Truth(truth) => matches!(other, Literal::Truth(its) if truth == its),
            Literal::Date(day) => matches!(other, Literal::Date(its) if day == its),
            Literal::BlankDate => matches!(other, Literal::BlankDate),
            Literal::BadDate => matches!(other, Literal::BadDate),
        }
    }
}

impl Eq for Literal {
    ghost use Rattle.dbf_fields.specs.Same.{literal_equivalence};

    ghost laws = { literal_equivalence };
}
