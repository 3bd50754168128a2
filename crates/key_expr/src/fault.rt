//! Why a text is no key expression.

ghost use Rattle.std.specs.Prelude.{◌≡◌};
ghost use Rattle.key_expr.specs.FaultWords.{expression_name, expression_words};

use std::alloc::{AllocError, AllocFailed};
use std::fmt;
use thiserror::Error;

/// Why a text is no key expression of a schema: the first rule that it breaks, in this order.
#[derive(Clone, Copy, Debug, PartialEq, Eq, Error)]
pub enum ExprFault {
    /// The text is longer than `MAX_EXPRESSION_BYTES` bytes.
    ExpressionTooLong,
    /// The text is not of the grammar. The offset is that of the first byte, counted from 0, of the first
    /// token with which no text of the grammar can go on, or the text's length where it ends too early.
    BadSyntax(usize),
    /// The schema has no field of the name.
    NoSuchField,
    /// A field is of another kind than where it stands asks for: characters where it stands alone, a number in
    /// `STR`, a date in `DTOC`.
    NotCharacter,
    /// A number of `SUBSTR` or `STR` is out of its range.
    BadArgument,
    /// The keys would be longer than `MAX_KEY_BYTES` bytes.
    KeyTooLong,
    /// Memory was refused.
    NoMemory,
}

impl ExprFault {
    /// The name of its variant, without what it carries. Takes no memory.
    pub fn name(self) -> &'static str
        ensures name { result.now ≡ expression_name self }
    {
        match self {
            ExprFault::ExpressionTooLong => "ExpressionTooLong",
            ExprFault::BadSyntax(_) => "BadSyntax",
            ExprFault::NoSuchField => "NoSuchField",
            ExprFault::NotCharacter => "NotCharacter",
            ExprFault::BadArgument => "BadArgument",
            ExprFault::KeyTooLong => "KeyTooLong",
            ExprFault::NoMemory => "NoMemory",
        }
    }
}

impl fmt::Display for ExprFault {
    ghost use Rattle.std.specs.Prelude.{Some};

    ghost output = { λ fault. Some (expression_words fault) };

    fn fmt<W: fmt::Write>(&self, f: &mut fmt::Formatter<W>) -> fmt::Result {
        match self {
            ExprFault::ExpressionTooLong => f.write_str("the expression is too long"),
            ExprFault::BadSyntax(offset) => write!(f, "bad syntax at byte {offset}"),
            ExprFault::NoSuchField => f.write_str("there is no such field"),
            ExprFault::NotCharacter => f.write_str("a field is of the wrong kind"),
            ExprFault::BadArgument => f.write_str("a function's argument is out of range"),
            ExprFault::KeyTooLong => f.write_str("the key is too long"),
            ExprFault::NoMemory => f.write_str("out of memory"),
        }
    }
}

impl From<AllocError> for ExprFault {
    ghost use Rattle.std.specs.Prelude.{◌≡◌};
    ghost use Rattle.key_expr.specs.declared.fault.ExprFault.TheVariants.{NoMemory};

    ghost from_gives = { λ _ e. e ≡ NoMemory };

    fn from(_refused: AllocError) -> ExprFault {
        ExprFault::NoMemory
    }
}

impl<T: Drop> From<AllocFailed<T>> for ExprFault {
    ghost use Rattle.std.specs.Prelude.{◌≡◌};
    ghost use Rattle.key_expr.specs.declared.fault.ExprFault.TheVariants.{NoMemory};

    ghost from_gives = { λ _ e. e ≡ NoMemory };

    fn from(_refused: AllocFailed<T>) -> ExprFault {
        ExprFault::NoMemory
    }
}
