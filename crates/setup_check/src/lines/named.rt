//! The names of faults, and what they say.

ghost use Rattle.std.specs.Prelude.{◌≡◌, ◌++◌, OnOk};
ghost use Rattle.key_expr.specs.FaultWords.{expression_name, expression_words};
ghost use Rattle.setup_check.specs.Lines.{named_words};

use key_expr::ExprFault;
use std::alloc::{AllocError, Global};

/// Appends a fault's name, and what it says.
///
/// An `Err` says that there was no memory.
pub(crate) fn append_named(text: &mut Vec<u8>, name: &str, words: &str) -> Result<(), AllocError>
    ensures ok { OnOk result (text.new.items ≡ text.old.items ++ named_words name.now words.now) }
{
    text.extend_from_slice(name.as_bytes())?;
    text.extend_from_slice(b": ")?;
    text.extend_from_slice(words.as_bytes())?;
    Ok(())
}

/// Appends why a text is no key expression.
///
/// An `Err` says that there was no memory.
pub(crate) fn append_expression_fault(
    alloc: Global,
    text: &mut Vec<u8>,
    why: ExprFault,
) -> Result<(), AllocError>
    ensures ok { OnOk result (text.new.items ≡ text.old.items ++ named_words (expression_name why) (expression_words why)) }
{
    let words = format!(in alloc; "{why}")?;
    append_named(text, why.name(), words.as_str())
}
