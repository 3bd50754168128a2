//! Numbers after words.

ghost use Rattle.std.specs.Prelude.{◌≡◌, ◌++◌, OnOk};
ghost use Rattle.std.specs.Fmt.{decimal};

use std::alloc::{AllocError, Global};

/// Appends the decimal digits of a number.
///
/// An `Err` says that there was no memory.
pub(crate) fn append_number(
    alloc: Global,
    text: &mut Vec<u8>,
    number: usize,
) -> Result<(), AllocError>
    ensures ok { OnOk result (text.new.items ≡ text.old.items ++ decimal number) }
{
    let digits = format!(in alloc; "{number}")?;
    text.extend_from_slice(digits.as_bytes())
}

/// Appends words, and a number after them.
///
/// An `Err` says that there was no memory.
pub(crate) fn append_words(
    alloc: Global,
    text: &mut Vec<u8>,
    words: &[u8],
    number: usize,
) -> Result<(), AllocError>
    ensures ok { OnOk result (text.new.items ≡ text.old.items ++ (words.now ++ decimal number)) }
{
    text.extend_from_slice(words)?;
    append_number(alloc, text, number)
}

/// Appends two numbers, each after words.
///
/// An `Err` says that there was no memory.
pub(crate) fn append_two(
    alloc: Global,
    text: &mut Vec<u8>,
    words: &[u8],
    number: usize,
    more: &[u8],
    other: usize,
) -> Result<(), AllocError>
    ensures ok { OnOk result (text.new.items ≡ text.old.items ++ (words.now ++ (decimal number ++ (more.now ++ decimal other)))) }
{
    append_words(alloc, text, words, number)?;
    append_words(alloc, text, more, other)
}
