//! Bytes between quotes.

ghost use Rattle.std.specs.Prelude.{◌≡◌, ◌++◌, Some, OnOk, OnErr};
ghost use Rattle.byte_io.specs.Sink.{IsFront};
ghost use Rattle.table_text.specs.Quoted.{between_quotes, byte_between_quotes};
ghost use Rattle.table_text.specs.ShownByte.{bytes_shown};

use crate::format::{BACKSLASH, QUOTE};
use crate::shown_byte::{ShownByte, shown};
use std::alloc::AllocError;

// What is shown of a byte that stands between quotes.
fn shown_between_quotes(byte: u8) -> ShownByte
    ensures value { bytes_shown result ≡ byte_between_quotes byte }
{
    if byte == QUOTE {
        return ShownByte::Marked([BACKSLASH, QUOTE]);
    }
    shown(byte)
}

/// Appends bytes between quotes to a text: printable characters of ASCII as they are, but a quote and a backslash after a
/// backslash, and every other byte as a backslash, `x` and its two digits to the base 16.
///
/// An `Err` says that there was no memory.
pub fn append_between_quotes(text: &mut Vec<u8>, bytes: &[u8]) -> Result<(), AllocError>
    ensures ok { OnOk result (text.new.items ≡ text.old.items ++ between_quotes bytes.now) }
    ensures kept { OnErr result (IsFront (Some text.old.items) (Some text.new.items)) }
{
    text.push(QUOTE)?;
    for byte in bytes {
        text.extend_from_slice(shown_between_quotes(*byte).as_slice())?;
    }
    text.push(QUOTE)?;
    Ok(())
}
