//! A line as it is shown.

ghost use Rattle.std.specs.Prelude.{◌≡◌, ◌++◌, ◌<◌, take, OnOk};
ghost use Rattle.table_text.specs.Shown.{hex_digit as digit_of, is_plain, shown_byte};
ghost use Rattle.setup_check.specs.ScriptLines.{shown_line};

use dbf_fields::{BLANK, ZERO_DIGIT};
use std::alloc::AllocError;

/// The most bytes of a line that are shown.
pub(crate) const MAX_SHOWN_BYTES: usize = 200;

// Whether a byte is a printable character of ASCII other than the backslash.
fn is_plain_byte(byte: u8) -> bool
    ensures value { result ≡ is_plain byte }
{
    byte >= BLANK && byte <= b'~' && byte != b'\\'
}

fn hex_digit(n: u8) -> u8
    requires digit { n < 16 }
    ensures value { result ≡ digit_of n }
{
    if n < 10 {
        ZERO_DIGIT + n
    } else {
        b'a' + (n - 10)
    }
}

// Appends a byte as it is shown.
fn append_byte(text: &mut Vec<u8>, byte: u8) -> Result<(), AllocError>
    ensures ok { OnOk result (text.new.items ≡ text.old.items ++ shown_byte byte) }
{
    if is_plain_byte(byte) {
        return text.extend_from_slice(&[byte]);
    }
    if byte == b'\\' {
        return text.extend_from_slice(b"\\\\");
    }
    text.extend_from_slice(&[b'\\', b'x', hex_digit(byte / 16), hex_digit(byte % 16)])
}

// The first bytes of a line.
fn front(line: &[u8], count: usize) -> &[u8]
    ensures value { result.now ≡ take count line.now }
{
    &line[..line.len().min(count)]
}

/// Appends the first bytes of a line: printable characters of ASCII as they are, but a backslash after a backslash, and
/// every other byte as a backslash, `x` and its two digits to the base 16.
///
/// An `Err` says that there was no memory.
pub fn append_shown(text: &mut Vec<u8>, line: &[u8]) -> Result<(), AllocError>
    ensures ok { OnOk result (text.new.items ≡ text.old.items ++ shown_line line.now) }
{
    for byte in front(line, MAX_SHOWN_BYTES) {
        append_byte(text, *byte)?;
    }
    Ok(())
}
