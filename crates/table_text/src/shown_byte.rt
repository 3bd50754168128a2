//! A byte as it is shown.

ghost use Rattle.std.specs.Prelude.{◌≡◌, ◌<◌};
ghost use Rattle.table_text.specs.Shown.{hex_digit as digit_of, is_plain, shown_byte};
ghost use Rattle.table_text.specs.ShownByte.{bytes_shown};

use crate::format::{BACKSLASH, HEX_MARK, LAST_PRINTABLE, LETTER_A};
use dbf_fields::{BLANK, ZERO_DIGIT};

/// The bytes that are shown of a byte.
#[derive(Clone, Copy)]
pub(crate) enum ShownByte {
    /// It alone.
    Plain([u8; 1]),
    /// A backslash and it.
    Marked([u8; 2]),
    /// A backslash, `x` and its two digits to the base 16.
    Digits([u8; 4]),
}

impl ShownByte {
    /// The bytes.
    pub(crate) fn as_slice(&self) -> &[u8]
        ensures value { result.now ≡ bytes_shown self.now }
    {
        match self {
            ShownByte::Plain(bytes) => bytes,
            ShownByte::Marked(bytes) => bytes,
            ShownByte::Digits(bytes) => bytes,
        }
    }
}

/// Whether a byte is a printable character of ASCII other than the backslash.
pub(crate) fn is_plain_byte(byte: u8) -> bool
    ensures value { result ≡ is_plain byte }
{
    byte >= BLANK && byte <= LAST_PRINTABLE && byte != BACKSLASH
}

fn hex_digit(n: u8) -> u8
    requires digit { n < 16 }
    ensures value { result ≡ digit_of n }
{
    if n < 10 {
        ZERO_DIGIT + n
    } else {
        LETTER_A + (n - 10)
    }
}

/// What is shown of a byte.
pub(crate) fn shown(byte: u8) -> ShownByte
    ensures value { bytes_shown result ≡ shown_byte byte }
{
    if is_plain_byte(byte) {
        return ShownByte::Plain([byte]);
    }
    if byte == BACKSLASH {
        return ShownByte::Marked([BACKSLASH, BACKSLASH]);
    }
    ShownByte::Digits([
        BACKSLASH,
        HEX_MARK,
        hex_digit(byte / 16),
        hex_digit(byte % 16),
    ])
}
