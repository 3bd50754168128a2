//! Texts with escapes, as cases have them, and the bytes that they stand for.
//!
//! `\n`, `\r`, `\t`, `\\` and `\xHH` are what they are in Rust, `\s` is a blank, `\{N*TEXT}` so many times the text, and one
//! backslash at the end of a line says that no line end follows.

ghost use Rattle.std.specs.Prelude.{◌<◌, IfSome};

use crate::trouble::Trouble;
use crate::words::{count, cut_first, words_of};
use std::alloc::{AllocError, Global};

/// The most bytes that an escape or a word of digits stands for.
const MAX_BYTES: usize = 4_000_000;

// The digits of hexadecimal numbers.
const DIGITS: [u8; 16] = *b"0123456789abcdef";

// The value of a hexadecimal digit.
fn hex_digit(byte: u8) -> Option<u8>
    ensures digit { IfSome result (λ value. value < 16) }
{
    match byte {
        b'0'..=b'9' => Some(byte - b'0'),
        b'a'..=b'f' => Some(byte - b'a' + 10),
        b'A'..=b'F' => Some(byte - b'A' + 10),
        _ => None,
    }
}

// The byte of two hexadecimal digits.
fn hex_byte(high: u8, low: u8) -> Option<u8> {
    let high = hex_digit(high)?;
    let low = hex_digit(low)?;
    Some(high * 16 + low)
}

/// Appends the bytes of hexadecimal digits in pairs, with blanks where the text has them; `N*HH` stands for so many of one byte.
pub fn append_hex(alloc: Global, bytes: &mut Vec<u8>, text: &[u8]) -> Result<(), Trouble> {
    for word in words_of(alloc, text)? {
        match cut_first(word, b"*") {
            Some((times, pairs)) => append_pairs_times(bytes, count(times)?, pairs)?,
            None => append_pairs(bytes, word)?,
        }
    }
    Ok(())
}

// Appends the bytes of pairs of hexadecimal digits so many times.
fn append_pairs_times(bytes: &mut Vec<u8>, times: usize, pairs: &[u8]) -> Result<(), Trouble> {
    if times > MAX_BYTES {
        return Err(Trouble::Bad("too many bytes"));
    }
    for _ in 0..times {
        append_pairs(bytes, pairs)?;
    }
    Ok(())
}

// Appends the bytes of pairs of hexadecimal digits.
fn append_pairs(bytes: &mut Vec<u8>, pairs: &[u8]) -> Result<(), Trouble> {
    for pair in pairs.chunks(2) {
        let [high, low] = pair else {
            return Err(Trouble::Bad("half a byte"));
        };
        append_pair(bytes, *high, *low)?;
    }
    Ok(())
}

// Appends the byte of two hexadecimal digits.
fn append_pair(bytes: &mut Vec<u8>, high: u8, low: u8) -> Result<(), Trouble> {
    match hex_byte(high, low) {
        Some(byte) => Ok(bytes.push(byte)?),
        None => Err(Trouble::Bad("no hexadecimal digit")),
    }
}

/// The bytes that a text stands for.
#[derive(Drop)]
pub struct Unescaped {
    /// The bytes.
    pub bytes: Vec<u8>,
    /// Whether a backslash at its end says that no line end follows.
    pub is_open: bool,
}

// Appends a text so many times: `N*TEXT`.
fn append_times(bytes: &mut Vec<u8>, form: &[u8]) -> Result<(), Trouble> {
    let Some((times, text)) = cut_first(form, b"*") else {
        return Err(Trouble::Bad("N*TEXT must stand in braces"));
    };
    let times = count(times)?;
    if times.saturating_mul(text.len()) > MAX_BYTES {
        return Err(Trouble::Bad("too many bytes"));
    }
    for _ in 0..times {
        append_with_ends(bytes, text)?;
    }
    Ok(())
}

// Appends a text in which `\n` stands for the end of a line.
fn append_with_ends(bytes: &mut Vec<u8>, text: &[u8]) -> Result<(), AllocError> {
    let mut rest = text;
    for _ in 0..text.len() {
        match cut_first(rest, b"\\n") {
            Some((line, after)) => {
                bytes.extend_from_slice(line)?;
                bytes.extend_from_slice(b"\n")?;
                rest = after;
            }
            None => break,
        }
    }
    bytes.extend_from_slice(rest)
}

// Appends `N*TEXT}` of an escape, whose text begins behind the brace: what stands after it.
fn append_braced<'a>(bytes: &mut Vec<u8>, text: &'a [u8]) -> Result<&'a [u8], Trouble> {
    let Some((form, rest)) = cut_first(text, b"}") else {
        return Err(Trouble::Bad("a brace is not closed"));
    };
    append_times(bytes, form)?;
    Ok(rest)
}

// The byte of an escape of one letter.
fn byte_of_letter(letter: u8) -> Option<u8> {
    match letter {
        b'n' => Some(b'\n'),
        b'r' => Some(b'\r'),
        b't' => Some(b'\t'),
        b's' => Some(b' '),
        b'\\' => Some(b'\\'),
        _ => None,
    }
}

// Appends what an escape stands for, whose text begins behind the backslash: what stands after it.
fn append_escape<'a>(bytes: &mut Vec<u8>, text: &'a [u8]) -> Result<&'a [u8], Trouble> {
    match text {
        [b'{', form @ ..] => append_braced(bytes, form),
        [b'x', high, low, rest @ ..] => {
            append_pair(bytes, *high, *low)?;
            Ok(rest)
        }
        [letter, rest @ ..] => {
            let Some(byte) = byte_of_letter(*letter) else {
                return Err(Trouble::Bad("no escape"));
            };
            bytes.push(byte)?;
            Ok(rest)
        }
        [] => Err(Trouble::Bad("no escape")),
    }
}

/// The bytes that a text stands for, with its escapes read.
pub fn plain(alloc: Global, text: &[u8]) -> Result<Unescaped, Trouble> {
    let mut bytes = Vec::new(alloc);
    let mut is_open = false;
    let mut rest = text;
    for _ in 0..text.len() {
        match rest {
            [] => break,
            [b'\\'] => {
                is_open = true;
                break;
            }
            [b'\\', escape @ ..] => rest = append_escape(&mut bytes, escape)?,
            [byte, after @ ..] => {
                bytes.push(*byte)?;
                rest = after;
            }
        }
    }
    Ok(Unescaped { bytes, is_open })
}

// Appends a byte as a case writes it.
fn append_escaped(text: &mut Vec<u8>, byte: u8) -> Result<(), AllocError> {
    match byte {
        b'\\' => text.extend_from_slice(b"\\\\"),
        b'\n' => text.extend_from_slice(b"\\n"),
        b'\r' => text.extend_from_slice(b"\\r"),
        b'\t' => text.extend_from_slice(b"\\t"),
        32..127 => text.extend_from_slice(&[byte]),
        _ => {
            let (high, low) = (usize::from(byte / 16), usize::from(byte % 16));
            text.extend_from_slice(&[b'\\', b'x', DIGITS[high], DIGITS[low]])
        }
    }
}

/// Appends bytes as a case writes them; a blank at their end is `\s`.
pub fn append_shown(text: &mut Vec<u8>, bytes: &[u8]) -> Result<(), AllocError> {
    let (shown, ends_blank) = match bytes {
        [shown @ .., b' '] => (shown, true),
        _ => (bytes, false),
    };
    for byte in shown {
        append_escaped(text, *byte)?;
    }
    if ends_blank {
        text.extend_from_slice(b"\\s")?;
    }
    Ok(())
}
