//! What stands in a line: words, what is wanted of a step, and numbers.

ghost use Rattle.std.specs.Prelude.{◌≡◌, ◌+◌, length, IfSome};

use crate::trouble::Trouble;
use std::alloc::{AllocError, Global};

/// Between a step and the answer that is wanted, where that is empty.
const ARROW: &[u8] = b" =>";

/// The most digits of a number.
const MAX_DIGITS: usize = 18;

/// What stands before the first place of a mark, and what stands after it.
pub fn cut_first<'a>(text: &'a [u8], mark: &[u8]) -> Option<(&'a [u8], &'a [u8])>
    ensures lengths { IfSome result (λ parts. length parts.0.now + (length mark.now + length parts.1.now) ≡ length text.now) }
{
    for at in 0..text.len() {
        let (front, rest) = text.split_at(at);
        if let Some(after) = rest.strip_prefix(mark) {
            return Some((front, after));
        }
    }
    None
}

/// What stands before the last place of a mark, and what stands after it.
pub fn cut_last<'a>(text: &'a [u8], mark: &[u8]) -> Option<(&'a [u8], &'a [u8])>
    ensures lengths { IfSome result (λ parts. length parts.0.now + (length mark.now + length parts.1.now) ≡ length text.now) }
{
    for at in (0..text.len()).rev() {
        let (front, rest) = text.split_at(at);
        if let Some(after) = rest.strip_prefix(mark) {
            return Some((front, after));
        }
    }
    None
}

/// What is done, and the answer that is wanted, where one stands behind the last arrow.
pub fn cut_answer(text: &[u8]) -> (&[u8], Option<&[u8]>) {
    if let Some(front) = text.strip_suffix(ARROW) {
        return (front, Some(b""));
    }
    match cut_last(text, b" => ") {
        Some((front, answer)) => (front, Some(answer)),
        None => (text, None),
    }
}

/// The first word of a text, and what stands after the blank behind it.
pub fn cut_word(text: &[u8]) -> (&[u8], &[u8]) {
    match cut_first(text, b" ") {
        Some(parts) => parts,
        None => (text, b""),
    }
}

/// The words of a text, between blanks.
pub fn words_of(alloc: Global, text: &[u8]) -> Result<Vec<&[u8]>, AllocError> {
    let mut words = Vec::new(alloc);
    for word in text.split(|byte| *byte == b' ') {
        if !word.is_empty() {
            words.push(word)?;
        }
    }
    Ok(words)
}

/// The number of some digits, of at most 18.
pub fn number(text: &[u8]) -> Option<u64> {
    if text.is_empty() || text.len() > MAX_DIGITS {
        return None;
    }
    let mut value: u64 = 0;
    for byte in text {
        if !byte.is_ascii_digit() {
            return None;
        }
        let digit = u64::from(byte.saturating_sub(b'0'));
        value = value.saturating_mul(10).saturating_add(digit);
    }
    Some(value)
}

/// The number of some digits, as a count.
pub fn count(text: &[u8]) -> Result<usize, Trouble> {
    let Some(value) = number(text) else {
        return Err(Trouble::Bad("a number must stand here"));
    };
    match usize::try_from(value) {
        Ok(value) => Ok(value),
        Err(_) => Err(Trouble::Bad("a number is too large")),
    }
}
