//! Names, numbers and texts in words.

ghost use Rattle.std.specs.Prelude.{◌≡◌, ◌<◌, ◌==◌, ◌^◌, position, option_map, IfOk, IfSome, IsSome, OnErr};
ghost use Rattle.std.specs.List.{list_all};
ghost use Rattle.dbf_fields.specs.Name.{is_name_char};
ghost use Rattle.station_lines.specs.Script.Parts.{is_name_word as name_is, name_in as name_of, capitals, is_count as count_is, count_in as count_of, distance_in as distance_of};
ghost use Rattle.station_lines.specs.Script.Reading.{text_in as text_of};

use crate::script::format::MAX_COUNT_DIGITS;
use crate::script::word::is_quote;
use byte_io::Bytes;
use dbf_fields::{MINUS, are_digits, number_of_digits};
use std::alloc::{AllocError, Global};

// A letter, a digit or `_`.
fn is_name_byte(byte: u8) -> bool
    ensures value { result ≡ is_name_char byte }
{
    byte.is_ascii_alphanumeric() || byte == b'_'
}

fn are_name_bytes(word: &[u8]) -> bool
    ensures value { result ≡ list_all is_name_char word.now }
{
    word.iter().all(|byte| is_name_byte(*byte))
}

/// A letter, then letters, digits or `_`. Takes no memory.
pub(crate) fn is_name(word: &[u8]) -> bool
    ensures value { result ≡ name_is word.now }
{
    !word.is_empty() && word[0].is_ascii_alphabetic() && are_name_bytes(word)
}

/// A word in capitals. An error where memory is refused.
pub(crate) fn in_capitals(alloc: Global, word: &[u8]) -> Result<Bytes, AllocError>
    ensures value { IfOk result (λ name. name ≡ capitals word.now) }
{
    let bytes = word
        .iter()
        .map(|byte| byte.to_ascii_uppercase())
        .collect(alloc)?;
    Ok(Bytes::from_vec(bytes))
}

/// The name that a word is, folded to capitals. An error where memory is refused, which only a name takes.
pub(crate) fn name_in(alloc: Global, word: &[u8]) -> Result<Option<Bytes>, AllocError>
    ensures value { IfOk result (λ name. name ≡ name_of word.now) }
    ensures early { OnErr result (IsSome (name_of word.now)) }
{
    if is_name(word) {
        Ok(Some(in_capitals(alloc, word)?))
    } else {
        Ok(None)
    }
}

// Whether a word is 1 to 10 digits.
fn is_count(word: &[u8]) -> bool
    ensures value { result ≡ count_is word.now }
{
    !word.is_empty() && word.len() <= MAX_COUNT_DIGITS && are_digits(word)
}

/// The number that 1 to 10 digits are. Takes no memory.
pub fn count_in(word: &[u8]) -> Option<u64>
    ensures value { result ≡ count_of word.now }
    ensures bounded { IfSome result (λ n. n < 10 ^ 10) }
{
    if is_count(word) {
        Some(number_of_digits(word))
    } else {
        None
    }
}

/// The number that 1 to 10 digits are, below zero after a `-`. Takes no memory.
pub(crate) fn distance_in(word: &[u8]) -> Option<i64>
    ensures value { result ≡ distance_of word.now }
{
    match word {
        [MINUS, digits @ ..] => {
            let n = count_in(digits)?;
            Some(-(n as i64))
        }
        digits => {
            let n = count_in(digits)?;
            Some(n as i64)
        }
    }
}

// Where a byte stands first.
fn offset_of(text: &[u8], byte: u8) -> Option<usize>
    ensures value { result ≡ position (λ b. b == byte) text.now }
{
    text.iter().position(|other| *other == byte)
}

/// The text that a word is, without its quotes. Takes no memory.
pub(crate) fn text_in(word: &[u8]) -> Option<&[u8]>
    ensures value { option_map (λ text. text.now) result ≡ text_of word.now }
{
    if word.is_empty() || !is_quote(word[0]) {
        return None;
    }
    let (_, rest) = word.split_at(1);
    let end = offset_of(rest, word[0])?;
    if end + 1 != rest.len() {
        return None;
    }
    let (text, _) = rest.split_at(end);
    Some(text)
}
