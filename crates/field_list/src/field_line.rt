//! A line of a list of fields.

ghost use Rattle.std.specs.Prelude.{◌≡◌, IfOk};
ghost use Rattle.field_list.specs.FieldLine.{after_number as rest_after_number, byte_in as byte_of, decimals_in as decimals_of, extra_word, kind_named as kind_of};
ghost use Rattle.field_list.specs.FieldLine.{line_fault, line_name, line_kind, line_width, line_decimals, line_field, parts_fault, says_nothing as says_none, is_heading as heading_is, two_words};

use crate::fault::FieldLineFault;
use dbf_fields::{CHARACTER, DATE, Field, LOGICAL, MEMO, NUMBER};
use station_lines::{count_in, cut_plain_word};
use std::alloc::{AllocError, Global};

// Whether these are the first two words of a line.
fn begins_with(line: &[u8], first: &[u8], second: &[u8]) -> bool
    ensures value { result ≡ two_words first.now second.now line.now }
{
    let (word, rest) = cut_plain_word(line);
    let (next, _) = cut_plain_word(rest);
    word == first && next == second
}

// Whether a line is one of those that are printed before the fields.
fn is_heading(line: &[u8]) -> bool
    ensures value { result ≡ heading_is line.now }
{
    let (word, _) = cut_plain_word(line);
    word == b"Records:".as_slice()
        || begins_with(line, b"Last", b"change:")
        || begins_with(line, b"Field", b"Name")
}

/// Whether a line says nothing: it has no words, or it is one of those that are printed before the fields. Takes no memory.
pub(crate) fn says_nothing(line: &[u8]) -> bool
    ensures value { result ≡ says_none line.now }
{
    let (word, _) = cut_plain_word(line);
    word.is_empty() || is_heading(line)
}

// What stands after the field's number, which may be missing.
fn after_number(line: &[u8]) -> &[u8]
    ensures value { result.now ≡ rest_after_number line.now }
{
    let (word, rest) = cut_plain_word(line);
    match count_in(word) {
        Some(_) => rest,
        None => line,
    }
}

// The letter of the kind that a word names, in any case.
fn kind_named(word: &[u8]) -> Option<u8>
    ensures value { result ≡ kind_of word.now }
{
    if word.eq_ignore_ascii_case(b"Character") {
        Some(CHARACTER)
    } else if word.eq_ignore_ascii_case(b"Number") {
        Some(NUMBER)
    } else if word.eq_ignore_ascii_case(b"Logical") {
        Some(LOGICAL)
    } else if word.eq_ignore_ascii_case(b"Date") {
        Some(DATE)
    } else if word.eq_ignore_ascii_case(b"Memo") {
        Some(MEMO)
    } else {
        None
    }
}

// The number up to 255 that a word is.
fn byte_in(word: &[u8]) -> Option<u8>
    ensures value { result ≡ byte_of word.now }
{
    match count_in(word) {
        Some(count) if count <= u8::MAX as u64 => Some(count as u8),
        _ => None,
    }
}

// The decimals that a word tells of a field of a kind: none of other kinds than numbers, and none where there is no word.
fn decimals_in(kind: Option<u8>, word: &[u8]) -> Option<u8>
    ensures value { result ≡ decimals_of kind word.now }
{
    if kind == Some(NUMBER) && !word.is_empty() {
        byte_in(word)
    } else {
        Some(0)
    }
}

// The word too many after a width, which is empty where there is none.
fn word_too_many(kind: Option<u8>, rest: &[u8]) -> &[u8]
    ensures value { result.now ≡ extra_word kind rest.now }
{
    let (word, after) = cut_plain_word(rest);
    if kind == Some(NUMBER) {
        let (next, _) = cut_plain_word(after);
        next
    } else {
        word
    }
}

/// The parts of a line that says more than nothing.
#[derive(Clone, Copy, Debug)]
pub(crate) struct FieldLine<'a> {
    /// The field's name.
    pub name: &'a [u8],
    /// The letter of its kind.
    pub kind: Option<u8>,
    /// Its width.
    pub width: Option<u8>,
    /// Its decimals.
    pub decimals: Option<u8>,
    /// The word too many, which is empty where there is none.
    pub extra: &'a [u8],
}

/// The parts of a line. Takes no memory.
pub(crate) fn parts_of(line: &[u8]) -> FieldLine<'_>
    ensures name { result.name.now ≡ line_name line.now }
    ensures kind { result.kind ≡ line_kind line.now }
    ensures width { result.width ≡ line_width line.now }
    ensures decimals { result.decimals ≡ line_decimals line.now }
    ensures fault { parts_fault result.kind result.width result.decimals result.extra.now ≡ line_fault line.now }
{
    let (name, rest) = cut_plain_word(after_number(line));
    let (kind, rest) = cut_plain_word(rest);
    let kind = kind_named(kind);
    let (width, rest) = cut_plain_word(rest);
    let (decimals, _) = cut_plain_word(rest);
    FieldLine {
        name,
        kind,
        width: byte_in(width),
        decimals: decimals_in(kind, decimals),
        extra: word_too_many(kind, rest),
    }
}

/// Why a line says no field, where it says more than nothing. Takes no memory.
pub(crate) fn why_no_field(line: &[u8]) -> Option<FieldLineFault>
    ensures value { result ≡ line_fault line.now }
{
    let parts = parts_of(line);
    if parts.kind.is_none() {
        return Some(FieldLineFault::NoKind);
    }
    if parts.width.is_none() {
        return Some(FieldLineFault::NoWidth);
    }
    if parts.decimals.is_none() {
        return Some(FieldLineFault::NoDecimals);
    }
    if !parts.extra.is_empty() {
        return Some(FieldLineFault::WordTooMany);
    }
    None
}

/// The field that a line says. An error where memory is refused.
pub(crate) fn field_of(alloc: Global, line: &[u8]) -> Result<Field, AllocError>
    ensures value { IfOk result (λ field. field ≡ line_field line.now) }
{
    let parts = parts_of(line);
    Field::new(
        alloc,
        parts.name,
        parts.kind.unwrap_or(0),
        parts.width.unwrap_or(0),
        parts.decimals.unwrap_or(0),
    )
}
