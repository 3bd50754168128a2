//! How a value is told.

ghost use Rattle.std.specs.Prelude.{◌≡◌, ◌++◌, OnOk};
ghost use Rattle.std.specs.List.{list_all};
ghost use Rattle.table_text.specs.Csv.{csv_value, wants_quotes as does_want_quotes};
ghost use Rattle.table_text.specs.Shown.{is_plain as is_byte_plain, trimmed_end as without_end};
ghost use Rattle.table_diff.specs.Told.{is_bare as is_word_text, is_bare_byte as is_byte_of_word, text_told};

use crate::format::{BACKSLASH, COMMA, CR, LAST_PRINTABLE, LF, QUOTE};
use dbf_fields::{BLANK, MEMO, NUMBER, trimmed};
use std::alloc::AllocError;
use table_text::append_between_quotes;

// Whether a byte is a printable character of ASCII other than the backslash.
fn is_plain(byte: u8) -> bool
    ensures value { result ≡ is_byte_plain byte }
{
    byte >= BLANK && byte <= LAST_PRINTABLE && byte != BACKSLASH
}

// Whether a field of CSV with the byte stands between quotes.
fn wants_quotes(byte: u8) -> bool
    ensures value { result ≡ does_want_quotes byte }
{
    byte == COMMA || byte == QUOTE || byte == CR || byte == LF
}

// Whether a byte may stand in a text without quotes around it.
fn is_word_byte(byte: u8) -> bool
    ensures value { result ≡ is_byte_of_word byte }
{
    is_plain(byte) && !(byte == BLANK || wants_quotes(byte))
}

fn are_word_bytes(text: &[u8]) -> bool
    ensures value { result ≡ list_all is_byte_of_word text.now }
{
    text.iter().all(|byte| is_word_byte(*byte))
}

fn is_word(text: &[u8]) -> bool
    ensures value { result ≡ is_word_text text.now }
{
    if text.is_empty() {
        return false;
    }
    are_word_bytes(text)
}

/// A text after what the line has: as it is, where it is one word, and else between quotes.
///
/// An `Err` says that there was no memory.
#[tactic(auto, unfolding(crate::specs::Told::text_told))]
pub(crate) fn append_told(line: &mut Vec<u8>, text: &[u8]) -> Result<(), AllocError>
    ensures ok { OnOk result (line.new.items ≡ line.old.items ++ text_told text.now) }
{
    if is_word(text) {
        return line.extend_from_slice(text);
    }
    append_between_quotes(line, text)
}

// The bytes without the blanks at their end.
#[tactic(auto, unfolding(table_text::specs::Shown::trimmed_end))]
fn trimmed_end(bytes: &[u8]) -> &[u8]
    ensures value { result.now ≡ without_end bytes.now }
{
    let mut text = bytes;
    while let [rest @ .., BLANK] = text {
        text = rest;
    }
    text
}

/// What CSV has of a cell of this kind.
#[tactic(auto, unfolding(table_text::specs::Csv::csv_value))]
pub(crate) fn text_of(kind: u8, cell: &[u8]) -> &[u8]
    ensures value { result.now ≡ csv_value kind cell.now }
{
    match kind {
        MEMO => cell,
        NUMBER => trimmed(cell),
        _ => trimmed_end(cell),
    }
}
