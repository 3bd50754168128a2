//! Cuts a line into words.

ghost use Rattle.std.specs.Prelude.{◌≡◌, ◌≤◌, length};
ghost use Rattle.station_lines.specs.Script.Words.{is_gap as gap};
ghost use Rattle.station_lines.specs.Script.Parts.{is_quote as quote_byte};
ghost use Rattle.station_lines.specs.Script.Reading.{without_gaps as rest_of, quote_after as quote_then, word_length as length_of, first_word, after_word};

use crate::script::format::{APOSTROPHE, QUOTE, TAB};
use dbf_fields::BLANK;

/// A blank or a tab.
pub(crate) fn is_gap(byte: u8) -> bool
    ensures value { result ≡ gap byte }
{
    byte == BLANK || byte == TAB
}

/// A byte that begins and ends a text.
pub(crate) fn is_quote(byte: u8) -> bool
    ensures value { result ≡ quote_byte byte }
{
    byte == QUOTE || byte == APOSTROPHE
}

/// What is left after the blanks and tabs at the front. Takes no memory.
pub(crate) fn without_gaps(text: &[u8]) -> &[u8]
    ensures value { result.now ≡ rest_of text.now }
{
    let mut rest = text;
    while let [first, after @ ..] = rest {
        if !is_gap(*first) {
            return rest;
        }
        rest = after;
    }
    rest
}

/// The quote of the text in which the byte after this one stands, and 0 outside of texts.
pub(crate) fn quote_after(quote: u8, byte: u8) -> u8
    ensures value { result ≡ quote_then quote byte }
{
    if quote == 0 {
        if is_quote(byte) { byte } else { 0 }
    } else if byte == quote {
        0
    } else {
        quote
    }
}

// How many bytes belong to the word at the front, in whose texts blanks and tabs may stand.
fn word_length(text: &[u8]) -> usize
    ensures value { result ≡ length_of 0 text.now }
    ensures short { result ≤ length text.now }
{
    let mut quote = 0;
    let mut rest = text;
    while let [first, after @ ..] = rest {
        if quote == 0 && is_gap(*first) {
            return text.len() - rest.len();
        }
        quote = quote_after(quote, *first);
        rest = after;
    }
    text.len()
}

/// The first word of a line, which is empty where there is none, and what stands after it.
pub(crate) fn cut_word(line: &[u8]) -> (&[u8], &[u8])
    ensures word { result.0.now ≡ first_word line.now }
    ensures after { result.1.now ≡ after_word line.now }
{
    let text = without_gaps(line);
    text.split_at(word_length(text))
}
