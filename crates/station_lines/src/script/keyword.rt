//! Keywords.

ghost use Rattle.std.specs.Prelude.{◌≡◌, take, drop};
ghost use Rattle.station_lines.specs.Script.Parts.{is_keyword as keyword_is};

use crate::script::format::KEYWORD_LETTERS;

/// The first bytes of a text, or all of a text that has fewer, and the others. Takes no memory.
pub(crate) fn split(text: &[u8], count: usize) -> (&[u8], &[u8])
    ensures first { result.0.now ≡ take count text.now }
    ensures others { result.1.now ≡ drop count text.now }
{
    text.split_at(text.len().min(count))
}

// The first bytes of a text, or all of a text that has fewer.
fn front(text: &[u8], count: usize) -> &[u8]
    ensures value { result.now ≡ take count text.now }
{
    &text[..text.len().min(count)]
}

/// Whether a word is the keyword in any case, whole or shortened to four letters or more. Takes no memory.
pub(crate) fn is_keyword(word: &[u8], keyword: &[u8]) -> bool
    ensures value { result ≡ keyword_is keyword.now word.now }
{
    let (first, others) = split(word, KEYWORD_LETTERS);
    let (wanted, next) = split(keyword, KEYWORD_LETTERS);
    let next = front(next, word.len().saturating_sub(KEYWORD_LETTERS));
    first.eq_ignore_ascii_case(wanted) && others.eq_ignore_ascii_case(next)
}
