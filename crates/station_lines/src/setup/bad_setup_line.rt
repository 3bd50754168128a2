//! Why a line of a setup is bad.

ghost use Rattle.std.specs.Prelude.{◌≡◌, true, false, IfSome, IfNone};
ghost use Rattle.station_lines.specs.Setup.{IsBadAfter};
ghost use Rattle.station_lines.specs.BadSetupLines.{setup_reason_told, second_plain_word as second_of, third_plain_word as third_of, fourth_plain_word as fourth_of};
ghost use Rattle.station_lines.specs.BadSetupLines.{table_reason as table_reason_of, name_reason as name_reason_of, index_line_reason as index_reason_of};
ghost use Rattle.station_lines.specs.BadSetupLines.{station_reason as station_reason_of, is_setup_word as setup_word, key_reason as key_reason_of, setup_reason as setup_reason_of};

use crate::script::begins_with_mark;
use crate::setup::entry::{SetupEntry, is_in_capitals, may_follow};
use crate::setup::judged::Judged;
use crate::setup::line::{is_plain, judge};
use crate::setup::said::is_short_name;
use crate::setup::words::cut_plain_word;

/// Why a line of a setup is bad: the first of these that is so.
#[derive(Clone, Copy, Debug, PartialEq, Eq)]
pub enum BadSetupLine<'a> {
    /// It begins with the byte order mark of UTF-8.
    ByteOrderMark,
    /// It has a byte over 127.
    NotAscii,
    /// Its first word, which is this, would be TABLE, INDEX or STATION in capitals.
    SmallLetters(&'a [u8]),
    /// Its first word, which is this, is none of TABLE, INDEX and STATION.
    UnknownWord(&'a [u8]),
    /// It has too few words.
    WordMissing,
    /// It has too many words: this is the first of them.
    WordTooMany(&'a [u8]),
    /// This word is no name: 1 to 8 letters, digits or `_`, a letter first.
    NoName(&'a [u8]),
    /// No line before it names a table of this name.
    NoTable(&'a [u8]),
}

fn second_word(words: &[u8]) -> &[u8]
    ensures value { result.now ≡ second_of words.now }
{
    let (_, rest) = cut_plain_word(words);
    let (word, _) = cut_plain_word(rest);
    word
}

fn third_word(words: &[u8]) -> &[u8]
    ensures value { result.now ≡ third_of words.now }
{
    let (_, rest) = cut_plain_word(words);
    second_word(rest)
}

fn fourth_word(words: &[u8]) -> &[u8]
    ensures value { result.now ≡ fourth_of words.now }
{
    let (_, rest) = cut_plain_word(words);
    third_word(rest)
}

// Why a line of TABLE is bad, by the words after it.
fn table_reason(words: &[u8]) -> BadSetupLine<'_>
    ensures reason { setup_reason_told result ≡ table_reason_of words.now }
{
    if second_word(words).is_empty() {
        return BadSetupLine::WordMissing;
    }
    let excess = fourth_word(words);
    if !excess.is_empty() {
        return BadSetupLine::WordTooMany(excess);
    }
    let (name, _) = cut_plain_word(words);
    BadSetupLine::NoName(name)
}

// Why a line of an index is bad, by its two names.
fn name_reason<'a>(table: &'a [u8], name: &'a [u8]) -> BadSetupLine<'a>
    ensures reason { setup_reason_told result ≡ name_reason_of table.now name.now }
{
    if !is_short_name(table) {
        BadSetupLine::NoName(table)
    } else if !is_short_name(name) {
        BadSetupLine::NoName(name)
    } else {
        BadSetupLine::NoTable(table)
    }
}

// Why a line of INDEX is bad, by the words after it.
fn index_reason(words: &[u8]) -> BadSetupLine<'_>
    ensures reason { setup_reason_told result ≡ index_reason_of words.now }
{
    if third_word(words).is_empty() {
        return BadSetupLine::WordMissing;
    }
    let excess = fourth_word(words);
    if !excess.is_empty() {
        return BadSetupLine::WordTooMany(excess);
    }
    let (table, _) = cut_plain_word(words);
    name_reason(table, second_word(words))
}

// Why a line of STATION is bad, by the words after it.
fn station_reason(words: &[u8]) -> BadSetupLine<'_>
    ensures reason { setup_reason_told result ≡ station_reason_of words.now }
{
    let (script, _) = cut_plain_word(words);
    if script.is_empty() {
        BadSetupLine::WordMissing
    } else {
        BadSetupLine::WordTooMany(second_word(words))
    }
}

// Whether a word is TABLE, INDEX or STATION in any case.
fn is_setup_word(word: &[u8]) -> bool
    ensures value { result ≡ setup_word word.now }
{
    is_in_capitals(b"TABLE", word)
        || is_in_capitals(b"INDEX", word)
        || is_in_capitals(b"STATION", word)
}

// Why a line is bad, by its first word and what stands after it.
fn key_reason<'a>(key: &'a [u8], words: &'a [u8]) -> BadSetupLine<'a>
    ensures reason { setup_reason_told result ≡ key_reason_of key.now words.now }
{
    if key == b"TABLE".as_slice() {
        table_reason(words)
    } else if key == b"INDEX".as_slice() {
        index_reason(words)
    } else if key == b"STATION".as_slice() {
        station_reason(words)
    } else if is_setup_word(key) {
        BadSetupLine::SmallLetters(key)
    } else {
        BadSetupLine::UnknownWord(key)
    }
}

/// Why a line of a setup that is bad is bad: the first that is so, in the order of [`BadSetupLine`]. Takes no memory.
pub fn setup_line_reason(line: &[u8]) -> BadSetupLine<'_>
    ensures reason { setup_reason_told result ≡ setup_reason_of line.now }
{
    if begins_with_mark(line) {
        return BadSetupLine::ByteOrderMark;
    }
    if !is_plain(line) {
        return BadSetupLine::NotAscii;
    }
    let (key, words) = cut_plain_word(line);
    key_reason(key, words)
}

// Whether a line is bad after these entries.
fn is_bad_after(entries: &[SetupEntry], line: &[u8]) -> bool
    ensures bad { result ≡ true → IsBadAfter entries.now line.now }
    ensures good { result ≡ false → IsBadAfter entries.now line.now → ⊥ }
{
    match judge(line) {
        Judged::Skipped => false,
        Judged::Bad => true,
        Judged::Good(said) => !may_follow(entries, said),
    }
}

/// Why a line of a setup is bad after the entries of the lines before it, and `None` exactly where it is not. The reason is
/// that of [`setup_line_reason`]. Takes no memory.
pub fn why_bad_setup_line<'a>(entries: &[SetupEntry], line: &'a [u8]) -> Option<BadSetupLine<'a>>
    ensures bad { IfSome result (λ _. IsBadAfter entries.now line.now) }
    ensures good { IfNone result (IsBadAfter entries.now line.now → ⊥) }
    ensures reason { IfSome result (λ why. setup_reason_told why ≡ setup_reason_of line.now) }
{
    if is_bad_after(entries, line) {
        Some(setup_line_reason(line))
    } else {
        None
    }
}
