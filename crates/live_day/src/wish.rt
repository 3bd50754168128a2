//! The lines of the keyboard that are none of a script.

ghost use Rattle.std.specs.Prelude.{◌≡◌, take, drop};
ghost use Rattle.live_day.specs.Wishes.{is_quit as quits, is_station_word as names_station, IsWishOf};

use station_lines::{cut_plain_word, plain_number};

/// How many bytes stand before a station's number: STATION and a blank.
pub const STATION_WORD_BYTES: usize = 8;

/// What a line of the keyboard asks for.
#[derive(Clone, Copy, Debug, PartialEq, Eq)]
pub enum Wish {
    /// `STATION n`: the lines from now on are those of station n.
    Station(u64),
    /// `QUIT`: the day is closed.
    Quit,
    /// Nothing of the keyboard: the line is one of a script.
    Perform,
}

// The first bytes of a line, or all of one that has fewer, and the others.
fn split(line: &[u8], count: usize) -> (&[u8], &[u8])
    ensures first { result.0.now ≡ take count line.now }
    ensures others { result.1.now ≡ drop count line.now }
{
    line.split_at(line.len().min(count))
}

/// Whether a line is QUIT, in letters of either case; blanks at its ends count for nothing.
pub(crate) fn is_quit(line: &[u8]) -> bool
    ensures value { result ≡ quits line.now }
{
    let (word, rest) = cut_plain_word(line);
    let (more, _) = cut_plain_word(rest);
    word.eq_ignore_ascii_case(b"QUIT") && more.is_empty()
}

// Whether the bytes are STATION and a blank, in letters of either case.
fn is_station_word(word: &[u8]) -> bool
    ensures value { result ≡ names_station word.now }
{
    word.eq_ignore_ascii_case(b"STATION ")
}

/// What a line asks for. Takes no memory.
pub fn wish_of(line: &[u8]) -> Wish
    ensures value { IsWishOf line.now result }
{
    if is_quit(line) {
        return Wish::Quit;
    }
    let (word, number) = split(line, STATION_WORD_BYTES);
    if !is_station_word(word) {
        return Wish::Perform;
    }
    match plain_number(number) {
        Some(number) => Wish::Station(number),
        None => Wish::Perform,
    }
}
