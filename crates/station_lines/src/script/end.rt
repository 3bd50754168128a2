//! Cuts words off the end of a line. A quote is a byte like any other there.

ghost use Rattle.std.specs.Prelude.{◌≡◌, ◌≤◌, length, reverse};
ghost use Rattle.station_lines.specs.Script.Reading.{without_end_gaps as rest_before, from_gap, before_last, last_word};

use crate::script::word::is_gap;

/// What is left before the blanks and tabs at the end. Takes no memory.
pub(crate) fn without_end_gaps(text: &[u8]) -> &[u8]
    ensures value { result.now ≡ rest_before text.now }
{
    let mut rest = text;
    while let [before @ .., last] = rest
        && is_gap(*last)
    {
        rest = before;
    }
    rest
}

// What is left before the bytes at the end that are no blanks and no tabs.
fn without_end_word(text: &[u8]) -> &[u8]
    ensures value { result.now ≡ reverse (from_gap (reverse text.now)) }
    ensures short { length result.now ≤ length text.now }
{
    let mut rest = text;
    while let [before @ .., last] = rest
        && !is_gap(*last)
    {
        rest = before;
    }
    rest
}

/// What stands before the last word of a line, and this word, which is empty where there is none.
pub(crate) fn cut_last_word(line: &[u8]) -> (&[u8], &[u8])
    ensures before { result.0.now ≡ before_last line.now }
    ensures word { result.1.now ≡ last_word line.now }
{
    let text = without_end_gaps(line);
    let before = without_end_word(text);
    let (_, word) = text.split_at(before.len());
    (before, word)
}
