//! Why lines are bad, in words.

ghost use Rattle.std.specs.Prelude.{◌≡◌, ◌++◌, codes, option_map, IfOk, OnOk};
ghost use Rattle.station_lines.specs.Script.BadLines.{reason_told};
ghost use Rattle.station_lines.specs.BadSetupLines.{setup_reason_told};
ghost use Rattle.setup_check.specs.ScriptLines.{bad_words, reason_words, setup_reason_words, shown_line};

use crate::shown_line::append_shown;
use station_lines::{BadLine, BadSetupLine, why_bad};
use std::alloc::{AllocError, Global};

// Appends words, and a word of a line after them.
fn append_before(text: &mut Vec<u8>, words: &[u8], word: &[u8]) -> Result<(), AllocError>
    ensures ok { OnOk result (text.new.items ≡ text.old.items ++ (words.now ++ shown_line word.now)) }
{
    text.extend_from_slice(words)?;
    append_shown(text, word)
}

// Appends a word of a line, and words after it.
fn append_after(text: &mut Vec<u8>, word: &[u8], words: &[u8]) -> Result<(), AllocError>
    ensures ok { OnOk result (text.new.items ≡ text.old.items ++ (shown_line word.now ++ words.now)) }
{
    append_shown(text, word)?;
    text.extend_from_slice(words)
}

// Appends which word must stand there.
fn append_wanted(text: &mut Vec<u8>, wanted: &[u8]) -> Result<(), AllocError>
    ensures ok { OnOk result (text.new.items ≡ text.old.items ++ (codes " stands where " ++ (wanted.now ++ codes " must"))) }
{
    text.extend_from_slice(b" stands where ")?;
    text.extend_from_slice(wanted)?;
    text.extend_from_slice(b" must")?;
    Ok(())
}

// Appends that a word stands where another must.
fn append_other(text: &mut Vec<u8>, word: &[u8], wanted: &[u8]) -> Result<(), AllocError>
    ensures ok { OnOk result (text.new.items ≡ text.old.items ++ (shown_line word.now ++ (codes " stands where " ++ (wanted.now ++ codes " must")))) }
{
    append_shown(text, word)?;
    append_wanted(text, wanted)?;
    Ok(())
}

// Appends that no table has a name.
fn append_no_table(text: &mut Vec<u8>, word: &[u8]) -> Result<(), AllocError>
    ensures ok { OnOk result (text.new.items ≡ text.old.items ++ (codes "no TABLE of the name " ++ (shown_line word.now ++ codes " before it"))) }
{
    append_before(text, b"no TABLE of the name ", word)?;
    text.extend_from_slice(b" before it")?;
    Ok(())
}

/// Appends why a line of a script is bad.
///
/// An `Err` says that there was no memory.
pub(crate) fn append_reason(text: &mut Vec<u8>, why: BadLine<'_>) -> Result<(), AllocError>
    ensures ok { OnOk result (text.new.items ≡ text.old.items ++ reason_words (reason_told why.entry)) }
{
    match why {
        BadLine::ByteOrderMark => text.extend_from_slice(b"it begins with a byte order mark"),
        BadLine::EndMark => text.extend_from_slice(b"it ends with 1A, the mark of a file's end"),
        BadLine::Remark => text.extend_from_slice(b"&& begins no remark"),
        BadLine::NoBlank => text.extend_from_slice(b"a blank is missing after ?"),
        BadLine::UnknownWord(word) => append_before(text, b"unknown word ", word),
        BadLine::OtherWord { word, wanted } => append_other(text, word, wanted),
        BadLine::OpenText => text.extend_from_slice(b"a text has no end"),
        BadLine::WordTooMany(word) => append_before(text, b"a word too many: ", word),
        BadLine::OtherForm => text.extend_from_slice(b"not the form of its command"),
    }
}

/// Why a line is none of a script, in words. `None` where it is one.
///
/// An `Err` says that there was no memory.
pub fn bad_line_words(alloc: Global, line: &[u8]) -> Result<Option<Vec<u8>>, AllocError>
    ensures words { IfOk result (λ words. option_map (λ text. text.items) words ≡ bad_words line.now) }
{
    let Some(why) = why_bad(alloc, line) else {
        return Ok(None);
    };
    let mut text = Vec::new(alloc);
    append_reason(&mut text, why)?;
    Ok(Some(text))
}

/// Appends why a line of a setup is bad.
///
/// An `Err` says that there was no memory.
pub(crate) fn append_setup_reason(
    text: &mut Vec<u8>,
    why: BadSetupLine<'_>,
) -> Result<(), AllocError>
    ensures ok { OnOk result (text.new.items ≡ text.old.items ++ setup_reason_words (setup_reason_told why.entry)) }
{
    match why {
        BadSetupLine::ByteOrderMark => {
            text.extend_from_slice(b"it begins with a byte order mark")
        }
        BadSetupLine::NotAscii => text.extend_from_slice(b"it has a byte over 127"),
        BadSetupLine::SmallLetters(word) => append_after(text, word, b" must be in capitals"),
        BadSetupLine::UnknownWord(word) => {
            append_after(text, word, b" is none of TABLE, INDEX, STATION")
        }
        BadSetupLine::WordMissing => text.extend_from_slice(b"a word is missing"),
        BadSetupLine::WordTooMany(word) => append_before(text, b"a word too many: ", word),
        BadSetupLine::NoName(word) => append_after(
            text,
            word,
            b" is no name of 1 to 8 letters, digits or _, a letter first",
        ),
        BadSetupLine::NoTable(word) => append_no_table(text, word),
    }
}
