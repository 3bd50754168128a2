//! The first words of commands.

ghost use Rattle.std.specs.Prelude.{◌≡◌};
ghost use Rattle.station_lines.specs.Script.Reading.{verb_in};

use crate::script::keyword::is_keyword;

/// The first word of a command, but for INDEX: the words after each of these are cut off one after another.
#[derive(Clone, Copy, Debug, PartialEq, Eq)]
pub(crate) enum Verb {
    /// SELECT
    Select,
    /// USE
    Use,
    /// GO or GOTO
    Go,
    /// SKIP
    Skip,
    /// SEEK
    Seek,
    /// SET
    Set,
    /// APPEND
    Append,
    /// REPLACE
    Replace,
    /// MEMO
    Memo,
    /// DELETE
    Delete,
    /// RECALL
    Recall,
    /// PACK
    Pack,
    /// UNLOCK
    Unlock,
    /// ?
    Ask,
    /// DISPLAY
    Display,
}

/// The verb that a word is, in any case, whole or shortened. Takes no memory.
pub(crate) fn verb_of(word: &[u8]) -> Option<Verb>
    ensures value { result ≡ verb_in word.now }
{
    if is_keyword(word, b"SELECT") {
        Some(Verb::Select)
    } else if is_keyword(word, b"USE") {
        Some(Verb::Use)
    } else if is_keyword(word, b"GO") {
        Some(Verb::Go)
    } else if is_keyword(word, b"GOTO") {
        Some(Verb::Go)
    } else if is_keyword(word, b"SKIP") {
        Some(Verb::Skip)
    } else if is_keyword(word, b"SEEK") {
        Some(Verb::Seek)
    } else if is_keyword(word, b"SET") {
        Some(Verb::Set)
    } else if is_keyword(word, b"APPEND") {
        Some(Verb::Append)
    } else if is_keyword(word, b"REPLACE") {
        Some(Verb::Replace)
    } else if is_keyword(word, b"MEMO") {
        Some(Verb::Memo)
    } else if is_keyword(word, b"DELETE") {
        Some(Verb::Delete)
    } else if is_keyword(word, b"RECALL") {
        Some(Verb::Recall)
    } else if is_keyword(word, b"PACK") {
        Some(Verb::Pack)
    } else if is_keyword(word, b"UNLOCK") {
        Some(Verb::Unlock)
    } else if is_keyword(word, b"?") {
        Some(Verb::Ask)
    } else if is_keyword(word, b"DISPLAY") {
        Some(Verb::Display)
    } else {
        None
    }
}
