//! Why a line of a script is bad.

ghost use Rattle.std.specs.Prelude.{◌≡◌, ◌↔◌, fold, is_some, IfSome, IsSome};
ghost use Rattle.station_lines.specs.declared.script.line.Line.TheVariants.{Run};
ghost use Rattle.catalogue_core.specs.declared.command.Command.TheVariants.{Bad};
ghost use Rattle.station_lines.specs.Script.Meaning.{Means};
ghost use Rattle.station_lines.specs.Script.Reading.{quote_after as quote_then, read};
ghost use Rattle.station_lines.specs.Script.BadLines.{reason_told, begins_with_mark as mark_is_first, ends_with_end_mark as end_mark_is_last};
ghost use Rattle.station_lines.specs.Script.BadLines.{begins_with_remark as remark_is_first, has_remark as remark_stands_in, ends_in_text as text_is_open};
ghost use Rattle.station_lines.specs.Script.BadLines.{lacks_blank as blank_is_missing, second_word as second_of, third_word as third_of, fourth_word as fourth_of};
ghost use Rattle.station_lines.specs.Script.BadLines.{wanted_first as first_wanted, wanted_second as second_wanted, is_other as other_stands, word_past as past_of};
ghost use Rattle.station_lines.specs.Script.BadLines.{is_bad as bad_is, form_reason as form_reason_of, verb_reason as verb_reason_of};
ghost use Rattle.station_lines.specs.Script.BadLines.{index_reason as index_reason_of, word_reason as word_reason_of, reason_of as reason_is};

use crate::script::format::{
    AMPERSAND, END_MARK, MARK_FIRST, MARK_SECOND, MARK_THIRD, QUESTION_MARK,
};
use crate::script::keyword::is_keyword;
use crate::script::line::{Line, read_line};
use crate::script::verb::{Verb, verb_of};
use crate::script::word::{cut_word, quote_after};
use catalogue_core::Command;
use std::alloc::Global;

/// Why a line of a script is bad: the first of these that is so.
#[derive(Clone, Copy, Debug, PartialEq, Eq)]
pub enum BadLine<'a> {
    /// It begins with the byte order mark of UTF-8.
    ByteOrderMark,
    /// It ends with 1A, the mark of a file's end.
    EndMark,
    /// It has `&&` outside of texts: only a line that begins with `*` is a remark.
    Remark,
    /// Its first word is `?` with other bytes after it, where a blank must stand.
    NoBlank,
    /// Its first word, which is this, is that of no command.
    UnknownWord(&'a [u8]),
    /// A word stands where a keyword must stand.
    OtherWord {
        /// The word.
        word: &'a [u8],
        /// The keyword.
        wanted: &'static [u8],
    },
    /// A text has no quote at its end.
    OpenText,
    /// It has more words than a command of its first word has: this is the first of them.
    WordTooMany(&'a [u8]),
    /// It has another form than the commands of its first word.
    OtherForm,
}

/// Whether the byte order mark of UTF-8 is first. Takes no memory.
pub(crate) fn begins_with_mark(line: &[u8]) -> bool
    ensures value { result ≡ mark_is_first line.now }
{
    match line {
        [a, b, c, ..] => *a == MARK_FIRST && *b == MARK_SECOND && *c == MARK_THIRD,
        _ => false,
    }
}

// Whether the mark of a file's end is last.
fn ends_with_end_mark(line: &[u8]) -> bool
    ensures value { result ≡ end_mark_is_last line.now }
{
    match line {
        [.., END_MARK] => true,
        _ => false,
    }
}

fn begins_with_remark(text: &[u8]) -> bool
    ensures value { result ≡ remark_is_first text.now }
{
    match text {
        [a, b, ..] => *a == AMPERSAND && *b == AMPERSAND,
        _ => false,
    }
}

// Whether `&&` stands outside of texts.
fn has_remark(line: &[u8]) -> bool
    ensures value { result ≡ remark_stands_in 0 line.now }
{
    let mut quote = 0;
    let mut rest = line;
    while let [first, after @ ..] = rest {
        if quote == 0 && begins_with_remark(rest) {
            return true;
        }
        quote = quote_after(quote, *first);
        rest = after;
    }
    false
}

// The quote of the text that is open at the end, and 0 where none is.
fn open_quote(line: &[u8]) -> u8
    ensures value { result ≡ fold quote_then 0 line.now }
{
    let mut quote = 0;
    for byte in line {
        quote = quote_after(quote, *byte);
    }
    quote
}

// Whether a text is open at the end.
fn ends_in_text(line: &[u8]) -> bool
    ensures value { result ≡ text_is_open line.now }
{
    open_quote(line) != 0
}

// Whether a word is `?` with other bytes after it.
fn lacks_blank(word: &[u8]) -> bool
    ensures value { result ≡ blank_is_missing word.now }
{
    match word {
        [first, _, ..] => *first == QUESTION_MARK,
        _ => false,
    }
}

fn second_word(words: &[u8]) -> &[u8]
    ensures value { result.now ≡ second_of words.now }
{
    let (_, rest) = cut_word(words);
    let (word, _) = cut_word(rest);
    word
}

fn third_word(words: &[u8]) -> &[u8]
    ensures value { result.now ≡ third_of words.now }
{
    let (_, rest) = cut_word(words);
    second_word(rest)
}

fn fourth_word(words: &[u8]) -> &[u8]
    ensures value { result.now ≡ fourth_of words.now }
{
    let (_, rest) = cut_word(words);
    third_word(rest)
}

// The keyword that must stand next to the verb, or nothing.
fn wanted_first(verb: Verb) -> &'static [u8]
    ensures value { result.now ≡ first_wanted verb }
{
    match verb {
        Verb::Set => b"ORDER",
        Verb::Append => b"BLANK",
        Verb::Unlock => b"ALL",
        Verb::Display => b"STATUS",
        _ => b"",
    }
}

// The keyword that must stand as the second word after the verb, or nothing.
fn wanted_second(verb: Verb) -> &'static [u8]
    ensures value { result.now ≡ second_wanted verb }
{
    match verb {
        Verb::Use => b"EXCLUSIVE",
        Verb::Set => b"TO",
        Verb::Replace => b"WITH",
        Verb::Memo => b"WITH",
        _ => b"",
    }
}

// Whether a word stands where another, which is wanted, must stand.
fn is_other(word: &[u8], wanted: &[u8]) -> bool
    ensures value { result ≡ other_stands word.now wanted.now }
{
    !word.is_empty() && !wanted.is_empty() && !is_keyword(word, wanted)
}

// The first word after the most words that a command of the verb has.
fn word_past(verb: Verb, words: &[u8]) -> &[u8]
    ensures value { result.now ≡ past_of verb words.now }
{
    match verb {
        Verb::Delete | Verb::Recall | Verb::Pack => {
            let (word, _) = cut_word(words);
            word
        }
        Verb::Use => third_word(words),
        Verb::Set | Verb::Replace | Verb::Memo => fourth_word(words),
        _ => second_word(words),
    }
}

// What is wrong with the form of a line, by its verb and the words after it.
fn form_reason<'a>(verb: Verb, words: &'a [u8], line: &[u8]) -> BadLine<'a>
    ensures reason { reason_told result ≡ form_reason_of verb words.now line.now }
{
    if ends_in_text(line) {
        return BadLine::OpenText;
    }
    let word = word_past(verb, words);
    if word.is_empty() {
        BadLine::OtherForm
    } else {
        BadLine::WordTooMany(word)
    }
}

// Why a line of a verb is bad, by the words after it.
fn verb_reason<'a>(verb: Verb, words: &'a [u8], line: &[u8]) -> BadLine<'a>
    ensures reason { reason_told result ≡ verb_reason_of verb words.now line.now }
{
    let (first, _) = cut_word(words);
    if is_other(first, wanted_first(verb)) {
        return BadLine::OtherWord {
            word: first,
            wanted: wanted_first(verb),
        };
    }
    let second = second_word(words);
    if is_other(second, wanted_second(verb)) {
        return BadLine::OtherWord {
            word: second,
            wanted: wanted_second(verb),
        };
    }
    form_reason(verb, words, line)
}

// Why a line of INDEX is bad, by the words after it.
fn index_reason(words: &[u8]) -> BadLine<'_>
    ensures reason { reason_told result ≡ index_reason_of words.now }
{
    let (word, _) = cut_word(words);
    let wanted: &'static [u8] = b"ON";
    if is_other(word, wanted) {
        BadLine::OtherWord { word, wanted }
    } else {
        BadLine::OtherForm
    }
}

// Why a line is bad, by its first word and what stands after it.
fn word_reason<'a>(first: &'a [u8], words: &'a [u8], line: &[u8]) -> BadLine<'a>
    ensures reason { reason_told result ≡ word_reason_of first.now words.now line.now }
{
    if lacks_blank(first) {
        return BadLine::NoBlank;
    }
    if is_keyword(first, b"INDEX") {
        return index_reason(words);
    }
    match verb_of(first) {
        Some(verb) => verb_reason(verb, words, line),
        None => BadLine::UnknownWord(first),
    }
}

// Why a line that is bad is bad.
fn reason_of(line: &[u8]) -> BadLine<'_>
    ensures reason { reason_told result ≡ reason_is line.now }
{
    if begins_with_mark(line) {
        return BadLine::ByteOrderMark;
    }
    if ends_with_end_mark(line) {
        return BadLine::EndMark;
    }
    if has_remark(line) {
        return BadLine::Remark;
    }
    let (first, words) = cut_word(line);
    word_reason(first, words, line)
}

// Whether what is made of a line is the command `Bad`.
fn is_bad(line: &Line) -> bool
    ensures value { result ≡ bad_is line.now }
{
    match line {
        Line::Run(Command::Bad) => true,
        _ => false,
    }
}

// Whether the reader makes the command `Bad` of a line. It takes memory only for a line that keeps a text, so where this
// is refused the line is not bad.
#[tactic(auto, using(crate::proofs::ScriptLaws::BadLineLaws::keeping_is_good))]
fn reads_bad(alloc: Global, line: &[u8]) -> bool
    ensures value { result ≡ bad_is (read line.now) }
{
    match read_line(alloc, line) {
        Ok(meaning) => is_bad(&meaning),
        Err(_) => false,
    }
}

/// Why a line of a script is bad, and `None` exactly where it is not: where [`parse_line`] makes no `Bad` of it. The reason
/// is the first that is so, in the order of [`BadLine`]. The reader is asked, with the memory that it takes; where this is
/// refused, the line keeps a text, and so is not bad.
///
/// [`parse_line`]: crate::parse_line
#[tactic(auto, using(crate::proofs::ScriptLaws::BadLineLaws::bad_means, crate::proofs::ScriptLaws::BadLineLaws::means_bad))]
pub fn why_bad(alloc: Global, line: &[u8]) -> Option<BadLine<'_>>
    ensures bad { IsSome result ↔ Means line.now (Run Bad) }
    ensures read { is_some result ≡ bad_is (read line.now) }
    ensures reason { IfSome result (λ why. reason_told why ≡ reason_is line.now) }
{
    if reads_bad(alloc, line) {
        Some(reason_of(line))
    } else {
        None
    }
}
