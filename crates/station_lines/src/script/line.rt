//! What a line of a script means.

ghost use Rattle.std.specs.Prelude.{◌≡◌, ℕ, List, true, IfOk, OnErr};
ghost use Rattle.station_lines.specs.Script.Words.{begins_with_asterisk};
ghost use Rattle.station_lines.specs.Script.Meaning.{Means};
ghost use Rattle.station_lines.specs.Script.Keeping.{keeps_text};
ghost use Rattle.station_lines.specs.Script.Reading.{read, after_verb};

use crate::script::command::{four_words, one_word, three_words, two_words};
use crate::script::index::after_index;
use crate::script::keyword::is_keyword;
use crate::script::verb::{Verb, verb_of};
use crate::script::word::cut_word;
use catalogue_core::Command;
use dbf_fields::ASTERISK;
use std::alloc::{AllocError, Global};

/// What a line of a script means.
#[derive(Debug, PartialEq, Eq, Drop)]
pub enum Line {
    /// A command that the station performs, `Bad` for a line that can't be read.
    Run(Command),
    /// DISPLAY STATUS.
    Status,
    /// A line without words, or a remark: a line whose first word begins with `*`.
    Blank,
}

/// Whether a word begins with `*`. Takes no memory.
pub(crate) fn is_remark(word: &[u8]) -> bool
    ensures value { result ≡ begins_with_asterisk word.now }
{
    match word {
        [ASTERISK, ..] => true,
        _ => false,
    }
}

// The line of a verb and the words after it.
fn parse_words(alloc: Global, verb: Verb, words: &[u8]) -> Result<Line, AllocError>
    ensures value { IfOk result (λ line. line ≡ after_verb verb words.now) }
    ensures early { OnErr result (keeps_text (after_verb verb words.now) ≡ true) }
{
    let (second, words) = cut_word(words);
    if second.is_empty() {
        return Ok(one_word(verb));
    }
    let (third, words) = cut_word(words);
    if third.is_empty() {
        return two_words(alloc, verb, second);
    }
    let (fourth, words) = cut_word(words);
    if fourth.is_empty() {
        return three_words(alloc, verb, second, third);
    }
    let (fifth, _) = cut_word(words);
    if fifth.is_empty() {
        return four_words(alloc, verb, second, third, fourth);
    }
    Ok(Line::Run(Command::Bad))
}

/// What is made of a line, word by word. An error where memory for a name or a text is refused.
pub(crate) fn read_line(alloc: Global, line: &[u8]) -> Result<Line, AllocError>
    ensures value { IfOk result (λ meaning. meaning ≡ read line.now) }
    ensures early { OnErr result (keeps_text (read line.now) ≡ true) }
{
    let (first, words) = cut_word(line);
    if first.is_empty() || is_remark(first) {
        return Ok(Line::Blank);
    }
    if is_keyword(first, b"INDEX") {
        return after_index(alloc, words);
    }
    match verb_of(first) {
        Some(verb) => parse_words(alloc, verb, words),
        None => Ok(Line::Run(Command::Bad)),
    }
}

#[tactic(auto, using(crate::proofs::ScriptLaws::MeaningLaws::read_means, crate::proofs::ScriptLaws::MeaningLaws::other_means, crate::proofs::ScriptLaws::KeepingLaws::meaning_keeps))]
/// What a line of a script means, without its ending: a command, DISPLAY STATUS or nothing. A line that is none
/// of these is the command `Bad`. Takes memory for the names and texts that the command keeps alone, and answers
/// an error where it is refused: never at a line that means nothing, DISPLAY STATUS, `Bad` or another command that
/// keeps no name or text.
pub fn parse_line(alloc: Global, line: &[u8]) -> Result<Line, AllocError>
    ensures read { IfOk result (λ meaning. Means line.now meaning) }
    ensures one { IfOk result (λ meaning. (other : Line) → Means line.now other → other ≡ meaning) }
    ensures early { OnErr result ((meaning : Line) → Means line.now meaning → keeps_text meaning ≡ true) }
{
    let meaning = read_line(alloc, line)?;
    Ok(meaning)
}

/// A line has one meaning: each means something, and no line means two things.
pub fn one_meaning()
    ensures some { (line : List ℕ) → Means line (read line) }
    ensures one { (line : List ℕ) (a b : Line) → Means line a → Means line b → a ≡ b }
{}
