//! Commands, by how many words they have.

ghost use Rattle.std.specs.Prelude.{◌≡◌, true, Some, IfOk, OnErr};
ghost use Rattle.station_lines.specs.Script.Parts.{name_in as name_in_word};
ghost use Rattle.station_lines.specs.Script.Keeping.{keeps_text};
ghost use Rattle.station_lines.specs.Script.Reading.{with_, one, two, three, four, go_line, list_line, locks_line, call_in as call_of_word, call_line, ask_line, set_order_line, replace_line, memo_line};

use crate::script::call::{CallName, call_in};
use crate::script::keyword::is_keyword;
use crate::script::line::Line;
use crate::script::list::{arguments_in, counts_in};
use crate::script::literal::literal_in;
use crate::script::value::{count_in, distance_in, in_capitals, is_name, name_in, text_in};
use crate::script::verb::Verb;
use byte_io::Bytes;
use catalogue_core::Command;
use std::alloc::{AllocError, Global};

/// The line of a verb alone. Takes no memory.
pub(crate) fn one_word(verb: Verb) -> Line
    ensures value { result ≡ one verb }
{
    match verb {
        Verb::Use => Line::Run(Command::CloseTable),
        Verb::Skip => Line::Run(Command::Skip(1)),
        Verb::Delete => Line::Run(Command::Delete),
        Verb::Recall => Line::Run(Command::Recall),
        Verb::Pack => Line::Run(Command::Pack),
        Verb::Unlock => Line::Run(Command::Unlock),
        _ => Line::Run(Command::Bad),
    }
}

// The line of SELECT and a word.
fn select(word: &[u8]) -> Line
    ensures value { result ≡ two Verb.Select word.now }
{
    match count_in(word) {
        Some(number) => Line::Run(Command::Select(number)),
        None => Line::Run(Command::Bad),
    }
}

// The line of USE, a word and nothing or EXCLUSIVE.
fn use_table(alloc: Global, word: &[u8], exclusive: bool) -> Result<Line, AllocError>
    ensures value { IfOk result (λ line. line ≡ with_ (name_in_word word.now) (λ n. Line.Run (Command.UseTable n exclusive))) }
    ensures early { OnErr result (keeps_text (with_ (name_in_word word.now) (λ n. Line.Run (Command.UseTable n exclusive))) ≡ true) }
{
    match name_in(alloc, word)? {
        Some(name) => Ok(Line::Run(Command::UseTable { name, exclusive })),
        None => Ok(Line::Run(Command::Bad)),
    }
}

// The line of GO and a word.
fn go_to(word: &[u8]) -> Line
    ensures value { result ≡ go_line word.now }
{
    if is_keyword(word, b"TOP") {
        Line::Run(Command::Top)
    } else if is_keyword(word, b"BOTTOM") {
        Line::Run(Command::Bottom)
    } else {
        match count_in(word) {
            Some(number) => Line::Run(Command::Go(number)),
            None => Line::Run(Command::Bad),
        }
    }
}

// The line of SKIP and a word.
fn skip(word: &[u8]) -> Line
    ensures value { result ≡ two Verb.Skip word.now }
{
    match distance_in(word) {
        Some(records) => Line::Run(Command::Skip(records)),
        None => Line::Run(Command::Bad),
    }
}

// The line of SEEK and a word.
fn seek(alloc: Global, word: &[u8]) -> Result<Line, AllocError>
    ensures value { IfOk result (λ line. line ≡ two Verb.Seek word.now) }
    ensures early { OnErr result (keeps_text (two Verb.Seek word.now) ≡ true) }
{
    match text_in(word) {
        Some(text) => Ok(Line::Run(Command::Seek(Bytes::from_slice(alloc, text)?))),
        None => Ok(Line::Run(Command::Bad)),
    }
}

// The line that locks a list of records.
fn lock_listed(alloc: Global, list: &[u8]) -> Result<Line, AllocError>
    ensures value { IfOk result (λ line. line ≡ list_line (Some list.now)) }
    ensures early { OnErr result (keeps_text (list_line (Some list.now)) ≡ true) }
{
    match counts_in(alloc, list)? {
        Some(numbers) => Ok(Line::Run(Command::RecordLocks(numbers))),
        None => Ok(Line::Run(Command::Bad)),
    }
}

// The line of RLOCK or LOCK with record numbers in its parentheses.
fn lock_records(alloc: Global, word: &[u8]) -> Result<Line, AllocError>
    ensures value { IfOk result (λ line. line ≡ locks_line word.now) }
    ensures early { OnErr result (keeps_text (locks_line word.now) ≡ true) }
{
    if let Some(list) = arguments_in(b"RLOCK(", word) {
        return lock_listed(alloc, list);
    }
    match arguments_in(b"LOCK(", word) {
        Some(list) => lock_listed(alloc, list),
        None => Ok(Line::Run(Command::Bad)),
    }
}

// The line of a call. An error where memory for a list of records is refused.
fn call(alloc: Global, word: &[u8]) -> Result<Line, AllocError>
    ensures value { IfOk result (λ line. line ≡ call_line (call_of_word word.now) word.now) }
    ensures early { OnErr result (keeps_text (call_line (call_of_word word.now) word.now) ≡ true) }
{
    match call_in(word) {
        Some(CallName::Rlock | CallName::Lock) => Ok(Line::Run(Command::RecordLock)),
        Some(CallName::Flock) => Ok(Line::Run(Command::FileLock)),
        Some(CallName::Ask(question)) => Ok(Line::Run(Command::Ask(question))),
        None => lock_records(alloc, word),
    }
}

// The line of `?` and a word.
fn ask(alloc: Global, word: &[u8]) -> Result<Line, AllocError>
    ensures value { IfOk result (λ line. line ≡ ask_line word.now) }
    ensures early { OnErr result (keeps_text (ask_line word.now) ≡ true) }
{
    match name_in(alloc, word)? {
        Some(name) => Ok(Line::Run(Command::Show(name))),
        None => call(alloc, word),
    }
}

/// The line of a verb and a word. An error where memory for its name or text is refused.
pub(crate) fn two_words(alloc: Global, verb: Verb, word: &[u8]) -> Result<Line, AllocError>
    ensures value { IfOk result (λ line. line ≡ two verb word.now) }
    ensures early { OnErr result (keeps_text (two verb word.now) ≡ true) }
{
    match verb {
        Verb::Select => Ok(select(word)),
        Verb::Use => use_table(alloc, word, false),
        Verb::Go => Ok(go_to(word)),
        Verb::Skip => Ok(skip(word)),
        Verb::Seek => seek(alloc, word),
        Verb::Append if is_keyword(word, b"BLANK") => Ok(Line::Run(Command::AppendBlank)),
        Verb::Unlock if is_keyword(word, b"ALL") => Ok(Line::Run(Command::UnlockAll)),
        Verb::Ask => ask(alloc, word),
        Verb::Display if is_keyword(word, b"STATUS") => Ok(Line::Status),
        _ => Ok(Line::Run(Command::Bad)),
    }
}

/// The line of a verb and two words. An error where memory for its name is refused.
pub(crate) fn three_words(
    alloc: Global,
    verb: Verb,
    second: &[u8],
    third: &[u8],
) -> Result<Line, AllocError>
    ensures value { IfOk result (λ line. line ≡ three verb second.now third.now) }
    ensures early { OnErr result (keeps_text (three verb second.now third.now) ≡ true) }
{
    match verb {
        Verb::Use if is_keyword(third, b"EXCLUSIVE") => use_table(alloc, second, true),
        _ => Ok(Line::Run(Command::Bad)),
    }
}

// The line of SET and three words.
fn set_order(second: &[u8], third: &[u8], fourth: &[u8]) -> Line
    ensures value { result ≡ set_order_line second.now third.now fourth.now }
{
    if !is_keyword(second, b"ORDER") || !is_keyword(third, b"TO") {
        return Line::Run(Command::Bad);
    }
    match count_in(fourth) {
        Some(number) => Line::Run(Command::Order(number)),
        None => Line::Run(Command::Bad),
    }
}

// The line of REPLACE, a field, WITH and a value.
#[tactic(auto, using(crate::proofs::ScriptLaws::KeepingLaws::replace_keeps))]
fn replace(alloc: Global, field: &[u8], value: &[u8]) -> Result<Line, AllocError>
    ensures value { IfOk result (λ line. line ≡ replace_line field.now value.now) }
    ensures early { OnErr result (keeps_text (replace_line field.now value.now) ≡ true) }
{
    // The field is judged before the value is kept, and kept where there is a value: a line that can't be read
    // takes no memory.
    if !is_name(field) {
        return Ok(Line::Run(Command::Bad));
    }
    match literal_in(alloc, value)? {
        Some(value) => {
            let field = in_capitals(alloc, field)?;
            Ok(Line::Run(Command::Replace { field, value }))
        }
        None => Ok(Line::Run(Command::Bad)),
    }
}

// The line of MEMO, a field, WITH and a text.
fn memo(alloc: Global, field: &[u8], text: &[u8]) -> Result<Line, AllocError>
    ensures value { IfOk result (λ line. line ≡ memo_line field.now text.now) }
    ensures early { OnErr result (keeps_text (memo_line field.now text.now) ≡ true) }
{
    if !is_name(field) {
        return Ok(Line::Run(Command::Bad));
    }
    let Some(text) = text_in(text) else {
        return Ok(Line::Run(Command::Bad));
    };
    let field = in_capitals(alloc, field)?;
    let text = Bytes::from_slice(alloc, text)?;
    Ok(Line::Run(Command::Memo { field, text }))
}

/// The line of a verb and three words. An error where memory for its name or text is refused.
pub(crate) fn four_words(
    alloc: Global,
    verb: Verb,
    second: &[u8],
    third: &[u8],
    fourth: &[u8],
) -> Result<Line, AllocError>
    ensures value { IfOk result (λ line. line ≡ four verb second.now third.now fourth.now) }
    ensures early { OnErr result (keeps_text (four verb second.now third.now fourth.now) ≡ true) }
{
    match verb {
        Verb::Set => Ok(set_order(second, third, fourth)),
        Verb::Replace if is_keyword(third, b"WITH") => replace(alloc, second, fourth),
        Verb::Memo if is_keyword(third, b"WITH") => memo(alloc, second, fourth),
        _ => Ok(Line::Run(Command::Bad)),
    }
}
