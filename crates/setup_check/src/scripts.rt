//! What the lines of a setup's scripts are, in words.

ghost use Rattle.std.specs.Prelude.{◌≡◌, ◌+◌, ◌^◌, ◌<◌, ◌++◌, ℕ, List, [], length, Option, option_map, IfOk, OnOk, if◌then◌else◌};
ghost use Rattle.folders.specs.declared.named.NamedFile.{NamedFile};
ghost use Rattle.setup_files.specs.EntryFiles.{AreEntriesRead, IsEntryRead};
ghost use Rattle.station_lines.specs.Script.Lines.{AreLines};
ghost use Rattle.setup_check.specs.ScriptLines.{is_bad_line as bad_line_is, line_of_number, AreCounts, pair_of, first_bad as first_bad_of, numbered_line, verdict_words, counted_line};
ghost use Rattle.setup_check.specs.ScriptLines.{bad_line_text, bad_lines_text, script_text, IsScriptText, IsEntryText, AreScriptTexts, IsBadSetupText};

use crate::lines::numbers::append_words;
use crate::reasons::{append_reason, append_setup_reason};
use crate::shown_line::append_shown;
use setup_files::{EntryContent, EntryFault};
use station_lines::{LF, SetupEntry, lines, setup_line_reason, why_bad};
use std::alloc::{AllocError, Global};

/// Which bad lines of scripts are told.
#[derive(Clone, Copy, Debug, PartialEq, Eq)]
pub enum BadLinesTold {
    /// The first of each script.
    First,
    /// Each of them too, and why it is bad.
    Each,
}

/// How many lines a script has.
#[derive(Clone, Copy)]
pub(crate) struct ScriptCounts {
    /// All of them, blank ones and remarks too.
    pub(crate) lines: usize,
    /// Those that are bad.
    pub(crate) bad: usize,
}

/// A line of a script and its number, from 1.
#[derive(Clone, Copy)]
pub(crate) struct NumberedLine<'a> {
    pub(crate) number: usize,
    pub(crate) line: &'a [u8],
}

// Whether a line is none of a script. The reader takes memory for a line that is good.
fn is_bad_line(alloc: Global, line: &[u8]) -> bool
    ensures value { result ≡ bad_line_is line.now }
{
    why_bad(alloc, line).is_some()
}

// A count, and one more where this is to be counted.
fn counted(count: usize, is_one: bool) -> usize
    requires room { count < 2 ^ 63 }
    ensures value { result ≡ (if is_one then count + 1 else count) }
{
    if is_one { count + 1 } else { count }
}

// How many lines a script has, and how many of them are bad.
fn counts_of(alloc: Global, script: &[u8]) -> ScriptCounts
    ensures counts { (all : List (List ℕ)) → AreLines all script.now → AreCounts all result }
{
    let mut number = 0;
    let mut bad = 0;
    let mut cursor = lines(script);
    while let Some(line) = cursor.next_line() {
        number += 1;
        bad = counted(bad, is_bad_line(alloc, line));
    }
    ScriptCounts { lines: number, bad }
}

// The first bad line of a script.
fn first_bad(alloc: Global, script: &[u8]) -> Option<NumberedLine<'_>>
    ensures value { (all : List (List ℕ)) → AreLines all script.now → option_map pair_of result ≡ first_bad_of 1 all }
{
    let mut number = 0;
    let mut cursor = lines(script);
    while let Some(line) = cursor.next_line() {
        number += 1;
        if is_bad_line(alloc, line) {
            return Some(NumberedLine { number, line });
        }
    }
    None
}

// The line of a number, from 1, and nothing where there is none.
fn line_at(script: &[u8], number: usize) -> &[u8]
    ensures value { (all : List (List ℕ)) → AreLines all script.now → result.now ≡ line_of_number number all }
{
    let mut left = number;
    let mut cursor = lines(script);
    while let Some(line) = cursor.next_line() {
        if left == 1 {
            return line;
        }
        left = left.saturating_sub(1);
    }
    b""
}

// Appends a line with its number.
fn append_numbered(
    alloc: Global,
    text: &mut Vec<u8>,
    number: usize,
    line: &[u8],
) -> Result<(), AllocError>
    ensures ok { OnOk result (text.new.items ≡ text.old.items ++ numbered_line number line.now) }
{
    append_words(alloc, text, b"line ", number)?;
    text.extend_from_slice(b": ")?;
    append_shown(text, line)
}

// Appends whether lines are bad, and the first of them.
fn append_verdict(
    alloc: Global,
    text: &mut Vec<u8>,
    bad: usize,
    first: Option<NumberedLine<'_>>,
) -> Result<(), AllocError>
    ensures ok { OnOk result (text.new.items ≡ text.old.items ++ verdict_words bad (option_map pair_of first.entry)) }
{
    match first {
        None => text.extend_from_slice(b": good"),
        Some(first) => {
            append_words(alloc, text, b", ", bad)?;
            text.extend_from_slice(b" are no command: the first is ")?;
            append_numbered(alloc, text, first.number, first.line)?;
            Ok(())
        }
    }
}

// Appends the line of a script.
fn append_counted_line(
    alloc: Global,
    text: &mut Vec<u8>,
    path: &[u8],
    counts: ScriptCounts,
    first: Option<NumberedLine<'_>>,
) -> Result<(), AllocError>
    ensures ok { OnOk result (text.new.items ≡ text.old.items ++ counted_line path.now counts.lines counts.bad (option_map pair_of first.entry)) }
{
    text.extend_from_slice(path)?;
    append_words(alloc, text, b": ", counts.lines)?;
    text.extend_from_slice(b" lines")?;
    append_verdict(alloc, text, counts.bad, first)?;
    text.push(LF)?;
    Ok(())
}

// Appends a line of its own for a line of a script that is bad, and nothing for another.
fn append_bad_line(
    alloc: Global,
    text: &mut Vec<u8>,
    path: &[u8],
    number: usize,
    line: &[u8],
) -> Result<(), AllocError>
    ensures ok { OnOk result (text.new.items ≡ text.old.items ++ (if bad_line_is line.now then bad_line_text path.now number line.now else [])) }
{
    let Some(why) = why_bad(alloc, line) else {
        return Ok(());
    };
    text.extend_from_slice(path)?;
    text.extend_from_slice(b": ")?;
    append_numbered(alloc, text, number, line)?;
    text.extend_from_slice(b": ")?;
    append_reason(text, why)?;
    text.push(LF)?;
    Ok(())
}

// Appends a line for each bad line of a script.
fn append_bad_lines(
    alloc: Global,
    text: &mut Vec<u8>,
    path: &[u8],
    script: &[u8],
) -> Result<(), AllocError>
    ensures ok { (all : List (List ℕ)) → AreLines all script.now → OnOk result (text.new.items ≡ text.old.items ++ bad_lines_text path.now 1 all) }
{
    let mut number = 0;
    let mut cursor = lines(script);
    while let Some(line) = cursor.next_line() {
        number += 1;
        append_bad_line(alloc, text, path, number, line)?;
    }
    Ok(())
}

// Appends what is told of a script.
fn append_script(
    alloc: Global,
    text: &mut Vec<u8>,
    told: BadLinesTold,
    path: &[u8],
    script: &[u8],
) -> Result<(), AllocError>
    ensures ok { (all : List (List ℕ)) → AreLines all script.now → OnOk result (text.new.items ≡ text.old.items ++ script_text told path.now all) }
{
    let counts = counts_of(alloc, script);
    append_counted_line(alloc, text, path, counts, first_bad(alloc, script))?;
    match told {
        BadLinesTold::First => Ok(()),
        BadLinesTold::Each => append_bad_lines(alloc, text, path, script),
    }
}

// What is told of the bytes of a script.
fn text_of(
    alloc: Global,
    told: BadLinesTold,
    path: &[u8],
    script: &[u8],
) -> Result<Vec<u8>, AllocError>
    ensures value { IfOk result (λ text. IsScriptText told path.now script.now text.items) }
{
    let mut text = Vec::new(alloc);
    append_script(alloc, &mut text, told, path, script)?;
    Ok(text)
}

// What is told of the script of an entry of which this was read.
fn text_of_entry(
    alloc: Global,
    told: BadLinesTold,
    entry: &SetupEntry,
    read: &Result<EntryContent, EntryFault>,
) -> Result<Vec<u8>, AllocError>
    ensures value { (files : Option (List NamedFile)) → IsEntryRead files entry.now read.now
        → IfOk result (λ text. IsEntryText files told entry.now text.items) }
{
    match (entry, read) {
        (SetupEntry::Station { script }, Ok(EntryContent::Script(bytes))) => {
            text_of(alloc, told, script.as_slice(), bytes.as_slice())
        }
        _ => Ok(Vec::new(alloc)),
    }
}

/// What the lines of the scripts of a setup are, in words: of each that was read a line, with how many lines it has and
/// how many of them are no command, and where it is asked for a line for each of these, with why it is bad. Lines are
/// counted as they stand in the file, blank ones and remarks too. Of a script that is refused nothing is told here. What was read of
/// the entries is told, for each of them.
///
/// An `Err` says that there was no memory.
pub fn scripts_text(
    alloc: Global,
    entries: &[SetupEntry],
    reads: &[Result<EntryContent, EntryFault>],
    told: BadLinesTold,
) -> Result<Vec<u8>, AllocError>
    requires one_each { length reads.now ≡ length entries.now }
    ensures value { (files : Option (List NamedFile)) → AreEntriesRead files entries.now reads.now
        → IfOk result (λ text. AreScriptTexts files told entries.now text.items) }
{
    let mut text = Vec::new(alloc);
    for (index, entry) in entries.iter().enumerate() {
        let own = text_of_entry(alloc, told, entry, &reads[index])?;
        text.extend_from_slice(&own)?;
    }
    Ok(text)
}

/// What is told of a setup whose line of this number, from 1, is bad: `setup line 1 is bad: TABEL is none of TABLE, INDEX,
/// STATION`, without an LF.
///
/// An `Err` says that there was no memory.
pub fn bad_setup_text(alloc: Global, setup: &[u8], number: usize) -> Result<Vec<u8>, AllocError>
    ensures value { IfOk result (λ text. IsBadSetupText setup.now number text.items) }
{
    let mut text = Vec::new(alloc);
    append_words(alloc, &mut text, b"setup line ", number)?;
    text.extend_from_slice(b" is bad: ")?;
    append_setup_reason(&mut text, setup_line_reason(line_at(setup, number)))?;
    Ok(text)
}
