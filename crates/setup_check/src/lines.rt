//! What is found, in words.

ghost use Rattle.std.specs.Prelude.{◌≡◌, ◌++◌, length, IfOk, OnOk};
ghost use Rattle.setup_check.specs.Lines.{counts_words, finding_words, length_words};
ghost use Rattle.setup_check.specs.Lines.{first_words, record_key_words, stale_words, wrong_words};
ghost use Rattle.setup_check.specs.Lines.{state_begin as begin_of_state, state_rest, state_words};
ghost use Rattle.setup_check.specs.Lines.{entry_lines, entry_name as name_in, entry_path as path_in, setup_lines, memos_line, words_line};

mod named;
pub(crate) mod numbers;
mod refusal;

use crate::finding::{Finding, TableCounts};
use crate::freshness::IndexState;
use crate::lines::named::append_expression_fault;
use crate::lines::numbers::append_number;
use crate::lines::refusal::append_refusal;
use crate::wrong_pair::WrongPair;
use key_expr::Key;
use setup_files::refused_path;
use station_lines::{LF, SetupEntry};
use std::alloc::{AllocError, Global};
use table_text::append_between_quotes;

fn append_counts(alloc: Global, text: &mut Vec<u8>, counts: TableCounts) -> Result<(), AllocError>
    ensures ok { OnOk result (text.new.items ≡ text.old.items ++ counts_words counts) }
{
    append_number(alloc, text, counts.records as usize)?;
    text.extend_from_slice(b" records, ")?;
    append_number(alloc, text, counts.marked as usize)?;
    text.extend_from_slice(b" marked: good")
}

fn append_lengths(
    alloc: Global,
    text: &mut Vec<u8>,
    own: usize,
    wanted: usize,
) -> Result<(), AllocError>
    ensures ok { OnOk result (text.new.items ≡ text.old.items ++ length_words own wanted) }
{
    append_number(alloc, text, own)?;
    text.extend_from_slice(b", not ")?;
    append_number(alloc, text, wanted)
}

fn state_begin(state: &IndexState) -> &'static [u8]
    ensures value { result.now ≡ begin_of_state state.now }
{
    match state {
        IndexState::Fresh => b"good",
        IndexState::NoTable => b"its table is refused",
        IndexState::NoExpression(_) => b"no key expression for its table: ",
        IndexState::OtherLength(_, _) => {
            b"stale: the length of its keys is not its expression's; --reindex makes it anew: "
        }
        IndexState::Stale(Some(_)) => b"stale: the first wrong is ",
        IndexState::Stale(None) => {
            b"stale: each pair is its record's, but a record has none, or more than one"
        }
    }
}

// The key of the record of a wrong pair's number.
fn append_record_key(text: &mut Vec<u8>, key: &Option<Key>) -> Result<(), AllocError>
    ensures ok { OnOk result (text.new.items ≡ text.old.items ++ record_key_words key.now) }
{
    match key {
        Some(key) => {
            text.extend_from_slice(b", not ")?;
            append_between_quotes(text, key.as_bytes())
        }
        None => text.extend_from_slice(b", and there is no such record"),
    }
}

fn append_wrong(alloc: Global, text: &mut Vec<u8>, pair: &WrongPair) -> Result<(), AllocError>
    ensures ok { OnOk result (text.new.items ≡ text.old.items ++ wrong_words pair.now) }
{
    text.extend_from_slice(b"pair ")?;
    append_number(alloc, text, pair.pair_number)?;
    text.extend_from_slice(b", record ")?;
    append_number(alloc, text, pair.record_number as usize)?;
    text.extend_from_slice(b", key ")?;
    append_between_quotes(text, pair.key.as_bytes())?;
    append_record_key(text, &pair.record_key)
}

// The first wrong pair of a stale index, where there is one.
fn append_first(
    alloc: Global,
    text: &mut Vec<u8>,
    first: &Option<WrongPair>,
) -> Result<(), AllocError>
    ensures ok { OnOk result (text.new.items ≡ text.old.items ++ first_words first.now) }
{
    match first {
        Some(pair) => append_wrong(alloc, text, pair),
        None => Ok(()),
    }
}

// The same, and what to do.
fn append_stale(
    alloc: Global,
    text: &mut Vec<u8>,
    first: &Option<WrongPair>,
) -> Result<(), AllocError>
    ensures ok { OnOk result (text.new.items ≡ text.old.items ++ stale_words first.now) }
{
    append_first(alloc, text, first)?;
    text.extend_from_slice(b"; --reindex makes it anew")?;
    Ok(())
}

fn append_state_rest(
    alloc: Global,
    text: &mut Vec<u8>,
    state: &IndexState,
) -> Result<(), AllocError>
    ensures ok { OnOk result (text.new.items ≡ text.old.items ++ state_rest state.now) }
{
    match state {
        IndexState::NoExpression(why) => append_expression_fault(alloc, text, *why),
        IndexState::OtherLength(own, wanted) => append_lengths(alloc, text, *own, *wanted),
        IndexState::Stale(first) => append_stale(alloc, text, first),
        _ => Ok(()),
    }
}

// What an index is beside its table.
fn append_state(alloc: Global, text: &mut Vec<u8>, state: &IndexState) -> Result<(), AllocError>
    ensures ok { OnOk result (text.new.items ≡ text.old.items ++ state_words state.now) }
{
    text.extend_from_slice(state_begin(state))?;
    append_state_rest(alloc, text, state)
}

// What was found at an entry of which this path is told.
fn append_finding(
    alloc: Global,
    text: &mut Vec<u8>,
    path: &[u8],
    finding: &Finding,
) -> Result<(), AllocError>
    ensures ok { OnOk result (text.new.items ≡ text.old.items ++ finding_words path.now finding.now) }
{
    match finding {
        Finding::Table(counts) => append_counts(alloc, text, *counts),
        Finding::Index(index) => {
            append_number(alloc, text, index.keys)?;
            text.extend_from_slice(b" keys: ")?;
            append_state(alloc, text, &index.state)
        }
        Finding::Script => text.extend_from_slice(b"good"),
        Finding::Refused(fault) => append_refusal(alloc, text, path, *fault),
    }
}

fn entry_name(entry: &SetupEntry) -> &[u8]
    ensures value { result.now ≡ name_in entry.now }
{
    match entry {
        SetupEntry::Table { name, .. } => name.as_slice(),
        SetupEntry::Index { name, .. } => name.as_slice(),
        SetupEntry::Station { .. } => b"STATION",
    }
}

// The path of an entry that is told.
fn entry_path<'a>(entry: &'a SetupEntry, finding: &Finding) -> &'a [u8]
    ensures value { result.now ≡ path_in entry.now finding.now }
{
    if let Finding::Refused(fault) = finding {
        return refused_path(entry, *fault).as_slice();
    }
    match entry {
        SetupEntry::Table { dbf, .. } => dbf.as_slice(),
        SetupEntry::Index { ndx, .. } => ndx.as_slice(),
        SetupEntry::Station { script } => script.as_slice(),
    }
}

// A line of a name, a path and words.
fn append_line(text: &mut Vec<u8>, name: &[u8], path: &[u8], words: &[u8]) -> Result<(), AllocError>
    ensures ok { OnOk result (text.new.items ≡ text.old.items ++ words_line name.now path.now words.now) }
{
    text.extend_from_slice(name)?;
    text.extend_from_slice(b"  ")?;
    text.extend_from_slice(path)?;
    text.extend_from_slice(b"  ")?;
    text.extend_from_slice(words)?;
    text.push(LF)?;
    Ok(())
}

// The line of the memos of a table that is good.
fn append_memo_line(
    text: &mut Vec<u8>,
    entry: &SetupEntry,
    finding: &Finding,
) -> Result<(), AllocError>
    ensures ok { OnOk result (text.new.items ≡ text.old.items ++ memos_line entry.now finding.now) }
{
    match (entry, finding) {
        (
            SetupEntry::Table {
                name,
                dbt: Some(dbt),
                ..
            },
            Finding::Table(_),
        ) => append_line(text, name.as_slice(), dbt.as_slice(), b"good"),
        _ => Ok(()),
    }
}

fn append_entry(
    alloc: Global,
    text: &mut Vec<u8>,
    entry: &SetupEntry,
    finding: &Finding,
) -> Result<(), AllocError>
    ensures ok { OnOk result (text.new.items ≡ text.old.items ++ entry_lines entry.now finding.now) }
{
    let path = entry_path(entry, finding);
    let mut words = Vec::new(alloc);
    append_finding(alloc, &mut words, path, finding)?;
    append_line(text, entry_name(entry), path, words.as_slice())?;
    append_memo_line(text, entry, finding)
}

/// What was found at the entries, in words: a line for each, and one more for the memos of a table that is good. There is a
/// finding for each entry.
///
/// An `Err` says that there was no memory.
pub fn findings_text(
    alloc: Global,
    entries: &[SetupEntry],
    findings: &[Finding],
) -> Result<Vec<u8>, AllocError>
    requires one_each { length findings.now ≡ length entries.now }
    ensures value { IfOk result (λ text. text.items ≡ setup_lines entries.now findings.now) }
{
    let mut text = Vec::new(alloc);
    for (index, entry) in entries.iter().enumerate() {
        append_entry(alloc, &mut text, entry, &findings[index])?;
    }
    Ok(text)
}
