//! A journal's whole text, cut back into its parts.

ghost use Rattle.std.specs.Prelude.{◌≡◌, ◌≢◌, ◌++◌, true, false, ℕ, List, Ok, Err, IfOk, IfErr, IfSome, IfNone, IsTrue, ◌↔◌, ◌==◌, position};
ghost use Rattle.station_lines.specs.declared.script.format.TheConstants.{LF as LINE_END};
ghost use Rattle.journal_file.specs.WholeText.{sum_as, read_word, wrote_word, reindex_and, end_line, whole_text, begins_as_journal, WholeJournal, CanBeTold, IsCutInto, IsNotWhole, BeginsWithSum, BeginsWithNoSum, BeginsWithSums, BeginsWithNoReindex, BeginsWithReads, BeginsWithNoReads, BeginsWithCount, BeginsWithNoCount, BeginsWithHead, BeginsWithNoHead, BeginsWithEntries, BeginsWithFewer, IsTail, IsNoTail};

use crate::sum::DIGEST_LEN;
use dbf_fields::BLANK;
use station_lines::{LF, cut_entry, cut_number, cut_part, plain_number};
use thiserror::Error;

/// The parts of a journal's whole text.
#[derive(Clone, Copy, Debug)]
pub struct JournalParts<'a> {
    /// The lines of the files that the run read.
    pub read: &'a [u8],
    /// Whether the run made the indexes anew.
    pub reindex: bool,
    /// How many entries there are.
    pub count: u64,
    /// The lines of the entries.
    pub entries: &'a [u8],
    /// The lines of the files that the run wrote.
    pub wrote: &'a [u8],
}

/// Why a text is not a journal's whole text.
#[derive(Clone, Copy, Debug, PartialEq, Eq, Error)]
pub enum JournalFault {
    /// It begins as a journal's text does, as far as it goes, and is not a whole one.
    #[error("the journal is cut")]
    Cut,
    /// It does not begin as a journal's text.
    #[error("no journal")]
    NoJournal,
}

/// What the line of a file tells, cut off a text, and what stands after it.
#[derive(Clone, Copy, Debug)]
pub struct CutSum<'a> {
    /// The path, or the name.
    pub path: &'a [u8],
    /// How many bytes the file has.
    pub length: u64,
    /// Their SHA-256 in hex.
    pub digest: &'a [u8],
    /// What stands after the line.
    pub rest: &'a [u8],
}

/// What stands after this word, where it is first in a text. `None` where it is not. Takes no memory.
pub fn after_word<'a>(text: &'a [u8], word: &[u8]) -> Option<&'a [u8]>
    ensures found { IfSome result (λ rest. text.now ≡ word.now ++ rest.now) }
    ensures none { IfNone result ((rest : List ℕ) → text.now ≢ word.now ++ rest) }
{
    text.strip_prefix(word)
}

// The file whose line is first, behind a word, and what stands after it.
fn cut_sum<'a>(text: &'a [u8], word: &[u8]) -> Option<CutSum<'a>>
    ensures found { IfSome result (λ cut. BeginsWithSum word.now text.now (sum_as cut.path.now cut.length cut.digest.now) cut.rest.now) }
    ensures none { IfNone result (BeginsWithNoSum word.now text.now) }
{
    let Some(counts) = after_word(text, word) else {
        return None;
    };
    let Some((path_len, after_path_len)) = cut_number(counts) else {
        return None;
    };
    let Some((length, texts)) = cut_number(after_path_len) else {
        return None;
    };
    let Some((digest, after_digest)) = cut_part(texts, DIGEST_LEN as u64, BLANK) else {
        return None;
    };
    let Some((path, rest)) = cut_part(after_digest, path_len, LF) else {
        return None;
    };
    Some(CutSum {
        path,
        length,
        digest,
        rest,
    })
}

/// The file whose line as one that was read is first in a text, and what stands after it. `None` where no such line is first.
/// Takes no memory.
pub fn cut_read_sum(text: &[u8]) -> Option<CutSum<'_>>
    ensures found { IfSome result (λ cut. BeginsWithSum read_word text.now (sum_as cut.path.now cut.length cut.digest.now) cut.rest.now) }
    ensures none { IfNone result (BeginsWithNoSum read_word text.now) }
{
    cut_sum(text, b"read ")
}

/// The file whose line as one that was written is first in a text, and what stands after it. `None` where no such line is
/// first. Takes no memory.
pub fn cut_wrote_sum(text: &[u8]) -> Option<CutSum<'_>>
    ensures found { IfSome result (λ cut. BeginsWithSum wrote_word text.now (sum_as cut.path.now cut.length cut.digest.now) cut.rest.now) }
    ensures none { IfNone result (BeginsWithNoSum wrote_word text.now) }
{
    cut_sum(text, b"wrote ")
}

// The lines of files that are first, each behind the same word, and what stands after them.
fn cut_sums<'a>(text: &'a [u8], word: &[u8]) -> (&'a [u8], &'a [u8])
    ensures found { BeginsWithSums word.now text.now result.0.now result.1.now }
{
    let mut rest = text;
    while let Some(cut) = cut_sum(rest, word) {
        rest = cut.rest;
    }
    let (lines, _) = text.split_at(text.len() - rest.len());
    (lines, rest)
}

// Whether the indexes were made anew, where the line of it is first, and what stands after it.
fn cut_reindex(text: &[u8]) -> Option<(bool, &[u8])>
    ensures found { IfSome result (λ cut. text.now ≡ reindex_and cut.0 cut.1.now) }
    ensures none { IfNone result (BeginsWithNoReindex text.now) }
{
    if let Some(rest) = after_word(text, b"reindex yes\n") {
        return Some((true, rest));
    }
    match after_word(text, b"reindex no\n") {
        Some(rest) => Some((false, rest)),
        None => None,
    }
}

/// What stands after the lines of files that were read, and after the one that says whether the indexes were made anew. `None` where such
/// lines are not first. Takes no memory.
#[tactic(auto, using(crate::proofs::ReadLaws::any_reads, crate::proofs::ReadLaws::no_reads))]
pub fn after_any_reads(text: &[u8]) -> Option<&[u8]>
    ensures found { IfSome result (λ rest. BeginsWithReads text.now rest.now) }
    ensures none { IfNone result (BeginsWithNoReads text.now) }
{
    let (_, rest) = cut_sums(text, b"read ");
    match cut_reindex(rest) {
        Some((_, rest)) => Some(rest),
        None => None,
    }
}

// Where the first LF stands.
fn line_end(text: &[u8]) -> Option<usize>
    ensures value { result ≡ position (λ b. b == LINE_END) text.now }
{
    text.iter().position(|byte| *byte == LF)
}

// The number of entries, where the line of it is first, and what stands after it.
fn cut_count(text: &[u8]) -> Option<(u64, &[u8])>
    ensures found { IfSome result (λ cut. BeginsWithCount text.now cut.0 cut.1.now) }
    ensures none { IfNone result (BeginsWithNoCount text.now) }
{
    let Some(line) = after_word(text, b"entries ") else {
        return None;
    };
    let Some(end) = line_end(line) else {
        return None;
    };
    let (digits, _) = line.split_at(end);
    let (_, rest) = line.split_at(end + 1);
    match plain_number(digits) {
        Some(count) => Some((count, rest)),
        None => None,
    }
}

// What the lines before a journal's entries tell, and what stands after them.
#[derive(Clone, Copy)]
struct Head<'a> {
    read: &'a [u8],
    reindex: bool,
    count: u64,
    rest: &'a [u8],
}

// The lines before the entries, where they are first.
fn cut_head(text: &[u8]) -> Option<Head<'_>>
    ensures found { IfSome result (λ head. BeginsWithHead text.now head.read.now head.reindex head.count head.rest.now) }
    ensures none { IfNone result (BeginsWithNoHead text.now) }
{
    let (read, after_sums) = cut_sums(text, b"read ");
    let Some((reindex, after_reindex)) = cut_reindex(after_sums) else {
        return None;
    };
    let Some((count, rest)) = cut_count(after_reindex) else {
        return None;
    };
    Some(Head {
        read,
        reindex,
        count,
        rest,
    })
}

// The lines of so many entries, where they are first, and what stands after them.
fn cut_entries(text: &[u8], count: u64) -> Option<(&[u8], &[u8])>
    ensures found { IfSome result (λ cut. BeginsWithEntries text.now count cut.0.now cut.1.now) }
    ensures none { IfNone result (BeginsWithFewer text.now count) }
{
    let mut rest = text;
    for _ in 0..count {
        let Some(cut) = cut_entry(rest) else {
            return None;
        };
        rest = cut.rest;
    }
    let (lines, _) = text.split_at(text.len() - rest.len());
    Some((lines, rest))
}

// Whether this is the last line.
#[tactic(auto, using(dbf_fields::proofs::SameLaws::same_bytes))]
fn is_end(text: &[u8]) -> bool
    ensures value { IsTrue result ↔ (text.now ≡ end_line) }
{
    text == b"end\n".as_slice()
}

// The lines of the files that were written, where the text is that of the lines after the entries.
fn cut_tail(text: &[u8]) -> Option<&[u8]>
    ensures found { IfSome result (λ wrote. IsTail text.now wrote.now) }
    ensures none { IfNone result (IsNoTail text.now) }
{
    let (wrote, rest) = cut_sums(text, b"wrote ");
    if !is_end(rest) {
        return None;
    }
    Some(wrote)
}

// The parts of a journal's whole text.
fn cut_whole(text: &[u8]) -> Option<JournalParts<'_>>
    ensures found { IfSome result (IsCutInto text.now) }
    ensures none { IfNone result (IsNotWhole text.now) }
{
    let Some(head) = cut_head(text) else {
        return None;
    };
    let Some((entries, tail)) = cut_entries(head.rest, head.count) else {
        return None;
    };
    let Some(wrote) = cut_tail(tail) else {
        return None;
    };
    Some(JournalParts {
        read: head.read,
        reindex: head.reindex,
        count: head.count,
        entries,
        wrote,
    })
}

// Whether it begins as a journal's text does, as far as it goes.
#[tactic(auto, using(dbf_fields::proofs::SameLaws::same_bytes))]
fn is_begun(text: &[u8]) -> bool
    ensures value { result ≡ begins_as_journal text.now }
{
    text.starts_with(b"read ") || b"read ".as_slice().starts_with(text)
}

/// The parts of a journal's whole text. Takes no memory.
///
/// `NoJournal` says that the text does not even begin with `read `, as far as it goes, and `Cut` that it does but is not whole:
/// the end of the file is missing, or something between.
pub fn cut_journal(text: &[u8]) -> Result<JournalParts<'_>, JournalFault>
    ensures found { IfOk result (IsCutInto text.now) }
    ensures not_whole { IfErr result (λ fault. IsNotWhole text.now) }
    ensures cut { result ≡ Err JournalFault.Cut → begins_as_journal text.now ≡ true }
    ensures no_journal { result ≡ Err JournalFault.NoJournal → begins_as_journal text.now ≡ false }
{
    match cut_whole(text) {
        Some(parts) => Ok(parts),
        None if is_begun(text) => Err(JournalFault::Cut),
        None => Err(JournalFault::NoJournal),
    }
}

/// A whole text tells one journal: no text is that of this journal and of another.
#[tactic(auto, using(crate::proofs::TextLaws::whole_one))]
pub fn one_whole_text()
    ensures one { (a b : WholeJournal) → CanBeTold a → CanBeTold b → whole_text a ≡ whole_text b → a ≡ b }
{}
