//! The entries of a journal, one after another.

ghost use Rattle.std.specs.Prelude.{◌≡◌, ◌++◌, ◌∷◌, [], ℕ, List, IfOk, OnOk};
ghost use Rattle.std.specs.List.{flat_map};
ghost use Rattle.entry_text.specs.Layout.{counts_of, entries_text, is_of, shown_text, AreLinesOf};
ghost use Rattle.entry_text.specs.Refusals.{refusal_lines as all_refusals};

use crate::counts::{EntryCounts, both};
use crate::refusal_line::{is_refusal_line, refusal_lines};
use crate::text::{append_entry, append_refused_count};
use byte_io::Bytes;
use station_lines::{CutEntry, cut_entry};
use std::alloc::{AllocError, Global};

/// Which entries of a journal are shown.
#[derive(Clone, Copy, Debug, PartialEq, Eq)]
pub struct EntriesAsked {
    /// The station whose entries are asked for; those of all stations, where none is given.
    pub station: Option<u32>,
    /// Whether of these the refused ones alone are shown, and how many they are.
    pub refused_only: bool,
}

// Whether the entries of a station are asked for.
fn is_asked(station: Option<u32>, of: u64) -> bool
    ensures value { result ≡ is_of station of }
{
    match station {
        Some(number) => of == u64::from(number),
        None => true,
    }
}

// Appends what is shown of an entry, and says how it counts.
#[tactic(auto, using(crate::proofs::EntryLaws::one_count))]
fn append_asked(
    alloc: Global,
    text: &mut Vec<u8>,
    refusals: &[Bytes],
    asked: EntriesAsked,
    entry: &CutEntry<'_>,
) -> Result<EntryCounts, AllocError>
    requires all { refusals.now ≡ all_refusals }
    ensures ok { OnOk result (text.new.items ≡ text.old.items ++ shown_text asked (entry.now.station, entry.now.command.now, entry.now.answer.now)) }
    ensures counts { IfOk result (λ counts. counts ≡ counts_of asked ((entry.now.station, entry.now.command.now, entry.now.answer.now) ∷ [])) }
{
    if !is_asked(asked.station, entry.station) {
        return Ok(EntryCounts { all: 0, refused: 0 });
    }
    if is_refusal_line(refusals, entry.answer) {
        append_entry(alloc, text, entry)?;
        return Ok(EntryCounts { all: 1, refused: 1 });
    }
    if asked.refused_only {
        return Ok(EntryCounts { all: 1, refused: 0 });
    }
    append_entry(alloc, text, entry)?;
    Ok(EntryCounts { all: 1, refused: 0 })
}

// Appends what is shown of so many entries, whose lines these are, and says how many are asked for.
fn append_all(
    alloc: Global,
    text: &mut Vec<u8>,
    lines: &[u8],
    count: u64,
    asked: EntriesAsked,
) -> Result<EntryCounts, AllocError>
    ensures ok { (entries : List (ℕ × List ℕ × List ℕ)) → AreLinesOf entries count lines.now
        → OnOk result (text.new.items ≡ text.old.items ++ flat_map (shown_text asked) entries) }
    ensures counts { (entries : List (ℕ × List ℕ × List ℕ)) → AreLinesOf entries count lines.now → IfOk result (λ counts. counts ≡ counts_of asked entries) }
{
    let refusals = refusal_lines(alloc)?;
    let mut counts = EntryCounts { all: 0, refused: 0 };
    let mut rest = lines;
    for _ in 0..count {
        // Never so, where these are the lines of so many entries.
        let Some(entry) = cut_entry(rest) else {
            return Ok(counts);
        };
        let one = append_asked(alloc, text, &refusals, asked, &entry)?;
        counts = both(counts, one);
        rest = entry.rest;
    }
    Ok(counts)
}

/// Appends what is shown of the entries of a journal whose lines these are, as many as `count`: of each that is asked for a line with its
/// station, its command, and its answer beside it, in the journal's order; where the refused ones alone are shown, a last line says how
/// many of how many they are. The answer is how many are asked for, and how many of them were refused. An error where memory is refused.
#[tactic(auto, using(crate::proofs::EntryLaws::with_count, crate::proofs::EntryLaws::without_count))]
pub fn append_entries(
    alloc: Global,
    text: &mut Vec<u8>,
    lines: &[u8],
    count: u64,
    asked: EntriesAsked,
) -> Result<EntryCounts, AllocError>
    ensures ok { (entries : List (ℕ × List ℕ × List ℕ)) → AreLinesOf entries count lines.now
        → OnOk result (text.new.items ≡ text.old.items ++ entries_text asked entries) }
    ensures counts { (entries : List (ℕ × List ℕ × List ℕ)) → AreLinesOf entries count lines.now → IfOk result (λ counts. counts ≡ counts_of asked entries) }
{
    let counts = append_all(alloc, text, lines, count, asked)?;
    if !asked.refused_only {
        return Ok(counts);
    }
    append_refused_count(alloc, text, counts.refused, counts.all)?;
    Ok(counts)
}
