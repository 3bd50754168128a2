//! The lines of a log: an entry's line, as a journal has it, after its sum.

ghost use Rattle.std.specs.Prelude.{◌≡◌, ◌≢◌, ◌∷◌, ◌++◌, ◌≤◌, [], List, ℕ, length, IfOk, IfErr, IfSome, IfNone, OnOk};
ghost use Rattle.station_lines.specs.JournalLines.{entry_and, BeginsWithEntry, BeginsWithNoEntry};
ghost use Rattle.live_log.specs.Gates.{LineParts, sum_of_line, log_line_and, BeginsWithLogLine, BeginsWithNoLogLine, AreLinesUnread, HasReadTo};

use crate::faults::ReadFault;
use crate::gates::OPEN_GATE;
use dbf_fields::BLANK;
use hex::encode_to_slice;
use sha2::{Digest, Sha256};
use station_lines::{cut_entry, cut_part};
use std::alloc::{AllocError, Global};

/// Of how many bytes of a line's SHA-256 its sum is made.
pub const SUM_BYTES: usize = 8;

/// How many digits a sum has.
pub const SUM_LEN: usize = 16;

// The sum of an entry's line.
#[tactic(auto, using(crate::proofs::SumLaws::is_sum))]
pub(crate) fn line_sum(line: &[u8]) -> [u8; SUM_LEN]
    ensures value { result ≡ sum_of_line line.now }
{
    let digest = Sha256::digest(line);
    let mut sum = [0; SUM_LEN];
    let (front, _) = digest.as_slice().split_at(SUM_BYTES);
    let Ok(()) = encode_to_slice(front, &mut sum) else {
        unreachable!();
    };
    sum
}

// The line of the entry that is first, and what stands after it.
fn cut_entry_line(text: &[u8]) -> Option<(&[u8], &[u8])>
    ensures found { IfSome result (λ cut. (e : LineParts) × BeginsWithEntry text.now e cut.1.now × (cut.0.now ≡ entry_and e [])) }
    ensures none { IfNone result (BeginsWithNoEntry text.now) }
{
    let Some(cut) = cut_entry(text) else {
        return None;
    };
    let length = text.len() - cut.rest.len();
    let (line, _) = text.split_at(length);
    Some((line, cut.rest))
}

// The line of the entry that is first after its sum, and what stands after it.
#[tactic(auto, using(crate::proofs::LineLaws::no_sum, crate::proofs::LineLaws::no_entry_after, crate::proofs::LineLaws::wrong_sum, crate::proofs::LineLaws::log_line_first, crate::proofs::LineLaws::same_bytes, crate::proofs::LineLaws::other_bytes))]
fn cut_log_line(text: &[u8]) -> Option<(&[u8], &[u8])>
    ensures found { IfSome result (λ cut. (e : LineParts) × BeginsWithLogLine text.now e cut.1.now × (cut.0.now ≡ entry_and e [])) }
    ensures none { IfNone result (BeginsWithNoLogLine text.now) }
{
    let Some((sum, entry)) = cut_part(text, SUM_LEN as u64, BLANK) else {
        return None;
    };
    let Some((line, rest)) = cut_entry_line(entry) else {
        return None;
    };
    if sum == line_sum(line).as_slice() {
        Some((line, rest))
    } else {
        None
    }
}

/// The lines of a log that were read.
#[derive(Debug, Drop)]
pub(crate) struct ReadLines {
    /// The lines as a journal has them.
    pub(crate) journal: Vec<u8>,
    /// The lines as a log has them: each with its sum, after an open gate.
    pub(crate) whole: Vec<u8>,
    /// How many they are.
    pub(crate) count: u64,
}

impl ReadLines {
    // None yet.
    pub(crate) fn new(alloc: Global) -> ReadLines
        ensures journal { result.journal.items ≡ [] }
        ensures whole { result.whole.items ≡ [] }
        ensures count { result.count ≡ 0 }
    {
        ReadLines {
            journal: Vec::new(alloc),
            whole: Vec::new(alloc),
            count: 0,
        }
    }
}

// Puts an entry's line after an open gate and its sum.
pub(crate) fn append_line(bytes: &mut Vec<u8>, line: &[u8]) -> Result<(), AllocError>
    ensures ok { OnOk result (bytes.new.items ≡ bytes.old.items ++ (OPEN_GATE ∷ (sum_of_line line.now ++ (BLANK ∷ line.now)))) }
{
    bytes.push(OPEN_GATE)?;
    bytes.extend_from_slice(&line_sum(line))?;
    bytes.push(BLANK)?;
    bytes.extend_from_slice(line)?;
    Ok(())
}

// What stands after an open gate that is first.
pub(crate) fn after_open_gate(log: &[u8]) -> Option<&[u8]>
    ensures found { IfSome result (λ rest. log.now ≡ OPEN_GATE ∷ rest.now) }
    ensures none { IfNone result ((rest : List ℕ) → log.now ≢ OPEN_GATE ∷ rest) }
{
    match log {
        [gate, rest @ ..] if *gate == OPEN_GATE => Some(rest),
        _ => None,
    }
}

// A gate, and what stands after it.
pub(crate) fn cut_gate(text: &[u8]) -> Option<(u8, &[u8])>
    ensures found { IfSome result (λ cut. text.now ≡ cut.0 ∷ cut.1.now) }
    ensures none { IfNone result (text.now ≡ []) }
{
    match text {
        [gate, rest @ ..] => Some((*gate, rest)),
        [] => None,
    }
}

// Reads the line that is first behind a gate, and answers what stands after it.
#[tactic(auto, using(crate::proofs::LineLaws::no_first_line, crate::proofs::LineLaws::reads_one, crate::proofs::LineLaws::rest_within))]
fn read_line<'a>(read: &mut ReadLines, text: &'a [u8]) -> Result<&'a [u8], ReadFault>
    requires counted { read.old.count ≤ length read.old.whole.items }
    ensures read { IfOk result (λ rest. HasReadTo read.old read.new (OPEN_GATE ∷ text.now) rest.now) }
    ensures shorter { IfOk result (λ rest. length rest.now ≤ length text.now) }
    ensures refused { IfErr result (AreLinesUnread read.old.count (OPEN_GATE ∷ text.now)) }
{
    let Some((line, rest)) = cut_log_line(text) else {
        return Err(ReadFault::Changed(read.count + 1));
    };
    read.journal.extend_from_slice(line)?;
    append_line(&mut read.whole, line)?;
    read.count += 1;
    Ok(rest)
}

// Reads the line that is first behind a gate, and all lines after it behind open gates, and answers what stands after them.
#[tactic(auto, using(crate::proofs::LineLaws::reads_both, crate::proofs::LineLaws::unread_then, crate::proofs::LineLaws::counted_still))]
pub(crate) fn read_lines<'a>(read: &mut ReadLines, text: &'a [u8]) -> Result<&'a [u8], ReadFault>
    requires counted { read.old.count ≤ length read.old.whole.items }
    ensures read { IfOk result (λ rest. HasReadTo read.old read.new (OPEN_GATE ∷ text.now) rest.now) }
    ensures closed { IfOk result (λ rest. (more : List ℕ) → rest.now ≢ OPEN_GATE ∷ more) }
    ensures refused { IfErr result (AreLinesUnread read.old.count (OPEN_GATE ∷ text.now)) }
{
    let mut rest = read_line(read, text)?;
    'reading: while let Some(gated) = after_open_gate(rest) {
        match read_line(read, gated) {
            Ok(after) => rest = after,
            Err(fault) => return Err(fault),
        }
    }
    Ok(rest)
}
