//! What the bytes of a log stand for.

ghost use Rattle.std.specs.Prelude.{◌≡◌, ◌≢◌, ◌∷◌, ◌++◌, ◌≤◌, [], List, ℕ, length, IfOk, IfErr, OnOk};
ghost use Rattle.station_lines.specs.JournalLines.{HaveSmallNumbers};
ghost use Rattle.live_log.specs.Gates.{LineParts, gated, log_of, StandsFor, StandsForEither, IsWholeLog, IsLogText, IsLogEnd, IsLogUnread, IsEndUnread, AreLinesUnread, AddsLines, HasReadTo, fault_at};

use crate::faults::ReadFault;
use crate::lines::{ReadLines, after_open_gate, cut_gate, read_lines};
use byte_io::Bytes;
use std::alloc::{AllocError, Global};

/// The gate before a line that counts.
pub const OPEN_GATE: u8 = b'+';

/// The gate after which nothing counts. Where a crash has torn it when it was to be opened, any other byte may stand in its place: then
/// the group after it is whole.
pub const SHUT_GATE: u8 = b'-';

/// A log stands for one list of entries. Whatever a torn write leaves after a shut gate, it stands for the entries before it. And
/// whatever a torn write makes of the gate before a group that is on the disk, it stands for the entries with the group or without;
/// without it only where the gate is still shut, so a gate that rots drops no entry.
#[tactic(auto, using(crate::proofs::GateLaws::one, crate::proofs::GateLaws::after_shut, crate::proofs::GateLaws::either, crate::proofs::GateLaws::rotten))]
pub fn gates_hold()
    ensures one { (log : List ℕ) (a b : List LineParts) → StandsFor log a → StandsFor log b → a ≡ b }
    ensures after_shut { (es : List LineParts) (torn : List ℕ) → HaveSmallNumbers es → StandsFor (gated es (SHUT_GATE ∷ torn)) es }
    ensures either { (es group : List LineParts) (gate : ℕ) (tail : List ℕ) → HaveSmallNumbers es → HaveSmallNumbers group → OPEN_GATE ∷ tail ≡ log_of group
        → StandsForEither (gated es (gate ∷ tail)) es group }
    ensures rotten { (es group : List LineParts) (gate : ℕ) (tail : List ℕ) → HaveSmallNumbers es → HaveSmallNumbers group → OPEN_GATE ∷ tail ≡ log_of group
        → gate ≢ SHUT_GATE → StandsFor (gated es (gate ∷ tail)) (es ++ group) }
{}

/// What the bytes of a log say.
#[derive(Debug, Drop)]
pub struct LogText {
    /// The text of the journal: the lines of the log's entries without their gates and sums.
    pub journal: Bytes,
    /// The log of the same entries and of nothing else.
    pub whole: Bytes,
    /// How many entries there are.
    pub count: u64,
}

/// The log without entries. An error where memory is refused.
pub fn empty_log(alloc: Global) -> Result<Bytes, AllocError>
    ensures value { IfOk result (λ log. log ≡ log_of []) }
    ensures whole { IfOk result IsWholeLog }
{
    Bytes::from_slice(alloc, &[SHUT_GATE])
}

// Reads the lines that are first behind open gates, and answers what stands after them.
#[tactic(auto, using(crate::proofs::LineLaws::reads_none, crate::proofs::LineLaws::read_at, crate::proofs::LineLaws::unread_at))]
fn read_front<'a>(read: &mut ReadLines, log: &'a [u8]) -> Result<&'a [u8], ReadFault>
    requires counted { read.old.count ≤ length read.old.whole.items }
    ensures read { IfOk result (λ rest. HasReadTo read.old read.new log.now rest.now) }
    ensures closed { IfOk result (λ rest. (more : List ℕ) → rest.now ≢ OPEN_GATE ∷ more) }
    ensures refused { IfErr result (AreLinesUnread read.old.count log.now) }
{
    match after_open_gate(log) {
        Some(text) => read_lines(read, text),
        None => Ok(log),
    }
}

// The same fault, of the entry of this number.
fn at_entry(fault: ReadFault, number: u64) -> ReadFault
    ensures value { result ≡ fault_at number fault }
{
    match fault {
        ReadFault::Changed(_) => ReadFault::Changed(number),
        ReadFault::NoMemory => ReadFault::NoMemory,
    }
}

// Reads what stands after the lines behind open gates. Where its gate is neither open nor shut, it was torn when it was to be opened: the
// group behind it was on the disk before, and counts.
#[tactic(auto, using(crate::proofs::LineLaws::nothing_left, crate::proofs::LineLaws::shut_end, crate::proofs::LineLaws::torn_end, crate::proofs::LineLaws::torn_unread, crate::proofs::LineLaws::torn_unended, crate::proofs::LineLaws::adds_none, crate::proofs::LineLaws::same_bytes, crate::proofs::LineLaws::other_bytes))]
fn read_end(read: &mut ReadLines, end: &[u8]) -> Result<(), ReadFault>
    requires counted { read.old.count ≤ length read.old.whole.items }
    requires closed { (more : List ℕ) → end.now ≢ OPEN_GATE ∷ more }
    ensures read { OnOk result ((last : List LineParts) × IsLogEnd end.now last × AddsLines read.old read.new last) }
    ensures refused { IfErr result (IsEndUnread read.old.count end.now) }
{
    let number = read.count + 1;
    let Some((gate, behind)) = cut_gate(end) else {
        return Err(ReadFault::Changed(number));
    };
    if gate == SHUT_GATE {
        return Ok(());
    }
    match read_lines(read, behind) {
        Ok(rest) => {
            if rest == [SHUT_GATE].as_slice() {
                Ok(())
            } else {
                Err(ReadFault::Changed(number))
            }
        }
        Err(fault) => Err(at_entry(fault, number)),
    }
}

/// What a log says. An error where memory is refused, or the log stands for no entries: behind an open gate no entry's line stands after
/// its sum, or behind the last line there is no gate, or one that is neither open nor shut before what is no whole group. Then somebody
/// has changed it, or it is no log, and the error has the number of the first entry that does not stand in it as it was put.
#[tactic(auto, using(crate::proofs::LineLaws::front_unread, crate::proofs::LineLaws::end_unread, crate::proofs::LineLaws::all_whole, crate::proofs::LineLaws::all_read, crate::proofs::LineLaws::counted_still))]
pub fn read_log(alloc: Global, log: &[u8]) -> Result<LogText, ReadFault>
    ensures found { IfOk result (λ text. IsLogText log.now text.journal text.whole text.count) }
    ensures whole { IfOk result (λ text. IsWholeLog text.whole) }
    ensures refused { IfErr result (IsLogUnread log.now) }
{
    let mut read = ReadLines::new(alloc);
    let end = read_front(&mut read, log)?;
    read_end(&mut read, end)?;
    read.whole.push(SHUT_GATE)?;
    Ok(LogText {
        journal: Bytes::from_vec(read.journal),
        whole: Bytes::from_vec(read.whole),
        count: read.count,
    })
}
