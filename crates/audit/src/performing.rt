//! Performing the entries of a journal once more.

ghost use Rattle.std.specs.Prelude.{◌≡◌, ◌≤◌, [], length, IfOk, IfErr, OnOk};
ghost use Rattle.catalogue_core.specs.Replay.{answer_of, with_entry};
ghost use Rattle.station_lines.specs.AnswerLines.{line_of};
ghost use Rattle.audit.specs.Audits.{IsJournalOf, BeginsWithReadable, HoldsFirst, Continues, IsStopFault, IsDifferenceOf, IsAnswerFault, IsFaultAt, Refutes, IsAuditFault, RefutesAll};

use crate::fault::{AuditFault, Difference};
use crate::read::{ReadEntry, is_same, read_entry};
use byte_io::Bytes;
use catalogue_core::{Catalogue, Stop};
use station_lines::{append_answer, command_line};
use std::alloc::{AllocError, Global};

// What is said of an entry whose answer is another.
fn difference(
    alloc: Global,
    number: u64,
    entry: &ReadEntry<'_>,
    performed: &[u8],
) -> Result<Difference, AllocError>
    ensures said { IfOk result (IsDifferenceOf number entry.now.station entry.now.command entry.now.answer.now performed.now) }
{
    let command = command_line(alloc, &entry.command)?;
    let told = Bytes::from_slice(alloc, entry.answer)?;
    let performed = Bytes::from_slice(alloc, performed)?;
    Ok(Difference {
        number,
        station: entry.station,
        command,
        told,
        performed,
    })
}

// The fault of an entry whose answer is another.
fn answer_fault(alloc: Global, number: u64, entry: &ReadEntry<'_>, performed: &[u8]) -> AuditFault
    ensures said { IsAnswerFault number entry.now.station entry.now.command entry.now.answer.now performed.now result }
{
    match difference(alloc, number, entry, performed) {
        Ok(difference) => AuditFault::Differs(difference),
        Err(_) => AuditFault::NoMemory,
    }
}

// Performs an entry's command, and makes the line of its answer in `performed`, whatever that has.
fn perform_entry(
    alloc: Global,
    catalogue: &mut Catalogue,
    entry: &ReadEntry<'_>,
    performed: &mut Vec<u8>,
) -> Result<(), AuditFault>
    requires counted { 1 ≤ entry.now.station }
    requires inside { entry.now.station ≤ catalogue.old.opened.stations }
    ensures answer { OnOk result (performed.new.items ≡ line_of (answer_of catalogue.old entry.now.station entry.now.command)) }
    ensures entered { OnOk result (catalogue.new ≡ with_entry catalogue.old entry.now.station entry.now.command) }
    ensures fault { IfErr result (IsStopFault catalogue.old) }
{
    match catalogue.perform(alloc, entry.station, &entry.command) {
        Ok((_, answer)) => {
            performed.clear();
            append_answer(performed, &answer)?;
            Ok(())
        }
        Err(Stop::JournalFull) => Err(AuditFault::TooLong),
        Err(Stop::NoMemory) => Err(AuditFault::NoMemory),
    }
}

// Performs the entry whose line is first in a text, compares its answer, and answers what stands after its line. The lines to compare
// with are made in `line`, whatever that has.
fn audit_entry<'a>(
    alloc: Global,
    catalogue: &mut Catalogue,
    text: &'a [u8],
    line: &mut Vec<u8>,
) -> Result<&'a [u8], AuditFault>
    ensures holds { IfOk result (λ rest. HoldsFirst catalogue.old text.now catalogue.new rest.now) }
    ensures continues { IfOk result (λ rest. Continues catalogue.old text.now catalogue.new rest.now) }
    ensures fault { IfErr result (IsFaultAt catalogue.old text.now) }
    ensures refuted { IfErr result (Refutes catalogue.old text.now) }
{
    let number = catalogue.journal().len() as u64 + 1;
    let stations = catalogue.station_count();
    let Some(entry) = read_entry(alloc, stations, text, line)? else {
        return Err(AuditFault::NoEntry(number));
    };
    perform_entry(alloc, catalogue, &entry, line)?;
    let performed = line.as_slice();
    if !is_same(performed, entry.answer) {
        return Err(answer_fault(alloc, number, &entry, performed));
    }
    Ok(entry.rest)
}

/// Performs the entries of a journal's text once more, one after another, on a catalogue that was just opened, and
/// compares each answer. It answers how many there are, where all hold: the text is then the catalogue's journal.
///
/// At a fault the text is the journal of no legal history on the opened tables, but where memory was refused. Memory is
/// taken only for the line of an entry of one of the stations, whose command's line means a command: an empty text holds,
/// and where another line is first the fault is [`AuditFault::NoEntry`].
///
/// As a caller has it:
///
/// ```text
/// let mut catalogue = open_loaded(alloc, loaded, reindex)?;
/// audit(alloc, &mut catalogue, entries)?;
/// ```
pub fn audit(alloc: Global, catalogue: &mut Catalogue, text: &[u8]) -> Result<u64, AuditFault>
    requires at_opening { catalogue.old.journal ≡ [] }
    ensures opened { IfOk result (λ _. catalogue.new.opened ≡ catalogue.old.opened) }
    ensures holds { IfOk result (λ _. IsJournalOf catalogue.old.opened text.now catalogue.new.journal) }
    ensures counted { IfOk result (λ count. count ≡ length catalogue.new.journal) }
    // No journal of a legal history has this text.
    ensures refuted { IfErr result (RefutesAll catalogue.old.opened text.now) }
    // The lines before the fault hold.
    ensures fault { IfErr result (IsAuditFault catalogue.old.opened text.now) }
    // Memory is refused only where it is taken.
    ensures early { IfErr result (λ fault. fault ≡ AuditFault.NoMemory → BeginsWithReadable catalogue.old.opened.stations text.now) }
{
    let mut rest = text;
    let mut line = Vec::new(alloc);
    while !rest.is_empty() {
        rest = audit_entry(alloc, catalogue, rest, &mut line)?;
    }
    Ok(catalogue.journal().len() as u64)
}
