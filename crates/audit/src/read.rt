//! Reading an entry of a journal's text.

ghost use Rattle.std.specs.Prelude.{◌≡◌, ◌↔◌, ◌≤◌, Ok, None, IfOk, IfSome, IsTrue, OnErr};
ghost use Rattle.audit.specs.Audits.{IsLineOfCommand, IsNoCommandLine, MeansACommand, BeginsWithCommand, BeginsWithNoCommand, BeginsWithReadable, IsOnlyFirst};

use catalogue_core::Command;
use station_lines::{Line, append_command, cut_entry, is_one_line, parse_line};
use std::alloc::{AllocError, Global};

/// An entry that was read, and what stands after its line.
#[derive(Debug, Drop)]
pub(crate) struct ReadEntry<'a> {
    /// The station, from 1.
    pub station: u32,
    /// The command.
    pub command: Command,
    /// The line of the answer.
    pub answer: &'a [u8],
    /// What stands after the entry's line.
    pub rest: &'a [u8],
}

/// Whether two texts are the same.
#[tactic(auto, using(dbf_fields::proofs::SameLaws::same_bytes))]
pub(crate) fn is_same(left: &[u8], right: &[u8]) -> bool
    ensures value { IsTrue result ↔ (left.now ≡ right.now) }
{
    left == right
}

// The command whose line this is: one that a line of a script means, so that no LF stands in the line. The command's line is made
// anew in `written`, whatever that has. Memory is taken only where the line means a command.
fn command_of(
    alloc: Global,
    line: &[u8],
    written: &mut Vec<u8>,
) -> Result<Option<Command>, AllocError>
    ensures found { IfOk result (λ found. IfSome found (IsLineOfCommand line.now)) }
    ensures none { result ≡ Ok None → IsNoCommandLine line.now }
    ensures early { OnErr result (MeansACommand line.now) }
{
    if !is_one_line(line) {
        return Ok(None);
    }
    let Line::Run(command) = parse_line(alloc, line)? else {
        return Ok(None);
    };
    written.clear();
    append_command(written, &command)?;
    if !is_same(written.as_slice(), line) {
        return Ok(None);
    }
    Ok(Some(command))
}

// Whether a number is one of so many stations.
fn is_station(number: u64, stations: u32) -> bool
    ensures value { IsTrue result ↔ ((1 ≤ number) × (number ≤ stations)) }
{
    number >= 1 && number <= u64::from(stations)
}

/// The entry whose line is first in a journal's text: of one of so many stations, and with a command that a line of a
/// script means. `None` where no such entry's line is first. An error where memory is refused, which is taken only for a line of one of
/// the stations whose command's line means a command. What `written` has before and after is of no account: its memory is used for
/// the command's line.
pub(crate) fn read_entry<'a>(
    alloc: Global,
    stations: u32,
    text: &'a [u8],
    written: &mut Vec<u8>,
) -> Result<Option<ReadEntry<'a>>, AllocError>
    ensures found { IfOk result (λ found. IfSome found (λ e. BeginsWithCommand stations text.now e.station e.command e.answer.now e.rest.now)) }
    ensures only { IfOk result (λ found. IfSome found (λ e. IsOnlyFirst stations text.now e.station e.command e.answer.now e.rest.now)) }
    ensures none { result ≡ Ok None → BeginsWithNoCommand stations text.now }
    ensures early { OnErr result (BeginsWithReadable stations text.now) }
{
    let Some(cut) = cut_entry(text) else {
        return Ok(None);
    };
    if !is_station(cut.station, stations) {
        return Ok(None);
    }
    let station = cut.station as u32;
    match command_of(alloc, cut.command, written)? {
        None => Ok(None),
        Some(command) => Ok(Some(ReadEntry {
            station,
            command,
            answer: cut.answer,
            rest: cut.rest,
        })),
    }
}
