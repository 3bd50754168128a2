//! What is said at a start on the log of an earlier life.

ghost use Rattle.std.specs.Prelude.{◌≡◌, option_map, IfOk, OnOk};
ghost use Rattle.std.specs.Io.KnownBytes.{Appends};
ghost use Rattle.setup_check.specs.ScriptLines.{shown_line};
ghost use Rattle.live_program.specs.Greetings.{again_line, again_text, earlier_said, earlier_text, last_entry, last_line, last_lines, last_said, or_before, own_entry, start_text as text_of_start, station_named};

use byte_io::Bytes;
use catalogue_core::{Catalogue, Entry};
use setup_check::append_shown;
use station_lines::{answer_line, command_line};
use std::alloc::{AllocError, Global};
use std::io;
use std::io::Write;

// Prints how many commands were performed once more: `station_prompt: N commands performed again` and LF.
fn print_again<W: Write>(out: &mut W, count: u64) -> io::Result<()>
    ensures text { OnOk result (Appends (W.contents out.old) (W.contents out.new) (again_line count)) }
{
    write!(out, "station_prompt: {count} commands performed again\n")
}

// Prints which station it is: `station 2: `.
fn print_station<W: Write>(out: &mut W, station: u32) -> io::Result<()>
    ensures text { OnOk result (Appends (W.contents out.old) (W.contents out.new) (station_named station)) }
{
    write!(out, "station {station}: ")
}

// Prints a station's last command and its answer: `station 2: USE STAFF: OK` and LF.
fn print_last<W: Write>(
    out: &mut W,
    station: u32,
    command: &Bytes,
    answer: &Bytes,
) -> io::Result<()>
    ensures text { OnOk result (Appends (W.contents out.old) (W.contents out.new) (last_line station command.now answer.now)) }
{
    print_station(out, station)?;
    out.write_all(command.as_slice())?;
    out.write_all(b": ")?;
    out.write_all(answer.as_slice())?;
    out.write_all(b"\n")?;
    Ok(())
}

// The entry, where it is the station's, and else the one before it.
fn own_or<'a>(entry: &'a Entry, station: u32, before: Option<&'a Entry>) -> Option<&'a Entry>
    ensures value { option_map (λ e. e.now) result ≡ or_before (own_entry station entry.now) (option_map (λ e. e.now) before.entry) }
{
    if entry.station == station {
        Some(entry)
    } else {
        before
    }
}

// The last entry of a station in a journal.
fn last_of(journal: &[Entry], station: u32) -> Option<&Entry>
    ensures value { option_map (λ e. e.now) result ≡ last_entry station journal.now }
{
    let mut last = None;
    for entry in journal {
        last = own_or(entry, station, last);
    }
    last
}

// A line as it is told: its first 200 bytes, with no control byte of a cell.
fn shown(alloc: Global, line: &Bytes) -> Result<Bytes, AllocError>
    ensures value { IfOk result (λ text. text ≡ shown_line line.now) }
{
    let mut text = Vec::new(alloc);
    append_shown(&mut text, line.as_slice())?;
    Ok(Bytes::from_vec(text))
}

// Says which command of a station was performed last, and what it was answered. `Ok` has what printing has answered.
#[tactic(auto, using(crate::proofs::GreetingLaws::appends_none))]
fn tell_last<W: Write>(
    alloc: Global,
    catalogue: &Catalogue,
    station: u32,
    out: &mut W,
) -> Result<io::Result<()>, AllocError>
    ensures text { IfOk result (λ printed. OnOk printed
        (Appends (W.contents out.old) (W.contents out.new) (last_said station (last_entry station catalogue.now.journal)))) }
{
    let Some(entry) = last_of(catalogue.journal(), station) else {
        return Ok(Ok(()));
    };
    let command = shown(alloc, &command_line(alloc, &entry.command)?)?;
    let answer = shown(alloc, &answer_line(alloc, &entry.answer)?)?;
    Ok(print_last(out, station, &command, &answer))
}

// Says the last command of each station and its answer. `Ok` has what printing has answered.
#[tactic(auto, using(crate::proofs::GreetingLaws::appends_none, crate::proofs::GreetingLaws::lines_then))]
fn tell_stations<W: Write>(
    alloc: Global,
    catalogue: &Catalogue,
    out: &mut W,
) -> Result<io::Result<()>, AllocError>
    ensures text { IfOk result (λ printed. OnOk printed
        (Appends (W.contents out.old) (W.contents out.new) (last_lines catalogue.now.opened.stations catalogue.now.journal))) }
{
    for done in 0..catalogue.station_count() {
        match tell_last(alloc, catalogue, done + 1, out)? {
            Ok(()) => {}
            Err(unprinted) => return Ok(Err(unprinted)),
        }
    }
    Ok(Ok(()))
}

/// Says how many commands of the log were performed once more, where there are any, and of each station the last of them and its
/// answer: so a clerk whose line was not answered sees whether it counts.
///
/// `Ok` has what printing has answered: after a failed write nothing more is printed. An error where memory is refused.
#[tactic(auto, using(crate::proofs::GreetingLaws::again_none, crate::proofs::GreetingLaws::again_then, crate::proofs::GreetingLaws::told_as))]
pub fn tell_again<W: Write>(
    alloc: Global,
    catalogue: &Catalogue,
    out: &mut W,
) -> Result<io::Result<()>, AllocError>
    ensures text { IfOk result (λ printed. OnOk printed
        (Appends (W.contents out.old) (W.contents out.new) (again_text catalogue.now.opened.stations catalogue.now.journal))) }
{
    let count = catalogue.journal().len() as u64;
    if count == 0 {
        return Ok(Ok(()));
    }
    match print_again(out, count) {
        Ok(()) => tell_stations(alloc, catalogue, out),
        Err(unprinted) => Ok(Err(unprinted)),
    }
}

// Says that an earlier day was closed with so many commands, if it had any: `station_prompt: an earlier day was closed: N commands` and LF.
#[tactic(auto, using(crate::proofs::GreetingLaws::earlier_none, crate::proofs::GreetingLaws::earlier_some))]
fn tell_earlier<W: Write>(out: &mut W, earlier: u64) -> io::Result<()>
    ensures text { OnOk result (Appends (W.contents out.old) (W.contents out.new) (earlier_text earlier)) }
{
    if earlier == 0 {
        return Ok(());
    }
    write!(
        out,
        "station_prompt: an earlier day was closed: {earlier} commands\n"
    )
}

// How many commands of the day that was closed before there are to tell: none where the day that is open has one of its own.
#[tactic(auto, using(crate::proofs::GreetingLaws::earlier_yet, crate::proofs::GreetingLaws::earlier_over))]
fn earlier_to_tell(catalogue: &Catalogue, earlier: u64) -> u64
    ensures value { earlier_text result ≡ earlier_said earlier catalogue.now.journal }
{
    let count = catalogue.journal().len() as u64;
    if count == 0 { earlier } else { 0 }
}

/// What there is to say of the log at a start: how many commands the day had that was closed before, while the one that is open has none,
/// and what [`tell_again`] prints. An error where memory is refused.
#[tactic(auto, using(crate::proofs::GreetingLaws::start_said))]
pub(crate) fn start_text(
    alloc: Global,
    catalogue: &Catalogue,
    earlier: u64,
) -> Result<Bytes, AllocError>
    ensures value { IfOk result (λ text. text ≡ text_of_start earlier catalogue.now.opened.stations catalogue.now.journal) }
{
    let mut text = Vec::new(alloc);
    match tell_earlier(&mut text, earlier_to_tell(catalogue, earlier)) {
        Ok(()) => {}
        Err(_) => return Err(AllocError),
    }
    match tell_again(alloc, catalogue, &mut text)? {
        Ok(()) => Ok(Bytes::from_vec(text)),
        Err(_) => Err(AllocError),
    }
}
