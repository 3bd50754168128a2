//! Steps of stations: lines of theirs, what a line means, and the order of an index.

use crate::scarce_lines::perform_scarce;
use crate::seen_steps::wanted_of;
use case_files::escapes::plain;
use case_files::words::{count, cut_answer, cut_word, number};
use case_files::{Report, Step, Trouble};
use catalogue_core::{Catalogue, Stop};
use ndx_index::PairList;
use station_lines::{Line, answer_line, command_line, parse_line, status_line};
use std::alloc::{AllocError, Global};
use table_core::Table;

/// Performs a line of a station, and compares its answer: `1. GO TOP => OK`. An answer of several lines stands below it.
pub(crate) fn line(
    alloc: Global,
    catalogue: &mut Catalogue,
    is_scarce: bool,
    report: &mut Report<'_>,
    step: &Step<'_, '_>,
    digits: &[u8],
) -> Result<(), Trouble> {
    let station = match number(digits) {
        Some(number) => u32::try_from(number).unwrap_or(0),
        None => return Err(Trouble::Bad("no such step")),
    };
    let (line, wanted) = line_and_answer(alloc, step)?;
    let shown = if is_scarce {
        perform_scarce(alloc, catalogue, station, &line)?
    } else {
        perform_line(alloc, catalogue, station, &line)?
    };
    Ok(report.compare(step, &wanted, &shown)?)
}

// The line of a station and the answer that is wanted: behind the arrow, or below the step.
fn line_and_answer(alloc: Global, step: &Step<'_, '_>) -> Result<(Vec<u8>, Vec<u8>), Trouble> {
    if step.below.is_empty() {
        let (line, answer) = cut_answer(step.rest());
        return Ok((plain(alloc, line)?.bytes, wanted_of(alloc, answer)?));
    }
    let mut answer = step.text_below(alloc, b'>')?;
    answer.pop();
    Ok((plain(alloc, step.rest())?.bytes, answer))
}

/// Performs a line of a station: its answer, nothing for a blank line.
pub(crate) fn perform_line(
    alloc: Global,
    catalogue: &mut Catalogue,
    station: u32,
    line: &[u8],
) -> Result<Vec<u8>, Trouble> {
    if station == 0 || station > catalogue.station_count() {
        return Err(Trouble::Bad("no such station"));
    }
    match parse_line(alloc, line)? {
        Line::Blank => Ok(Vec::new(alloc)),
        Line::Status => Ok(status_line(alloc, &catalogue.status())?.into_vec()),
        Line::Run(command) => match catalogue.perform(alloc, station, &command) {
            Ok((_, answer)) => Ok(answer_line(alloc, &answer)?.into_vec()),
            Err(Stop::NoMemory) => Err(Trouble::NoMemory),
            Err(Stop::JournalFull) => Err(Trouble::Bad("the journal is full")),
        },
    }
}

/// Compares a line of a script with the same line as a journal has it: `line repl name with -.5 => REPLACE NAME WITH -0.5`.
pub(crate) fn meaning(
    alloc: Global,
    report: &mut Report<'_>,
    step: &Step<'_, '_>,
) -> Result<(), Trouble> {
    let (line, answer) = cut_answer(step.rest());
    let wanted = wanted_of(alloc, answer)?;
    let line = plain(alloc, line)?.bytes;
    let shown = meaning_of(alloc, &line)?;
    Ok(report.compare(step, &wanted, &shown)?)
}

// A line as a journal has it.
fn meaning_of(alloc: Global, line: &[u8]) -> Result<Vec<u8>, AllocError> {
    match parse_line(alloc, line)? {
        Line::Run(command) => Ok(command_line(alloc, &command)?.into_vec()),
        Line::Status => Vec::from_slice(alloc, b"DISPLAY STATUS"),
        Line::Blank => Ok(Vec::new(alloc)),
    }
}

/// Compares the records of a table in the order of its index of a number: `order 1 2 => 3 1 2`.
pub(crate) fn order(
    alloc: Global,
    catalogue: &Catalogue,
    report: &mut Report<'_>,
    step: &Step<'_, '_>,
) -> Result<(), Trouble> {
    let (form, answer) = cut_answer(step.rest());
    let wanted = wanted_of(alloc, answer)?;
    let (table, index) = cut_word(form);
    let pairs = pairs_of(alloc, table_of(catalogue, table)?, index)?;
    let shown = numbers_of(alloc, &pairs)?;
    Ok(report.compare(step, &wanted, &shown)?)
}

// The table of a number.
fn table_of<'a>(catalogue: &'a Catalogue, digits: &[u8]) -> Result<&'a Table, Trouble> {
    match u32::try_from(count(digits)?) {
        Ok(number) if number > 0 && (number as usize) <= catalogue.table_count() => {
            Ok(catalogue.table(number))
        }
        _ => Err(Trouble::Bad("no such table")),
    }
}

// The keys and records of a table's index of a number.
fn pairs_of(alloc: Global, table: &Table, digits: &[u8]) -> Result<PairList, Trouble> {
    let number = count(digits)?;
    if number == 0 || number > table.index_count() {
        return Err(Trouble::Bad("no such index"));
    }
    Ok(table.index_pairs(alloc, number)?)
}

// The numbers of the records of pairs, with a blank between two.
fn numbers_of(alloc: Global, pairs: &PairList) -> Result<Vec<u8>, AllocError> {
    let mut text = Vec::new(alloc);
    for at in 0..pairs.len() {
        if at > 0 {
            text.push(b' ')?;
        }
        let number = format!(in alloc; "{}", pairs.get(at).number)?;
        text.extend_from_slice(number.as_bytes())?;
    }
    Ok(text)
}
