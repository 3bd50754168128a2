//! Steps that look at files.

use crate::file_steps::bytes_of;
use case_files::escapes::{append_hex, plain};
use case_files::words::{count, cut_answer, cut_first, cut_word};
use case_files::{Place, Report, Step, Trouble};
use std::alloc::Global;

/// The bytes of an answer that has to stand there.
pub(crate) fn wanted_of(alloc: Global, answer: Option<&[u8]>) -> Result<Vec<u8>, Trouble> {
    match answer {
        Some(text) => Ok(plain(alloc, text)?.bytes),
        None => Err(Trouble::Bad("an answer must stand behind =>")),
    }
}

/// Compares a file with the lines below the step: `show OUT/S.TXT`.
pub(crate) fn show(
    alloc: Global,
    place: &Place,
    report: &mut Report<'_>,
    step: &Step<'_, '_>,
) -> Result<(), Trouble> {
    let wanted = step.text_below(alloc, b'>')?;
    let shown = bytes_of(place, step.rest())?;
    Ok(report.compare_lines(step, b"> ", &wanted, &shown)?)
}

/// Compares the bytes of a file from an offset on, before another: `bytes T.DBF 0..4 => 03 57 03 0f`.
pub(crate) fn bytes(
    alloc: Global,
    place: &Place,
    report: &mut Report<'_>,
    step: &Step<'_, '_>,
) -> Result<(), Trouble> {
    let (form, answer) = cut_answer(step.rest());
    let (path, range) = cut_word(form);
    let Some((first, last)) = cut_first(range, b"..") else {
        return Err(Trouble::Bad("a range is N..M"));
    };
    let (first, last) = (count(first)?, count(last)?);
    let mut wanted = Vec::new(alloc);
    append_hex(alloc, &mut wanted, answer.unwrap_or(b""))?;
    let content = bytes_of(place, path)?;
    Ok(report.compare(step, &wanted, part_of(&content, first, last))?)
}

// The bytes from an offset on, before another; none where there are not so many.
fn part_of(content: &[u8], first: usize, last: usize) -> &[u8] {
    match content.get(first..last) {
        Some(part) => part,
        None => b"",
    }
}

/// Compares the number of a file's bytes: `size T.DBF => 88`.
pub(crate) fn size(
    alloc: Global,
    place: &Place,
    report: &mut Report<'_>,
    step: &Step<'_, '_>,
) -> Result<(), Trouble> {
    let (path, answer) = cut_answer(step.rest());
    let wanted = wanted_of(alloc, answer)?;
    let length = bytes_of(place, path)?.len();
    let shown = format!(in alloc; "{length}")?;
    Ok(report.compare(step, &wanted, shown.as_bytes())?)
}

/// Compares the names of the files of a folder, with a blank between two: `files OUT => A.TXT B.DBF`.
pub(crate) fn files(
    alloc: Global,
    place: &Place,
    report: &mut Report<'_>,
    step: &Step<'_, '_>,
) -> Result<(), Trouble> {
    let (folder, answer) = cut_answer(step.rest());
    let wanted = wanted_of(alloc, answer)?;
    let mut shown = Vec::new(alloc);
    for name in place.names(folder)? {
        if !shown.is_empty() {
            shown.push(b' ')?;
        }
        shown.extend_from_slice(&name)?;
    }
    Ok(report.compare(step, &wanted, &shown)?)
}

/// Compares two files, which have to be the same: `same OUT/T.DBF T.DBF`.
pub(crate) fn same(
    place: &Place,
    report: &mut Report<'_>,
    step: &Step<'_, '_>,
) -> Result<(), Trouble> {
    let (path, other) = cut_word(step.rest());
    let shown = bytes_of(place, path)?;
    let wanted = bytes_of(place, other)?;
    Ok(report.compare(step, &wanted, &shown)?)
}
