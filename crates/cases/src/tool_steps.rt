//! Steps that show what `table_tool check` tells: of a file that is read, and of a line of a script.

use crate::file_steps::{bytes_of, changed};
use crate::programs::{Call, call_of};
use crate::seen_steps::wanted_of;
use case_files::escapes::plain;
use case_files::words::{count, cut_answer, cut_first, cut_last, cut_word};
use case_files::{Place, Report, Step, Trouble};
use std::alloc::{AllocError, Global};
use std::sync::Wait;
use std::thread::Threads;

/// The path of the setup that the program checks, and of a script of it.
const SETUP: &[u8] = b"~setup";

const SCRIPT: &[u8] = b"~script";

/// Compares what is told of a file that is read, as it is or changed: `read T.DBF with at 8: 21 00 => no table: ..`. One that is cut to
/// each of some lengths, `cut 0..65`, has to be told of so each time.
pub(crate) fn read<R: Threads + Wait + Sync>(
    rt: &R,
    alloc: Global,
    place: &Place,
    report: &mut Report<'_>,
    step: &Step<'_, '_>,
) -> Result<(), Trouble> {
    let (form, answer) = cut_answer(step.rest());
    let wanted = wanted_of(alloc, answer)?;
    let Some((form, change)) = cut_first(form, b" with ") else {
        let told = told_of(rt, alloc, place, form)?;
        return Ok(report.compare_front(step, &wanted, &told)?);
    };
    let (path, change) = changed_file(form, change);
    let before = bytes_of(place, path)?;
    match lengths_of(change)? {
        Some((first, last)) => {
            for length in first..=last {
                let bytes = cut_to(alloc, &before, length)?;
                place.put(path, bytes)?;
                compare_told(rt, alloc, place, report, step, form, &wanted)?;
            }
        }
        None => {
            place.put(path, changed(alloc, before.clone()?, change)?)?;
            compare_told(rt, alloc, place, report, step, form, &wanted)?;
        }
    }
    Ok(place.put(path, before)?)
}

// Compares what is told of a file with what is wanted.
fn compare_told<R: Threads + Wait + Sync>(
    rt: &R,
    alloc: Global,
    place: &Place,
    report: &mut Report<'_>,
    step: &Step<'_, '_>,
    form: &[u8],
    wanted: &[u8],
) -> Result<(), Trouble> {
    let told = told_of(rt, alloc, place, form)?;
    Ok(report.compare_front(step, wanted, &told)?)
}

// So many of the first bytes.
fn cut_to(alloc: Global, bytes: &[u8], length: usize) -> Result<Vec<u8>, AllocError> {
    let mut copy = Vec::from_slice(alloc, bytes)?;
    copy.truncate(length);
    Ok(copy)
}

// The file that is changed, and how: the one that is read, or another.
fn changed_file<'a>(read: &'a [u8], change: &'a [u8]) -> (&'a [u8], &'a [u8]) {
    match cut_word(change) {
        (b"at", _) => (cut_word(read).0, change),
        (b"cut", _) => (cut_word(read).0, change),
        (b"add", _) => (cut_word(read).0, change),
        other => other,
    }
}

// The lengths that a file is cut to: `cut 5`, `cut 0..65`; none where it is changed in another way.
fn lengths_of(change: &[u8]) -> Result<Option<(usize, usize)>, Trouble> {
    let Some(form) = change.strip_prefix(b"cut ") else {
        return Ok(None);
    };
    match cut_first(form, b"..") {
        Some((first, last)) => Ok(Some((count(first)?, count(last)?))),
        None => Ok(Some((count(form)?, count(form)?))),
    }
}

// The setup of a table, of a table and its memos, or of an index of a table: `T.DBF`, `N.DBF N.DBT`, `X.NDX of T.DBF`.
fn setup_of(alloc: Global, form: &[u8]) -> Result<Vec<u8>, AllocError> {
    let mut setup = Vec::from_slice(alloc, b"TABLE T ")?;
    match cut_first(form, b" of ") {
        Some((index, table)) => {
            setup.extend_from_slice(table)?;
            setup.extend_from_slice(b"\nINDEX T X ")?;
            setup.extend_from_slice(index)?;
        }
        None => setup.extend_from_slice(form)?,
    }
    setup.push(b'\n')?;
    Ok(setup)
}

// What the program tells of the files of a form.
fn told_of<R: Threads + Wait + Sync>(
    rt: &R,
    alloc: Global,
    place: &Place,
    form: &[u8],
) -> Result<Vec<u8>, Trouble> {
    place.put(SETUP, setup_of(alloc, form)?)?;
    let words = call_of(alloc, &["table_tool", "check", "~setup"])?;
    let ended = Call::of(&words).run(rt, alloc, place)?;
    Ok(Vec::from_slice(alloc, told_in(&ended.out, &ended.err))?)
}

// What is told of the table and the index, or else on standard error. Of several lines it is that of the first that is not good.
fn told_in<'a>(out: &'a [u8], err: &'a [u8]) -> &'a [u8] {
    let mut told = err;
    for line in out.split(|byte| *byte == b'\n').rev() {
        if let Some(said) = said_in(line) {
            if !is_good(said) || told.is_empty() || is_good(told) && line.starts_with(b"X") {
                told = said;
            }
        }
    }
    told
}

// Whether a file is told to be good.
fn is_good(said: &[u8]) -> bool {
    said.ends_with(b": good")
}

// What a line says of the table or of the index, behind its name and its path.
fn said_in(line: &[u8]) -> Option<&[u8]> {
    let rest = match line {
        [b'T', b' ', b' ', rest @ ..] => rest,
        [b'X', b' ', b' ', rest @ ..] => rest,
        _ => return None,
    };
    match cut_first(rest, b"  ") {
        Some((_, said)) => Some(said),
        None => Some(rest),
    }
}

/// Compares why a line of a script is none: `why SET TALK OFF => TALK stands where ORDER must`; nothing where it is one.
pub(crate) fn why<R: Threads + Wait + Sync>(
    rt: &R,
    alloc: Global,
    place: &Place,
    report: &mut Report<'_>,
    step: &Step<'_, '_>,
) -> Result<(), Trouble> {
    let (line, answer) = cut_answer(step.rest());
    let wanted = wanted_of(alloc, answer)?;
    let script = plain(alloc, line)?.bytes;
    place.put(SCRIPT, script.clone()?)?;
    place.put(SETUP, Vec::from_slice(alloc, b"STATION ~script\n")?)?;
    let words = call_of(alloc, &["table_tool", "check", "~setup", "--lines"])?;
    let ended = Call::of(&words).run(rt, alloc, place)?;
    let shown = reason_in(&ended.out, &script);
    Ok(report.compare(step, &wanted, shown)?)
}

// Why the line of a script is none, where the program says so.
fn reason_in<'a>(out: &'a [u8], script: &[u8]) -> &'a [u8] {
    for told in out.split(|byte| *byte == b'\n') {
        if let Some(reason) = told.strip_prefix(b"~script: line 1: ") {
            return reason_of(reason, script);
        }
    }
    b""
}

// A reason without the line that may stand before it.
fn reason_of<'a>(reason: &'a [u8], script: &[u8]) -> &'a [u8] {
    if let Some(rest) = reason.strip_prefix(script) {
        if let Some(why) = rest.strip_prefix(b": ") {
            return why;
        }
    }
    match cut_last(reason, b": ") {
        Some((_, why)) => why,
        None => reason,
    }
}
