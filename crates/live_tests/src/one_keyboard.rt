//! A day of one keyboard over a disk in memory, and whether a further line is there.

ghost use Rattle.std.specs.Prelude.{◌≡◌, false};
ghost use Rattle.files_in_place.specs.Folder.{Name, is_reserved};
ghost use Rattle.memory_disk.specs.Outcomes.{IsWhole};

use crate::disks::FailingPlaces;
use crate::samples::{SETUP, source};
use dbf_fields::day_of;
use live_day::{Keyboard, Typed};
use live_program::{LiveFailure, Lived, Options, PrintedAnswers, TypedLines, live_in_place};
use memory_disk::MemoryDisk;
use program_frame::InPlace;
use std::alloc::Global;
use std::io::{BufRead, Write};
use std::test::Fail;

/// How a day in a folder in memory ended, and the folder then.
pub(crate) type Ended = InPlace<Lived, LiveFailure, MemoryDisk>;

// What the command line says of such a day.
fn options() -> Option<Options<'static>> {
    Some(Options {
        setup: "A.SET",
        out: "x",
        today: day_of(1987, 3, 15)?,
        reindex: false,
        live: false,
    })
}

/// A day in a folder in memory, whose lines come from a reader and whose answers go to a writer.
pub(crate) fn live_with<R: BufRead + Drop, W: Write + Drop>(
    alloc: Global,
    disk: MemoryDisk,
    reader: R,
    out: W,
) -> Result<Ended, Fail>
    requires whole { (n : Name) → is_reserved n ≡ false → IsWhole disk.calls n }
{
    let Some(options) = options() else {
        return Err("no date".into());
    };
    let prompt: Option<Vec<u8>> = None;
    let mut said: Vec<u8> = Vec::new(alloc);
    let mut files = source(alloc, SETUP, u64::MAX)?;
    let mut keyboard = TypedLines::new(reader, prompt);
    let mut screen = PrintedAnswers::new(out);
    Ok(live_in_place(
        alloc,
        &options,
        &mut files,
        &FailingPlaces { calls: 0 },
        disk,
        &mut keyboard,
        &mut screen,
        &mut said,
    ))
}

// Whether a further line is said to be there, after the first one was read.
fn has_second(alloc: Global, typed: &[u8], prompt: Option<Vec<u8>>) -> bool {
    let mut keyboard = TypedLines::new(typed, prompt);
    let _ = keyboard.next_line(alloc, 1);
    keyboard.has_line()
}

// Whether a further line is said to be there or not without a prompt, and with one not.
fn has_second_alone(alloc: Global, typed: &[u8], is_there: bool) -> bool {
    has_second(alloc, typed, None) == is_there && !has_second(alloc, typed, Some(Vec::new(alloc)))
}

// What is read of a text that is typed, after its first line.
fn second_of(alloc: Global, mut keyboard: TypedLines<&[u8], Vec<u8>>) -> Option<Typed> {
    let _ = keyboard.next_line(alloc, 1);
    keyboard.next_line(alloc, 1).ok()?
}

// Whether a second line without LF was cut at a pipe, and is one at a terminal.
fn is_cut_at_a_pipe_alone(alloc: Global, typed: &[u8], line: &[u8]) -> bool {
    let piped = second_of(alloc, TypedLines::new(typed, None));
    let at_terminal = second_of(alloc, TypedLines::at_terminal(typed, None));
    let is_line = match at_terminal {
        Some(Typed::Text(found)) => found.as_slice() == line,
        _ => false,
    };
    matches!(piped, Some(Typed::Cut)) && is_line
}

#[test]
fn a_last_line_without_its_end_was_cut_but_at_a_terminal(rt: HostRuntime) -> Result<(), Fail> {
    let rows: [(&[u8], &[u8]); 4] = [
        (b"USE T\nGO 11", b"GO 11"),
        (b"USE T\nGO 1", b"GO 1"),
        (b"USE T\r\nG", b"G"),
        (b"\nQUIT", b"QUIT"),
    ];
    for (typed, line) in rows {
        assert!(rt; is_cut_at_a_pipe_alone(rt.alloc(), typed, line));
    }
    Ok(())
}

#[test]
fn a_further_line_is_there_without_a_prompt_alone(rt: HostRuntime) -> Result<(), Fail> {
    let rows: [(&[u8], bool); 4] = [
        (b"A\nB\n", true),
        (b"A\nB", false),
        (b"A\n", false),
        (b"", false),
    ];
    for (typed, is_there) in rows {
        assert!(rt; has_second_alone(rt.alloc(), typed, is_there));
    }
    Ok(())
}
