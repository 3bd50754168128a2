//! What a person at a terminal is told between the lines, and what of an answer is shown there.

use crate::disks::FailingPlaces;
use crate::samples::{SETUP, empty_folder, source};
use dbf_fields::day_of;
use live_program::{Options, PrintedAnswers, ShownBytes, TypedLines, live_in_place};
use std::alloc::Global;
use std::io::{self, Write};
use std::test::Fail;

// A writer behind a text.
#[derive(Drop)]
struct Paper<'a> {
    text: &'a mut Vec<u8>,
}

impl<'a> Write for Paper<'a> {
    fn write(&mut self, bytes: &[u8]) -> io::Result<usize> {
        self.text.extend_from_slice(bytes)?;
        Ok(bytes.len())
    }

    fn flush(&mut self) -> io::Result<()> {
        Ok(())
    }
}

// What is told between the lines of a day, and what its answers are.
#[derive(Drop)]
struct Seen {
    told: Vec<u8>,
    answers: Vec<u8>,
}

// More calls of the disk than such a day makes.
const CALLS: u64 = 1_000;

// A day at a terminal at which this is typed.
fn see(alloc: Global, typed: &[u8]) -> Result<Seen, Fail> {
    let Some(today) = day_of(1987, 3, 15) else {
        return Err("no date".into());
    };
    let options = Options {
        setup: "A.SET",
        out: "x",
        today,
        reindex: false,
        live: false,
    };
    let mut seen = Seen {
        told: Vec::new(alloc),
        answers: Vec::new(alloc),
    };
    let mut said: Vec<u8> = Vec::new(alloc);
    let mut files = source(alloc, SETUP, u64::MAX)?;
    let prompt = Paper {
        text: &mut seen.told,
    };
    let mut keyboard = TypedLines::at_terminal(typed, Some(prompt));
    let answers = Paper {
        text: &mut seen.answers,
    };
    let mut screen = PrintedAnswers::new(ShownBytes::new(answers, true));
    let lived = live_in_place(
        alloc,
        &options,
        &mut files,
        &FailingPlaces { calls: 0 },
        empty_folder(alloc, CALLS),
        &mut keyboard,
        &mut screen,
        &mut said,
    );
    drop(lived);
    drop(keyboard);
    drop(screen);
    Ok(seen)
}

const GREETING: &str =
    "You are station 1. HELP shows the commands, QUIT or Ctrl-D closes the day.\n1. ";

// Whether this is told after the greeting, and these are the answers.
fn sees(alloc: Global, typed: &[u8], told: &str, answers: &[u8]) -> Result<bool, Fail> {
    let seen = see(alloc, typed)?;
    let is_told = match seen.told.as_slice().strip_prefix(GREETING.as_bytes()) {
        Some(rest) => rest == told.as_bytes(),
        None => false,
    };
    Ok(is_told && seen.answers.as_slice() == answers)
}

#[test]
fn the_greeting_and_the_prompts(rt: HostRuntime) -> Result<(), Fail> {
    assert!(rt; sees(rt.alloc(), b"", "", b"")?);
    assert!(rt; sees(rt.alloc(), b"USE T\nSTATION 2\nQUIT\n", "1. 2. ", b"OK\n")?);
    Ok(())
}

#[test]
fn why_a_line_is_none_of_a_script(rt: HostRuntime) -> Result<(), Fail> {
    let rows: [(&[u8], &str); 4] = [
        (
            b"LIST\n",
            "  unknown word LIST; HELP shows the commands\n1. ",
        ),
        (
            b"?COUNT\n",
            "  a blank is missing after ?; HELP shows the commands\n1. ",
        ),
        (
            b"\x1b[A\n",
            "  unknown word \\x1b[A; HELP shows the commands\n1. ",
        ),
        (
            b"USE T ALL\n",
            "  ALL stands where EXCLUSIVE must; HELP shows the commands\n1. ",
        ),
    ];
    for (typed, told) in rows {
        assert!(rt; sees(rt.alloc(), typed, told, b"REFUSED 19 BadCommand\n")?);
    }
    // It is told once.
    let twice = "  unknown word LIST; HELP shows the commands\n1. 1. ";
    assert!(rt;
        sees(
            rt.alloc(),
            b"LIST\nUSE T\n",
            twice,
            b"REFUSED 19 BadCommand\nOK\n"
        )?
    );
    Ok(())
}

#[test]
fn help_is_no_line_of_the_day(rt: HostRuntime) -> Result<(), Fail> {
    let rows: [&[u8]; 3] = [b"HELP\n", b"help\n", b"  Help \n"];
    for typed in rows {
        let seen = see(rt.alloc(), typed)?;
        assert!(rt; seen.answers.is_empty());
        let Some(told) = seen.told.as_slice().strip_prefix(GREETING.as_bytes()) else {
            return Err("no greeting".into());
        };
        assert!(rt; told.starts_with(b"  SELECT n "));
        assert!(rt; told.ends_with(b"in small letters.\n1. "));
    }
    Ok(())
}

#[test]
fn a_control_byte_of_a_cell_is_shown_as_a_dash(rt: HostRuntime) -> Result<(), Fail> {
    let mut at_terminal: Vec<u8> = Vec::new(rt.alloc());
    let mut piped: Vec<u8> = Vec::new(rt.alloc());
    let bytes = b"A\x1b[31mB\x07\x7f\xe1\tC\r\n";
    ShownBytes::new(
        Paper {
            text: &mut at_terminal,
        },
        true,
    )
    .write_all(bytes)?;
    ShownBytes::new(Paper { text: &mut piped }, false).write_all(bytes)?;
    assert!(rt; at_terminal.as_slice() == b"A-[31mB--\xe1\tC\r\n".as_slice());
    assert!(rt; piped.as_slice() == bytes.as_slice());
    Ok(())
}
