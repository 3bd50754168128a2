//! Stations whose keyboard or screen can't be opened or fails.

use crate::clerks::{Clerk, Then, Turn};
use crate::living::{Left, LeftDay, live};
use live_stations::LinesEnd;
use std::fs::File;
use std::process::ExitCode;
use std::rt::{Files, Runtime};
use std::sync::Wait;
use std::test::Fail;
use std::thread::Threads;

// What a clerk types whose station works, and what is answered.
const OTHER: &[Turn<'static>] = &[(2, 0, b"USE T\nGO 2\n? RECNO()\n")];

// Whether the other clerk has all answers.
fn is_other_whole(day: &LeftDay) -> bool {
    day.is_whole(2, b"OK\nOK\n2\n", LinesEnd::Ended)
}

// Whether a day has the commands of the other clerk alone, since the keyboard of the first was not opened.
fn ends_unopened(day: &LeftDay) -> bool {
    is_other_whole(day)
        && day.count() == Some(3)
        && day.all_heard
        && day.is_whole(1, b"", LinesEnd::Unopened)
}

#[test]
fn a_keyboard_that_cannot_be_opened_ends_its_station(rt: HostRuntime) -> Result<(), Fail> {
    let clerks = [
        Clerk::new(&[], Then::Unopened),
        Clerk::new(OTHER, Then::Ends),
    ];
    let day = live(&rt, "unopened", &clerks)?;
    assert!(rt; ends_unopened(&day));
    Ok(())
}

// Screens: how many bytes they take, or that they can't be opened. In whole answers, in parts of them, and none.
const ROOMS: [Option<usize>; 7] = [None, Some(0), Some(1), Some(3), Some(4), Some(5), Some(30)];

// Whether a text has so many lines, each of them OK.
fn are_oks(text: &[u8], lines: u64) -> bool {
    for piece in text.chunks(3) {
        if piece != b"OK\n".as_slice() {
            return false;
        }
    }
    text.len() as u64 == lines.saturating_mul(3)
}

// Whether a screen of this room has the first bytes of a file, and is not there where it has no room.
fn is_front(shown: &Option<Vec<u8>>, room: Option<usize>, file: &[u8]) -> bool {
    match (shown, room) {
        (None, None) => true,
        (Some(shown), Some(room)) => shown.len() == room && file.starts_with(shown.as_slice()),
        _ => false,
    }
}

// Whether a station left so many answers in its file, the first of them on a screen of this room, and its later lines are not performed.
fn is_cut_off(left: Option<&Left>, room: Option<usize>, answers: u64) -> bool {
    match left {
        Some(
            Left {
                shown,
                end: LinesEnd::Unprinted,
                all_printed,
                file: Some(file),
            },
        ) => {
            // Where nothing was answered all of that was printed.
            let is_said = !all_printed || answers == 0;
            is_said && are_oks(file.as_slice(), answers) && is_front(shown, room, file.as_slice())
        }
        _ => false,
    }
}

// Whether a day has the commands of the other clerk, and those of the first up to where a screen of this room takes no more.
fn is_unprinted(day: &LeftDay, room: Option<usize>) -> bool {
    match day.count().unwrap_or(0).checked_sub(3) {
        Some(answers) => {
            day.status == ExitCode::from(4u8)
                && is_other_whole(day)
                && is_cut_off(day.station(1), room, answers)
        }
        None => false,
    }
}

// Whether a clerk whose screen has this room is heard no more once it takes nothing, while the other is.
fn ends_unprinted<R: Runtime + Files<File = File> + AllocGlobal + Threads + Wait + Sync>(
    rt: &R,
    room: Option<usize>,
) -> Result<bool, Fail> {
    let typing = Clerk {
        turns: &[(1, 0, b"USE T\n"), (1, 0, b"GO 2\n")],
        then: Then::Repeats,
        waits: None,
        room,
    };
    let day = live(rt, "unprinted", &[typing, Clerk::new(OTHER, Then::Ends)])?;
    Ok(is_unprinted(&day, room))
}

#[test]
fn a_screen_that_takes_no_more_ends_its_station(rt: HostRuntime) -> Result<(), Fail> {
    for room in ROOMS {
        assert!(rt; ends_unprinted(&rt, room)?);
    }
    Ok(())
}
