//! Days of two clerks whose answers are all printed. The answers are those of dBASE's rules on areas and locks.

use crate::clerks::{ALL, Clerk, Then, Turn};
use crate::living::{LeftDay, live};
use live_day::{MAX_LINE_BYTES, TypingFault};
use live_stations::LinesEnd;
use std::alloc::{AllocError, Global};
use std::fs::File;
use std::rt::{Files, Runtime};
use std::sync::Wait;
use std::test::Fail;
use std::thread::Threads;

// What a clerk types, what comes then, what is answered, also in the answer file, and how the lines end.
type Row<'a> = (&'a [Turn<'a>], Then, &'a [u8], LinesEnd);

// Two clerks, and how many commands their day has.
type Case<'a> = ([Row<'a>; 2], u64);

const CASES: [Case<'static>; 6] = [
    // Each has the answers of the own lines, and nothing that is typed after QUIT is performed.
    (
        [
            (
                &[(1, 0, b"USE T\n? RLOCK()\n? RECNO()\nQUIT\n? RECNO()\n")],
                Then::Ends,
                b"OK\n.T.\n1\n",
                LinesEnd::Quit,
            ),
            (
                &[(1, 0, b"USE T\nGO 2\n? RECNO()\nnonsense\n? RECNO()\n")],
                Then::Ends,
                b"OK\nOK\n2\nREFUSED 19 BadCommand\n2\n",
                LinesEnd::Ended,
            ),
        ],
        8,
    ),
    // A record that station 1 has locked is refused to station 2, until it is unlocked.
    (
        [
            (
                &[(1, 0, b"USE T\n? RLOCK()\n"), (2, 3, b"UNLOCK\n")],
                Then::Ends,
                b"OK\n.T.\nOK\n",
                LinesEnd::Ended,
            ),
            (
                &[
                    (1, 2, b"USE T\n? RLOCK()\nDELETE\n"),
                    (1, 3, b"? RLOCK()\nDELETE\n? DELETED()\n"),
                ],
                Then::Ends,
                b"OK\n.F.\nREFUSED 5 NotLocked\n.T.\nOK\n.T.\n",
                LinesEnd::Ended,
            ),
        ],
        9,
    ),
    // One ends at once, in letters of either case, and the other goes on.
    (
        [
            (
                &[(1, 0, b"quiT\nUSE T\n")],
                Then::Fails,
                b"",
                LinesEnd::Quit,
            ),
            (
                &[
                    (2, 0, b"USE T\r\n"),
                    (2, 1, b"GO 2\r\n"),
                    (2, 2, b"? RECNO()\r\nQUIT\r\n"),
                ],
                Then::Ends,
                b"OK\nOK\n2\n",
                LinesEnd::Quit,
            ),
        ],
        3,
    ),
    // No station gives its keyboard away.
    (
        [
            (
                &[(
                    1,
                    0,
                    b"STATION 2\nUSE T\nstation 1\nStation 9\nSTATION X\nSTATION \nGO 2\n",
                )],
                Then::Ends,
                b"REFUSED 19 BadCommand\nOK\nREFUSED 19 BadCommand\nREFUSED 19 BadCommand\n\
REFUSED 19 BadCommand\nREFUSED 19 BadCommand\nOK\n",
                LinesEnd::Ended,
            ),
            (
                &[(
                    1,
                    0,
                    b"STATION 1\nSTATION 2\nSTATION\nSTATIONS 1\n STATION 1\n",
                )],
                Then::Ends,
                b"REFUSED 19 BadCommand\nREFUSED 19 BadCommand\nREFUSED 19 BadCommand\n\
REFUSED 19 BadCommand\nREFUSED 19 BadCommand\n",
                LinesEnd::Ended,
            ),
        ],
        12,
    ),
    // A blank line and a remark have no answer.
    (
        [
            (
                &[(1, 0, b"\n\n   \nUSE T\n\n* GO 2\n? RECNO()\n\n")],
                Then::Ends,
                b"OK\n1\n",
                LinesEnd::Ended,
            ),
            (&[(1, 0, b"\n\nQUIT\n")], Then::Ends, b"", LinesEnd::Quit),
        ],
        2,
    ),
    // A keyboard that fails ends its own station alone, and a line that it fails in is not performed.
    (
        [
            (
                &[(1, 0, b"USE T\nGO 2\n? RECNO()")],
                Then::Fails,
                b"OK\nOK\n",
                LinesEnd::Unread(TypingFault::Failed),
            ),
            (
                &[(1, 2, b"USE T\n? RECNO()\n")],
                Then::Ends,
                b"OK\n1\n",
                LinesEnd::Ended,
            ),
        ],
        4,
    ),
];

// Whether a day of two clerks went as their rows say, and is told as one of so many commands.
fn went_so(alloc: Global, day: &LeftDay, (rows, count): &Case<'_>) -> Result<bool, Fail> {
    let said = format!(in alloc; "station_prompt: {count} commands\n")?;
    let [(_, _, one, one_end), (_, _, two, two_end)] = rows;
    Ok(
        day.is_whole(1, one, *one_end)
            && day.is_whole(2, two, *two_end)
            && day.is_told(0, said.as_str(), "")
            && day.all_heard
            && day.opens == 4,
    )
}

// Whether a day of two clerks goes as their rows say.
fn goes_so<R: Runtime + Files<File = File> + AllocGlobal + Threads + Wait + Sync>(
    rt: &R,
    case: &Case<'_>,
) -> Result<bool, Fail> {
    let ([(one, one_then, _, _), (two, two_then, _, _)], _) = case;
    let clerks = [Clerk::new(one, *one_then), Clerk::new(two, *two_then)];
    let day = live(rt, "days", &clerks)?;
    went_so(rt.alloc(), &day, case)
}

#[test]
fn each_clerk_has_the_answers_of_the_own_lines(rt: HostRuntime) -> Result<(), Fail> {
    for case in &CASES {
        assert!(rt; goes_so(&rt, case)?);
    }
    Ok(())
}

// Adds a command with blanks after it, so many bytes in all, and LF.
fn push_line(text: &mut Vec<u8>, command: &[u8], bytes: usize) -> Result<(), AllocError> {
    text.extend_from_slice(command)?;
    for _ in command.len()..bytes {
        text.push(b' ')?;
    }
    text.push(b'\n')?;
    Ok(())
}

// A line with as many bytes as one may have, one with a byte more, one with very many, and a short one.
fn long_text(alloc: Global) -> Result<Vec<u8>, AllocError> {
    let lines: [(&[u8], usize); 4] = [
        (b"USE T", MAX_LINE_BYTES),
        (b"GO 2", MAX_LINE_BYTES.saturating_add(1)),
        (b"STATION 2", MAX_LINE_BYTES.saturating_mul(3)),
        (b"? RECNO()", 0),
    ];
    let mut text = Vec::new(alloc);
    for (command, bytes) in lines {
        push_line(&mut text, command, bytes)?;
    }
    Ok(text)
}

// A day of two clerks who type the same text, all at once.
fn live_of<R: Runtime + Files<File = File> + AllocGlobal + Threads + Wait + Sync>(
    rt: &R,
    text: &[u8],
) -> Result<LeftDay, Fail> {
    let clerk = Clerk {
        turns: &[(1, 0, text)],
        then: Then::Ends,
        waits: None,
        room: Some(ALL),
    };
    live(rt, "days", &[clerk, clerk])
}

// What both clerks are answered who type such lines, as in a row of the cases.
const LONG_LINES: Case<'static> = (
    [
        (
            &[],
            Then::Ends,
            b"OK\nREFUSED 19 BadCommand\nREFUSED 19 BadCommand\n1\n",
            LinesEnd::Ended,
        ),
        (
            &[],
            Then::Ends,
            b"OK\nREFUSED 19 BadCommand\nREFUSED 19 BadCommand\n1\n",
            LinesEnd::Ended,
        ),
    ],
    8,
);

#[test]
fn a_line_that_is_too_long_cannot_be_read(rt: HostRuntime) -> Result<(), Fail> {
    let text = long_text(rt.alloc())?;
    let day = live_of(&rt, text.as_slice())?;
    assert!(rt; went_so(rt.alloc(), &day, &LONG_LINES)?);
    Ok(())
}
