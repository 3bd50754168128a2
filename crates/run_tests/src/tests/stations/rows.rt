//! Status rows as stations are shown them that work at the same time.

use super::{repeated, run_sixteen};
use byte_io::Bytes;
use office_run::Outcome;
use station_lines::lines;
use std::test::Fail;

// How often each of the 16 stations goes through its eight lines.
const ROUNDS: usize = 250;

// Every other line shows the status row.
const ROUND: &[u8] = b"USE L
DISPLAY STATUS
? FLOCK()
DISPLAY STATUS
APPEND BLANK
DISPLAY STATUS
UNLOCK
DISPLAY STATUS
";

// The numbers of a status row's line, each of which stands after a blank.
fn numbers_of(line: &[u8]) -> [u64; 23] {
    let mut numbers = [0u64; 23];
    let mut blanks = 0usize;
    for byte in line {
        if *byte == b' ' {
            blanks = blanks.wrapping_add(1);
        } else if *byte >= b'0' && *byte <= b'9' && blanks > 0 && blanks <= 23 {
            let digit = u64::from(*byte - b'0');
            numbers[blanks - 1] = numbers[blanks - 1].wrapping_mul(10).wrapping_add(digit);
        }
    }
    numbers
}

// Whether the rows of a station's answers have lengths that don't fall, none below the number of its own entries
// before it, and zeros for the nine tables that don't exist.
fn never_go_back(answers: &Bytes) -> bool {
    let mut rest = lines(answers.as_slice());
    let mut own = 0u64;
    let mut last = 0u64;
    for index in 0..8 * ROUNDS {
        let Some(line) = rest.next_line() else {
            return false;
        };
        if index % 2 == 0 {
            own = own.wrapping_add(1);
            continue;
        }
        let row = numbers_of(line);
        let fell = row[0] < last || row[0] < own;
        if fell || !line.starts_with(b"STATUS ") || row.iter().skip(5).any(|number| *number != 0) {
            return false;
        }
        last = row[0];
    }
    true
}

// Whether the journal has every other line, and the rows of each station's answers never go back.
fn has_rows(outcome: &Outcome) -> bool {
    outcome.closed.entry_count() == 16_000
        && outcome.answers.len() == 16
        && outcome.answers.iter().all(|answers| never_go_back(answers))
}

#[test]
fn rows_never_go_back(rt: HostRuntime) -> Result<(), Fail> {
    let script = repeated(rt.alloc(), ROUND, ROUNDS)?;
    let outcome = run_sixteen(&rt, rt.alloc(), script.as_slice())?;
    assert!(rt; has_rows(&outcome));
    Ok(())
}
