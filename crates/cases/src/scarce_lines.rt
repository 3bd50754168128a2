//! Lines of stations where memory is scarce.

use crate::station_steps::perform_line;
use case_files::Trouble;
use catalogue_core::{Answer, Catalogue, Command, Stop};
use scarce::Hoard;
use station_lines::{Line, answer_line, parse_line};
use std::alloc::{AllocError, Global};

/// What is left to a case with scarce memory between its lines, for the lines' own hoards.
const ROOM: usize = 1 << 28;

/// The largest block that is asked for, and how often it is halved.
const LARGEST: usize = 1 << 40;

const HALVINGS: usize = 20;

/// The most blocks.
const MAX_BLOCKS: usize = 200_000;

/// All memory that the process can get but some room. A hoard beside it has little to take, so it is quick for each line.
#[derive(Drop)]
pub(crate) struct Walls {
    held: Vec<Vec<u8>>,
}

impl Walls {
    /// Takes the memory.
    pub(crate) fn new(alloc: Global) -> Result<Walls, AllocError> {
        let mut walls = Walls {
            held: Vec::with_capacity(alloc, MAX_BLOCKS)?,
        };
        let room: Vec<u8> = Vec::with_capacity(alloc, ROOM)?;
        let mut size = LARGEST;
        for _ in 0..HALVINGS {
            walls.take(alloc, size);
            size /= 2;
        }
        drop(room);
        Ok(walls)
    }

    // Takes blocks of one size until one is refused.
    fn take(&mut self, alloc: Global, size: usize) {
        for _ in 0..MAX_BLOCKS {
            if self.held.capacity() <= self.held.len() {
                return;
            }
            match Vec::with_capacity(alloc, size) {
                Ok(block) => {
                    let _ = self.held.push(block);
                }
                Err(_) => return,
            }
        }
    }
}

/// The most bytes that a command needs, and the distance of two sizes that it is given.
const BYTES: usize = 32_768;

const STEP: usize = 16;

/// Performs a line with no memory left, then with 16 bytes, and so on until it is answered. Each time before, it must be stopped for
/// want of memory, and the status row must be as it was.
pub(crate) fn perform_scarce(
    alloc: Global,
    catalogue: &mut Catalogue,
    station: u32,
    line: &[u8],
) -> Result<Vec<u8>, Trouble> {
    let Line::Run(command) = parse_line(alloc, line)? else {
        return perform_line(alloc, catalogue, station, line);
    };
    let answer = answer_after_refusals(alloc, catalogue, station, &command)?;
    Ok(answer_line(alloc, &answer)?.into_vec())
}

// The answer of a command, after each request for memory was refused.
fn answer_after_refusals(
    alloc: Global,
    catalogue: &mut Catalogue,
    station: u32,
    command: &Command,
) -> Result<Answer, Trouble> {
    let mut hoard = Hoard::new(alloc, BYTES / STEP, 2 * BYTES)?;
    for step in 0..BYTES / STEP {
        if !hoard.leave(step * STEP) {
            return Err(Trouble::Bad("no room is left"));
        }
        if let Some(answer) = try_once(alloc, catalogue, station, command)? {
            return Ok(answer);
        }
    }
    Err(Trouble::Bad("the line is never answered"))
}

// The answer of a command; none where memory is refused, and nothing has changed.
fn try_once(
    alloc: Global,
    catalogue: &mut Catalogue,
    station: u32,
    command: &Command,
) -> Result<Option<Answer>, Trouble> {
    if station == 0 || station > catalogue.station_count() {
        return Err(Trouble::Bad("no such station"));
    }
    let before = catalogue.status();
    match catalogue.perform(alloc, station, command) {
        Ok((_, answer)) => Ok(Some(answer)),
        Err(Stop::NoMemory) if catalogue.status().words() == before.words() => Ok(None),
        Err(_) => Err(Trouble::Bad("a refusal of memory changes something")),
    }
}
