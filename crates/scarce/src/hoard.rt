//! All memory that a process can get.

use std::alloc::{AllocError, Global};

// The most blocks that a hoard holds.
const MAX_BLOCKS: usize = 200_000;

// The largest block that is asked for.
const LARGEST: usize = 1 << 40;

// Blocks of this size and less are kept by the C library in a list for each size, and given to requests of that size alone.
const SMALL: usize = 1032;

// The distance of two sizes of small blocks.
const STEP: usize = 16;

// The least block.
const LEAST: usize = 24;

/// All memory that the process could get, and rooms of one size that can be let go one by one.
#[derive(Drop)]
pub struct Hoard {
    alloc: Global,
    size: usize,
    rooms: Vec<Vec<u8>>,
    held: Vec<Vec<u8>>,
}

impl Hoard {
    /// A hoard that holds nothing yet but so many rooms of a size.
    pub fn new(alloc: Global, count: usize, size: usize) -> Result<Hoard, AllocError> {
        let held = Vec::with_capacity(alloc, MAX_BLOCKS)?;
        let mut rooms = Vec::with_capacity(alloc, count)?;
        for _ in 0..count {
            rooms.push(Vec::with_capacity(alloc, size)?)?;
        }
        Ok(Hoard {
            alloc,
            size,
            rooms,
            held,
        })
    }

    // Takes blocks of one size until one is refused.
    fn take(&mut self, size: usize) {
        for _ in 0..MAX_BLOCKS {
            if self.held.capacity() <= self.held.len() {
                return;
            }
            match Vec::with_capacity(self.alloc, size) {
                Ok(block) => {
                    let _ = self.held.push(block);
                }
                Err(_) => return,
            }
        }
    }

    // Takes all that is left, the largest blocks first.
    fn take_all(&mut self) {
        let mut size = LARGEST;
        for _ in 0..30 {
            if SMALL < size {
                self.take(size);
            }
            size /= 2;
        }
        let mut size = SMALL;
        for _ in 0..SMALL / STEP {
            if LEAST <= size {
                self.take(size);
            }
            size = size.saturating_sub(STEP);
        }
    }

    /// Takes all that is left, and leaves these bytes in one piece. False where there is no room any more.
    pub fn leave(&mut self, bytes: usize) -> bool {
        self.take_all();
        if bytes == 0 {
            return true;
        }
        let Some(room) = self.rooms.pop() else {
            return false;
        };
        drop(room);
        match Vec::with_capacity(self.alloc, self.size.saturating_sub(bytes)) {
            Ok(rest) => self.held.push(rest).is_ok(),
            Err(_) => false,
        }
    }
}
