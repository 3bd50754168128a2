//! Memory taken away from the process, but for some rooms.

use std::alloc::{AllocError, Global};

// The most blocks that are taken.
const BLOCKS: usize = 200_000;

// The largest block that is asked for.
const LARGEST: usize = 1 << 40;

// How often the size is halved, down to 4,096 bytes.
const HALVINGS: usize = 29;

/// The blocks that are taken.
pub(super) type Hoard = Vec<Vec<u8>>;

// Takes blocks of one size until one is refused.
fn take(alloc: Global, held: &mut Hoard, size: usize) {
    for _ in 0..BLOCKS {
        if held.capacity() <= held.len() {
            return;
        }
        match Vec::with_capacity(alloc, size) {
            Ok(block) => {
                let _ = held.push(block);
            }
            Err(_) => return,
        }
    }
}

// `count` rooms of one size, which are not touched.
fn rooms(alloc: Global, count: usize, size: usize) -> Result<Hoard, AllocError> {
    let mut rooms = Vec::new(alloc);
    for _ in 0..count {
        rooms.push(Vec::with_capacity(alloc, size)?)?;
    }
    Ok(rooms)
}

/// Takes all memory that the process can get, but `count` rooms of one size. Dropping what is answered gives it back.
pub(super) fn hoard(alloc: Global, count: usize, size: usize) -> Result<Hoard, AllocError> {
    let mut held = Vec::with_capacity(alloc, BLOCKS)?;
    let rooms = rooms(alloc, count, size)?;
    let mut block = LARGEST;
    for _ in 0..HALVINGS {
        take(alloc, &mut held, block);
        block /= 2;
    }
    drop(rooms);
    Ok(held)
}
