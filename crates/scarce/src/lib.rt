//! Memory made scarce for a test: each request of a call is refused in turn, by true want of memory.
//!
//! Begin at [`refusals`]. A [`Hoard`] takes all memory that the process can get, and lets go only so much as it is told; a call
//! that is made again and again with a little more each time meets its first refusal at one request after another.
//!
//! What the call works on is made before, and the call is made once with ample memory: the stack has grown then, and a hoard
//! leaves it no room. While a hoard is held nothing is printed, and answers are compared by their values. [`thread_refusals`]
//! does the same for a call that starts a thread.
#![tactic(auto)]

mod hoard;
mod threads;

pub use crate::hoard::Hoard;
pub use crate::threads::{ThreadRefusals, thread_refusals};
use std::alloc::{AllocError, Global};

/// How an attempt at a call ended that takes memory.
#[derive(Clone, Copy, Debug, PartialEq, Eq)]
pub enum Attempt {
    /// With the answer that it gives where memory is ample.
    Right,
    /// For want of memory, with all that it promises to keep as it was.
    Refused,
    /// In any other way.
    Wrong,
}

impl Attempt {
    /// An attempt at a call whose answer is as wanted, or is not.
    pub fn right_if(is_right: bool) -> Attempt {
        if is_right {
            Attempt::Right
        } else {
            Attempt::Wrong
        }
    }

    /// An attempt that was refused memory, where what the call promises to keep is as it was, or is not.
    pub fn refused_if(is_kept: bool) -> Attempt {
        if is_kept {
            Attempt::Refused
        } else {
            Attempt::Wrong
        }
    }
}

// The distance of two sizes of blocks, by which a call has more memory each time.
const STEP: usize = 16;

/// How often a call that needs at most so many bytes is refused memory before it ends as it is to, 0 where it takes none; `None`
/// where it ends in any other way.
pub fn refusals<F: FnMut() -> Attempt>(
    alloc: Global,
    bytes: usize,
    mut call: F,
) -> Result<Option<usize>, AllocError>
    requires callable { F.IsAlwaysCallable call }
{
    let mut hoard = Hoard::new(alloc, bytes / STEP, bytes.saturating_mul(2))?;
    for step in 0..bytes / STEP {
        if !hoard.leave(step * STEP) {
            return Ok(None);
        }
        match call() {
            Attempt::Right => return Ok(Some(step)),
            Attempt::Refused => {}
            Attempt::Wrong => return Ok(None),
        }
    }
    Ok(None)
}
