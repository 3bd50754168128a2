//! Calls that start a thread, which asks for memory too.
//!
//! A thread has no part of its own in what the C library holds, where a hoard leaves no room for one. Each of its requests is
//! then given whole pages, and so are those of the function that starts it, once there has been a thread.

use crate::hoard::Hoard;
use crate::{Attempt, STEP};
use std::alloc::{AllocError, Global};

// The size of a room in which a thread's stack finds place. A part for the thread in what the C library holds does not.
const STACK: usize = 1 << 26;

// The size of a page.
const PAGE: usize = 4096;

/// How often a call that starts one thread is refused memory before it ends as it is to.
#[derive(Clone, Copy, Debug, PartialEq, Eq)]
pub struct ThreadRefusals {
    /// While there is no room for the thread's stack.
    pub without_stack: usize,
    /// While one request after another is refused, of the thread and of the function that starts it.
    pub with_stack: usize,
}

// What a sweep is about to let go.
#[derive(Clone, Copy, PartialEq, Eq)]
enum Part {
    Pieces,
    Stack,
    Pages,
    Done,
}

// How far a sweep has come.
#[derive(Drop)]
struct Sweep {
    // How many pieces are let go before a stack is.
    pieces: usize,
    part: Part,
    step: usize,
    found: ThreadRefusals,
}

impl Sweep {
    fn new(pieces: usize) -> Sweep {
        Sweep {
            pieces,
            part: Part::Pieces,
            step: 0,
            found: ThreadRefusals {
                without_stack: 0,
                with_stack: 0,
            },
        }
    }

    // Lets go what comes next; false where there is no room any more.
    fn lets_go(&self, small: &mut Hoard, large: &mut Hoard) -> bool {
        match self.part {
            Part::Pieces => small.leave(self.step.saturating_mul(STEP)),
            Part::Stack => large.leave(STACK),
            Part::Pages | Part::Done => large.leave(self.step.saturating_mul(PAGE)),
        }
    }

    fn go_to(&mut self, part: Part) {
        self.part = part;
        self.step = 0;
    }

    // Counts a refusal. A stack is let go after the last of the pieces.
    fn count(&mut self) {
        self.step = self.step.saturating_add(1);
        if self.part == Part::Pages {
            self.found.with_stack = self.step;
            return;
        }
        self.found.without_stack = self.step;
        if self.step >= self.pieces {
            self.go_to(Part::Stack);
        }
    }

    // Goes on after a call that ended so; false where it may not end so here.
    fn goes_on(&mut self, attempt: Attempt) -> bool {
        match (self.part, attempt) {
            (Part::Pieces | Part::Pages, Attempt::Refused) => self.count(),
            // The C library keeps the stack for the next thread.
            (Part::Stack, Attempt::Right) => self.go_to(Part::Pages),
            (Part::Pages, Attempt::Right) => self.go_to(Part::Done),
            _ => return false,
        }
        true
    }
}

/// How often a call that starts one thread is refused memory before it ends as it is to, where it needs at most so many bytes
/// before it starts the thread, and that many pages in all; `None` where it ends in any other way. The process has started no
/// thread before.
pub fn thread_refusals<F: FnMut() -> Attempt>(
    alloc: Global,
    bytes: usize,
    pages: usize,
    mut call: F,
) -> Result<Option<ThreadRefusals>, AllocError>
    requires callable { F.IsAlwaysCallable call }
{
    let pieces = bytes / STEP;
    let mut small = Hoard::new(alloc, pieces, bytes.saturating_mul(2))?;
    let mut large = Hoard::new(alloc, pages.saturating_add(1), STACK)?;
    let mut sweep = Sweep::new(pieces);
    for _ in 0..pieces.saturating_add(pages).saturating_add(1) {
        if !sweep.lets_go(&mut small, &mut large) || !sweep.goes_on(call()) {
            return Ok(None);
        }
        if sweep.part == Part::Done {
            return Ok(Some(sweep.found));
        }
    }
    Ok(None)
}
