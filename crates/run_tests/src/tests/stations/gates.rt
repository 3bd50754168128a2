//! Gates that have stations wait for one another.

use office_run::Gate;
use std::sync::atomic::{AtomicU64, Ordering};

// How often a gate looks before it gives up waiting.
const TURNS: u64 = 1_000_000_000;

/// Waits until a counter has come to a number, and tells whether it has.
pub(super) fn has_come(counter: &AtomicU64, number: u64) -> bool {
    for _ in 0..TURNS {
        if counter.load(Ordering::SeqCst) >= number {
            return true;
        }
    }
    false
}

/// Lets the seven calls of two stations be run in an order, one after another, and then a fourth line of station 1.
#[derive(Drop)]
pub(super) struct InOrder {
    // The station and the number of each line.
    order: [(u32, u64); 8],
    // How many lines were run.
    done: AtomicU64,
    // How often a line was run before its turn.
    overrun: AtomicU64,
}

impl InOrder {
    pub(super) fn new() -> InOrder {
        InOrder {
            order: [
                (1, 1),
                (2, 1),
                (1, 2),
                (2, 2),
                (2, 3),
                (1, 3),
                (2, 4),
                (1, 4),
            ],
            done: AtomicU64::new(0),
            overrun: AtomicU64::new(0),
        }
    }

    /// Whether each line was run in its turn.
    pub(super) fn was_kept(&self) -> bool {
        self.overrun.load(Ordering::SeqCst) == 0
    }

    // How many lines come before this one.
    fn place_of(&self, station: u32, line: u64) -> u64 {
        let place = self.order.iter().position(|next| *next == (station, line));
        place.unwrap_or(0) as u64
    }
}

impl Gate for InOrder {
    fn before(&self, station: u32, line: u64) {
        if !has_come(&self.done, self.place_of(station, line)) {
            self.overrun.fetch_add(1, Ordering::SeqCst);
        }
    }

    fn after(&self, _station: u32, _line: u64) {
        self.done.fetch_add(1, Ordering::SeqCst);
    }
}

/// Has two stations wait for one another before each line.
#[derive(Drop)]
pub(super) struct Meeting {
    // The line that each station has come to.
    first: AtomicU64,
    second: AtomicU64,
    // How often a station waited in vain.
    overrun: AtomicU64,
}

impl Meeting {
    pub(super) fn new() -> Meeting {
        Meeting {
            first: AtomicU64::new(0),
            second: AtomicU64::new(0),
            overrun: AtomicU64::new(0),
        }
    }

    /// Whether no station waited in vain.
    pub(super) fn was_kept(&self) -> bool {
        self.overrun.load(Ordering::SeqCst) == 0
    }
}

impl Gate for Meeting {
    fn before(&self, station: u32, line: u64) {
        let (own, other) = if station == 1 {
            (&self.first, &self.second)
        } else {
            (&self.second, &self.first)
        };
        own.store(line, Ordering::SeqCst);
        if !has_come(other, line) {
            self.overrun.fetch_add(1, Ordering::SeqCst);
        }
    }

    fn after(&self, _station: u32, _line: u64) {}
}

/// Has two stations wait until both have run their first lines.
#[derive(Drop)]
pub(super) struct FirstLines {
    // How many first lines were run.
    done: AtomicU64,
}

impl FirstLines {
    pub(super) fn new() -> FirstLines {
        FirstLines {
            done: AtomicU64::new(0),
        }
    }
}

impl Gate for FirstLines {
    fn before(&self, _station: u32, line: u64) {
        if line == 2 {
            has_come(&self.done, 2);
        }
    }

    fn after(&self, _station: u32, line: u64) {
        if line == 1 {
            self.done.fetch_add(1, Ordering::SeqCst);
        }
    }
}
