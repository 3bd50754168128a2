//! What the day and the threads of the stations tell each other beside lines and answers.

use crate::bell::Bell;
use std::alloc::{AllocError, Global};
use std::sync::Wait;
use std::sync::atomic::{AtomicBool, AtomicUsize, Ordering};

/// How many lines of a station are heard before the day takes them.
pub const LINES_AHEAD: usize = 256;

/// How many answers of a station may wait to be printed. Where there are half as many the station's lines wait, too: a group
/// has fewer lines than the other half.
pub const ANSWERS_AHEAD: usize = 4_096;

/// A station, as its threads and the day see it.
#[derive(Drop)]
pub(crate) struct Place {
    // Wakes the station's threads.
    pub(crate) bell: Bell,
    // How many answers wait to be printed.
    waiting: AtomicUsize,
    // Its answers can't be printed any more.
    is_gone: AtomicBool,
}

impl Place {
    fn new() -> Place {
        Place {
            bell: Bell::new(),
            waiting: AtomicUsize::new(0),
            is_gone: AtomicBool::new(false),
        }
    }

    // One answer more waits.
    pub(crate) fn add_waiting(&self) {
        self.waiting.fetch_add(1, Ordering::SeqCst);
    }

    // One answer fewer waits. Says whether so many did that no line was taken.
    pub(crate) fn take_waiting(&self) -> bool {
        self.waiting.fetch_sub(1, Ordering::SeqCst) >= ANSWERS_AHEAD / 2
    }

    // Whether so many answers wait that no line is taken.
    pub(crate) fn is_busy(&self) -> bool {
        self.waiting.load(Ordering::SeqCst) >= ANSWERS_AHEAD / 2
    }

    // The station's answers can't be printed any more.
    pub(crate) fn set_gone(&self) {
        self.is_gone.store(true, Ordering::SeqCst);
    }

    pub(crate) fn is_gone(&self) -> bool {
        self.is_gone.load(Ordering::SeqCst)
    }
}

/// The stations of a day, as its threads see them.
#[derive(Drop)]
pub(crate) struct Office {
    // Wakes the day.
    pub(crate) day: Bell,
    has_begun: AtomicBool,
    is_over: AtomicBool,
    places: Vec<Place>,
}

impl Office {
    // Of so many stations. The day has not begun.
    pub(crate) fn new(alloc: Global, stations: usize) -> Result<Office, AllocError> {
        let mut places = Vec::new(alloc);
        for _ in 0..stations {
            places.push(Place::new())?;
        }
        Ok(Office {
            day: Bell::new(),
            has_begun: AtomicBool::new(false),
            is_over: AtomicBool::new(false),
            places,
        })
    }

    // The place of a station, of those from 1 on.
    pub(crate) fn place(&self, station: u32) -> Option<&Place> {
        self.places.get((station as usize).checked_sub(1)?)
    }

    // Wakes each station's threads.
    pub(crate) fn wake_all<R: Wait>(&self, rt: &R) {
        for place in &self.places {
            place.bell.wake(rt);
        }
    }

    // The stations' files may be opened.
    pub(crate) fn begin<R: Wait>(&self, rt: &R) {
        if !self.has_begun.swap(true, Ordering::SeqCst) {
            self.wake_all(rt);
        }
    }

    // No more lines are taken.
    pub(crate) fn end<R: Wait>(&self, rt: &R) {
        self.is_over.store(true, Ordering::SeqCst);
        self.wake_all(rt);
    }

    pub(crate) fn is_over(&self) -> bool {
        self.is_over.load(Ordering::SeqCst)
    }

    // Waits until the day begins. `false` where it is over before.
    pub(crate) fn wait_for_begin<R: Wait>(&self, rt: &R, place: &Place) -> bool {
        for _ in rt.forever() {
            let count = place.bell.count(rt);
            // Asked first: where a day that has begun is over, this is known then.
            let is_over = self.is_over();
            if self.has_begun.load(Ordering::SeqCst) {
                return true;
            }
            if is_over {
                return false;
            }
            place.bell.wait_past(rt, count);
        }
        unreachable!()
    }
}
