//! How threads wait for one another.

use std::sync::{Condvar, Mutex, Wait};

/// Wakes threads where something has changed that they may wait for.
///
/// Who waits asks how often it has woken, looks whether there is something to do, and where there is nothing waits until it has woken once more:
/// so no change is missed that comes between. No contract speaks of it: it says when a thread looks, and nothing of what it finds.
#[derive(Drop)]
pub(crate) struct Bell {
    count: Mutex<u64>,
    woken: Condvar,
}

impl Bell {
    pub(crate) fn new() -> Bell {
        Bell {
            count: Mutex::new(0),
            woken: Condvar::new(),
        }
    }

    // Wakes all who wait.
    pub(crate) fn wake<R: Wait>(&self, rt: &R) {
        let mut count = self.count.lock(rt);
        *count = count.wrapping_add(1);
        self.woken.notify_all();
    }

    // How often it has woken.
    pub(crate) fn count<R: Wait>(&self, rt: &R) -> u64 {
        *self.count.lock(rt)
    }

    // Waits until it has woken more often than this.
    pub(crate) fn wait_past<R: Wait>(&self, rt: &R, count: u64) {
        let woken = self
            .woken
            .wait_while(rt, self.count.lock(rt), |now| *now == count);
        drop(woken);
    }
}
