//! Devices that fail where a case says so.

use std::cell::Cell;

/// How many more calls of the devices of a case succeed.
#[derive(Drop)]
pub struct Devices {
    loads: Cell<u64>,
    calls: Cell<u64>,
    is_once: Cell<bool>,
    has_failed: Cell<bool>,
}

impl Devices {
    /// Devices of which no call fails.
    pub fn new() -> Devices {
        Devices {
            loads: Cell::new(u64::MAX),
            calls: Cell::new(u64::MAX),
            is_once: Cell::new(false),
            has_failed: Cell::new(false),
        }
    }

    /// From now on so many loads of a file and so many calls of a disk succeed. The one after them fails, and all others after it
    /// unless it fails once.
    pub fn allow(&self, loads: u64, calls: u64, is_once: bool) {
        self.loads.set(loads);
        self.calls.set(calls);
        self.is_once.set(is_once);
        self.has_failed.set(false);
    }

    /// From now on no call fails.
    pub fn allow_all(&self) {
        self.allow(u64::MAX, u64::MAX, false);
    }

    /// Whether a call has failed since then.
    pub fn has_failed(&self) -> bool {
        self.has_failed.get()
    }

    /// Whether a load of a file succeeds.
    pub(crate) fn loads(&self) -> bool {
        self.spend(&self.loads)
    }

    /// Whether a call of a disk succeeds.
    pub(crate) fn calls(&self) -> bool {
        self.spend(&self.calls)
    }

    // Takes one from a count of calls: whether the call succeeds.
    fn spend(&self, left: &Cell<u64>) -> bool {
        let count = left.get();
        if count > 0 {
            left.set(count - 1);
            return true;
        }
        if self.is_once.get() {
            left.set(u64::MAX);
        }
        self.has_failed.set(true);
        false
    }
}
