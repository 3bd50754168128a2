//! A sink in memory with limits.

ghost use Rattle.std.specs.Prelude.{◌≡◌, []};

use crate::sink::memory::MemorySink;
use crate::sink::{ByteSink, SinkFault};
use std::alloc::Global;

/// A sink in memory that takes a few bytes a write and fails after a number of writes, as a slow device
/// or a full one. By it tests see what a writer leaves behind at each of its writes.
#[derive(Debug, Drop)]
pub struct LimitedSink {
    /// What has been written, and how often a write has failed.
    pub taken: MemorySink,
    /// How many writes were done.
    pub writes: u64,
    /// How many bytes a write takes at most; at 0 it takes one.
    pub most: usize,
    /// After how many writes it fails.
    pub fails_after: u64,
}

impl LimitedSink {
    /// A sink into which nothing has been written. It takes no memory.
    pub fn new(alloc: Global, most: usize, fails_after: u64) -> LimitedSink
        ensures bytes { result.taken.bytes.items ≡ [] }
        ensures failures { result.taken.failures ≡ 0 }
        ensures writes { result.writes ≡ 0 }
        ensures most { result.most ≡ most }
        ensures fails_after { result.fails_after ≡ fails_after }
    {
        LimitedSink {
            taken: MemorySink::new(alloc),
            writes: 0,
            most,
            fails_after,
        }
    }
}

impl ByteSink for LimitedSink {
    ghost use Rattle.std.specs.Prelude.{Some};

    ghost written = { λ s. Some s.taken.bytes.items };

    ghost failures = { λ s. Some s.taken.failures };

    /// Writes the first of the bytes, `most` of them. An `Err` says that all writes are done, or that there
    /// was no memory.
    fn write(&mut self, bytes: &[u8]) -> Result<usize, SinkFault> {
        if self.writes >= self.fails_after {
            self.taken.failures.count();
            return Err(SinkFault);
        }
        self.writes += 1;
        self.taken
            .write(&bytes[..bytes.len().min(self.most.max(1))])
    }
}
