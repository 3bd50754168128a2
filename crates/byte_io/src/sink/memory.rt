//! A sink in memory.

ghost use Rattle.std.specs.Prelude.{◌≡◌, ◌<◌, ◌≤◌, [], length, take, IfOk, OnOk, OnErr};
ghost use Rattle.byte_io.specs.Sink.{grown, Rises};

use crate::sink::failures::Failures;
use crate::sink::{ByteSink, SinkFault};
use std::alloc::Global;

/// A sink that keeps what is written in memory. It fails where memory is refused, and is whole after that.
#[derive(Debug, Drop)]
pub struct MemorySink {
    /// What has been written, in order.
    pub bytes: Vec<u8>,
    /// How often a write has failed.
    pub failures: Failures,
}

impl MemorySink {
    /// A sink into which nothing has been written. It takes no memory.
    pub fn new(alloc: Global) -> MemorySink
        ensures bytes { result.bytes.items ≡ [] }
        ensures failures { result.failures ≡ 0 }
    {
        MemorySink {
            bytes: Vec::new(alloc),
            failures: Failures::none(),
        }
    }
}

impl ByteSink for MemorySink {
    ghost use Rattle.std.specs.Prelude.{Some};

    ghost written = { λ s. Some s.bytes.items };

    ghost failures = { λ s. Some s.failures };

    /// Writes all of the bytes. An `Err` says that there was no memory, and that none were written.
    #[tactic(auto, unfolding(crate::specs::Sink::grown))]
    fn write(&mut self, bytes: &[u8]) -> Result<usize, SinkFault>
        ensures within { IfOk result (λ n. n ≤ length bytes.now) }
        ensures some { IfOk result (λ n. 0 < length bytes.now → 0 < n) }
        ensures wrote { IfOk result (λ n. Some self.new.bytes.items ≡ grown (Some self.old.bytes.items) (take n bytes.now)) }
        ensures no_failure { OnOk result (Some self.new.failures ≡ Some self.old.failures) }
        ensures unwritten { OnErr result (Some self.new.bytes.items ≡ Some self.old.bytes.items) }
        ensures failed { OnErr result (Rises (Some self.old.failures) (Some self.new.failures)) }
        ensures all { IfOk result (λ n. n ≡ length bytes.now) }
    {
        match self.bytes.extend_from_slice(bytes) {
            Ok(()) => Ok(bytes.len()),
            Err(_) => {
                self.failures.count();
                Err(SinkFault)
            }
        }
    }
}
