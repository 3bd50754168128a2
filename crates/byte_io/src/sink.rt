//! What bytes are written to.
#![tactic(auto, using(crate::specs::Laws::Sinks::sinks))]

ghost use Rattle.std.specs.List.{list_all};
ghost use Rattle.std.specs.Prelude.{◌≡◌, ◌<◌, ◌≤◌, true, length, take, IfOk, OnOk, OnErr, List, ℕ, Option};
ghost use Rattle.byte_io.specs.Sink.{grown, is_byte, IsFront, Rises};

pub(crate) mod buffer;
pub(crate) mod failures;
pub(crate) mod limited;
pub(crate) mod memory;
pub(crate) mod wanted;
pub(crate) mod writer;

use thiserror::Error;

/// A write into a sink failed, and wrote nothing.
#[derive(Clone, Copy, Debug, PartialEq, Eq, Error)]
#[error("the sink failed")]
pub struct SinkFault;

/// Something that bytes are written to, one after the other, as a file or memory.
///
/// A type says by two ghost members what contracts may know of its values. Both are options: a sink
/// over memory knows what has been written to it, and a real file, whose bytes are no function of its
/// value, answers `None`, and then no clause claims anything of them.
pub trait ByteSink {
    // What has been written, where the type says.
    ghost written: { Self → Option (List ℕ) };
    // How often a write has failed, where the type says.
    ghost failures: { Self → Option ℕ };

    /// Writes bytes from the front of the slice, at least one where there is one, and says how many.
    /// An `Err` says that the sink failed, and that none were written.
    fn write(&mut self, bytes: &[u8]) -> Result<usize, SinkFault>
        ensures within { IfOk result (λ n. n ≤ length bytes.now) }
        ensures some { IfOk result (λ n. 0 < length bytes.now → 0 < n) }
        ensures wrote { IfOk result (λ n. written self.new ≡ grown (written self.old) (take n bytes.now)) }
        ensures no_failure { OnOk result (failures self.new ≡ failures self.old) }
        ensures unwritten { OnErr result (written self.new ≡ written self.old) }
        ensures failed { OnErr result (Rises (failures self.old) (failures self.new)) };
}

/// Writes all of the bytes, by as many writes as the sink needs.
///
/// An `Err` says that one of the writes failed. Those before it have written a front part of the bytes.
pub fn write_all<S: ByteSink>(sink: &mut S, bytes: &[u8]) -> Result<(), SinkFault>
    ensures wrote { OnOk result (S.written sink.new ≡ grown (S.written sink.old) bytes.now) }
    ensures no_failure { OnOk result (S.failures sink.new ≡ S.failures sink.old) }
    ensures failed { OnErr result (Rises (S.failures sink.old) (S.failures sink.new)) }
    // What the sink held before the call it still holds.
    ensures kept { IsFront (S.written sink.old) (S.written sink.new) }
    // What has been written is a front part of the bytes, after what the sink held.
    ensures front { OnErr result (IsFront (S.written sink.new) (grown (S.written sink.old) bytes.now)) }
    // A slice of bytes has bytes alone.
    ensures bytes { list_all is_byte bytes.now ≡ true }
{
    let mut rest = bytes;
    while !rest.is_empty() {
        let n = sink.write(rest)?;
        rest = &rest[n..];
    }
    Ok(())
}
