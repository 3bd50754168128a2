//! Standard output as a sink.

ghost use Rattle.std.specs.Prelude.{◌≡◌, ◌<◌, ◌≤◌, Bool, false, IfOk, OnOk, length};
ghost use Rattle.std.specs.Io.KnownBytes.{WriteAppends};

use byte_io::{ByteSink, SinkFault};
use std::io::{ErrorKind, Write};

/// Something that is written to and may lose its reader.
pub trait MayClose {
    // that nobody reads it any more
    ghost closed: { Self → Bool };

    /// Whether a write failed because nobody reads it any more.
    fn is_closed(&self) -> bool
        ensures value { result ≡ closed self.now };
}

/// A stream that bytes are written to. As a sink it does not tell what it has.
#[derive(Drop)]
pub struct StreamSink<W: Write + Drop> {
    out: W,
    // Whether the reader at the other end was gone.
    is_closed: bool,
}

impl<W: Write + Drop> StreamSink<W> {
    /// The stream as a sink, of which no write has failed.
    pub fn new(out: W) -> StreamSink<W>
        ensures out { result.out ≡ out }
        ensures open { result.is_closed ≡ false }
    {
        StreamSink {
            out,
            is_closed: false,
        }
    }

    // Writes bytes from the front of the slice, at least one where there is one, and says how many. The stream has these then.
    fn put(&mut self, bytes: &[u8]) -> Result<usize, SinkFault>
        ensures within { IfOk result (λ count. count ≤ length bytes.now) }
        ensures some { IfOk result (λ count. 0 < length bytes.now → 0 < count) }
        ensures bytes { WriteAppends (W.contents self.old.out) (W.contents self.new.out) result bytes.now }
        ensures open { OnOk result (self.new.is_closed ≡ self.old.is_closed) }
    {
        match self.out.write(bytes) {
            Ok(count) if count > 0 || bytes.is_empty() => Ok(count),
            Ok(_) => Err(SinkFault),
            Err(error) => {
                self.is_closed = error.kind() == ErrorKind::BrokenPipe;
                Err(SinkFault)
            }
        }
    }
}

impl<W: Write + Drop> MayClose for StreamSink<W> {
    ghost closed = { λ sink. sink.is_closed };

    fn is_closed(&self) -> bool {
        self.is_closed
    }
}

impl<W: Write + Drop> ByteSink for StreamSink<W> {
    ghost use Rattle.std.specs.Prelude.{None};

    ghost written = { λ _. None };

    ghost failures = { λ _. None };

    #[tactic(auto, unfolding(byte_io::specs::Sink::grown))]
    fn write(&mut self, bytes: &[u8]) -> Result<usize, SinkFault> {
        self.put(bytes)
    }
}
