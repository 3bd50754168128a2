//! A writer that remembers the first failure of its sink.
#![tactic(auto, using(crate::specs::Laws::Sinks::sinks))]

ghost use Rattle.std.specs.Prelude.{◌≡◌, [], true, OnOk, OnErr};
ghost use Rattle.std.specs.List.{list_all};
ghost use Rattle.byte_io.specs.Sink.{is_byte, IsFront, Rises};
ghost use Rattle.byte_io.specs.Writer.{due, Stands, Stands-prop};

use crate::sink::buffer::{Waiting, gather, send};
use crate::sink::wanted::Wanted;
use crate::sink::{ByteSink, SinkFault};

/// A buffered writer over a sink. Once the sink has failed it drops what comes, and `flush` tells.
///
/// It takes no memory: up to 65,536 bytes wait in it. Format functions put bytes, and cannot fail; what their
/// contracts say is `Puts`. The writer of a file makes one, puts the file's bytes, and calls `flush`.
pub struct SinkWriter<'s, S: ByteSink> {
    /// Where the bytes go.
    pub sink: &'s mut S,
    waiting: Waiting,
    failed: bool,
    /// What the sink gets in the end: for contracts alone.
    pub wanted: Wanted<S>,
    ghost stands: { Stands failed (S.written sink.now) (S.failures sink.now) waiting.items wanted } by { Stands-prop failed (S.written sink.now) (S.failures sink.now) waiting.items wanted },
}

impl<'s, S: ByteSink> SinkWriter<'s, S> {
    ghost use Rattle.byte_io.specs.Output.{Puts};

    /// A writer into which nothing was put.
    pub fn new(sink: &'s mut S) -> SinkWriter<'s, S>
        ensures same { result.sink.ghost_name ≡ sink.entry.ghost_name }
        ensures wanted { result.wanted ≡ record { begun = S.written sink.old; put = []; failures = S.failures sink.old } }
    {
        let wanted = Wanted::of(&*sink);
        SinkWriter {
            sink,
            waiting: Waiting::new(),
            failed: false,
            wanted,
        }
    }

    /// Puts bytes after those before.
    pub fn put(&mut self, bytes: &[u8])
        ensures put { Puts self.old bytes.now self.new }
    {
        self.wanted.append(bytes);
        if self.failed {
            return;
        }
        self.failed = gather(self.sink, &mut self.waiting, bytes).is_err();
    }

    /// Sends what waits. An `Err` says that the sink has failed, now or before: it has then a front part of
    /// what was put, and takes no more from this writer.
    pub fn flush(&mut self) -> Result<(), SinkFault>
        ensures same { self.new.sink.ghost_name ≡ self.old.sink.ghost_name }
        ensures wanted { self.new.wanted ≡ self.old.wanted }
        ensures wrote { OnOk result (S.written self.new.sink.now ≡ due self.old.wanted) }
        ensures no_failure { OnOk result (S.failures self.new.sink.now ≡ self.old.wanted.failures) }
        ensures failed { OnErr result (Rises self.old.wanted.failures (S.failures self.new.sink.now)) }
        // What the sink held when the writer was made it still holds.
        ensures kept { IsFront self.old.wanted.begun (S.written self.new.sink.now) }
        // What it has then is a front part of what was put after what it had.
        ensures front { OnErr result (IsFront (S.written self.new.sink.now) (due self.old.wanted)) }
        // What was put is of bytes, since slices of bytes were put.
        ensures bytes { list_all is_byte self.old.wanted.put ≡ true }
    {
        // For contracts alone: what was put is of bytes.
        self.wanted.are_bytes();
        if self.failed {
            return Err(SinkFault);
        }
        let sent = send(self.sink, &mut self.waiting);
        self.failed = sent.is_err();
        sent
    }
}

// A writer is dropped as it is: what waits is not sent. `flush` comes before, so that a failure is seen.
impl<S: ByteSink> Drop for SinkWriter<'_, S> {
    fn drop(self)
        ensures sink { self.exit.0.now ≡ self.entry.sink.now }
    {
        let SinkWriter {
            sink: _,
            waiting: _,
            failed: _,
            wanted: _,
        } = self;
    }
}
