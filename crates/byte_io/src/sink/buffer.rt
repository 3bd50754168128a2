//! Small chunks are gathered before they go to a sink, and take no memory while they wait.
#![tactic(auto, using(crate::specs::Laws::Sinks::sinks))]

ghost use Rattle.std.specs.Prelude.{◌≡◌, [], OnOk, OnErr};
ghost use Rattle.byte_io.specs.Sink.{grown, IsFront, Rises};

use crate::sink::{ByteSink, SinkFault, write_all};
use arrayvec::ArrayVec;

/// The bytes that wait for a sink, in their order: at most 65,536, so that a file of the system is written in few calls.
pub(crate) type Waiting = ArrayVec<u8, 65536>;

/// Sends all that waits to the sink. An error where the sink fails, which has then a front part of it.
pub(crate) fn send<S: ByteSink>(sink: &mut S, waiting: &mut Waiting) -> Result<(), SinkFault>
    ensures wrote { OnOk result (S.written sink.new ≡ grown (S.written sink.old) waiting.old.items) }
    ensures none { OnOk result (waiting.new.items ≡ []) }
    ensures no_failure { OnOk result (S.failures sink.new ≡ S.failures sink.old) }
    ensures failed { OnErr result (Rises (S.failures sink.old) (S.failures sink.new)) }
    ensures kept { IsFront (S.written sink.old) (S.written sink.new) }
    ensures front { OnErr result (IsFront (S.written sink.new) (grown (S.written sink.old) waiting.old.items)) }
{
    write_all(sink, waiting.as_slice())?;
    waiting.clear();
    Ok(())
}

/// Lets bytes wait after those that wait already, and sends to the sink what has no room. An error
/// where the sink fails, which has then a front part of all those bytes.
pub(crate) fn gather<S: ByteSink>(
    sink: &mut S,
    waiting: &mut Waiting,
    bytes: &[u8],
) -> Result<(), SinkFault>
    ensures put { OnOk result (grown (S.written sink.new) waiting.new.items ≡ grown (grown (S.written sink.old) waiting.old.items) bytes.now) }
    ensures no_failure { OnOk result (S.failures sink.new ≡ S.failures sink.old) }
    ensures failed { OnErr result (Rises (S.failures sink.old) (S.failures sink.new)) }
    ensures kept { IsFront (S.written sink.old) (S.written sink.new) }
    ensures front { OnErr result (IsFront (S.written sink.new) (grown (grown (S.written sink.old) waiting.old.items) (bytes.now))) }
{
    if waiting.try_extend_from_slice(bytes).is_ok() {
        return Ok(());
    }
    send(sink, waiting)?;
    if waiting.try_extend_from_slice(bytes).is_err() {
        write_all(sink, bytes)?;
    }
    Ok(())
}
