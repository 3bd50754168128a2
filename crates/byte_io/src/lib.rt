//! Bytes with an owner, and sinks that bytes are written to.
//!
//! [`Bytes`] is a list of bytes that contracts see as it is. A [`ByteSink`] takes bytes one after the other, as a file or
//! memory; a [`SinkWriter`] gathers small pieces before they go to one, takes no memory for it, and remembers the first failure.
//! [`WriteFault`] says why a file was not written. A [`MemorySink`] keeps what is written, and a [`LimitedSink`] fails where a test
//! wants it.
//!
//! Start with `sink.rt`, then specs/Sink.antt (what a sink is known to have) and specs/Output.antt (what a call puts).
#![tactic(auto)]

mod bytes;
mod sink;
mod write_fault;

pub use bytes::Bytes;
pub use sink::failures::Failures;
pub use sink::limited::LimitedSink;
pub use sink::memory::MemorySink;
pub use sink::writer::SinkWriter;
pub use sink::{ByteSink, SinkFault, write_all};
pub use write_fault::WriteFault;
