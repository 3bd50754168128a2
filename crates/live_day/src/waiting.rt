//! Answers that wait until their entries are in the log.

use byte_io::Bytes;

/// What a station is answered once its entry is on the disk.
#[derive(Debug, Drop)]
pub struct WaitingAnswer {
    /// How many entries the journal had when it was made.
    pub count: usize,
    /// The station.
    pub station: u32,
    /// The answer's line, without its ending.
    pub line: Bytes,
}
