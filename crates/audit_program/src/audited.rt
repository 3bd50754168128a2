//! What an audit answers where all entries hold.

use byte_io::Bytes;
use journal_file::FileSum;

/// What is said of a journal, all of whose entries hold.
#[derive(Debug, Drop)]
pub struct Audited {
    /// How many entries it has.
    pub count: u64,
    /// The setup and the files that it names, as the audit has read them: these are the files that the run read.
    pub read: Vec<FileSum>,
    /// The journal's lines of the files that the run wrote.
    pub wrote: Bytes,
    /// The files that the audit has written.
    pub written: Vec<FileSum>,
}
