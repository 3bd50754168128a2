//! What is found at an entry of a setup.

use crate::freshness::IndexState;
use setup_files::{EntryContent, EntryFault};

/// How many records a table has.
#[derive(Clone, Copy, Debug, PartialEq, Eq)]
pub struct TableCounts {
    /// All of them.
    pub records: u32,
    /// Those that are marked as deleted.
    pub marked: u32,
}

/// What an index's file is.
#[derive(Clone, Copy, PartialEq, Eq)]
pub struct IndexFinding {
    /// How many keys it has.
    pub keys: usize,
    /// What it is beside its table.
    pub state: IndexState,
}

/// What is found at an entry of a setup.
#[derive(Clone, Copy, PartialEq, Eq)]
pub enum Finding {
    /// Its files are those of a table.
    Table(TableCounts),
    /// Its file is an index.
    Index(IndexFinding),
    /// Its script can be read.
    Script,
    /// It is refused.
    Refused(EntryFault),
}

/// What is found at the entries of a setup.
#[derive(Drop)]
pub struct Looked {
    /// A finding for each entry.
    pub findings: Vec<Finding>,
    /// What the files of each entry are, or why they are refused.
    pub reads: Vec<Result<EntryContent, EntryFault>>,
}
