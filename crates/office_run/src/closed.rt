//! A table as a run left it.

use crate::closed_index::ClosedIndex;
use byte_io::Bytes;
use dbf_image::TableData;

/// A table as a run left it.
#[derive(Drop)]
pub struct ClosedTable {
    /// The name.
    pub name: Bytes,
    /// The fields and records.
    pub content: TableData,
    /// The indexes.
    pub indexes: Vec<ClosedIndex>,
}
