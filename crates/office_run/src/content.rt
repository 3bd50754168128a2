//! The content of a file.

use crate::closed_index::ClosedIndex;
use byte_io::Bytes;
use dbf_fields::Day;
use dbf_image::TableData;

/// The content of a file that will be written.
#[derive(Drop)]
pub(crate) enum Content<'a> {
    /// A table, dated.
    Table(&'a TableData, Day),
    /// A table's memos.
    Memos(&'a TableData),
    /// An index.
    Index(&'a ClosedIndex),
    /// This text.
    Text(&'a Bytes),
}
