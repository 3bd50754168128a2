//! Plans of edits.

use crate::indexes::TableIndex;
use byte_io::Bytes;

/// A field of a record, to be changed or shown.
#[derive(Clone, Copy, Debug, PartialEq, Eq)]
pub(crate) struct Target {
    /// The record, from 1.
    pub(crate) number: u32,
    /// The index of the field, from 0.
    pub(crate) field: usize,
}

/// An index that is added to a table after the others.
#[derive(Drop)]
pub(crate) struct AddedIndex {
    /// The index of all records.
    pub(crate) index: TableIndex,
    /// An empty list with room for all indexes.
    pub(crate) list: Vec<TableIndex>,
}

/// A change of a table's rows or of its indexes that takes no memory. Every command moves such a value about, so what is
/// large and rare stands behind a `Box`.
#[derive(Drop)]
pub(crate) enum TableChange {
    /// A last record of blanks.
    AddBlank,
    /// A cell is replaced.
    SetCell {
        /// The field of a record.
        target: Target,
        /// As many bytes as the field is wide.
        cell: Bytes,
    },
    /// The text of a memo is replaced.
    SetMemo {
        /// The field of a record.
        target: Target,
        /// The text.
        text: Bytes,
    },
    /// The mark of a record is set or taken away.
    SetMark {
        /// The record, from 1.
        number: u32,
        /// Whether it is marked as deleted then.
        deleted: bool,
    },
    /// The records that are marked as deleted are taken out.
    Pack {
        /// The indexes of the others.
        indexes: Vec<TableIndex>,
    },
    /// An index is added after the others.
    AddIndex(Box<AddedIndex>),
}

/// An edit that was tested, with all memory that it needs: [`Table::carry_out`](crate::Table::carry_out)
/// makes the change.
#[derive(Drop)]
pub struct Planned {
    pub(crate) change: TableChange,
}
