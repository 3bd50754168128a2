//! Edits: what a command asks for, what is planned for it, and the changes of a table and its indexes.

pub(crate) mod changes;
pub(crate) mod planned;

use byte_io::Bytes;
use dbf_fields::Literal;

/// A change of a table that a command asks for. What a Replace or a Memo takes stays the command's own, so that
/// a refused edit has copied nothing.
#[derive(Clone, Copy, Debug)]
pub enum Edit<'a> {
    /// A last record of blanks, at which the cursor is then.
    AppendBlank,
    /// The field's cell of the record at the cursor keeps a value.
    Replace {
        /// The field's name, in capitals.
        field: &'a Bytes,
        /// The value.
        value: &'a Literal,
    },
    /// The field's memo of the record at the cursor has a text.
    Memo {
        /// The field's name, in capitals.
        field: &'a Bytes,
        /// The text.
        text: &'a Bytes,
    },
    /// The record at the cursor is marked as deleted.
    Delete,
    /// The mark of the record at the cursor is taken away.
    Recall,
    /// The marked records go, the others are numbered anew, and the cursor goes to the top.
    Pack,
}
