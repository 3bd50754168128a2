//! What a station asks.

ghost use Rattle.std.specs.Prelude.{◌≡◌, ◌↔◌, IsTrue, IfOk};

use crate::numbers::Numbers;
use byte_io::Bytes;
use dbf_fields::Literal;
use std::alloc::{AllocError, Global};

/// A question about the area's table and its cursor.
#[derive(Clone, Copy, Debug, PartialEq, Eq)]
pub enum Question {
    /// EOF(): whether the cursor is past the last record.
    Eof,
    /// BOF(): whether the cursor was to go back past the first record.
    Bof,
    /// FOUND(): whether the last SEEK found a record.
    Found,
    /// DELETED(): whether the record at the cursor is marked as deleted.
    Deleted,
    /// RECNO(): the number of the record at the cursor.
    Recno,
    /// RECCOUNT(): how many records the table has.
    Reccount,
}

/// A command of a station. Names are compared as they stand, so in capitals.
#[derive(Debug, PartialEq, Eq, Drop)]
pub enum Command {
    /// SELECT: the area of this number is the current one.
    Select(u64),
    /// USE with a name: closes the area's table and opens the one of this name, its cursor at the top.
    UseTable {
        /// The table's name.
        name: Bytes,
        /// Whether no other station may have the table open.
        exclusive: bool,
    },
    /// USE alone: closes the area's table.
    CloseTable,
    /// GO: the cursor stands at the record of this number.
    Go(u64),
    /// GO TOP: the cursor stands at the first record in the order.
    Top,
    /// GO BOTTOM: the cursor stands at the last record in the order.
    Bottom,
    /// SKIP: the cursor moves by this many records in the order, back where the number is below zero.
    Skip(i64),
    /// SEEK: the cursor stands at the first record in the order whose key begins with this text.
    Seek(Bytes),
    /// SET ORDER TO: the order of this number, 0 for the order of record numbers.
    Order(u64),
    /// APPEND BLANK: a new last record of blanks, with the cursor at it.
    AppendBlank,
    /// REPLACE: the cell of the record at the cursor keeps a value.
    Replace {
        /// The field's name.
        field: Bytes,
        /// The value.
        value: Literal,
    },
    /// MEMO: the memo of the record at the cursor has a text. It stands for the full-screen editor's save.
    Memo {
        /// The field's name.
        field: Bytes,
        /// The text.
        text: Bytes,
    },
    /// DELETE: the record at the cursor is marked as deleted.
    Delete,
    /// RECALL: the record at the cursor is marked as deleted no more.
    Recall,
    /// PACK: the records that are marked as deleted go.
    Pack,
    /// INDEX ON: the table has one more index, which is the order.
    IndexOn {
        /// The text of the key expression.
        expr: Bytes,
        /// The index's name.
        name: Bytes,
    },
    /// UNLOCK: the area's lock is released.
    Unlock,
    /// UNLOCK ALL: the locks of all areas are released.
    UnlockAll,
    /// ? with a field's name: the value of a field of the record at the cursor.
    Show(Bytes),
    /// ? RLOCK() or ? LOCK(): locks the record at the cursor, where no other station bars it.
    RecordLock,
    /// ? RLOCK or ? LOCK with numbers in its parentheses: locks these records, all or none.
    RecordLocks(Numbers),
    /// ? FLOCK(): locks the area's table, where no other station bars it.
    FileLock,
    /// ? with EOF(), BOF(), FOUND(), DELETED(), RECNO() or RECCOUNT().
    Ask(Question),
    /// A line that is no command.
    Bad,
}

impl Command {
    /// The same command once more, or an error where memory is refused.
    pub fn copy(&self, alloc: Global) -> Result<Command, AllocError>
        ensures value { IfOk result (λ command. command ≡ self.now) }
    {
        Ok(match self {
            Command::Select(area) => Command::Select(*area),
            Command::UseTable { name, exclusive } => Command::UseTable {
                name: name.copy(alloc)?,
                exclusive: *exclusive,
            },
            Command::CloseTable => Command::CloseTable,
            Command::Go(record) => Command::Go(*record),
            Command::Top => Command::Top,
            Command::Bottom => Command::Bottom,
            Command::Skip(records) => Command::Skip(*records),
            Command::Seek(text) => Command::Seek(text.copy(alloc)?),
            Command::Order(order) => Command::Order(*order),
            Command::AppendBlank => Command::AppendBlank,
            Command::Replace { field, value } => Command::Replace {
                field: field.copy(alloc)?,
                value: value.copy(alloc)?,
            },
            Command::Memo { field, text } => Command::Memo {
                field: field.copy(alloc)?,
                text: text.copy(alloc)?,
            },
            Command::Delete => Command::Delete,
            Command::Recall => Command::Recall,
            Command::Pack => Command::Pack,
            Command::IndexOn { expr, name } => Command::IndexOn {
                expr: expr.copy(alloc)?,
                name: name.copy(alloc)?,
            },
            Command::Unlock => Command::Unlock,
            Command::UnlockAll => Command::UnlockAll,
            Command::Show(field) => Command::Show(field.copy(alloc)?),
            Command::RecordLock => Command::RecordLock,
            Command::RecordLocks(numbers) => Command::RecordLocks(numbers.copy(alloc)?),
            Command::FileLock => Command::FileLock,
            Command::Ask(question) => Command::Ask(*question),
            Command::Bad => Command::Bad,
        })
    }

    /// Whether the commands are the same: `==`, said so that contracts can use it.
    pub fn is_same(&self, other: &Command) -> bool
        ensures value { IsTrue result ↔ (self.now ≡ other.now) }
    {
        self == other
    }
}
