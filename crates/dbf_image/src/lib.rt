//! The bytes of a dBASE III PLUS table file (DBF), and of the file of its memos (DBT).
//!
//! [`read_table`] reads the two files, and says why where the bytes are no table: it answers a table
//! exactly where the bytes are files of that table, and else the fault of the first test that fails. [`read_table_at`] says
//! beside the fault in which part of the files it is: a field, a memo, or the header, whose numbers [`table_numbers`] tells of
//! any file. [`told_fields`] tells the fields of a file before it is read, whatever they are.
//! [`read_memo`] reads the text of one block in the same way.
//!
//! A [`TableData`] keeps the table in memory: contracts see its fields and its rows, in which the cell of a memo is its
//! text. A [`GrowingTable`] is a table that is changed in place: room is made first, then no change can fail, and every
//! change says which rows the table has then. A [`MemoStore`] keeps texts under numbers, in blocks that are used again.
//! [`write_dbf`] writes the one file that is written of a table into a [`ByteSink`], and [`write_dbt`] the file of its
//! memos; what they write can be read back as that table.
//!
//! Start with specs/Table.antt (what a table is), specs/Memo.antt (what a memo's cell tells) and
//! specs/DbfText.antt (when bytes are a table's files), specs/BadTable.antt (why they are none, and where), then read src/table.rt, src/table/growing.rt,
//! src/dbf/fields.rt, src/dbf/read.rt, src/dbf/write.rt, src/dbt/memo.rt and src/dbt/write.rt. For the store of texts start with
//! specs/MemoStore.antt and src/memo_store.rt.
#![tactic(auto)]

mod bad_table;
mod dbf;
mod dbt;
mod fault;
mod format;
mod memo_store;
mod table;

pub use bad_table::{BadTable, MemoCell, TablePart};
pub use dbf::fields::told_fields;
pub use dbf::header::{TableNumbers, table_numbers};
pub use dbf::read::{read_table, read_table_at};
pub use dbf::write::write_dbf;
pub use dbt::blocks::next_free_block;
pub use dbt::memo::read_memo;
pub use dbt::write::write_dbt;
pub use fault::ImageFault;
pub use format::{BLOCK, HEADER, MAX_MEMO_BYTES, MAX_RECORDS};
pub use memo_store::MemoStore;
pub use table::growing::GrowingTable;
pub use table::{TableData, is_memo_text};
