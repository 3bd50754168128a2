//! The table of a path, with its memos.
//!
//! [`load_table`] reads a table's file and the file of its memos: that of a path that is given, or else the one beside the table
//! ([`load_memos`]). [`TableReadFault`] is why it does not.
//!
//! Start with specs/Memos.antt and specs/TableFiles.antt, then read src/table.rt.
#![tactic(auto)]

mod fault;
mod memos;
mod table;

pub use fault::{TableReadFault, is_image_without_memory, is_load_without_memory, print_load};
pub use memos::load_memos;
pub use table::load_table;
