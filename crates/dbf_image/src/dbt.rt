//! Files of memos (DBT): their blocks, reading and writing.

pub(crate) mod blocks;
pub(crate) mod memo;
pub(crate) mod memos;
pub(crate) mod span;
pub(crate) mod write;
