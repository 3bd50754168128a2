//! What a table keeps of its records and memos, lent to the writers.

use crate::memo_store::MemoStore;

/// The bytes of all records, the texts of memos, and each memo's number in them, in the order of records and
/// fields.
#[derive(Clone, Copy)]
pub(crate) struct Store<'a> {
    pub(crate) records: &'a [u8],
    pub(crate) texts: &'a MemoStore,
    pub(crate) memos: &'a [u32],
}
