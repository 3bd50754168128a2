//! Files of an index that are read again.

use super::sample::{index_of, written};
use ndx_index::{PairList, read_ndx};
use std::alloc::Global;
use std::test::Fail;

// Whether they are the same pairs in the same order.
fn are_same(read: &PairList, pairs: &PairList) -> bool {
    if read.len() != pairs.len() {
        return false;
    }
    for at in 0..pairs.len() {
        if read.get(at) != pairs.get(at) {
            return false;
        }
    }
    true
}

// Whether what is read of the file of an index is the field NAME, the length of the keys, and as many pairs, the index's.
fn reads_back(alloc: Global, count: u32, len: u8) -> Result<bool, Fail> {
    let index = index_of(alloc, count, usize::from(len))?;
    let read = read_ndx(alloc, &written(alloc, &index, len)?)?;
    let pairs = index.pairs(alloc)?;
    Ok(
        read.expr.as_slice() == b"NAME".as_slice()
            && read.key_len == usize::from(len)
            && pairs.len() == count as usize
            && are_same(&read.pairs, &pairs),
    )
}

// The number of records, and the length of their keys.
const READ_BACK: [(u32, u8); 2] = [(26, 10), (21, 100)];

#[test]
fn written_entries_read_back(rt: HostRuntime) -> Result<(), Fail> {
    for (count, len) in READ_BACK {
        assert!(rt; reads_back(rt.alloc(), count, len)?);
    }
    Ok(())
}
