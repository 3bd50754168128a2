//! Indexes and their files.

ghost use Rattle.std.specs.Prelude.{◌≡◌, length};

use super::sample::Sample;
use super::sweep::{Calls, assert_all, refused};
use key_expr::Key;
use ndx_index::*;
use std::alloc::{AllocError, Global};
use std::test::Fail;

/// An index file on NAME, of keys of ten bytes: the root is page 1 of 2, a leaf of three pairs. A page has 25 places of 20 bytes.
pub(super) fn index_file() -> [u8; 1024] {
    let mut bytes = [0; 1024];
    bytes[0] = 1;
    bytes[4] = 2;
    bytes[12] = 10;
    bytes[14] = 25;
    bytes[18] = 20;
    bytes[24..28].copy_from_slice(b"NAME");
    bytes[512] = 3;
    bytes[520] = 2;
    bytes[524..534].copy_from_slice(b"ADA       ");
    bytes[540] = 1;
    bytes[544..554].copy_from_slice(b"BOB       ");
    bytes[560] = 3;
    bytes[564..574].copy_from_slice(b"DAN       ");
    bytes
}

// The pair of a key and a record.
fn named(key: &[u8; 10], number: u32) -> Pair
    ensures wide { length result.key ≡ 10 }
{
    Pair {
        key: Key::new(key),
        number,
    }
}

/// The pairs of the sample, in order.
pub(super) fn first() -> Pair
    ensures wide { length result.key ≡ 10 }
{
    named(b"ADA       ", 2)
}

pub(super) fn second() -> Pair
    ensures wide { length result.key ≡ 10 }
{
    named(b"BOB       ", 1)
}

pub(super) fn third() -> Pair
    ensures wide { length result.key ≡ 10 }
{
    named(b"DAN       ", 3)
}

/// Whether an index has those pairs. It takes no memory.
pub(super) fn has_pairs(index: &OrderedIndex) -> bool {
    index.key_len() == 10
        && index.first() == Some(first())
        && index.next(first()) == Some(second())
        && index.next(second()) == Some(third())
        && index.next(third()).is_none()
}

/// The index of those pairs, which stand in order.
pub(super) fn index_of_three(alloc: Global) -> Result<OrderedIndex, AllocError> {
    let mut pairs = PairList::new(alloc, 10);
    pairs.push(&first())?;
    pairs.push(&second())?;
    pairs.push(&third())?;
    if !pairs.is_in_order() {
        return Ok(OrderedIndex::new(alloc, 10));
    }
    OrderedIndex::from_sorted(alloc, pairs)
}

// The index of those pairs in another order.
#[tactic(auto, using(crate::proofs::Distinct::three_apart))]
fn index_of_unsorted(alloc: Global) -> Result<OrderedIndex, AllocError> {
    let (low, middle, high) = (first(), second(), third());
    if high.cmp(&low).is_eq() || high.cmp(&middle).is_eq() || low.cmp(&middle).is_eq() {
        return Ok(OrderedIndex::new(alloc, 10));
    }
    let mut pairs = PairList::new(alloc, 10);
    pairs.reserve(3)?;
    pairs.push(&high)?;
    pairs.push(&low)?;
    pairs.push(&middle)?;
    OrderedIndex::from_pairs(alloc, pairs)
}

/// Whether a list has those pairs.
pub(super) fn is_list(pairs: &PairList) -> bool {
    pairs.len() == 3
        && pairs.get(0) == first()
        && pairs.get(1) == second()
        && pairs.get(2) == third()
}

// Whether the index file is read as it is.
fn reads(alloc: Global) -> Result<bool, AllocError> {
    match read_ndx(alloc, &index_file()) {
        Ok(file) => Ok(
            file.expr.as_slice() == b"NAME".as_slice()
                && file.key_len == 10
                && is_list(&file.pairs),
        ),
        Err(fault) => refused(fault == NdxFault::NoMemory),
    }
}

// Whether the page of that file is told that breaks a rule where its root has 26 keys.
fn tells_bad_page(alloc: Global) -> Result<bool, AllocError> {
    let mut bytes = index_file();
    bytes[512] = 26;
    let bad = BadIndex {
        why: NdxFault::TooManyEntries,
        page: Some(1),
    };
    let no_memory = BadIndex {
        why: NdxFault::NoMemory,
        page: None,
    };
    match read_ndx_at(alloc, &bytes) {
        Ok(_) => Ok(false),
        Err(found) if found == bad => Ok(true),
        Err(found) => refused(found == no_memory),
    }
}

// Whether room is made for one more pair.
fn makes_room(index: &mut OrderedIndex) -> Result<bool, AllocError> {
    index.reserve()?;
    Ok(has_pairs(index))
}

struct OfIndexes;

impl Calls for OfIndexes {
    fn make(&self, alloc: Global, sample: &mut Sample, number: usize) -> Result<bool, AllocError> {
        match number {
            0 => reads(alloc),
            1 => tells_bad_page(alloc),
            2 => Ok(has_pairs(&index_of_three(alloc)?)),
            3 => Ok(has_pairs(&index_of_unsorted(alloc)?)),
            4 => Ok(is_list(&sample.index.pairs(alloc)?)),
            5 => makes_room(&mut sample.index),
            _ => Ok(false),
        }
    }
}

#[test]
fn each_call_of_indexes_where_memory_is_refused(rt: HostRuntime) -> Result<(), Fail> {
    assert_all(&rt, rt.alloc(), &OfIndexes, 6)
}
