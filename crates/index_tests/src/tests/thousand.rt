//! An index of a thousand pairs: their keys and their records, as they are put in, found and removed.

ghost use Rattle.std.specs.Prelude.{◌≡◌, length};

use super::sample::{pair, put};
use ndx_index::{OrderedIndex, Pair};
use std::alloc::Global;
use std::process::Abort;
use std::test::Fail;

// The pair of a record, whose key is the three digits of the number below its own: record 1 has the key 000.
fn numbered(number: u32) -> Pair
    ensures key { length result.key ≡ 3 }
{
    let value = number.saturating_sub(1);
    let digit = |place: u32| b'0' + (value / place % 10) as u8;
    pair(&[digit(100), digit(10), digit(1)], number)
}

// The index of records 1 to 1,000, put in from the last to the first.
fn thousand(alloc: Global) -> Result<OrderedIndex, Fail> {
    let mut index = OrderedIndex::new(alloc, 3);
    for i in 0..1000 {
        put(&mut index, &numbered(1000 - i))?;
    }
    Ok(index)
}

// The same pairs in an index that is made of them at once.
fn built_again(alloc: Global, index: &OrderedIndex) -> Result<OrderedIndex, Fail> {
    Ok(OrderedIndex::from_sorted(alloc, index.pairs(alloc)?)?)
}

// Whether the pairs are those of so many records from number 1 on, each this far from the one before.
fn has_records(alloc: Global, index: &OrderedIndex, count: u32, step: u32) -> Result<bool, Fail> {
    let pairs = index.pairs(alloc)?;
    let mut number = 1u32;
    for at in 0..pairs.len() {
        if pairs.get(at) != numbered(number) {
            return Ok(false);
        }
        number = number.saturating_add(step);
    }
    Ok(pairs.len() == count as usize)
}

// Takes every second record out, from this number on; whether all were there.
fn all_removed(index: &mut OrderedIndex, first: u32) -> bool {
    for half in 0..500_u32 {
        if !index.remove(numbered(first.saturating_add(2 * half))) {
            return false;
        }
    }
    true
}

#[test]
fn thousand_keys(rt: HostRuntime) -> Result<(), Fail> {
    let alloc = rt.alloc();
    let index = thousand(alloc)?;
    let ends = (index.first(), index.last());
    assert!(rt; ends == (Some(pair(b"000", 1)), Some(pair(b"999", 1000))));
    for index in [&index, &built_again(alloc, &index)?] {
        assert!(rt; has_records(alloc, index, 1000, 1)?);
    }
    Ok(())
}

// The even records are removed: a search finds odd ones.
fn odd_records_are_found(
    rt: &impl Abort,
    alloc: Global,
    index: &mut OrderedIndex,
) -> Result<(), Fail> {
    assert!(rt; all_removed(index, 2));
    assert!(rt; has_records(alloc, index, 500, 2)?);
    assert!(rt; index.first_from(b"99") == Some(pair(b"990", 991)));
    assert!(rt; index.next(pair(b"990", 991)) == Some(pair(b"992", 993)));
    Ok(())
}

#[test]
fn odd_records_are_left_and_then_none(rt: HostRuntime) -> Result<(), Fail> {
    let alloc = rt.alloc();
    let mut index = thousand(alloc)?;
    odd_records_are_found(&rt, alloc, &mut index)?;
    assert!(rt; all_removed(&mut index, 1) && index.first().is_none());
    put(&mut index, &numbered(1))?;
    assert!(rt; has_records(alloc, &index, 1, 1)?);
    Ok(())
}
