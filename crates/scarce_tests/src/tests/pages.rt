//! Pages of an index, by the memory that they take: those of a new index are full, and those that removals empty are used again.

ghost use Rattle.std.specs.Prelude.{◌≡◌, length};

use key_expr::Key;
use ndx_index::{OrderedIndex, Pair, PairList};
use scarce::Hoard;
use std::alloc::{AllocError, Global};
use std::test::Fail;

// Room for a list of a thousand pairs while it grows, and none for pages of them with their links.
const A_LIST: usize = 32 << 10;

// Less than the links of 63 leaves take: where a list of a thousand pairs is there already, no pages can be made of it.
const NO_LINKS: usize = 2 << 10;

// Room for the links of the 63 leaves that a list of a thousand pairs becomes, and for the 5 pages above them. The leaves would be
// 125 if they were filled by halves, for which there is no room.
const FULL_PAGES: usize = 32 << 10;

// The pairs that the random edits put in would fill thousands of pages if none were used again, and there is no room for them.
const USED_AGAIN: usize = 96 << 10;

// A hoard that can leave so many bytes. A room of over 128 KB would go back to the system.
fn hoard_for(alloc: Global, bytes: usize) -> Result<Hoard, AllocError> {
    Hoard::new(alloc, 1, bytes.saturating_add(4096))
}

// The pair of a record, whose key is the three digits of its number.
fn numbered(number: u32) -> Pair
    ensures key { length result.key ≡ 3 }
{
    let digit = |place: u32| b'0' + (number / place % 10) as u8;
    Pair {
        key: Key::new(&[digit(100), digit(10), digit(1)]),
        number,
    }
}

// The pairs of the records 0 to 999, in order.
fn thousand(alloc: Global) -> Result<PairList, Fail> {
    let mut pairs = PairList::new(alloc, 3);
    for number in 0..1000 {
        if pairs.key_len() != 3 {
            return Err("keys of another length".into());
        }
        pairs.push(&numbered(number))?;
    }
    Ok(pairs)
}

// Whether an index is made of pairs that stand in order. It tells nothing of others.
fn is_made(alloc: Global, pairs: PairList) -> bool {
    pairs.is_in_order() && OrderedIndex::from_sorted(alloc, pairs).is_ok()
}

// Whether so many bytes can be left, and whether the index of a list that is there is made where they are.
fn is_made_in(alloc: Global, bytes: usize) -> Result<(bool, bool), Fail> {
    let pairs = thousand(alloc)?;
    let mut hoard = hoard_for(alloc, bytes)?;
    let is_left = hoard.leave(bytes);
    Ok((is_left, is_made(alloc, pairs)))
}

#[test]
fn new_index_fills_its_pages(rt: HostRuntime) -> Result<(), Fail> {
    let alloc = rt.alloc();
    let ample = is_made(alloc, thousand(alloc)?);
    let scarce = [is_made_in(alloc, NO_LINKS)?, is_made_in(alloc, FULL_PAGES)?];
    assert_eq!(rt; (ample, scarce), (true, [(true, false), (true, true)]));
    Ok(())
}

// Takes a pair out where it is there, and puts it in where not; whether it was there. One whose key has another length can't be.
fn turned(index: &mut OrderedIndex, pair: &Pair) -> Result<bool, AllocError> {
    if pair.key.as_bytes().len() != index.key_len() {
        return Ok(false);
    }
    if index.remove(*pair) {
        return Ok(true);
    }
    index.reserve()?;
    index.insert(*pair);
    Ok(false)
}

// Turns the even records of 0 to 999, and then the odd ones; how many were there.
fn all_turned(index: &mut OrderedIndex) -> Result<u32, AllocError> {
    let mut there = 0_u32;
    for first in [0_u32, 1] {
        for half in 0..500_u32 {
            let number = first.saturating_add(2 * half);
            if turned(index, &numbered(number))? {
                there = there.saturating_add(1);
            }
        }
    }
    Ok(there)
}

// Whether so many bytes can be left, and how many records are there of those that are turned where they are.
fn turned_in(
    alloc: Global,
    index: &mut OrderedIndex,
    bytes: usize,
) -> Result<(bool, Option<u32>), AllocError> {
    let mut hoard = hoard_for(alloc, bytes)?;
    let is_left = hoard.leave(bytes);
    Ok((is_left, all_turned(index).ok()))
}

#[test]
fn pairs_are_put_into_pages(rt: HostRuntime) -> Result<(), Fail> {
    let alloc = rt.alloc();
    let ample = all_turned(&mut OrderedIndex::new(alloc, 3))?;
    let scarce = turned_in(alloc, &mut OrderedIndex::new(alloc, 3), A_LIST)?;
    assert_eq!(rt; (ample, scarce), (0, (true, None)));
    Ok(())
}

#[test]
fn emptied_pages_are_used_again(rt: HostRuntime) -> Result<(), Fail> {
    let alloc = rt.alloc();
    let mut index = OrderedIndex::new(alloc, 3);
    let ample = [all_turned(&mut index)?, all_turned(&mut index)?];
    let scarce = turned_in(alloc, &mut index, 0)?;
    let last = all_turned(&mut index)?;
    assert_eq!(rt; (ample, scarce, last), ([0, 1000], (true, Some(0)), 1000));
    Ok(())
}

// Turns random records of 0 to 999.
fn edit(index: &mut OrderedIndex, edits: u32) -> Result<(), AllocError> {
    let mut state = 1_u32;
    for _ in 0..edits {
        state = state.wrapping_mul(1_664_525).wrapping_add(1_013_904_223);
        turned(index, &numbered((state >> 16) % 1000))?;
    }
    Ok(())
}

// Whether so many bytes can be left, and whether random edits of an index meet no want of memory where they are.
fn is_edited_in(
    alloc: Global,
    index: &mut OrderedIndex,
    bytes: usize,
) -> Result<(bool, bool), AllocError> {
    let mut hoard = hoard_for(alloc, bytes)?;
    let is_left = hoard.leave(bytes);
    Ok((is_left, edit(index, 100_000).is_ok()))
}

#[test]
fn random_edits_use_pages_again(rt: HostRuntime) -> Result<(), Fail> {
    let alloc = rt.alloc();
    edit(&mut OrderedIndex::new(alloc, 3), 1000)?;
    let scarce = is_edited_in(alloc, &mut OrderedIndex::new(alloc, 3), USED_AGAIN)?;
    assert_eq!(rt; scarce, (true, true));
    Ok(())
}
