//! Pairs in order, asked for by keys that the index has not.

ghost use Rattle.std.specs.Prelude.{◌≡◌, ◌∷◌, [], length, IfOk};

use super::sample::{index_of, key, pair};
use key_expr::Key;
use ndx_index::{OrderedIndex, Pair, PairList};
use std::alloc::Global;
use std::test::Fail;

// A list of three pairs.
fn three(alloc: Global, first: Pair, second: Pair, third: Pair) -> Result<PairList, Fail>
    requires first { length first.key ≡ 3 }
    requires second { length second.key ≡ 3 }
    requires third { length third.key ≡ 3 }
    ensures pairs { IfOk result (λ list. list.pairs ≡ first ∷ second ∷ third ∷ []) }
{
    let mut list = PairList::new(alloc, 3);
    list.push(&first)?;
    list.push(&second)?;
    list.push(&third)?;
    Ok(list)
}

// The index of three pairs.
#[tactic(auto, using(ndx_index::proofs::Order::three_apart))]
fn index_of_three(
    alloc: Global,
    first: Pair,
    second: Pair,
    third: Pair,
) -> Result<OrderedIndex, Fail>
    requires first { length first.key ≡ 3 }
    requires second { length second.key ≡ 3 }
    requires third { length third.key ≡ 3 }
{
    if first.cmp(&second).is_eq() || first.cmp(&third).is_eq() || second.cmp(&third).is_eq() {
        return Err("a pair comes twice".into());
    }
    Ok(OrderedIndex::from_pairs(alloc, three(alloc, first, second, third)?)?)
}

#[test]
fn from_pairs_sorts_by_key_and_record(rt: HostRuntime) -> Result<(), Fail> {
    let (bob, later_ada, ada) = (pair(b"BOB", 1), pair(b"ADA", 3), pair(b"ADA", 2));
    let index = index_of_three(rt.alloc(), bob, later_ada, ada)?;
    let found = [index.first(), index.next(ada), index.last()];
    assert!(rt; index.key_len() == 3 && found == [Some(ada), Some(later_ada), Some(bob)]);
    Ok(())
}

// A pair whose key is shorter than those of the index.
fn short(key: &[u8; 2], number: u32) -> Pair {
    Pair {
        key: Key::new(key),
        number,
    }
}

#[test]
fn neighbours_of_an_absent_pair_are_found(rt: HostRuntime) -> Result<(), Fail> {
    let index = index_of(rt.alloc(), 12, 10)?;
    let found = [
        index.next(short(b"11", 1)),
        index.previous(short(b"11", 1)),
        index.previous(short(b"01", 1)),
    ];
    let numbers = found.map(|found| found.map(|pair| pair.number));
    assert!(rt; numbers == [Some(11), Some(10), None]);
    Ok(())
}

// Whether a pair is there once and then no more: its removal, the pair behind it and the count of pairs tell so.
fn is_removed_once(alloc: Global, index: &mut OrderedIndex) -> Result<bool, Fail> {
    let eleventh = Pair {
        key: key(11, 10),
        number: 11,
    };
    let removed = [
        index.remove(short(b"11", 11)),
        index.remove(eleventh),
        index.remove(eleventh),
    ];
    let next = index.next(eleventh).map(|pair| pair.number);
    let count = index.pairs(alloc)?.len();
    Ok(removed == [false, true, false] && next == Some(12) && count == 11)
}

#[test]
fn removed_pair_is_gone(rt: HostRuntime) -> Result<(), Fail> {
    let mut index = index_of(rt.alloc(), 12, 10)?;
    assert!(rt; is_removed_once(rt.alloc(), &mut index)?);
    Ok(())
}
