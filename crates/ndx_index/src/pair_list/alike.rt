//! What all keys of a list have in common.

ghost use Rattle.std.specs.Prelude.{◌≡◌, ◌↔◌, ◌≤◌, length, take, IsTrue};
ghost use Rattle.ndx_index.specs.Sorting.{BeginAlike, EndAlike};

use crate::pair_list::PairList;

/// How many bytes all keys of a list begin alike with. It takes no memory.
#[tactic(auto, using(crate::proofs::Alike::fewer_alike))]
pub(crate) fn common_start(pairs: &PairList) -> usize
    ensures alike { BeginAlike result pairs.now.pairs }
    ensures inside { result ≤ pairs.now.key_len }
{
    let mut common = pairs.key_len();
    for at in 1..pairs.len() {
        let first = pairs.key(0);
        let key = pairs.key(at);
        common = start_of_two(first, key, common);
    }
    common
}

// How many bytes two keys begin alike with, up to a count that both have.
fn start_of_two(a: &[u8], b: &[u8], most: usize) -> usize
    requires first { most ≤ length a.now }
    requires second { most ≤ length b.now }
    ensures most { result ≤ most }
    ensures alike { take result a.now ≡ take result b.now }
{
    for at in 0..most {
        if a[at] != b[at] {
            return at;
        }
    }
    most
}

/// Whether all keys of a list are known to be alike from a place on. It takes no memory.
#[tactic(auto, using(crate::proofs::Alike::end_from_cut))]
pub(crate) fn end_alike(pairs: &PairList, place: usize) -> bool
    ensures alike { IsTrue result → EndAlike place pairs.now.pairs }
{
    let start = place.min(pairs.key_len());
    for at in 1..pairs.len() {
        let first = pairs.key(0);
        let key = pairs.key(at);
        if !is_same(&key[start..], &first[start..]) {
            return false;
        }
    }
    true
}

// Whether two runs of bytes are the same.
fn is_same(a: &[u8], b: &[u8]) -> bool
    ensures value { IsTrue result ↔ (a.now ≡ b.now) }
{
    a == b
}
