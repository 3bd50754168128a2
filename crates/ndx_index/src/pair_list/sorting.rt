//! A list of pairs, put in order.
//!
//! Entries of sixteen bytes are sorted in place of the pairs. Eight bytes of a key are a number in its entry: those after the
//! bytes that all keys begin alike with. Mostly they tell how two pairs stand, and where all keys are alike after them no key is
//! looked at. The pairs themselves are copied once, when their order is known.

ghost use Rattle.std.specs.Prelude.{◌≡◌, ◌<◌, ◌≤◌, length, map, drop, IfOk, All};
ghost use Rattle.std.specs.List.Sorted.{IsPermutation, IsSorted};
ghost use Rattle.ndx_index.specs.Order.{in_order, pair_cmp};
ghost use Rattle.ndx_index.specs.Slots.{slot_at};
ghost use Rattle.ndx_index.specs.Sorting.{entry_cmp, front_cmp, place_cmp};
ghost use Rattle.ndx_index.specs.Sorting.{front_number, entry_of_place, sort_entries, pair_of_entry, AreBytes, HaveBytes, BeginAlike, IsOfPlace};

use crate::pages::pair_pages::with_upper_pages;
use crate::pages::slots::PairSlots;
use crate::pair_list::PairList;
use crate::pair_list::alike::{common_start, end_alike};
use byteorder::{BigEndian, ByteOrder};
use std::alloc::{AllocError, Global};
use std::cmp::Ordering;

// The bytes of a key that are the number in its entry.
const FRONT_BYTES: usize = 8;

// The most entries, since the place of each is a number of four bytes.
const MAX_PLACES: usize = u32::MAX as usize;

/// A pair while a list is sorted: bytes of its key as one number, its record number, and its place in the list.
#[derive(Clone, Copy)]
pub(crate) struct SortEntry {
    front: u64,
    number: u32,
    place: u32,
}

/// The pairs of a list, put in order. `AllocError` where there is no memory for them, or more pairs than four bytes can number.
pub(crate) fn sorted(alloc: Global, pairs: &PairList) -> Result<PairList, AllocError>
    ensures key_len { IfOk result (λ list. list.key_len ≡ pairs.now.key_len) }
    ensures pairs { IfOk result (λ list. list.pairs ≡ in_order pairs.now.pairs) }
{
    let start = front_start(pairs);
    let mut entries = entries_of(alloc, pairs, start)?;
    put_in_order(pairs, start, &mut entries);
    gathered(alloc, pairs, entries.as_slice())
}

// Where the bytes of the entries' numbers begin in each key: after those that all keys begin alike with, but not so late that
// fewer than eight are left.
#[tactic(auto, using(crate::proofs::Alike::fewer_begin))]
fn front_start(pairs: &PairList) -> usize
    ensures alike { BeginAlike result pairs.now.pairs }
    ensures inside { result ≤ pairs.now.key_len }
{
    let latest = pairs.key_len().saturating_sub(FRONT_BYTES);
    common_start(pairs).min(latest)
}

// An entry for each pair, in the order of the list.
fn entries_of(alloc: Global, pairs: &PairList, start: usize) -> Result<Vec<SortEntry>, AllocError>
    requires inside { start ≤ pairs.now.key_len }
    ensures entries { IfOk result (λ entries. entries.items ≡ sort_entries start pairs.now.pairs) }
    ensures bytes { IfOk result (λ _. HaveBytes start pairs.now.pairs) }
{
    let count = pairs.len();
    if count > MAX_PLACES {
        return Err(AllocError);
    }
    let mut entries = Vec::new(alloc);
    entries.reserve(count)?;
    for place in 0..count {
        entries.push(entry_at(pairs, start, place))?;
    }
    Ok(entries)
}

// The entry of the pair at a place.
fn entry_at(pairs: &PairList, start: usize, place: usize) -> SortEntry
    requires inside { start ≤ pairs.now.key_len }
    requires place { place < length pairs.now.pairs }
    requires numbered { place ≤ MAX_PLACES }
    ensures entry { result ≡ entry_of_place start pairs.now.pairs place }
    ensures bytes { AreBytes (drop start (slot_at pairs.now.pairs place).key) }
{
    // For contracts alone: all keys have one length.
    let _ = pairs.key_len();
    let key = pairs.key(place);
    SortEntry {
        front: front_of(&key[start..]),
        number: pairs.number(place),
        place: place as u32,
    }
}

// The first bytes of a run as one number, the highest first: eight, or all where there are fewer.
fn front_of(run: &[u8]) -> u64
    ensures value { result ≡ front_number run.now }
    ensures bytes { AreBytes run.now }
{
    if run.len() >= FRONT_BYTES {
        return BigEndian::read_u64(run);
    }
    if run.is_empty() {
        return 0;
    }
    BigEndian::read_uint(run, run.len())
}

// Puts the entries of a list in the order of its pairs.
fn put_in_order(pairs: &PairList, start: usize, entries: &mut Vec<SortEntry>)
    requires entries { entries.old.items ≡ sort_entries start pairs.now.pairs }
    requires bytes { HaveBytes start pairs.now.pairs }
    requires alike { BeginAlike start pairs.now.pairs }
    requires inside { start ≤ pairs.now.key_len }
    ensures permutation { IsPermutation entries.old.items entries.new.items }
    ensures sorted { IsSorted (place_cmp pairs.now.pairs) entries.new.items }
{
    // For contracts alone: all keys have one length.
    let _ = pairs.key_len();
    if end_alike(pairs, start + FRONT_BYTES) {
        entries.sort_unstable_by(|a, b| compare_fronts(a, b));
    } else {
        entries.sort_unstable_by(|a, b| compare(pairs, a, b));
    }
}

// How two pairs stand whose keys are alike but for the bytes in the entries: by these, and then by their record numbers.
fn compare_fronts(a: &SortEntry, b: &SortEntry) -> Ordering
    ensures value { result ≡ front_cmp a.now b.now }
{
    a.front.cmp(&b.front).then(a.number.cmp(&b.number))
}

// How two pairs stand: by the bytes in the entries, and where these are the same by the pairs themselves.
fn compare(pairs: &PairList, a: &SortEntry, b: &SortEntry) -> Ordering
    ensures value { result ≡ entry_cmp pairs.now.pairs a.now b.now }
{
    match a.front.cmp(&b.front) {
        Ordering::Equal => compare_places(pairs, a.place as usize, b.place as usize),
        order => order,
    }
}

// How the pairs of two places stand.
fn compare_places(pairs: &PairList, a: usize, b: usize) -> Ordering
    ensures value { result ≡ pair_cmp (slot_at pairs.now.pairs a) (slot_at pairs.now.pairs b) }
{
    match key_at(pairs, a).cmp(key_at(pairs, b)) {
        Ordering::Equal => number_at(pairs, a).cmp(&number_at(pairs, b)),
        order => order,
    }
}

// The key of the pair of a place. Outside the list, where no entry points, it has no bytes: what compares entries is asked
// to answer of any.
fn key_at(pairs: &PairList, place: usize) -> &[u8]
    ensures key { result.now ≡ (slot_at pairs.now.pairs place).key }
{
    if place < pairs.len() {
        pairs.key(place)
    } else {
        &[]
    }
}

// The record number of the pair of a place; 0 outside the list.
fn number_at(pairs: &PairList, place: usize) -> u32
    ensures number { result ≡ (slot_at pairs.now.pairs place).number }
{
    if place < pairs.len() {
        pairs.number(place)
    } else {
        0
    }
}

// The pairs of the entries, one after another.
fn gathered(alloc: Global, pairs: &PairList, entries: &[SortEntry]) -> Result<PairList, AllocError>
    requires places { All (IsOfPlace pairs.now.pairs) entries.now }
    ensures key_len { IfOk result (λ list. list.key_len ≡ pairs.now.key_len) }
    ensures pairs { IfOk result (λ list. list.pairs ≡ map (pair_of_entry pairs.now.pairs) entries.now) }
{
    let mut slots = PairSlots::new(alloc, pairs.key_len());
    slots.reserve(with_upper_pages(entries.len()))?;
    for entry in entries {
        slots.push(pairs.key(entry.place as usize), entry.number);
    }
    Ok(PairList { slots })
}
