//! Pairs whose keys have one length, in runs of bytes.

ghost use Rattle.std.specs.Prelude.{◌≡◌, ◌+◌, ◌-◌, ◌<◌, ◌≤◌, ◌∷◌, ◌++◌, [], length, map, take, drop, replicate, slice_set, OnOk};
ghost use Rattle.std.specs.List.{copy_within};
ghost use Rattle.key_expr.specs.declared.format.TheConstants.{MAX_KEY_BYTES};
ghost use Rattle.ndx_index.specs.Bounds.{passes};
ghost use Rattle.ndx_index.specs.Index.{HaveLength};
ghost use Rattle.ndx_index.specs.ListParts.{listed};
ghost use Rattle.ndx_index.specs.Order.{before};
ghost use Rattle.ndx_index.specs.Slots.{slot_at, blank};

use crate::compare::ends_are_before;
use crate::pages::bound::Bound;
use crate::pages::runs::{copy_parts, part, push_copies, push_run, write_part};
use crate::pair::Pair;
use crate::pair_list::part::ListPart;
use key_expr::Key;
use std::alloc::{AllocError, Global};
use std::cmp::Ordering;
use std::marker::Model;

/// Pairs whose keys have one length, in numbered slots. A slot takes the key's bytes and four more.
/// Contracts see the list of pairs, and how many slots can be put after it without taking memory.
#[derive(Drop)]
pub(crate) struct PairSlots {
    key_len: usize,
    keys: Vec<u8>,
    numbers: Vec<u32>,
    spare: usize,
}

impl Model for PairSlots {
    ghost use Rattle.ndx_index.specs.Slots.{Slots, slots_view, AreRuns};

    ghost Value = { Slots };

    ghost view = { slots_view };

    ghost invariant = { AreRuns };
}

impl PairSlots {
    /// No slots, for keys of this length. It takes no memory.
    pub(crate) fn new(alloc: Global, key_len: usize) -> Self
        requires short { key_len ≤ MAX_KEY_BYTES }
        ensures key_len { result.key_len ≡ key_len }
        ensures pairs { result.pairs ≡ [] }
        ensures spare { result.spare ≡ 0 }
    {
        PairSlots {
            key_len,
            keys: Vec::new(alloc),
            numbers: Vec::new(alloc),
            spare: 0,
        }
    }

    /// The length of each key.
    pub(crate) fn key_len(&self) -> usize
        ensures value { result ≡ self.now.key_len }
        ensures short { self.now.key_len ≤ MAX_KEY_BYTES }
        ensures keys { HaveLength self.now.key_len self.now.pairs }
    {
        self.key_len
    }

    /// How many slots there are.
    pub(crate) fn len(&self) -> usize
        ensures count { result ≡ length self.now.pairs }
    {
        self.numbers.len()
    }

    /// All slots, lent.
    pub(crate) fn all(&self) -> ListPart<'_>
        ensures pairs { listed result ≡ self.now.pairs }
        ensures key_len { result.key_len ≡ self.now.key_len }
    {
        ListPart {
            key_len: self.key_len,
            keys: self.keys.as_slice(),
            numbers: self.numbers.as_slice(),
        }
    }

    /// The `count` slots from one on, lent.
    pub(crate) fn part(&self, at: usize, count: usize) -> ListPart<'_>
        requires inside { at + count ≤ length self.now.pairs }
        ensures pairs { listed result ≡ take count (drop at self.now.pairs) }
        ensures key_len { result.key_len ≡ self.now.key_len }
    {
        let (_, rest) = self.all().split_at(at);
        let (here, _) = rest.split_at(count);
        here
    }

    /// The bytes of a slot's key.
    pub(crate) fn key(&self, at: usize) -> &[u8]
        requires place { at < length self.now.pairs }
        ensures bytes { result.now ≡ (slot_at self.now.pairs at).key }
        ensures len { length result.now ≡ self.now.key_len }
        ensures short { length result.now ≤ MAX_KEY_BYTES }
    {
        part(self.keys.as_slice(), self.key_len, at)
    }

    /// A slot's record number.
    pub(crate) fn number(&self, at: usize) -> u32
        requires place { at < length self.now.pairs }
        ensures number { result ≡ (slot_at self.now.pairs at).number }
    {
        self.numbers[at]
    }

    /// A slot's pair.
    pub(crate) fn get(&self, at: usize) -> Pair
        requires place { at < length self.now.pairs }
        ensures pair { result ≡ slot_at self.now.pairs at }
        ensures key { length result.key ≡ self.now.key_len }
    {
        Pair {
            key: Key::new(self.key(at)),
            number: self.number(at),
        }
    }

    /// Whether a slot's pair passes a search's test. It copies no key.
    pub(crate) fn passes(&self, at: usize, bound: &Bound<'_>) -> bool
        requires place { at < length self.now.pairs }
        ensures value { result ≡ passes bound.now (slot_at self.now.pairs at) }
    {
        let key = self.key(at);
        if let Some(is_before) = ends_are_before(key, bound.key) {
            return !is_before;
        }
        match key.cmp(&bound.key) {
            Ordering::Equal => u64::from(self.number(at)) >= bound.number,
            order => !order.is_lt(),
        }
    }

    /// Whether a slot's pair stands before another slot's. It copies no key.
    pub(crate) fn is_before(&self, at: usize, other: usize) -> bool
        requires place { at < length self.now.pairs }
        requires other { other < length self.now.pairs }
        ensures value { result ≡ before (slot_at self.now.pairs at) (slot_at self.now.pairs other) }
    {
        let bound = Bound {
            key: self.key(other),
            number: u64::from(self.number(other)),
        };
        !self.passes(at, &bound)
    }

    /// The record numbers; the keys are let go. It takes no memory.
    pub(crate) fn into_numbers(self) -> Vec<u32>
        ensures numbers { result.items ≡ map (λ p. p.number) self.pairs }
    {
        self.numbers
    }

    /// Puts a pair into a slot, in place of what is there. It takes no memory.
    pub(crate) fn set(&mut self, at: usize, pair: &Pair)
        requires place { at < length self.old.pairs }
        requires key { length pair.now.key ≡ self.old.key_len }
        ensures pairs { self.new.pairs ≡ slice_set self.old.pairs at pair.now }
        ensures len { length self.new.pairs ≡ length self.old.pairs }
        ensures key_len { self.new.key_len ≡ self.old.key_len }
        ensures spare { self.new.spare ≡ self.old.spare }
    {
        write_part(&mut self.keys, self.key_len, at, pair.key.as_bytes());
        self.numbers[at] = pair.number;
    }

    /// Copies the slots from `start` up to `end` to those from `dest` on, also where they overlap. It takes no memory.
    pub(crate) fn copy_within(&mut self, start: usize, end: usize, dest: usize)
        requires order { start ≤ end }
        requires inside { end ≤ length self.old.pairs }
        requires room { dest + (end - start) ≤ length self.old.pairs }
        ensures pairs { self.new.pairs ≡ copy_within self.old.pairs start end dest }
        ensures len { length self.new.pairs ≡ length self.old.pairs }
        ensures key_len { self.new.key_len ≡ self.old.key_len }
        ensures spare { self.new.spare ≡ self.old.spare }
    {
        copy_parts(&mut self.keys, self.key_len, start, end, dest);
        self.numbers.copy_within(start..end, dest);
    }

    /// Makes room for n slots more. `AllocError` where there is no memory; no room is lost then.
    pub(crate) fn reserve(&mut self, n: usize) -> Result<(), AllocError>
        ensures ok { OnOk result (n ≤ self.new.spare) }
        ensures pairs { self.new.pairs ≡ self.old.pairs }
        ensures key_len { self.new.key_len ≡ self.old.key_len }
        ensures spare { self.old.spare ≤ self.new.spare }
    {
        if n <= self.spare {
            return Ok(());
        }
        let bytes = n.checked_mul(self.key_len).ok_or(AllocError)?;
        self.keys.reserve(bytes)?;
        self.numbers.reserve(n)?;
        self.spare = n;
        Ok(())
    }

    /// Puts pairs after the others. It takes the room that was reserved, and no memory.
    pub(crate) fn push_part(&mut self, part: ListPart<'_>)
        requires key { part.key_len ≡ self.old.key_len }
        requires room { length (listed part) ≤ self.old.spare }
        ensures pairs { self.new.pairs ≡ self.old.pairs ++ listed part.entry }
        ensures key_len { self.new.key_len ≡ self.old.key_len }
        ensures spare { self.new.spare + length (listed part.entry) ≡ self.old.spare }
    {
        push_run(&mut self.keys, part.keys);
        push_run(&mut self.numbers, part.numbers);
        self.spare -= part.numbers.len();
    }

    /// Puts a pair after the others, by the bytes of its key and its record number. It takes the room that was
    /// reserved, and no memory.
    pub(crate) fn push(&mut self, key: &[u8], number: u32)
        requires key { length key.now ≡ self.old.key_len }
        requires room { 0 < self.old.spare }
        ensures pairs { self.new.pairs ≡ self.old.pairs ++ record { key = key.now; number = number } ∷ [] }
        ensures key_len { self.new.key_len ≡ self.old.key_len }
        ensures spare { self.new.spare + 1 ≡ self.old.spare }
    {
        push_run(&mut self.keys, key);
        self.numbers.push_reserved(number);
        self.spare -= 1;
    }

    /// Puts n blank slots after the others. It takes the room that was reserved, and no memory.
    pub(crate) fn push_blank(&mut self, n: usize)
        requires room { n ≤ self.old.spare }
        ensures pairs { self.new.pairs ≡ self.old.pairs ++ replicate n (blank self.old.key_len) }
        ensures key_len { self.new.key_len ≡ self.old.key_len }
        ensures spare { self.new.spare + n ≡ self.old.spare }
    {
        push_copies(&mut self.keys, n * self.key_len, 0);
        push_copies(&mut self.numbers, n, 0);
        self.spare -= n;
    }
}
