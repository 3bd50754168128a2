//! A list of pairs whose keys have one length.

ghost use Rattle.std.specs.Prelude.{◌≡◌, ◌↔◌, ◌<◌, ◌≤◌, ◌∷◌, ◌++◌, [], length, map, IfOk, OnOk, OnErr, IsTrue};
ghost use Rattle.key_expr.specs.declared.format.TheConstants.{MAX_KEY_BYTES};
ghost use Rattle.ndx_index.specs.Index.{HaveLength};
ghost use Rattle.ndx_index.specs.ListParts.{listed};
ghost use Rattle.ndx_index.specs.Order.{AreInOrder};
ghost use Rattle.ndx_index.specs.Renumbered.{renumbered, HaveNewNumbers};
ghost use Rattle.ndx_index.specs.Slots.{slot_at};

mod alike;
pub(crate) mod part;
mod parts;
pub(crate) mod sorting;

use crate::pages::pair_pages::with_upper_pages;
use crate::pages::slots::PairSlots;
use crate::pair::Pair;
use crate::pair_list::part::ListPart;
use std::alloc::{AllocError, Global};
use std::marker::Model;

/// Pairs whose keys have one length, in a list: a pair takes the bytes of its key and four more. Contracts see that
/// length and the list.
#[derive(Drop)]
pub struct PairList {
    pub(crate) slots: PairSlots,
}

impl Model for PairList {
    ghost use Rattle.ndx_index.specs.KeyedPairs.{KeyedPairs};

    ghost Value = { KeyedPairs };

    ghost view = { λ l. record { key_len = l.slots.key_len; pairs = l.slots.pairs } };
}

impl PairList {
    /// No pairs, for keys of this many bytes. It takes no memory.
    pub fn new(alloc: Global, key_len: usize) -> PairList
        requires short { key_len ≤ MAX_KEY_BYTES }
        ensures key_len { result.key_len ≡ key_len }
        ensures pairs { result.pairs ≡ [] }
    {
        PairList {
            slots: PairSlots::new(alloc, key_len),
        }
    }

    /// The length of the keys.
    pub fn key_len(&self) -> usize
        ensures key_len { result ≡ self.now.key_len }
        ensures short { self.now.key_len ≤ MAX_KEY_BYTES }
        ensures keys { HaveLength self.now.key_len self.now.pairs }
    {
        self.slots.key_len()
    }

    /// How many pairs there are.
    pub fn len(&self) -> usize
        ensures count { result ≡ length self.now.pairs }
    {
        self.slots.len()
    }

    /// The pair at a place, from 0.
    pub fn get(&self, at: usize) -> Pair
        requires place { at < length self.now.pairs }
        ensures pair { result ≡ slot_at self.now.pairs at }
    {
        self.slots.get(at)
    }

    /// The bytes of the key of the pair at a place, from 0.
    pub fn key(&self, at: usize) -> &[u8]
        requires place { at < length self.now.pairs }
        ensures key { result.now ≡ (slot_at self.now.pairs at).key }
    {
        self.slots.key(at)
    }

    /// The record number of the pair at a place, from 0.
    pub fn number(&self, at: usize) -> u32
        requires place { at < length self.now.pairs }
        ensures number { result ≡ (slot_at self.now.pairs at).number }
    {
        self.slots.number(at)
    }

    /// Whether each pair stands before all later ones, so that none comes twice. It takes no memory.
    pub fn is_in_order(&self) -> bool
        ensures value { IsTrue result ↔ AreInOrder self.now.pairs }
    {
        for at in 1..self.len() {
            if !self.slots.is_before(at - 1, at) {
                return false;
            }
        }
        true
    }

    /// The pairs by new numbers of their records: of a record, the new number stands at its number less one. The pairs of
    /// those that have none, 0, are left out. `AllocError` where there is no memory for the list.
    pub(crate) fn renumbered(&self, alloc: Global, numbers: &[u32]) -> Result<PairList, AllocError>
        requires numbers { HaveNewNumbers numbers.now self.now.pairs }
        ensures key_len { IfOk result (λ list. list.key_len ≡ self.now.key_len) }
        ensures pairs { IfOk result (λ list. list.pairs ≡ renumbered numbers.now self.now.pairs) }
    {
        let count = self.len();
        let mut slots = PairSlots::new(alloc, self.key_len());
        slots.reserve(with_upper_pages(count))?;
        for at in 0..count {
            let number = numbers[self.number(at) as usize - 1];
            if number != 0 {
                slots.push(self.key(at), number);
            }
        }
        Ok(PairList { slots })
    }

    /// The record numbers of the pairs, one after another. The keys are let go. It takes no memory.
    pub fn into_numbers(self) -> Vec<u32>
        ensures numbers { result.items ≡ map (λ p. p.number) self.pairs }
    {
        self.slots.into_numbers()
    }

    /// Makes room for so many pairs after the others, and for the pages of an index that is made of them. `AllocError` where there
    /// is no memory for them. The pairs are the same.
    pub fn reserve(&mut self, count: usize) -> Result<(), AllocError>
        ensures pairs { self.new.pairs ≡ self.old.pairs }
        ensures key_len { self.new.key_len ≡ self.old.key_len }
    {
        self.slots.reserve(with_upper_pages(count))
    }

    /// Puts a pair after the others. `AllocError` where there is no memory for it; the pairs are the same then.
    pub fn push(&mut self, pair: &Pair) -> Result<(), AllocError>
        requires key { length pair.now.key ≡ self.old.key_len }
        ensures pairs { OnOk result (self.new.pairs ≡ self.old.pairs ++ pair.now ∷ []) }
        ensures same { OnErr result (self.new.pairs ≡ self.old.pairs) }
        ensures key_len { self.new.key_len ≡ self.old.key_len }
    {
        self.slots.reserve(1)?;
        self.slots.push(pair.key.as_bytes(), pair.number);
        Ok(())
    }

    /// Puts pairs after the others. `AllocError` where there is no memory for them; the pairs are the same then.
    pub(crate) fn extend(&mut self, part: ListPart<'_>) -> Result<(), AllocError>
        requires key { part.key_len ≡ self.old.key_len }
        ensures pairs { OnOk result (self.new.pairs ≡ self.old.pairs ++ listed part.entry) }
        ensures same { OnErr result (self.new.pairs ≡ self.old.pairs) }
        ensures key_len { self.new.key_len ≡ self.old.key_len }
    {
        self.slots.reserve(part.len())?;
        self.slots.push_part(part);
        Ok(())
    }

    /// All pairs, lent.
    pub(crate) fn all(&self) -> ListPart<'_>
        ensures pairs { listed result ≡ self.now.pairs }
        ensures key_len { result.key_len ≡ self.now.key_len }
    {
        self.slots.all()
    }
}
