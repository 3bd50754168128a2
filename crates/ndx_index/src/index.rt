//! Pairs in order.

ghost use Rattle.std.specs.Prelude.{◌≡◌, ◌+◌, ◌-◌, ◌<◌, ◌≤◌, ◌↔◌, [], length, slice_get, not, find, reverse, Contains, IsTrue, OnOk, IfOk, true, false};
ghost use Rattle.std.specs.List.{IsDistinct};
ghost use Rattle.key_expr.specs.declared.format.TheConstants.{MAX_KEY_BYTES};
ghost use Rattle.ndx_index.specs.Bounds.{passes};
ghost use Rattle.ndx_index.specs.Index.{HaveLength};
ghost use Rattle.ndx_index.specs.Order.{same, in_order, with_pair, without_pair, first_from, next_of, previous_of, AreInOrder};
ghost use Rattle.ndx_index.specs.Renumbered.{renumbered, HaveNewNumbers};

use crate::pages::bound::Bound;
use crate::pages::free::{FreeList, make_free};
use crate::pages::insert::insert_in;
use crate::pages::pair_pages::PLACES;
use crate::pages::remove::remove_in;
use crate::pages::root::{Root, join_leaves};
use crate::pages::search::{first_place, first_under, last_place, last_under, push_pairs};
use crate::pages::store::PageStore;
use crate::pair::Pair;
use crate::pair_list::PairList;
use crate::pair_list::sorting::sorted;
use std::alloc::{AllocError, Global};
use std::marker::Model;

/// The pairs of an index in order, none of them twice, whose keys all have one length. Contracts see that
/// length, the list of pairs, and how many inserts have room.
///
/// The pairs stand in pages of sixteen places, which make a tree: an insert and a removal change a page a level,
/// and a search reads one a level. A search and a removal take no memory. A page that a removal empties is free for
/// later inserts: each page is in the tree or free, once, and none is lost.
#[derive(Drop)]
pub struct OrderedIndex {
    store: PageStore,
    free: FreeList,
    root: Root,
}

impl Model for OrderedIndex {
    ghost use Rattle.ndx_index.specs.Index.{Index};
    ghost use Rattle.ndx_index.specs.PagedIndex.{index_view, IsPaged};

    ghost Value = { Index };

    ghost view = { index_view };

    ghost invariant = { IsPaged };
}

impl OrderedIndex {
    /// An index without pairs, for keys of this many bytes. It takes no memory.
    pub fn new(alloc: Global, key_len: usize) -> Self
        requires short { key_len ≤ MAX_KEY_BYTES }
        ensures key_len { result.key_len ≡ key_len }
        ensures pairs { result.pairs ≡ [] }
    {
        OrderedIndex {
            store: PageStore::new(alloc, key_len),
            free: FreeList { head: 0, count: 0 },
            root: Root { page: 0, levels: 0 },
        }
    }

    /// The index of these pairs, put in order where they don't stand in it already. `AllocError` where there is no memory
    /// for it, or more pairs than can be numbered.
    pub fn from_pairs(alloc: Global, pairs: PairList) -> Result<Self, AllocError>
        requires distinct { IsDistinct same pairs.pairs }
        ensures key_len { IfOk result (λ index. index.key_len ≡ pairs.key_len) }
        ensures pairs { IfOk result (λ index. index.pairs ≡ in_order pairs.pairs) }
    {
        if pairs.is_in_order() {
            return OrderedIndex::from_sorted(alloc, pairs);
        }
        let list = sorted(alloc, &pairs)?;
        // The pairs as they came are let go before the pages are made.
        drop(pairs);
        OrderedIndex::from_sorted(alloc, list)
    }

    /// The index of these pairs, which stand in order; they stay where they are, and its pages are filled from the left. `AllocError` where
    /// there is no memory for it, or more pairs than its pages can be numbered for.
    pub fn from_sorted(alloc: Global, pairs: PairList) -> Result<Self, AllocError>
        requires ordered { AreInOrder pairs.pairs }
        ensures key_len { IfOk result (λ index. index.key_len ≡ pairs.key_len) }
        ensures pairs { IfOk result (λ index. index.pairs ≡ pairs.pairs) }
    {
        // For contracts alone: all keys have one length.
        let _ = pairs.key_len();
        let mut store = PageStore::of_leaves(alloc, pairs.slots)?;
        let root = join_leaves(&mut store)?;
        Ok(OrderedIndex {
            store,
            free: FreeList { head: 0, count: 0 },
            root,
        })
    }

    /// The length of the keys.
    pub fn key_len(&self) -> usize
        ensures key_len { result ≡ self.now.key_len }
        ensures keys { HaveLength self.now.key_len self.now.pairs }
    {
        self.store.key_len()
    }

    /// Makes room for one insert at least. `AllocError` where there is no memory for it; the pairs are the
    /// same then, and no room is lost.
    pub fn reserve(&mut self) -> Result<(), AllocError>
        ensures ok { OnOk result (0 < self.new.spare) }
        ensures key_len { self.new.key_len ≡ self.old.key_len }
        ensures pairs { self.new.pairs ≡ self.old.pairs }
        ensures spare { self.old.spare ≤ self.new.spare }
    {
        make_free(&mut self.store, &mut self.free, self.root.levels + 1)
    }

    /// Puts an absent pair where it belongs. It takes one insert's room, no memory, and can't fail.
    pub fn insert(&mut self, pair: Pair)
        requires room { 0 < self.old.spare }
        requires key { length pair.key ≡ self.old.key_len }
        requires absent { Contains self.old.pairs pair → ⊥ }
        ensures key_len { self.new.key_len ≡ self.old.key_len }
        ensures pairs { self.new.pairs ≡ with_pair pair self.old.pairs }
        ensures spare { self.old.spare ≤ self.new.spare + 1 }
    {
        insert_in(&mut self.store, &mut self.free, &mut self.root, &pair);
    }

    /// Takes the pair out, and says whether it was there. It takes no memory, and no room is lost.
    pub fn remove(&mut self, pair: Pair) -> bool
        ensures found { IsTrue result ↔ Contains self.old.pairs pair }
        ensures key_len { self.new.key_len ≡ self.old.key_len }
        ensures pairs { self.new.pairs ≡ without_pair pair self.old.pairs }
        ensures spare { self.old.spare ≤ self.new.spare }
    {
        let Some(found) = self.first_passing(&Bound::at_least(&pair)) else {
            return false;
        };
        if found != pair {
            return false;
        }
        remove_in(&mut self.store, &mut self.free, &mut self.root, &pair);
        true
    }

    /// The least pair; `None` of an index without pairs.
    pub fn first(&self) -> Option<Pair>
        ensures pair { result ≡ slice_get self.now.pairs 0 }
        ensures ordered { AreInOrder self.now.pairs }
    {
        if self.root.levels == 0 {
            return None;
        }
        Some(first_under(&self.store, self.root.levels - 1, self.root.page))
    }

    /// The greatest pair; `None` of an index without pairs.
    pub fn last(&self) -> Option<Pair>
        ensures pair { result ≡ slice_get self.now.pairs (length self.now.pairs - 1) }
    {
        if self.root.levels == 0 {
            return None;
        }
        Some(last_under(&self.store, self.root.levels - 1, self.root.page))
    }

    /// The least pair whose key isn't below the prefix.
    pub fn first_from(&self, prefix: &[u8]) -> Option<Pair>
        ensures pair { result ≡ first_from prefix.now self.now.pairs }
    {
        self.first_passing(&Bound::reaching(prefix))
    }

    /// The least pair above the given one, which may be absent.
    pub fn next(&self, pair: Pair) -> Option<Pair>
        ensures pair { result ≡ next_of pair self.now.pairs }
    {
        self.first_passing(&Bound::above(&pair))
    }

    /// The greatest pair below the given one, which may be absent.
    pub fn previous(&self, pair: Pair) -> Option<Pair>
        ensures pair { result ≡ previous_of pair self.now.pairs }
    {
        self.last_failing(&Bound::at_least(&pair))
    }

    /// All pairs in order, copied out. `AllocError` where there is no memory for them.
    pub fn pairs(&self, alloc: Global) -> Result<PairList, AllocError>
        ensures key_len { IfOk result (λ list. list.key_len ≡ self.now.key_len) }
        ensures pairs { IfOk result (λ list. list.pairs ≡ self.now.pairs) }
        ensures ordered { AreInOrder self.now.pairs }
        ensures keys { HaveLength self.now.key_len self.now.pairs }
    {
        self.list(alloc)
    }

    /// The index by new numbers of its records: of a record, the new number stands at its number less one. The pairs of
    /// those that have none, 0, are left out; the others stand in order by the new numbers too, as where these rise with the
    /// old ones. `AllocError` where there is no memory for it.
    pub fn renumbered(&self, alloc: Global, numbers: &[u32]) -> Result<Self, AllocError>
        requires numbers { HaveNewNumbers numbers.now self.now.pairs }
        requires ordered { AreInOrder (renumbered numbers.now self.now.pairs) }
        ensures key_len { IfOk result (λ index. index.key_len ≡ self.now.key_len) }
        ensures pairs { IfOk result (λ index. index.pairs ≡ renumbered numbers.now self.now.pairs) }
    {
        let old = self.list(alloc)?;
        let kept = old.renumbered(alloc, numbers)?;
        // The old pairs are let go before the pages are made.
        drop(old);
        OrderedIndex::from_sorted(alloc, kept)
    }

    // All pairs in order, copied into a list.
    fn list(&self, alloc: Global) -> Result<PairList, AllocError>
        ensures key_len { IfOk result (λ list. list.key_len ≡ self.now.key_len) }
        ensures pairs { IfOk result (λ list. list.pairs ≡ self.now.pairs) }
        ensures ordered { AreInOrder self.now.pairs }
        ensures keys { HaveLength self.now.key_len self.now.pairs }
    {
        let mut pairs = PairList::new(alloc, self.store.key_len());
        // At once, so that the list isn't copied as it grows.
        pairs
            .slots
            .reserve(self.store.page_count() as usize * PLACES)?;
        if self.root.levels > 0 {
            push_pairs(
                &self.store,
                self.root.levels - 1,
                self.root.page,
                &mut pairs,
            )?;
        }
        Ok(pairs)
    }

    // The least pair that passes a search's test.
    fn first_passing(&self, bound: &Bound<'_>) -> Option<Pair>
        ensures pair { result ≡ find (passes bound.now) self.now.pairs }
    {
        if self.root.levels == 0 {
            return None;
        }
        let place = first_place(&self.store, self.root.levels - 1, self.root.page, bound)?;
        Some(self.store.pair(place.page, place.at))
    }

    // The greatest pair that doesn't pass a search's test.
    fn last_failing(&self, bound: &Bound<'_>) -> Option<Pair>
        ensures pair { result ≡ find (λ q. not (passes bound.now q)) (reverse self.now.pairs) }
    {
        if self.root.levels == 0 {
            return None;
        }
        let place = last_place(&self.store, self.root.levels - 1, self.root.page, bound)?;
        Some(self.store.pair(place.page, place.at))
    }
}
