//! Searches in a tree.

ghost use Rattle.std.specs.Prelude.{◌≡◌, ◌++◌, not, find, reverse, slice_get, Some, OnOk, IfSome};
ghost use Rattle.std.specs.Option.{option_map};
ghost use Rattle.ndx_index.specs.Bounds.{passes};
ghost use Rattle.ndx_index.specs.IndexTree.{pairs_under, IsTree};
ghost use Rattle.ndx_index.specs.Order.{AreInOrder};
ghost use Rattle.ndx_index.specs.PageStore.{page_in};
ghost use Rattle.ndx_index.specs.LeafPlaces.{last_in, last_of_leaf, pair_at_place, IsPlace};
ghost use Rattle.ndx_index.specs.Slots.{slot_at};

use crate::pages::bound::Bound;
use crate::pages::place::{Branch, Place};
use crate::pages::store::PageStore;
use crate::pair::Pair;
use crate::pair_list::PairList;
use std::alloc::AllocError;

/// The least pair under a page, this many levels above the leaves.
pub(crate) fn first_under(store: &PageStore, level: usize, page: u32) -> Pair
    requires tree { IsTree level store.now.pages page }
    ensures pair { slice_get (pairs_under level store.now.pages page) 0 ≡ Some result }
{
    store.pair(first_leaf(store, level, page), 0)
}

// The leaf of the least pair under a page, which stands first there.
fn first_leaf(store: &PageStore, level: usize, page: u32) -> u32
    requires tree { IsTree level store.now.pages page }
    ensures place { IsPlace store.now.pages (record { page = result; at = 0 }) }
    ensures pair { slice_get (pairs_under level store.now.pages page) 0 ≡ Some (slot_at (page_in store.now.pages result).pairs 0) }
{
    if level == 0 {
        page
    } else {
        first_leaf(store, level - 1, store.link(page, 0))
    }
}

/// The greatest pair under a page.
pub(crate) fn last_under(store: &PageStore, level: usize, page: u32) -> Pair
    requires tree { IsTree level store.now.pages page }
    ensures pair { last_in (pairs_under level store.now.pages page) ≡ Some result }
{
    let leaf = last_leaf(store, level, page);
    store.pair(leaf, store.pair_count(leaf) - 1)
}

// The leaf of the greatest pair under a page, which stands last there.
fn last_leaf(store: &PageStore, level: usize, page: u32) -> u32
    requires tree { IsTree level store.now.pages page }
    ensures place { IsPlace store.now.pages (last_of_leaf store.now.pages result) }
    ensures pair { last_in (pairs_under level store.now.pages page) ≡ Some (pair_at_place store.now.pages (last_of_leaf store.now.pages result)) }
{
    if level == 0 {
        page
    } else {
        last_leaf(
            store,
            level - 1,
            store.link(page, store.link_count(page) - 1),
        )
    }
}

/// Where the least pair under a page, this many levels above the leaves, that passes a search's test stands: in the leaf
/// that the search goes down to, or else first in the branch after it. No pair is copied on the way.
pub(crate) fn first_place(
    store: &PageStore,
    level: usize,
    page: u32,
    bound: &Bound<'_>,
) -> Option<Place>
    requires tree { IsTree level store.now.pages page }
    requires order { AreInOrder (pairs_under level store.now.pages page) }
    ensures place { IfSome result (IsPlace store.now.pages) }
    ensures pair { option_map (pair_at_place store.now.pages) result ≡ find (passes bound.now) (pairs_under level store.now.pages page) }
{
    let mut here = Branch { level, page };
    let mut next = None;
    'levels: while here.level > 0 {
        let level = here.level - 1;
        let at = store.place(here.page, bound);
        if store.link_count(here.page) > at + 1 {
            let page = store.link(here.page, at + 1);
            next = Some(Branch { level, page });
        }
        let page = store.link(here.page, at);
        here = Branch { level, page };
    }
    let at = store.place(here.page, bound);
    if at < store.pair_count(here.page) {
        let page = here.page;
        return Some(Place { page, at });
    }
    let branch: Branch = next?;
    let page = first_leaf(store, branch.level, branch.page);
    Some(Place { page, at: 0 })
}

/// Where the greatest pair under a page that doesn't pass a search's test stands: in the leaf that the search goes down
/// to, or else last in the branch before it. No pair is copied on the way.
pub(crate) fn last_place(
    store: &PageStore,
    level: usize,
    page: u32,
    bound: &Bound<'_>,
) -> Option<Place>
    requires tree { IsTree level store.now.pages page }
    requires order { AreInOrder (pairs_under level store.now.pages page) }
    ensures place { IfSome result (IsPlace store.now.pages) }
    ensures pair { option_map (pair_at_place store.now.pages) result ≡ find (λ q. not (passes bound.now q)) (reverse (pairs_under level store.now.pages page)) }
{
    let mut here = Branch { level, page };
    let mut previous = None;
    'levels: while here.level > 0 {
        let level = here.level - 1;
        let at = store.place(here.page, bound);
        if at > 0 {
            let page = store.link(here.page, at - 1);
            previous = Some(Branch { level, page });
        }
        let page = store.link(here.page, at);
        here = Branch { level, page };
    }
    let at = store.place(here.page, bound);
    if at > 0 {
        let page = here.page;
        return Some(Place { page, at: at - 1 });
    }
    let branch: Branch = previous?;
    let page = last_leaf(store, branch.level, branch.page);
    Some(Place {
        page,
        at: store.pair_count(page) - 1,
    })
}

/// Puts the pairs under a page after others. An `Err` says that there was no memory.
pub(crate) fn push_pairs(
    store: &PageStore,
    level: usize,
    page: u32,
    pairs: &mut PairList,
) -> Result<(), AllocError>
    requires tree { IsTree level store.now.pages page }
    requires keys { pairs.old.key_len ≡ store.now.key_len }
    ensures pairs { OnOk result (pairs.new.pairs ≡ pairs.old.pairs ++ pairs_under level store.now.pages page) }
    ensures key_len { pairs.new.key_len ≡ pairs.old.key_len }
{
    if level == 0 {
        return push_leaf(store, page, pairs);
    }
    for at in 0..store.link_count(page) {
        push_pairs(store, level - 1, store.link(page, at), pairs)?;
    }
    Ok(())
}

// Puts the pairs of a leaf after others.
fn push_leaf(store: &PageStore, page: u32, pairs: &mut PairList) -> Result<(), AllocError>
    requires tree { IsTree 0 store.now.pages page }
    requires keys { pairs.old.key_len ≡ store.now.key_len }
    ensures pairs { OnOk result (pairs.new.pairs ≡ pairs.old.pairs ++ pairs_under 0 store.now.pages page) }
    ensures key_len { pairs.new.key_len ≡ pairs.old.key_len }
{
    pairs.extend(store.part(page))
}
