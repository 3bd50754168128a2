//! A full child of a page that is split.

ghost use Rattle.std.specs.Prelude.{◌≡◌, ◌+◌, ◌-◌, ◌<◌, ◌≤◌, ◌↔◌, IsTrue, length};
ghost use Rattle.ndx_index.specs.IndexTree.{width};
ghost use Rattle.ndx_index.specs.PageStore.{page_in};
ghost use Rattle.ndx_index.specs.TreeSteps.{CanInsert, CanSplit, ChildWithRoom, Splits};

use crate::pages::child::child_for;
use crate::pages::free::{FreeList, take_free};
use crate::pages::halve::halve;
use crate::pages::pair_pages::PLACES;
use crate::pages::store::PageStore;
use crate::pair::Pair;

/// Whether a page, this many levels above the leaves, has room for one pair or one link more.
pub(crate) fn has_room(store: &PageStore, level: usize, page: u32) -> bool
    requires there { page < length store.now.pages }
    ensures value { IsTrue result ↔ (width level (page_in store.now.pages page) < PLACES) }
    ensures bounded { width level (page_in store.now.pages page) ≤ PLACES }
{
    if level == 0 {
        store.pair_count(page) < PLACES
    } else {
        store.link_count(page) < PLACES
    }
}

// Splits a full child, this many levels above the leaves, of a page that has room. The upper half goes to a free page.
fn split_child(store: &mut PageStore, free: &mut FreeList, level: usize, page: u32, at: usize)
    requires can { CanSplit level store.old.pages free.old page at }
    ensures split { Splits level store.old.pages store.new.pages free.old free.new page at }
    ensures key_len { store.new.key_len ≡ store.old.key_len }
{
    let lower = store.link(page, at);
    let upper = take_free(store, free);
    let key = halve(store, level, lower, upper);
    store.put_pair(page, at, &key);
    store.put_link(page, at + 1, upper);
}

/// The child under which a pair belongs; a full one is split first, so that the child has room.
pub(crate) fn child_with_room(
    store: &mut PageStore,
    free: &mut FreeList,
    level: usize,
    page: u32,
    pair: &Pair,
) -> u32
    requires above { 0 < level }
    requires can { CanInsert level store.old.pages free.old page pair.now }
    ensures child { ChildWithRoom (level - 1) store.old.pages store.new.pages free.old free.new page pair.now result }
    ensures key_len { store.new.key_len ≡ store.old.key_len }
{
    let (at, child) = child_for(store, page, pair);
    if has_room(store, level - 1, child) {
        return child;
    }
    split_child(store, free, level - 1, page, at);
    let half = if pair.is_before(&store.pair(page, at)) {
        at
    } else {
        at + 1
    };
    store.link(page, half)
}
