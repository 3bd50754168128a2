//! A pair that is taken out of a tree.

ghost use Rattle.std.specs.Prelude.{◌≡◌, ◌+◌, ◌<◌, IsTrue, IsFalse, length, slice_set};
ghost use Rattle.ndx_index.specs.PageStore.{page_in, without_child};
ghost use Rattle.ndx_index.specs.TreeSteps.{CanRemove, CanRemoveIn, Empties, Removes, RemovesIn};

use crate::pages::child::child_for;
use crate::pages::free::{FreeList, give_back};
use crate::pages::root::Root;
use crate::pages::store::PageStore;
use crate::pair::Pair;

/// Takes a pair that is there out of a tree. It takes no memory.
pub(crate) fn remove_in(store: &mut PageStore, free: &mut FreeList, root: &mut Root, pair: &Pair)
    requires can { CanRemoveIn store.old.pages free.old root.old pair.now }
    ensures removed { RemovesIn store.old.pages store.new.pages free.old free.new root.old root.new pair.now }
    ensures key_len { store.new.key_len ≡ store.old.key_len }
{
    if remove_under(store, free, root.levels - 1, root.page, pair) {
        give_back(store, free, root.page);
        root.levels = 0;
    }
}

// Takes a pair that is there out of the tree under a page, this many levels above the leaves. Answers whether the page
// is empty then, and no longer a tree.
fn remove_under(
    store: &mut PageStore,
    free: &mut FreeList,
    level: usize,
    page: u32,
    pair: &Pair,
) -> bool
    requires can { CanRemove level store.old.pages free.old page pair.now }
    ensures removed { IsFalse result → Removes level store.old.pages store.new.pages free.old free.new page pair.now }
    ensures emptied { IsTrue result → Empties level store.old.pages store.new.pages free.old free.new page pair.now }
    ensures key_len { store.new.key_len ≡ store.old.key_len }
{
    if level == 0 {
        let at = store.place_after(page, pair);
        store.take_pair(page, at - 1);
        return store.pair_count(page) == 0;
    }
    let (at, child) = child_for(store, page, pair);
    if !remove_under(store, free, level - 1, child, pair) {
        return false;
    }
    give_back(store, free, child);
    drop_child(store, page, at);
    store.link_count(page) == 0
}

// Takes a link out of an inner page, and a key beside it, where there is one.
fn drop_child(store: &mut PageStore, page: u32, at: usize)
    requires there { page < length store.old.pages }
    requires place { at < length (page_in store.old.pages page).links }
    requires keys { length (page_in store.old.pages page).links ≡ length (page_in store.old.pages page).pairs + 1 }
    ensures dropped { store.new.pages ≡ slice_set store.old.pages page (without_child at (page_in store.old.pages page)) }
    ensures key_len { store.new.key_len ≡ store.old.key_len }
{
    store.take_link(page, at);
    if at > 0 {
        store.take_pair(page, at - 1);
    } else if store.pair_count(page) > 0 {
        store.take_pair(page, 0);
    }
}
