//! A pair that is put into a tree.

ghost use Rattle.std.specs.Prelude.{◌≡◌, length};
ghost use Rattle.ndx_index.specs.TreeSteps.{CanInsert, CanInsertIn, CanRaise, Inserts, InsertsIn, Raises};

use crate::pages::free::{FreeList, take_free};
use crate::pages::root::Root;
use crate::pages::split::{child_with_room, has_room};
use crate::pages::store::PageStore;
use crate::pair::Pair;

/// Puts an absent pair into a tree, where there is a free page for each of its levels and for a new top. It takes no
/// memory.
pub(crate) fn insert_in(store: &mut PageStore, free: &mut FreeList, root: &mut Root, pair: &Pair)
    requires can { CanInsertIn store.old.pages free.old root.old pair.now }
    requires key { length pair.now.key ≡ store.old.key_len }
    ensures inserted { InsertsIn store.old.pages store.new.pages free.old free.new root.old root.new pair.now }
    ensures key_len { store.new.key_len ≡ store.old.key_len }
{
    if root.levels == 0 {
        plant(store, free, root, pair);
        return;
    }
    if !has_room(store, root.levels - 1, root.page) {
        raise(store, free, root);
    }
    insert_under(store, free, root.levels - 1, root.page, pair);
}

// Makes a tree of one pair.
fn plant(store: &mut PageStore, free: &mut FreeList, root: &mut Root, pair: &Pair)
    requires none { root.old.levels ≡ 0 }
    requires can { CanInsertIn store.old.pages free.old root.old pair.now }
    requires key { length pair.now.key ≡ store.old.key_len }
    ensures inserted { InsertsIn store.old.pages store.new.pages free.old free.new root.old root.new pair.now }
    ensures key_len { store.new.key_len ≡ store.old.key_len }
{
    root.page = take_free(store, free);
    store.put_pair(root.page, 0, pair);
    root.levels = 1;
}

// Puts a page with one link above a tree.
fn raise(store: &mut PageStore, free: &mut FreeList, root: &mut Root)
    requires can { CanRaise store.old.pages free.old root.old }
    ensures raised { Raises store.old.pages store.new.pages free.old free.new root.old root.new }
    ensures key_len { store.new.key_len ≡ store.old.key_len }
{
    let top = take_free(store, free);
    store.put_link(top, 0, root.page);
    root.page = top;
    root.levels += 1;
}

// Puts a pair into the tree under a page that has room, this many levels above the leaves.
fn insert_under(store: &mut PageStore, free: &mut FreeList, level: usize, page: u32, pair: &Pair)
    requires can { CanInsert level store.old.pages free.old page pair.now }
    requires key { length pair.now.key ≡ store.old.key_len }
    ensures inserted { Inserts level store.old.pages store.new.pages free.old free.new page pair.now }
    ensures key_len { store.new.key_len ≡ store.old.key_len }
{
    if level == 0 {
        let at = store.place_after(page, pair);
        store.put_pair(page, at, pair);
        return;
    }
    let child = child_with_room(store, free, level, page, pair);
    insert_under(store, free, level - 1, child, pair);
}
