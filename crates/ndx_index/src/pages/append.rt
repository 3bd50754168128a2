//! A leaf comes after all others of a tree, so that its pages are filled from the left.

ghost use Rattle.std.specs.Prelude.{◌≡◌, ◌+◌, ◌<◌, length, IfOk};
ghost use Rattle.ndx_index.specs.PageStore.{page_in};
ghost use Rattle.ndx_index.specs.TreeSteps.{AddsLink, Appends, CanAppend};

use crate::pages::pair_pages::PLACES;
use crate::pages::store::PageStore;
use crate::pair::Pair;
use std::alloc::AllocError;

/// Puts a leaf after all others under a page, which is this many levels above the leaves. Where the pages at the right edge
/// are full, the tree stays, and the answer is a page of its level with that leaf alone under it. An `Err` says that there
/// was no memory, or no number for a page.
pub(crate) fn append_under(
    store: &mut PageStore,
    level: usize,
    page: u32,
    leaf: u32,
) -> Result<Option<u32>, AllocError>
    requires can { CanAppend level store.old.pages page leaf }
    ensures appended { IfOk result (λ beside. Appends level store.old.pages store.new.pages page leaf beside) }
    ensures key_len { store.new.key_len ≡ store.old.key_len }
{
    if level == 0 {
        return Ok(Some(leaf));
    }
    let last = store.link(page, store.link_count(page) - 1);
    match append_under(store, level - 1, last, leaf)? {
        None => Ok(None),
        Some(beside) => {
            let first = store.pair(leaf, 0);
            add_child(store, page, beside, &first)
        }
    }
}

// Puts a child after those of an inner page, or into a new one.
fn add_child(
    store: &mut PageStore,
    page: u32,
    child: u32,
    pair: &Pair,
) -> Result<Option<u32>, AllocError>
    requires there { page < length store.old.pages }
    requires some { 0 < length (page_in store.old.pages page).links }
    requires keys { length (page_in store.old.pages page).links ≡ length (page_in store.old.pages page).pairs + 1 }
    requires key { length pair.now.key ≡ store.old.key_len }
    ensures added { IfOk result (λ beside. AddsLink store.old.pages store.new.pages page child pair.now beside) }
    ensures key_len { store.new.key_len ≡ store.old.key_len }
{
    let count = store.link_count(page);
    if count < PLACES {
        store.put_pair(page, count - 1, pair);
        store.put_link(page, count, child);
        return Ok(None);
    }
    let beside = store.add_page()?;
    store.put_link(beside, 0, child);
    Ok(Some(beside))
}
