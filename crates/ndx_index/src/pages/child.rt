//! The child of a page under which a pair belongs.

ghost use Rattle.std.specs.Prelude.{◌≡◌, ◌+◌, ◌<◌, length};
ghost use Rattle.ndx_index.specs.Order.{AreInOrder};
ghost use Rattle.ndx_index.specs.PageStore.{page_in};
ghost use Rattle.ndx_index.specs.TreeSteps.{IsChildAt};

use crate::pages::store::PageStore;
use crate::pair::Pair;

/// The child of an inner page under which a pair belongs: its place among the page's links, and its page number.
pub(crate) fn child_for(store: &PageStore, page: u32, pair: &Pair) -> (usize, u32)
    requires there { page < length store.now.pages }
    requires order { AreInOrder (page_in store.now.pages page).pairs }
    requires keys { length (page_in store.now.pages page).links ≡ length (page_in store.now.pages page).pairs + 1 }
    ensures child { IsChildAt pair.now (page_in store.now.pages page) result.0 result.1 }
{
    let at = store.place_after(page, pair);
    let child = store.link(page, at);
    (at, child)
}
