//! A full page that is cut in two.

ghost use Rattle.std.specs.Prelude.{◌≡◌, ◌<◌, length};
ghost use Rattle.ndx_index.specs.TreeSteps.{CanHalve, Halves};

use crate::pages::pair_pages::PLACES;
use crate::pages::store::PageStore;
use crate::pair::Pair;

// How many pairs or links of a full page stay.
const HALF: u8 = PLACES as u8 / 2;

/// Moves the upper half of a full page, this many levels above the leaves, to an empty page, and answers the pair that
/// parts the two. It takes no memory.
pub(crate) fn halve(store: &mut PageStore, level: usize, lower: u32, upper: u32) -> Pair
    requires can { CanHalve level store.old.pages lower upper }
    ensures halved { Halves level store.old.pages store.new.pages lower upper result }
    ensures key { length result.key ≡ store.old.key_len }
    ensures key_len { store.new.key_len ≡ store.old.key_len }
{
    if level == 0 {
        halve_leaf(store, lower, upper)
    } else {
        halve_inner(store, level, lower, upper)
    }
}

// The upper page's first pair parts the halves of a leaf.
fn halve_leaf(store: &mut PageStore, lower: u32, upper: u32) -> Pair
    requires can { CanHalve 0 store.old.pages lower upper }
    ensures halved { Halves 0 store.old.pages store.new.pages lower upper result }
    ensures key { length result.key ≡ store.old.key_len }
    ensures key_len { store.new.key_len ≡ store.old.key_len }
{
    store.split_pairs(lower, HALF, upper);
    store.pair(upper, 0)
}

// The middle one of an inner page's fifteen keys parts its halves, and stands in neither.
fn halve_inner(store: &mut PageStore, level: usize, lower: u32, upper: u32) -> Pair
    requires above { 0 < level }
    requires can { CanHalve level store.old.pages lower upper }
    ensures halved { Halves level store.old.pages store.new.pages lower upper result }
    ensures key { length result.key ≡ store.old.key_len }
    ensures key_len { store.new.key_len ≡ store.old.key_len }
{
    // For contracts alone: how many levels the page is above the leaves.
    let _ = level;
    store.split_links(lower, HALF, upper);
    store.split_pairs(lower, HALF, upper);
    let middle = usize::from(HALF - 1);
    let key = store.pair(lower, middle);
    store.take_pair(lower, middle);
    key
}
