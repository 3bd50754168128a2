//! Pages of pairs and links, named by numbers.

ghost use Rattle.std.specs.Prelude.{◌≡◌, ◌≢◌, ◌+◌, ◌<◌, ◌≤◌, ◌^◌, ◌++◌, ℕ, [], ◌∷◌, length, slice_set, slice_index, IfOk, OnOk, OnErr, false};
ghost use Rattle.std.specs.List.{insert, remove};
ghost use Rattle.key_expr.specs.declared.format.TheConstants.{MAX_KEY_BYTES};
ghost use Rattle.ndx_index.specs.Bounds.{passes};
ghost use Rattle.ndx_index.specs.IndexTree.{pairs_of_pages, HavePairs};
ghost use Rattle.ndx_index.specs.Order.{before, AreInOrder};
ghost use Rattle.ndx_index.specs.ListParts.{listed};
ghost use Rattle.ndx_index.specs.Slots.{slot_at, AllPassFrom};
ghost use Rattle.ndx_index.specs.declared.pages.pair_pages.TheConstants.{PLACES};
ghost use Rattle.ndx_index.specs.PageStore.{page_in, no_page, with_pairs_at, with_links_at, pairs_split, links_split};

use crate::pages::bound::Bound;
use crate::pages::pair_pages::PairPages;
use crate::pages::slots::PairSlots;
use crate::pair::Pair;
use crate::pair_list::part::ListPart;
use key_expr::Key;
use std::alloc::{AllocError, Global};
use std::marker::Model;

/// The pages of a tree, numbered from 0. A place takes the key's bytes and eight more. Contracts see the list of
/// pages, each with its pairs and its links.
#[derive(Drop)]
pub(crate) struct PageStore {
    pair_pages: PairPages,
    // links are kept as pairs without a key
    link_pages: PairPages,
}

impl Model for PageStore {
    ghost use Rattle.ndx_index.specs.PageStore.{Store, store_view, AreTwins};

    ghost Value = { Store };

    ghost view = { store_view };

    ghost invariant = { AreTwins };
}

impl PageStore {
    /// No pages, for keys of this length. It takes no memory.
    pub(crate) fn new(alloc: Global, key_len: usize) -> Self
        requires short { key_len ≤ MAX_KEY_BYTES }
        ensures key_len { result.key_len ≡ key_len }
        ensures pages { result.pages ≡ [] }
    {
        PageStore {
            pair_pages: PairPages::new(alloc, key_len),
            link_pages: PairPages::new(alloc, 0),
        }
    }

    /// Leaves of these pairs, which stay where they are: each leaf is full but the last. `AllocError` where there is no memory for
    /// the rest of the last and for links, or no number for a page.
    pub(crate) fn of_leaves(alloc: Global, pairs: PairSlots) -> Result<Self, AllocError>
        ensures key_len { IfOk result (λ store. store.key_len ≡ pairs.key_len) }
        ensures pairs { IfOk result (λ store. pairs_of_pages store.pages ≡ pairs.pairs) }
        ensures some { IfOk result (λ store. HavePairs store.pages) }
    {
        let pair_pages = PairPages::filled(alloc, pairs)?;
        let link_pages = PairPages::empty(alloc, 0, pair_pages.page_count() as usize)?;
        Ok(PageStore {
            pair_pages,
            link_pages,
        })
    }

    /// The length of each key.
    pub(crate) fn key_len(&self) -> usize
        ensures value { result ≡ self.now.key_len }
        ensures short { self.now.key_len ≤ MAX_KEY_BYTES }
    {
        self.pair_pages.key_len()
    }

    /// How many pages there are, which four bytes can count.
    pub(crate) fn page_count(&self) -> u32
        ensures value { result ≡ length self.now.pages }
        ensures count_bounded { length self.now.pages < 2 ^ 32 }
    {
        self.pair_pages.page_count()
    }

    /// How many pairs a page has.
    pub(crate) fn pair_count(&self, page: u32) -> usize
        requires page { page < length self.now.pages }
        ensures count { result ≡ length (page_in self.now.pages page).pairs }
        ensures bounded { result ≤ PLACES }
    {
        self.pair_pages.count(page as usize)
    }

    /// All pairs of a page, lent.
    pub(crate) fn part(&self, page: u32) -> ListPart<'_>
        requires page { page < length self.now.pages }
        ensures pairs { listed result ≡ (page_in self.now.pages page).pairs }
        ensures key_len { result.key_len ≡ self.now.key_len }
    {
        self.pair_pages.part(page as usize)
    }

    /// How many links a page has.
    pub(crate) fn link_count(&self, page: u32) -> usize
        requires page { page < length self.now.pages }
        ensures count { result ≡ length (page_in self.now.pages page).links }
        ensures bounded { result ≤ PLACES }
    {
        self.link_pages.count(page as usize)
    }

    /// A page's pair.
    pub(crate) fn pair(&self, page: u32, at: usize) -> Pair
        requires page { page < length self.now.pages }
        requires place { at < length (page_in self.now.pages page).pairs }
        ensures pair { result ≡ slot_at (page_in self.now.pages page).pairs at }
        ensures key { length result.key ≡ self.now.key_len }
    {
        self.pair_pages.get(page as usize, at)
    }

    /// A page's link.
    pub(crate) fn link(&self, page: u32, at: usize) -> u32
        requires page { page < length self.now.pages }
        requires place { at < length (page_in self.now.pages page).links }
        ensures link { result ≡ slice_index (page_in self.now.pages page).links at }
    {
        self.link_pages.number(page as usize, at)
    }

    /// How many of a page's pairs, which stand in order, stand before where a search begins. It goes by bisection,
    /// and copies no key.
    pub(crate) fn place(&self, page: u32, bound: &Bound<'_>) -> usize
        requires page { page < length self.now.pages }
        requires order { AreInOrder (page_in self.now.pages page).pairs }
        ensures within { result ≤ length (page_in self.now.pages page).pairs }
        ensures below { (k : ℕ) → k < result → passes bound.now (slot_at (page_in self.now.pages page).pairs k) ≡ false }
        ensures above { AllPassFrom (passes bound.now) (page_in self.now.pages page).pairs result }
    {
        self.pair_pages.place(page as usize, bound)
    }

    /// How many of a page's pairs, which stand in order, don't stand after a pair.
    pub(crate) fn place_after(&self, page: u32, pair: &Pair) -> usize
        requires page { page < length self.now.pages }
        requires order { AreInOrder (page_in self.now.pages page).pairs }
        ensures within { result ≤ length (page_in self.now.pages page).pairs }
        ensures below { (k : ℕ) → k < result → before pair.now (slot_at (page_in self.now.pages page).pairs k) ≡ false }
        ensures above { AllPassFrom (before pair.now) (page_in self.now.pages page).pairs result }
    {
        self.place(page, &Bound::above(pair))
    }

    /// Puts a pair before a page's pairs from a place on. It takes no memory.
    pub(crate) fn put_pair(&mut self, page: u32, at: usize, pair: &Pair)
        requires page { page < length self.old.pages }
        requires room { length (page_in self.old.pages page).pairs < PLACES }
        requires place { at ≤ length (page_in self.old.pages page).pairs }
        requires key { length pair.now.key ≡ self.old.key_len }
        ensures pages { self.new.pages ≡ with_pairs_at self.old.pages page (insert (page_in self.old.pages page).pairs at pair.now) }
        ensures key_len { self.new.key_len ≡ self.old.key_len }
    {
        self.pair_pages.insert(page as usize, at, pair);
    }

    /// Puts a link before a page's links from a place on. It takes no memory.
    pub(crate) fn put_link(&mut self, page: u32, at: usize, link: u32)
        requires page { page < length self.old.pages }
        requires room { length (page_in self.old.pages page).links < PLACES }
        requires place { at ≤ length (page_in self.old.pages page).links }
        ensures pages { self.new.pages ≡ with_links_at self.old.pages page (insert (page_in self.old.pages page).links at link) }
        ensures key_len { self.new.key_len ≡ self.old.key_len }
    {
        let bare = Pair {
            key: Key::new(&[]),
            number: link,
        };
        self.link_pages.insert(page as usize, at, &bare);
    }

    /// Takes a pair out of a page. It takes no memory.
    pub(crate) fn take_pair(&mut self, page: u32, at: usize)
        requires page { page < length self.old.pages }
        requires place { at < length (page_in self.old.pages page).pairs }
        ensures pages { self.new.pages ≡ with_pairs_at self.old.pages page (remove (page_in self.old.pages page).pairs at) }
        ensures key_len { self.new.key_len ≡ self.old.key_len }
    {
        self.pair_pages.remove(page as usize, at);
    }

    /// Takes a link out of a page. It takes no memory.
    pub(crate) fn take_link(&mut self, page: u32, at: usize)
        requires page { page < length self.old.pages }
        requires place { at < length (page_in self.old.pages page).links }
        ensures pages { self.new.pages ≡ with_links_at self.old.pages page (remove (page_in self.old.pages page).links at) }
        ensures key_len { self.new.key_len ≡ self.old.key_len }
    {
        self.link_pages.remove(page as usize, at);
    }

    /// Moves the pairs of a page from a place on to another page, in place of the pairs there. It takes no memory.
    pub(crate) fn split_pairs(&mut self, page: u32, at: u8, to: u32)
        requires page { page < length self.old.pages }
        requires place { at ≤ length (page_in self.old.pages page).pairs }
        requires to { to < length self.old.pages }
        requires apart { to ≢ page }
        ensures pages { self.new.pages ≡ pairs_split self.old.pages page at to }
        ensures key_len { self.new.key_len ≡ self.old.key_len }
    {
        self.pair_pages.split(page as usize, at, to as usize);
    }

    /// Moves the links of a page from a place on to another page, in place of the links there. It takes no memory.
    pub(crate) fn split_links(&mut self, page: u32, at: u8, to: u32)
        requires page { page < length self.old.pages }
        requires place { at ≤ length (page_in self.old.pages page).links }
        requires to { to < length self.old.pages }
        requires apart { to ≢ page }
        ensures pages { self.new.pages ≡ links_split self.old.pages page at to }
        ensures key_len { self.new.key_len ≡ self.old.key_len }
    {
        self.link_pages.split(page as usize, at, to as usize);
    }

    /// Empties a page. It takes no memory.
    pub(crate) fn clear(&mut self, page: u32)
        requires page { page < length self.old.pages }
        ensures pages { self.new.pages ≡ slice_set self.old.pages page no_page }
        ensures key_len { self.new.key_len ≡ self.old.key_len }
    {
        self.pair_pages.clear(page as usize);
        self.link_pages.clear(page as usize);
    }

    /// Puts an empty page after the others, and answers its number. `AllocError` where there is no memory or no
    /// number for it; the pages are the same then.
    pub(crate) fn add_page(&mut self) -> Result<u32, AllocError>
        ensures pages { OnOk result (self.new.pages ≡ self.old.pages ++ no_page ∷ []) }
        ensures number { IfOk result (λ page. page ≡ length self.old.pages) }
        ensures count_bounded { OnOk result (length self.new.pages < 2 ^ 32) }
        ensures err { OnErr result (self.new.pages ≡ self.old.pages) }
        ensures key_len { self.new.key_len ≡ self.old.key_len }
    {
        self.pair_pages.reserve(1)?;
        self.link_pages.reserve(1)?;
        let page = self.pair_pages.page_count();
        self.pair_pages.push_page();
        self.link_pages.push_page();
        Ok(page)
    }
}
