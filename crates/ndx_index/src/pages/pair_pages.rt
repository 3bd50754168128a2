//! Pages of sixteen pairs.

ghost use Rattle.std.specs.Prelude.{◌≡◌, ◌≢◌, ◌+◌, ◌*◌, ◌<◌, ◌≤◌, ◌++◌, ℕ, [], ◌∷◌, length, replicate, slice_set, IfOk, OnOk, ◌^◌, false};
ghost use Rattle.std.specs.List.{insert, remove, AllByRecursion};
ghost use Rattle.key_expr.specs.declared.format.TheConstants.{MAX_KEY_BYTES};
ghost use Rattle.ndx_index.specs.Bounds.{passes};
ghost use Rattle.ndx_index.specs.Order.{AreInOrder};
ghost use Rattle.ndx_index.specs.IndexTree.{joined};
ghost use Rattle.ndx_index.specs.ListParts.{listed};
ghost use Rattle.ndx_index.specs.Slots.{slot_at, AllPassFrom};
ghost use Rattle.ndx_index.specs.PairPages.{page_at, split_page};

use crate::pages::bound::Bound;
use crate::pages::runs::push_copies;
use crate::pages::slots::PairSlots;
use crate::pair::Pair;
use crate::pair_list::part::ListPart;
use std::alloc::{AllocError, Global};
use std::marker::Model;
use std::ops::Range;

/// The places of a page.
pub(crate) const PLACES: usize = 16;

/// The most pages, which are named by four bytes.
pub(crate) const MAX_PAGES: usize = 0xffff_ffff;

/// How much room is made for that many places, or pages, of leaves, so that those of the pages above them need no more: a page above
/// the leaves has up to sixteen under it.
pub(crate) fn with_upper_pages(count: usize) -> usize
    ensures enough { count ≤ result }
{
    count.saturating_add(count / 8)
}

/// Pages of at most sixteen pairs, whose keys have one length. Contracts see the list of pages, each the list
/// of its pairs, and how many pages can be put after them without taking memory.
#[derive(Drop)]
pub(crate) struct PairPages {
    slots: PairSlots,
    counts: Vec<u8>,
    spare: usize,
}

impl Model for PairPages {
    ghost use Rattle.ndx_index.specs.PairPages.{Pages, pages_view, ArePages};

    ghost Value = { Pages };

    ghost view = { pages_view };

    ghost invariant = { ArePages };
}

impl PairPages {
    /// No pages, for keys of this length. It takes no memory.
    pub(crate) fn new(alloc: Global, key_len: usize) -> Self
        requires short { key_len ≤ MAX_KEY_BYTES }
        ensures key_len { result.key_len ≡ key_len }
        ensures pages { result.pages ≡ [] }
    {
        PairPages {
            slots: PairSlots::new(alloc, key_len),
            counts: Vec::new(alloc),
            spare: 0,
        }
    }

    /// Pages of these pairs, which stay where they are: each page is full but the last. `AllocError` where there is no memory for
    /// the counts of the pages and the rest of the last, or no page number.
    pub(crate) fn filled(alloc: Global, pairs: PairSlots) -> Result<Self, AllocError>
        ensures key_len { IfOk result (λ made. made.key_len ≡ pairs.key_len) }
        ensures pairs { IfOk result (λ made. joined made.pages ≡ pairs.pairs) }
        ensures some { IfOk result (λ made. AllByRecursion (λ ps. 0 < length ps) made.pages) }
    {
        let full = pairs.len() / PLACES;
        let rest = pairs.len() % PLACES;
        if full >= MAX_PAGES {
            return Err(AllocError);
        }
        let mut slots = pairs;
        let mut counts = Vec::new(alloc);
        counts.reserve(full + 1)?;
        push_copies(&mut counts, full, PLACES as u8);
        if rest == 0 {
            return Ok(PairPages {
                slots,
                counts,
                spare: 0,
            });
        }
        slots.reserve(PLACES - rest)?;
        slots.push_blank(PLACES - rest);
        counts.push_reserved(rest as u8);
        Ok(PairPages {
            slots,
            counts,
            spare: 0,
        })
    }

    /// So many empty pages, for keys of this length. `AllocError` where there is no memory or no page number for them.
    pub(crate) fn empty(alloc: Global, key_len: usize, count: usize) -> Result<Self, AllocError>
        requires short { key_len ≤ MAX_KEY_BYTES }
        ensures key_len { IfOk result (λ made. made.key_len ≡ key_len) }
        ensures pages { IfOk result (λ made. made.pages ≡ replicate count []) }
    {
        let mut pages = PairPages::new(alloc, key_len);
        pages.reserve(with_upper_pages(count))?;
        for page in 0..count {
            pages.push_page();
        }
        Ok(pages)
    }

    /// The length of each key.
    pub(crate) fn key_len(&self) -> usize
        ensures value { result ≡ self.now.key_len }
        ensures short { self.now.key_len ≤ MAX_KEY_BYTES }
    {
        self.slots.key_len()
    }

    /// How many pages there are, which four bytes can count.
    pub(crate) fn page_count(&self) -> u32
        ensures value { result ≡ length self.now.pages }
        ensures count_bounded { length self.now.pages + self.now.spare < 2 ^ 32 }
    {
        self.counts.len() as u32
    }

    /// How many pairs a page has.
    pub(crate) fn count(&self, page: usize) -> usize
        requires page { page < length self.now.pages }
        ensures count { result ≡ length (page_at self.now.pages page) }
        ensures bounded { result ≤ PLACES }
    {
        usize::from(self.counts[page])
    }

    // The slots of a page's pairs.
    fn slots_of(&self, page: usize) -> Range<usize>
        requires page { page < length self.now.pages }
        ensures start { result.start ≡ page * PLACES }
        ensures end { result.end ≡ page * PLACES + length (page_at self.now.pages page) }
        ensures bounded { length (page_at self.now.pages page) ≤ PLACES }
        ensures fits { page * PLACES + PLACES < 2 ^ 64 }
    {
        let count = usize::from(self.counts[page]);
        let start = page * PLACES;
        start..start + count
    }

    /// All pairs of a page, lent.
    pub(crate) fn part(&self, page: usize) -> ListPart<'_>
        requires page { page < length self.now.pages }
        ensures pairs { listed result ≡ page_at self.now.pages page }
        ensures key_len { result.key_len ≡ self.now.key_len }
    {
        self.slots.part(self.slots_of(page).start, self.count(page))
    }

    /// A page's pair.
    pub(crate) fn get(&self, page: usize, at: usize) -> Pair
        requires page { page < length self.now.pages }
        requires place { at < length (page_at self.now.pages page) }
        ensures pair { result ≡ slot_at (page_at self.now.pages page) at }
        ensures key { length result.key ≡ self.now.key_len }
    {
        self.slots.get(self.slots_of(page).start + at)
    }

    /// The record number of a page's pair.
    pub(crate) fn number(&self, page: usize, at: usize) -> u32
        requires page { page < length self.now.pages }
        requires place { at < length (page_at self.now.pages page) }
        ensures number { result ≡ (slot_at (page_at self.now.pages page) at).number }
    {
        self.slots.number(self.slots_of(page).start + at)
    }

    /// Whether a page's pair passes a search's test. It copies no key.
    pub(crate) fn passes(&self, page: usize, at: usize, bound: &Bound<'_>) -> bool
        requires page { page < length self.now.pages }
        requires place { at < length (page_at self.now.pages page) }
        ensures value { result ≡ passes bound.now (slot_at (page_at self.now.pages page) at) }
    {
        self.slots.passes(self.slots_of(page).start + at, bound)
    }

    /// Puts a pair into a page that has room, before the pairs from a place on. It takes no memory.
    pub(crate) fn insert(&mut self, page: usize, at: usize, pair: &Pair)
        requires page { page < length self.old.pages }
        requires room { length (page_at self.old.pages page) < PLACES }
        requires place { at ≤ length (page_at self.old.pages page) }
        requires key { length pair.now.key ≡ self.old.key_len }
        ensures pages { self.new.pages ≡ slice_set self.old.pages page (insert (page_at self.old.pages page) at pair.now) }
        ensures key_len { self.new.key_len ≡ self.old.key_len }
        ensures spare { self.new.spare ≡ self.old.spare }
    {
        let slots = self.slots_of(page);
        let slot = slots.start + at;
        self.slots.copy_within(slot, slots.end, slot + 1);
        self.slots.set(slot, pair);
        self.counts[page] += 1;
    }

    /// Takes a pair out of a page. It takes no memory.
    pub(crate) fn remove(&mut self, page: usize, at: usize)
        requires page { page < length self.old.pages }
        requires place { at < length (page_at self.old.pages page) }
        ensures pages { self.new.pages ≡ slice_set self.old.pages page (remove (page_at self.old.pages page) at) }
        ensures key_len { self.new.key_len ≡ self.old.key_len }
        ensures spare { self.new.spare ≡ self.old.spare }
    {
        let slots = self.slots_of(page);
        let slot = slots.start + at;
        self.slots.copy_within(slot + 1, slots.end, slot);
        self.counts[page] -= 1;
    }

    /// Moves the pairs of a page from a place on to another page, in place of what is there. It takes no memory.
    pub(crate) fn split(&mut self, page: usize, at: u8, to: usize)
        requires page { page < length self.old.pages }
        requires place { at ≤ length (page_at self.old.pages page) }
        requires to { to < length self.old.pages }
        requires apart { to ≢ page }
        ensures pages { self.new.pages ≡ split_page self.old.pages page at to }
        ensures key_len { self.new.key_len ≡ self.old.key_len }
        ensures spare { self.new.spare ≡ self.old.spare }
    {
        let count = self.counts[page];
        let slots = self.slots_of(page);
        let dest = self.slots_of(to).start;
        self.slots
            .copy_within(slots.start + usize::from(at), slots.end, dest);
        self.counts[to] = count - at;
        self.counts[page] = at;
    }

    /// Makes room for n pages more. `AllocError` where there is no memory or no page number for them; no room is lost then.
    pub(crate) fn reserve(&mut self, n: usize) -> Result<(), AllocError>
        ensures ok { OnOk result (n ≤ self.new.spare) }
        ensures pages { self.new.pages ≡ self.old.pages }
        ensures key_len { self.new.key_len ≡ self.old.key_len }
        ensures spare { self.old.spare ≤ self.new.spare }
    {
        if n <= self.spare {
            return Ok(());
        }
        if n > MAX_PAGES - self.counts.len() {
            return Err(AllocError);
        }
        self.slots.reserve(n * PLACES)?;
        self.counts.reserve(n)?;
        self.spare = n;
        Ok(())
    }

    /// Puts an empty page after the others. It takes the room that was reserved, and no memory.
    pub(crate) fn push_page(&mut self)
        requires room { 0 < self.old.spare }
        ensures pages { self.new.pages ≡ self.old.pages ++ [] ∷ [] }
        ensures key_len { self.new.key_len ≡ self.old.key_len }
        ensures spare { self.new.spare + 1 ≡ self.old.spare }
    {
        self.slots.push_blank(PLACES);
        self.counts.push_reserved(0);
        self.spare -= 1;
    }

    /// Empties a page. It takes no memory.
    pub(crate) fn clear(&mut self, page: usize)
        requires page { page < length self.old.pages }
        ensures pages { self.new.pages ≡ slice_set self.old.pages page [] }
        ensures key_len { self.new.key_len ≡ self.old.key_len }
        ensures spare { self.new.spare ≡ self.old.spare }
    {
        self.counts[page] = 0;
    }

    /// How many of a page's pairs, which stand in order, stand before where a search begins. It goes by bisection,
    /// and copies no key.
    #[tactic(auto, using(crate::proofs::Bisection::below_mid, crate::proofs::Bisection::above_mid))]
    pub(crate) fn place(&self, page: usize, bound: &Bound<'_>) -> usize
        requires page { page < length self.now.pages }
        requires order { AreInOrder (page_at self.now.pages page) }
        ensures within { result ≤ length (page_at self.now.pages page) }
        ensures below { (k : ℕ) → k < result → passes bound.now (slot_at (page_at self.now.pages page) k) ≡ false }
        ensures above { AllPassFrom (passes bound.now) (page_at self.now.pages page) result }
    {
        let mut low = 0;
        let mut high = self.count(page);
        'halves: while low < high {
            let mid = low + (high - low) / 2;
            if self.passes(page, mid, bound) {
                high = mid;
            } else {
                low = mid + 1;
            }
        }
        low
    }
}
