//! The pairs of a tree, up to the first page that breaks a rule.

ghost use Rattle.std.specs.Prelude.{◌≡◌, ◌+◌, ◌<◌, ◌++◌, ℕ, List, [], ◌∷◌, IfErr, IfOk, None, OnOk};
ghost use Rattle.ndx_index.specs.NdxTree.{Visits};
ghost use Rattle.ndx_index.specs.Pages.{IsPageLayout, leaf_pair, leaf_pairs};
ghost use Rattle.ndx_index.specs.Reading.{IsWalkFault, Refuses, Takes};
ghost use Rattle.ndx_index.specs.Walks.{node_seen, HasKeyLength};

use crate::fault::BadIndex;
use crate::pages::slots::PairSlots;
use crate::pair_list::PairList;
use crate::read::page::{LeafPage, PageLayout};
use crate::read::view::{PageSeen, PageView};
use crate::read::walk::PageWalk;
use std::alloc::{AllocError, Global};

// Puts the pair of a leaf's key record at the end, where there is room.
fn push_pair(leaf: LeafPage<'_>, i: usize, pairs: &mut PairSlots)
    requires there { i < leaf.count }
    requires key { pairs.old.key_len ≡ leaf.layout.key_len }
    requires room { 0 < pairs.old.spare }
    ensures pairs { pairs.new.pairs ≡ pairs.old.pairs ++ leaf_pair leaf.entry.layout leaf.entry.bytes.now i ∷ [] }
    ensures key_len { pairs.new.key_len ≡ pairs.old.key_len }
    ensures spare { pairs.new.spare + 1 ≡ pairs.old.spare }
{
    pairs.push(leaf.key(i), leaf.number(i));
}

// Puts a leaf's pairs at the end.
fn push_leaf(leaf: LeafPage<'_>, pairs: &mut PairSlots) -> Result<(), AllocError>
    requires key { pairs.old.key_len ≡ leaf.layout.key_len }
    ensures pairs { OnOk result (pairs.new.pairs ≡ pairs.old.pairs ++ leaf_pairs leaf.entry.layout leaf.entry.bytes.now leaf.entry.count) }
    ensures key_len { pairs.new.key_len ≡ pairs.old.key_len }
{
    pairs.reserve(leaf.count)?;
    for i in 0..leaf.count {
        push_pair(leaf, i, pairs);
    }
    Ok(())
}

// Takes the pairs of a leaf, or says which rule a page breaks.
fn take_page(seen: PageSeen<'_>, pairs: &mut PairSlots) -> Result<(), BadIndex>
    requires key { HasKeyLength pairs.old.key_len seen.view }
    ensures ok { OnOk result (Takes (node_seen seen.entry.view) pairs.old.pairs pairs.new.pairs) }
    ensures err { IfErr result (Refuses seen.entry.at.page (node_seen seen.entry.view)) }
    ensures key_len { pairs.new.key_len ≡ pairs.old.key_len }
{
    match seen.view {
        PageView::Leaf(leaf) => push_leaf(leaf, pairs)?,
        PageView::Inner(_) => {}
        PageView::Broken(why) => return Err(BadIndex::at_page(seen.at.page, why)),
    }
    Ok(())
}

/// The pairs of the tree under a page, in the order of its leaves.
pub(crate) fn read_tree(
    alloc: Global,
    bytes: &[u8],
    layout: PageLayout,
    root: u32,
) -> Result<PairList, BadIndex>
    requires layout { IsPageLayout layout }
    // The walk over these pages breaks no rule, and gives the pairs.
    ensures ok { IfOk result (λ found. (pages : List ℕ) × Visits layout bytes.now [] (root ∷ []) pages found.pairs None) }
    ensures key_len { IfOk result (λ found. found.key_len ≡ layout.key_len) }
    // The fault is the first rule that the walk breaks, at the page where it ends.
    ensures err { IfErr result (IsWalkFault layout bytes.now root) }
{
    let mut walk = PageWalk::new(alloc, bytes, layout, root)?;
    let mut slots = PairSlots::new(alloc, layout.key_len);
    // At once, so that the list isn't copied as it grows.
    slots.reserve(bytes.len() / layout.size)?;
    while let Some(seen) = walk.next_page()? {
        take_page(seen, &mut slots)?;
    }
    Ok(PairList { slots })
}
