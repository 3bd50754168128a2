//! The top of a tree.

ghost use Rattle.std.specs.Prelude.{◌≡◌, ◌^◌, ◌<◌, length, IfOk};
ghost use Rattle.ndx_index.specs.IndexTree.{pairs_in, pairs_of_pages, IsPlain, HavePairs};
ghost use Rattle.ndx_index.specs.TreeSteps.{AppendsIn, CanAppendIn, IsOver};
ghost use Rattle.ndx_index.specs.Order.{AreInOrder};

use crate::pages::append::append_under;
use crate::pages::store::PageStore;
use crate::pair::Pair;
use std::alloc::AllocError;

/// The page at the top of a tree, and how many levels the tree has; of none there is no page.
#[derive(Clone, Copy)]
pub(crate) struct Root {
    pub(crate) page: u32,
    pub(crate) levels: usize,
}

/// Makes a tree of all pages, which are leaves that stand in order: inner pages come after them. An `Err` says that there was no
/// memory, or no number for a page.
pub(crate) fn join_leaves(store: &mut PageStore) -> Result<Root, AllocError>
    requires leaves { HavePairs store.old.pages }
    requires ordered { AreInOrder (pairs_of_pages store.old.pages) }
    ensures tree { IfOk result (λ root. IsPlain store.new.pages root) }
    ensures pairs { IfOk result (λ root. pairs_in store.new.pages root ≡ pairs_of_pages store.old.pages) }
    ensures key_len { store.new.key_len ≡ store.old.key_len }
{
    let count = store.page_count();
    if count == 0 {
        return Ok(Root { page: 0, levels: 0 });
    }
    let mut root = Root { page: 0, levels: 1 };
    for leaf in 1..count {
        root = append(store, root, leaf)?;
    }
    Ok(root)
}

// Puts a leaf after all others of a tree.
fn append(store: &mut PageStore, root: Root, leaf: u32) -> Result<Root, AllocError>
    requires can { CanAppendIn store.old.pages root leaf }
    ensures appended { IfOk result (λ new. AppendsIn store.old.pages store.new.pages root new leaf) }
    ensures key_len { store.new.key_len ≡ store.old.key_len }
{
    match append_under(store, root.levels - 1, root.page, leaf)? {
        None => Ok(root),
        Some(beside) => {
            let first = store.pair(leaf, 0);
            join(store, root, beside, &first)
        }
    }
}

// A new top over two trees of one height.
fn join(store: &mut PageStore, root: Root, beside: u32, pair: &Pair) -> Result<Root, AllocError>
    requires key { length pair.now.key ≡ store.old.key_len }
    requires count_bounded { root.levels < 2 ^ 32 }
    ensures top { IfOk result (λ new. IsOver store.old.pages store.new.pages root beside pair.now new) }
    ensures key_len { store.new.key_len ≡ store.old.key_len }
{
    let page = store.add_page()?;
    store.put_link(page, 0, root.page);
    store.put_link(page, 1, beside);
    store.put_pair(page, 0, pair);
    Ok(Root {
        page,
        levels: root.levels + 1,
    })
}
