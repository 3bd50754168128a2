//! Pages that no tree has, linked through the pages themselves.

ghost use Rattle.std.specs.Prelude.{◌≡◌, ◌+◌, ◌<◌, ◌≤◌, ◌^◌, ℕ, length, slice_set, OnOk};
ghost use Rattle.ndx_index.specs.IndexTree.{here, uses_free, IsFreeList};
ghost use Rattle.ndx_index.specs.PageStore.{page_in, no_page};
ghost use Rattle.ndx_index.specs.TreeSteps.{MakesFree};

use crate::pages::store::PageStore;
use std::alloc::AllocError;

/// The first free page, and how many there are.
#[derive(Clone, Copy)]
pub(crate) struct FreeList {
    pub(crate) head: u32,
    pub(crate) count: usize,
}

/// Takes the first free page, and empties it. It takes no memory.
pub(crate) fn take_free(store: &mut PageStore, free: &mut FreeList) -> u32
    requires some { 0 < free.old.count }
    requires list { IsFreeList store.old.pages free.old }
    requires apart { (r : ℕ) → uses_free store.old.pages free.old r ≤ 1 }
    ensures there { result < length store.old.pages }
    ensures was_free { uses_free store.old.pages free.old result ≡ 1 }
    ensures pages { store.new.pages ≡ slice_set store.old.pages result no_page }
    ensures key_len { store.new.key_len ≡ store.old.key_len }
    ensures count { free.new.count + 1 ≡ free.old.count }
    ensures list { IsFreeList store.new.pages free.new }
    ensures uses { (r : ℕ) → here result r + uses_free store.new.pages free.new r ≡ uses_free store.old.pages free.old r }
{
    let page = free.head;
    free.head = store.link(page, 0);
    free.count -= 1;
    store.clear(page);
    page
}

/// Puts a page that no tree and no list has before the free pages. It takes no memory.
pub(crate) fn give_back(store: &mut PageStore, free: &mut FreeList, page: u32)
    requires there { page < length store.old.pages }
    requires count_bounded { length store.old.pages < 2 ^ 32 }
    requires list { IsFreeList store.old.pages free.old }
    requires apart { (r : ℕ) → here page r + uses_free store.old.pages free.old r ≤ 1 }
    ensures count { free.new.count ≡ free.old.count + 1 }
    ensures list { IsFreeList store.new.pages free.new }
    ensures uses { (r : ℕ) → uses_free store.new.pages free.new r ≡ here page r + uses_free store.old.pages free.old r }
    ensures others { (r : ℕ) → (r ≡ page → ⊥) → page_in store.new.pages r ≡ page_in store.old.pages r }
    ensures length { length store.new.pages ≡ length store.old.pages }
    ensures key_len { store.new.key_len ≡ store.old.key_len }
{
    store.clear(page);
    store.put_link(page, 0, free.head);
    free.head = page;
    free.count += 1;
}

// Makes one more page free. An `Err` says that there was no memory, or no number for it.
fn grow(store: &mut PageStore, free: &mut FreeList) -> Result<(), AllocError>
    requires list { IsFreeList store.old.pages free.old }
    requires apart { (r : ℕ) → uses_free store.old.pages free.old r ≤ 1 }
    ensures made { MakesFree store.old.pages store.new.pages free.old free.new }
    ensures count { OnOk result (free.new.count ≡ free.old.count + 1) }
    ensures key_len { store.new.key_len ≡ store.old.key_len }
{
    let page = store.add_page()?;
    give_back(store, free, page);
    Ok(())
}

/// Makes more pages free, until there are as many as wanted. An `Err` says that there was no memory, or no numbers
/// for them; those that were made stay.
pub(crate) fn make_free(
    store: &mut PageStore,
    free: &mut FreeList,
    wanted: usize,
) -> Result<(), AllocError>
    requires list { IsFreeList store.old.pages free.old }
    requires apart { (r : ℕ) → uses_free store.old.pages free.old r ≤ 1 }
    ensures made { MakesFree store.old.pages store.new.pages free.old free.new }
    ensures enough { OnOk result (wanted ≤ free.new.count) }
    ensures key_len { store.new.key_len ≡ store.old.key_len }
{
    'more: while free.count < wanted {
        grow(store, free)?;
    }
    Ok(())
}
