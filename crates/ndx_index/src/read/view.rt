//! What a page of an index file holds, whatever its bytes are.

ghost use Rattle.std.specs.Prelude.{◌≡◌, ◌+◌, ◌*◌, ◌≤◌, length, not};
ghost use Rattle.ndx_index.specs.Pages.{IsPageLayout, some_child, is_null, node_of};
ghost use Rattle.ndx_index.specs.Walks.{node_seen, HasKeyLength};

use crate::fault::NdxFault;
use crate::format::PAGE;
use crate::read::page::{InnerPage, LeafPage, PageLayout, u32_at};

/// What a page holds.
#[derive(Clone, Copy)]
pub enum PageView<'a> {
    /// It is a leaf.
    Leaf(LeafPage<'a>),
    /// It is an inner page.
    Inner(InnerPage<'a>),
    /// It breaks this rule, and before it no other.
    Broken(NdxFault),
}

/// A page that a walk comes to.
#[derive(Clone, Copy)]
pub struct PageAt {
    /// Its number: the bytes from 512 times that on. It may lie outside the file.
    pub page: u32,
    /// How many pages stand above it.
    pub depth: usize,
}

/// A page that a walk came to, and what it holds.
#[derive(Clone, Copy)]
pub struct PageSeen<'a> {
    /// The page.
    pub at: PageAt,
    /// What it holds.
    pub view: PageView<'a>,
}

// Whether one of the first `n` child pointers isn't zero.
fn has_child(layout: PageLayout, page: &[u8], n: usize) -> bool
    requires whole { length page.now ≡ PAGE }
    requires layout { IsPageLayout layout }
    requires fits { 8 + layout.size * n ≤ PAGE + layout.size }
    ensures value { result ≡ some_child (λ p. not (is_null p)) layout page.now n }
{
    for i in 0..n {
        if u32_at(page, 4 + layout.size * i) != 0 {
            return true;
        }
    }
    false
}

// Whether one of the first `n` child pointers is zero.
fn lacks_child(layout: PageLayout, page: &[u8], n: usize) -> bool
    requires whole { length page.now ≡ PAGE }
    requires layout { IsPageLayout layout }
    requires fits { 8 + layout.size * n ≤ PAGE + layout.size }
    ensures value { result ≡ some_child is_null layout page.now n }
{
    for i in 0..n {
        if u32_at(page, 4 + layout.size * i) == 0 {
            return true;
        }
    }
    false
}

/// What a page of these bytes holds, or the first rule that it breaks.
#[tactic(auto, unfolding(crate::specs::Pages::node_of, crate::specs::Pages::page_tests, crate::specs::Pages::page_node))]
pub(crate) fn view_of(layout: PageLayout, page: &[u8]) -> PageView<'_>
    requires whole { length page.now ≡ PAGE }
    requires layout { IsPageLayout layout }
    ensures node { node_seen result ≡ node_of layout page.now }
    ensures key_len { HasKeyLength layout.key_len result }
{
    let n = u32_at(page, 0) as usize;
    if u32_at(page, 4) == 0 {
        if 4 + n * layout.size > PAGE {
            return PageView::Broken(NdxFault::TooManyEntries);
        }
        if has_child(layout, page, n) {
            return PageView::Broken(NdxFault::MixedPage);
        }
        return PageView::Leaf(LeafPage {
            layout,
            bytes: page,
            count: n,
        });
    }
    if 8 + n * layout.size > PAGE {
        return PageView::Broken(NdxFault::TooManyEntries);
    }
    if lacks_child(layout, page, n + 1) {
        return PageView::Broken(NdxFault::MixedPage);
    }
    PageView::Inner(InnerPage {
        layout,
        bytes: page,
        count: n + 1,
    })
}
