//! The walk over the pages of an index file, depth first.

ghost use Rattle.std.specs.Prelude.{◌≡◌, ◌+◌, ◌*◌, ◌/◌, ◌<◌, ◌≤◌, ◌++◌, ℕ, List, [], length, reverse, vec_len, count_by, not, IfOk, IfSome, OnOk, OnSome, MatchOption};
ghost use Rattle.ndx_index.specs.Pages.{IsPageLayout, children};
ghost use Rattle.ndx_index.specs.NdxTree.{look};
ghost use Rattle.ndx_index.specs.Walks.{at_depth, met_with, node_seen, pages_under, walk_from, work_left, work_of, HasKeyLength, IsFlagged, IsStep, UnmetAfter};
ghost use Rattle.ndx_index.specs.Shallow.{met_count, AreShallow, IsWalk};

use crate::fault::NdxFault;
use crate::format::PAGE;
use crate::read::page::{InnerPage, PageLayout};
use crate::read::view::{PageAt, PageSeen, PageView, view_of};
use std::alloc::{AllocError, Global};
use std::marker::Model;

/// A walk over the pages of an index file from a root, depth first and children from left to right. It comes to every page that a
/// page which breaks no rule names; where a page breaks one, it goes on with the pages beside it. It ends, whatever the bytes are:
/// a page that it comes to for the second time is broken.
#[derive(Drop)]
pub struct PageWalk<'a> {
    bytes: &'a [u8],
    layout: PageLayout,
    met: Vec<bool>,
    pending: Vec<PageAt>,
}

impl<'a> Model for PageWalk<'a> {
    ghost use Rattle.std.specs.Prelude.{reverse};
    ghost use Rattle.ndx_index.specs.Walks.{Walk};
    ghost use Rattle.ndx_index.specs.Shallow.{IsWalk};

    ghost Value = { Walk };

    ghost view = { λ w. record { bytes = w.bytes.now; layout = w.layout; flags = w.met.items; pending = reverse w.pending.items } };

    ghost invariant = { λ w. IsWalk w.layout w.bytes.now w.met.items w.pending.items };
}

// What a page holds, where the flags are those of the pages met before, or the rule that it breaks. A page that holds
// something is met then.
fn look_at<'a>(
    bytes: &'a [u8],
    layout: PageLayout,
    flags: &mut Vec<bool>,
    page: u32,
) -> PageView<'a>
    requires layout { IsPageLayout layout }
    requires flags { vec_len flags.old ≡ length bytes.now / PAGE }
    ensures node { (met : List ℕ) → IsFlagged flags.old.items met → node_seen result ≡ look layout bytes.now met page }
    ensures met { (met : List ℕ) → IsFlagged flags.old.items met → IsFlagged flags.new.items (met_with met page (node_seen result)) }
    ensures key_len { HasKeyLength layout.key_len result }
    ensures same_count { vec_len flags.new ≡ vec_len flags.old }
    ensures unmet { UnmetAfter (node_seen result) (count_by not flags.old.items) (count_by not flags.new.items) }
{
    let at = page as usize;
    if at == 0 || at >= flags.len() {
        return PageView::Broken(NdxFault::PageOutside);
    }
    if flags[at] {
        return PageView::Broken(NdxFault::PageTwice);
    }
    let view = view_of(layout, &bytes[PAGE * at..PAGE * at + PAGE]);
    if !matches!(view, PageView::Broken(_)) {
        flags[at] = true;
    }
    view
}

// Puts the children of a page at the end, the first one last.
fn push_children(
    inner: &InnerPage<'_>,
    depth: usize,
    pending: &mut Vec<PageAt>,
) -> Result<(), AllocError>
    ensures pending { OnOk result (pending.new.items ≡ pending.old.items ++ reverse (at_depth depth (children inner.now.layout inner.now.bytes.now inner.now.count))) }
    ensures shallow { (most : ℕ) → depth ≤ most → AreShallow most pending.old.items → AreShallow most pending.new.items }
{
    for i in (0..inner.count).rev() {
        pending.push(PageAt {
            page: inner.child(i),
            depth,
        })?;
    }
    Ok(())
}

// Puts the pages under a page at the end, the first one last.
fn push_under(
    view: &PageView<'_>,
    depth: usize,
    pending: &mut Vec<PageAt>,
) -> Result<(), AllocError>
    ensures pending { OnOk result (pending.new.items ≡ pending.old.items ++ reverse (at_depth depth (pages_under (node_seen view.now)))) }
    ensures shallow { (most : ℕ) → OnOk (node_seen view.now) (depth ≤ most) → AreShallow most pending.old.items → AreShallow most pending.new.items }
{
    match view {
        PageView::Inner(inner) => push_children(inner, depth, pending),
        _ => Ok(()),
    }
}

// Takes a step: what the next page holds, which is met then, and the pages under it are the next.
fn step<'a>(
    bytes: &'a [u8],
    layout: PageLayout,
    flags: &mut Vec<bool>,
    pending: &mut Vec<PageAt>,
    next: PageAt,
) -> Result<PageView<'a>, AllocError>
    requires walk { IsWalk layout bytes.now flags.old.items pending.old.items }
    requires depth { next.depth ≤ met_count flags.old.items }
    ensures node { IfOk result (λ view. (met : List ℕ) → IsFlagged flags.old.items met → node_seen view ≡ look layout bytes.now met next.page) }
    ensures met { IfOk result (λ view. (met : List ℕ) → IsFlagged flags.old.items met → IsFlagged flags.new.items (met_with met next.page (node_seen view))) }
    ensures pending { IfOk result (λ view. pending.new.items ≡ pending.old.items ++ reverse (at_depth (next.depth + 1) (pages_under (node_seen view)))) }
    ensures key_len { IfOk result (HasKeyLength layout.key_len) }
    ensures less { OnOk result (work_left flags.new.items pending.new.items < work_left flags.old.items pending.old.items + 1) }
    ensures walk { IsWalk layout bytes.now flags.new.items pending.new.items }
{
    let view = look_at(bytes, layout, flags, next.page);
    push_under(&view, next.depth + 1, pending)?;
    Ok(view)
}

impl<'a> PageWalk<'a> {
    /// A walk from a root page, which may have any number.
    ///
    /// An `Err` says that there was no memory.
    pub fn new(
        alloc: Global,
        bytes: &'a [u8],
        layout: PageLayout,
        root: u32,
    ) -> Result<PageWalk<'a>, AllocError>
        requires layout { IsPageLayout layout }
        ensures walk { IfOk result (λ walk. walk ≡ walk_from bytes.now layout root) }
    {
        let met = vec![in alloc; false; bytes.len() / PAGE]?;
        let pending = vec![in alloc;
            PageAt {
                page: root,
                depth: 0
            },
        ]?;
        Ok(PageWalk {
            bytes,
            layout,
            met,
            pending,
        })
    }

    /// The next page and what it holds, or none where the walk is over.
    ///
    /// An `Err` says that there was no memory.
    pub fn next_page(&mut self) -> Result<Option<PageSeen<'a>>, AllocError>
        ensures step { IfOk result (λ seen. MatchOption seen (self.old.pending ≡ []) (λ s. IsStep self.old s.at (node_seen s.view) self.new)) }
        ensures key_len { IfOk result (λ seen. IfSome seen (λ s. HasKeyLength self.old.layout.key_len s.view)) }
        ensures less { IfOk result (λ seen. OnSome seen (work_of self.new < work_of self.old)) }
    {
        let Some(at) = self.pending.pop() else {
            return Ok(None);
        };
        let view = step(
            self.bytes,
            self.layout,
            &mut self.met,
            &mut self.pending,
            at,
        )?;
        Ok(Some(PageSeen { at, view }))
    }
}
