//! Where a memo's text stands in its file.

/// A part of a file of memos: where it begins, and how many bytes it has.
#[derive(Clone, Copy, Debug)]
pub(crate) struct Span {
    pub(crate) start: usize,
    pub(crate) length: usize,
}
