//! Where a pair stands in a tree.

/// A place of a leaf.
#[derive(Clone, Copy)]
pub(crate) struct Place {
    /// The leaf, by its page number.
    pub(crate) page: u32,
    /// The place in the leaf, from 0.
    pub(crate) at: usize,
}

/// A page and what is under it.
#[derive(Clone, Copy)]
pub(crate) struct Branch {
    /// How many levels the page is above the leaves; a leaf is at level 0.
    pub(crate) level: usize,
    /// The page number.
    pub(crate) page: u32,
}
