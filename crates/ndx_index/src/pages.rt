//! The pages that an ordered index is kept in.

pub(crate) mod append;
pub(crate) mod bound;
pub(crate) mod child;
pub(crate) mod free;
pub(crate) mod halve;
pub(crate) mod insert;
pub(crate) mod pair_pages;
pub(crate) mod place;
pub(crate) mod remove;
pub(crate) mod root;
pub(crate) mod runs;
pub(crate) mod search;
pub(crate) mod slots;
pub(crate) mod split;
pub(crate) mod store;
