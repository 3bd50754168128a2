//! What a line of a setup is.

use crate::setup::said::Said;

/// What a line is, by itself.
#[derive(Clone, Copy)]
pub(crate) enum Judged<'a> {
    /// It says nothing.
    Skipped,
    /// It is no line of a setup.
    Bad,
    /// It says this.
    Good(Said<'a>),
}
