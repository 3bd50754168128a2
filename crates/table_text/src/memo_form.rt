//! How much of a memo is shown.

/// How much of a memo's text stands in a line.
#[derive(Clone, Copy, Debug, PartialEq, Eq)]
pub enum MemoForm {
    /// What stands before its first CR or LF.
    FirstLine,
    /// All of it.
    Whole,
}
