//! How far a set of files is.

/// How far a set of files is.
#[derive(Clone, Copy, Debug, PartialEq, Eq)]
pub enum Phase {
    /// Files are being written under their temporary names.
    Staging,
    /// A call failed, and nothing counts of what was written: the set can be abandoned.
    Failed,
    /// A call failed while the set was put in place or removed. The next start recovers.
    Ended,
}
