//! A key and a record number.

use crate::compare::ends_are_before;
use key_expr::Key;

/// A key, and the number of the record that has it. Pairs are compared by the keys' bytes, and then by
/// the record numbers.
#[derive(Clone, Copy, Default, PartialEq, Eq, PartialOrd, Ord)]
pub struct Pair {
    /// The record's key.
    pub key: Key,
    /// The record's number, from 1.
    pub number: u32,
}

impl Pair {
    ghost use Rattle.std.specs.Prelude.{◌≡◌};
    ghost use Rattle.ndx_index.specs.Order.{before};

    /// Whether the pair stands before another one in an index.
    pub(crate) fn is_before(&self, other: &Pair) -> bool
        ensures value { result ≡ before self.now other.now }
    {
        if let Some(is_before) = ends_are_before(self.key.as_bytes(), other.key.as_bytes()) {
            return is_before;
        }
        self.cmp(other).is_lt()
    }
}
