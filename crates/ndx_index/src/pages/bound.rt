//! Where a search in an order begins.

ghost use Rattle.std.specs.Prelude.{◌≡◌, not};
ghost use Rattle.ndx_index.specs.Bounds.{passes};
ghost use Rattle.ndx_index.specs.Order.{before, reaches};

use crate::pair::Pair;

/// Where a search begins: a key and a number, which the pairs before that place stand before. These fail the search's
/// test, and the others pass it.
#[derive(Clone, Copy)]
pub(crate) struct Bound<'a> {
    /// The key's bytes.
    pub(crate) key: &'a [u8],
    /// From 0 on; one more than a record number can be, so that there is a bound above each pair.
    pub(crate) number: u64,
}

impl<'a> Bound<'a> {
    /// The pairs that are not below one pass.
    pub(crate) fn at_least(pair: &'a Pair) -> Self
        ensures test { passes result ≡ (λ q. not (before q pair.now)) }
    {
        Bound {
            key: pair.key.as_bytes(),
            number: u64::from(pair.number),
        }
    }

    /// The pairs above one pass.
    pub(crate) fn above(pair: &'a Pair) -> Self
        ensures test { passes result ≡ before pair.now }
    {
        Bound {
            key: pair.key.as_bytes(),
            number: u64::from(pair.number) + 1,
        }
    }

    /// The pairs whose keys are not below these bytes pass.
    pub(crate) fn reaching(prefix: &'a [u8]) -> Self
        ensures test { passes result ≡ reaches prefix.now }
    {
        Bound {
            key: prefix,
            number: 0,
        }
    }
}
