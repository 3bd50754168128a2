//! The bytes that a record is sorted by.

ghost use Rattle.std.specs.Prelude.{◌≡◌, ◌+◌, ◌<◌, ◌≤◌, ◌∷◌, ◌++◌, [], length};
ghost use Rattle.key_expr.specs.declared.format.TheConstants.{MAX_KEY_BYTES};

use crate::format::MAX_KEY_BYTES;
use std::cmp::Ordering;
use std::marker::Model;

/// The bytes that a record is sorted by, at most `MAX_KEY_BYTES`. Contracts see their list.
///
/// Keys are compared byte by byte; where one is the beginning of the other, the shorter is less.
#[derive(Clone, Copy)]
pub struct Key {
    bytes: [u8; MAX_KEY_BYTES],
    len: usize,
}

impl Model for Key {
    ghost use Rattle.std.specs.Prelude.{ℕ, List};

    ghost Value = { List ℕ };

    ghost use Rattle.key_expr.specs.KeyBytes.{key_bytes, HasZerosAfter, inside_of, inside_of-bytes_of};

    ghost view = { key_bytes };

    ghost invariant = { HasZerosAfter };

    ghost inverse = { inside_of };

    ghost inverse_ok = { inside_of-bytes_of };
}

impl Key {
    /// The key of these bytes, which are at most `MAX_KEY_BYTES`. Takes no memory.
    pub fn new(bytes: &[u8]) -> Self
        requires short { length bytes.now ≤ MAX_KEY_BYTES }
        ensures bytes { result ≡ bytes.now }
    {
        let mut kept = [0; MAX_KEY_BYTES];
        kept[..bytes.len()].copy_from_slice(bytes);
        Key {
            bytes: kept,
            len: bytes.len(),
        }
    }

    /// Puts a byte after the others.
    pub(crate) fn push(&mut self, byte: u8)
        requires room { length self.old < MAX_KEY_BYTES }
        ensures value { self.new ≡ self.old ++ byte ∷ [] }
    {
        self.bytes[self.len] = byte;
        self.len += 1;
    }

    /// Puts bytes after the others, copied at once.
    pub(crate) fn push_bytes(&mut self, bytes: &[u8])
        requires room { length self.old + length bytes.now ≤ MAX_KEY_BYTES }
        ensures value { self.new ≡ self.old ++ bytes.now }
    {
        let end = self.len + bytes.len();
        self.bytes[self.len..end].copy_from_slice(bytes);
        self.len = end;
    }

    /// The bytes of the key.
    pub fn as_bytes(&self) -> &[u8]
        ensures bytes { result.now ≡ self.now }
        ensures short { length self.now ≤ MAX_KEY_BYTES }
    {
        &self.bytes[..self.len]
    }
}

impl PartialEq for Key {
    ghost use Rattle.std.specs.Prelude.{nat_eq};
    ghost use Rattle.std.specs.Cmp.Lexicographic.{pointwise};
    ghost use Rattle.std.specs.Cmp.Rules.{comparing};
    ghost use Rattle.std.proofs.Common.{rules};

    ghost eq = { pointwise nat_eq };

    ghost laws = { Prim.search (comparing, rules) };

    fn eq(&self, other: &Key) -> bool {
        self.as_bytes() == other.as_bytes()
    }
}

impl Eq for Key {
    ghost use Rattle.std.specs.Cmp.Rules.{comparing};
    ghost use Rattle.std.proofs.Common.{rules};

    ghost laws = { Prim.search (comparing, rules) };
}

impl Ord for Key {
    ghost use Rattle.std.specs.Cmp.Lexicographic.{slice_cmp};
    ghost use Rattle.std.specs.Ordering.{nat_cmp};
    ghost use Rattle.std.specs.Cmp.Rules.{comparing};
    ghost use Rattle.std.proofs.Common.{rules};

    ghost cmp = { slice_cmp nat_cmp };

    ghost total = { Prim.search (comparing, rules) };

    ghost matches_partial_cmp = { Prim.search (comparing, rules) };

    ghost matches_eq = { Prim.search (comparing, rules) };

    fn cmp(&self, other: &Key) -> Ordering {
        self.as_bytes().cmp(&other.as_bytes())
    }
}

impl PartialOrd for Key {
    ghost use Rattle.std.specs.Cmp.Lexicographic.{slice_cmp};
    ghost use Rattle.std.specs.Cmp.{partial_order_from_own_ties};
    ghost use Rattle.std.specs.Ordering.{nat_cmp, as_partial_cmp};
    ghost use Rattle.std.specs.Cmp.Rules.{comparing};
    ghost use Rattle.std.proofs.Common.{rules};

    ghost partial_cmp = { as_partial_cmp (slice_cmp nat_cmp) };

    ghost laws = { partial_order_from_own_ties (Prim.search (comparing, rules)) (Prim.search (comparing, rules)) };

    fn partial_cmp(&self, other: &Key) -> Option<Ordering> {
        Some(self.cmp(other))
    }
}

impl Default for Key {
    ghost use Rattle.std.specs.Prelude.{◌≡◌, []};

    ghost is_default = { λ k. k ≡ [] };

    fn default() -> Key {
        Key::new(&[])
    }
}
