//! What a part of a list of pairs tells.

ghost use Rattle.std.specs.Prelude.{◌≡◌, ◌<◌, ◌≤◌, length, take, drop};
ghost use Rattle.key_expr.specs.declared.format.TheConstants.{MAX_KEY_BYTES};
ghost use Rattle.ndx_index.specs.ListParts.{listed};
ghost use Rattle.ndx_index.specs.Slots.{slot_at};

use crate::pages::runs::part;
use crate::pair::Pair;
use crate::pair_list::part::ListPart;
use key_expr::Key;

impl<'a> ListPart<'a> {
    /// How many pairs it has.
    pub(crate) fn len(self) -> usize
        ensures count { result ≡ length (listed self.entry) }
    {
        self.numbers.len()
    }

    /// The key of a pair, by its place.
    pub(crate) fn key(self, at: usize) -> &'a [u8]
        requires place { at < length (listed self) }
        ensures key { result.now ≡ (slot_at (listed self.entry) at).key }
        ensures len { length result.now ≡ self.entry.key_len }
        ensures short { length result.now ≤ MAX_KEY_BYTES }
    {
        part(self.keys, self.key_len, at)
    }

    /// The record number of a pair, by its place.
    pub(crate) fn number(self, at: usize) -> u32
        requires place { at < length (listed self) }
        ensures number { result ≡ (slot_at (listed self.entry) at).number }
    {
        self.numbers[at]
    }

    /// A pair, by its place.
    pub(crate) fn get(self, at: usize) -> Pair
        requires place { at < length (listed self) }
        ensures pair { result ≡ slot_at (listed self.entry) at }
        ensures key { length result.key ≡ self.entry.key_len }
    {
        Pair {
            key: Key::new(self.key(at)),
            number: self.number(at),
        }
    }

    /// The first pairs, and the others.
    pub(crate) fn split_at(self, count: usize) -> (ListPart<'a>, ListPart<'a>)
        requires inside { count ≤ length (listed self) }
        ensures front { listed result.0 ≡ take count (listed self.entry) }
        ensures rest { listed result.1 ≡ drop count (listed self.entry) }
        ensures key_len { (result.0.key_len ≡ self.entry.key_len) × (result.1.key_len ≡ self.entry.key_len) }
    {
        let (keys, other_keys) = self.keys.split_at(count * self.key_len);
        let (numbers, other_numbers) = self.numbers.split_at(count);
        let front = ListPart {
            key_len: self.key_len,
            keys,
            numbers,
        };
        let rest = ListPart {
            key_len: self.key_len,
            keys: other_keys,
            numbers: other_numbers,
        };
        (front, rest)
    }
}
