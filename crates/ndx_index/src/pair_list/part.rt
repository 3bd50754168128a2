//! A part of a list of pairs.

ghost use Rattle.std.specs.Prelude.{◌≡◌, ◌*◌, ◌≤◌, length};
ghost use Rattle.key_expr.specs.declared.format.TheConstants.{MAX_KEY_BYTES};

/// Pairs that stand one after another in a list, and whose keys have one length.
#[derive(Clone, Copy)]
pub(crate) struct ListPart<'a> {
    /// The bytes of each key.
    pub(crate) key_len: usize,
    /// The keys, one after another.
    pub(crate) keys: &'a [u8],
    /// The record numbers.
    pub(crate) numbers: &'a [u32],
    ghost short: { key_len ≤ MAX_KEY_BYTES },
    ghost fit: { length keys.now ≡ length numbers.now * key_len },
}
