//! How the pages of an index are filled.

ghost use Rattle.std.specs.Prelude.{◌≡◌, ◌≤◌};
ghost use Rattle.key_expr.specs.declared.format.TheConstants.{MAX_KEY_BYTES};
ghost use Rattle.ndx_index.specs.Shapes.{IsShape};

use crate::format::MAX_RECORDS_BYTES;

/// The sizes that follow from the length of an index's keys.
#[derive(Clone, Copy)]
pub(crate) struct Shape {
    /// The bytes of a key.
    pub(crate) key_len: usize,
    /// The bytes of a key record: eight and the key, up to a multiple of four.
    pub(crate) size: usize,
    /// The most key records of a page.
    pub(crate) keys: usize,
    ghost fits: { IsShape key_len size keys },
}

impl Shape {
    /// The shape of an index with keys of this many bytes.
    pub(crate) fn new(key_len: usize) -> Shape
        requires some { 1 ≤ key_len }
        requires short { key_len ≤ MAX_KEY_BYTES }
        ensures key_len { result.key_len ≡ key_len }
    {
        let size = 4 * ((key_len + 11) / 4);
        Shape {
            key_len,
            size,
            keys: MAX_RECORDS_BYTES / size,
        }
    }
}
