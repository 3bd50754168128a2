//! What an index file holds.

ghost use Rattle.std.specs.Prelude.{◌≡◌};

use crate::pair_list::PairList;
use byte_io::Bytes;

/// What an index file holds.
#[derive(Drop)]
pub struct NdxFile {
    /// The text of the key expression, without blanks at its end.
    pub expr: Bytes,
    /// The bytes of each key, from 1 to 100.
    pub key_len: usize,
    /// The pairs of the leaves, in the order of the file.
    pub pairs: PairList,
    ghost one_length: { pairs.key_len ≡ key_len },
}
