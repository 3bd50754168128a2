//! What the files of an entry are.

use byte_io::Bytes;
use dbf_image::GrowingTable;
use ndx_index::NdxFile;

/// What the files of an entry are.
#[derive(Drop)]
pub enum EntryContent {
    /// Those of a table's entry: the table, which its indexes can be compared with.
    Table(GrowingTable),
    /// That of an index's: the text of the key expression, the length of the keys and the pairs.
    Index(NdxFile),
    /// That of a station's: the bytes of its script.
    Script(Bytes),
}
