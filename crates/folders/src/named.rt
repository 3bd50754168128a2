//! A file by its name.

use byte_io::Bytes;

/// A file: its name or path, and its bytes.
#[derive(Debug, PartialEq, Eq, Drop)]
pub struct NamedFile {
    /// The name or path.
    pub name: Bytes,
    /// The bytes.
    pub bytes: Bytes,
}
