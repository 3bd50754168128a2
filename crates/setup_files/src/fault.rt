//! Why the files of an entry are refused.

ghost use Rattle.std.specs.Prelude.{◌≡◌};
ghost use Rattle.setup_files.specs.EntryFiles.{refused_path as path_refused};

use crate::head_numbers::IndexNumbers;
use byte_io::Bytes;
use dbf_image::{BadTable, TableNumbers};
use ndx_index::BadIndex;
use station_lines::SetupEntry;

/// Why no bytes are had of a file.
#[derive(Clone, Copy, Debug, PartialEq, Eq)]
pub enum LoadRefusal {
    /// It can't be read, or is over 1,073,741,824 bytes, or its path ends with a reserved name.
    CannotRead,
    /// The list of a set of new files lies in its folder: not all of them are in place.
    Unrecovered,
}

/// Why the files of an entry are refused.
#[derive(Clone, Copy, Debug, PartialEq, Eq)]
pub enum EntryFault {
    /// No bytes are had of the file.
    Unloaded(LoadRefusal),
    /// None are had of the file of a table's memos.
    UnloadedMemos(LoadRefusal),
    /// The bytes are no table, and these are the numbers of their header.
    NoTable(BadTable, TableNumbers),
    /// The bytes are no index, and these are the numbers at their head.
    NoIndex(BadIndex, IndexNumbers),
}

/// The path of the file of an entry that is refused: of a table's two files the DBF's, but where it is that of its memos of which
/// no bytes are had. Takes no memory.
pub fn refused_path(entry: &SetupEntry, fault: EntryFault) -> &Bytes
    ensures value { result.now ≡ path_refused entry.now fault }
{
    match entry {
        SetupEntry::Table { dbf, dbt, .. } => match (dbt, fault) {
            (Some(dbt), EntryFault::UnloadedMemos(_)) => dbt,
            _ => dbf,
        },
        SetupEntry::Index { ndx, .. } => ndx,
        SetupEntry::Station { script } => script,
    }
}
