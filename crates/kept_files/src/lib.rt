//! The files that a setup names and that a run leaves beside its new ones.
//!
//! A run writes each new file under the name of its table or index: `STAFF.DBF`, `STAFF.DBT`, `NAMES.NDX`. Where new files go
//! into the folder of a file of another name, as `staff.dbf`, that file stays as it is, and the next run reads it again.
//! [`kept_file`] and [`kept_memo_file`] tell such files, which are defined in `specs/KeptFiles.antt`; [`new_file`] and [`new_memo_file`]
//! tell each new file, [`new_path`] where it comes to lie. Start reading there.
#![tactic(auto)]

ghost use Rattle.std.specs.Prelude.{◌≡◌, ◌++◌, bytes_eq, option_map, IfOk};
ghost use Rattle.folders.specs.Paths.{name_at_end};
ghost use Rattle.kept_files.specs.KeptFiles.{ending_of, kept, kept_of, kept_unless_named, kept_file_in, kept_memo_file_in, has_own_name, new_file_in, new_memo_file_in, path_in};

use byte_io::Bytes;
use folders::file_name;
use station_lines::SetupEntry;
use std::alloc::{AllocError, Global};

/// What a new file has.
#[derive(Clone, Copy, Debug, PartialEq, Eq)]
pub enum NewKind {
    /// A table's fields and records: the file ends with `.DBF`.
    Table,
    /// A table's memos: `.DBT`.
    Memos,
    /// An index: `.NDX`.
    Index,
}

impl NewKind {
    /// What the name of such a file ends with.
    pub fn ending(self) -> &'static [u8]
        ensures value { result.now ≡ ending_of self }
    {
        match self {
            NewKind::Table => b".DBF",
            NewKind::Memos => b".DBT",
            NewKind::Index => b".NDX",
        }
    }
}

/// A file that a setup names, and the new file that is written of it.
#[derive(Clone, Copy, Debug)]
pub struct KeptFile<'a> {
    /// Its path, as in the setup.
    pub path: &'a Bytes,
    /// The name of the table or of the index, in capitals, with which the new file's name begins.
    pub name: &'a Bytes,
    /// What the new file has.
    pub kind: NewKind,
}

// Whether a path ends with the name of a new file.
fn is_named(path: &[u8], name: &[u8], ending: &[u8]) -> bool
    ensures value { result ≡ bytes_eq (name_at_end path.now) (name.now ++ ending.now) }
{
    match file_name(path).strip_prefix(name) {
        Some(rest) => rest == ending,
        None => false,
    }
}

// The file of a path, unless it has the new file's name.
fn unless_named<'a>(path: &'a Bytes, name: &'a Bytes, kind: NewKind) -> Option<KeptFile<'a>>
    ensures value { option_map kept_of result ≡ kept_unless_named (kept path.now name.now kind) }
{
    if is_named(path.as_slice(), name.as_slice(), kind.ending()) {
        None
    } else {
        Some(KeptFile { path, name, kind })
    }
}

/// The DBF file of a table or the NDX file of an index that an entry of a setup names, where its name is not that of the
/// new file. Takes no memory.
pub fn kept_file(entry: &SetupEntry) -> Option<KeptFile<'_>>
    ensures value { option_map kept_of result ≡ kept_file_in entry.now }
{
    match entry {
        SetupEntry::Table { name, dbf, .. } => unless_named(dbf, name, NewKind::Table),
        SetupEntry::Index { name, ndx, .. } => unless_named(ndx, name, NewKind::Index),
        SetupEntry::Station { .. } => None,
    }
}

/// The DBT file of a table that an entry of a setup names, where its name is not that of the new file. Takes no memory.
pub fn kept_memo_file(entry: &SetupEntry) -> Option<KeptFile<'_>>
    ensures value { option_map kept_of result ≡ kept_memo_file_in entry.now }
{
    match entry {
        SetupEntry::Table {
            name,
            dbt: Some(dbt),
            ..
        } => unless_named(dbt, name, NewKind::Memos),
        _ => None,
    }
}

/// The DBF file of a table or the NDX file of an index that an entry of a setup names, whatever its name is. Takes no memory.
pub fn new_file(entry: &SetupEntry) -> Option<KeptFile<'_>>
    ensures value { option_map kept_of result ≡ new_file_in entry.now }
{
    match entry {
        SetupEntry::Table { name, dbf, .. } => Some(KeptFile {
            path: dbf,
            name,
            kind: NewKind::Table,
        }),
        SetupEntry::Index { name, ndx, .. } => Some(KeptFile {
            path: ndx,
            name,
            kind: NewKind::Index,
        }),
        SetupEntry::Station { .. } => None,
    }
}

/// The DBT file of a table that an entry of a setup names, whatever its name is. Takes no memory.
pub fn new_memo_file(entry: &SetupEntry) -> Option<KeptFile<'_>>
    ensures value { option_map kept_of result ≡ new_memo_file_in entry.now }
{
    match entry {
        SetupEntry::Table {
            name,
            dbt: Some(dbt),
            ..
        } => Some(KeptFile {
            path: dbt,
            name,
            kind: NewKind::Memos,
        }),
        _ => None,
    }
}

/// Whether the path of a file ends with the name of the new file. Takes no memory.
pub fn is_own_name(file: KeptFile<'_>) -> bool
    ensures value { result ≡ has_own_name (kept_of file.entry) }
{
    is_named(
        file.path.as_slice(),
        file.name.as_slice(),
        file.kind.ending(),
    )
}

/// The path of the new file in a folder. An error where memory is refused.
pub fn new_path(alloc: Global, folder: &str, file: KeptFile<'_>) -> Result<Vec<u8>, AllocError>
    ensures value { IfOk result (λ path. path.items ≡ path_in folder.now (kept_of file.entry)) }
{
    let mut path = Vec::from_slice(alloc, folder.as_bytes())?;
    path.extend_from_slice(b"/")?;
    path.extend_from_slice(file.name.as_slice())?;
    path.extend_from_slice(file.kind.ending())?;
    Ok(path)
}
