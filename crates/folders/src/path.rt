//! Paths: the name of a file, the folder that it lies in, and the list that may lie beside it.

ghost use Rattle.std.specs.Prelude.{◌≡◌, ◌≤◌, length, IfOk, bytes_eq};
ghost use Rattle.files_in_place.specs.Folder.{list_name as name_of_list};
ghost use Rattle.folders.specs.Paths.{name_start as start_of_name, is_reserved_path as is_reserved_at, name_at_end, folder_of_path, list_beside as path_of_list};

use files_in_place::is_reserved;
use std::alloc::{AllocError, Global};

// The name of the list of a set of new files.
fn list_name() -> &'static [u8]
    ensures value { result.now ≡ name_of_list }
{
    b"~niqarthu.list"
}

// Where the name begins that a path ends with.
fn name_start(path: &[u8]) -> usize
    ensures value { result ≡ start_of_name path.now }
    ensures inside { result ≤ length path.now }
{
    let mut start = path.len();
    while start > 0 {
        if path[start - 1] == b'/' {
            return start;
        }
        start -= 1;
    }
    0
}

/// The name that a path ends with: what stands after its last slash.
pub fn file_name(path: &[u8]) -> &[u8]
    ensures value { result.now ≡ name_at_end path.now }
{
    &path[name_start(path)..]
}

/// Whether the name that a path ends with is kept for the files of a set that is not in place.
pub(crate) fn is_reserved_path(path: &[u8]) -> bool
    ensures value { result ≡ is_reserved_at path.now }
{
    is_reserved(file_name(path))
}

/// The folder that the file of a path lies in: `.` where the path has no slash, and `/` for the root.
pub fn folder_of(path: &[u8]) -> &[u8]
    ensures value { result.now ≡ folder_of_path path.now }
{
    match name_start(path) {
        0 => b".",
        1 => b"/",
        start => &path[..start - 1],
    }
}

/// The path of the list of a set in the folder of a path. An error where memory is refused.
pub(crate) fn list_beside(alloc: Global, path: &[u8]) -> Result<Vec<u8>, AllocError>
    ensures value { IfOk result (λ list. list.items ≡ path_of_list path.now) }
{
    let mut list = Vec::from_slice(alloc, &path[..name_start(path)])?;
    list.extend_from_slice(list_name())?;
    Ok(list)
}

/// Whether it is the path of the list of a set in the folder of a path.
pub(crate) fn is_list_beside(list: &[u8], path: &[u8]) -> bool
    ensures value { result ≡ bytes_eq list.now (path_of_list path.now) }
{
    match list.strip_prefix(&path[..name_start(path)]) {
        Some(name) => name == list_name(),
        None => false,
    }
}
