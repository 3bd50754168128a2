//! Names of files, and lists of them.

ghost use Rattle.std.specs.Prelude.{◌≡◌, true, IfOk, map};
ghost use Rattle.files_in_place.specs.Folder.{is_reserved, temporary, name_lines, list_bytes, lines_of, names_of};
ghost use Rattle.files_in_place.specs.Staged.{is_staged, is_name_byte, is_dots, is_file_name};
ghost use Rattle.std.specs.List.{list_all, AllByRecursion};
ghost use Rattle.std.specs.Str.{is_utf8};

use byte_io::Bytes;
use std::alloc::{AllocError, Global};

// The most bytes of a file's name: with `~niqarthu~` before it a file system takes it still.
const MAX_NAME_BYTES: usize = 245;

/// Whether a name is kept for a set's own files: whether it begins with `~niqarthu`. No other file has such a name.
pub fn is_reserved(name: &[u8]) -> bool
    ensures value { result ≡ is_reserved name.now }
{
    name.starts_with(b"~niqarthu")
}

// Whether a name is empty, one dot or two dots.
pub(crate) fn is_dots(name: &[u8]) -> bool
    ensures value { result ≡ is_dots name.now }
{
    name == b"".as_slice() || name == b".".as_slice() || name == b"..".as_slice()
}

// Whether each byte may stand in a file's name.
fn has_name_bytes(name: &[u8]) -> bool
    ensures value { result ≡ list_all is_name_byte name.now }
{
    for b in name {
        if *b == 0 || *b == b'\n' || *b == b'/' {
            return false;
        }
    }
    true
}

// Whether a name is UTF-8.
fn is_text(name: &[u8]) -> bool
    ensures value { result ≡ is_utf8 name.now }
{
    match str::from_utf8(name) {
        Ok(_) => true,
        Err(_) => false,
    }
}

// Whether a file of a set may have the name.
pub(crate) fn is_file_name(name: &[u8]) -> bool
    ensures value { result ≡ is_file_name name.now }
{
    !is_reserved(name)
        && !is_dots(name)
        && has_name_bytes(name)
        && name.len() <= MAX_NAME_BYTES
        && is_text(name)
}

// Whether files of a set may have all of the names.
pub(crate) fn are_file_names(names: &[Bytes]) -> bool
    ensures are { result ≡ true → AllByRecursion (λ name. is_file_name name ≡ true) names.now }
    ensures only { AllByRecursion (λ name. is_file_name name ≡ true) names.now → result ≡ true }
{
    for name in names {
        if !is_file_name(name.as_slice()) {
            return false;
        }
    }
    true
}

// Whether the name is one of the names.
pub(crate) fn is_staged(names: &[Bytes], name: &[u8]) -> bool
    ensures value { result ≡ is_staged names.now name.now }
{
    for staged in names {
        if staged.as_slice() == name {
            return true;
        }
    }
    false
}

// The temporary name of a new file.
pub(crate) fn temporary_name(alloc: Global, name: &[u8]) -> Result<Bytes, AllocError>
    ensures value { IfOk result (λ lies. lies ≡ temporary name.now) }
{
    let mut lies = Vec::new(alloc);
    lies.extend_from_slice(b"~niqarthu~")?;
    lies.extend_from_slice(name)?;
    Ok(Bytes::from_vec(lies))
}

// The temporary name of each new file.
pub(crate) fn temporary_names(alloc: Global, names: &[Bytes]) -> Result<Vec<Bytes>, AllocError>
    ensures value { IfOk result (λ lies. lies.items ≡ map temporary names.now) }
{
    let mut lies = Vec::new(alloc);
    for name in names {
        lies.push(temporary_name(alloc, name.as_slice())?)?;
    }
    Ok(lies)
}

// A line for each name.
fn name_lines(alloc: Global, names: &[Bytes]) -> Result<Vec<u8>, AllocError>
    ensures value { IfOk result (λ lines. lines.items ≡ name_lines names.now) }
{
    let mut lines = Vec::new(alloc);
    for name in names {
        lines.extend_from_slice(name.as_slice())?;
        lines.push(b'\n')?;
    }
    Ok(lines)
}

// A list of names. Its last line, which is no name, says how many they are: so a list that is cut anywhere is none.
pub(crate) fn list_bytes(alloc: Global, names: &[Bytes]) -> Result<Vec<u8>, AllocError>
    ensures value { IfOk result (λ list. list.items ≡ list_bytes names.now) }
{
    let mut list = name_lines(alloc, names)?;
    let end = format!(in alloc; "~niqarthu: {} names", names.len())?;
    list.extend_from_slice(end.as_bytes())?;
    list.push(b'\n')?;
    Ok(list)
}

// The whole lines of a list.
fn split_lines(alloc: Global, list: &[u8]) -> Result<Vec<Bytes>, AllocError>
    ensures value { IfOk result (λ lines. lines.items ≡ lines_of list.now) }
{
    let mut lines = Vec::new(alloc);
    let mut line = Vec::new(alloc);
    for b in list {
        if *b == b'\n' {
            lines.push(Bytes::from_vec(line))?;
            line = Vec::new(alloc);
        } else {
            line.push(*b)?;
        }
    }
    Ok(lines)
}

// The names of a list: its whole lines but the last.
pub(crate) fn names_of(alloc: Global, list: &[u8]) -> Result<Vec<Bytes>, AllocError>
    ensures value { IfOk result (λ names. names.items ≡ names_of list.now) }
{
    let mut names = split_lines(alloc, list)?;
    names.pop();
    Ok(names)
}
