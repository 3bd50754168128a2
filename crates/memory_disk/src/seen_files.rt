//! The files that calls have made, as reads show them. The latest call is the first.

ghost use Rattle.std.specs.Prelude.{◌≡◌, ◌++◌, true, option_map, IfOk, IsSome, OnOk, Contains};
ghost use Rattle.files_in_place.specs.Folder.{Name};
ghost use Rattle.memory_disk.specs.Seen.{gives_file, with_over, seen_after};

use crate::disk_call::DiskCall;
use byte_io::Bytes;
use std::alloc::{AllocError, Global};

// The bytes with more at the end, if there is a file.
fn with_more(
    alloc: Global,
    content: Option<Bytes>,
    more: &[u8],
) -> Result<Option<Bytes>, AllocError>
    ensures value { IfOk result (λ longer. longer ≡ option_map (λ bytes. bytes ++ more.now) content) }
{
    let Some(content) = content else {
        return Ok(None);
    };
    let mut longer = content.into_vec();
    longer.extend_from_slice(more)?;
    Ok(Some(Bytes::from_vec(longer)))
}

// A file's bytes with these over those from an offset on. A file that has fewer stays as it is.
fn written_over(alloc: Global, old: Bytes, offset: u64, bytes: &[u8]) -> Result<Bytes, AllocError>
    ensures value { IfOk result (λ written. written ≡ with_over offset bytes.now old) }
{
    if offset > old.as_slice().len() as u64 {
        return Ok(old);
    }
    let (front, rest) = old.as_slice().split_at(offset as usize);
    let mut written = Vec::from_slice(alloc, front)?;
    written.extend_from_slice(bytes)?;
    if bytes.len() < rest.len() {
        written.extend_from_slice(&rest[bytes.len()..])?;
    }
    Ok(Bytes::from_vec(written))
}

// The same, if there is a file.
fn with_over(
    alloc: Global,
    content: Option<Bytes>,
    offset: u64,
    bytes: &[u8],
) -> Result<Option<Bytes>, AllocError>
    ensures value { IfOk result (λ written. written ≡ option_map (with_over offset bytes.now) content) }
{
    match content {
        Some(old) => Ok(Some(written_over(alloc, old, offset, bytes)?)),
        None => Ok(None),
    }
}

// What the name's file has after the calls.
pub(crate) fn content_of(
    alloc: Global,
    calls: &[DiskCall],
    name: &[u8],
) -> Result<Option<Bytes>, AllocError>
    ensures value { IfOk result (λ content. content ≡ seen_after calls.now name.now) }
{
    let [last, before @ ..] = calls else {
        return Ok(None);
    };
    match last {
        DiskCall::Create(created) => {
            if created.as_slice() == name {
                return Ok(Some(Bytes::new(alloc)));
            }
            content_of(alloc, before, name)
        }
        DiskCall::Append(longer, bytes) => {
            let content = content_of(alloc, before, name)?;
            if longer.as_slice() == name {
                return with_more(alloc, content, bytes.as_slice());
            }
            Ok(content)
        }
        DiskCall::Rename(from, to) => {
            if to.as_slice() == name {
                return content_of(alloc, before, from.as_slice());
            }
            if from.as_slice() == name {
                return Ok(None);
            }
            content_of(alloc, before, name)
        }
        DiskCall::Remove(removed) => {
            if removed.as_slice() == name {
                return Ok(None);
            }
            content_of(alloc, before, name)
        }
        DiskCall::WriteAt(written, offset, bytes) => {
            let content = content_of(alloc, before, name)?;
            if written.as_slice() == name {
                return with_over(alloc, content, *offset, bytes.as_slice());
            }
            Ok(content)
        }
        DiskCall::SyncFile(_) | DiskCall::SyncFolder | DiskCall::SyncInPlace(_) => {
            content_of(alloc, before, name)
        }
    }
}

// Whether the name is one of the names.
fn is_among(names: &[Bytes], name: &[u8]) -> bool
    ensures found { result ≡ true → Contains names.now name.now }
{
    let [first, rest @ ..] = names else {
        return false;
    };
    first.as_slice() == name || is_among(rest, name)
}

// Adds the name, if it has a file after the calls and isn't among the names.
fn add_if_seen(
    alloc: Global,
    calls: &[DiskCall],
    name: &[u8],
    names: &mut Vec<Bytes>,
) -> Result<(), AllocError>
    ensures kept { OnOk result ((n : Name) → Contains names.old.items n → Contains names.new.items n) }
    ensures added { OnOk result (IsSome (seen_after calls.now name.now) → Contains names.new.items name.now) }
{
    if is_among(names, name) {
        return Ok(());
    }
    let Some(_) = content_of(alloc, calls, name)? else {
        return Ok(());
    };
    names.push(Bytes::from_slice(alloc, name)?)?;
    Ok(())
}

// Adds the name to which a call gives a file, if it has one after all the calls.
fn add_name(
    alloc: Global,
    all: &[DiskCall],
    call: &DiskCall,
    names: &mut Vec<Bytes>,
) -> Result<(), AllocError>
    ensures kept { OnOk result ((n : Name) → Contains names.old.items n → Contains names.new.items n) }
    ensures added { OnOk result ((n : Name) → gives_file call.now n ≡ true → IsSome (seen_after all.now n) → Contains names.new.items n) }
{
    match call {
        DiskCall::Create(name) | DiskCall::Rename(_, name) => {
            add_if_seen(alloc, all, name.as_slice(), names)?;
        }
        _ => {}
    }
    Ok(())
}

// Adds each name to which some of the calls have given a file, if it has one after all the calls.
fn add_names(
    alloc: Global,
    all: &[DiskCall],
    calls: &[DiskCall],
    names: &mut Vec<Bytes>,
) -> Result<(), AllocError>
    ensures kept { OnOk result ((n : Name) → Contains names.old.items n → Contains names.new.items n) }
    ensures added { OnOk result ((n : Name) → IsSome (seen_after calls.now n) → IsSome (seen_after all.now n) → Contains names.new.items n) }
{
    let [last, before @ ..] = calls else {
        return Ok(());
    };
    add_name(alloc, all, last, names)?;
    add_names(alloc, all, before, names)?;
    Ok(())
}

// The names that have a file after the calls, each once.
pub(crate) fn names_of(alloc: Global, calls: &[DiskCall]) -> Result<Vec<Bytes>, AllocError>
    ensures all { IfOk result (λ names. (n : Name) → IsSome (seen_after calls.now n) → Contains names.items n) }
{
    let mut names = Vec::new(alloc);
    add_names(alloc, calls, calls, &mut names)?;
    Ok(names)
}
