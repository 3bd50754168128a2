//! Files of a folder of the system are brought to the disk.

ghost use Rattle.std.specs.Prelude.{◌≡◌, ◌++◌, ◌⊎◌, IfOk, IfSome, IfNone, OnOk, IsErrOf};
ghost use Rattle.std.specs.List.{All, Contains};
ghost use Rattle.files_in_place.specs.declared.faults.DiskFault.TheVariants.{Failed};
ghost use Rattle.files_in_place.specs.System.{IsNoEntry, OneIsNoEntry, IsRefused, HasNoBytes, HasSynced, IsOpenAmong};

use crate::calls::SystemCalls;
use crate::faults::DiskFault;
use crate::system_calls::{file_of, in_folder, uninterrupted};
use byte_io::Bytes;
use std::alloc::Global;

// How many files are synced at a time. Each is open meanwhile, and has a thread.
const SYNCED_AT_ONCE: usize = 32;

// Brings all of an open file or folder to the disk.
pub(crate) fn sync_open<R: SystemCalls>(rt: &R, file: &R::File) -> Result<(), DiskFault>
    ensures synced { OnOk result (R.answers.syncs file.now) }
    ensures failed { IsErrOf result Failed → IsRefused R.answers }
{
    uninterrupted(|| rt.sync(file))?;
    Ok(())
}

// Opens the file of the name to be synced, if there is one. What is no regular file has no bytes to be brought to the disk, and is
// not opened: a pipe would make it wait.
fn open_found<R: SystemCalls>(
    rt: &R,
    alloc: Global,
    folder: &str,
    name: &[u8],
) -> Result<Option<R::File>, DiskFault>
    ensures at { IfOk result (λ found. IfSome found (λ file. R.answers.is_at file (folder.now ++ name.now))) }
    ensures none { IfOk result (λ found. IfNone found (HasNoBytes R.answers (folder.now ++ name.now))) }
    ensures failed { IsErrOf result Failed → IsNoEntry name.now ⊎ IsRefused R.answers }
{
    let path = in_folder(alloc, folder, name)?;
    match file_of(rt, path.as_str())? {
        Some(found) if found.is_file() => {}
        _ => return Ok(None),
    }
    let file = rt.open(path.as_str())?;
    Ok(Some(file))
}

// Brings the bytes of the file of the name to the disk, if there is one.
pub(crate) fn sync_found<R: SystemCalls>(
    rt: &R,
    alloc: Global,
    folder: &str,
    name: &[u8],
) -> Result<(), DiskFault>
    ensures synced { OnOk result (HasSynced R.answers (folder.now ++ name.now) ⊎ HasNoBytes R.answers (folder.now ++ name.now)) }
    ensures failed { IsErrOf result Failed → IsNoEntry name.now ⊎ IsRefused R.answers }
{
    match open_found(rt, alloc, folder, name)? {
        Some(file) => sync_open(rt, &file),
        None => Ok(()),
    }
}

// Opens the file of one name more, if there is one.
fn open_next<R: SystemCalls>(
    rt: &R,
    alloc: Global,
    folder: &str,
    name: &[u8],
    files: &mut Vec<R::File>,
) -> Result<(), DiskFault>
    ensures opened { OnOk result (IsOpenAmong R.answers files.new.items (folder.now ++ name.now)) }
    ensures kept { OnOk result ((file : _) → Contains files.old.items file → Contains files.new.items file) }
    ensures failed { IsErrOf result Failed → IsNoEntry name.now ⊎ IsRefused R.answers }
{
    if let Some(file) = open_found(rt, alloc, folder, name)? {
        files.push(file)?;
    }
    Ok(())
}

// Opens the files of the names, those that there are.
fn open_each<R: SystemCalls>(
    rt: &R,
    alloc: Global,
    folder: &str,
    names: &[Bytes],
) -> Result<Vec<R::File>, DiskFault>
    ensures opened { IfOk result (λ files. All (λ name. IsOpenAmong R.answers files.items (folder.now ++ name)) names.now) }
    ensures failed { IsErrOf result Failed → OneIsNoEntry names.now ⊎ IsRefused R.answers }
{
    let mut files = Vec::new(alloc);
    for name in names {
        open_next(rt, alloc, folder, name.as_slice(), &mut files)?;
    }
    Ok(files)
}

// Brings the bytes of the files of the names to the disk side by side, of those that there are.
fn sync_together<R: SystemCalls>(
    rt: &R,
    alloc: Global,
    folder: &str,
    names: &[Bytes],
) -> Result<(), DiskFault>
    ensures synced { OnOk result (All (λ name. HasSynced R.answers (folder.now ++ name) ⊎ HasNoBytes R.answers (folder.now ++ name)) names.now) }
    ensures failed { IsErrOf result Failed → OneIsNoEntry names.now ⊎ IsRefused R.answers }
{
    let files = open_each(rt, alloc, folder, names)?;
    rt.sync_all(&files)?;
    Ok(())
}

// The same of any number of names, so many at a time.
pub(crate) fn sync_each<R: SystemCalls>(
    rt: &R,
    alloc: Global,
    folder: &str,
    names: &[Bytes],
) -> Result<(), DiskFault>
    ensures synced { OnOk result (All (λ name. HasSynced R.answers (folder.now ++ name) ⊎ HasNoBytes R.answers (folder.now ++ name)) names.now) }
    ensures failed { IsErrOf result Failed → OneIsNoEntry names.now ⊎ IsRefused R.answers }
{
    let mut rest = names;
    while !rest.is_empty() {
        let (some, others) = rest.split_at(rest.len().min(SYNCED_AT_ONCE));
        sync_together(rt, alloc, folder, some)?;
        rest = others;
    }
    Ok(())
}
