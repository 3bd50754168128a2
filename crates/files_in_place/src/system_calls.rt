//! What is asked of the files of a folder of the system.

ghost use Rattle.std.specs.Prelude.{◌≡◌, ◌++◌, ◌⊎◌, false, Ok, IfOk, IfErr, OnOk, IsErrOf, IsTrue, IsFalse, MatchOption, IfSome, IfNone, string_bytes};
ghost use Rattle.std.specs.List.{Contains};
ghost use Rattle.std.specs.Fs.{file_type, IsDir};
ghost use Rattle.files_in_place.specs.declared.faults.DiskFault.TheVariants.{Failed};
ghost use Rattle.files_in_place.specs.Staged.{is_dots};
ghost use Rattle.files_in_place.specs.System.{IsNoEntry, IsRefused, LeadsToNoFolder, HasNothing, HasNoFile, HasFile, HasNoRegularFile, HasRead, HasReadNames};

use crate::calls::SystemCalls;
use crate::faults::DiskFault;
use crate::names::is_dots;
use byte_io::Bytes;
use std::alloc::Global;
use std::fs::Metadata;
use std::io;
use std::io::ErrorKind;

// What stands between a folder's path and a file's name.
const SLASH: u8 = b'/';

// How often a call that a signal interrupts is made.
const MAX_TRIES: usize = 1000;

// How many bytes of names are read at once.
const NAMES_AT_ONCE: usize = 4096;

// Makes a call of the system again while a signal interrupts it: what the last call answers is the answer.
pub(crate) fn uninterrupted<T: Drop, F: Fn() -> io::Result<T>>(call: F) -> io::Result<T>
    requires { F.IsAlwaysCallable call }
    ensures answer { F.post call result }
{
    for _ in 1..MAX_TRIES {
        match call() {
            Err(e) if e.kind() == ErrorKind::Interrupted => {}
            ended => return ended,
        }
    }
    call()
}

// Opens a folder to be synced or locked. What is no folder is not opened: a pipe would make it wait.
pub(crate) fn open_folder<R: SystemCalls>(rt: &R, path: &str) -> io::Result<R::File>
    ensures opened { IfOk result (λ folder. R.answers.is_at folder path.now) }
    ensures refused { IfErr result (λ e. R.answers.refuses e ⊎ LeadsToNoFolder R.answers path.now) }
{
    let found = uninterrupted(|| rt.follow(path))?;
    if !found.is_dir() {
        return Err(io::Error::from(ErrorKind::NotADirectory));
    }
    rt.open(path)
}

// The path of a file of a folder whose path ends in a slash. No file has a name that is no UTF-8 or has a slash, nor one that is
// empty, a dot or two dots: such a path is one of another folder.
pub(crate) fn in_folder(alloc: Global, folder: &str, name: &[u8]) -> Result<String, DiskFault>
    ensures path { IfOk result (λ path. string_bytes path ≡ folder.now ++ name.now) }
    ensures inside { OnOk result (is_dots name.now ≡ false × ¬ Contains name.now SLASH) }
    ensures outside { IsErrOf result Failed → IsNoEntry name.now }
{
    if is_dots(name) || name.contains(&SLASH) {
        return Err(DiskFault::Failed);
    }
    let Ok(name) = str::from_utf8(name) else {
        return Err(DiskFault::Failed);
    };
    Ok(format!(in alloc; "{folder}{name}")?)
}

// What the path leads to, or `None` where there is nothing. A link is not followed.
pub(crate) fn metadata_of<R: SystemCalls>(rt: &R, path: &str) -> Result<Option<Metadata>, DiskFault>
    ensures found { IfOk result (λ found. MatchOption found (HasNothing R.answers path.now) (λ m. R.answers.finds path.now (Ok m))) }
    ensures failed { IsErrOf result Failed → IsRefused R.answers }
{
    match uninterrupted(|| rt.find(path)) {
        Ok(found) => Ok(Some(found)),
        Err(e) if e.kind() == ErrorKind::NotFound => Ok(None),
        Err(e) => Err(DiskFault::from(e)),
    }
}

// What a folder has under a name, if that is a file: a link is one, and a folder is none.
pub(crate) fn file_of<R: SystemCalls>(rt: &R, path: &str) -> Result<Option<Metadata>, DiskFault>
    ensures none { IfOk result (λ found. IfNone found (HasNoFile R.answers path.now)) }
    ensures found { IfOk result (λ found. IfSome found (λ m. R.answers.finds path.now (Ok m))) }
    ensures file { IfOk result (λ found. IfSome found (λ m. ¬ IsDir (file_type m))) }
    ensures failed { IsErrOf result Failed → IsRefused R.answers }
{
    match metadata_of(rt, path)? {
        Some(found) if !found.is_dir() => Ok(Some(found)),
        _ => Ok(None),
    }
}

// Whether the folder has a file of the name.
pub(crate) fn has_file<R: SystemCalls>(
    rt: &R,
    alloc: Global,
    folder: &str,
    name: &[u8],
) -> Result<bool, DiskFault>
    ensures there { IfOk result (λ found. IsTrue found → HasFile R.answers (folder.now ++ name.now)) }
    ensures none { IfOk result (λ found. IsFalse found → HasNoFile R.answers (folder.now ++ name.now)) }
    ensures failed { IsErrOf result Failed → IsNoEntry name.now ⊎ IsRefused R.answers }
{
    let path = in_folder(alloc, folder, name)?;
    Ok(file_of(rt, path.as_str())?.is_some())
}

// The bytes of the file of the name, if there is one. What is no regular file is not opened: a pipe would make it wait.
pub(crate) fn read_file<R: SystemCalls>(
    rt: &R,
    alloc: Global,
    folder: &str,
    name: &[u8],
) -> Result<Option<Bytes>, DiskFault>
    ensures none { IfOk result (λ content. IfNone content (HasNoFile R.answers (folder.now ++ name.now))) }
    ensures content { IfOk result (λ content. IfSome content (λ bytes. HasRead R.answers (folder.now ++ name.now) bytes)) }
    ensures failed { IsErrOf result Failed → IsNoEntry name.now ⊎ HasNoRegularFile R.answers (folder.now ++ name.now) ⊎ IsRefused R.answers }
{
    let path = in_folder(alloc, folder, name)?;
    let Some(found) = file_of(rt, path.as_str())? else {
        return Ok(None);
    };
    if !found.is_file() {
        return Err(DiskFault::Failed);
    }
    let mut file = rt.open(path.as_str())?;
    let bytes = rt.read(alloc, &mut file)?;
    Ok(Some(Bytes::from_vec(bytes)))
}

// Gives a file another name, in the place of what had it: a link is replaced, and not what it leads to.
pub(crate) fn rename_file<R: SystemCalls>(
    rt: &R,
    alloc: Global,
    folder: &str,
    from: &[u8],
    to: &[u8],
) -> Result<(), DiskFault>
    ensures renamed { OnOk result (R.answers.renames (folder.now ++ from.now) (folder.now ++ to.now)) }
    ensures failed { IsErrOf result Failed → IsNoEntry from.now ⊎ IsNoEntry to.now ⊎ IsRefused R.answers }
{
    let from = in_folder(alloc, folder, from)?;
    let to = in_folder(alloc, folder, to)?;
    uninterrupted(|| rt.rename(from.as_str(), to.as_str()))?;
    Ok(())
}

// Removes the file of the name. Where there is none, that is done: so it is where a folder has the name.
pub(crate) fn remove_file<R: SystemCalls>(
    rt: &R,
    alloc: Global,
    folder: &str,
    name: &[u8],
) -> Result<(), DiskFault>
    ensures removed { OnOk result (R.answers.removes (folder.now ++ name.now) ⊎ HasNoFile R.answers (folder.now ++ name.now)) }
    ensures failed { IsErrOf result Failed → IsNoEntry name.now ⊎ IsRefused R.answers }
{
    let path = in_folder(alloc, folder, name)?;
    if file_of(rt, path.as_str())?.is_none() {
        return Ok(());
    }
    uninterrupted(|| rt.remove(path.as_str()))?;
    Ok(())
}

// Puts the names of one reading to the others. Each is ended by a NUL.
fn push_names(alloc: Global, read: &[u8], names: &mut Vec<Bytes>) -> Result<(), DiskFault> {
    for name in read.split(|b| *b == 0) {
        if !name.is_empty() && str::from_utf8(name).is_ok() {
            names.push(Bytes::from_slice(alloc, name)?)?;
        }
    }
    Ok(())
}

// The names of all that is in the folder, its folders too.
pub(crate) fn folder_names<R: SystemCalls>(
    rt: &R,
    alloc: Global,
    folder: &str,
) -> Result<Vec<Bytes>, DiskFault>
    ensures all { OnOk result (HasReadNames R.answers folder.now) }
{
    let mut dir = uninterrupted(|| rt.open_names(folder))?;
    let mut names = Vec::new(alloc);
    let mut read = [0u8; NAMES_AT_ONCE];
    for _ in 0..u64::MAX {
        match rt.read_names(&mut dir, &mut read) {
            Ok(0) => return Ok(names),
            Ok(count) => push_names(alloc, &read[..count], &mut names)?,
            Err(e) if e.kind() == ErrorKind::Interrupted => {}
            Err(e) => return Err(DiskFault::from(e)),
        }
    }
    Err(DiskFault::Failed)
}
