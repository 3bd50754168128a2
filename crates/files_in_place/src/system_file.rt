//! A new file of a folder of the system.

ghost use Rattle.std.specs.Prelude.{◌≡◌, ◌↔◌, ◌⊎◌, ◌++◌, List, ℕ, IfOk, IfSome, OnOk, IsErrOf, IsTrue, IsSomeAnd};
ghost use Rattle.files_in_place.specs.declared.faults.DiskFault.TheVariants.{Failed};
ghost use Rattle.files_in_place.specs.System.{CannotBegin, HasOldMode, HasTaken, HasAppended, IsMadeUnder, IsRefused};

use crate::calls::SystemCalls;
use crate::faults::DiskFault;
use crate::replaced::find_replaced;
use crate::system_calls::in_folder;
use crate::system_syncs::sync_open;
use byte_io::Bytes;
use std::alloc::Global;

// A file that takes bytes until it is synced, and its name.
#[derive(Drop)]
pub(crate) struct SystemFile<R: SystemCalls + Drop> {
    name: Bytes,
    file: R::File,
}

impl<R: SystemCalls + Drop> SystemFile<R> {
    // Makes an empty file under a name that has nothing, not even a link. A temporary name is refused where no rename would put
    // the file in its place; else the file has the mode and the group of the one that it is to replace.
    pub(crate) fn create(
        rt: &R,
        alloc: Global,
        folder: &str,
        name: &[u8],
    ) -> Result<SystemFile<R>, DiskFault>
        ensures name { IfOk result (λ made. made.name ≡ name.now) }
        ensures placed { IfOk result (λ made. IsMadeUnder R.answers folder.now name.now made.file) }
        ensures mode { IfOk result (λ made. HasOldMode R.answers folder.now name.now made.file) }
        ensures failed { IsErrOf result Failed → CannotBegin R.answers folder.now name.now ⊎ IsRefused R.answers }
    {
        let replaced = find_replaced(rt, alloc, folder, name)?;
        let path = in_folder(alloc, folder, name)?;
        let name = Bytes::from_slice(alloc, name)?;
        let file = rt.create(path.as_str())?;
        if let Some(replaced) = replaced {
            replaced.hand_over(rt, path.as_str(), &file)?;
        }
        Ok(SystemFile { name, file })
    }
}

// Writes all of the bytes to the file created last, which has to be that of the name. std's `write_all` goes on after a
// short write, and after one that a signal interrupts.
pub(crate) fn append_to<R: SystemCalls + Drop>(
    rt: &R,
    current: &mut Option<SystemFile<R>>,
    name: &[u8],
    bytes: &[u8],
) -> Result<(), DiskFault>
    ensures appended { OnOk result (HasTaken (λ f. (f.name, R.File.contents f.file)) name.now bytes.now current.old current.new) }
    ensures written { (folder : List ℕ) → IfSome current.old (λ c. IsMadeUnder R.answers folder c.name c.file)
        → OnOk result (HasAppended R.answers R.File.contents (folder ++ name.now) bytes.now) }
    // It is the same file, whatever comes of it.
    ensures placed { (folder : List ℕ) → IfSome current.old (λ c. IsMadeUnder R.answers folder c.name c.file)
        → IfSome current.new (λ c. IsMadeUnder R.answers folder c.name c.file) }
{
    let Some(current) = current else {
        return Err(DiskFault::Failed);
    };
    if current.name.as_slice() != name {
        return Err(DiskFault::Failed);
    }
    rt.append(&mut current.file, bytes)?;
    Ok(())
}

// Whether the name is that of the file created last, where it still takes bytes.
pub(crate) fn is_current<R: SystemCalls + Drop>(
    current: &Option<SystemFile<R>>,
    name: &[u8],
) -> bool
    ensures same { IsTrue result ↔ IsSomeAnd current.now (λ c. c.name ≡ name.now) }
{
    match current {
        Some(current) => current.name.as_slice() == name,
        None => false,
    }
}

// Syncs the file created last, which has to be that of the name, and closes it. It takes no more bytes, whatever comes of
// it: after a failed sync nothing is believed of them, even if a later one succeeds. What closing answers isn't looked
// at, since the bytes are on the disk then.
pub(crate) fn sync_once<R: SystemCalls + Drop>(
    rt: &R,
    current: Option<SystemFile<R>>,
    name: &[u8],
) -> Result<(), DiskFault>
    ensures synced { OnOk result (IsSomeAnd current (λ c. R.answers.syncs c.file)) }
    ensures current { OnOk result (IsSomeAnd current (λ c. c.name ≡ name.now)) }
    ensures failed { IsSomeAnd current (λ c. c.name ≡ name.now) → IsErrOf result Failed → IsRefused R.answers }
{
    let Some(current) = current else {
        return Err(DiskFault::Failed);
    };
    if current.name.as_slice() != name {
        return Err(DiskFault::Failed);
    }
    sync_open(rt, &current.file)
}
