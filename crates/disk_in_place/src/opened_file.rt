//! A file of a folder of the system that is written over where it is.

ghost use Rattle.std.specs.Prelude.{◌≡◌, ◌++◌, ◌⊎◌, List, ℕ, option_map, IfOk, IfSome, OnOk, IsErrOf};
ghost use Rattle.files_in_place.specs.declared.faults.DiskFault.TheVariants.{Failed};
ghost use Rattle.files_in_place.specs.System.{HasNoRegularFile, IsNoEntry, IsRefused};
ghost use Rattle.disk_in_place.specs.SystemInPlace.{IsReached};

use crate::calls::SystemCallsInPlace;
use crate::system_calls::{in_folder, uninterrupted};
use byte_io::Bytes;
use files_in_place::DiskFault;
use std::alloc::Global;

// A file that is open to be written over, and its name.
#[derive(Drop)]
pub(crate) struct OpenedFile<R: SystemCallsInPlace + Drop> {
    name: Bytes,
    file: R::File,
}

impl<R: SystemCallsInPlace + Drop> OpenedFile<R> {
    // Opens a file, which is there. What is no regular file is not opened, and a link is not followed.
    fn open(rt: &R, alloc: Global, folder: &str, name: &[u8]) -> Result<OpenedFile<R>, DiskFault>
        ensures name { IfOk result (λ opened. opened.name ≡ name.now) }
        ensures at { IfOk result (λ opened. R.answers.is_at opened.file (folder.now ++ name.now)) }
        ensures opened { IfOk result (λ opened. R.answers_in_place.opens_over opened.file (folder.now ++ name.now)) }
        ensures failed { IsErrOf result Failed → IsNoEntry name.now ⊎ HasNoRegularFile R.answers (folder.now ++ name.now) ⊎ IsRefused R.answers }
    {
        let path = in_folder(alloc, folder, name)?;
        let found = uninterrupted(|| rt.find(path.as_str()))?;
        if !found.is_file() {
            return Err(DiskFault::Failed);
        }
        let name = Bytes::from_slice(alloc, name)?;
        let file = rt.open_over(path.as_str())?;
        Ok(OpenedFile { name, file })
    }

    // Writes all of the bytes over those of the file from an offset on.
    pub(crate) fn write_over(&mut self, rt: &R, offset: u64, bytes: &[u8]) -> Result<(), DiskFault>
        ensures name { self.new.name ≡ self.old.name }
        ensures at { (path : _) → R.answers.is_at self.old.file path → R.answers.is_at self.new.file path }
        ensures written { OnOk result (R.answers_in_place.writes_over self.old.file offset bytes.now self.new.file) }
        ensures failed { IsErrOf result Failed → IsRefused R.answers }
    {
        rt.write_over(&mut self.file, offset, bytes)?;
        Ok(())
    }

    // Brings all that was written to the disk, and the file's length with it.
    pub(crate) fn sync_data(&self, rt: &R) -> Result<(), DiskFault>
        ensures synced { OnOk result (R.answers_in_place.syncs_data self.now.file) }
        ensures failed { IsErrOf result Failed → IsRefused R.answers }
    {
        let file = &self.file;
        uninterrupted(|| rt.sync_data(file))?;
        Ok(())
    }
}

// The file of the name: the one that is open, where it has the name, and else one that is opened now.
pub(crate) fn reach<R: SystemCallsInPlace + Drop>(
    rt: &R,
    alloc: Global,
    folder: &str,
    opened: Option<OpenedFile<R>>,
    name: &[u8],
) -> Result<OpenedFile<R>, DiskFault>
    ensures name { IfOk result (λ reached. reached.name ≡ name.now) }
    ensures at { IfSome opened (λ was. R.answers.is_at was.file (folder.now ++ was.name))
        → IfOk result (λ reached. R.answers.is_at reached.file (folder.now ++ name.now)) }
    ensures reached { IfOk result (λ reached. IsReached R.answers R.answers_in_place folder.now name.now
        (option_map (λ was. record { name = was.name; file = was.file }) opened) reached.file) }
    ensures failed { IsErrOf result Failed → IsNoEntry name.now ⊎ HasNoRegularFile R.answers (folder.now ++ name.now) ⊎ IsRefused R.answers }
{
    if let Some(opened) = opened {
        if opened.name.as_slice() == name {
            return Ok(opened);
        }
    }
    OpenedFile::open(rt, alloc, folder, name)
}
