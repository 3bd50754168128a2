//! What a new file takes the place of, as far as that can be known before anything is written.

ghost use Rattle.std.specs.Prelude.{◌≡◌, ◌⊎◌, ◌++◌, List, ℕ, IfOk, OnOk, IfSome, IfNone, IsErrOf};
ghost use Rattle.files_in_place.specs.declared.faults.DiskFault.TheVariants.{Failed};
ghost use Rattle.files_in_place.specs.Folder.{temporary};
ghost use Rattle.files_in_place.specs.System.{IsNoEntry, IsRefused, HasNothing, Replaces, ReplacesNothing, CannotBegin, HandsMode};

use crate::calls::SystemCalls;
use crate::faults::DiskFault;
use crate::system_calls::{in_folder, metadata_of, uninterrupted};
use std::alloc::Global;
use std::fs::Metadata;
use std::os::unix::fs::MetadataExt;

// The bit of a folder's mode in which only its owner, and a file's, may replace the file.
const STICKY: u32 = 0o1000;

// The file that a new one of a temporary name is to replace, and the folder that both lie in.
#[derive(Drop)]
pub(crate) struct Replaced {
    file: Metadata,
    folder: Metadata,
}

// The name for which a temporary name stands.
fn own_name(name: &[u8]) -> Option<&[u8]>
    ensures own { IfSome result (λ own. name.now ≡ temporary own.now) }
    ensures none { IfNone result ((own : List ℕ) → (name.now ≡ temporary own) → ⊥) }
{
    name.strip_prefix(b"~niqarthu~")
}

// What the name has for which a temporary name stands, or `None` where it has nothing. `Failed` where no rename would replace
// it, as a folder or a file that is mounted there; and where it is a file that nobody may write.
pub(crate) fn find_replaced<R: SystemCalls>(
    rt: &R,
    alloc: Global,
    folder: &str,
    name: &[u8],
) -> Result<Option<Replaced>, DiskFault>
    ensures found { IfOk result (λ found. IfSome found (λ r. Replaces R.answers folder.now name.now r.file)) }
    ensures none { IfOk result (λ found. IfNone found (ReplacesNothing R.answers folder.now name.now)) }
    ensures failed { IsErrOf result Failed → CannotBegin R.answers folder.now name.now ⊎ IsRefused R.answers }
{
    let Some(own) = own_name(name) else {
        return Ok(None);
    };
    let path = in_folder(alloc, folder, own)?;
    let Some(file) = metadata_of(rt, path.as_str())? else {
        return Ok(None);
    };
    let folder = uninterrupted(|| rt.follow(folder))?;
    if file.is_dir() || file.dev() != folder.dev() || file.permissions().readonly() {
        return Err(DiskFault::Failed);
    }
    Ok(Some(Replaced { file, folder }))
}

impl Replaced {
    // Whether the owner of a new file may replace this one.
    fn may_be_replaced_by(&self, new: &Metadata) -> bool {
        let owner = new.uid();
        self.folder.mode() & STICKY == 0
            || owner == 0
            || owner == self.folder.uid()
            || owner == self.file.uid()
    }

    // Gives a new file, which is empty yet, the mode of this one, and its group where the system allows that. `Failed` where
    // it may not replace this one.
    pub(crate) fn hand_over<R: SystemCalls>(
        &self,
        rt: &R,
        path: &str,
        new: &R::File,
    ) -> Result<(), DiskFault>
        ensures mode { OnOk result (HandsMode R.answers self.now.file new.now) }
    {
        let found = uninterrupted(|| rt.metadata(new))?;
        if !self.may_be_replaced_by(&found) {
            return Err(DiskFault::Failed);
        }
        if self.file.is_file() {
            // Where the system doesn't allow it, the file has the group that the system gave it.
            let _ = rt.set_group(path, self.file.gid());
            uninterrupted(|| rt.set_mode(new, self.file.permissions()))?;
        }
        Ok(())
    }
}
