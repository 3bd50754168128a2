//! A set of new files takes the place of the old ones.

ghost use Rattle.std.specs.Prelude.{◌≡◌, OnOk, IsErrOf};
ghost use Rattle.files_in_place.specs.declared.faults.DiskFault.TheVariants.{Failed};
ghost use Rattle.files_in_place.specs.Folder.{Name};
ghost use Rattle.files_in_place.specs.Disk.{LeavesOnly, IsSyncedDisk, HasDiskCause};
ghost use Rattle.files_in_place.specs.Staged.{AreReady, IsPut, with_staged};

use crate::disk::Disk;
use crate::faults::DiskFault;
use crate::recovery::recover_listed;
use byte_io::Bytes;
use std::alloc::Global;

// Gives the files of a set their names: the list first, which is the moment from which on the new files count.
pub(crate) fn commit<D: Disk>(alloc: Global, disk: &mut D, names: &[Bytes]) -> Result<(), DiskFault>
    requires ready { D.meaning.keeps_promises → AreReady D.meaning names.now disk.old }
    ensures done { D.meaning.keeps_promises → OnOk result ((n : Name) → D.meaning.seen disk.new n ≡ with_staged names.now (D.meaning.seen disk.old) n) }
    ensures synced { D.meaning.keeps_promises → OnOk result (IsSyncedDisk D.meaning disk.new) }
    ensures any_moment { D.meaning.keeps_promises → LeavesOnly D.meaning disk.old disk.new (IsPut names.now (D.meaning.seen disk.old)) }
    ensures cause { HasDiskCause D.meaning disk.old disk.new (IsErrOf result Failed) }
{
    disk.sync_folder()?;
    disk.rename(b"~niqarthu~~niqarthu.list", b"~niqarthu.list")?;
    disk.sync_folder()?;
    match recover_listed(alloc, disk, names) {
        Ok(()) => Ok(()),
        Err(stuck) => Err(stuck.fault),
    }
}
