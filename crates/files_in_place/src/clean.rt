//! Files of reserved names are removed.

ghost use Rattle.std.specs.Prelude.{◌≡◌, None, true, false, OnOk, IsErrOf};
ghost use Rattle.files_in_place.specs.declared.faults.DiskFault.TheVariants.{Failed};
ghost use Rattle.files_in_place.specs.Folder.{Name, is_reserved, without_reserved};
ghost use Rattle.files_in_place.specs.Disk.{Steps, IsSyncedDisk, HasDiskCause};
ghost use Rattle.files_in_place.specs.Recovery.{LosesReserved, AreRemoved};

use crate::disk::Disk;
use crate::faults::DiskFault;
use crate::names::is_reserved;
use byte_io::Bytes;
use std::alloc::Global;

// Removes a file if its name is reserved.
fn remove_if_reserved<D: Disk>(disk: &mut D, name: &[u8]) -> Result<(), DiskFault>
    ensures done { D.meaning.keeps_promises → OnOk result (is_reserved name.now ≡ true → D.meaning.seen disk.new name.now ≡ None) }
    ensures others { D.meaning.keeps_promises → OnOk result (LosesReserved (D.meaning.seen disk.old) (D.meaning.seen disk.new)) }
    ensures whole { (n : Name) → D.meaning.is_whole disk.old n → D.meaning.is_whole disk.new n }
    ensures steps { Steps D.meaning LosesReserved disk.old disk.new }
    ensures cause { HasDiskCause D.meaning disk.old disk.new (IsErrOf result Failed) }
{
    if !is_reserved(name) {
        return Ok(());
    }
    disk.remove(name)?;
    Ok(())
}

// Removes each of the files whose name is reserved.
fn remove_reserved<D: Disk>(disk: &mut D, names: &[Bytes]) -> Result<(), DiskFault>
    ensures done { D.meaning.keeps_promises → OnOk result (AreRemoved names.now (D.meaning.seen disk.new)) }
    ensures others { D.meaning.keeps_promises → OnOk result (LosesReserved (D.meaning.seen disk.old) (D.meaning.seen disk.new)) }
    ensures whole { (n : Name) → D.meaning.is_whole disk.old n → D.meaning.is_whole disk.new n }
    ensures steps { Steps D.meaning LosesReserved disk.old disk.new }
    ensures cause { HasDiskCause D.meaning disk.old disk.new (IsErrOf result Failed) }
{
    for name in names {
        remove_if_reserved(disk, name.as_slice())?;
    }
    Ok(())
}

// Removes all files of reserved names, where nothing else is to be done.
pub(crate) fn clean<D: Disk>(alloc: Global, disk: &mut D) -> Result<(), DiskFault>
    ensures done { D.meaning.keeps_promises → OnOk result ((n : Name) → D.meaning.seen disk.new n ≡ without_reserved (D.meaning.seen disk.old) n) }
    ensures synced { D.meaning.keeps_promises → ((n : Name) → is_reserved n ≡ false → D.meaning.is_whole disk.old n)
        → OnOk result (IsSyncedDisk D.meaning disk.new) }
    ensures steps { Steps D.meaning LosesReserved disk.old disk.new }
    ensures cause { HasDiskCause D.meaning disk.old disk.new (IsErrOf result Failed) }
{
    let names = disk.list(alloc)?;
    remove_reserved(disk, &names)?;
    disk.sync_folder()?;
    Ok(())
}
