//! What a list of new files names is brought to the disk.

ghost use Rattle.std.specs.Prelude.{◌≡◌, OnOk, IsErrOf};
ghost use Rattle.files_in_place.specs.declared.faults.DiskFault.TheVariants.{Failed};
ghost use Rattle.files_in_place.specs.Folder.{Name, temporary, list_name, names_in};
ghost use Rattle.files_in_place.specs.Disk.{LeavesOnly, Shrinks, HasDiskCause};
ghost use Rattle.files_in_place.specs.Recovery.{AreOnDisk, CanRename};

use crate::disk::Disk;
use crate::faults::DiskFault;
use crate::names::temporary_name;
use byte_io::Bytes;
use std::alloc::Global;

// Brings the bytes of the file of a name to the disk, and those of the file that has its temporary name.
fn sync_both<D: Disk>(alloc: Global, disk: &mut D, name: &[u8]) -> Result<(), DiskFault>
    ensures whole { OnOk result (D.meaning.is_whole disk.new name.now × D.meaning.is_whole disk.new (temporary name.now)) }
    ensures kept { (n : Name) → D.meaning.is_whole disk.old n → D.meaning.is_whole disk.new n }
    ensures seen { D.meaning.seen disk.new ≡ D.meaning.seen disk.old }
    ensures crash { Shrinks (D.meaning.may_leave disk.old) (D.meaning.may_leave disk.new) }
    ensures any_moment { LeavesOnly D.meaning disk.old disk.new (D.meaning.may_leave disk.old) }
    ensures cause { HasDiskCause D.meaning disk.old disk.new (IsErrOf result Failed) }
{
    let lies = temporary_name(alloc, name)?;
    disk.sync_file(lies.as_slice())?;
    disk.sync_file(name)?;
    Ok(())
}

// Brings the bytes of all of these files to the disk.
fn sync_files<D: Disk>(alloc: Global, disk: &mut D, names: &[Bytes]) -> Result<(), DiskFault>
    ensures whole { OnOk result (AreOnDisk (D.meaning.is_whole disk.new) names.now) }
    ensures kept { (n : Name) → D.meaning.is_whole disk.old n → D.meaning.is_whole disk.new n }
    ensures seen { D.meaning.seen disk.new ≡ D.meaning.seen disk.old }
    ensures crash { Shrinks (D.meaning.may_leave disk.old) (D.meaning.may_leave disk.new) }
    ensures any_moment { LeavesOnly D.meaning disk.old disk.new (D.meaning.may_leave disk.old) }
    ensures cause { HasDiskCause D.meaning disk.old disk.new (IsErrOf result Failed) }
{
    for name in names {
        sync_both(alloc, disk, name.as_slice())?;
    }
    Ok(())
}

// Brings the folder's list, and what it names, to the disk, bytes and names, whoever has written it. A crash at any moment leaves
// what it might have left before.
pub(crate) fn settle<D: Disk>(alloc: Global, disk: &mut D, names: &[Bytes]) -> Result<(), DiskFault>
    requires listed { D.meaning.keeps_promises → names.now ≡ names_in (D.meaning.seen disk.old list_name) }
    ensures seen { D.meaning.seen disk.new ≡ D.meaning.seen disk.old }
    ensures whole { OnOk result (AreOnDisk (D.meaning.is_whole disk.new) names.now) }
    ensures kept { (n : Name) → D.meaning.is_whole disk.old n → D.meaning.is_whole disk.new n }
    ensures can { D.meaning.keeps_promises → OnOk result (CanRename (D.meaning.seen disk.new) (D.meaning.may_leave disk.new)) }
    ensures crash { Shrinks (D.meaning.may_leave disk.old) (D.meaning.may_leave disk.new) }
    ensures any_moment { LeavesOnly D.meaning disk.old disk.new (D.meaning.may_leave disk.old) }
    ensures cause { HasDiskCause D.meaning disk.old disk.new (IsErrOf result Failed) }
{
    disk.sync_file(b"~niqarthu.list")?;
    sync_files(alloc, disk, names)?;
    disk.sync_folder()?;
    Ok(())
}
