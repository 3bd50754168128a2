//! Bytes of a file are written over and brought to the disk.

ghost use Rattle.std.specs.Prelude.{◌≡◌, length, option_map, OnOk, IsErrOf};
ghost use Rattle.files_in_place.specs.declared.faults.DiskFault.TheVariants.{Failed};
ghost use Rattle.files_in_place.specs.Folder.{SameBut};
ghost use Rattle.files_in_place.specs.Disk.{LeavesOnly, IsSyncedDisk, HasDiskCause};
ghost use Rattle.disk_in_place.specs.InPlace.{HasBytes, written_over, MayTear};

use crate::disk::DiskInPlace;
use files_in_place::DiskFault;

/// Writes over the bytes of the name's file from an offset on, and brings them to the disk, where all that is seen is on it: at `Ok` it
/// is so again. The file has so many bytes before.
///
/// After a fault the file may be torn, and nothing is believed of it.
pub fn write_synced<D: DiskInPlace>(
    disk: &mut D,
    name: &[u8],
    offset: u64,
    bytes: &[u8],
) -> Result<(), DiskFault>
    requires there { D.meaning.keeps_promises → HasBytes offset (D.meaning.seen disk.old name.now) }
    requires synced { D.meaning.keeps_promises → IsSyncedDisk D.meaning disk.old }
    ensures done { D.meaning.keeps_promises → OnOk result (D.meaning.seen disk.new name.now
        ≡ option_map (λ content. written_over offset bytes.now content) (D.meaning.seen disk.old name.now)) }
    ensures others { SameBut name.now (D.meaning.seen disk.old) (D.meaning.seen disk.new) }
    ensures synced { D.meaning.keeps_promises → OnOk result (IsSyncedDisk D.meaning disk.new) }
    // A crash at any moment leaves the file, torn in that range at most, and each other file as it was.
    ensures any_moment { D.meaning.keeps_promises
        → LeavesOnly D.meaning disk.old disk.new (MayTear name.now offset (length bytes.now) (D.meaning.seen disk.old)) }
    ensures cause { HasDiskCause D.meaning disk.old disk.new (IsErrOf result Failed) }
{
    disk.write_at(name, offset, bytes)?;
    disk.sync_in_place(name)?;
    Ok(())
}
