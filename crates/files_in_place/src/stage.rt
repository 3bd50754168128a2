//! New files are written under temporary names.

ghost use Rattle.std.specs.Prelude.{◌≡◌, ◌≢◌, [], None, Some, OnOk, IsErrOf, map};
ghost use Rattle.files_in_place.specs.declared.faults.DiskFault.TheVariants.{Failed};
ghost use Rattle.files_in_place.specs.Folder.{Name, SameBut, temporary, list_name, list_bytes};
ghost use Rattle.files_in_place.specs.Disk.{Steps, HasDiskCause};
ghost use Rattle.files_in_place.specs.Staged.{IsFreeFor, AreStaged, AreReady, RunsUncommitted};

use crate::disk::Disk;
use crate::faults::DiskFault;
use byte_io::Bytes;

// Begins an empty file. It is on the disk no sooner than the list is written.
pub(crate) fn begin_file<D: Disk>(
    disk: &mut D,
    names: &[Bytes],
    current: &Option<Bytes>,
    lies: &[u8],
) -> Result<(), DiskFault>
    requires staged { D.meaning.keeps_promises → AreStaged D.meaning names.now current.now disk.old }
    requires free { D.meaning.keeps_promises → IsFreeFor names.now lies.now }
    ensures empty { D.meaning.keeps_promises → OnOk result (D.meaning.seen disk.new lies.now ≡ Some []) }
    ensures others { SameBut lies.now (D.meaning.seen disk.old) (D.meaning.seen disk.new) }
    ensures whole { (n : Name) → n ≢ lies.now → D.meaning.is_whole disk.old n → D.meaning.is_whole disk.new n }
    ensures new { OnOk result (D.meaning.is_new disk.new lies.now) }
    ensures run { D.meaning.keeps_promises → RunsUncommitted D.meaning disk.old disk.new }
    ensures cause { HasDiskCause D.meaning disk.old disk.new (IsErrOf result Failed) }
{
    disk.create(lies)?;
    Ok(())
}

// Writes a file under a name that has none. At `Ok` all its bytes are on the disk.
pub(crate) fn write_whole<D: Disk>(disk: &mut D, name: &[u8], bytes: &[u8]) -> Result<(), DiskFault>
    requires free { D.meaning.keeps_promises → D.meaning.seen disk.old name.now ≡ None }
    ensures done { D.meaning.keeps_promises → OnOk result (D.meaning.seen disk.new name.now ≡ Some bytes.now) }
    ensures durable { OnOk result (D.meaning.is_whole disk.new name.now) }
    ensures others { SameBut name.now (D.meaning.seen disk.old) (D.meaning.seen disk.new) }
    ensures whole { (n : Name) → n ≢ name.now → D.meaning.is_whole disk.old n → D.meaning.is_whole disk.new n }
    // A crash at any moment of the call leaves each other name as it might have left it before.
    ensures steps { Steps D.meaning (SameBut name.now) disk.old disk.new }
    ensures cause { HasDiskCause D.meaning disk.old disk.new (IsErrOf result Failed) }
{
    disk.create(name)?;
    disk.append(name, bytes)?;
    disk.sync_file(name)?;
    Ok(())
}

// Writes the list of the names under its temporary name, after all files of the set are on the disk. These have the temporary names.
pub(crate) fn write_list<D: Disk>(
    disk: &mut D,
    names: &[Bytes],
    current: &Option<Bytes>,
    temporaries: &[Bytes],
    list: &[u8],
) -> Result<(), DiskFault>
    requires staged { D.meaning.keeps_promises → AreStaged D.meaning names.now current.now disk.old }
    requires temporaries { temporaries.now ≡ map temporary names.now }
    requires list { list.now ≡ list_bytes names.now }
    ensures others { SameBut (temporary list_name) (D.meaning.seen disk.old) (D.meaning.seen disk.new) }
    ensures ready { D.meaning.keeps_promises → OnOk result (AreReady D.meaning names.now disk.new) }
    ensures run { D.meaning.keeps_promises → RunsUncommitted D.meaning disk.old disk.new }
    ensures cause { HasDiskCause D.meaning disk.old disk.new (IsErrOf result Failed) }
{
    disk.sync_files(temporaries)?;
    write_whole(disk, b"~niqarthu~~niqarthu.list", list)?;
    Ok(())
}
