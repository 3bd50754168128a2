//! A set of new files takes its place with one file more.

ghost use Rattle.std.specs.Prelude.{◌≡◌, true, false, OnOk, IfErr, IsErrOf};
ghost use Rattle.files_in_place.specs.declared.phase.Phase.TheVariants.{Staging};
ghost use Rattle.files_in_place.specs.declared.faults.SetFault.TheVariants.{Failed};
ghost use Rattle.files_in_place.specs.Disk.{LeavesOnly, IsSyncedDisk, HasDiskCause};
ghost use Rattle.files_in_place.specs.Recovery.{IsClean};
ghost use Rattle.files_in_place.specs.Faults.{IsOfDisk};
ghost use Rattle.files_in_place.specs.Staged.{is_file_name, is_staged};
ghost use Rattle.live_log.specs.Placing.{HasPlaced, IsOldOrPlacedWith};

use files_in_place::{Disk, FileSet, SetFault};

/// Puts the files of a set in place, all together, and with them a file of this name and these bytes. The name is one that a file
/// of a set may have, and none of the set.
///
/// So a log that is cut back to its whole groups takes the place of the one that was found, and at the end of a day an empty log
/// that of the day's, together with the new files. `NoMemory` where memory is refused, and `Failed` where the disk failed.
pub fn place_with<D: Disk + Drop>(
    set: &mut FileSet<D>,
    name: &[u8],
    bytes: &[u8],
) -> Result<(), SetFault>
    requires staging { set.old.phase ≡ Staging }
    requires name { is_file_name name.now ≡ true }
    requires other { is_staged set.old.names name.now ≡ false }
    ensures placed { D.meaning.keeps_promises
        → OnOk result (HasPlaced name.now bytes.now set.old.names (D.meaning.seen set.old.disk) (D.meaning.seen set.new.disk)) }
    ensures synced { D.meaning.keeps_promises → OnOk result (IsSyncedDisk D.meaning set.new.disk) }
    ensures clean { D.meaning.keeps_promises → OnOk result (IsClean (D.meaning.seen set.new.disk)) }
    ensures refused { IfErr result IsOfDisk }
    // A crash at any moment leaves a folder of which recovery makes the old files or the new ones, this one among them.
    ensures any_moment { D.meaning.keeps_promises
        → LeavesOnly D.meaning set.old.disk set.new.disk (IsOldOrPlacedWith name.now bytes.now set.old.names (D.meaning.seen set.old.disk)) }
    ensures cause { HasDiskCause D.meaning set.old.disk set.new.disk (IsErrOf result Failed) }
{
    set.begin(name)?;
    set.write(bytes)?;
    set.finish()?;
    Ok(())
}
