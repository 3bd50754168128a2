//! What a crash or a stopped program left is brought to its end.

ghost use Rattle.std.specs.Prelude.{◌≡◌, ◌<◌, true, false, None, Err, length, Contains, OnOk, IfErr, IfSome, IsErr, IsErrAnd, IsErrOf};
ghost use Rattle.files_in_place.specs.declared.faults.DiskFault.TheVariants.{Failed};
ghost use Rattle.files_in_place.specs.declared.faults.RecoveryFault.TheVariants as R;
ghost use Rattle.files_in_place.specs.Folder.{Name, is_reserved, temporary, list_name, names_in, is_listed, recovered};
ghost use Rattle.files_in_place.specs.Disk.{AfterStep, LeavesOnly, Steps, IsSyncedDisk, HasDiskCause};
ghost use Rattle.files_in_place.specs.Faults.{IsDiskFailure};
ghost use Rattle.files_in_place.specs.Recovery.{NoneReserved, AreListed, AreOnDisk, AreRenamed, CanClean, CanRename, KeepsRecovery, IsClean, OthersAreWhole, StillRecovers};
ghost use Rattle.files_in_place.specs.Staged.{HasBadList, HasCutList};

use crate::clean::clean;
use crate::disk::Disk;
use crate::faults::{DiskFault, RecoveryFault};
use crate::listed::listed_names;
use crate::names::temporary_name;
use crate::settle::settle;
use byte_io::Bytes;
use std::alloc::Global;

// Why the files of a list did not all get their names, and at which of them that was, by its place from 0, where it was at one.
#[derive(Clone, Copy, Debug)]
pub(crate) struct Stuck {
    pub(crate) place: Option<usize>,
    pub(crate) fault: DiskFault,
}

impl From<DiskFault> for Stuck {
    ghost use Rattle.std.specs.Prelude.{◌≡◌, None};

    ghost from_gives = { λ fault stuck. (stuck.fault ≡ fault) × (stuck.place ≡ None) };

    fn from(fault: DiskFault) -> Self {
        Stuck { place: None, fault }
    }
}

// Gives the file of a temporary name its name, if there is one.
fn finish_one<D: Disk>(alloc: Global, disk: &mut D, name: &[u8]) -> Result<(), DiskFault>
    requires can { D.meaning.keeps_promises → CanRename (D.meaning.seen disk.old) (D.meaning.may_leave disk.old) }
    requires listed { D.meaning.keeps_promises → is_listed (D.meaning.seen disk.old) name.now ≡ true }
    requires free { D.meaning.keeps_promises → is_reserved name.now ≡ false }
    requires on_disk { D.meaning.keeps_promises → D.meaning.is_whole disk.old (temporary name.now) }
    ensures done { D.meaning.keeps_promises → OnOk result (D.meaning.seen disk.new (temporary name.now) ≡ None) }
    ensures gone { D.meaning.keeps_promises → OnOk result ((n : Name) → D.meaning.seen disk.old (temporary n) ≡ None → D.meaning.seen disk.new (temporary n) ≡ None) }
    ensures keeps { D.meaning.keeps_promises → OnOk result (KeepsRecovery (D.meaning.seen disk.old) (D.meaning.seen disk.new)) }
    ensures can { D.meaning.keeps_promises → OnOk result (CanRename (D.meaning.seen disk.new) (D.meaning.may_leave disk.new)) }
    ensures whole { D.meaning.keeps_promises → OnOk result ((n : Name) → D.meaning.is_whole disk.old n → D.meaning.is_whole disk.new n) }
    ensures steps { D.meaning.keeps_promises → Steps D.meaning KeepsRecovery disk.old disk.new }
    ensures cause { HasDiskCause D.meaning disk.old disk.new (IsErrOf result Failed) }
{
    let lies = temporary_name(alloc, name)?;
    if !disk.has(lies.as_slice())? {
        return Ok(());
    }
    disk.rename(lies.as_slice(), name)?;
    Ok(())
}

// Gives each file of the temporary name of one of the names its name. An error tells the place of the one that didn't get it.
fn finish<D: Disk>(alloc: Global, disk: &mut D, names: &[Bytes]) -> Result<(), Stuck>
    requires can { D.meaning.keeps_promises → CanRename (D.meaning.seen disk.old) (D.meaning.may_leave disk.old) }
    requires listed { D.meaning.keeps_promises → AreListed names.now (D.meaning.seen disk.old) }
    requires free { D.meaning.keeps_promises → NoneReserved names.now }
    requires on_disk { D.meaning.keeps_promises → AreOnDisk (D.meaning.is_whole disk.old) names.now }
    ensures done { D.meaning.keeps_promises → OnOk result (AreRenamed names.now (D.meaning.seen disk.new)) }
    ensures keeps { D.meaning.keeps_promises → OnOk result (KeepsRecovery (D.meaning.seen disk.old) (D.meaning.seen disk.new)) }
    ensures can { D.meaning.keeps_promises → OnOk result (CanRename (D.meaning.seen disk.new) (D.meaning.may_leave disk.new)) }
    ensures whole { D.meaning.keeps_promises → OnOk result ((n : Name) → D.meaning.is_whole disk.old n → D.meaning.is_whole disk.new n) }
    ensures inside { IfErr result (λ stuck. IfSome stuck.place (λ place. place < length names.now)) }
    ensures steps { D.meaning.keeps_promises → Steps D.meaning KeepsRecovery disk.old disk.new }
    ensures cause { HasDiskCause D.meaning disk.old disk.new (IsErrAnd result (λ stuck. stuck.fault ≡ Failed)) }
{
    let mut place = 0;
    for name in names {
        if let Err(fault) = finish_one(alloc, disk, name.as_slice()) {
            return Err(Stuck {
                place: Some(place),
                fault,
            });
        }
        place += 1;
    }
    Ok(())
}

// Gives each file that the list has its name, if it hasn't got it. The list stays.
fn finish_listed<D: Disk>(alloc: Global, disk: &mut D, names: &[Bytes]) -> Result<(), Stuck>
    requires can { D.meaning.keeps_promises → CanRename (D.meaning.seen disk.old) (D.meaning.may_leave disk.old) }
    requires listed { D.meaning.keeps_promises → names.now ≡ names_in (D.meaning.seen disk.old list_name) }
    requires free { D.meaning.keeps_promises → NoneReserved names.now }
    requires on_disk { D.meaning.keeps_promises → AreOnDisk (D.meaning.is_whole disk.old) names.now }
    ensures can { D.meaning.keeps_promises → OnOk result (CanClean (D.meaning.seen disk.new) (D.meaning.may_leave disk.new)) }
    ensures same { D.meaning.keeps_promises → OnOk result (StillRecovers (D.meaning.seen disk.old) (D.meaning.seen disk.new)) }
    ensures whole { D.meaning.keeps_promises → OnOk result ((n : Name) → D.meaning.is_whole disk.old n → D.meaning.is_whole disk.new n) }
    ensures inside { IfErr result (λ stuck. IfSome stuck.place (λ place. place < length names.now)) }
    ensures steps { D.meaning.keeps_promises → Steps D.meaning StillRecovers disk.old disk.new }
    ensures cause { HasDiskCause D.meaning disk.old disk.new (IsErrAnd result (λ stuck. stuck.fault ≡ Failed)) }
{
    finish(alloc, disk, names)?;
    disk.sync_folder()?;
    Ok(())
}

// Recovers a folder whose list has these names, where all that they name is on the disk.
pub(crate) fn recover_listed<D: Disk>(
    alloc: Global,
    disk: &mut D,
    names: &[Bytes],
) -> Result<(), Stuck>
    requires can { D.meaning.keeps_promises → CanRename (D.meaning.seen disk.old) (D.meaning.may_leave disk.old) }
    requires listed { D.meaning.keeps_promises → names.now ≡ names_in (D.meaning.seen disk.old list_name) }
    requires free { D.meaning.keeps_promises → NoneReserved names.now }
    requires on_disk { D.meaning.keeps_promises → AreOnDisk (D.meaning.is_whole disk.old) names.now }
    ensures done { D.meaning.keeps_promises → OnOk result ((n : Name) → D.meaning.seen disk.new n ≡ recovered (D.meaning.seen disk.old) n) }
    ensures synced { D.meaning.keeps_promises → ((n : Name) → is_reserved n ≡ false → D.meaning.is_whole disk.old n)
        → OnOk result (IsSyncedDisk D.meaning disk.new) }
    ensures inside { IfErr result (λ stuck. IfSome stuck.place (λ place. place < length names.now)) }
    ensures steps { D.meaning.keeps_promises → Steps D.meaning StillRecovers disk.old disk.new }
    ensures cause { HasDiskCause D.meaning disk.old disk.new (IsErrAnd result (λ stuck. stuck.fault ≡ Failed)) }
{
    finish_listed(alloc, disk, names)?;
    clean(alloc, disk)?;
    Ok(())
}

// Says of which file of a list a failure of the disk was.
fn told(mut names: Vec<Bytes>, stuck: Stuck) -> RecoveryFault
    requires inside { IfSome stuck.place (λ place. place < length names.items) }
    ensures failed { (result ≡ R.Failed) → stuck.fault ≡ Failed }
    ensures unreplaced { (name : Name) → (result ≡ R.Unreplaced name) → (stuck.fault ≡ Failed) × Contains names.items name }
    ensures not_list { (result ≡ R.BadList) → ⊥ }
{
    match (stuck.fault, stuck.place) {
        (DiskFault::NoMemory, _) => RecoveryFault::NoMemory,
        (DiskFault::Failed, None) => RecoveryFault::Failed,
        (DiskFault::Failed, Some(place)) => RecoveryFault::Unreplaced(names.swap_remove(place)),
    }
}

/// Brings a folder to its end, as a crash of the machine or a stopped program has left it: all the old files, or all the
/// new ones. No reserved name stays. It may crash or be stopped too, at any moment. To be called before anything is read.
///
/// What the folder's list names is brought to the disk first, so nothing is asked of it. Of the other files none is opened.
///
/// `BadList` where the folder's list is none that a set has written, or was cut: then nothing is touched. `Unreplaced` tells the name of a
/// new file that can't take its place, `Failed` that the disk failed elsewhere, `NoMemory` that memory was refused.
pub fn recover<D: Disk>(alloc: Global, disk: &mut D) -> Result<(), RecoveryFault>
    ensures done { D.meaning.keeps_promises → OnOk result ((n : Name) → D.meaning.seen disk.new n ≡ recovered (D.meaning.seen disk.old) n) }
    ensures clean { D.meaning.keeps_promises → OnOk result (IsClean (D.meaning.seen disk.new)) }
    // Nothing is left to be brought to the disk, where the files that recovery leaves alone were on it.
    ensures synced { D.meaning.keeps_promises → OthersAreWhole (D.meaning.seen disk.old) (D.meaning.is_whole disk.old)
        → OnOk result (IsSyncedDisk D.meaning disk.new) }
    // A crash at any moment leaves a folder of which recovery makes what it makes of one that might have been left before,
    // and no other file touched than those of reserved names and of names in that one's list.
    ensures any_moment { D.meaning.keeps_promises → LeavesOnly D.meaning disk.old disk.new (AfterStep StillRecovers (D.meaning.may_leave disk.old)) }
    // A list that is none of a set's is told, or another fault, and the folder is left as it is.
    ensures bad_list { D.meaning.keeps_promises → (result ≡ Err R.BadList) → HasBadList (D.meaning.seen disk.old) }
    ensures refused { D.meaning.keeps_promises → HasBadList (D.meaning.seen disk.old) → IsErr result }
    ensures untouched { D.meaning.keeps_promises → HasBadList (D.meaning.seen disk.old) → D.meaning.seen disk.new ≡ D.meaning.seen disk.old }
    // So is one of which bytes at its end are gone, also where it ends behind a name's line.
    ensures cut { D.meaning.keeps_promises → HasCutList (D.meaning.seen disk.old) → IsErr result }
    ensures cut_untouched { D.meaning.keeps_promises → HasCutList (D.meaning.seen disk.old) → D.meaning.seen disk.new ≡ D.meaning.seen disk.old }
    ensures unreplaced { D.meaning.keeps_promises → (name : Name) → (result ≡ Err (R.Unreplaced name)) → is_listed (D.meaning.seen disk.old) name ≡ true }
    ensures cause { HasDiskCause D.meaning disk.old disk.new (IsDiskFailure result) }
{
    let names = listed_names(alloc, disk)?;
    settle(alloc, disk, &names)?;
    match recover_listed(alloc, disk, &names) {
        Ok(()) => Ok(()),
        Err(stuck) => Err(told(names, stuck)),
    }
}
