//! The list of the names of new files.

ghost use Rattle.std.specs.Prelude.{◌≡◌, ◌⊎◌, Err, IfOk, IfErr, IsErr};
ghost use Rattle.files_in_place.specs.declared.faults.RecoveryFault.TheVariants.{BadList, NoMemory, Unreplaced};
ghost use Rattle.files_in_place.specs.Folder.{Name, list_name, names_of, names_in};
ghost use Rattle.files_in_place.specs.Disk.{OnlyReads, HasDiskCause};
ghost use Rattle.files_in_place.specs.Recovery.{NoneReserved};
ghost use Rattle.files_in_place.specs.Faults.{IsDiskFailure};
ghost use Rattle.files_in_place.specs.Staged.{IsList, HasBadList};

use crate::disk::Disk;
use crate::faults::RecoveryFault;
use crate::names::{are_file_names, list_bytes, names_of};
use byte_io::Bytes;
use std::alloc::Global;

// The names in a list. `BadList` where it is none that a set may have written.
fn names_of_list(alloc: Global, list: &[u8]) -> Result<Vec<Bytes>, RecoveryFault>
    ensures names { IfOk result (λ names. names.items ≡ names_of list.now) }
    ensures free { IfOk result (λ names. NoneReserved names.items) }
    ensures bad_list { (result ≡ Err BadList) → ¬ (IsList list.now) }
    ensures refused { ¬ (IsList list.now) → IsErr result }
    ensures fault { IfErr result (λ fault. (fault ≡ BadList) ⊎ (fault ≡ NoMemory)) }
{
    let names = names_of(alloc, list)?;
    // A set would write these names so, with their count at the end.
    let written = list_bytes(alloc, &names)?;
    if written.as_slice() != list || !are_file_names(&names) {
        return Err(RecoveryFault::BadList);
    }
    Ok(names)
}

// The names in the folder's list, none where there is no list.
pub(crate) fn listed_names<D: Disk>(
    alloc: Global,
    disk: &mut D,
) -> Result<Vec<Bytes>, RecoveryFault>
    ensures names { D.meaning.keeps_promises → IfOk result (λ names. names.items ≡ names_in (D.meaning.seen disk.old list_name)) }
    ensures free { IfOk result (λ names. NoneReserved names.items) }
    ensures bad_list { D.meaning.keeps_promises → (result ≡ Err BadList) → HasBadList (D.meaning.seen disk.old) }
    ensures refused { D.meaning.keeps_promises → HasBadList (D.meaning.seen disk.old) → IsErr result }
    ensures no_name { (name : Name) → (result ≡ Err (Unreplaced name)) → ⊥ }
    ensures only { OnlyReads D.meaning disk.old disk.new }
    ensures cause { HasDiskCause D.meaning disk.old disk.new (IsDiskFailure result) }
{
    match disk.read(alloc, b"~niqarthu.list")? {
        Some(list) => names_of_list(alloc, list.as_slice()),
        None => Ok(Vec::new(alloc)),
    }
}
