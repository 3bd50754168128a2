//! That no disk which keeps its promises leaves more in a crash than a disk in memory.

ghost use Rattle.std.specs.Prelude.{◌≡◌, ◌∷◌, None, List, OnOk};
ghost use Rattle.files_in_place.specs.Folder.{Name};
ghost use Rattle.files_in_place.specs.Disk.{IsSyncedDisk};
ghost use Rattle.memory_disk.specs.declared.disk_call.DiskCall.{DiskCall as Call};
ghost use Rattle.memory_disk.specs.AnyDisk.{HasTwoNames, CanDo, IsWritten, IsWrittenLast, AreAllowed, LeavesNoMore};

use crate::disk_call::DiskCall;
use disk_in_place::DiskInPlace;
use files_in_place::{Disk, DiskFault};

// Does a call on a disk.
fn do_call<D: Disk>(disk: &mut D, call: &DiskCall) -> Result<(), DiskFault>
    requires two { HasTwoNames call.now }
    requires can { D.meaning.keeps_promises → CanDo call.now (D.meaning.seen disk.old) (D.meaning.is_new disk.old) (D.meaning.may_leave disk.old) }
    ensures no_more { D.meaning.keeps_promises → OnOk result ((before : List Call) → LeavesNoMore (D.meaning.seen disk.old) (D.meaning.is_whole disk.old) (D.meaning.may_leave disk.old) before
        → LeavesNoMore (D.meaning.seen disk.new) (D.meaning.is_whole disk.new) (D.meaning.may_leave disk.new) (call.now ∷ before)) }
    ensures written { OnOk result ((n : Name) → IsWritten call.now n → D.meaning.is_new disk.new n) }
{
    match call {
        DiskCall::Create(name) => disk.create(name.as_slice()),
        DiskCall::Append(name, bytes) => disk.append(name.as_slice(), bytes.as_slice()),
        DiskCall::SyncFile(name) => disk.sync_file(name.as_slice()),
        DiskCall::Rename(from, to) => disk.rename(from.as_slice(), to.as_slice()),
        DiskCall::Remove(name) => disk.remove(name.as_slice()),
        DiskCall::SyncFolder => disk.sync_folder(),
        // A disk whose files are written over does these (`do_call_in_place`).
        DiskCall::WriteAt(_, _, _) | DiskCall::SyncInPlace(_) => Err(DiskFault::Failed),
    }
}

// Does a call on a disk of which a file can be written over.
fn do_call_in_place<D: DiskInPlace>(disk: &mut D, call: &DiskCall) -> Result<(), DiskFault>
    requires two { HasTwoNames call.now }
    requires can { D.meaning.keeps_promises → CanDo call.now (D.meaning.seen disk.old) (D.meaning.is_new disk.old) (D.meaning.may_leave disk.old) }
    ensures no_more { D.meaning.keeps_promises → OnOk result ((before : List Call) → LeavesNoMore (D.meaning.seen disk.old) (D.meaning.is_whole disk.old) (D.meaning.may_leave disk.old) before
        → LeavesNoMore (D.meaning.seen disk.new) (D.meaning.is_whole disk.new) (D.meaning.may_leave disk.new) (call.now ∷ before)) }
    ensures written { OnOk result ((n : Name) → IsWritten call.now n → D.meaning.is_new disk.new n) }
{
    match call {
        DiskCall::WriteAt(name, offset, bytes) => disk.write_at(
            name.as_slice(),
            *offset,
            bytes.as_slice(),
        ),
        DiskCall::SyncInPlace(name) => disk.sync_in_place(name.as_slice()),
        _ => do_call(disk, call),
    }
}

/// Does the calls, of which the latest is the first, on a disk without files. At `Ok` the disk shows what a disk in memory shows
/// after the same calls, and no disk that keeps its promises leaves more in a crash than may be left there.
///
/// `NoMemory` where memory is refused, and `Failed` where the disk has failed, or a call writes over a file where it is, which such a disk
/// doesn't ([`do_calls_in_place`]). Of a call that fails nothing is said.
pub fn do_calls<D: Disk>(disk: &mut D, calls: &[DiskCall]) -> Result<(), DiskFault>
    requires empty { D.meaning.keeps_promises → (n : Name) → D.meaning.seen disk.old n ≡ None }
    requires synced { D.meaning.keeps_promises → IsSyncedDisk D.meaning disk.old }
    requires allowed { AreAllowed calls.now }
    ensures no_more { D.meaning.keeps_promises → OnOk result (LeavesNoMore (D.meaning.seen disk.new) (D.meaning.is_whole disk.new) (D.meaning.may_leave disk.new) calls.now) }
    ensures written { OnOk result ((n : Name) → IsWrittenLast calls.now n → D.meaning.is_new disk.new n) }
{
    let [last, before @ ..] = calls else {
        return Ok(());
    };
    do_calls(disk, before)?;
    do_call(disk, last)?;
    Ok(())
}

/// The same of a disk of which a file can be written over where it is: [`do_calls`], and the calls that write over a file too.
///
/// `NoMemory` where memory is refused, and `Failed` where the disk has failed. Of a call that fails nothing is said.
pub fn do_calls_in_place<D: DiskInPlace>(disk: &mut D, calls: &[DiskCall]) -> Result<(), DiskFault>
    requires empty { D.meaning.keeps_promises → (n : Name) → D.meaning.seen disk.old n ≡ None }
    requires synced { D.meaning.keeps_promises → IsSyncedDisk D.meaning disk.old }
    requires allowed { AreAllowed calls.now }
    ensures no_more { D.meaning.keeps_promises → OnOk result (LeavesNoMore (D.meaning.seen disk.new) (D.meaning.is_whole disk.new) (D.meaning.may_leave disk.new) calls.now) }
    ensures written { OnOk result ((n : Name) → IsWrittenLast calls.now n → D.meaning.is_new disk.new n) }
{
    let [last, before @ ..] = calls else {
        return Ok(());
    };
    do_calls_in_place(disk, before)?;
    do_call_in_place(disk, last)?;
    Ok(())
}
