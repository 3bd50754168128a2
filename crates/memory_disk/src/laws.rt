//! What is proved of each disk that keeps its promises, at this one: it has no premise left. And how much a crash may take.

ghost use Rattle.std.specs.Prelude.{◌≡◌, ◌∷◌, ℕ, List, length, IsErr, OnOk};
ghost use Rattle.files_in_place.specs.Folder.{Name, Folder, recovered};
ghost use Rattle.files_in_place.specs.Disk.{AfterStep, LeavesOnly};
ghost use Rattle.files_in_place.specs.Recovery.{IsClean, StillRecovers};
ghost use Rattle.files_in_place.specs.Staged.{HasBadList};
ghost use Rattle.disk_in_place.specs.InPlace.{MayTear};
ghost use Rattle.memory_disk.specs.declared.disk_call.DiskCall.{DiskCall as Call};
ghost use Rattle.memory_disk.specs.declared.disk_call.DiskCall.TheVariants.{WriteAt};
ghost use Rattle.memory_disk.specs.Seen.{seen_after};
ghost use Rattle.memory_disk.specs.Outcomes.{MayLeave};
ghost use Rattle.memory_disk.specs.Laws.{memory_meaning};
ghost use Rattle.memory_disk.specs.Crashes.{KeepsWhole};

use crate::disk::MemoryDisk;
use files_in_place::{RecoveryFault, recover};
use std::alloc::Global;

/// [`recover`] of a folder in memory: brings it to its end, as a crash or a stopped program has left it.
///
/// `NoMemory` where memory is refused, `Failed` or `Unreplaced` where the disk has failed: it is to be called again. `BadList`
/// where the folder's list is none that a set has written: nothing is touched then.
pub fn recover_memory(alloc: Global, disk: &mut MemoryDisk) -> Result<(), RecoveryFault>
    ensures done { OnOk result ((n : Name) → seen_after disk.new.calls n ≡ recovered (seen_after disk.old.calls) n) }
    ensures clean { OnOk result (IsClean (seen_after disk.new.calls)) }
    // A crash at any moment leaves a folder of which recovery makes what it makes of one that might have been left before.
    ensures any_moment { LeavesOnly memory_meaning disk.old disk.new (AfterStep StillRecovers (MayLeave disk.old.calls)) }
    ensures refused { HasBadList (seen_after disk.old.calls) → IsErr result }
    ensures untouched { HasBadList (seen_after disk.old.calls) → seen_after disk.new.calls ≡ seen_after disk.old.calls }
{
    recover(alloc, disk)
}

/// A law: each folder in which the names whose bytes are on the disk, or written over where they are, have what is seen is one that a
/// crash may leave, whatever the other names have.
pub fn unsynced_files_may_hold_anything()
    ensures { (calls : List Call) (c : Folder) → KeepsWhole calls c → MayLeave calls c }
{}

/// A law: until a file that was written over is synced, a crash may leave any bytes in the range, and past the old end up to the range's.
pub fn files_written_over_may_be_torn()
    ensures { (before : List Call) (name : Name) (offset : ℕ) (bytes : List ℕ) (c : Folder) → MayTear name offset (length bytes) (seen_after before) c → MayLeave (WriteAt name offset bytes ∷ before) c }
{}
