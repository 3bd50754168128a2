//! What is said where new files don't take their places.

ghost use Rattle.std.specs.Prelude.{◌≡◌};
ghost use Rattle.program_frame.specs.PlaceFaults.{unplaced_files, unrecovered_folder};

use crate::folder::{FolderFault, PlaceFault};
use files_in_place::RecoveryFault;
use folders::FinishFault;

/// Why an earlier run's files were not brought to their end.
pub(crate) fn unrecovered(fault: RecoveryFault) -> PlaceFault
    ensures value { result ≡ unrecovered_folder fault }
{
    match fault {
        RecoveryFault::NoMemory => PlaceFault::NoMemory,
        RecoveryFault::Failed => PlaceFault::Folder(FolderFault::Unrecovered),
        RecoveryFault::BadList => PlaceFault::Folder(FolderFault::BadList),
        RecoveryFault::Unreplaced(name) => PlaceFault::Folder(FolderFault::Unreplaced(name)),
    }
}

/// Why new files are not in place, where putting them there failed for this.
pub(crate) fn unplaced(fault: FinishFault) -> PlaceFault
    ensures value { result ≡ unplaced_files fault }
{
    match fault {
        FinishFault::NoMemory => PlaceFault::NoMemory,
        FinishFault::Unwritten => PlaceFault::Folder(FolderFault::Unwritten),
        FinishFault::Unfinished => PlaceFault::Folder(FolderFault::Unfinished),
    }
}
