//! The mark that a day leaves in a folder from which it reads, where its log lies elsewhere.

ghost use Rattle.std.specs.Prelude.{◌≡◌, IfOk, IsErrOf};
ghost use Rattle.files_in_place.specs.declared.faults.DiskFault.TheVariants.{Failed};
ghost use Rattle.files_in_place.specs.Disk.{HasDiskCause, OnlyReads};
ghost use Rattle.open_day.specs.OpenDay.{mark_name};

use byte_io::Bytes;
use files_in_place::{Disk, DiskFault};
use std::alloc::Global;

/// The name of the mark. Its bytes are the whole path of the day's log, and nothing else.
pub const MARK_NAME: &[u8] = b"STATIONS.DAY";

/// The path of the log that the mark in the folder of a disk names. `None` where there is no mark. An error where the disk fails or memory
/// is refused.
pub fn marked_log<D: Disk>(alloc: Global, disk: &mut D) -> Result<Option<Bytes>, DiskFault>
    ensures found { D.meaning.keeps_promises → IfOk result (λ log. log ≡ D.meaning.seen disk.old mark_name) }
    ensures only { OnlyReads D.meaning disk.old disk.new }
    ensures cause { HasDiskCause D.meaning disk.old disk.new (IsErrOf result Failed) }
{
    disk.read(alloc, MARK_NAME)
}
