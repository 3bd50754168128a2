//! Whether a day is open.

ghost use Rattle.std.specs.Prelude.{◌≡◌, IfOk, IsErrOf};
ghost use Rattle.files_in_place.specs.declared.faults.DiskFault.TheVariants.{Failed};
ghost use Rattle.files_in_place.specs.Disk.{HasDiskCause, OnlyReads};
ghost use Rattle.open_day.specs.OpenDay.{has_open_day, is_open_log};

use files_in_place::{Disk, DiskFault};
use live_log::SHUT_GATE;
use std::alloc::Global;

/// The name of the file of a live day's log, in the folder for its files.
pub const LOG_NAME: &[u8] = b"STATIONS.LOG";

/// Whether this is the log of a day that is open: that of a closed one begins with the shut gate, and nothing counts after that.
pub fn is_open(log: &[u8]) -> bool
    ensures value { result ≡ is_open_log log.now }
{
    !matches!(log, [SHUT_GATE, ..])
}

/// Whether a day is open in the folder of a disk. An error where the disk fails or memory is refused.
pub fn is_day_open<D: Disk>(alloc: Global, disk: &mut D) -> Result<bool, DiskFault>
    ensures found { D.meaning.keeps_promises → IfOk result (λ found. found ≡ has_open_day (D.meaning.seen disk.old)) }
    ensures only { OnlyReads D.meaning disk.old disk.new }
    ensures cause { HasDiskCause D.meaning disk.old disk.new (IsErrOf result Failed) }
{
    match disk.read(alloc, LOG_NAME)? {
        Some(log) => Ok(is_open(log.as_slice())),
        None => Ok(false),
    }
}
