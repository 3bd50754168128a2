//! A log that an earlier run has left.

ghost use Rattle.std.specs.Prelude.{◌≡◌, IfOk, IsErrOf};
ghost use Rattle.files_in_place.specs.declared.faults.DiskFault.TheVariants.{Failed};
ghost use Rattle.files_in_place.specs.Disk.{HasDiskCause, OnlyReads};
ghost use Rattle.live_log.specs.Gates.{or_empty_log};

use crate::gates::empty_log;
use byte_io::Bytes;
use files_in_place::{Disk, DiskFault};
use std::alloc::Global;

/// The bytes of the name's file; where there is none, those of the log without entries.
///
/// What an earlier run has written may be read without being on the disk. So nothing may be said of it before a new file with these
/// bytes is on the disk in its place.
pub fn find_log<D: Disk>(alloc: Global, disk: &mut D, name: &[u8]) -> Result<Bytes, DiskFault>
    ensures bytes { D.meaning.keeps_promises → IfOk result (λ log. log ≡ or_empty_log (D.meaning.seen disk.old name.now)) }
    ensures only { OnlyReads D.meaning disk.old disk.new }
    ensures cause { HasDiskCause D.meaning disk.old disk.new (IsErrOf result Failed) }
{
    match disk.read(alloc, name)? {
        Some(log) => Ok(log),
        None => Ok(empty_log(alloc)?),
    }
}
