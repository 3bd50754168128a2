//! A disk of which a file can be written over where it is.

ghost use Rattle.std.specs.Prelude.{◌≡◌, length, option_map, IsSome, OnOk, IsErrOf};
ghost use Rattle.files_in_place.specs.declared.faults.DiskFault.TheVariants.{Failed};
ghost use Rattle.files_in_place.specs.Folder.{Folder};
ghost use Rattle.files_in_place.specs.Disk.{IsDurable, OnlyReads, HasDiskCause};
ghost use Rattle.disk_in_place.specs.InPlace.{HasBytes, written_over, WritesOver};

use files_in_place::{Disk, DiskFault};

/// A folder of a disk of which a file can be written over where it is, without another name.
///
/// What is believed of such a disk stands at its two calls, beside what a [`Disk`] promises. The clauses that speak of values stand
/// under `keeps_promises`, as there.
pub trait DiskInPlace: Disk {
    /// Writes all of the bytes over those of the name's file from an offset on, and past its end (`pwrite`). The file has so many
    /// bytes before.
    ///
    /// Until the file is synced, a crash may leave any bytes in the range, and past the old end up to the range's. Outside of the
    /// range it changes no byte, nor another file: disks write a sector whole or not at all, and a file system with a journal
    /// writes no block of a file that wasn't written to.
    fn write_at(&mut self, name: &[u8], offset: u64, bytes: &[u8]) -> Result<(), DiskFault>
        requires there { Self.meaning.keeps_promises → HasBytes offset (Self.meaning.seen self.old name.now) }
        ensures done { Self.meaning.keeps_promises → OnOk result (Self.meaning.seen self.new name.now
            ≡ option_map (λ content. written_over offset bytes.now content) (Self.meaning.seen self.old name.now)) }
        ensures writes { WritesOver Self.meaning name.now offset (length bytes.now) self.old self.new }
        ensures cause { HasDiskCause Self.meaning self.old self.new (IsErrOf result Failed) };

    /// At `Ok`, the bytes of the file are on the disk under its name, which was on the disk before (`fdatasync`).
    fn sync_in_place(&mut self, name: &[u8]) -> Result<(), DiskFault>
        requires named { Self.meaning.keeps_promises → (c : Folder) → Self.meaning.may_leave self.old c → IsSome (c name.now) }
        ensures durable { Self.meaning.keeps_promises → OnOk result (IsDurable name.now (Self.meaning.seen self.new) (Self.meaning.may_leave self.new)) }
        ensures whole { OnOk result (Self.meaning.is_whole self.new name.now) }
        ensures only { OnlyReads Self.meaning self.old self.new }
        ensures cause { HasDiskCause Self.meaning self.old self.new (IsErrOf result Failed) };
}
