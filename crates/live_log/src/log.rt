//! A log that takes groups of entries.

ghost use Rattle.std.specs.Prelude.{◌≡◌, ◌≢◌, ◌+◌, ◌++◌, ◌<◌, ◌≤◌, ◌^◌, List, ℕ, length, map, true, false, Some, Err, IfOk, OnOk, OnErr, IsErrOf};
ghost use Rattle.files_in_place.specs.Folder.{SameBut};
ghost use Rattle.files_in_place.specs.Disk.{LeavesOnly, IsSyncedDisk, HasDiskCause};
ghost use Rattle.files_in_place.specs.Recovery.{IsClean};
ghost use Rattle.live_log.specs.declared.faults.LogFault.TheVariants as F;
ghost use Rattle.station_lines.specs.JournalLines.{line_parts};
ghost use Rattle.live_log.specs.Gates.{LineParts, log_of, IsWholeLog};
ghost use Rattle.live_log.specs.Logs.{HasLog, IsLogPut};

use crate::faults::LogFault;
use crate::group::{group_bytes, put_group};
use byte_io::Bytes;
use catalogue_core::Entry;
use disk_in_place::DiskInPlace;
use std::alloc::Global;
use std::marker::Model;

/// A log in a folder of a disk, which takes groups of entries until one fails.
///
/// Contracts see the disk, the log's name, its head, which stands before its first gate, and whether it takes groups. What the log stands
/// for is what the disk shows at its name behind the head.
#[derive(Drop)]
pub struct Log<D: DiskInPlace + Drop> {
    alloc: Global,
    disk: D,
    name: Bytes,
    // What stands before the first gate.
    head: Bytes,
    // The offset of the shut gate that the log ends in.
    offset: u64,
    takes: bool,
}

impl<D: DiskInPlace + Drop> Model for Log<D> {
    ghost use Rattle.std.specs.Prelude.{◌≡◌, ◌<◌, ◌^◌, length, true};
    ghost use Rattle.live_log.specs.Logs.{LogValue as What, IsBetweenGroups};

    ghost Value = { What D };

    ghost view = { λ l. record { disk = l.disk; name = l.name; head = l.head; takes = l.takes } };

    ghost invariant = { λ l. (length l.head < 2 ^ 63) × (D.meaning.keeps_promises → l.takes ≡ true → IsBetweenGroups D.meaning l.name l.offset l.disk) };
}

impl<D: DiskInPlace + Drop> Log<D> {
    /// The log of these bytes, which the name's file has on the disk: the head, and behind it the lines and a shut gate.
    pub fn new(alloc: Global, disk: D, name: Bytes, head: Bytes, log: &[u8]) -> Log<D>
        requires whole { (body : List ℕ) × (log.now ≡ head ++ body) × IsWholeLog body }
        requires there { D.meaning.keeps_promises → D.meaning.seen disk name ≡ Some log.now }
        requires synced { D.meaning.keeps_promises → IsSyncedDisk D.meaning disk }
        requires clean { D.meaning.keeps_promises → IsClean (D.meaning.seen disk) }
        requires short { length head < 2 ^ 63 }
        ensures disk { result.disk ≡ disk }
        ensures name { result.name ≡ name }
        ensures head { result.head ≡ head }
        ensures takes { result.takes ≡ true }
    {
        Log {
            alloc,
            disk,
            name,
            head,
            offset: log.len() as u64 - 1,
            takes: true,
        }
    }

    /// Puts a group of entries of the journal to the log, one at least. At `Ok` they are on the disk, all of them.
    ///
    /// `Closed` where an earlier group failed; `TooLong` where the log would have 2^64 bytes or more; `NoMemory` where memory is
    /// refused; `Failed` where the disk failed. Where that was before anything was written, the log takes groups still.
    pub fn put(&mut self, entries: &[Entry]) -> Result<(), LogFault>
        requires some { 0 < length entries.now }
        ensures put { D.meaning.keeps_promises → OnOk result ((before : List LineParts)
            → HasLog self.old.name self.old.head before (D.meaning.seen self.old.disk)
            → HasLog self.old.name self.old.head (before ++ map line_parts entries.now) (D.meaning.seen self.new.disk)) }
        ensures takes { OnOk result (self.new.takes ≡ true) }
        ensures name { self.new.name ≡ self.old.name }
        ensures head { self.new.head ≡ self.old.head }
        ensures others { SameBut self.old.name (D.meaning.seen self.old.disk) (D.meaning.seen self.new.disk) }
        ensures closed { self.old.takes ≡ false → (result ≡ Err F.Closed) × (self.new ≡ self.old) }
        ensures open { self.old.takes ≡ true → result ≢ Err F.Closed }
        ensures too_long { D.meaning.keeps_promises → result ≡ Err F.TooLong → (before : List LineParts)
            → HasLog self.old.name self.old.head before (D.meaning.seen self.old.disk)
            → 2 ^ 64 ≤ length self.old.head + length (log_of (before ++ map line_parts entries.now)) }
        // The head stood in memory, so it is less than half of that.
        ensures short { length self.old.head < 2 ^ 63 }
        ensures unchanged { OnErr result (self.new.takes ≡ true → self.new ≡ self.old) }
        // A crash at any moment leaves the log with the group or without it.
        ensures any_moment { D.meaning.keeps_promises → self.old.takes ≡ true → (before : List LineParts)
            → HasLog self.old.name self.old.head before (D.meaning.seen self.old.disk)
            → LeavesOnly D.meaning self.old.disk self.new.disk (IsLogPut self.old.name self.old.head (D.meaning.seen self.old.disk) before (map line_parts entries.now)) }
        ensures cause { HasDiskCause D.meaning self.old.disk self.new.disk (IsErrOf result F.Failed) }
    {
        if !self.takes {
            return Err(LogFault::Closed);
        }
        let bytes = group_bytes(self.alloc, entries)?;
        let group = bytes.as_slice();
        if group.len() as u64 > u64::MAX - self.offset {
            return Err(LogFault::TooLong);
        }
        self.takes = false;
        self.offset = put_group(&mut self.disk, self.name.as_slice(), self.offset, group)?;
        self.takes = true;
        Ok(())
    }

    /// The log's name.
    pub fn name(&self) -> &[u8]
        ensures value { result.now ≡ self.now.name }
        // Where the log takes groups, all that is seen is on the disk.
        ensures synced { D.meaning.keeps_promises → self.now.takes ≡ true → IsSyncedDisk D.meaning self.now.disk }
    {
        self.name.as_slice()
    }

    /// The disk.
    pub fn into_disk(self) -> D
        ensures disk { result ≡ self.disk }
        // Where no group has failed, all that is seen is on the disk, and there is no reserved name.
        ensures synced { D.meaning.keeps_promises → self.takes ≡ true → IsSyncedDisk D.meaning result }
        ensures clean { D.meaning.keeps_promises → self.takes ≡ true → IsClean (D.meaning.seen result) }
    {
        self.disk
    }
}
