//! A group of lines is put to a log in two steps.

ghost use Rattle.std.specs.Prelude.{◌≡◌, ◌+◌, ◌++◌, ◌<◌, ◌^◌, List, ℕ, length, map, IfOk, OnOk, IsErrOf};
ghost use Rattle.files_in_place.specs.declared.faults.DiskFault.TheVariants.{Failed};
ghost use Rattle.files_in_place.specs.Folder.{SameBut};
ghost use Rattle.files_in_place.specs.Disk.{LeavesOnly, HasDiskCause};
ghost use Rattle.station_lines.specs.JournalLines.{line_parts, HaveSmallNumbers};
ghost use Rattle.live_log.specs.Gates.{LineParts, log_of, IsGroup};
ghost use Rattle.live_log.specs.Logs.{HasLog, IsBetweenGroups, IsLogPut};

use crate::gates::SHUT_GATE;
use crate::lines::append_line;
use catalogue_core::Entry;
use disk_in_place::{DiskInPlace, write_synced};
use files_in_place::DiskFault;
use station_lines::EntryLine;
use std::alloc::{AllocError, Global};

// The lines of entries, each with its sum after an open gate, and a shut gate.
pub(crate) fn group_bytes(alloc: Global, entries: &[Entry]) -> Result<Vec<u8>, AllocError>
    ensures bytes { IfOk result (λ bytes. bytes.items ≡ log_of (map line_parts entries.now)) }
    // A line was made of each entry, so its numbers are of 64 bits.
    ensures small { OnOk result (HaveSmallNumbers (map line_parts entries.now)) }
{
    let mut bytes = Vec::new(alloc);
    let mut line = EntryLine::new(alloc);
    for entry in entries {
        let text = line.of(entry.station, &entry.command, &entry.answer)?;
        append_line(&mut bytes, text)?;
    }
    bytes.push(SHUT_GATE)?;
    Ok(bytes)
}

// Puts the bytes of a group over the shut gate that a log ends in, and answers the offset of the gate that it ends in then.
pub(crate) fn put_group<D: DiskInPlace>(
    disk: &mut D,
    name: &[u8],
    offset: u64,
    bytes: &[u8],
) -> Result<u64, DiskFault>
    requires between { D.meaning.keeps_promises → IsBetweenGroups D.meaning name.now offset disk.old }
    requires group { (group : List LineParts) × IsGroup group bytes.now }
    requires room { offset + length bytes.now < 2 ^ 64 }
    ensures between { D.meaning.keeps_promises → IfOk result (λ next. IsBetweenGroups D.meaning name.now next disk.new) }
    ensures put { D.meaning.keeps_promises → OnOk result ((head : List ℕ) (es group : List LineParts) → HasLog name.now head es (D.meaning.seen disk.old) → IsGroup group bytes.now
        → HasLog name.now head (es ++ group) (D.meaning.seen disk.new)) }
    ensures others { SameBut name.now (D.meaning.seen disk.old) (D.meaning.seen disk.new) }
    // A crash at any moment leaves the log with the group or without it.
    ensures any_moment { D.meaning.keeps_promises → (head : List ℕ) (es group : List LineParts) → HasLog name.now head es (D.meaning.seen disk.old) → IsGroup group bytes.now
        → LeavesOnly D.meaning disk.old disk.new (IsLogPut name.now head (D.meaning.seen disk.old) es group) }
    ensures cause { HasDiskCause D.meaning disk.old disk.new (IsErrOf result Failed) }
{
    // The group's first gate is the shut one that is on the disk, until the rest is there too.
    let (first, rest) = bytes.split_at(1);
    write_synced(disk, name, offset + 1, rest)?;
    write_synced(disk, name, offset, first)?;
    Ok(offset + rest.len() as u64)
}
