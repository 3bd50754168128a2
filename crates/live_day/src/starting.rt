//! A day starts on the log that an earlier life has left.

ghost use Rattle.std.specs.Prelude.{◌≡◌, ◌≢◌, ◌<◌, ◌^◌, ◌++◌, length, [], true, false, IfOk, IfErr};
ghost use Rattle.files_in_place.specs.declared.phase.Phase.TheVariants.{Staging};
ghost use Rattle.files_in_place.specs.Folder.{Name, is_reserved};
ghost use Rattle.files_in_place.specs.Disk.{LeavesOnly};
ghost use Rattle.files_in_place.specs.Faults.{IsOfDisk};
ghost use Rattle.files_in_place.specs.Recovery.{IsClean};
ghost use Rattle.files_in_place.specs.Staged.{is_file_name};
ghost use Rattle.station_lines.specs.JournalLines.{HaveSmallNumbers};
ghost use Rattle.live_log.specs.Gates.{log_of};
ghost use Rattle.live_log.specs.Placing.{IsOldOrPlacedWith};
ghost use Rattle.live_day.specs.Days.{parts_of};

use crate::day::Day;
use byte_io::Bytes;
use catalogue_core::Catalogue;
use disk_in_place::DiskInPlace;
use files_in_place::{FileSet, SetFault};
use live_log::{Log, place_with};
use std::alloc::Global;

/// Why a day did not start, and the disk.
#[derive(Drop)]
pub struct Unstarted<D: DiskInPlace + Drop> {
    /// Want of memory, or a failure of the disk.
    pub fault: SetFault,
    /// The disk.
    pub disk: D,
}

/// Starts a day on a folder, with tables on which the log was performed once more, and this log of it, which stands behind this head: it
/// takes the place of the one that was found, without what was left of a group. The set is new, and the name one that a file may have.
pub fn start_day<D: DiskInPlace + Drop>(
    alloc: Global,
    catalogue: Catalogue,
    mut set: FileSet<D>,
    name: Bytes,
    head: Bytes,
    log: &[u8],
) -> Result<Day<D>, Unstarted<D>>
    requires staging { set.phase ≡ Staging }
    requires empty { set.names ≡ [] }
    requires name { is_file_name name ≡ true }
    requires log { log.now ≡ head ++ log_of (parts_of catalogue.journal) }
    requires small { HaveSmallNumbers (parts_of catalogue.journal) }
    requires short { length head < 2 ^ 63 }
    ensures history { IfOk result (λ day. day.history ≡ catalogue) }
    ensures name { IfOk result (λ day. day.log.name ≡ name) }
    ensures head { IfOk result (λ day. day.log.head ≡ head) }
    ensures takes { IfOk result (λ day. day.takes ≡ true) }
    ensures clean { D.meaning.keeps_promises → IfOk result (λ day. IsClean (D.meaning.seen day.log.disk)) }
    ensures others { D.meaning.keeps_promises → IfOk result (λ day. (n : Name) → is_reserved n ≡ false → n ≢ name
        → D.meaning.seen day.log.disk n ≡ D.meaning.seen set.disk n) }
    // A crash at any moment leaves a folder of which recovery makes the one that was found, or the same with this log.
    ensures any_moment { D.meaning.keeps_promises → IfOk result (λ day.
        LeavesOnly D.meaning set.disk day.log.disk (IsOldOrPlacedWith name log.now [] (D.meaning.seen set.disk))) }
    ensures moment_of_fault { D.meaning.keeps_promises → IfErr result (λ unstarted.
        LeavesOnly D.meaning set.disk unstarted.disk (IsOldOrPlacedWith name log.now [] (D.meaning.seen set.disk))) }
    ensures fault { IfErr result (λ unstarted. IsOfDisk unstarted.fault) }
{
    if let Err(fault) = place_with(&mut set, name.as_slice(), log) {
        return Err(Unstarted {
            fault,
            disk: set.into_disk(),
        });
    }
    let log = Log::new(alloc, set.into_disk(), name, head, log);
    Ok(Day::new(alloc, catalogue, log))
}
