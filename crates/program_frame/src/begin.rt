//! The folder of a disk before a program writes into it: recovered, and without an open day, there and where the program reads.

ghost use Rattle.std.specs.Prelude.{◌≡◌, ◌⊎◌, ◌<◌, ◌≤◌, false, true, IfErr, IfOk, IsErr, IsErrAnd, IsErrOf, OnOk};
ghost use Rattle.files_in_place.specs.Disk.{LeavesOnly, OnlyReads};
ghost use Rattle.files_in_place.specs.Folder.{recovered};
ghost use Rattle.files_in_place.specs.Recovery.{OthersAreWhole};
ghost use Rattle.open_day.specs.OpenDay.{has_open_day, mark_name};
ghost use Rattle.program_frame.specs.BesideDay.{IsDayRefusal, IsLeftForDay, IsLeftMarked, IsLeftOpen};
ghost use Rattle.program_frame.specs.InputDays.{IsMarkAt, IsMarkRefusal};
ghost use Rattle.program_frame.specs.Jobs.{IsLoadFailure, IsStopped, IsUnbegun, IsUnrecovered};
ghost use Rattle.program_frame.specs.Placing.{IsRecovered, RecoversAsOneOf, TellsRecovery};

use crate::beside::Beside;
use crate::ending::{Failure, Reason};
use crate::folder::FolderFault;
use crate::in_place::InPlace;
use crate::inputs::refuse_marked_day;
use crate::job::Job;
use crate::placing::unrecovered;
use files_in_place::{Disk, DiskFault, recover};
use folders::Source;
use open_day::is_day_open;
use std::alloc::Global;

/// Brings to its end what an earlier run left in the folder of a disk, before anything is read. An `Err` says how the work ends
/// that was not begun. Whether a live day is open in the folder is not asked: a program that goes on with it begins so.
pub fn recover_in_place<R: Drop, F: Reason, D: Disk + Drop>(
    alloc: Global,
    disk: D,
) -> Result<D, InPlace<R, F, D>>
    // Of the files that recovery leaves alone, all bytes are on the disk.
    requires on_disk { D.meaning.keeps_promises → OthersAreWhole (D.meaning.seen disk) (D.meaning.is_whole disk) }
    ensures recovered { IfOk result (λ now. D.meaning.keeps_promises → IsRecovered D.meaning disk now) }
    ensures later { IfOk result (λ now. D.meaning.faults disk ≤ D.meaning.faults now) }
    ensures refused { IfErr result (λ refused. IsErr refused.ended) }
    ensures unbegun { IfErr result (λ refused. IfErr refused.ended (IsUnrecovered F.no_memory)) }
    ensures old_files { IfErr result (λ refused. D.meaning.keeps_promises → LeavesOnly D.meaning disk refused.disk (RecoversAsOneOf (D.meaning.may_leave disk))) }
    ensures tells { IfErr result (λ refused. TellsRecovery D.meaning disk refused.disk refused.ended) }
{
    let mut disk = disk;
    match recover(alloc, &mut disk) {
        Ok(()) => Ok(disk),
        Err(fault) => Err(InPlace {
            ended: Err(Failure::from(unrecovered(fault))),
            disk,
        }),
    }
}

// Refuses work where a day is open in the folder of a disk for the new files, or where that is not known.
fn refuse_open_day<F: Reason, D: Disk>(alloc: Global, disk: &mut D) -> Result<(), Failure<F>>
    ensures closed { D.meaning.keeps_promises → OnOk result (has_open_day (D.meaning.seen disk.old) ≡ false) }
    ensures open { D.meaning.keeps_promises → IsErrOf result (Failure.Folder FolderFault.DayOpen) → has_open_day (D.meaning.seen disk.old) ≡ true }
    ensures refused { IfErr result (IsDayRefusal F.no_memory) }
    ensures unread { IsErrOf result (Failure.Folder FolderFault.Unrecovered) → D.meaning.faults disk.old < D.meaning.faults disk.new }
    ensures later { D.meaning.faults disk.old ≤ D.meaning.faults disk.new }
    ensures only { OnlyReads D.meaning disk.old disk.new }
{
    match is_day_open(alloc, disk) {
        Ok(false) => Ok(()),
        Ok(true) => Err(Failure::Folder(FolderFault::DayOpen)),
        Err(DiskFault::NoMemory) => Err(Failure::Work(F::out_of_memory())),
        Err(DiskFault::Failed) => Err(Failure::Folder(FolderFault::Unrecovered)),
    }
}

/// Brings to its end what an earlier run left in the folder of a disk, before anything is read, and hands out the disk where no live day
/// is open there. An `Err` says how the work ends that was not begun.
pub fn begin_in_place<R: Drop, F: Reason, D: Disk + Drop>(
    alloc: Global,
    disk: D,
) -> Result<D, InPlace<R, F, D>>
    // Of the files that recovery leaves alone, all bytes are on the disk.
    requires on_disk { D.meaning.keeps_promises → OthersAreWhole (D.meaning.seen disk) (D.meaning.is_whole disk) }
    ensures recovered { IfOk result (λ now. D.meaning.keeps_promises → IsRecovered D.meaning disk now) }
    ensures later { IfOk result (λ now. D.meaning.faults disk ≤ D.meaning.faults now) }
    // Nothing is written where a day is open: its answers are in none of the tables yet.
    ensures closed { IfOk result (λ now. D.meaning.keeps_promises → has_open_day (recovered (D.meaning.seen disk)) ≡ false) }
    ensures refused { IfErr result (λ refused. IsErrAnd refused.ended (IsUnbegun F.no_memory)) }
    ensures old_files { IfErr result (λ refused. D.meaning.keeps_promises → LeavesOnly D.meaning disk refused.disk (RecoversAsOneOf (D.meaning.may_leave disk))) }
    ensures tells { IfErr result (λ refused. TellsRecovery D.meaning disk refused.disk refused.ended) }
    // That a day is open is said only where it is.
    ensures open_day { IfErr result (λ refused.
        D.meaning.keeps_promises → IsErrOf refused.ended (Failure.Folder FolderFault.DayOpen) → IsLeftOpen D.meaning disk refused.disk) }
{
    let mut disk = match recover_in_place(alloc, disk) {
        Ok(disk) => disk,
        Err(refused) => return Err(refused),
    };
    match refuse_open_day(alloc, &mut disk) {
        Ok(()) => Ok(disk),
        Err(why) => Err(InPlace {
            ended: Err(why),
            disk,
        }),
    }
}

// The same, where no day is open by the log that the mark in the folder names, either.
fn begin_unmarked<R: Drop, F: Reason, B: Beside, D: Disk + Drop>(
    alloc: Global,
    system: &B,
    disk: D,
) -> Result<D, InPlace<R, F, D>>
    // Of the files that recovery leaves alone, all bytes are on the disk.
    requires on_disk { D.meaning.keeps_promises → OthersAreWhole (D.meaning.seen disk) (D.meaning.is_whole disk) }
    ensures recovered { IfOk result (λ now. D.meaning.keeps_promises → IsRecovered D.meaning disk now) }
    ensures later { IfOk result (λ now. D.meaning.faults disk ≤ D.meaning.faults now) }
    ensures closed { IfOk result (λ now. D.meaning.keeps_promises → has_open_day (recovered (D.meaning.seen disk)) ≡ false) }
    ensures unmarked { IfOk result (λ now. D.meaning.keeps_promises → IsMarkAt (B.answers system.now) (recovered (D.meaning.seen disk) mark_name) false) }
    ensures refused { IfErr result (λ refused. IsErrAnd refused.ended (λ why. IsUnbegun F.no_memory why ⊎ IsMarkRefusal (B.answers system.now) F.no_memory why)) }
    ensures refused_here { D.meaning.keeps_promises → has_open_day (recovered (D.meaning.seen disk)) ≡ true
        → IfErr result (λ refused. IsErrAnd refused.ended (IsUnbegun F.no_memory)) }
    ensures old_files { IfErr result (λ refused. D.meaning.keeps_promises → LeavesOnly D.meaning disk refused.disk (RecoversAsOneOf (D.meaning.may_leave disk))) }
    ensures tells { IfErr result (λ refused. TellsRecovery D.meaning disk refused.disk refused.ended) }
    // That a day is open is said only where it is.
    ensures open_day { IfErr result (λ refused. IsErrOf refused.ended (Failure.Folder FolderFault.DayOpen)
        → (D.meaning.keeps_promises → IsLeftOpen D.meaning disk refused.disk)
        ⊎ (D.meaning.keeps_promises → IsLeftMarked D.meaning (B.answers system.now) disk refused.disk)) }
{
    let mut disk = match begin_in_place(alloc, disk) {
        Ok(disk) => disk,
        Err(refused) => return Err(refused),
    };
    match refuse_marked_day(alloc, system, &mut disk) {
        Ok(()) => Ok(disk),
        Err(why) => Err(InPlace {
            ended: Err(why),
            disk,
        }),
    }
}

/// The same for the work of a program, which is refused where a live day is open in a folder from which it reads, too, or by the log that
/// the mark of one of these folders names. Nothing is read before it of what the work reads but what tells these folders.
pub fn begin_work<J: Job, S: Source, B: Beside, D: Disk + Drop>(
    alloc: Global,
    job: &J,
    source: &mut S,
    system: &B,
    disk: D,
) -> Result<D, InPlace<J::Report, J::Fault, D>>
    // Of the files that recovery leaves alone, all bytes are on the disk.
    requires on_disk { D.meaning.keeps_promises → OthersAreWhole (D.meaning.seen disk) (D.meaning.is_whole disk) }
    ensures recovered { IfOk result (λ now. D.meaning.keeps_promises → IsRecovered D.meaning disk now) }
    ensures later { IfOk result (λ now. D.meaning.faults disk ≤ D.meaning.faults now) }
    ensures closed { IfOk result (λ now. D.meaning.keeps_promises → has_open_day (recovered (D.meaning.seen disk)) ≡ false) }
    // Nor where its mark names the log of an open day, as the system has answered of that log.
    ensures unmarked { IfOk result (λ now. D.meaning.keeps_promises → IsMarkAt (B.answers system.now) (recovered (D.meaning.seen disk) mark_name) false) }
    ensures inputs { OnOk result (J.finds_day job.now (B.answers system.now) (S.files source.old) false) }
    ensures refused { IfErr result (λ refused. IsErrAnd refused.ended (IsStopped (J.fails job.now (S.files source.old)) J.Fault.no_memory)) }
    ensures refused_here { D.meaning.keeps_promises → has_open_day (recovered (D.meaning.seen disk)) ≡ true
        → IfErr result (λ refused. IsErrAnd refused.ended (IsUnbegun J.Fault.no_memory)) }
    ensures old_files { IfErr result (λ refused. D.meaning.keeps_promises → LeavesOnly D.meaning disk refused.disk (RecoversAsOneOf (D.meaning.may_leave disk))) }
    ensures tells { IfErr result (λ refused. TellsRecovery D.meaning disk refused.disk refused.ended) }
    ensures open_day { IfErr result (λ refused. IsErrOf refused.ended (Failure.Folder FolderFault.DayOpen)
        → IsLeftForDay D.meaning (B.answers system.now) (J.finds_day job.now (B.answers system.now) (S.files source.old) true) disk refused.disk) }
    ensures kept { S.files source.new ≡ S.files source.old }
    ensures loads { OnOk result (S.failures source.new ≡ S.failures source.old) }
    ensures failure { IfErr result (λ refused. IfErr refused.ended (IsLoadFailure (J.loads job.now (S.files source.old) (S.failures source.old) (S.failures source.new))
        J.Fault.no_memory (S.failures source.new ≡ S.failures source.old))) }
{
    let disk = match begin_unmarked(alloc, system, disk) {
        Ok(disk) => disk,
        Err(refused) => return Err(refused),
    };
    match job.refuse_open_day(alloc, source, system) {
        Ok(()) => Ok(disk),
        Err(why) => Err(InPlace {
            ended: Err(why),
            disk,
        }),
    }
}
