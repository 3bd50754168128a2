//! The work of a program into the folder of a disk, where its new files take their places all together.

ghost use Rattle.std.specs.Prelude.{◌≡◌, ◌⊎◌, ◌+◌, [], false, true, Some, IfOk, IfErr, IfSome, IsErrAnd, IsErrOf, IsOk, OnOk};
ghost use Rattle.files_in_place.specs.Disk.{IsSyncedDisk};
ghost use Rattle.files_in_place.specs.Folder.{recovered};
ghost use Rattle.files_in_place.specs.Recovery.{HasOldFiles, IsClean, OthersAreWhole};
ghost use Rattle.open_day.specs.OpenDay.{has_open_day, mark_name};
ghost use Rattle.program_frame.specs.BesideDay.{IsLeftForDay};
ghost use Rattle.program_frame.specs.InputDays.{IsMarkAt};
ghost use Rattle.program_frame.specs.Jobs.{given_up, ComesToItsEnd, IsFailureOf, IsLoadFailure, IsPlaceFailure, IsUnbegun};
ghost use Rattle.program_frame.specs.PlaceFaults.{IsOfBeginning};
ghost use Rattle.program_frame.specs.Placing.{EndsInPlace, RecoversAsOneOf, TellsRecovery};
ghost use Rattle.folders.specs.Placed.{IsListedAfter};

use crate::begin::begin_work;
use crate::beside::Beside;
use crate::ending::{Failure, Reason};
use crate::folder::FolderFault;
use crate::job::{Job, Work};
use crate::placing::unplaced;
use files_in_place::{Disk, SetFault};
use folders::{DiskFolder, Origin, Source};
use std::alloc::Global;
use std::io::Write;
use std::marker::Brand;

/// How work over the folder of a disk ended, and the disk then.
#[derive(Drop)]
pub struct InPlace<R: Drop, F: Drop, D: Disk + Drop> {
    /// What it reports, where all its files are in place, or why they are not.
    pub ended: Result<R, Failure<F>>,
    /// The disk.
    pub disk: D,
}

// Removes the new files of work that failed for this, and says why it did: a file that was not written for want of memory is no
// fault of the disk.
fn give_up<J: Job, D: Disk + Drop, O: Origin<D>>(
    folder: &mut DiskFolder<D, O>,
    fault: J::Fault,
) -> J::Fault
    ensures value { result ≡ given_up (J.is_unwritten fault) J.Fault.no_memory folder.old.fault fault }
    // The new files are gone, or one more call of the folder has failed.
    ensures removed { (folder.new.written ≡ []) ⊎ (folder.new.failures ≡ folder.old.failures + 1) }
{
    // Where it fails the next start removes them.
    let _ = folder.abandon();
    match (J::is_unwritten(&fault), folder.fault()) {
        (true, Some(SetFault::NoMemory)) => J::Fault::out_of_memory(),
        (_, _) => fault,
    }
}

/// Puts the files of work in place that it has written into a folder, where it came to its end, and else removes them: which work it
/// was, and how it ended over the files of a source.
pub fn end_in_place<J: Job, S: Source, D: Disk + Drop, O: Origin<D>>(
    job: &J,
    source: &S,
    folder: DiskFolder<D, O>,
    ended: Result<J::Report, J::Fault>,
) -> InPlace<J::Report, J::Fault, D>
    requires done { IfOk ended (λ report. IsListedAfter (λ written. J.writes job.now (S.files source.now) written report) (Some []) (Some folder.written)) }
    requires no_failure { OnOk ended (folder.failures ≡ 0) }
    requires fault { IfErr ended (J.fails job.now (S.files source.now)) }
    ensures ends { IfSome O.origin (λ disk.
        EndsInPlace D.meaning (J.writes job.now (S.files source.now)) (HasOldFiles (D.meaning.seen disk)) (D.meaning.seen disk) disk result.disk result.ended) }
    ensures fault { IfErr result.ended
        (IsPlaceFailure (J.fails job.now (S.files source.now)) J.Fault.no_memory (ComesToItsEnd (J.writes job.now (S.files source.now)))) }
    ensures begun { (said : FolderFault) → IsOfBeginning said → ¬ IsErrOf result.ended (Failure.Folder said) }
    ensures failure { IfErr result.ended (IsFailureOf ended J.Fault.no_memory) }
    ensures came { OnOk result.ended (IsOk ended) }
{
    let mut folder = folder;
    let report = match ended {
        Ok(report) => report,
        Err(fault) => {
            let fault = give_up::<J, D, O>(&mut folder, fault);
            return InPlace {
                ended: Err(Failure::Work(fault)),
                disk: folder.into_disk(),
            };
        }
    };
    match folder.finish() {
        (Ok(()), disk) => InPlace {
            ended: Ok(report),
            disk,
        },
        (Err(fault), disk) => InPlace {
            ended: Err(Failure::from(unplaced(fault))),
            disk,
        },
    }
}

// Does the work into the folder of a disk that has been recovered, and puts its files in place.
fn run_recovered<J: Work, S: Source, D: Disk + Drop, O: Origin<D>, E: Write>(
    alloc: Global,
    job: &J,
    source: &mut S,
    disk: D,
    err: &mut E,
) -> InPlace<J::Report, J::Fault, D>
    requires synced { D.meaning.keeps_promises → IsSyncedDisk D.meaning disk }
    requires clean { D.meaning.keeps_promises → IsClean (D.meaning.seen disk) }
    requires origin { O.origin ≡ Some disk }
    ensures ends { EndsInPlace D.meaning (J.writes job.now (S.files source.old)) (HasOldFiles (D.meaning.seen disk)) (D.meaning.seen disk) disk result.disk result.ended }
    ensures fault { IfErr result.ended
        (IsPlaceFailure (J.fails job.now (S.files source.old)) J.Fault.no_memory (ComesToItsEnd (J.writes job.now (S.files source.old)))) }
    ensures begun { (said : FolderFault) → IsOfBeginning said → ¬ IsErrOf result.ended (Failure.Folder said) }
    ensures kept { S.files source.new ≡ S.files source.old }
    ensures loads { OnOk result.ended (S.failures source.new ≡ S.failures source.old) }
    ensures failure { IfErr result.ended (IsLoadFailure (J.loads job.now (S.files source.old) (S.failures source.old) (S.failures source.new))
        J.Fault.no_memory (S.failures source.new ≡ S.failures source.old)) }
{
    let mut folder = DiskFolder::<D, O>::new(alloc, disk);
    let ended = job.work(alloc, source, &mut folder, err);
    end_in_place(job, source, folder, ended)
}

/// Does the work of a program over the folder of a disk. What an earlier run left in it is brought to its end before anything is
/// read; the new files are put in place, all of them or none, once they are written. What the work says meanwhile is printed on
/// `err`. Where a live day is open in the folder, or in one from which the work reads, or by the log that the mark of one
/// of these names, it is refused before that, and nothing is written.
pub fn run_in_place<J: Work, S: Source, B: Beside, D: Disk + Drop, E: Write>(
    alloc: Global,
    job: &J,
    source: &mut S,
    system: &B,
    disk: D,
    err: &mut E,
) -> InPlace<J::Report, J::Fault, D>
    // Of the files that recovery leaves alone, all bytes are on the disk.
    requires on_disk { D.meaning.keeps_promises → OthersAreWhole (D.meaning.seen disk) (D.meaning.is_whole disk) }
    ensures ends { EndsInPlace D.meaning (J.writes job.now (S.files source.old)) (RecoversAsOneOf (D.meaning.may_leave disk)) (recovered (D.meaning.seen disk)) disk result.disk result.ended }
    ensures tells { TellsRecovery D.meaning disk result.disk result.ended }
    ensures fault { IfErr result.ended
        (IsPlaceFailure (J.fails job.now (S.files source.old)) J.Fault.no_memory (ComesToItsEnd (J.writes job.now (S.files source.old)))) }
    ensures kept { S.files source.new ≡ S.files source.old }
    // A file can't be read only where a load has failed, or where it is over the limit.
    ensures loads { OnOk result.ended (S.failures source.new ≡ S.failures source.old) }
    ensures failure { IfErr result.ended (IsLoadFailure (J.loads job.now (S.files source.old) (S.failures source.old) (S.failures source.new))
        J.Fault.no_memory (S.failures source.new ≡ S.failures source.old)) }
    // That a day is open is said only where it is, and then nothing was changed but by recovery; and where it is, the work is refused.
    ensures open_day { IsErrOf result.ended (Failure.Folder FolderFault.DayOpen)
        → IsLeftForDay D.meaning (B.answers system.now) (J.finds_day job.now (B.answers system.now) (S.files source.old) true) disk result.disk }
    ensures inputs { OnOk result.ended (J.finds_day job.now (B.answers system.now) (S.files source.old) false) }
    ensures unmarked { D.meaning.keeps_promises → OnOk result.ended (IsMarkAt (B.answers system.now) (recovered (D.meaning.seen disk) mark_name) false) }
    ensures refused { D.meaning.keeps_promises → has_open_day (recovered (D.meaning.seen disk)) ≡ true
        → IsErrAnd result.ended (IsUnbegun J.Fault.no_memory) }
{
    match begin_work(alloc, job, source, system, disk) {
        // Which disk the new files begin on is picked for contracts, at `Brand`.
        Ok(disk) => run_recovered::<J, S, D, Brand, E>(alloc, job, source, disk, err),
        Err(refused) => refused,
    }
}
