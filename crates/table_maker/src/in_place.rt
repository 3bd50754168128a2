//! The making of files of a table in the folder of a disk, where they take their places all together, over no file that is there
//! unless it may be replaced.

ghost use Rattle.std.specs.Prelude.{◌≡◌, ◌<◌, ◌≤◌, false, true, None, Some, IfErr, IfOk, IsErr, IsErrAnd, IsErrOf, IsSome, OnOk};
ghost use Rattle.files_in_place.specs.Disk.{IsSyncedDisk, LeavesOnly};
ghost use Rattle.files_in_place.specs.Folder.{recovered};
ghost use Rattle.files_in_place.specs.Recovery.{HasOldFiles, IsClean, OthersAreWhole};
ghost use Rattle.open_day.specs.OpenDay.{has_open_day, mark_name};
ghost use Rattle.program_frame.specs.BesideDay.{IsLeftForDay};
ghost use Rattle.program_frame.specs.InputDays.{IsMarkAt};
ghost use Rattle.program_frame.specs.Jobs.{ComesToItsEnd, IsLoadFailure, IsPlaceFailure, IsUnbegun};
ghost use Rattle.program_frame.specs.PlaceFaults.{IsOfBeginning};
ghost use Rattle.program_frame.specs.Placing.{EndsInPlace, IsRecovered, RecoversAsOneOf, TellsRecovery};
ghost use Rattle.program_frame.specs.declared.ending.Failure.TheVariants.{Folder as OfFolder, Work as OfWork};
ghost use Rattle.program_frame.specs.declared.folder.FolderFault.{FolderFault};
ghost use Rattle.table_maker.specs.Placing.{IsFree, IsLooking, IsUnplaced, IsUnplacedLoad, IsUntried, StaysRecovered};

use crate::table_work::TableWork;
use byte_io::Bytes;
use files_in_place::{Disk, DiskFault};
use folders::{DiskFolder, Origin, Source};
use program_frame::{Beside, Failure, InPlace, Reason, begin_work, end_in_place};
use std::alloc::Global;
use std::io::Write;
use std::marker::Brand;

// Refuses a name that has a file.
#[tactic(auto, using(crate::proofs::PlaceLaws::reads_recovered))]
fn refuse_file<J: TableWork, D: Disk>(job: &J, disk: &mut D, name: &[u8]) -> Result<(), J::Fault>
    ensures free { D.meaning.keeps_promises → OnOk result (D.meaning.seen disk.old name.now ≡ None) }
    ensures exists { D.meaning.keeps_promises → IsErrOf result J.look.exists → IsSome (D.meaning.seen disk.old name.now) }
    ensures unread { IsErrOf result J.look.unread → D.meaning.faults disk.old < D.meaning.faults disk.new }
    ensures fault { IfErr result (IsLooking J.look J.Fault.no_memory) }
    ensures recovered { StaysRecovered D.meaning disk.old disk.new }
    ensures same { D.meaning.seen disk.new ≡ D.meaning.seen disk.old }
    ensures later { D.meaning.faults disk.old ≤ D.meaning.faults disk.new }
{
    job.exists_is_of_names_alone();
    job.unread_is_of_the_folder_alone();
    match disk.has(name) {
        Ok(false) => Ok(()),
        Ok(true) => Err(J::exists()),
        Err(DiskFault::NoMemory) => Err(J::Fault::out_of_memory()),
        Err(DiskFault::Failed) => Err(J::unread()),
    }
}

// Refuses a folder that has a file of one of these names. Takes no memory.
#[tactic(auto, using(crate::proofs::PlaceLaws::stays_both, crate::proofs::PlaceLaws::taken_at))]
fn refuse_names<J: TableWork, D: Disk>(
    job: &J,
    disk: &mut D,
    names: &[Bytes],
) -> Result<(), J::Fault>
    ensures free { D.meaning.keeps_promises → OnOk result (IsFree names.now (D.meaning.seen disk.old)) }
    ensures exists { D.meaning.keeps_promises → IsErrOf result J.look.exists → ¬ IsFree names.now (D.meaning.seen disk.old) }
    ensures unread { IsErrOf result J.look.unread → D.meaning.faults disk.old < D.meaning.faults disk.new }
    ensures fault { IfErr result (IsLooking J.look J.Fault.no_memory) }
    ensures recovered { StaysRecovered D.meaning disk.old disk.new }
    ensures same { D.meaning.seen disk.new ≡ D.meaning.seen disk.old }
    ensures later { D.meaning.faults disk.old ≤ D.meaning.faults disk.new }
{
    for name in names {
        match refuse_file(job, disk, name.as_slice()) {
            Ok(()) => {}
            Err(fault) => return Err(fault),
        }
    }
    Ok(())
}

// Refuses a folder that has a file of one of the work's names.
fn refuse_files<J: TableWork, D: Disk>(alloc: Global, job: &J, disk: &mut D) -> Result<(), J::Fault>
    ensures free { D.meaning.keeps_promises → OnOk result (IsFree (J.names job.now) (D.meaning.seen disk.old)) }
    ensures exists { D.meaning.keeps_promises → IsErrOf result J.look.exists → ¬ IsFree (J.names job.now) (D.meaning.seen disk.old) }
    ensures unread { IsErrOf result J.look.unread → D.meaning.faults disk.old < D.meaning.faults disk.new }
    ensures fault { IfErr result (IsLooking J.look J.Fault.no_memory) }
    ensures recovered { StaysRecovered D.meaning disk.old disk.new }
    ensures same { D.meaning.seen disk.new ≡ D.meaning.seen disk.old }
    ensures later { D.meaning.faults disk.old ≤ D.meaning.faults disk.new }
{
    job.exists_is_of_names_alone();
    job.unread_is_of_the_folder_alone();
    match job.names(alloc) {
        Ok(names) => refuse_names(job, disk, &names),
        Err(_) => Err(J::Fault::out_of_memory()),
    }
}

// Brings to its end what an earlier run left on a disk, and refuses work beside an open day, and a file that is there and may not be
// replaced.
#[tactic(auto, using(crate::proofs::PlaceLaws::looking_untried, crate::proofs::PlaceLaws::looking_load, crate::proofs::PlaceLaws::looked_tells, crate::proofs::PlaceLaws::free_same))]
fn begin_free<J: TableWork, S: Source, B: Beside, D: Disk + Drop>(
    alloc: Global,
    job: &J,
    replace: bool,
    source: &mut S,
    system: &B,
    disk: D,
) -> Result<D, InPlace<J::Report, J::Fault, D>>
    requires on_disk { D.meaning.keeps_promises → OthersAreWhole (D.meaning.seen disk) (D.meaning.is_whole disk) }
    ensures recovered { IfOk result (λ now. D.meaning.keeps_promises → IsRecovered D.meaning disk now) }
    ensures later { IfOk result (λ now. D.meaning.faults disk ≤ D.meaning.faults now) }
    ensures free { D.meaning.keeps_promises
        → OnOk result (replace ≡ false → IsFree (J.names job.now) (recovered (D.meaning.seen disk))) }
    ensures refused { IfErr result (λ refused. IsErr refused.ended) }
    ensures untried { IfErr result (λ refused. IfErr refused.ended (IsUntried J.look (J.fails job.now (S.files source.old)) J.Fault.no_memory replace)) }
    ensures exists { D.meaning.keeps_promises → IfErr result (λ refused. IsErrOf refused.ended (OfWork J.look.exists)
        → ¬ IsFree (J.names job.now) (recovered (D.meaning.seen disk))) }
    ensures unread { IfErr result (λ refused. IsErrOf refused.ended (OfWork J.look.unread) → D.meaning.faults disk < D.meaning.faults refused.disk) }
    ensures old_files { IfErr result (λ refused. D.meaning.keeps_promises → LeavesOnly D.meaning disk refused.disk (RecoversAsOneOf (D.meaning.may_leave disk))) }
    ensures tells { IfErr result (λ refused. TellsRecovery D.meaning disk refused.disk refused.ended) }
    ensures closed { IfOk result (λ now. D.meaning.keeps_promises → has_open_day (recovered (D.meaning.seen disk)) ≡ false) }
    ensures unmarked { D.meaning.keeps_promises → OnOk result (IsMarkAt (B.answers system.now) (recovered (D.meaning.seen disk) mark_name) false) }
    ensures inputs { OnOk result (J.finds_day job.now (B.answers system.now) (S.files source.old) false) }
    ensures refused_here { D.meaning.keeps_promises → has_open_day (recovered (D.meaning.seen disk)) ≡ true
        → IfErr result (λ refused. IsErrAnd refused.ended (IsUnbegun J.Fault.no_memory)) }
    ensures open_day { IfErr result (λ refused. IsErrOf refused.ended (Failure.Folder FolderFault.DayOpen)
        → IsLeftForDay D.meaning (B.answers system.now) (J.finds_day job.now (B.answers system.now) (S.files source.old) true) disk refused.disk) }
    ensures kept { S.files source.new ≡ S.files source.old }
    ensures loads { OnOk result (S.failures source.new ≡ S.failures source.old) }
    ensures failure { IfErr result (λ refused. IfErr refused.ended (IsUnplacedLoad J.look J.Fault.no_memory
        (J.loads job.now (S.files source.old) (S.failures source.old) (S.failures source.new)) (S.failures source.new ≡ S.failures source.old) replace)) }
{
    job.exists_is_of_names_alone();
    job.unread_is_of_the_folder_alone();
    let mut disk = match begin_work(alloc, job, source, system, disk) {
        Ok(disk) => disk,
        Err(refused) => return Err(refused),
    };
    if replace {
        return Ok(disk);
    }
    match refuse_files(alloc, job, &mut disk) {
        Ok(()) => Ok(disk),
        Err(fault) => Err(InPlace {
            ended: Err(Failure::Work(fault)),
            disk,
        }),
    }
}

// Does the work in the folder of a disk that has been recovered, and puts its files in place.
fn make_recovered<J: TableWork, S: Source, D: Disk + Drop, O: Origin<D>, E: Write>(
    alloc: Global,
    job: &J,
    source: &mut S,
    disk: D,
    err: &mut E,
) -> InPlace<J::Report, J::Fault, D>
    requires synced { D.meaning.keeps_promises → IsSyncedDisk D.meaning disk }
    requires clean { D.meaning.keeps_promises → IsClean (D.meaning.seen disk) }
    requires origin { O.origin ≡ Some disk }
    ensures ends { EndsInPlace D.meaning (J.writes job.now (S.files source.old))
        (HasOldFiles (D.meaning.seen disk)) (D.meaning.seen disk) disk result.disk result.ended }
    ensures fault { IfErr result.ended
        (IsPlaceFailure (J.fails job.now (S.files source.old)) J.Fault.no_memory (ComesToItsEnd (J.writes job.now (S.files source.old)))) }
    ensures begun { (said : FolderFault) → IsOfBeginning said → ¬ IsErrOf result.ended (OfFolder said) }
    ensures kept { S.files source.new ≡ S.files source.old }
    ensures loads { OnOk result.ended (S.failures source.new ≡ S.failures source.old) }
    ensures failure { IfErr result.ended (IsLoadFailure (J.loads job.now (S.files source.old) (S.failures source.old) (S.failures source.new))
        J.Fault.no_memory (S.failures source.new ≡ S.failures source.old)) }
{
    let mut folder = DiskFolder::<D, O>::new(alloc, disk);
    let ended = job.work(alloc, source, &mut folder, err);
    end_in_place(job, source, folder, ended)
}

/// Makes files of a table in the folder of a disk. What an earlier run left in it is brought to its end before anything is read; the new
/// files are put in place, all of them or none, once they are written.
///
/// Where no file may be replaced and one of the names has a file, the answer is [`TableWork::exists`] and nothing is written;
/// [`TableWork::unread`] where the disk fails at looking for them. Where a live day is open in the folder, or in one from which the work
/// reads, it is refused before that.
pub fn make_in_place<J: TableWork, S: Source, B: Beside, D: Disk + Drop, E: Write>(
    alloc: Global,
    job: &J,
    replace: bool,
    source: &mut S,
    system: &B,
    disk: D,
    err: &mut E,
) -> InPlace<J::Report, J::Fault, D>
    // Of the files that recovery leaves alone, all bytes are on the disk.
    requires on_disk { D.meaning.keeps_promises → OthersAreWhole (D.meaning.seen disk) (D.meaning.is_whole disk) }
    // Nothing is made over a file that is there, unless it may be replaced.
    ensures free { D.meaning.keeps_promises
        → OnOk result.ended (replace ≡ false → IsFree (J.names job.now) (recovered (D.meaning.seen disk))) }
    ensures exists { D.meaning.keeps_promises → IsErrOf result.ended (OfWork J.look.exists)
        → ¬ IsFree (J.names job.now) (recovered (D.meaning.seen disk)) }
    // That the folder can't be read is said only where a call of the disk has failed.
    ensures unread { IsErrOf result.ended (OfWork J.look.unread) → D.meaning.faults disk < D.meaning.faults result.disk }
    ensures ends { EndsInPlace D.meaning (J.writes job.now (S.files source.old))
        (RecoversAsOneOf (D.meaning.may_leave disk)) (recovered (D.meaning.seen disk)) disk result.disk result.ended }
    ensures tells { TellsRecovery D.meaning disk result.disk result.ended }
    ensures fault { IfErr result.ended (IsUnplaced J.look J.Fault.no_memory (J.fails job.now (S.files source.old))
        (ComesToItsEnd (J.writes job.now (S.files source.old))) replace) }
    ensures kept { S.files source.new ≡ S.files source.old }
    // A file can't be read only where a load has failed, or where it is over the limit.
    ensures loads { OnOk result.ended (S.failures source.new ≡ S.failures source.old) }
    ensures failure { IfErr result.ended (IsUnplacedLoad J.look J.Fault.no_memory
        (J.loads job.now (S.files source.old) (S.failures source.old) (S.failures source.new)) (S.failures source.new ≡ S.failures source.old) replace) }
    // That a day is open is said only where it is, and then nothing was changed but by recovery; and where it is, the work is refused.
    ensures open_day { IsErrOf result.ended (Failure.Folder FolderFault.DayOpen)
        → IsLeftForDay D.meaning (B.answers system.now) (J.finds_day job.now (B.answers system.now) (S.files source.old) true) disk result.disk }
    ensures inputs { OnOk result.ended (J.finds_day job.now (B.answers system.now) (S.files source.old) false) }
    ensures unmarked { D.meaning.keeps_promises → OnOk result.ended (IsMarkAt (B.answers system.now) (recovered (D.meaning.seen disk) mark_name) false) }
    ensures refused { D.meaning.keeps_promises → has_open_day (recovered (D.meaning.seen disk)) ≡ true
        → IsErrAnd result.ended (IsUnbegun J.Fault.no_memory) }
{
    job.exists_is_of_names_alone();
    job.unread_is_of_the_folder_alone();
    match begin_free(alloc, job, replace, source, system, disk) {
        // Which disk the new files begin on is picked for contracts, at `Brand`.
        Ok(disk) => make_recovered::<J, S, D, Brand, E>(alloc, job, source, disk, err),
        Err(refused) => refused,
    }
}
