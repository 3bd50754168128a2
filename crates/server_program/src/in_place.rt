//! The run of a command line into the folder of a disk, where its files take their places all together.

ghost use Rattle.std.specs.Prelude.{◌≡◌, ◌⊎◌, Some, false, true, IfErr, IfOk, IsErr, IsErrAnd, IsErrOf, OnOk};
ghost use Rattle.files_in_place.specs.Disk.{IsSyncedDisk};
ghost use Rattle.files_in_place.specs.Folder.{recovered};
ghost use Rattle.files_in_place.specs.Recovery.{HasOldFiles, IsClean, OthersAreWhole};
ghost use Rattle.office_run.specs.declared.fault.ServeFault.TheVariants.{NoMemory};
ghost use Rattle.open_day.specs.OpenDay.{has_open_day, mark_name};
ghost use Rattle.program_frame.specs.BesideDay.{HasOpenDayIn, IsLeftForDay, IsWithoutDay};
ghost use Rattle.program_frame.specs.InputDays.{HasInputDay, HasNoInputDay, IsMarkAt};
ghost use Rattle.program_frame.specs.Jobs.{IsUnbegun};
ghost use Rattle.program_frame.specs.PlaceFaults.{IsOfBeginning};
ghost use Rattle.program_frame.specs.Placing.{EndsInPlace, HasPutInto, RecoversAsOneOf, TellsRecovery};
ghost use Rattle.program_frame.specs.declared.folder.FolderFault.{FolderFault};
ghost use Rattle.server_program.specs.Program.{IsLoadFailure, IsPlaceFailure, IsServedBy, IsUnserved};

use crate::job::ServeJob;
use crate::served::Served;
use files_in_place::Disk;
use folders::{DiskFolder, MissingFolder, Origin, Source};
use office_run::{Gate, ServeFault};
use program_frame::{Failure, FolderFault, InPlace, Job, System, begin_work, end_in_place};
use std::alloc::Global;
use std::io::Write;
use std::marker::Brand;
use std::sync::Wait;
use std::thread::Threads;

// Serves the run into the folder of a disk that has been recovered, and puts its files in place.
fn serve_recovered<R, Y, G, S, D, O, E>(
    alloc: Global,
    job: &ServeJob<'_, R, Y, G>,
    source: &mut S,
    disk: D,
    err: &mut E,
) -> InPlace<Served, ServeFault, D>
where
    R: Threads + Wait + Sync,
    Y: System,
    G: Gate + Sync,
    S: Source,
    D: Disk + Drop,
    O: Origin<D>,
    E: Write,
    requires synced { D.meaning.keeps_promises → IsSyncedDisk D.meaning disk }
    requires clean { D.meaning.keeps_promises → IsClean (D.meaning.seen disk) }
    requires origin { O.origin ≡ Some disk }
    ensures ends { EndsInPlace D.meaning (IsServedBy (S.files source.old) job.now.options) (HasOldFiles (D.meaning.seen disk)) (D.meaning.seen disk) disk result.disk result.ended }
    ensures fault { IfErr result.ended (IsPlaceFailure (S.files source.old) job.now.options) }
    ensures begun { (said : FolderFault) → IsOfBeginning said → ¬ IsErrOf result.ended (Failure.Folder said) }
    ensures kept { S.files source.new ≡ S.files source.old }
    ensures loads { OnOk result.ended (S.failures source.new ≡ S.failures source.old) }
    ensures failure { IfErr result.ended (IsLoadFailure (S.files source.old) (S.failures source.old) (S.failures source.new)) }
{
    let mut folder = DiskFolder::<D, O>::new(alloc, disk);
    let ended = job.work(alloc, source, &mut folder, err);
    end_in_place(job, source, folder, ended)
}

/// Serves the run over the folder of a disk. What an earlier run left in it is brought to its end before anything is read; the new
/// files are put in place, all of them or none, once they are written. Where a live day is open in the folder, or in one from which
/// tables, memo files or indexes are read, the run is refused before that, and nothing is written.
pub fn serve_in_place<R, Y, G, S, D, E>(
    alloc: Global,
    job: &ServeJob<'_, R, Y, G>,
    source: &mut S,
    disk: D,
    err: &mut E,
) -> InPlace<Served, ServeFault, D>
where
    R: Threads + Wait + Sync,
    Y: System,
    G: Gate + Sync,
    S: Source,
    D: Disk + Drop,
    E: Write,
    // Of the files that recovery leaves alone, all bytes are on the disk.
    requires on_disk { D.meaning.keeps_promises → OthersAreWhole (D.meaning.seen disk) (D.meaning.is_whole disk) }
    ensures ends { EndsInPlace D.meaning (IsServedBy (S.files source.old) job.now.options) (RecoversAsOneOf (D.meaning.may_leave disk)) (recovered (D.meaning.seen disk)) disk result.disk result.ended }
    ensures tells { TellsRecovery D.meaning disk result.disk result.ended }
    ensures fault { IfErr result.ended (IsPlaceFailure (S.files source.old) job.now.options) }
    ensures kept { S.files source.new ≡ S.files source.old }
    // A file can't be read only where a load has failed, or where it is over the limit.
    ensures loads { OnOk result.ended (S.failures source.new ≡ S.failures source.old) }
    ensures failure { IfErr result.ended (IsLoadFailure (S.files source.old) (S.failures source.old) (S.failures source.new)) }
    // That a day is open is said only where it is, and then nothing was changed but by recovery; and where it is, the run is refused.
    ensures open_day { IsErrOf result.ended (Failure.Folder FolderFault.DayOpen)
        → IsLeftForDay D.meaning (Y.answers job.now.system.now) (HasInputDay (Y.answers job.now.system.now) (S.files source.old) job.now.options.setup.now) disk result.disk }
    ensures inputs { OnOk result.ended (HasNoInputDay (Y.answers job.now.system.now) (S.files source.old) job.now.options.setup.now) }
    ensures unmarked { D.meaning.keeps_promises
        → OnOk result.ended (IsMarkAt (Y.answers job.now.system.now) (recovered (D.meaning.seen disk) mark_name) false) }
    ensures refused { D.meaning.keeps_promises → has_open_day (recovered (D.meaning.seen disk)) ≡ true → IsErrAnd result.ended (IsUnbegun NoMemory) }
{
    match begin_work(alloc, job, source, job.system, disk) {
        // Which disk the new files begin on is picked for contracts, at `Brand`.
        Ok(disk) => serve_recovered::<R, Y, G, S, D, Brand, E>(alloc, job, source, disk, err),
        Err(refused) => refused,
    }
}

// Serves the run where nothing has the path of the folder for its files: none can be written.
fn serve_nowhere<R: Threads + Wait + Sync, Y: System, G: Gate + Sync, S: Source, E: Write>(
    alloc: Global,
    job: &ServeJob<'_, R, Y, G>,
    source: &mut S,
    err: &mut E,
) -> Result<Served, Failure<ServeFault>>
    ensures refused { IsErr result }
    ensures fault { IfErr result (IsUnserved (S.files source.old) job.now.options) }
    ensures kept { S.files source.new ≡ S.files source.old }
    ensures no_day { ¬ IsErrOf result (Failure.Folder FolderFault.DayOpen) }
{
    let fault = match job.work(alloc, source, &mut MissingFolder::new(), err) {
        Ok(_) => return Err(Failure::Folder(FolderFault::Unopened)),
        Err(fault) => fault,
    };
    // No file is told of, where it is the folder that is not there.
    if ServeJob::<'_, R, Y, G>::is_unwritten(&fault) {
        return Err(Failure::Folder(FolderFault::Unopened));
    }
    Err(Failure::Work(fault))
}

/// Serves the run into the folder of its command line, which no other run has meanwhile.
pub fn serve_into<R: Threads + Wait + Sync, Y: System, G: Gate + Sync, S: Source, E: Write>(
    alloc: Global,
    job: &ServeJob<'_, R, Y, G>,
    source: &mut S,
    err: &mut E,
) -> Result<Served, Failure<ServeFault>>
    ensures served { IfOk result (λ served.
        HasPutInto Y.Disk.meaning (IsWithoutDay Y.Disk.meaning (Y.answers job.now.system.now) (Y.opens job.now.system.now job.now.options.out.now))
        (λ written. IsServedBy (S.files source.old) job.now.options written served)) }
    ensures inputs { OnOk result (HasNoInputDay (Y.answers job.now.system.now) (S.files source.old) job.now.options.setup.now) }
    ensures fault { IfErr result (IsUnserved (S.files source.old) job.now.options) }
    ensures kept { S.files source.new ≡ S.files source.old }
    ensures open_day { IsErrOf result (Failure.Folder FolderFault.DayOpen) → HasOpenDayIn Y.Disk.meaning (Y.answers job.now.system.now) (Y.opens job.now.system.now job.now.options.out.now)
        ⊎ HasInputDay (Y.answers job.now.system.now) (S.files source.old) job.now.options.setup.now }
{
    match job.system.open(alloc, job.options.out)? {
        Some(disk) => serve_in_place(alloc, job, source, disk, err).ended,
        None => serve_nowhere(alloc, job, source, err),
    }
}
