//! A table's files that are put into the folder of a path.

ghost use Rattle.std.specs.Prelude.{◌≡◌, ◌⊎◌, false, true, IfErr, IfOk, IfSome, IsErrOf, OnOk};
ghost use Rattle.folders.specs.Paths.{folder_of_path};
ghost use Rattle.program_frame.specs.BesideDay.{HasOpenDayIn, IsWithoutDay};
ghost use Rattle.program_frame.specs.Jobs.{ComesToItsEnd};
ghost use Rattle.program_frame.specs.declared.ending.Failure.TheVariants.{Work as OfWork};
ghost use Rattle.table_maker.specs.Placing.{HasFailed, HasMadeInto, IsFree, IsInTheWay, IsUnplacedInto};

use folders::{Source, folder_of};
use program_frame::{Failure, FolderFault, System};
use std::alloc::Global;
use table_maker::{TableWork, make_into};

/// The folder that the file of a path lies in. `None` where its path is no text.
pub(crate) fn folder_text(path: &str) -> Option<&str>
    ensures value { IfSome result (λ folder. folder.now ≡ folder_of_path path.now) }
{
    match str::from_utf8(folder_of(path.as_bytes())) {
        Ok(folder) => Some(folder),
        Err(_) => None,
    }
}

/// Does the work of making files of a table in the folder that a path is in, over no file that is there unless it may be replaced.
pub(crate) fn place_table<J: TableWork, F: Source, Y: System>(
    alloc: Global,
    job: &J,
    replace: bool,
    source: &mut F,
    system: &Y,
    out: &str,
) -> Result<J::Report, Failure<J::Fault>>
    ensures made { IfOk result (λ report. HasMadeInto Y.Disk.meaning (IsWithoutDay Y.Disk.meaning (Y.answers system.now) (Y.opens system.now (folder_of_path out.now)))
        (λ written. J.writes job.now (F.files source.old) written report)
        (λ before. replace ≡ false → IsFree (J.names job.now) before)) }
    // That a file is there is told only where one of the names has one.
    ensures exists { IsErrOf result (OfWork J.look.exists)
        → IsInTheWay Y.Disk.meaning (Y.opens system.now (folder_of_path out.now)) (IsFree (J.names job.now)) }
    // That the folder can't be read is told only where a call of its disk has failed.
    ensures unread { IsErrOf result (OfWork J.look.unread) → HasFailed Y.Disk.meaning (Y.opens system.now (folder_of_path out.now)) }
    ensures fault { IfErr result (IsUnplacedInto J.look J.Fault.no_memory (J.fails job.now (F.files source.old))
        (ComesToItsEnd (J.writes job.now (F.files source.old))) replace) }
    ensures inputs { OnOk result (J.finds_day job.now (Y.answers system.now) (F.files source.old) false) }
    // That a day is open is told only where it is: in the folder for the new files, or in one from which the work reads.
    ensures open_day { IsErrOf result (Failure.Folder FolderFault.DayOpen)
        → HasOpenDayIn Y.Disk.meaning (Y.answers system.now) (Y.opens system.now (folder_of_path out.now)) ⊎ J.finds_day job.now (Y.answers system.now) (F.files source.old) true }
    ensures kept { F.files source.new ≡ F.files source.old }
{
    let Some(folder) = folder_text(out) else {
        return Err(Failure::Folder(FolderFault::Unopened));
    };
    // The work says nothing meanwhile.
    let mut said: Vec<u8> = Vec::new(alloc);
    make_into(alloc, job, replace, source, system, folder, &mut said)
}
