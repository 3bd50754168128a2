//! The making of files of a table in the folder of a path.

ghost use Rattle.std.specs.Prelude.{◌≡◌, ◌≢◌, ◌⊎◌, ◌++◌, ℕ, Bool, List, false, true, None, IfErr, IfOk, IfSome, IsErr, IsErrOf, OnOk};
ghost use Rattle.table_maker.specs.Making.{table_extension as extension_of_table};
ghost use Rattle.table_maker.specs.MadeIndex.{IsIndexName};
ghost use Rattle.table_maker.specs.Placing.{HasFailed, HasMadeInto, IsFree, IsInTheWay, IsUnplacedInto};
ghost use Rattle.program_frame.specs.BesideDay.{HasOpenDayIn, IsWithoutDay};
ghost use Rattle.program_frame.specs.Jobs.{ComesToItsEnd, IsRunFailure};
ghost use Rattle.program_frame.specs.declared.ending.Failure.TheVariants.{Work as OfWork};

use crate::files::table_extension;
use crate::in_place::make_in_place;
use crate::table_work::TableWork;
use folders::{MissingFolder, Source};
use program_frame::{Failure, FolderFault, System};
use std::alloc::Global;
use std::io::Write;

// A name without its extension. `None` where it has another.
fn without<'a>(name: &'a [u8], extension: &[u8]) -> Option<&'a [u8]>
    ensures stem { IfSome result (λ stem. name.now ≡ stem.now ++ extension.now) }
    ensures none { result ≡ None → (stem : List ℕ) → name.now ≢ stem ++ extension.now }
{
    name.strip_suffix(extension)
}

/// The stem of a table's name, and whether its extension is in capitals. `None` where the name has neither extension.
#[tactic(auto, using(crate::proofs::PlaceLaws::neither_extension))]
pub fn stem_of(name: &[u8]) -> Option<(&[u8], bool)>
    ensures stem { IfSome result (λ found. name.now ≡ found.0.now ++ extension_of_table found.1) }
    ensures none { result ≡ None → (stem : List ℕ) (in_capitals : Bool) → name.now ≢ stem ++ extension_of_table in_capitals }
{
    if let Some(stem) = without(name, table_extension(true)) {
        return Some((stem, true));
    }
    match without(name, table_extension(false)) {
        Some(stem) => Some((stem, false)),
        None => None,
    }
}

/// Whether a name may be that of an index's file: whether it ends with `.NDX` or `.ndx`.
#[tactic(auto, using(crate::proofs::PlaceLaws::name_in_capitals, crate::proofs::PlaceLaws::name_in_small_letters, crate::proofs::PlaceLaws::no_index_name))]
pub fn is_index_name(name: &[u8]) -> bool
    ensures named { result ≡ true → IsIndexName name.now }
    ensures other { result ≡ false → ¬ IsIndexName name.now }
{
    if let Some(_) = without(name, b".NDX") {
        return true;
    }
    match without(name, b".ndx") {
        Some(_) => true,
        None => false,
    }
}

// Does the work where nothing has the path of the folder: its files can't be written.
fn make_nowhere<J: TableWork, S: Source, E: Write>(
    alloc: Global,
    job: &J,
    source: &mut S,
    err: &mut E,
) -> Result<J::Report, Failure<J::Fault>>
    ensures refused { IsErr result }
    ensures no_day { ¬ IsErrOf result (Failure.Folder FolderFault.DayOpen) }
    ensures fault { IfErr result
        (IsRunFailure (J.fails job.now (S.files source.old)) J.Fault.no_memory (ComesToItsEnd (J.writes job.now (S.files source.old)))) }
    ensures kept { S.files source.new ≡ S.files source.old }
{
    let fault = match job.work(alloc, source, &mut MissingFolder::new(), err) {
        Ok(_) => return Err(Failure::Folder(FolderFault::Unopened)),
        Err(fault) => fault,
    };
    // No file is told of, where it is the folder that is not there.
    if J::is_unwritten(&fault) {
        return Err(Failure::Folder(FolderFault::Unopened));
    }
    Err(Failure::Work(fault))
}

/// Makes files of a table in the folder of a path, as [`make_in_place`] does. No other run has the folder meanwhile.
#[tactic(auto, using(crate::proofs::PlaceLaws::unopened_exists))]
pub fn make_into<J: TableWork, S: Source, Y: System, E: Write>(
    alloc: Global,
    job: &J,
    replace: bool,
    source: &mut S,
    system: &Y,
    folder: &str,
    err: &mut E,
) -> Result<J::Report, Failure<J::Fault>>
    ensures made { IfOk result (λ report. HasMadeInto Y.Disk.meaning (IsWithoutDay Y.Disk.meaning (Y.answers system.now) (Y.opens system.now folder.now))
        (λ written. J.writes job.now (S.files source.old) written report)
        (λ before. replace ≡ false → IsFree (J.names job.now) before)) }
    // That a file is there is told only where one of the names has one.
    ensures exists { IsErrOf result (OfWork J.look.exists)
        → IsInTheWay Y.Disk.meaning (Y.opens system.now folder.now) (IsFree (J.names job.now)) }
    // That the folder can't be read is told only where a call of its disk has failed.
    ensures unread { IsErrOf result (OfWork J.look.unread) → HasFailed Y.Disk.meaning (Y.opens system.now folder.now) }
    ensures fault { IfErr result (IsUnplacedInto J.look J.Fault.no_memory (J.fails job.now (S.files source.old))
        (ComesToItsEnd (J.writes job.now (S.files source.old))) replace) }
    ensures inputs { OnOk result (J.finds_day job.now (Y.answers system.now) (S.files source.old) false) }
    // That a day is open is said only where it is: in the folder of the path, or in one from which the work reads.
    ensures open_day { IsErrOf result (Failure.Folder FolderFault.DayOpen) → HasOpenDayIn Y.Disk.meaning (Y.answers system.now) (Y.opens system.now folder.now)
        ⊎ J.finds_day job.now (Y.answers system.now) (S.files source.old) true }
    ensures kept { S.files source.new ≡ S.files source.old }
{
    job.exists_is_of_names_alone();
    job.unread_is_of_the_folder_alone();
    match system.open(alloc, folder)? {
        Some(disk) => make_in_place(alloc, job, replace, source, system, disk, err).ended,
        None => make_nowhere(alloc, job, source, err),
    }
}
