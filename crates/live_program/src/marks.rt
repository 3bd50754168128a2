//! The marks of a day in the folders from which it reads, where its log lies elsewhere: whoever comes to the tables finds the day.

ghost use Rattle.std.specs.Prelude.{◌≡◌, ◌≢◌, ◌⊎◌, ◌++◌, ◌∷◌, [], true, false, ℕ, List, Ok, Some, IfErr, IfOk, IsErrOf, OnOk};
ghost use Rattle.std.specs.List.{Contains};
ghost use Rattle.files_in_place.specs.Folder.{Name};
ghost use Rattle.files_in_place.specs.Recovery.{OthersAreWhole};
ghost use Rattle.folders.specs.Paths.{folder_of_path};
ghost use Rattle.office_run.specs.WholeRun.{IsReadFault, IsSaid};
ghost use Rattle.open_day.specs.OpenDay.{is_day_file, mark_name};
ghost use Rattle.program_frame.specs.BesideDay.{HasOpenDayIn};
ghost use Rattle.program_frame.specs.InputDays.{IsNamedBy};
ghost use Rattle.live_program.specs.Endings.{no_memory};
ghost use Rattle.live_program.specs.Marks.{unmarked_for, AreMarked, AreMarkedAmong, IsMarked, IsMarkPut, IsMarkRefused};
ghost use Rattle.live_program.specs.OtherDays.{others_answer, IsOtherRefusal};

use crate::answers::write_file;
use crate::failure::LiveFailure;
use crate::lived::Lived;
use crate::marking::OtherFolders;
use crate::options::Options;
use crate::places::Places;
use byte_io::Bytes;
use files_in_place::{Disk, DiskFault};
use folders::{Folder, Source, file_name, folder_of};
use office_run::{CloseFault, ServeFault, read_setup};
use open_day::{LOG_NAME, MARK_NAME, marked_log};
use program_frame::{Beside, Failure, FolderFault, InPlace, Job, PlaceFault, Work, run_in_place};
use station_lines::SetupEntry;
use std::alloc::{AllocError, Global};
use std::io::Write;
use std::str;

/// The folders that have the mark of a day, and what it says.
#[derive(Drop)]
pub(crate) struct Marks {
    // Their paths, each once as it is written.
    folders: Vec<Bytes>,
    // The whole path of the day's log.
    log: Bytes,
}

// The work of putting the mark of a day into a folder: the whole path of the log.
#[derive(Clone, Copy, Debug)]
struct MarkJob<'a> {
    log: &'a [u8],
}

// What is said of a mark that is in its place: nothing.
#[derive(Clone, Copy, Debug)]
struct Marked;

impl<'a> Job for MarkJob<'a> {
    ghost use Rattle.std.specs.Prelude.{◌≡◌, ◌∷◌, [], false};
    ghost use Rattle.live_program.specs.Endings.{says_unwritten};
    ghost use Rattle.live_program.specs.Marks.{mark_file, IsMarkUnwritten};

    type Report = Marked;

    type Fault = LiveFailure;

    ghost writes = { λ job files written _. written ≡ mark_file job.log.now ∷ [] };

    ghost fails = { λ job files fault. IsMarkUnwritten fault };

    ghost loads = { λ job files before after fault. IsMarkUnwritten fault };

    ghost is_unwritten = { says_unwritten };

    // It reads nothing.
    ghost finds_day = { λ job answers files found. found ≡ false };

    fn refuse_open_day<S: Source, B: Beside>(
        &self,
        _alloc: Global,
        _source: &mut S,
        _system: &B,
    ) -> Result<(), Failure<LiveFailure>> {
        Ok(())
    }

    fn is_unwritten(fault: &LiveFailure) -> bool
        ensures value { result ≡ says_unwritten fault.now }
    {
        matches!(
            fault,
            LiveFailure::Serve(ServeFault::Close(CloseFault::Write(_)))
        )
    }
}

impl<'a> Work for MarkJob<'a> {
    fn work<S: Source, F: Folder, E: Write>(
        &self,
        alloc: Global,
        _source: &mut S,
        folder: &mut F,
        _err: &mut E,
    ) -> Result<Marked, LiveFailure> {
        let name = Bytes::from_slice(alloc, MARK_NAME)?;
        write_file(folder, name, self.log)?;
        Ok(Marked)
    }
}

// Why the folder of the file of a path has not got the mark. That a day is open there, or that this is not known, is said as it is of any
// program's work; want of memory is no fault of the folder; all else is that it can't be marked.
fn unmarked(alloc: Global, path: &[u8], why: Failure<LiveFailure>) -> Failure<LiveFailure>
    ensures value { (result ≡ Failure.Work no_memory) ⊎ (result ≡ unmarked_for path.now why) }
{
    match why {
        Failure::Folder(FolderFault::DayOpen) => Failure::Folder(FolderFault::DayOpen),
        Failure::Folder(FolderFault::UnknownDay(log, said)) => {
            Failure::Folder(FolderFault::UnknownDay(log, said))
        }
        Failure::Work(LiveFailure::Serve(ServeFault::NoMemory)) => {
            Failure::Work(LiveFailure::Serve(ServeFault::NoMemory))
        }
        _ => Failure::Work(cannot_mark(alloc, folder_of(path))),
    }
}

// That the folder of a path can't be marked.
fn cannot_mark(alloc: Global, folder: &[u8]) -> LiveFailure
    ensures value { (result ≡ no_memory) ⊎ (result ≡ LiveFailure.Unmarked folder.now) }
{
    match Bytes::from_slice(alloc, folder) {
        Ok(folder) => LiveFailure::Unmarked(folder),
        Err(AllocError) => LiveFailure::Serve(ServeFault::NoMemory),
    }
}

// Opens the folder of a path whose bytes are known.
fn open_folder<Y: Places>(
    alloc: Global,
    places: &Y,
    folder: &[u8],
) -> Result<Y::Disk, Failure<LiveFailure>>
    ensures opened { IfOk result (Y.opens places.now folder.now) }
    ensures on_disk { IfOk result (λ disk. Y.Disk.meaning.keeps_promises → OthersAreWhole (Y.Disk.meaning.seen disk) (Y.Disk.meaning.is_whole disk)) }
    ensures fault { IfErr result (λ why. (why ≡ Failure.Work no_memory) ⊎ ((fault : FolderFault) × (why ≡ Failure.Folder fault) × (fault ≢ FolderFault.DayOpen))) }
{
    let Ok(path) = str::from_utf8(folder) else {
        return Err(Failure::Folder(FolderFault::Unopened));
    };
    match places.open(alloc, path)? {
        Some(disk) => Ok(disk),
        None => Err(Failure::Folder(FolderFault::Unopened)),
    }
}

// Puts the mark of a day into the folder of the file of a path, which no other run has meanwhile: what an earlier run left there is brought
// to its end, and nothing is written where a day of another is open there. A mark that is there names a log that is closed, or the day's
// own.
fn put_mark<S: Source, Y: Places>(
    alloc: Global,
    others: &OtherFolders<'_, Y>,
    source: &mut S,
    path: &[u8],
    log: &[u8],
) -> Result<(), Failure<LiveFailure>>
    ensures put { OnOk result (IsMarkPut Y.Disk.meaning (others_answer (Y.answers others.now.beside.now) (Y.lies others.now.beside.now) others.now.out.now)
        (Y.opens others.now.beside.now (folder_of_path path.now)) log.now) }
    ensures open_day { IsErrOf result (Failure.Folder FolderFault.DayOpen) → HasOpenDayIn Y.Disk.meaning (others_answer (Y.answers others.now.beside.now) (Y.lies others.now.beside.now) others.now.out.now)
        (Y.opens others.now.beside.now (folder_of_path path.now)) }
    ensures refused { IfErr result (IsMarkRefused path.now) }
    ensures kept { S.files source.new ≡ S.files source.old }
{
    let mut nothing: Vec<u8> = Vec::new(alloc);
    let disk = match open_folder(alloc, others.beside, folder_of(path)) {
        Ok(disk) => disk,
        Err(why) => return Err(unmarked(alloc, path, why)),
    };
    let job = MarkJob { log };
    let InPlace { ended, disk: _disk } = run_in_place(
        alloc,
        &job,
        source,
        others,
        disk,
        &mut nothing,
    );
    match ended {
        Ok(Marked) => Ok(()),
        Err(why) => Err(unmarked(alloc, path, why)),
    }
}

// Whether a folder of this path is among these.
fn has_folder(folders: &[Bytes], folder: &[u8]) -> bool
    ensures value { result ≡ true → Contains folders.now folder.now }
{
    folders.iter().any(|own| own.as_slice() == folder)
}

// Whether a path ends with a name of a day's own files.
fn is_own_file(path: &[u8]) -> bool
    ensures value { result ≡ is_day_file path.now }
{
    let name = file_name(path);
    name == LOG_NAME || name == MARK_NAME
}

// That the file of a path has the name of one of a day's own.
fn own_name(alloc: Global, path: &[u8]) -> LiveFailure
    ensures value { (result ≡ no_memory) ⊎ (result ≡ LiveFailure.OwnName path.now) }
{
    match Bytes::from_slice(alloc, path) {
        Ok(path) => LiveFailure::OwnName(path),
        Err(AllocError) => LiveFailure::Serve(ServeFault::NoMemory),
    }
}

// Whether the file of a path lies in the folder of the log. An error where memory is refused.
fn is_in_out<Y: Places>(
    alloc: Global,
    others: &OtherFolders<'_, Y>,
    path: &[u8],
) -> Result<bool, PlaceFault>
    ensures lies { IfOk result (λ is. is ≡ true → Y.lies others.now.beside.now path.now others.now.out.now) }
    ensures memory { IfErr result (λ fault. fault ≡ PlaceFault.NoMemory) }
{
    match others.beside.lies_in(alloc, path, others.out) {
        Ok(is) => Ok(is),
        Err(_) => Err(PlaceFault::NoMemory),
    }
}

// Adds the path of a folder that has the mark.
fn add_folder(alloc: Global, folders: &mut Vec<Bytes>, folder: &[u8]) -> Result<(), AllocError>
    ensures added { OnOk result (folders.new.items ≡ folders.old.items ++ folder.now ∷ []) }
{
    let own = Bytes::from_slice(alloc, folder)?;
    folders.push(own)?;
    Ok(())
}

// Marks the folder of the file of a path, unless it is that of the log, or has been marked. A file whose name is that of a day's own is
// refused: the log or the mark would take its place.
fn mark_beside_file<S: Source, Y: Places>(
    alloc: Global,
    others: &OtherFolders<'_, Y>,
    source: &mut S,
    marks: &mut Marks,
    path: &[u8],
) -> Result<(), Failure<LiveFailure>>
    requires marked { AreMarkedAmong Y.Disk.meaning (Y.answers others.now.beside.now) (Y.lies others.now.beside.now) (Y.opens others.now.beside.now) others.now.out.now
        marks.old.log marks.old.folders.items }
    ensures marked { OnOk result (AreMarkedAmong Y.Disk.meaning (Y.answers others.now.beside.now) (Y.lies others.now.beside.now) (Y.opens others.now.beside.now) others.now.out.now
        marks.new.log marks.new.folders.items) }
    ensures put { OnOk result (IsMarked Y.Disk.meaning (Y.answers others.now.beside.now) (Y.lies others.now.beside.now) (Y.opens others.now.beside.now) others.now.out.now
        marks.old.log path.now) }
    ensures log { marks.new.log ≡ marks.old.log }
    ensures own { OnOk result (is_day_file path.now ≡ false) }
    ensures open_day { IsErrOf result (Failure.Folder FolderFault.DayOpen) → HasOpenDayIn Y.Disk.meaning (others_answer (Y.answers others.now.beside.now) (Y.lies others.now.beside.now) others.now.out.now)
        (Y.opens others.now.beside.now (folder_of_path path.now)) }
    ensures refused { IfErr result (IsMarkRefused path.now) }
    ensures kept { S.files source.new ≡ S.files source.old }
{
    if is_own_file(path) {
        return Err(Failure::Work(own_name(alloc, path)));
    }
    let folder = folder_of(path);
    if is_in_out(alloc, others, path)? {
        return Ok(());
    }
    if has_folder(&marks.folders, folder) {
        return Ok(());
    }
    put_mark(alloc, others, source, path, marks.log.as_slice())?;
    match add_folder(alloc, &mut marks.folders, folder) {
        Ok(()) => Ok(()),
        Err(AllocError) => Err(Failure::Work(LiveFailure::Serve(ServeFault::NoMemory))),
    }
}

// Marks the folders of the files that an entry names.
fn mark_entry<S: Source, Y: Places>(
    alloc: Global,
    others: &OtherFolders<'_, Y>,
    source: &mut S,
    marks: &mut Marks,
    entry: &SetupEntry,
) -> Result<(), Failure<LiveFailure>>
    requires marked { AreMarkedAmong Y.Disk.meaning (Y.answers others.now.beside.now) (Y.lies others.now.beside.now) (Y.opens others.now.beside.now) others.now.out.now
        marks.old.log marks.old.folders.items }
    ensures marked { OnOk result (AreMarkedAmong Y.Disk.meaning (Y.answers others.now.beside.now) (Y.lies others.now.beside.now) (Y.opens others.now.beside.now) others.now.out.now
        marks.new.log marks.new.folders.items) }
    ensures put { OnOk result ((path : List ℕ) → IsNamedBy entry.now path
        → IsMarked Y.Disk.meaning (Y.answers others.now.beside.now) (Y.lies others.now.beside.now) (Y.opens others.now.beside.now) others.now.out.now marks.old.log path) }
    ensures log { marks.new.log ≡ marks.old.log }
    ensures own { OnOk result ((path : List ℕ) → IsNamedBy entry.now path → is_day_file path ≡ false) }
    ensures open_day { IsErrOf result (Failure.Folder FolderFault.DayOpen) → (path : List ℕ) × IsNamedBy entry.now path
        × HasOpenDayIn Y.Disk.meaning (others_answer (Y.answers others.now.beside.now) (Y.lies others.now.beside.now) others.now.out.now) (Y.opens others.now.beside.now (folder_of_path path)) }
    ensures refused { IfErr result (λ why. (path : List ℕ) × IsNamedBy entry.now path × IsMarkRefused path why) }
    ensures kept { S.files source.new ≡ S.files source.old }
{
    match entry {
        SetupEntry::Table { dbf, dbt, .. } => {
            mark_beside_file(alloc, others, source, marks, dbf.as_slice())?;
            match dbt {
                Some(dbt) => mark_beside_file(alloc, others, source, marks, dbt.as_slice()),
                None => Ok(()),
            }
        }
        SetupEntry::Index { ndx, .. } => {
            mark_beside_file(alloc, others, source, marks, ndx.as_slice())
        }
        SetupEntry::Station { .. } => Ok(()),
    }
}

// What the setup of a day says.
fn entries_of<S: Source>(
    alloc: Global,
    source: &mut S,
    setup: &str,
) -> Result<Vec<SetupEntry>, LiveFailure>
    ensures said { IfOk result (λ entries. IsSaid (S.files source.old) setup.now (Ok entries.items)) }
    ensures fault { IfErr result (λ why. (fault : ServeFault) × IsReadFault (S.files source.old) setup.now fault × (why ≡ LiveFailure.Serve fault)) }
    ensures kept { S.files source.new ≡ S.files source.old }
{
    let setup = Bytes::from_slice(alloc, setup.as_bytes())?;
    Ok(read_setup(alloc, source, &setup)?)
}

/// Puts the mark of a day into each folder from which it reads, but for the one of its log: that of its setup, and those of the tables, memo
/// files and indexes that the setup names. Where a folder can't be marked, or a day of another is open in it, the day is not begun; marks
/// that were put before stay, and count for nothing as long as the log that they name is not open.
pub(crate) fn put_marks<S: Source, Y: Places>(
    alloc: Global,
    options: &Options<'_>,
    source: &mut S,
    places: &Y,
) -> Result<Marks, Failure<LiveFailure>>
    ensures marked { OnOk result (AreMarked Y.Disk.meaning (Y.answers places.now) (Y.lies places.now) (Y.opens places.now) (Y.names_log places.now)
        (S.files source.old) options.now) }
    ensures log { IfOk result (λ marks. Y.names_log places.now options.now.out.now marks.log) }
    ensures open_day { IsErrOf result (Failure.Folder FolderFault.DayOpen)
        → (folder : List ℕ) × HasOpenDayIn Y.Disk.meaning (others_answer (Y.answers places.now) (Y.lies places.now) options.now.out.now) (Y.opens places.now folder) }
    ensures refused { IfErr result (IsOtherRefusal (S.files source.old) options.now) }
    ensures kept { S.files source.new ≡ S.files source.old }
{
    let mut marks = Marks {
        folders: Vec::new(alloc),
        log: places.log_path(alloc, options.out)?,
    };
    let others = OtherFolders {
        beside: places,
        out: options.out,
    };
    let entries = match entries_of(alloc, source, options.setup) {
        Ok(entries) => entries,
        Err(why) => return Err(Failure::Work(why)),
    };
    mark_beside_file(alloc, &others, source, &mut marks, options.setup.as_bytes())?;
    for entry in &entries {
        mark_entry(alloc, &others, source, &mut marks, entry)?;
    }
    Ok(marks)
}

// Takes the mark of a day out of the folder of a disk, where it is this day's still: after the closing that of another may stand there.
fn take_mark<D: Disk>(alloc: Global, disk: &mut D, log: &[u8]) -> Result<(), DiskFault>
    ensures taken { D.meaning.keeps_promises → OnOk result (D.meaning.seen disk.new mark_name ≢ Some log.now) }
    ensures others { D.meaning.keeps_promises → (n : Name) → n ≢ mark_name → D.meaning.seen disk.new n ≡ D.meaning.seen disk.old n }
    ensures others_mark { D.meaning.keeps_promises → D.meaning.seen disk.old mark_name ≢ Some log.now
        → D.meaning.seen disk.new mark_name ≡ D.meaning.seen disk.old mark_name }
{
    match marked_log(alloc, disk)? {
        Some(own) => {
            if own.as_slice() != log {
                return Ok(());
            }
            disk.remove(MARK_NAME)?;
            disk.sync_folder()
        }
        None => Ok(()),
    }
}

/// Takes the marks of a day that was closed out of their folders: they stay where it was not. One that stays for another reason counts for
/// nothing, since the log that it names is closed: so a folder that can't be opened, or whose disk fails, changes nothing.
pub(crate) fn end_marks<Y: Places, F: Drop>(
    alloc: Global,
    places: &Y,
    marks: &Marks,
    ended: &Result<Lived, F>,
) {
    if ended.is_err() {
        return;
    }
    for folder in &marks.folders {
        if let Ok(mut disk) = open_folder(alloc, places, folder.as_slice()) {
            let _ = take_mark(alloc, &mut disk, marks.log.as_slice());
        }
    }
}
