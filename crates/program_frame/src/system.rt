//! The system that a program runs on, as far as it puts new files into a folder.

ghost use Rattle.std.specs.Prelude.{◌≡◌, ◌⊎◌, List, ℕ, false, true, IfErr, IfOk, IfSome, IsErr, IsErrOf, OnOk};
ghost use Rattle.files_in_place.specs.Recovery.{OthersAreWhole};
ghost use Rattle.folders.specs.declared.source.LoadFault.TheVariants.{NoMemory};
ghost use Rattle.program_frame.specs.BesideDay.{HasOpenDayIn, IsWithoutDay};
ghost use Rattle.program_frame.specs.Jobs.{ComesToItsEnd, IsRunFailure};
ghost use Rattle.program_frame.specs.PlaceFaults.{IsOfLock};
ghost use Rattle.program_frame.specs.Placing.{HasPutInto};

use crate::beside::Beside;
use crate::ending::Failure;
use crate::folder::{FolderFault, PlaceFault};
use crate::in_place::run_in_place;
use crate::job::Work;
use byte_io::Bytes;
use files_in_place::{Disk, SystemDisk};
use folders::{DiskSource, LoadFault, MissingFolder, Source, folder_of};
use std::alloc::Global;
use std::fs::{self, File};
use std::io::{self, ErrorKind, Write};
use std::rt::{Files, Runtime};
use std::thread::Threads;

// How often a call that a signal interrupts is made.
const MAX_TRIES: usize = 1000;

/// The system that a program runs on, as far as it opens folders, and looks for files beside those that it reads.
pub trait System: Beside {
    /// A folder that is open.
    type Disk: Disk + Drop;

    // this is the folder of a path
    ghost opens: { Self → List ℕ → Self.Disk → Type 0 };

    /// Opens the folder of a path, which no other run has as long as the disk is there. `None` where nothing has this path.
    ///
    /// `Folder(InUse)` where another run has it, `Folder(Unopened)` where it is none or the system refuses it, `NoMemory` where
    /// memory is refused.
    fn open(&self, alloc: Global, path: &str) -> Result<Option<Self::Disk>, PlaceFault>
        ensures opened { IfOk result (λ found. IfSome found (opens self.now path.now)) }
        // Of the files that recovery leaves alone, all bytes are on the disk.
        ensures on_disk { IfOk result (λ found. IfSome found (λ disk. Self.Disk.meaning.keeps_promises
            → OthersAreWhole (Self.Disk.meaning.seen disk) (Self.Disk.meaning.is_whole disk))) }
        ensures fault { IfErr result IsOfLock };

    /// Whether a file has the path: a link is one, and a folder is none. `false` where the system doesn't say.
    fn is_there(&self, path: &[u8]) -> bool;
}

/// The system itself.
#[derive(Drop)]
pub struct Host<'a, R: Runtime + Files<File = File> + Threads> {
    rt: &'a R,
}

impl<'a, R: Runtime + Files<File = File> + Threads> Host<'a, R> {
    /// The system of a runtime.
    pub fn new(rt: &'a R) -> Host<'a, R> {
        Host { rt }
    }
}

// Whether a file has the path: a link is one, and a folder is none. An error where the system doesn't say.
fn is_file_there<R: Files>(rt: &R, path: &str) -> io::Result<bool> {
    for _ in 0..MAX_TRIES {
        match fs::symlink_metadata(rt, path) {
            Ok(found) => return Ok(!found.is_dir()),
            Err(e) => match e.kind() {
                ErrorKind::NotFound | ErrorKind::NotADirectory => return Ok(false),
                ErrorKind::Interrupted => {}
                _ => return Err(e),
            },
        }
    }
    Err(io::Error::from(ErrorKind::Interrupted))
}

// What is said of two folders of which one can't be found: they are not the same. An error where memory is refused.
fn not_found(error: io::Error) -> Result<bool, LoadFault>
    ensures other { IfOk result (λ is. is ≡ false) }
    ensures memory { IfErr result (λ fault. fault ≡ NoMemory) }
{
    if error.kind() == ErrorKind::OutOfMemory {
        Err(LoadFault::NoMemory)
    } else {
        Ok(false)
    }
}

impl<'a, R: Runtime + Files<File = File> + Threads> System for Host<'a, R> {
    ghost use Rattle.std.specs.Prelude.{◌≡◌, ◌++◌, ◌∷◌, []};

    type Disk = SystemDisk<R>;

    ghost opens = { λ host path disk. disk.path ≡ path ++ 47 ∷ [] };

    fn open(&self, alloc: Global, path: &str) -> Result<Option<SystemDisk<R>>, PlaceFault> {
        if let Ok(false) = fs::exists(self.rt, path) {
            return Ok(None);
        }
        Ok(Some(SystemDisk::open(self.rt.clone()?, alloc, path)?))
    }

    fn is_there(&self, path: &[u8]) -> bool {
        let Ok(text) = str::from_utf8(path) else {
            return false;
        };
        matches!(is_file_there(self.rt, text), Ok(true))
    }
}

impl<'a, R: Runtime + Files<File = File> + Threads> Beside for Host<'a, R> {
    // contracts know nothing of what a file of the system holds
    ghost answers = { λ host path answer. Unit {0} };

    ghost lies = { λ host path folder. Unit {0} };

    fn read_if_there(&self, alloc: Global, path: &[u8]) -> Result<Option<Bytes>, LoadFault> {
        let Ok(text) = str::from_utf8(path) else {
            return Err(LoadFault::CannotRead);
        };
        if !is_file_there(self.rt, text)? {
            return Ok(None);
        }
        Ok(Some(DiskSource::new(self.rt.clone()?).load(alloc, path)?))
    }

    fn lies_in(&self, _alloc: Global, path: &[u8], folder: &str) -> Result<bool, LoadFault> {
        let Ok(own) = str::from_utf8(folder_of(path)) else {
            return Ok(false);
        };
        let own = match fs::canonicalize(self.rt, own) {
            Ok(own) => own,
            Err(error) => return not_found(error),
        };
        match fs::canonicalize(self.rt, folder) {
            Ok(folder) => Ok(own == folder),
            Err(error) => not_found(error),
        }
    }
}

// Does the work of a program where nothing has the path of the folder for its files: none can be written.
fn run_nowhere<J: Work, S: Source, E: Write>(
    alloc: Global,
    job: &J,
    source: &mut S,
    err: &mut E,
) -> Result<J::Report, Failure<J::Fault>>
    ensures refused { IsErr result }
    ensures no_day { ¬ IsErrOf result (Failure.Folder FolderFault.DayOpen) }
    ensures fault { IfErr result
        (IsRunFailure (J.fails job.now (S.files source.old)) J.Fault.no_memory (ComesToItsEnd (J.writes job.now (S.files source.old)))) }
    ensures kept { S.files source.new ≡ S.files source.old }
{
    let fault = match job.work(alloc, source, &mut MissingFolder::new(), err) {
        Ok(_) => return Err(Failure::Folder(FolderFault::Unopened)),
        Err(fault) => fault,
    };
    // No file is told of, where it is the folder that is not there.
    if J::is_unwritten(&fault) {
        return Err(Failure::Folder(FolderFault::Unopened));
    }
    Err(Failure::Work(fault))
}

/// Does the work of a program, and puts its files into the folder of a path: see [`run_in_place`]. No other run has the folder
/// meanwhile.
pub fn run_into<J: Work, S: Source, Y: System, E: Write>(
    alloc: Global,
    job: &J,
    source: &mut S,
    system: &Y,
    out: &str,
    err: &mut E,
) -> Result<J::Report, Failure<J::Fault>>
    ensures placed { IfOk result (λ report. HasPutInto Y.Disk.meaning (IsWithoutDay Y.Disk.meaning (Y.answers system.now) (Y.opens system.now out.now))
        (λ written. J.writes job.now (S.files source.old) written report)) }
    ensures inputs { OnOk result (J.finds_day job.now (Y.answers system.now) (S.files source.old) false) }
    // That a day is open is said only where it is: in the folder of the path, or by the log that its mark names, or in a folder from which
    // the work reads.
    ensures open_day { IsErrOf result (Failure.Folder FolderFault.DayOpen) → HasOpenDayIn Y.Disk.meaning (Y.answers system.now) (Y.opens system.now out.now)
        ⊎ J.finds_day job.now (Y.answers system.now) (S.files source.old) true }
    ensures fault { IfErr result
        (IsRunFailure (J.fails job.now (S.files source.old)) J.Fault.no_memory (ComesToItsEnd (J.writes job.now (S.files source.old)))) }
    ensures kept { S.files source.new ≡ S.files source.old }
{
    match system.open(alloc, out)? {
        Some(disk) => run_in_place(alloc, job, source, system, disk, err).ended,
        None => run_nowhere(alloc, job, source, err),
    }
}
