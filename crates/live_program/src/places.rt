//! The system that a day runs on, as far as it opens folders.

ghost use Rattle.std.specs.Prelude.{IfOk, IfErr, IfSome, List, ℕ};
ghost use Rattle.files_in_place.specs.Recovery.{OthersAreWhole};
ghost use Rattle.program_frame.specs.PlaceFaults.{IsOfLock};
ghost use Rattle.live_program.specs.Marks.{IsUnfound};

use byte_io::Bytes;
use disk_in_place::{DiskInPlace, SystemDiskInPlace};
use files_in_place::SystemDisk;
use folders::LoadFault;
use open_day::LOG_NAME;
use program_frame::{Beside, FolderFault, Host, PlaceFault};
use std::alloc::Global;
use std::fs::{self, File};
use std::rt::{Files, Runtime};
use std::thread::Threads;

/// The system that a day runs on, as far as it opens the folder of its log, and looks for the logs of others.
pub trait Places: Beside {
    /// A folder that is open.
    type Disk: DiskInPlace + Drop;

    // this is the folder of a path
    ghost opens: { Self → List ℕ → Self.Disk → Type 0 };

    // the second path is the whole one of the log in the folder of the first
    ghost names_log: { Self → List ℕ → List ℕ → Type 0 };

    /// Opens the folder of a path, which no other run has as long as the disk is there. `None` where nothing has this path.
    ///
    /// `Folder(InUse)` where another run has it, `Folder(Unopened)` where it is none or the system refuses it, `NoMemory` where
    /// memory is refused.
    fn open(&self, alloc: Global, path: &str) -> Result<Option<Self::Disk>, PlaceFault>
        ensures opened { IfOk result (λ found. IfSome found (opens self.now path.now)) }
        // Of the files that recovery leaves alone, all bytes are on the disk.
        ensures on_disk { IfOk result (λ found. IfSome found (λ disk. Self.Disk.meaning.keeps_promises
            → OthersAreWhole (Self.Disk.meaning.seen disk) (Self.Disk.meaning.is_whole disk))) }
        ensures fault { IfErr result IsOfLock };

    /// The whole path of the log in the folder of a path, links followed: it names the log wherever a program is started.
    ///
    /// `Folder(Unopened)` where the folder can't be found, `NoMemory` where memory is refused.
    fn log_path(&self, alloc: Global, folder: &str) -> Result<Bytes, PlaceFault>
        ensures named { IfOk result (names_log self.now folder.now) }
        ensures fault { IfErr result IsUnfound };
}

// What is said of a folder whose whole path can't be had.
fn not_found(why: LoadFault) -> PlaceFault
    ensures fault { IsUnfound result }
{
    match why {
        LoadFault::NoMemory => PlaceFault::NoMemory,
        _ => PlaceFault::Folder(FolderFault::Unopened),
    }
}

/// The system itself.
#[derive(Drop)]
pub struct HostPlaces<'a, R: Runtime + Files<File = File> + Threads> {
    rt: &'a R,
}

impl<'a, R: Runtime + Files<File = File> + Threads> HostPlaces<'a, R> {
    /// The system of a runtime.
    pub fn new(rt: &'a R) -> HostPlaces<'a, R> {
        HostPlaces { rt }
    }
}

impl<'a, R: Runtime + Files<File = File> + Threads> Places for HostPlaces<'a, R> {
    ghost use Rattle.std.specs.Prelude.{◌≡◌, ◌++◌, ◌∷◌, []};

    type Disk = SystemDiskInPlace<R>;

    ghost opens = { λ host path disk. disk.path ≡ path ++ 47 ∷ [] };

    // contracts know nothing of where a folder of the system lies
    ghost names_log = { λ places folder log. Unit {0} };

    fn open(&self, alloc: Global, path: &str) -> Result<Option<SystemDiskInPlace<R>>, PlaceFault> {
        if let Ok(false) = fs::exists(self.rt, path) {
            return Ok(None);
        }
        let disk = SystemDisk::open(self.rt.clone()?, alloc, path)?;
        let disk = SystemDiskInPlace::new(disk, self.rt.clone()?, alloc, path)?;
        Ok(Some(disk))
    }

    fn log_path(&self, alloc: Global, folder: &str) -> Result<Bytes, PlaceFault> {
        let whole = match fs::canonicalize(self.rt, folder) {
            Ok(whole) => whole,
            Err(error) => return Err(not_found(LoadFault::from(error))),
        };
        let mut log = Vec::from_slice(alloc, whole.as_str().as_bytes())?;
        if !log.ends_with(b"/") {
            log.extend_from_slice(b"/")?;
        }
        log.extend_from_slice(LOG_NAME)?;
        Ok(Bytes::from_vec(log))
    }
}

impl<'a, R: Runtime + Files<File = File> + Threads> Beside for HostPlaces<'a, R> {
    // contracts know nothing of what a file of the system holds
    ghost answers = { λ places path answer. Unit {0} };

    ghost lies = { λ places path folder. Unit {0} };

    fn read_if_there(&self, alloc: Global, path: &[u8]) -> Result<Option<Bytes>, LoadFault> {
        Host::new(self.rt).read_if_there(alloc, path)
    }

    fn lies_in(&self, alloc: Global, path: &[u8], folder: &str) -> Result<bool, LoadFault> {
        Host::new(self.rt).lies_in(alloc, path, folder)
    }
}
