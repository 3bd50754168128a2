//! A folder of a system that refuses one call.

use byte_io::Bytes;
use files_in_place::{Disk, DiskFault, LockFault, SystemCalls, SystemDisk};
use std::alloc::Global;
use std::cell::Cell;
use std::fs::{File, Metadata, Permissions, TryLockError};
use std::io::ErrorKind;
use std::rt::Files;
use std::test::Fail;
use std::thread::Threads;
use std::{fs, io};

// How many calls the work makes: to open the folder, and to use it.
const CALLS_TO_OPEN: usize = 3;

const CALLS_OF_WORK: usize = 26;

// The call in the work whose refusal is no failure: a new file keeps the group that the system gave it.
const CALL_FOR_GROUP: usize = 11;

// The system, but that it refuses one call, once.
#[derive(Drop)]
struct Refusing<'a, R> {
    rt: &'a R,
    kind: ErrorKind,
    // How many calls go before it.
    before: Cell<usize>,
}

impl<R> Refusing<'_, R> {
    fn turn(&self) -> io::Result<()> {
        let before = self.before.get();
        self.before.set(before.wrapping_sub(1));
        if before == 0 {
            Err(io::Error::from(self.kind))
        } else {
            Ok(())
        }
    }

    // A call that std begins again itself where a signal interrupts it.
    fn turn_in_std(&self) -> io::Result<()> {
        match self.turn() {
            Err(e) if e.kind() == ErrorKind::Interrupted => Ok(()),
            outcome => outcome,
        }
    }
}

impl<'a, R: SystemCalls> SystemCalls for Refusing<'a, R> {
    ghost use Rattle.files_in_place.specs.System.{nothing_told};

    type File = R::File;

    type Names = R::Names;

    ghost answers = { nothing_told };

    fn find(&self, path: &str) -> io::Result<Metadata> {
        self.turn()?;
        self.rt.find(path)
    }

    fn follow(&self, path: &str) -> io::Result<Metadata> {
        self.turn()?;
        self.rt.follow(path)
    }

    fn open(&self, path: &str) -> io::Result<R::File> {
        self.turn_in_std()?;
        self.rt.open(path)
    }

    fn create(&self, path: &str) -> io::Result<R::File> {
        self.turn_in_std()?;
        self.rt.create(path)
    }

    fn append(&self, file: &mut R::File, bytes: &[u8]) -> io::Result<()> {
        self.turn_in_std()?;
        self.rt.append(file, bytes)
    }

    fn read(&self, alloc: Global, file: &mut R::File) -> io::Result<Vec<u8>> {
        self.turn_in_std()?;
        self.rt.read(alloc, file)
    }

    fn sync(&self, file: &R::File) -> io::Result<()> {
        self.turn()?;
        self.rt.sync(file)
    }

    fn sync_all(&self, files: &[R::File]) -> io::Result<()> {
        self.turn_in_std()?;
        self.rt.sync_all(files)
    }

    fn try_lock(&self, file: &R::File) -> Result<(), TryLockError> {
        match self.turn_in_std() {
            Ok(()) => self.rt.try_lock(file),
            Err(e) => Err(TryLockError::Error(e)),
        }
    }

    fn metadata(&self, file: &R::File) -> io::Result<Metadata> {
        self.turn()?;
        self.rt.metadata(file)
    }

    fn set_mode(&self, file: &R::File, mode: Permissions) -> io::Result<()> {
        self.turn()?;
        self.rt.set_mode(file, mode)
    }

    fn set_group(&self, path: &str, group: u32) -> io::Result<()> {
        self.turn()?;
        self.rt.set_group(path, group)
    }

    fn rename(&self, from: &str, to: &str) -> io::Result<()> {
        self.turn()?;
        self.rt.rename(from, to)
    }

    fn remove(&self, path: &str) -> io::Result<()> {
        self.turn()?;
        self.rt.remove(path)
    }

    fn open_names(&self, path: &str) -> io::Result<R::Names> {
        self.turn()?;
        self.rt.open_names(path)
    }

    fn read_names(&self, names: &mut R::Names, bytes: &mut [u8]) -> io::Result<usize> {
        self.turn()?;
        self.rt.read_names(names, bytes)
    }
}

// Syncs the file A and one that isn't there together.
fn sync_two<R: SystemCalls + Drop>(
    alloc: Global,
    disk: &mut SystemDisk<R>,
) -> Result<(), DiskFault> {
    let mut names = Vec::new(alloc);
    names.push(Bytes::from_slice(alloc, b"A")?)?;
    names.push(Bytes::from_slice(alloc, b"B")?)?;
    disk.sync_files(&names)
}

// Each call of a disk, on a folder that has the file A.
fn work<R: SystemCalls + Drop>(alloc: Global, disk: &mut SystemDisk<R>) -> Result<(), DiskFault> {
    let lies = b"~niqarthu~A";
    disk.has(b"A")?;
    disk.read(alloc, b"A")?;
    disk.sync_file(b"A")?;
    disk.create(lies)?;
    disk.append(lies, b"new a")?;
    disk.sync_file(lies)?;
    disk.rename(lies, b"A")?;
    sync_two(alloc, disk)?;
    disk.list(alloc)?;
    disk.remove(b"A")?;
    disk.sync_folder()
}

// How the work in the folder of a path ends, over a system.
fn answer_over<R: SystemCalls + Drop>(system: R, alloc: Global, folder: &str) -> Option<DiskFault> {
    match SystemDisk::open(system, alloc, folder) {
        Ok(mut disk) => work(alloc, &mut disk).err(),
        Err(LockFault::NoMemory) => Some(DiskFault::NoMemory),
        Err(_) => Some(DiskFault::Failed),
    }
}

// A folder that has the file A, where the test runs.
fn make_folder<R: Files + AllocGlobal>(rt: &R, folder: &str) -> io::Result<()> {
    if fs::exists(rt, folder)? {
        fs::remove_dir_all(rt, folder)?;
    }
    fs::create_dir(rt, folder)?;
    let path = format!(in rt.alloc(); "{folder}/A")?;
    fs::write(rt, path.as_str(), b"old a")
}

// What is answered where the call that has so many before it is refused.
fn answer_where_refused<R: Files<File = File> + AllocGlobal + Threads>(
    rt: &R,
    alloc: Global,
    folder: &str,
    before: usize,
    kind: ErrorKind,
) -> Result<Option<DiskFault>, Fail> {
    make_folder(rt, folder)?;
    let system = Refusing {
        rt,
        kind,
        before: Cell::new(before),
    };
    Ok(answer_over(system, alloc, folder))
}

// Whether each call's refusal, and no other, is the answer.
fn is_each_told<R: Files<File = File> + AllocGlobal + Threads>(
    rt: &R,
    alloc: Global,
    kind: ErrorKind,
    told: Option<DiskFault>,
) -> Result<bool, Fail> {
    let calls = CALLS_TO_OPEN + CALLS_OF_WORK;
    for before in 0..calls + 1 {
        let is_told = before < calls && before != CALLS_TO_OPEN + CALL_FOR_GROUP;
        let answer = answer_where_refused(rt, alloc, "folder_of_a_refusing_system", before, kind)?;
        if answer != told.filter(|_| is_told) {
            return Ok(false);
        }
    }
    Ok(true)
}

#[test]
fn each_refusal_of_the_system_is_told(rt: HostRuntime) -> Result<(), Fail> {
    let alloc = rt.alloc();
    for (kind, told) in [
        (ErrorKind::PermissionDenied, Some(DiskFault::Failed)),
        (ErrorKind::OutOfMemory, Some(DiskFault::NoMemory)),
        (ErrorKind::Interrupted, None),
    ] {
        assert!(rt; is_each_told(&rt, alloc, kind, told)?);
    }
    fs::remove_dir_all(&rt, "folder_of_a_refusing_system")?;
    Ok(())
}
