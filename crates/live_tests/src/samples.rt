//! What all tests share: a setup, its files, and folders.

ghost use Rattle.std.specs.Prelude.{◌≡◌, false, IfOk};
ghost use Rattle.files_in_place.specs.Folder.{Name, is_reserved};
ghost use Rattle.memory_disk.specs.Outcomes.{IsWhole};

use byte_io::{Bytes, Failures};
use files_in_place::Disk;
use folders::{MemorySource, NamedFile};
use memory_disk::MemoryDisk;
use sample_files::TABLE;
use std::alloc::{AllocError, Global};
use std::fs::{self, File};
use std::rt::{Files, Runtime};
use std::test::Fail;

/// A setup: a table of two records and two stations.
pub(crate) const SETUP: &[u8] = b"TABLE T T.DBF\nSTATION one\nSTATION two\n";

// A file.
fn named(alloc: Global, name: &[u8], bytes: &[u8]) -> Result<NamedFile, AllocError> {
    Ok(NamedFile {
        name: Bytes::from_slice(alloc, name)?,
        bytes: Bytes::from_slice(alloc, bytes)?,
    })
}

/// A setup's files, of which so many loads are done.
pub(crate) fn source(alloc: Global, setup: &[u8], loads: u64) -> Result<MemorySource, AllocError> {
    let mut files = vec![in alloc; named(alloc, b"A.SET", setup)?]?;
    files.push(named(alloc, b"T.DBF", &TABLE)?)?;
    Ok(MemorySource {
        files,
        loads,
        failures: Failures::none(),
    })
}

/// The words of a command line for a folder, of stations that are live.
pub(crate) fn words_of(folder: &str) -> [&str; 6] {
    [
        "station_prompt",
        "--setup=A.SET",
        "--out",
        folder,
        "--today=19870315",
        "--live",
    ]
}

/// An empty folder in memory of which only so many calls are done.
pub(crate) fn empty_folder(alloc: Global, calls: u64) -> MemoryDisk
    ensures whole { (n : Name) → is_reserved n ≡ false → IsWhole result.calls n }
{
    let mut disk = MemoryDisk::new(alloc);
    disk.allow(calls);
    disk
}

/// What a crash leaves of a folder, by a number that stands for all its choices.
pub(crate) fn left_by(disk: &MemoryDisk, choices: u64) -> Result<MemoryDisk, AllocError>
    ensures whole { IfOk result (λ left. (n : Name) → is_reserved n ≡ false → IsWhole left.calls n) }
{
    let left = disk.left(choices)?;
    Ok(left)
}

// Whether the file of a name has these bytes.
fn holds<D: Disk>(alloc: Global, disk: &mut D, name: &[u8], bytes: &[u8]) -> Result<bool, Fail> {
    match disk.read(alloc, name)? {
        Some(found) => Ok(found.as_slice() == bytes),
        None => Ok(false),
    }
}

/// Whether the file of a name has these bytes on a disk.
pub(crate) fn has_file(
    alloc: Global,
    disk: &mut MemoryDisk,
    name: &[u8],
    bytes: &[u8],
) -> Result<bool, Fail> {
    disk.allow(u64::MAX);
    holds(alloc, disk, name, bytes)
}

/// Makes a folder of the system without files.
pub(crate) fn make_folder<R: Runtime + Files<File = File> + AllocGlobal>(
    rt: &R,
    folder: &str,
) -> Result<(), Fail> {
    if fs::exists(rt, folder)? {
        fs::remove_dir_all(rt, folder)?;
    }
    fs::create_dir(rt, folder)?;
    Ok(())
}

/// The file of a path of the system, where it is there.
pub(crate) fn read_file<R: Runtime + Files<File = File> + AllocGlobal>(
    rt: &R,
    path: &str,
) -> Result<Option<Vec<u8>>, Fail> {
    if fs::exists(rt, path)? {
        Ok(Some(fs::read(rt, path)?))
    } else {
        Ok(None)
    }
}

/// Whether a text is there, and this one.
pub(crate) fn is_text(found: &Option<Vec<u8>>, text: &[u8]) -> bool {
    match found {
        Some(found) => found.as_slice() == text,
        None => false,
    }
}
