//! Sets of files over a disk in memory that keeps its promises, as they are stopped, fail or crash.

ghost use Rattle.std.specs.Prelude.{◌≡◌, false, IfOk};
ghost use Rattle.files_in_place.specs.Folder.{Name, is_reserved};
ghost use Rattle.memory_disk.specs.Outcomes.{IsWhole};

use crate::sets::{
    NEW, OLD, TextFile, folder_that_fails, has_just, old_folder, put_files, write_files,
};
use byte_io::Bytes;
use files_in_place::{Disk, DiskFault, FileSet, RecoveryFault, recover};
use memory_disk::{DiskCall, MemoryDisk, do_calls};
use std::alloc::{AllocError, Global};
use std::process::Abort;
use std::test::Fail;

// In how many of its ways a crash is tried.
const WAYS: u64 = 4;

// Of the calls of a run, the first that `finish` makes, the first that puts a file in place or may do so, and how many there are.
const FIRST_OF_FINISH: u64 = 6;

const FIRST_OF_COMMIT: u64 = 12;

const CALLS_OF_RUN: u64 = 25;

// More calls than a recovery makes.
const CALLS_OF_RECOVERY: u64 = 40;

// A number that stands for all choices of a crash: such numbers lie far apart.
fn choices_of(way: u64) -> u64 {
    way.wrapping_add(1).wrapping_mul(0x9E37_79B9_7F4A_7C15) >> 20
}

// Whether a crash leaves these files, in each way that is tried.
fn leaves_just(alloc: Global, disk: &MemoryDisk, files: &[TextFile]) -> Result<bool, DiskFault> {
    for way in 0..WAYS {
        let mut left = disk.left(choices_of(way))?;
        if !has_just(alloc, &mut left, files)? {
            return Ok(false);
        }
    }
    Ok(true)
}

// A disk without files on which calls are done, of which the latest is the first: a file is made, and brought to the disk.
fn disk_of_calls(alloc: Global) -> Result<MemoryDisk, DiskFault> {
    let calls = [
        DiskCall::SyncFolder,
        DiskCall::SyncFile(Bytes::from_slice(alloc, b"A")?),
        DiskCall::Create(Bytes::from_slice(alloc, b"A")?),
    ];
    let mut disk = MemoryDisk::new(alloc);
    do_calls(&mut disk, &calls)?;
    Ok(disk)
}

#[test]
fn calls_are_done_from_the_last_to_the_first(rt: HostRuntime) -> Result<(), Fail> {
    let disk = disk_of_calls(rt.alloc())?;
    assert!(rt; leaves_just(rt.alloc(), &disk, &[("A", "")])?);
    Ok(())
}

// A folder in which new files were put in place.
fn new_folder(alloc: Global) -> Result<MemoryDisk, Fail> {
    let mut set = FileSet::new(alloc, old_folder(alloc)?);
    put_files(&mut set)?;
    Ok(set.into_disk())
}

#[test]
fn new_files_are_on_the_disk(rt: HostRuntime) -> Result<(), Fail> {
    let disk = new_folder(rt.alloc())?;
    assert!(rt; leaves_just(rt.alloc(), &disk, &NEW)?);
    Ok(())
}

// Recovers, and tells whether the new files are found; all old ones are, where they aren't.
fn finds_new(rt: &impl Abort, alloc: Global, disk: &mut MemoryDisk) -> Result<bool, Fail> {
    disk.allow(u64::MAX);
    recover(alloc, disk)?;
    let is_new = has_just(alloc, disk, &NEW)?;
    assert!(rt; is_new || has_just(alloc, disk, &OLD)?);
    Ok(is_new)
}

// What the next start finds after a crash, in how many of the ways the new files.
fn count_new(rt: &impl Abort, alloc: Global, disk: &MemoryDisk) -> Result<u64, Fail> {
    let mut new = 0u64;
    for way in 0..WAYS {
        let mut left = disk.left(choices_of(way))?;
        if finds_new(rt, alloc, &mut left)? {
            new = new.saturating_add(1);
        }
    }
    Ok(new)
}

// A disk on which a run was stopped after so many calls.
fn stopped_run(alloc: Global, calls: u64) -> Result<MemoryDisk, AllocError> {
    let mut disk = old_folder(alloc)?;
    disk.allow(calls);
    let mut set = FileSet::new(alloc, disk);
    let _ = put_files(&mut set);
    Ok(set.into_disk())
}

// A run that is stopped, a start after it whose recovery is stopped, and then a crash; or one start more without a crash.
// Whether that recovery came to its end, and after how many of the crashes the new files are found.
fn stop_and_crash(
    rt: &impl Abort,
    alloc: Global,
    calls: u64,
    more_calls: u64,
) -> Result<(bool, u64), Fail> {
    let mut disk = stopped_run(alloc, calls)?;
    disk.allow(more_calls);
    let ended = recover(alloc, &mut disk).is_ok();
    let new = count_new(rt, alloc, &disk)?;
    finds_new(rt, alloc, &mut disk)?;
    Ok((ended, new))
}

// The same of recoveries that are stopped after ever more calls, until one is not: how often the old files are found, and the new.
fn count_found(rt: &impl Abort, alloc: Global, calls: u64) -> Result<(u64, u64), Fail> {
    let mut old = 0u64;
    let mut new = 0u64;
    for more_calls in 0..CALLS_OF_RECOVERY {
        let (ended, found) = stop_and_crash(rt, alloc, calls, more_calls)?;
        new = new.saturating_add(found);
        old = old.saturating_add(WAYS.saturating_sub(found));
        if ended {
            break;
        }
    }
    Ok((old, new))
}

#[test]
fn a_stopped_program_leaves_the_old_files_or_the_new(rt: HostRuntime) -> Result<(), Fail> {
    let mut old = 0u64;
    let mut new = 0u64;
    // The calls around the moment from which on the new files count.
    for calls in FIRST_OF_COMMIT - 1..20 {
        let (found_old, found_new) = count_found(&rt, rt.alloc(), calls)?;
        old = old.saturating_add(found_old);
        new = new.saturating_add(found_new);
    }
    assert!(rt; old > 20 && new > 20);
    Ok(())
}

// A start: recovery, and a set after it.
fn start(alloc: Global, disk: MemoryDisk) -> Result<FileSet<MemoryDisk>, RecoveryFault>
    requires whole { (n : Name) → is_reserved n ≡ false → IsWhole disk.calls n }
{
    let mut disk = disk;
    recover(alloc, &mut disk)?;
    Ok(FileSet::new(alloc, disk))
}

// Whether the start after a crash puts the new files in place.
fn puts_after_crash(alloc: Global, disk: &MemoryDisk, way: u64) -> Result<bool, Fail> {
    let mut set = start(alloc, disk.left(choices_of(way))?)?;
    put_files(&mut set)?;
    let mut after = set.into_disk();
    Ok(has_just(alloc, &mut after, &NEW)?)
}

// The same after a run that was stopped after so many calls, in each way of the crash that is tried.
fn put_after_crashes(alloc: Global, calls: u64) -> Result<bool, Fail> {
    let disk = stopped_run(alloc, calls)?;
    for way in 0..WAYS {
        if !puts_after_crash(alloc, &disk, way)? {
            return Ok(false);
        }
    }
    Ok(true)
}

#[test]
fn after_a_crash_the_next_run_puts_its_files_in_place(rt: HostRuntime) -> Result<(), Fail> {
    for calls in 0..=CALLS_OF_RUN {
        assert!(rt; put_after_crashes(rt.alloc(), calls)?);
    }
    Ok(())
}

// What a set leaves whose finish fails, and that is abandoned: whether both were so as they have to be.
fn fails_to_finish<D: Disk + Drop>(set: &mut FileSet<D>, is_begun: bool) -> bool {
    write_files(set).is_ok() && set.finish().is_err() && set.abandon().is_err() == is_begun
}

// A set whose finish fails at a call and is abandoned, and a crash after that: in how many of its ways the next start then finds
// the new files. They are found only where putting them in place had begun; the set can't be abandoned then.
fn new_after_failed_finish(rt: &impl Abort, alloc: Global, calls: u64) -> Result<u64, Fail> {
    let is_begun = calls >= FIRST_OF_COMMIT;
    let mut set = FileSet::new(alloc, folder_that_fails(alloc, calls)?);
    let is_so = fails_to_finish(&mut set, is_begun);
    let new = count_new(rt, alloc, &set.into_disk())?;
    assert!(rt; is_so && (is_begun || new == 0));
    Ok(new)
}

#[test]
fn a_failed_finish_is_abandoned_or_left_to_the_next_start(rt: HostRuntime) -> Result<(), Fail> {
    let mut new = 0u64;
    for calls in FIRST_OF_FINISH..CALLS_OF_RUN {
        new = new.saturating_add(new_after_failed_finish(&rt, rt.alloc(), calls)?);
    }
    assert!(rt; new > 20);
    Ok(())
}
