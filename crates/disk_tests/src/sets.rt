//! Refused calls of sets of new files, over a disk in memory.

ghost use Rattle.std.specs.Prelude.{IfOk};
ghost use Rattle.files_in_place.specs.Disk.{IsSynced};
ghost use Rattle.files_in_place.specs.Recovery.{IsClean};
ghost use Rattle.memory_disk.specs.Seen.{seen_after};
ghost use Rattle.memory_disk.specs.Outcomes.{IsWhole, MayLeave};

use byte_io::ByteSink;
use files_in_place::{Disk, DiskFault, FileSet, SetFault};
use folders::{DiskFolder, FinishFault, Folder};
use memory_disk::MemoryDisk;
use std::alloc::{AllocError, Global};
use std::marker::Brand;
use std::test::Fail;

/// A name, and what its file holds.
pub(crate) type TextFile = (&'static str, &'static str);

/// Two files that are written again, and one of somebody else.
pub(crate) const OLD: [TextFile; 3] = [("A", "old a"), ("B", "old b"), ("C", "another")];

/// The same once the new files are in place.
pub(crate) const NEW: [TextFile; 4] = [
    ("A", "new a, longer"),
    ("B", ""),
    ("C", "another"),
    ("D", "new d"),
];

/// Writes the new files, one of them in two pieces and one empty.
pub(crate) fn write_files<D: Disk + Drop>(set: &mut FileSet<D>) -> Result<(), SetFault> {
    set.begin(b"A")?;
    set.write(b"new a,")?;
    set.write(b" longer")?;
    set.begin(b"B")?;
    set.begin(b"D")?;
    set.write(b"new d")
}

/// Writes the new files, and puts them in place.
pub(crate) fn put_files<D: Disk + Drop>(set: &mut FileSet<D>) -> Result<(), SetFault> {
    write_files(set)?;
    set.finish()
}

/// A folder in memory with the old files.
pub(crate) fn old_folder(alloc: Global) -> Result<MemoryDisk, AllocError>
    ensures synced { IfOk result (λ disk. IsSynced (seen_after disk.calls) (IsWhole disk.calls) (MayLeave disk.calls)) }
    ensures clean { IfOk result (λ disk. IsClean (seen_after disk.calls)) }
{
    let disk = MemoryDisk::new(alloc).with_file(b"A", b"old a")?;
    disk.with_file(b"B", b"old b")?.with_file(b"C", b"another")
}

/// The same, of which one call fails, after so many.
pub(crate) fn folder_that_fails(alloc: Global, calls: u64) -> Result<MemoryDisk, AllocError>
    ensures synced { IfOk result (λ disk. IsSynced (seen_after disk.calls) (IsWhole disk.calls) (MayLeave disk.calls)) }
    ensures clean { IfOk result (λ disk. IsClean (seen_after disk.calls)) }
{
    let mut disk = old_folder(alloc)?;
    disk.fail_once(calls);
    Ok(disk)
}

// Whether a disk has the file.
fn has_file<D: Disk>(
    alloc: Global,
    disk: &mut D,
    (name, text): &TextFile,
) -> Result<bool, DiskFault> {
    match disk.read(alloc, name.as_bytes())? {
        Some(bytes) => Ok(bytes.as_slice() == text.as_bytes()),
        None => Ok(false),
    }
}

// Whether a disk has these files and no others.
fn has_files<D: Disk>(alloc: Global, disk: &mut D, files: &[TextFile]) -> Result<bool, DiskFault> {
    for file in files {
        if !has_file(alloc, disk, file)? {
            return Ok(false);
        }
    }
    Ok(disk.list(alloc)?.len() == files.len())
}

/// Whether the folder has these files and no others.
pub(crate) fn has_just(
    alloc: Global,
    disk: &mut MemoryDisk,
    files: &[TextFile],
) -> Result<bool, DiskFault> {
    disk.allow(u64::MAX);
    has_files(alloc, disk, files)
}

// How many calls of the disk it takes to write the new files.
const CALLS_OF_WRITING: u64 = 6;

// Whether a set is failed by one of them, takes no more then, and once it is abandoned puts the new files in place.
fn is_abandoned<D: Disk + Drop>(set: &mut FileSet<D>) -> Result<bool, SetFault> {
    let is_failed = write_files(set).is_err();
    let is_closed = set.begin(b"E") == Err(SetFault::Closed)
        && set.write(b"e") == Err(SetFault::Closed)
        && set.finish() == Err(SetFault::Closed);
    set.abandon()?;
    put_files(set)?;
    Ok(is_failed && is_closed)
}

// The same of a set whose disk fails after so many calls.
fn puts_after_failure(alloc: Global, calls: u64) -> Result<bool, Fail> {
    let mut set = FileSet::new(alloc, folder_that_fails(alloc, calls)?);
    let is_closed = is_abandoned(&mut set)?;
    let mut after = set.into_disk();
    Ok(is_closed && has_just(alloc, &mut after, &NEW)?)
}

#[test]
fn a_failed_set_takes_no_more_until_it_is_abandoned(rt: HostRuntime) -> Result<(), Fail> {
    for calls in 0..CALLS_OF_WRITING {
        assert!(rt; puts_after_failure(rt.alloc(), calls)?);
    }
    Ok(())
}

// Whether each name that no file of a set may have is refused.
fn refuses_names<D: Disk + Drop>(set: &mut FileSet<D>) -> bool {
    let names: [&[u8]; 10] = [
        b"",
        b".",
        b"..",
        b"~niqarthu~A",
        b"~niqarthu.list",
        b"a/b",
        b"a\nb",
        b"a\0b",
        b"a\xffb",
        &[b'N'; 246],
    ];
    for name in names {
        if set.begin(name) != Err(SetFault::BadName) {
            return false;
        }
    }
    true
}

// Whether a set refuses bytes without a file, bad names, and a name twice, and puts its file in place.
fn refuses_all<D: Disk + Drop>(set: &mut FileSet<D>) -> Result<bool, SetFault> {
    let before = set.write(b"a") == Err(SetFault::NotBegun) && refuses_names(set);
    set.begin(b"A")?;
    let again = set.begin(b"A") == Err(SetFault::SameName) && refuses_names(set);
    set.write(b"new a")?;
    set.finish()?;
    Ok(before && again)
}

#[test]
fn refused_names_change_nothing(rt: HostRuntime) -> Result<(), Fail> {
    let mut set = FileSet::new(rt.alloc(), old_folder(rt.alloc())?);
    let is_refused = refuses_all(&mut set)?;
    let mut disk = set.into_disk();
    let files = [("A", "new a"), ("B", "old b"), ("C", "another")];
    assert!(rt; is_refused && has_just(rt.alloc(), &mut disk, &files)?);
    Ok(())
}

// New files for a folder in memory.
type NewFiles = DiskFolder<MemoryDisk, Brand>;

// Whether a file is begun, and what the new files tell then.
fn begun(files: &mut NewFiles, name: &[u8]) -> (bool, Option<SetFault>) {
    (files.begin(name).is_ok(), files.fault())
}

// The same of four names, one after the other, and of bytes before them.
fn told_of(files: &mut NewFiles) -> [(bool, Option<SetFault>); 5] {
    [
        (files.write(b"x").is_ok(), files.fault()),
        begun(files, b"N.DBF"),
        begun(files, b"~niqarthu~N.DBF"),
        begun(files, b"a/b"),
        begun(files, b"N.DBF"),
    ]
}

#[test]
fn why_a_file_was_not_begun(rt: HostRuntime) -> Result<(), Fail> {
    let mut files: NewFiles = DiskFolder::new(rt.alloc(), old_folder(rt.alloc())?);
    let wanted = [
        (false, Some(SetFault::NotBegun)),
        (true, Some(SetFault::NotBegun)),
        (false, Some(SetFault::BadName)),
        (false, Some(SetFault::BadName)),
        (false, Some(SetFault::SameName)),
    ];
    assert!(rt; told_of(&mut files) == wanted);
    Ok(())
}

// What is told when files are given up twice whose disk fails at once, and are put in place then.
fn given_up_twice(mut files: NewFiles) -> ([Result<(), SetFault>; 2], Result<(), FinishFault>) {
    let given_up = [files.abandon(), files.abandon()];
    let (ended, _disk) = files.finish();
    (given_up, ended)
}

#[test]
fn files_that_are_not_removed_are_left_to_the_next_start(rt: HostRuntime) -> Result<(), Fail> {
    let files: NewFiles = DiskFolder::new(rt.alloc(), folder_that_fails(rt.alloc(), 0)?);
    let wanted = [Err(SetFault::Failed), Err(SetFault::Closed)];
    assert!(rt; given_up_twice(files) == (wanted, Err(FinishFault::Unfinished)));
    Ok(())
}
