//! What a folder of the system refuses: names of folders, files that nobody may write, bytes without a file, and a second disk.

use crate::system::{OLD, has_just, make_folder, open_disk, path_in, write_two};
use files_in_place::{Disk, FileSet, LockFault, SetFault, SystemDisk};
use std::alloc::Global;
use std::fs::{self, File, Permissions};
use std::os::unix::fs::PermissionsExt;
use std::rt::{Files, Runtime};
use std::test::Fail;
use std::thread::Threads;

// Whether the two files are refused, and what was written of them is removed.
fn refuses_two<R: Runtime + Files<File = File> + AllocGlobal + Threads>(
    rt: &R,
    alloc: Global,
    folder: &str,
) -> Result<bool, Fail> {
    let mut set = FileSet::new(alloc, open_disk(rt, alloc, folder)?);
    let is_refused = write_two(&mut set) == Err(SetFault::Failed);
    set.abandon()?;
    Ok(is_refused)
}

// Whether a file of a folder's name isn't begun, and the old files are there after that.
fn refuses_name_of_folder<R: Runtime + Files<File = File> + AllocGlobal + Threads>(
    rt: &R,
    alloc: Global,
    folder: &str,
) -> Result<bool, Fail> {
    make_folder(rt, folder, &[("A", "old a")])?;
    let inner = path_in(rt, folder, "B")?;
    fs::create_dir(rt, inner.as_str())?;
    let is_refused = refuses_two(rt, alloc, folder)?;
    fs::remove_dir(rt, inner.as_str())?;
    Ok(is_refused && has_just(rt, folder, &[("A", "old a")])?)
}

#[test]
fn no_file_takes_the_name_of_a_folder(rt: HostRuntime) -> Result<(), Fail> {
    let folder = "folder_of_a_folder";
    assert!(rt; refuses_name_of_folder(&rt, rt.alloc(), folder)?);
    fs::remove_dir_all(&rt, folder)?;
    Ok(())
}

// Whether a file that nobody may write isn't begun, and the old files are there after that.
fn refuses_protected<R: Runtime + Files<File = File> + AllocGlobal + Threads>(
    rt: &R,
    alloc: Global,
    folder: &str,
) -> Result<bool, Fail> {
    make_folder(rt, folder, &OLD)?;
    let path = path_in(rt, folder, "A")?;
    fs::set_permissions(rt, path.as_str(), Permissions::from_mode(0o444))?;
    let is_refused = refuses_two(rt, alloc, folder)?;
    Ok(is_refused && has_just(rt, folder, &OLD)?)
}

#[test]
fn a_file_that_nobody_may_write_is_not_replaced(rt: HostRuntime) -> Result<(), Fail> {
    let folder = "folder_of_a_protected_file";
    assert!(rt; refuses_protected(&rt, rt.alloc(), folder)?);
    fs::remove_dir_all(&rt, folder)?;
    Ok(())
}

// Why what has a path is not opened as a folder.
fn why_unopened<R: Runtime + Files<File = File> + AllocGlobal + Threads>(
    rt: &R,
    path: &str,
) -> Result<Option<LockFault>, Fail> {
    Ok(SystemDisk::open(rt.clone()?, rt.alloc(), path).err())
}

#[test]
fn what_is_no_folder_is_not_opened(rt: HostRuntime) -> Result<(), Fail> {
    make_folder(&rt, "folder_of_a_file", &[("A", "old a")])?;
    for path in ["no folder has this name", "folder_of_a_file/A", ""] {
        assert!(rt; why_unopened(&rt, path)? == Some(LockFault::Failed));
    }
    fs::remove_dir_all(&rt, "folder_of_a_file")?;
    Ok(())
}

#[test]
fn bytes_go_to_the_file_made_last_until_it_is_synced(rt: HostRuntime) -> Result<(), Fail> {
    let folder = "folder_of_one_file";
    let (one, other) = (b"~niqarthu~A".as_slice(), b"~niqarthu~B".as_slice());
    make_folder(&rt, folder, &[])?;
    let mut disk = open_disk(&rt, rt.alloc(), folder)?;
    let before = disk.append(one, b"a").is_err() && disk.sync_file(one).is_ok();
    disk.create(one)?;
    let beside = disk.append(other, b"b").is_err() && disk.create(one).is_err();
    disk.append(one, b"a")?;
    disk.sync_file(one)?;
    let after = disk.append(one, b"a").is_err();
    assert!(rt; before && beside && after && has_just(&rt, folder, &[("~niqarthu~A", "a")])?);
    fs::remove_dir_all(&rt, folder)?;
    Ok(())
}

#[test]
fn a_file_that_loses_its_name_takes_no_bytes(rt: HostRuntime) -> Result<(), Fail> {
    let folder = "folder_of_lost_names";
    make_folder(&rt, folder, &[("B", "b")])?;
    let mut disk = open_disk(&rt, rt.alloc(), folder)?;
    disk.create(b"A")?;
    disk.rename(b"B", b"A")?;
    let replaced = disk.append(b"A", b"a").is_err() && disk.sync_file(b"A").is_ok();
    disk.create(b"C")?;
    disk.remove(b"C")?;
    let removed = disk.append(b"C", b"c").is_err() && disk.sync_file(b"C").is_ok();
    assert!(rt; replaced && removed && has_just(&rt, folder, &[("A", "b")])?);
    fs::remove_dir_all(&rt, folder)?;
    Ok(())
}

// Why a second disk is not given while the first is there.
fn why_refused_beside<R: Runtime + Files<File = File> + AllocGlobal + Threads>(
    rt: &R,
    folder: &str,
) -> Result<Option<LockFault>, Fail> {
    let _first = open_disk(rt, rt.alloc(), folder)?;
    why_unopened(rt, folder)
}

// Whether a second disk is refused while the first is there, and given after it; and whether no file was made.
fn is_locked_once<R: Runtime + Files<File = File> + AllocGlobal + Threads>(
    rt: &R,
    folder: &str,
) -> Result<bool, Fail> {
    make_folder(rt, folder, &OLD)?;
    let beside = why_refused_beside(rt, folder)?;
    let after = why_unopened(rt, folder)?;
    Ok(beside == Some(LockFault::InUse) && after.is_none() && has_just(rt, folder, &OLD)?)
}

#[test]
fn a_folder_is_locked_once(rt: HostRuntime) -> Result<(), Fail> {
    let folder = "locked_folder";
    assert!(rt; is_locked_once(&rt, folder)?);
    fs::remove_dir_all(&rt, folder)?;
    Ok(())
}
