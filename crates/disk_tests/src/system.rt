//! A folder of the system: what recovery makes of it, what a set leaves in it, and its lock.

use crate::sets::TextFile;
use files_in_place::{Disk, FileSet, SetFault, SystemDisk, recover};
use std::alloc::Global;
use std::fs::{File, Permissions};
use std::os::unix::fs::{PermissionsExt, symlink};
use std::rt::{Files, Runtime};
use std::test::Fail;
use std::thread::Threads;
use std::{fs, io};

/// The path of a file in a folder.
pub(crate) fn path_in<R: Files + AllocGlobal>(
    rt: &R,
    folder: &str,
    name: &str,
) -> io::Result<String> {
    Ok(format!(in rt.alloc(); "{folder}/{name}")?)
}

/// A folder with the files, where the test runs.
pub(crate) fn make_folder<R: Files + AllocGlobal>(
    rt: &R,
    folder: &str,
    files: &[TextFile],
) -> io::Result<()> {
    if fs::exists(rt, folder)? {
        fs::remove_dir_all(rt, folder)?;
    }
    fs::create_dir(rt, folder)?;
    for (name, text) in files {
        let path = path_in(rt, folder, name)?;
        fs::write(rt, path.as_str(), text.as_bytes())?;
    }
    Ok(())
}

// How many entries a folder has.
fn count_entries<R: Runtime + Files>(rt: &R, folder: &str) -> io::Result<usize> {
    let mut count = 0usize;
    for entry in fs::read_dir(rt, folder)? {
        entry?;
        count = count.saturating_add(1);
    }
    Ok(count)
}

// Whether the folder has the file.
fn has_file<R: Runtime + Files + AllocGlobal>(
    rt: &R,
    folder: &str,
    (name, text): &TextFile,
) -> io::Result<bool> {
    let path = path_in(rt, folder, name)?;
    Ok(fs::exists(rt, path.as_str())? && fs::read_to_string(rt, path.as_str())?.as_str() == *text)
}

/// Whether the folder has the files, and no more.
pub(crate) fn has_just<R: Runtime + Files + AllocGlobal>(
    rt: &R,
    folder: &str,
    files: &[TextFile],
) -> io::Result<bool> {
    for file in files {
        if !has_file(rt, folder, file)? {
            return Ok(false);
        }
    }
    Ok(count_entries(rt, folder)? == files.len())
}

/// The disk of a folder.
pub(crate) fn open_disk<R: Runtime + Files<File = File> + AllocGlobal + Threads>(
    rt: &R,
    alloc: Global,
    folder: &str,
) -> Result<SystemDisk<R>, Fail> {
    Ok(SystemDisk::open(rt.clone()?, alloc, folder)?)
}

// Whether the folder is recovered.
fn recover_folder<R: Runtime + Files<File = File> + AllocGlobal + Threads>(
    rt: &R,
    alloc: Global,
    folder: &str,
) -> Result<bool, Fail> {
    let mut disk = open_disk(rt, alloc, folder)?;
    Ok(recover(alloc, &mut disk).is_ok())
}

// What a crash left, and what recovery makes of it: once the list has its name the new files, and before it the old ones.
const RECOVERED: [(&[TextFile], &[TextFile]); 2] = [
    (
        &[
            ("A", "new a"),
            ("B", "old b"),
            ("C", "another"),
            ("~niqarthu~B", "new b"),
            ("~niqarthu.list", "A\nB\n~niqarthu: 2 names\n"),
        ],
        &[("A", "new a"), ("B", "new b"), ("C", "another")],
    ),
    (
        &[
            ("A", "old a"),
            ("~niqarthu~A", "new a"),
            ("~niqarthu~~niqarthu.list", "A\n~niqarthu: 1 names\n"),
        ],
        &[("A", "old a")],
    ),
];

// Whether recovery makes these files of those.
fn makes<R: Runtime + Files<File = File> + AllocGlobal + Threads>(
    rt: &R,
    (left, recovered): (&[TextFile], &[TextFile]),
) -> Result<bool, Fail> {
    make_folder(rt, "recovered_folder", left)?;
    let ended = recover_folder(rt, rt.alloc(), "recovered_folder")?;
    Ok(ended && has_just(rt, "recovered_folder", recovered)?)
}

#[test]
fn what_a_crash_left_is_finished_or_removed(rt: HostRuntime) -> Result<(), Fail> {
    for row in RECOVERED {
        assert!(rt; makes(&rt, row)?);
    }
    fs::remove_dir_all(&rt, "recovered_folder")?;
    Ok(())
}

/// Two new files, one of them in two pieces.
pub(crate) fn write_two<D: Disk + Drop>(set: &mut FileSet<D>) -> Result<(), SetFault> {
    set.begin(b"A")?;
    set.write(b"new")?;
    set.write(b" a")?;
    set.begin(b"B")?;
    set.write(b"new b")
}

/// Two old files.
pub(crate) const OLD: [TextFile; 2] = [("A", "old a"), ("C", "another")];

const NEW: [TextFile; 3] = [("A", "new a"), ("B", "new b"), ("C", "another")];

// Writes the two files, and puts them in place or abandons them.
fn write_set<R: Runtime + Files<File = File> + AllocGlobal + Threads>(
    rt: &R,
    alloc: Global,
    folder: &str,
    is_put: bool,
) -> Result<bool, Fail> {
    let mut set = FileSet::new(alloc, open_disk(rt, alloc, folder)?);
    write_two(&mut set)?;
    if is_put {
        set.finish()?;
        has_just(rt, folder, &NEW).map_err(Fail::from)
    } else {
        set.abandon()?;
        has_just(rt, folder, &OLD).map_err(Fail::from)
    }
}

#[test]
fn a_set_is_put_in_place_or_abandoned(rt: HostRuntime) -> Result<(), Fail> {
    let folder = "folder_of_a_set";
    for is_put in [false, true] {
        make_folder(&rt, folder, &OLD)?;
        assert!(rt; write_set(&rt, rt.alloc(), folder, is_put)?);
    }
    fs::remove_dir_all(&rt, folder)?;
    Ok(())
}

// More files than are synced at a time.
const MANY_FILES: usize = 40;

// New files, each of which has its own name as its text.
fn write_many<D: Disk + Drop>(alloc: Global, set: &mut FileSet<D>) -> Result<(), Fail> {
    for number in 0..MANY_FILES {
        let name = format!(in alloc; "F{number}")?;
        set.begin(name.as_bytes())?;
        set.write(name.as_bytes())?;
    }
    Ok(())
}

// How many of them the folder has.
fn count_many<R: Files + AllocGlobal>(rt: &R, folder: &str) -> io::Result<usize> {
    let mut count = 0usize;
    for number in 0..MANY_FILES {
        let name = format!(in rt.alloc(); "F{number}")?;
        let path = path_in(rt, folder, name.as_str())?;
        if fs::read_to_string(rt, path.as_str())?.as_str() == name.as_str() {
            count = count.saturating_add(1);
        }
    }
    Ok(count)
}

// How many of the files a set has put in place.
fn put_many<R: Runtime + Files<File = File> + AllocGlobal + Threads>(
    rt: &R,
    alloc: Global,
    folder: &str,
) -> Result<usize, Fail> {
    make_folder(rt, folder, &[])?;
    let mut set = FileSet::new(alloc, open_disk(rt, alloc, folder)?);
    write_many(alloc, &mut set)?;
    set.finish()?;
    count_many(rt, folder).map_err(Fail::from)
}

#[test]
fn more_files_are_put_in_place_than_are_synced_at_a_time(rt: HostRuntime) -> Result<(), Fail> {
    let folder = "folder_of_many_files";
    assert!(rt; put_many(&rt, rt.alloc(), folder)? == MANY_FILES);
    fs::remove_dir_all(&rt, folder)?;
    Ok(())
}

// Whether the set's file is there and what the link led to is as it was.
fn replaces_link<R: Runtime + Files<File = File> + AllocGlobal + Threads>(
    rt: &R,
    alloc: Global,
    folder: &str,
) -> Result<bool, Fail> {
    let led_to = [("kept", "kept")];
    make_folder(rt, "led_to", &led_to)?;
    make_folder(rt, folder, &[("C", "another")])?;
    symlink(rt, "../led_to/kept", path_in(rt, folder, "A")?.as_str())?;
    symlink(rt, "../led_to/none", path_in(rt, folder, "B")?.as_str())?;
    let is_new = write_set(rt, alloc, folder, true)?;
    let is_kept = has_just(rt, "led_to", &led_to)?;
    fs::remove_dir_all(rt, "led_to")?;
    Ok(is_new && is_kept)
}

#[test]
fn a_link_is_replaced_and_not_followed(rt: HostRuntime) -> Result<(), Fail> {
    let folder = "folder_of_links";
    assert!(rt; replaces_link(&rt, rt.alloc(), folder)?);
    fs::remove_dir_all(&rt, folder)?;
    Ok(())
}

// Whether a link without an end goes and a folder stays, both of reserved names.
fn removes_link_only<R: Runtime + Files<File = File> + AllocGlobal + Threads>(
    rt: &R,
    alloc: Global,
    folder: &str,
) -> Result<bool, Fail> {
    make_folder(rt, folder, &[("A", "old a")])?;
    let inner = path_in(rt, folder, "~niqarthu~folder")?;
    fs::create_dir(rt, inner.as_str())?;
    symlink(rt, "none", path_in(rt, folder, "~niqarthu~link")?.as_str())?;
    let ended = recover_folder(rt, alloc, folder)?;
    let is_folder_there = fs::exists(rt, inner.as_str())?;
    fs::remove_dir(rt, inner.as_str())?;
    Ok(ended && is_folder_there && has_just(rt, folder, &[("A", "old a")])?)
}

#[test]
fn reserved_names_are_removed_but_folders(rt: HostRuntime) -> Result<(), Fail> {
    let folder = "folder_of_reserved_names";
    assert!(rt; removes_link_only(&rt, rt.alloc(), folder)?);
    fs::remove_dir_all(&rt, folder)?;
    Ok(())
}

// Whether a list that is a link stops recovery, and nothing is touched.
fn refuses_linked_list<R: Runtime + Files<File = File> + AllocGlobal + Threads>(
    rt: &R,
    alloc: Global,
    folder: &str,
) -> Result<bool, Fail> {
    let files = [
        ("A", "old a"),
        ("list", "A\n~niqarthu: 1 names\n"),
        ("~niqarthu~A", "new a"),
    ];
    make_folder(rt, folder, &files)?;
    let list = path_in(rt, folder, "~niqarthu.list")?;
    symlink(rt, "list", list.as_str())?;
    let ended = recover_folder(rt, alloc, folder)?;
    fs::remove_file(rt, list.as_str())?;
    Ok(!ended && has_just(rt, folder, &files)?)
}

#[test]
fn a_list_that_is_a_link_is_a_failure(rt: HostRuntime) -> Result<(), Fail> {
    let folder = "folder_of_a_linked_list";
    assert!(rt; refuses_linked_list(&rt, rt.alloc(), folder)?);
    fs::remove_dir_all(&rt, folder)?;
    Ok(())
}

// The mode of a file, and that of a new file which takes its place.
fn mode_after<R: Runtime + Files<File = File> + AllocGlobal + Threads>(
    rt: &R,
    alloc: Global,
    folder: &str,
    mode: u32,
) -> Result<u32, Fail> {
    make_folder(rt, folder, &OLD)?;
    let path = path_in(rt, folder, "A")?;
    fs::set_permissions(rt, path.as_str(), Permissions::from_mode(mode))?;
    write_set(rt, alloc, folder, true)?;
    Ok(fs::metadata(rt, path.as_str())?.permissions().mode() & 0o7777)
}

#[test]
fn a_new_file_has_the_mode_of_the_one_that_it_replaces(rt: HostRuntime) -> Result<(), Fail> {
    let folder = "folder_of_modes";
    for mode in [0o600, 0o640, 0o664, 0o755] {
        assert!(rt; mode_after(&rt, rt.alloc(), folder, mode)? == mode);
    }
    fs::remove_dir_all(&rt, folder)?;
    Ok(())
}
