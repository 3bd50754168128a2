//! Files of the system that are read, and readers that fail.

use crate::system::make_folder;
use folders::{DiskSource, LoadFault, MAX_FILE_BYTES, Source, read_whole};
use std::alloc::Global;
use std::fs::{self, File};
use std::io::{self, Read};
use std::rt::{Files, Runtime};
use std::test::Fail;

// Why the system's file of a path is not loaded, or that it has other bytes.
fn refusal<R: Runtime + Files<File = File> + AllocGlobal>(
    rt: &R,
    path: &[u8],
    bytes: &[u8],
) -> Result<Option<LoadFault>, Fail> {
    let mut source = DiskSource::new(rt.clone()?);
    match source.load(rt.alloc(), path) {
        Ok(loaded) if loaded.as_slice() == bytes => Ok(None),
        Ok(_) => Err("other bytes".into()),
        Err(fault) => Ok(Some(fault)),
    }
}

#[test]
fn what_is_no_regular_file_is_not_read(rt: HostRuntime) -> Result<(), Fail> {
    let unread: [&[u8]; 6] = [b"no_such_file", b".", b"/dev/null", b"", b"a\0b", b"\xff"];
    for path in unread {
        assert!(rt; refusal(&rt, path, b"")? == Some(LoadFault::CannotRead));
    }
    Ok(())
}

// What has the name of the list of new files in a folder: nothing, a file, a folder, or a link to nothing.
#[derive(Clone, Copy)]
enum Listed {
    Nothing,
    File,
    Folder,
    Link,
}

// A new folder with a folder in it, and a file in each. In the outer one there is a new file, and such a list.
fn make_folders<R: Runtime + Files<File = File> + AllocGlobal>(
    rt: &R,
    listed: Listed,
) -> Result<(), Fail> {
    make_folder(
        rt,
        "beside",
        &[("T.DBF", "outer"), ("~niqarthu~T.DBF", "new")],
    )?;
    make_folder(rt, "beside/in", &[("T.DBF", "inner")])?;
    let list = "beside/~niqarthu.list";
    match listed {
        Listed::Nothing => {}
        Listed::File => fs::write(rt, list, b"T.DBF\n")?,
        Listed::Folder => fs::create_dir(rt, list)?,
        Listed::Link => rt.symlink("nothing", list)?,
    }
    Ok(())
}

// Of what has the name of the list, a path, the bytes of its file, and why it is not loaded.
const BESIDE: [(Listed, &[u8], &[u8], Option<LoadFault>); 9] = [
    (Listed::Nothing, b"beside/T.DBF", b"outer", None),
    (
        Listed::Nothing,
        b"beside/~niqarthu~T.DBF",
        b"",
        Some(LoadFault::CannotRead),
    ),
    (
        Listed::Nothing,
        b"beside/T.DBF/T.DBF",
        b"",
        Some(LoadFault::CannotRead),
    ),
    (
        Listed::File,
        b"beside/T.DBF",
        b"",
        Some(LoadFault::Unrecovered),
    ),
    (
        Listed::File,
        b"beside/NONE.DBF",
        b"",
        Some(LoadFault::Unrecovered),
    ),
    (
        Listed::File,
        b"beside/~niqarthu~T.DBF",
        b"",
        Some(LoadFault::CannotRead),
    ),
    (Listed::File, b"beside/in/T.DBF", b"inner", None),
    (
        Listed::Folder,
        b"beside/T.DBF",
        b"",
        Some(LoadFault::Unrecovered),
    ),
    (
        Listed::Link,
        b"beside/T.DBF",
        b"",
        Some(LoadFault::Unrecovered),
    ),
];

#[test]
fn files_of_the_system_beside_a_list_are_not_read(rt: HostRuntime) -> Result<(), Fail> {
    for (listed, path, bytes, fault) in BESIDE {
        make_folders(&rt, listed)?;
        assert!(rt; refusal(&rt, path, bytes)? == fault);
    }
    fs::remove_dir_all(&rt, "beside")?;
    Ok(())
}

// A reader that fails after its bytes.
#[derive(Drop)]
struct BrokenReader<'a> {
    rest: &'a [u8],
    kind: io::ErrorKind,
}

impl Read for BrokenReader<'_> {
    fn read(&mut self, room: &mut [u8]) -> io::Result<usize> {
        if self.rest.is_empty() {
            return Err(io::Error::from(self.kind));
        }
        self.rest.read(room)
    }
}

// Why the bytes of a reader that fails are not read.
fn why_unread(alloc: Global, kind: io::ErrorKind) -> Option<LoadFault> {
    let rest = b"front";
    read_whole(alloc, BrokenReader { rest, kind }, 5, 10).err()
}

#[test]
fn reader_that_fails_is_told(rt: HostRuntime) -> Result<(), Fail> {
    for (kind, fault) in [
        (io::ErrorKind::PermissionDenied, LoadFault::CannotRead),
        (io::ErrorKind::UnexpectedEof, LoadFault::CannotRead),
        (io::ErrorKind::OutOfMemory, LoadFault::NoMemory),
    ] {
        assert!(rt; why_unread(rt.alloc(), kind) == Some(fault));
    }
    Ok(())
}

// Why bytes are not read where so many are expected, up to a limit, which is not over that of files.
fn refused(alloc: Global, bytes: &[u8], expected: u64, limit: usize) -> Option<LoadFault> {
    match read_whole(alloc, bytes, expected, limit.min(MAX_FILE_BYTES)) {
        Ok(read) if read.as_slice() == bytes => None,
        Ok(_) => Some(LoadFault::Unrecovered),
        Err(fault) => Some(fault),
    }
}

#[test]
fn reading_is_whole_or_refused(rt: HostRuntime) -> Result<(), Fail> {
    // The bytes, how many are expected, the limit, and whether they are read.
    let cases: [(&[u8], u64, usize, bool); 10] = [
        (b"0123456789", 10, 10, true),
        (b"0123456789", 0, 10, true),
        (b"0123456789", 3, 1000, true),
        (b"0123456789", 11, 1000, false),
        (b"0123456789", 10, 9, false),
        (b"0123456789", 0, 9, false),
        (b"0123456789", 11, 10, false),
        (b"", 0, 0, true),
        (b"0", 0, 0, false),
        (b"0", u64::MAX, MAX_FILE_BYTES, false),
    ];
    for (bytes, expected, limit, is_read) in cases {
        let fault = if is_read {
            None
        } else {
            Some(LoadFault::CannotRead)
        };
        assert!(rt; refused(rt.alloc(), bytes, expected, limit) == fault);
    }
    Ok(())
}

#[test]
fn long_file_is_read_whole(rt: HostRuntime) -> Result<(), Fail> {
    let mut bytes = Vec::new(rt.alloc());
    for i in 0..200_000u32 {
        bytes.push((i % 251) as u8)?;
    }
    for (expected, limit, fault) in [
        (200_000, 200_000, None),
        (0, 200_000, None),
        (65_536, 200_000, None),
        (0, 199_999, Some(LoadFault::CannotRead)),
    ] {
        assert!(rt; refused(rt.alloc(), bytes.as_slice(), expected, limit) == fault);
    }
    Ok(())
}
