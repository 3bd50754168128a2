//! Folders and sources in memory, as other tests have them.

use byte_io::{ByteSink, Bytes, Failures, SinkFault, write_all};
use folders::{
    Folder, LoadFault, MemoryFolder, MemorySource, MissingFolder, NamedFile, OpenFile, Source,
};
use std::alloc::{AllocError, Global};
use std::test::Fail;

// A file.
fn file(alloc: Global, name: &[u8], bytes: &[u8]) -> Result<NamedFile, AllocError> {
    Ok(NamedFile {
        name: Bytes::from_slice(alloc, name)?,
        bytes: Bytes::from_slice(alloc, bytes)?,
    })
}

// Three files, two of one path, which may be read three times.
fn three_files(alloc: Global) -> Result<MemorySource, AllocError> {
    let files = vec![in alloc;
        file(alloc, b"a", b"one")?,
        file(alloc, b"b", b"")?,
        file(alloc, b"a", b"two")?,
    ]?;
    Ok(MemorySource {
        files,
        loads: 3,
        failures: Failures::none(),
    })
}

// Whether a path's file has these bytes, or can't be read.
fn loads<S: Source>(alloc: Global, source: &mut S, path: &[u8], bytes: Option<&[u8]>) -> bool {
    match (source.load(alloc, path), bytes) {
        (Ok(loaded), Some(bytes)) => loaded.as_slice() == bytes,
        (Err(LoadFault::CannotRead), None) => true,
        _ => false,
    }
}

// Whether of two files of a path the first is read, a path in other letters is none, and after three loads none is done.
fn loads_three(alloc: Global, source: &mut MemorySource) -> bool {
    loads(alloc, source, b"a", Some(b"one"))
        && loads(alloc, source, b"b", Some(b""))
        && loads(alloc, source, b"A", None)
        && loads(alloc, source, b"a", None)
}

#[test]
fn source_finds_the_first_file_of_a_path(rt: HostRuntime) -> Result<(), Fail> {
    let mut source = three_files(rt.alloc())?;
    assert!(rt; loads_three(rt.alloc(), &mut source));
    Ok(())
}

// Writes two files into a folder.
fn write_two<F: Folder>(folder: &mut F) -> Result<(), SinkFault> {
    folder.begin(b"T.DBF")?;
    write_all(folder, b"first")?;
    folder.begin(b"T.DBT")?;
    write_all(folder, b"")?;
    write_all(folder, b"second")
}

// Whether the files are the two that `write_two` writes.
fn are_two(files: &[OpenFile]) -> bool {
    let [one, two] = files else {
        return false;
    };
    one.name.as_slice() == b"T.DBF".as_slice()
        && one.bytes.as_slice() == b"first".as_slice()
        && two.name.as_slice() == b"T.DBT".as_slice()
        && two.bytes.as_slice() == b"second".as_slice()
}

// Whether a folder with room for so many files keeps the two, where a write takes `most` bytes at most.
fn keeps_two(alloc: Global, files: usize, most: usize) -> Result<bool, AllocError> {
    let mut folder = MemoryFolder::with_room(alloc, files, 5, 6)?;
    folder.most = most;
    Ok(write_two(&mut folder).is_ok() && are_two(&folder.files))
}

#[test]
fn folder_keeps_files_in_order(rt: HostRuntime) -> Result<(), Fail> {
    for (files, most) in [(0, usize::MAX), (1, 1), (2, 0), (2, usize::MAX)] {
        assert!(rt; keeps_two(rt.alloc(), files, most)?);
    }
    Ok(())
}

// How many files are begun, and how many bytes the last one has, where the folder fails after this many calls;
// nothing where it does not fail.
fn begun_before_a_failure(alloc: Global, calls: u64) -> Option<(usize, usize)> {
    let mut folder = MemoryFolder::new(alloc);
    folder.calls = calls;
    write_two(&mut folder).err()?;
    let bytes = folder.files.last().map_or(0, |last| last.bytes.len());
    Some((folder.files.len(), bytes))
}

#[test]
fn folder_fails_where_it_is_told_to(rt: HostRuntime) {
    for (calls, files, bytes) in [(0, 0, 0), (1, 1, 0), (2, 1, 5), (3, 2, 0)] {
        assert!(rt; begun_before_a_failure(rt.alloc(), calls) == Some((files, bytes)));
    }
}

// Whether no bytes are taken without a file, nor a file by a folder that is not there.
fn takes_nothing(alloc: Global) -> bool {
    MemoryFolder::new(alloc).write(b"no file is begun") == Err(SinkFault)
        && MissingFolder::new().begin(b"T.DBF") == Err(SinkFault)
        && MissingFolder::new().write(b"x") == Err(SinkFault)
}

#[test]
fn no_bytes_without_a_file(rt: HostRuntime) {
    assert!(rt; takes_nothing(rt.alloc()));
}
