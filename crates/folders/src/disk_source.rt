//! Files of the system, to be read.

ghost use Rattle.std.specs.Prelude.{None};

use crate::path::{is_reserved_path, list_beside};
use crate::source::{LoadFault, MAX_FILE_BYTES, Source};
use crate::transfer::read_whole;
use byte_io::Bytes;
use std::alloc::Global;
use std::fs::{self, File, Metadata};
use std::io::{self, ErrorKind};
use std::rt::Files;

// How often a call that a signal interrupts is made.
const MAX_TRIES: usize = 1000;

/// The regular files of the system, by their paths; a link is followed. A relative path begins at the folder in which the
/// program runs. Contracts know nothing of what a file of the system holds.
#[derive(Drop)]
pub struct DiskSource<R: Files + Drop> {
    rt: R,
}

impl<R: Files + Drop> DiskSource<R> {
    /// The files that the runtime reaches.
    pub fn new(rt: R) -> DiskSource<R> {
        DiskSource { rt }
    }
}

// What the system says of a path; asked again where a signal interrupts it.
fn look_at<L: Fn() -> io::Result<Metadata>>(look: L) -> io::Result<Metadata>
    requires { L.IsAlwaysCallable look }
{
    for _ in 0..MAX_TRIES {
        match look() {
            Err(e) if e.kind() == ErrorKind::Interrupted => {}
            ended => return ended,
        }
    }
    Err(io::Error::from(ErrorKind::Interrupted))
}

// Whether something has the path, be it a link. An error where the system doesn't say.
fn is_there<R: Files>(rt: &R, path: &[u8]) -> Result<bool, LoadFault> {
    let Ok(path) = str::from_utf8(path) else {
        return Err(LoadFault::CannotRead);
    };
    match look_at(|| fs::symlink_metadata(rt, path)) {
        Ok(_) => Ok(true),
        Err(e) => match e.kind() {
            ErrorKind::NotFound | ErrorKind::NotADirectory => Ok(false),
            _ => Err(LoadFault::from(e)),
        },
    }
}

// The bytes of a file, read into room that is taken at once for as many as the system says that it has. What is no regular
// file is not opened: a pipe would make that wait.
fn read_file<R: Files>(rt: &R, alloc: Global, path: &str) -> Result<Vec<u8>, LoadFault> {
    let found = look_at(|| fs::metadata(rt, path))?;
    if !found.is_file() {
        return Err(LoadFault::CannotRead);
    }
    let file = File::open(rt, path)?;
    read_whole(alloc, file, found.len(), MAX_FILE_BYTES)
}

impl<R: Files + Drop> Source for DiskSource<R> {
    ghost files = { λ _. None };

    ghost failures = { λ _. None };

    /// The bytes of the file of a path. `CannotRead` too where the path is that of a folder, a pipe or a device, at once;
    /// where the file has become shorter since its length was asked for; and where it can't be told whether a list lies beside it.
    fn load(&mut self, alloc: Global, path: &[u8]) -> Result<Bytes, LoadFault> {
        if is_reserved_path(path) {
            return Err(LoadFault::CannotRead);
        }
        let list = list_beside(alloc, path)?;
        if is_there(&self.rt, &list)? {
            return Err(LoadFault::Unrecovered);
        }
        let Ok(path) = str::from_utf8(path) else {
            return Err(LoadFault::CannotRead);
        };
        Ok(Bytes::from_vec(read_file(&self.rt, alloc, path)?))
    }
}
