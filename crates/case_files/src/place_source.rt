//! The files and folders of a case, as programs read and open them.

ghost use Rattle.std.specs.Prelude.{IfErr};
ghost use Rattle.program_frame.specs.PlaceFaults.{IsOfLock};

use crate::place::{Opening, Place};
use crate::place_disk::PlaceDisk;
use byte_io::{Bytes, Failures};
use files_in_place::{LockFault, is_reserved, recover};
use folders::{LoadFault, MemorySource, NamedFile, Source, file_name, folder_of};
use live_program::{LOG_NAME, Places};
use program_frame::{Beside, PlaceFault, System};
use std::alloc::{AllocError, Global};

/// The files of a case, as programs read them.
#[derive(Drop)]
pub struct PlaceSource<'a> {
    place: &'a Place,
}

impl<'a> PlaceSource<'a> {
    /// The files of a place.
    pub fn new(place: &'a Place) -> PlaceSource<'a> {
        PlaceSource { place }
    }
}

// How the names of files are written that lie beside that of a path.
fn start_of(path: &[u8]) -> &'static [u8] {
    if path.starts_with(b"./") { b"./" } else { b"" }
}

// The names of all files, written as a path is, and the bytes of the file of the path.
fn named_files(place: &Place, alloc: Global, path: &[u8]) -> Result<Vec<NamedFile>, AllocError> {
    let mut files = Vec::new(alloc);
    for own in place.paths()? {
        let mut name = Vec::from_slice(alloc, start_of(path))?;
        name.extend_from_slice(&own)?;
        let bytes = if name.as_slice() == path {
            place.get(path)?
        } else {
            None
        };
        files.push(NamedFile {
            name: Bytes::from_vec(name),
            bytes: Bytes::from_vec(match bytes {
                Some(bytes) => bytes,
                None => Vec::new(alloc),
            }),
        })?;
    }
    Ok(files)
}

impl<'a> Source for PlaceSource<'a> {
    ghost use Rattle.std.specs.Prelude.{None};

    ghost files = { λ _. None };

    ghost failures = { λ _. None };

    /// The bytes of the file of a path, as a source in memory gives them. A load fails where its device is told to.
    fn load(&mut self, alloc: Global, path: &[u8]) -> Result<Bytes, LoadFault> {
        if is_reserved(file_name(path)) {
            return Err(LoadFault::CannotRead);
        }
        let mut source = MemorySource {
            files: named_files(self.place, alloc, path)?,
            loads: u64::MAX,
            failures: Failures::none(),
        };
        let loaded = source.load(alloc, path)?;
        if self.place.devices().loads() {
            Ok(loaded)
        } else {
            Err(LoadFault::CannotRead)
        }
    }
}

/// The folders of a case, as programs open them.
#[derive(Drop)]
pub struct PlaceSystem<'a> {
    place: &'a Place,
}

impl<'a> PlaceSystem<'a> {
    /// The folders of a place.
    pub fn new(place: &'a Place) -> PlaceSystem<'a> {
        PlaceSystem { place }
    }

    // Opens the folder of a path.
    fn open_folder(&self, path: &[u8]) -> Result<Option<PlaceDisk<'a>>, LockFault> {
        let front = self.place.front(path)?;
        match self.place.opening(&front) {
            None => Ok(None),
            Some(Opening::Busy) => Err(LockFault::InUse),
            Some(Opening::Closed) => Err(LockFault::Failed),
            Some(Opening::Free) => Ok(Some(PlaceDisk::new(self.place, front))),
        }
    }

    /// Brings what an earlier run left in a folder to its end: in that of a path, or in the one in which the file of the path lies.
    pub fn recover(&self, path: &str) {
        let path = path.as_bytes();
        if !self.recover_folder(path) {
            let _ = self.recover_folder(folder_of(path));
        }
    }

    // Brings what an earlier run left in a folder to its end: whether the folder was opened.
    fn recover_folder(&self, path: &[u8]) -> bool {
        match self.open_folder(path) {
            Ok(Some(mut disk)) => {
                let _ = recover(self.place.alloc(), &mut disk);
                true
            }
            _ => false,
        }
    }
}

impl<'a> System for PlaceSystem<'a> {
    type Disk = PlaceDisk<'a>;

    ghost opens = { λ _ _ _. Unit {0} };

    fn open(&self, _alloc: Global, path: &str) -> Result<Option<PlaceDisk<'a>>, PlaceFault> {
        Ok(self.open_folder(path.as_bytes())?)
    }

    fn is_there(&self, path: &[u8]) -> bool {
        self.place.has(path)
    }
}

impl<'a> Beside for PlaceSystem<'a> {
    ghost answers = { λ _ _ _. Unit {0} };

    ghost lies = { λ _ _ _. Unit {0} };

    fn read_if_there(&self, alloc: Global, path: &[u8]) -> Result<Option<Bytes>, LoadFault> {
        if !self.place.has(path) {
            return Ok(None);
        }
        let mut source = PlaceSource::new(self.place);
        Ok(Some(source.load(alloc, path)?))
    }

    fn lies_in(&self, _alloc: Global, path: &[u8], folder: &str) -> Result<bool, LoadFault> {
        let own = self.place.front(folder_of(path))?;
        let other = self.place.front(folder.as_bytes())?;
        Ok(own.as_slice() == other.as_slice())
    }
}

impl<'a> Places for PlaceSystem<'a> {
    type Disk = PlaceDisk<'a>;

    ghost opens = { λ _ _ _. Unit {0} };

    ghost names_log = { λ _ _ _. Unit {0} };

    fn open(&self, _alloc: Global, path: &str) -> Result<Option<PlaceDisk<'a>>, PlaceFault> {
        Ok(self.open_folder(path.as_bytes())?)
    }

    /// A case has one root: the path from there is the whole one.
    fn log_path(&self, _alloc: Global, folder: &str) -> Result<Bytes, PlaceFault> {
        let mut log = self.place.front(folder.as_bytes())?;
        log.extend_from_slice(LOG_NAME)?;
        Ok(Bytes::from_vec(log))
    }
}
