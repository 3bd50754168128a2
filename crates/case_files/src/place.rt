//! The files and folders of a case, in memory.

use crate::devices::Devices;
use folders::file_name;
use std::alloc::{AllocError, Global};
use std::cell::RefCell;

/// How the names of files begin that are kept for a set of new files that is not in place.
const RESERVED: &[u8] = b"~niqarthu";

/// A file: its path, and its bytes.
#[derive(Drop)]
pub struct Stored {
    path: Vec<u8>,
    bytes: Vec<u8>,
}

impl Stored {
    fn copy(&self) -> Result<Stored, AllocError> {
        Ok(Stored {
            path: self.path.clone()?,
            bytes: self.bytes.clone()?,
        })
    }

    // Whether the file is the same as another.
    fn is_same(&self, other: &Stored) -> bool {
        self.path.as_slice() == other.path.as_slice()
            && self.bytes.as_slice() == other.bytes.as_slice()
    }

    // Whether the file belongs to a set of new files that is not in place.
    fn is_reserved(&self) -> bool {
        file_name(self.path.as_slice()).starts_with(RESERVED)
    }
}

/// How a folder is opened.
#[derive(Clone, Copy, PartialEq, Eq)]
pub enum Opening {
    /// It is.
    Free,
    /// Another run has it.
    Busy,
    /// It is none, or the system refuses it.
    Closed,
}

// A folder: how the paths of its files begin, and how it is opened.
#[derive(Drop)]
struct Folder {
    front: Vec<u8>,
    opening: Opening,
}

/// The files and folders of a case, and its devices.
///
/// A path is that of a file as it is written, but for `./` before it. No two calls of a place overlap; one that met another would
/// answer that memory is refused.
#[derive(Drop)]
pub struct Place {
    alloc: Global,
    files: RefCell<Vec<Stored>>,
    folders: RefCell<Vec<Folder>>,
    devices: Devices,
}

// A path without `./` before it.
fn plain_path(path: &[u8]) -> &[u8] {
    match path {
        [b'.', b'/', rest @ ..] => rest,
        _ => path,
    }
}

// How the paths of the files of a folder begin: nothing for `.`, and with a slash at the end for another.
fn front_of(alloc: Global, folder: &[u8]) -> Result<Vec<u8>, AllocError> {
    let folder = plain_path(folder);
    let mut front = Vec::new(alloc);
    match folder {
        [] => {}
        [b'.'] => {}
        [.., b'/'] => front.extend_from_slice(folder)?,
        _ => {
            front.extend_from_slice(folder)?;
            front.push(b'/')?;
        }
    }
    Ok(front)
}

// Where the file of a path stands.
fn place_of(files: &[Stored], path: &[u8]) -> Option<usize> {
    let path = plain_path(path);
    files.iter().position(|file| file.path.as_slice() == path)
}

// The file of a path.
fn file_of<'a>(files: &'a [Stored], path: &[u8]) -> Option<&'a Stored> {
    let path = plain_path(path);
    files.iter().find(|file| file.path.as_slice() == path)
}

// Whether each file, but those of a set that is not in place, is among others.
fn are_all_among(files: &[Stored], others: &[Stored]) -> bool {
    files.iter().all(|file| file.is_reserved() || others.iter().any(|other| other.is_same(file)))
}

/// Copies of files.
fn copies_of(alloc: Global, files: &[Stored]) -> Result<Vec<Stored>, AllocError> {
    let mut copies = Vec::new(alloc);
    for file in files {
        copies.push(file.copy()?)?;
    }
    Ok(copies)
}

impl Place {
    /// A place without files, whose one folder is `.`.
    pub fn new(alloc: Global) -> Place {
        Place {
            alloc,
            files: RefCell::new(Vec::new(alloc)),
            folders: RefCell::new(Vec::new(alloc)),
            devices: Devices::new(),
        }
    }

    /// Its allocator.
    pub fn alloc(&self) -> Global {
        self.alloc
    }

    /// Its devices.
    pub fn devices(&self) -> &Devices {
        &self.devices
    }

    /// Puts a file to its path, in place of the one there.
    pub fn put(&self, path: &[u8], bytes: Vec<u8>) -> Result<(), AllocError> {
        let path = Vec::from_slice(self.alloc, plain_path(path))?;
        let Ok(mut files) = self.files.try_borrow_mut() else {
            return Err(AllocError);
        };
        if let Some(at) = place_of(files.as_slice(), path.as_slice()) {
            if let Some(file) = files.get_mut(at) {
                file.bytes = bytes;
            }
            return Ok(());
        }
        files.push(Stored { path, bytes })?;
        Ok(())
    }

    /// The bytes of the file of a path.
    pub fn get(&self, path: &[u8]) -> Result<Option<Vec<u8>>, AllocError> {
        let Ok(files) = self.files.try_borrow() else {
            return Err(AllocError);
        };
        match file_of(files.as_slice(), path) {
            Some(file) => Ok(Some(file.bytes.clone()?)),
            None => Ok(None),
        }
    }

    /// Whether a file has the path.
    pub fn has(&self, path: &[u8]) -> bool {
        match self.files.try_borrow() {
            Ok(files) => file_of(files.as_slice(), path).is_some(),
            Err(_) => false,
        }
    }

    /// Takes a file away, where it is there: its bytes.
    pub fn take(&self, path: &[u8]) -> Option<Vec<u8>> {
        let Ok(mut files) = self.files.try_borrow_mut() else {
            return None;
        };
        let at = place_of(files.as_slice(), path)?;
        if at < files.len() {
            let Stored { bytes, .. } = files.remove(at);
            return Some(bytes);
        }
        None
    }

    /// Makes a folder, which is opened so from now on.
    pub fn make_folder(&self, path: &[u8], opening: Opening) -> Result<(), AllocError> {
        let front = front_of(self.alloc, path)?;
        let Ok(mut folders) = self.folders.try_borrow_mut() else {
            return Err(AllocError);
        };
        folders.push(Folder { front, opening })?;
        Ok(())
    }

    /// How the folder of a path is opened; `None` where nothing has the path. A folder in which a file lies is there, also where it was not
    /// made before.
    pub(crate) fn opening(&self, front: &[u8]) -> Option<Opening> {
        if front.is_empty() {
            return Some(Opening::Free);
        }
        let Ok(folders) = self.folders.try_borrow() else {
            return None;
        };
        let made = folders
            .iter()
            .rev()
            .find(|folder| folder.front.as_slice() == front);
        if let Some(made) = made {
            return Some(made.opening);
        }
        if self.has_files_in(front) {
            Some(Opening::Free)
        } else {
            None
        }
    }

    // Whether a file lies in a folder, whose paths begin so, or in one below it.
    fn has_files_in(&self, front: &[u8]) -> bool {
        match self.files.try_borrow() {
            Ok(files) => files
                .iter()
                .any(|file| file.path.as_slice().starts_with(front)),
            Err(_) => false,
        }
    }

    /// How the paths of the files of a folder begin.
    pub(crate) fn front(&self, folder: &[u8]) -> Result<Vec<u8>, AllocError> {
        front_of(self.alloc, folder)
    }

    /// The names of the files of a folder, in alphabetical order.
    pub fn names(&self, folder: &[u8]) -> Result<Vec<Vec<u8>>, AllocError> {
        let front = front_of(self.alloc, folder)?;
        let mut names = self.names_after(front.as_slice())?;
        names.sort()?;
        Ok(names)
    }

    // The names of the files whose paths begin so and have no slash after that.
    fn names_after(&self, front: &[u8]) -> Result<Vec<Vec<u8>>, AllocError> {
        let mut names = Vec::new(self.alloc);
        let Ok(files) = self.files.try_borrow() else {
            return Err(AllocError);
        };
        for file in files.iter() {
            if let Some(name) = file.path.as_slice().strip_prefix(front) {
                if !name.contains(&b'/') {
                    names.push(Vec::from_slice(self.alloc, name)?)?;
                }
            }
        }
        Ok(names)
    }

    /// The paths of all files.
    pub(crate) fn paths(&self) -> Result<Vec<Vec<u8>>, AllocError> {
        let mut paths = Vec::new(self.alloc);
        let Ok(files) = self.files.try_borrow() else {
            return Err(AllocError);
        };
        for file in files.iter() {
            paths.push(file.path.clone()?)?;
        }
        Ok(paths)
    }

    /// All files as they are.
    pub fn copies(&self) -> Result<Vec<Stored>, AllocError> {
        match self.files.try_borrow() {
            Ok(files) => copies_of(self.alloc, files.as_slice()),
            Err(_) => Err(AllocError),
        }
    }

    /// Puts files back, in place of all that are there.
    pub fn restore(&self, copies: &[Stored]) -> Result<(), AllocError> {
        let copies = copies_of(self.alloc, copies)?;
        match self.files.try_replace(copies) {
            Ok(_) => Ok(()),
            Err(_) => Err(AllocError),
        }
    }

    /// Whether these are the files, those of a set that is not in place left out.
    pub fn is_as(&self, copies: &[Stored]) -> bool {
        match self.files.try_borrow() {
            Ok(files) => {
                are_all_among(files.as_slice(), copies) && are_all_among(copies, files.as_slice())
            }
            Err(_) => false,
        }
    }
}
