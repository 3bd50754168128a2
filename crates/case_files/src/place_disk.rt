//! A folder of a case, as a disk that programs write to.

ghost use Rattle.std.specs.Prelude.{◌≡◌, IsErrOf};
ghost use Rattle.files_in_place.specs.declared.faults.DiskFault.TheVariants.{Failed};
ghost use Rattle.files_in_place.specs.Disk.{HasCause};

use crate::place::Place;
use byte_io::{Bytes, Failures};
use disk_in_place::DiskInPlace;
use files_in_place::{Disk, DiskFault};
use std::alloc::{AllocError, Global};

/// A folder of a case, as a disk. Nothing is promised of it but that it says so when a call fails.
#[derive(Drop)]
pub struct PlaceDisk<'a> {
    place: &'a Place,
    front: Vec<u8>,
    failures: Failures,
}

impl<'a> PlaceDisk<'a> {
    /// The folder whose files' paths begin so.
    pub(crate) fn new(place: &'a Place, front: Vec<u8>) -> PlaceDisk<'a> {
        PlaceDisk {
            place,
            front,
            failures: Failures::none(),
        }
    }

    // The path of a file, if the call succeeds.
    fn path(&self, name: &[u8]) -> Result<Vec<u8>, DiskFault> {
        self.make_call()?;
        let mut path = self.front.clone()?;
        path.extend_from_slice(name)?;
        Ok(path)
    }

    // Makes a call of the disk.
    fn make_call(&self) -> Result<(), DiskFault> {
        if self.place.devices().calls() {
            Ok(())
        } else {
            Err(DiskFault::Failed)
        }
    }

    // The bytes of a file that has to be there.
    fn bytes_at(&self, path: &[u8]) -> Result<Vec<u8>, DiskFault> {
        match self.place.get(path)? {
            Some(bytes) => Ok(bytes),
            None => Err(DiskFault::Failed),
        }
    }

    fn read_file(&self, alloc: Global, name: &[u8]) -> Result<Option<Bytes>, DiskFault> {
        match self.place.get(&self.path(name)?)? {
            Some(bytes) => Ok(Some(Bytes::from_slice(alloc, bytes.as_slice())?)),
            None => Ok(None),
        }
    }

    fn has_file(&self, name: &[u8]) -> Result<bool, DiskFault> {
        Ok(self.place.has(&self.path(name)?))
    }

    fn names(&self, alloc: Global) -> Result<Vec<Bytes>, DiskFault> {
        self.make_call()?;
        let mut names = Vec::new(alloc);
        for name in self.place.names(&self.front)? {
            names.push(Bytes::from_vec(name))?;
        }
        Ok(names)
    }

    fn create_file(&self, name: &[u8]) -> Result<(), DiskFault> {
        let path = self.path(name)?;
        if self.place.has(&path) {
            return Err(DiskFault::Failed);
        }
        Ok(self.place.put(&path, Vec::new(self.place.alloc()))?)
    }

    fn append_bytes(&self, name: &[u8], bytes: &[u8]) -> Result<(), DiskFault> {
        let path = self.path(name)?;
        let mut content = self.bytes_at(&path)?;
        content.extend_from_slice(bytes)?;
        Ok(self.place.put(&path, content)?)
    }

    fn write_over(&self, name: &[u8], offset: u64, bytes: &[u8]) -> Result<(), DiskFault> {
        let path = self.path(name)?;
        let Ok(offset) = usize::try_from(offset) else {
            return Err(DiskFault::Failed);
        };
        let mut content = self.bytes_at(&path)?;
        write_from(&mut content, offset, bytes)?;
        Ok(self.place.put(&path, content)?)
    }

    fn rename_file(&self, from: &[u8], to: &[u8]) -> Result<(), DiskFault> {
        let from = self.path(from)?;
        let mut path = self.front.clone()?;
        path.extend_from_slice(to)?;
        match self.place.take(&from) {
            Some(bytes) => Ok(self.place.put(&path, bytes)?),
            None => Err(DiskFault::Failed),
        }
    }

    fn remove_file(&self, name: &[u8]) -> Result<(), DiskFault> {
        let _ = self.place.take(&self.path(name)?);
        Ok(())
    }

    // Counts a failure of the disk.
    fn told<T: Drop>(&mut self, outcome: Result<T, DiskFault>) -> Result<T, DiskFault>
        ensures same { result ≡ outcome }
        ensures cause { HasCause self.old.failures self.new.failures (IsErrOf result Failed) }
    {
        match outcome {
            Ok(value) => Ok(value),
            Err(DiskFault::NoMemory) => Err(DiskFault::NoMemory),
            Err(DiskFault::Failed) => {
                self.failures.count();
                Err(DiskFault::Failed)
            }
        }
    }
}

/// Writes bytes over those of a content from an offset on, and past its end.
pub fn write_from(content: &mut Vec<u8>, offset: usize, bytes: &[u8]) -> Result<(), AllocError> {
    let mut at = offset;
    for byte in bytes {
        match content.get_mut(at) {
            Some(old) => *old = *byte,
            None => content.push(*byte)?,
        }
        at = at.saturating_add(1);
    }
    Ok(())
}

impl<'a> Disk for PlaceDisk<'a> {
    ghost use Rattle.files_in_place.specs.Disk.{nothing_promised};

    ghost meaning = { nothing_promised (λ d. d.failures) };

    fn read(&mut self, alloc: Global, name: &[u8]) -> Result<Option<Bytes>, DiskFault> {
        let outcome = self.read_file(alloc, name);
        self.told(outcome)
    }

    fn has(&mut self, name: &[u8]) -> Result<bool, DiskFault> {
        let outcome = self.has_file(name);
        self.told(outcome)
    }

    fn list(&mut self, alloc: Global) -> Result<Vec<Bytes>, DiskFault> {
        let outcome = self.names(alloc);
        self.told(outcome)
    }

    fn create(&mut self, name: &[u8]) -> Result<(), DiskFault> {
        let outcome = self.create_file(name);
        self.told(outcome)
    }

    fn append(&mut self, name: &[u8], bytes: &[u8]) -> Result<(), DiskFault> {
        let outcome = self.append_bytes(name, bytes);
        self.told(outcome)
    }

    fn sync_file(&mut self, _name: &[u8]) -> Result<(), DiskFault> {
        let outcome = self.make_call();
        self.told(outcome)
    }

    fn rename(&mut self, from: &[u8], to: &[u8]) -> Result<(), DiskFault> {
        let outcome = self.rename_file(from, to);
        self.told(outcome)
    }

    fn remove(&mut self, name: &[u8]) -> Result<(), DiskFault> {
        let outcome = self.remove_file(name);
        self.told(outcome)
    }

    fn sync_folder(&mut self) -> Result<(), DiskFault> {
        let outcome = self.make_call();
        self.told(outcome)
    }
}

impl<'a> DiskInPlace for PlaceDisk<'a> {
    fn write_at(&mut self, name: &[u8], offset: u64, bytes: &[u8]) -> Result<(), DiskFault> {
        let outcome = self.write_over(name, offset, bytes);
        self.told(outcome)
    }

    fn sync_in_place(&mut self, _name: &[u8]) -> Result<(), DiskFault> {
        let outcome = self.make_call();
        self.told(outcome)
    }
}
