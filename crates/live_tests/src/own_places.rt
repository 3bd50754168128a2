//! A system on which all that a day reads lies in the folder of its log: the files of these tests are in memory, and no folder has a mark.

use byte_io::Bytes;
use folders::LoadFault;
use live_program::{HostPlaces, Places};
use program_frame::{Beside, PlaceFault};
use std::alloc::Global;
use std::fs::File;
use std::rt::{Files, Runtime};
use std::thread::Threads;

/// The system itself, but for where the files lie that a day reads.
#[derive(Drop)]
pub(crate) struct OwnPlaces<'a, R: Runtime + Files<File = File> + Threads> {
    places: HostPlaces<'a, R>,
}

impl<'a, R: Runtime + Files<File = File> + Threads> OwnPlaces<'a, R> {
    /// The system of a runtime.
    pub(crate) fn new(rt: &'a R) -> OwnPlaces<'a, R> {
        OwnPlaces {
            places: HostPlaces::new(rt),
        }
    }
}

impl<'a, R: Runtime + Files<File = File> + Threads> Places for OwnPlaces<'a, R> {
    type Disk = <HostPlaces<'a, R> as Places>::Disk;

    ghost opens = { λ _ _ _. Unit {0} };

    ghost names_log = { λ _ _ _. Unit {0} };

    fn open(&self, alloc: Global, path: &str) -> Result<Option<Self::Disk>, PlaceFault> {
        self.places.open(alloc, path)
    }

    fn log_path(&self, alloc: Global, folder: &str) -> Result<Bytes, PlaceFault> {
        self.places.log_path(alloc, folder)
    }
}

impl<'a, R: Runtime + Files<File = File> + Threads> Beside for OwnPlaces<'a, R> {
    ghost answers = { λ _ _ _. Unit {0} };

    ghost lies = { λ _ _ _. Unit {0} };

    fn read_if_there(&self, alloc: Global, path: &[u8]) -> Result<Option<Bytes>, LoadFault> {
        self.places.read_if_there(alloc, path)
    }

    fn lies_in(&self, _alloc: Global, _path: &[u8], _folder: &str) -> Result<bool, LoadFault> {
        Ok(true)
    }
}
