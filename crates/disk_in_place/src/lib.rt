//! A file of a folder that is written over where it is, whatever crashes meanwhile.
//!
//! A [`DiskInPlace`] is a disk of which a file can be written over without another name, and says what is believed of one.
//! [`write_synced`] writes and brings what it wrote to the disk. [`SystemDiskInPlace`] is a folder of the system;
//! it makes the calls of [`SystemCallsInPlace`].
//!
//! Start with specs/InPlace.antt and `disk.rt`.
#![tactic(auto)]

mod calls;
mod disk;
mod opened_file;
mod system_calls;
mod system_in_place;
mod writing;

pub use calls::SystemCallsInPlace;
pub use disk::DiskInPlace;
pub use system_in_place::SystemDiskInPlace;
pub use writing::write_synced;
