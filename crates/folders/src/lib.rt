//! Files, by their paths and names: where they are read from and where they are written to.
//!
//! A [`Source`] is read from and a [`Folder`] is written to. [`MemorySource`] and [`MemoryFolder`] keep files in
//! memory, and contracts know them whole; [`DiskSource`] has the files of the system, of which no contract says what they
//! hold. A [`DiskFolder`] writes new files for a folder of a disk, which take their places all together, whatever crashes;
//! `specs/Placed.antt` defines what that means. Start reading at `source.rt` and `folder.rt`.
#![tactic(auto)]

mod disk_folder;
mod disk_source;
mod finish_fault;
mod folder;
mod listing;
mod memory_folder;
mod memory_source;
mod missing_folder;
mod named;
mod path;
mod source;
mod transfer;

pub use disk_folder::{DiskFolder, Origin};
pub use disk_source::DiskSource;
pub use finish_fault::FinishFault;
pub use folder::Folder;
pub use memory_folder::{MemoryFolder, OpenFile};
pub use memory_source::MemorySource;
pub use missing_folder::MissingFolder;
pub use named::NamedFile;
pub use path::{file_name, folder_of};
pub use source::{LoadFault, MAX_FILE_BYTES, Source};
pub use transfer::read_whole;
