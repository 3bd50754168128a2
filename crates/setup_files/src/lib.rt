//! The files that the entries of a setup name, loaded and read entry by entry.
//!
//! [`read_entry`] loads what an entry names and reads it: an [`EntryContent`], or an [`EntryFault`] that says which file is
//! refused, why and where. [`load_file`] loads a file alone. Both note what they load where a journal is wanted.
//!
//! Start with specs/EntryFiles.antt (what the files of an entry are, and why they are refused), specs/Loads.antt (what a refusal
//! does to the count of loads that failed) and specs/Noted.antt (what is noted for a journal), then read src/read.rt.
#![tactic(auto)]

mod content;
mod fault;
mod head_numbers;
mod load;
mod read;

pub use content::EntryContent;
pub use fault::{EntryFault, LoadRefusal, refused_path};
pub use head_numbers::IndexNumbers;
pub use load::load_file;
pub use read::read_entry;
