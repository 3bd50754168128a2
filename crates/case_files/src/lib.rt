//! What cases are made of: their text, the files that they describe, the files and folders that they run over, and what is told of
//! them.
//!
//! A case is a text that is performed step by step. [`lines_of`] reads its lines, [`words`](crate::words) and
//! [`escapes`](crate::escapes) what stands in one. [`MadeTable`] and [`MadeIndex`] are files that a case describes by their fields,
//! records and keys. A [`Place`] has the files and folders of a case in memory: programs read them by a [`PlaceSource`], open
//! folders by a [`PlaceSystem`] and write to a [`PlaceDisk`], and its [`Devices`] fail where a case says so. A [`Report`] tells of
//! each step that is not as written. Start reading at `step.rt`.
#![tactic(auto)]

mod devices;
pub mod escapes;
mod little_endian;
mod made_index;
mod made_table;
mod memo_blocks;
mod place;
mod place_disk;
mod place_source;
mod report;
mod step;
mod streams;
mod trouble;
pub mod words;

pub use devices::Devices;
pub use made_index::MadeIndex;
pub use made_table::MadeTable;
pub use place::{Opening, Place, Stored};
pub use place_disk::{PlaceDisk, write_from};
pub use place_source::{PlaceSource, PlaceSystem};
pub use report::Report;
pub use step::{NumberedLine, Step, lines_of};
pub use streams::{Input, Output, Printed, Typed};
pub use trouble::Trouble;
