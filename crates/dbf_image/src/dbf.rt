//! Table files (DBF): their header, reading and writing.

pub(crate) mod fields;
pub(crate) mod header;
pub(crate) mod read;
pub(crate) mod rows;
pub(crate) mod write;
