//! Work areas, in which a station has tables open.

use table_core::Cursor;

/// The number of areas of a station.
pub const MAX_AREAS: usize = 10;

/// An area with a table in it.
#[derive(Clone, Copy, Debug, PartialEq, Eq)]
pub(crate) struct Area {
    /// The number of the table, from 1.
    pub(crate) table: u32,
    /// Whether no other station may have the table open.
    pub(crate) exclusive: bool,
    /// Where the area is in the table.
    pub(crate) cursor: Cursor,
}

/// The areas of a station.
#[derive(Clone, Copy, Debug)]
pub(crate) struct Station {
    /// The number of the current area, from 1.
    pub(crate) current: u32,
    /// What is open in each area.
    pub(crate) areas: [Option<Area>; MAX_AREAS],
}
