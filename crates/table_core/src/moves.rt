//! Moves by an order: of the record numbers, or of an index. They take no memory.

pub(crate) mod by_index;
pub(crate) mod by_number;
