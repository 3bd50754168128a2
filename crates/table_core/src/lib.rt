//! One table with all its indexes, kept by every change, and a cursor that moves by an order.
//!
//! Contracts see a [`Table`] as its fields and rows, and the name and the key expression of each index; the type
//! keeps that the pairs of each index are the sorted keys of these rows. [`Table::plan`] tests an [`Edit`] and
//! takes all memory that it needs, and changes nothing; [`Table::carry_out`] makes the change, takes no memory and
//! can't fail. The moves of a [`Cursor`] are arithmetic on places in the list of record numbers of its order.
//!
//! Start with specs/Content.antt (what a table is), specs/Moves.antt (the moves) and specs/Edits.antt (the
//! edits), then read src/table.rt, src/edits/changes.rt and src/indexes.rt.
#![tactic(auto)]

mod cursor;
mod edits;
mod fault;
mod indexes;
mod moves;
mod parts;
mod refusal;
mod table;

pub use cursor::Cursor;
pub use edits::Edit;
pub use edits::planned::Planned;
pub use fault::TableFault;
pub use indexes::kept::are_all_pairs;
pub use parts::IndexParts;
pub use refusal::Refusal;
pub use table::Table;
