//! The tables of an office, the commands that change them, and the journal of these commands.
//!
//! [`Catalogue::open`] takes tables under their names, for up to 16 stations with ten areas each, and
//! [`Catalogue::perform`] performs a command of a station as one step. What a command does is defined in
//! `specs/Step.antt`, one short case a command, over the edits and moves of `table_core` and the tests of
//! `lock_table`. The type [`Catalogue`] says that its state is what the journal makes of the opened tables, and
//! that each answer in the journal is the one that its command has there; what is true of every state
//! (`IsState`, in `specs/State.antt`) is true of it.
//!
//! What a lock is for, and what becomes of an update, are laws over whole journals: they stand in `law.rt`.
//!
//! Nothing here waits or starts a thread: `shared_catalogue` puts the catalogue under a lock.
//!
//! Start reading at `specs/Step.antt`; then `catalogue.rt`, `plan.rt` and `state.rt`.
#![tactic(auto)]

mod answer;
mod area;
mod catalogue;
mod change;
mod command;
mod entry;
mod kept_table;
mod law;
mod names;
mod numbers;
mod opening;
mod plan;
mod source;
mod state;
mod stations;
mod status;

pub use answer::Answer;
pub use area::MAX_AREAS;
pub use catalogue::{Catalogue, MAX_ENTRIES, Stop};
pub use command::{Command, Question};
pub use entry::Entry;
pub use law::{a_locked_record_stays, no_update_is_lost};
pub use names::Names;
pub use numbers::Numbers;
pub use opening::{MAX_INDEXES, MAX_STATIONS, MAX_TABLES, OpenFault};
pub use source::{IndexSource, TableSource};
pub use status::{StatusRow, TableStatus};
pub use table_core::Refusal;
