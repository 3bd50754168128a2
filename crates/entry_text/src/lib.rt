//! The entries of a journal as text: each with its station, and its answer beside its command.
//!
//! [`append_entries`] shows the entries whose lines a journal's file has, those that [`EntriesAsked`] asks for, and says by
//! [`EntryCounts`] how many they are and how many of them were refused. What is shown of an entry is defined in specs/Layout.antt, and
//! which line is that of a refusal in specs/Refusals.antt; start reading there. The lines themselves are those of `station_lines`.
#![tactic(auto)]

mod counts;
mod entries;
mod refusal_line;
mod text;

pub use counts::EntryCounts;
pub use entries::{EntriesAsked, append_entries};
