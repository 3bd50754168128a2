//! What has changed from an old table to a new one, as text.
//!
//! [`write_diff`] writes a line for each change into a [`byte_io::ByteSink`]: first the fields that one of the tables has and the other
//! has not, then, record by record, those that are new or gone, the marks that were set or taken away, and each value that was
//! another. Records are matched by their numbers, and fields by their names. No line is written exactly where the tables have the
//! same fields and the same records, with their marks and the texts of their memos ([`nothing_is_told_of_the_same`]).
//!
//! [`write_diff_by_key`] matches records by the keys that an expression gives of them, as an index has them. Each record of both
//! tables is matched once ([`each_record_is_matched_once`]), and no line is written exactly where the tables have the same fields
//! and the same records in the order of the keys ([`nothing_is_told_of_the_same_by_key`]).
//!
//! Start with specs/Changes.antt (what has changed), specs/Matching.antt (which records are matched) and specs/DiffText.antt (how it
//! is told), then read src/diff.rt, src/records.rt and src/keys.rt.
#![tactic(auto)]

mod cells;
mod diff;
mod fields;
mod format;
mod keys;
mod matching;
mod records;
mod told;

pub use diff::{
    each_record_is_matched_once, nothing_is_told_of_the_same, nothing_is_told_of_the_same_by_key,
    write_diff, write_diff_by_key,
};
