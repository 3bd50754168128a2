//! The file of a journal: which files the run read, its entries, and which files it wrote.
//!
//! ```text
//! read 10 123 e3b0c44298fc1c149afbf4c8996fb92427ae41e4649b934ca495991b7852b855 OFFICE.SET
//! read 11 4600 ...
//! reindex no
//! entries 138
//! 1 12 2 APPEND BLANK OK
//! ...
//! wrote 11 4616 ... MEMBERS.DBF
//! end
//! ```
//!
//! A line that begins with `read` or `wrote` tells a file: how many bytes its path and the file have, the SHA-256 of these
//! in hex, and the path, apart by blanks. The files that were read stand in the order in which the run read them, those that were
//! written in the order of writing; JOURNAL.TXT itself is not among them. The lines of entries are those of `station_lines`.
//!
//! [`sum_of`] says of a file what its line tells, and [`SumSink`] of a file that is written into it. [`head_text`] and
//! [`tail_text`] make the lines before and after the entries, and [`cut_journal`] cuts a whole text back into its parts, in one
//! way; [`cut_read_sum`] and [`cut_wrote_sum`] cut off the line of a file. The lines of the files that were read stand in front of the log of a
//! live day too: [`read_text`] makes them, and [`after_reads`] compares them. Start with specs/WholeText.antt.
#![tactic(auto)]

mod cutting;
mod read_sums;
mod reads;
mod sum;
mod sum_sink;
mod writing;

pub use cutting::{
    CutSum, JournalFault, JournalParts, after_any_reads, after_word, cut_journal, cut_read_sum,
    cut_wrote_sum, one_whole_text,
};
pub use read_sums::ReadSums;
pub use reads::{ReadsFault, after_reads};
pub use sum::{DIGEST_LEN, FileSum, sum_of};
pub use sum_sink::SumSink;
pub use writing::{head_text, read_text, tail_text};
