//! Tables as text.
//!
//! [`write_records`] writes a table as people read it, [`write_csv`] the same records as CSV, and [`write_fields`] what its
//! fields are. They write into a [`byte_io::ByteSink`], line by line: no text of a whole table is built. Which records are
//! shown a [`Selection`] says, and how much of memos a [`MemoForm`]. [`append_between_quotes`] shows any bytes between quotes.
//!
//! Start with specs/Selection.antt (which records are shown), specs/Shown.antt (what is shown of a cell),
//! specs/Records.antt (the text of a table), specs/Csv.antt, specs/Structure.antt and specs/Quoted.antt, then read src/records.rt and
//! src/structure.rt.
#![tactic(auto)]

mod columns;
mod csv;
mod fault;
mod format;
mod lines;
mod memo_form;
mod quoted;
mod records;
mod selection;
mod shown;
mod shown_byte;
mod structure;
mod widths;

pub use fault::TextFault;
pub use memo_form::MemoForm;
pub use quoted::append_between_quotes;
pub use records::{write_csv, write_records};
pub use selection::{Selection, each_is_shown_once};
pub use shown::trimmed_end;
pub use structure::{FIRST_HEADER_YEAR, header_date, write_fields};
