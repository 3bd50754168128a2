//! The work of making a table: an empty one from a list of its fields, or one of another and the records of a text of CSV; and that of
//! making an index of a table.
//!
//! [`MakeJob`] reads the list ([`field_list::read_field_list`]) and writes the files of the table that has these fields and no
//! records: the table's own, and that of its memos where a field is a memo. [`MakeFault`] is why it does not. [`LoadJob`] reads a
//! table ([`table_reader::load_table`]) and a text of CSV, and writes the files of the table with the text's records after its own
//! ([`table_loader::load_csv`]). [`LoadJobFault`] is why it does not. [`IndexJob`] reads a table and writes the file of its index by a key
//! expression; [`IndexJobFault`] is why it does not.
//!
//! [`make_in_place`] does the work of any of these ([`TableWork`]) in the folder of a disk, over no file that is there unless it may be
//! replaced, and [`make_into`] in that of a path.
//!
//! Start with specs/Making.antt, specs/LoadedTable.antt, specs/MadeIndex.antt and specs/Placing.antt, then read src/job.rt,
//! src/load_job.rt, src/index_job.rt and src/in_place.rt.
#![tactic(auto)]

mod fault;
mod files;
mod in_place;
mod index_fault;
mod index_file;
mod index_job;
mod into;
mod job;
mod load_fault;
mod load_job;
mod table_work;

pub use fault::MakeFault;
pub use in_place::make_in_place;
pub use index_fault::IndexJobFault;
pub use index_job::IndexJob;
pub use into::{is_index_name, make_into, stem_of};
pub use job::{Made, MakeJob};
pub use load_fault::LoadJobFault;
pub use load_job::LoadJob;
pub use table_work::TableWork;
