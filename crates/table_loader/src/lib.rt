//! Records of a text of CSV after those of a table.
//!
//! [`load_csv`] adds a record for each line of a text of CSV after its heading, which names the fields of the columns, and
//! puts each cell in by the rules of REPLACE and MEMO; or it says which line and field is the first that can't be put in.
//! What is printed of a table as CSV, loaded into the empty table of its fields, is this table again ([`printed_table_is_loaded`]).
//!
//! Start with specs/Dates.antt and specs/Values.antt (the cell that a text says), specs/Headings.antt (which column is of which field) and
//! specs/Loading.antt (what a text makes of a table) and specs/ComingBack.antt (which tables come back), then read src/load.rt
//! and src/record.rt.
#![tactic(auto)]

mod awaited;
mod date;
mod fault;
mod form;
mod heading;
mod lines;
mod load;
mod named;
mod record;
mod told;
mod value;

pub use fault::{CsvFault, ValueFault};
pub use form::{CsvForm, DateForm, Separator};
pub use load::{
    load_csv, mark_is_passed_over, printed_table_is_loaded, values_are_those_of_replace,
};
pub use named::{NamedFault, load_csv_named};
