//! Lists of fields as text: a line for each field, with its name, its kind, its width and its decimals, as
//! [`table_text::write_fields`] prints them.
//!
//! [`read_field_list`] makes a schema of such a text, or says which line is bad and why. What is printed of the fields of
//! any table is read back as these fields ([`printed_fields_are_read`]).
//!
//! Start with specs/FieldLine.antt (what a line says) and specs/FieldList.antt (what a text says), then read
//! src/field_line.rt and src/list.rt.
#![tactic(auto)]

mod fault;
mod field_line;
mod list;
mod words;

pub use fault::{FieldLineFault, FieldListFault};
pub use list::{one_field_list, printed_fields_are_read, read_field_list};
