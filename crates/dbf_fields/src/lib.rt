//! The fields of a dBASE III PLUS table and the cells that they describe.
//!
//! A `Schema` is a list of fields that a table may have: `Schema::new` accepts exactly the lists that
//! the layout allows, and tells of every other list the first fault; `first_bad_field` tells at which field such a list goes
//! wrong. `Schema::cell_in` finds a field's cell
//! in a record's bytes. `encode_cell` gives the bytes that a field's cell keeps of a value, and what it keeps
//! reads back as that value; `read_number`, `read_truth` and `read_date` tell what any cell says. Start
//! reading at `schema.rt`, then `cell.rt`; what the contracts cite stands in `specs/`, and the constants of
//! the layout in `format.rt`.
#![tactic(auto)]

mod bad_field;
mod cell;
mod date;
mod day;
mod decimal;
mod field;
mod format;
mod literal;
mod logical;
mod number;
mod number_text;
mod schema;
mod trim;
mod whole_number;

pub use bad_field::{BadField, first_bad_field};
pub use cell::{CellFault, encode_cell};
pub use date::{DateCell, read_date, shown_date};
pub use day::{Day, day_of};
pub use decimal::{are_digits, number_of_digits};
pub use field::Field;
pub use format::{
    ASTERISK, BLANK, CHARACTER, DATE, DATE_WIDTH, LOGICAL, MAX_CHARACTER_WIDTH, MAX_FIELDS,
    MAX_NUMBER_WIDTH, MAX_RECORD_BYTES, MEMO, MEMO_WIDTH, MINUS, NUMBER, PLUS, POINT, SLASH,
    ZERO_DIGIT,
};
pub use literal::Literal;
pub use logical::read_truth;
pub use number::{number_parts, read_number};
pub use number_text::{MAX_NUMBER_TEXT, NumberText};
pub use schema::{Schema, SchemaFault};
pub use trim::trimmed;
pub use whole_number::WholeNumber;
