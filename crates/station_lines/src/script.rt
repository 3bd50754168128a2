//! Scripts: their lines, and what each line means.
//!
//! [`lines`] goes over a script's lines, and [`parse_line`] tells what a line means, which is defined in
//! `specs/Script/Meaning.antt`. Start reading there, then at `script/line.rt`.

mod bad_line;
pub(crate) mod call;
mod command;
mod end;
pub(crate) mod format;
mod index;
mod keyword;
mod line;
mod list;
mod literal;
mod script_lines;
mod value;
mod verb;
mod word;

pub(crate) use bad_line::begins_with_mark;
pub use bad_line::{BadLine, why_bad};
pub(crate) use line::is_remark;
pub use line::{Line, one_meaning, parse_line};
pub use script_lines::{LineCursor, is_one_line, lines, one_cutting};
pub use value::count_in;
pub(crate) use value::{in_capitals, is_name};
pub(crate) use word::{is_gap, without_gaps};
