//! The program around a table that is shown, tables that are compared, a setup that is checked, a journal whose answers are shown, a table
//! or an index that is made and records that are loaded: its command line, what is read and told, and what is said at its end.
//!
//! [`Asked`](asked::Asked) is what the command line asks for, and [`run_words`] does it: [`show_file`](showing::show_file) shows
//! a table, [`compare_tables`](comparing::compare_tables) what has changed from one to another,
//! [`show_answers`](journal::show_answers) the answers of a journal, and [`check_setup`](checking::check_setup) looks at the files of a
//! setup; [`make_table`](making::make_table) makes a table, [`load_records`](csv_loading::load_records) one with the records of a text
//! of CSV, and [`make_index`](index_making::make_index) an index. [`ToolReport`] is how that came to its end, and [`ToolFault`] why it
//! did not; [`tell_end`] says it: a line on standard error, and an exit status. They are defined in `specs/Faults.antt` and
//! `specs/Answers.antt`. Start reading there.
#![tactic(auto)]

mod asked;
mod checking;
mod command;
mod command_making;
mod command_parts;
mod comparing;
mod csv_loading;
mod ending;
mod fault;
mod index_making;
mod journal;
mod law;
mod loading;
mod making;
mod open_days;
mod options;
mod order;
mod placing;
mod range;
mod reason;
mod report;
mod running;
mod showing;
mod stale;
mod stream;
mod telling;
mod verdict;

pub use checking::CheckFault;
pub use ending::{not_checked, not_shown};
pub use fault::ToolFault;
pub use law::answers_of_runs_are_shown;
pub use order::OrderFault;
pub use range::range_of;
pub use report::ToolReport;
pub use running::run_words;
pub use showing::ShowFault;
pub use stream::{MayClose, StreamSink};
pub use telling::tell_end;
pub use verdict::append_verdict;
