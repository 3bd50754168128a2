//! The frame of a program.
//!
//! [`Job`] and [`Work`] are what a program does between its words and its end, [`run_into`] opens the folder of a path, and
//! [`run_in_place`] recovers it and puts the new files in place; [`begin_in_place`] refuses a folder in which a live day is open,
//! [`refuse_open_beside`] one that is read from, [`refuse_marked_day`] one whose mark names the log of such a day, and [`recover_in_place`] is
//! for the program that goes on with the day; [`System`] is what a program runs on, and [`Host`] the system itself. [`Reason`] and [`Report`] are what is told of an [`Ending`] and of work that came to its end, and [`tell`] tells it.
//! [`option`], [`required_option`] and [`flag`] declare options, [`value_of`] and [`has_flag`] read them; [`date_of`] reads the
//! date of a run. Faults of a whole run are printed by [`print_fault`], and those of a folder by [`print_folder`]. Start reading
//! at `job.rt` and `specs/Placing.antt`.
#![tactic(auto)]

mod begin;
mod beside;
mod command_line;
mod date;
mod ending;
mod folder;
mod in_place;
mod inputs;
mod job;
mod names;
mod placing;
mod reason;
mod report;
mod system;
mod telling;

pub use begin::{begin_in_place, begin_work, recover_in_place};
pub use beside::Beside;
pub use command_line::{VERSION, flag, has_flag, option, program, required_option, value_of};
pub use date::date_of;
pub use ending::{Ending, Failure, Reason};
pub use folder::{FolderFault, PlaceFault, print_folder};
pub use in_place::{InPlace, end_in_place, run_in_place};
pub use inputs::{refuse_marked_day, refuse_open_beside, refuse_open_inputs};
pub use job::{Job, Work};
pub use reason::{fault_status, print_fault, print_unread};
pub use report::Report;
pub use system::{Host, System, run_into};
pub use telling::{Told, tell};
