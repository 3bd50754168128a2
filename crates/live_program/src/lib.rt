//! The program around a live day: its command line, the lines that are typed, the answers that are printed, the day's end, and what the
//! program says then.
//!
//! [`run_program`] does what the words of a command line ask for: [`Options`] is what they say. [`TypedLines`] has the lines of a
//! reader, [`PrintedAnswers`] prints the answers, and [`ShownBytes`] shows them at a terminal. A life is in `life.rt`: it goes on with the
//! log of an earlier one, if that began with the very files that were read (`head.rt`), and [`close_day`] puts the new files in place with a
//! log that tells how many commands there are. While it lasts, each folder from which it reads has its mark (`marks.rt`). [`Lived`] is what
//! is said of a day that was closed, [`LiveFailure`] why it was not. What a day's files are is defined in `specs/Closings.antt`, what the
//! command line asks for in `specs/Asked.antt`; the lines and the statuses are in `specs/Endings.antt`. Start reading there.
#![tactic(auto)]

mod answers;
mod closing;
mod console;
mod failure;
mod greeting;
mod head;
mod life;
mod lived;
mod marking;
mod marks;
mod number_lists;
mod opening;
mod options;
mod places;
mod printing;
mod prompt;
mod reading;
mod running;
mod shown_bytes;
mod warning;

pub use closing::{DayEnd, close_day};
pub use console::{PrintedAnswers, Showing, ShowingAfter, TypedLines};
pub use failure::LiveFailure;
pub use greeting::tell_again;
pub use life::live_in_place;
pub use lived::Lived;
pub use number_lists::{NumberLists, Numbered};
pub use open_day::LOG_NAME;
pub use opening::{OpenedTables, open_tables};
pub use options::{Options, command, options_of, read_options};
pub use places::{HostPlaces, Places};
pub use printing::{print_bytes, print_line};
pub use running::{PROGRAM, run_program};
pub use shown_bytes::ShownBytes;
