//! Whether a day is open in a folder.
//!
//! A live day has its log in the folder for its files, under [`LOG_NAME`]. When the day is closed a [`closed_log`] takes the place of
//! that log, which tells how many commands the day had ([`earlier_count`]) and nothing else; so while any other log lies there, what was
//! answered is not in the tables yet. [`is_open`] tells it of a log, [`is_day_open`] of the folder of a disk; [`count_entries`] tells how
//! many commands were answered, and [`log_beside`] where the log of a table's folder lies.
//!
//! In front of its entries the log of an open day has a head: the lines of the files with which the day began, as a journal has them, and
//! one of the day that was closed before ([`earlier_line`], [`cut_earlier`]).
//!
//! A day whose log lies in another folder than its tables has a mark in the tables' folder, [`MARK_NAME`] ([`mark_beside`]), which says
//! where the log lies ([`marked_log`]): so whoever comes to the tables finds the day. A mark whose log is closed, or is not there, counts for
//! nothing. All is defined in `specs/OpenDay.antt`. Start reading there.
#![tactic(auto)]

mod beside;
mod closed;
mod count;
mod day;
mod head;
mod mark;

pub use beside::{log_beside, mark_beside};
pub use closed::{closed_log, earlier_count};
pub use count::count_entries;
pub use day::{LOG_NAME, is_day_open, is_open};
pub use head::{cut_earlier, earlier_line};
pub use mark::{MARK_NAME, marked_log};
