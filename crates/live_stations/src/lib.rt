//! A live day of several stations at once, each with a keyboard and a screen of its own.
//!
//! Each station has two threads: one reads what is typed there, the other prints what it is answered. One thread performs: it has the day
//! of `live_day`, whose keyboard is the lines of all stations as they come ([`HeardLines`]), and whose screen hands each answer to the
//! thread that prints those of its station ([`HandedAnswers`]). So lines of several stations that are there together are one group of
//! the log, and nothing that a station was answered is lost, as in a day with one keyboard. Nobody waits for a clerk who doesn't
//! read: a station whose answers wait is heard no more until they are read.
//!
//! Start with specs/Items.antt and `day.rt`.
#![tactic(auto)]

mod bell;
mod day;
mod handed_answers;
mod heard;
mod heard_lines;
mod hearing;
mod law;
mod office;
mod paths;
mod printer;
mod rings;
mod sending;
mod telling;
mod terminals;
mod threads;
mod typist;
mod with_setup;
mod words;

pub use day::{Asked, StationLeft, StationsDay, live_stations};
pub use law::{lines_are_done_for_who_said_them, tables_are_opened_for_live_stations};
pub use paths::StationPaths;
pub use telling::{tell_day, tell_stations};
pub use terminals::Terminals;
pub use threads::ThreadFault;
pub use typist::LinesEnd;
pub use with_setup::WithSetup;
pub use words::{LiveSetup, live_setup};
