//! A live day: lines are answered as they come, and nothing that was answered is lost.
//!
//! A [`Day`] has the tables, what was performed on them, and the log of it in a folder of a disk. [`Day::lines`] performs lines that are
//! there together, or one alone: before their answers are given back, their entries are on the disk, put as one group.
//! [`perform_again`] performs what the log of an earlier life says.
//!
//! Start with specs/Days.antt and `day.rt`.
#![tactic(auto)]

mod again;
mod answering;
mod day;
mod faults;
mod group;
mod keyboard;
mod notice;
mod run_fault;
mod running;
mod screen;
mod start_fault;
mod starting;
mod typing;
mod waiting;
mod wish;

pub use again::perform_again;
pub use day::Day;
pub use group::Front;
pub use keyboard::{Keyboard, MAX_LINE_BYTES, Typed, TypingFault};
pub use notice::Notice;
pub use run_fault::RunFault;
pub use running::run_day;
pub use screen::{Screen, ScreenFault};
pub use start_fault::StartFault;
pub use starting::{Unstarted, start_day};
pub use typing::MAX_GROUP_LINES;
pub use waiting::WaitingAnswer;
pub use wish::{STATION_WORD_BYTES, Wish, wish_of};
