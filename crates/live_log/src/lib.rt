//! The log of a live day: what was answered is on the disk before the answer is shown.
//!
//! A log is lines of the journal, each after a gate, which is one byte, and its sum, a part of its SHA-256: so a line that is not as it
//! was put is found. A group of lines is written after a shut gate and brought to the disk; then the gate is opened and brought to the
//! disk. So a crash leaves all of the group or nothing of it, whatever it makes of the bytes that were being written. A [`Log`] takes
//! groups; [`read_log`] tells what the bytes of a log stand for, or which entry of them is damaged, and [`gates_hold`] that they stand
//! for one list of entries.
//!
//! Start with specs/Gates.antt, then specs/Logs.antt and `log.rt`.
#![tactic(auto)]

mod faults;
mod found;
mod gates;
mod group;
mod lines;
mod log;
mod placing;

pub use faults::{LogFault, ReadFault};
pub use found::find_log;
pub use gates::{LogText, SHUT_GATE, empty_log, gates_hold, read_log};
pub use log::Log;
pub use placing::place_with;
