//! The program around an audit: its command line, the audit that it asks for, and what the program says at its end.
//!
//! [`run_program`] does what the words of a command line ask for: [`Options`] is what they say. Without a folder the journal is
//! audited and nothing written ([`audit_options`]); with one the audit is a job of `program_frame` ([`AuditJob`]), whose files,
//! the tables at the journal's end, take their places all together. [`Audited`] is what is said where all entries hold,
//! [`AuditFailure`] why that is not said. What an audit of files is is defined in `specs/Program.antt`, when they are the run's
//! in `specs/Comparing.antt`, what is written in `specs/Writing.antt`, what the command line asks for in `specs/Asked.antt`; the
//! lines and the statuses are in `specs/Endings.antt`. Start reading there. What holds of a journal that a run has written, and of
//! one that was changed, is in `law.rt`.
#![tactic(auto)]

mod asking;
mod audited;
mod auditing;
mod comparing;
mod failure;
mod job;
mod law;
mod options;
mod running;
mod telling;
mod writing;

pub use audited::Audited;
pub use auditing::audit_options;
pub use failure::AuditFailure;
pub use law::{first_other_is_named, journals_of_runs_hold};
pub use options::{Options, command, options_of};
pub use running::{PROGRAM, run_program};
pub use writing::audit_into;
