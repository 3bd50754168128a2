//! The program around a run: its command line, the run that it asks for, and what the program says of it.
//!
//! [`Options`] is what the command line says, [`ServeJob`] the whole run of it, and [`Served`] what is said where all files are
//! written. How the new files take their places, and what is said where a call of the program fails, is the crate
//! `program_frame`; the whole run is `office_run`. A run is refused where a live day is open, in the folder for the new files
//! or in one from which it reads. Start reading at `job.rt`. What holds of the answers in the folder, and of runs
//! that are started again and again, is in `law.rt`.
#![tactic(auto)]

mod in_place;
mod job;
mod kept;
mod law;
mod options;
mod replaced;
mod running;
mod served;
mod warning;

pub use in_place::serve_in_place;
pub use job::ServeJob;
pub use kept::print_kept;
pub use law::{answers_are_in_place, whole_sets_stay};
pub use options::{Options, command, options_of};
pub use running::{PROGRAM, run_program};
pub use served::Served;
