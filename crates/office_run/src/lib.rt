//! A whole run: from a setup and its files to the files that are written.
//!
//! [`serve_asked`] reads the setup and what it names, opens the catalogue, has the stations' scripts run and writes the
//! files, that of the journal too where it is asked for; [`serve`] is the same without the journal. Where a run does not come to
//! its end, [`ServeFault`] says why. What a whole run is is defined in `specs/WholeRun.antt`, and what it has written in
//! `specs/Served.antt`; start reading there. Reading is in `load.rt`. [`open_setup`] opens the tables alone, which are the same at
//! each reading ([`one_opening`]), [`write_tables`] writes those of a catalogue with digests of the files, and [`put_tables`] writes them
//! without.
//!
//! The stations: [`run_catalogue`] runs a script for each station of a catalogue, each in a thread of its own, joins all threads
//! and settles: each station's answers are those of its entries in the journal. What the answers are is defined in
//! `specs/Reports.antt`; that the files of a whole run have them is the law [`answers_are_the_journals`]. A station's work, line by
//! line, is in `session.rt`, its thread in `worker.rt`, and the run of all in `stations.rt`. A [`Gate`] is called around each line,
//! so that a test can say which station is next.
//!
//! The files: handing the closed tables over to the writing is in `closing.rt`. [`close_files`] writes the files of a run into a
//! folder; which they are is defined in `specs/Closing.antt`. [`RunFiles`] sums each of them before it is written.
#![tactic(auto)]

mod answer_law;
mod asked;
mod catalogue;
mod close;
mod close_fault;
mod closed;
mod closed_index;
mod closing;
mod content;
mod copying;
mod counts;
mod fault;
mod gate;
mod journal;
mod journal_length;
mod load;
mod loaded;
mod opened_again;
mod opening;
mod plan;
mod planned;
mod read_back;
mod run;
mod run_fault;
mod run_files;
mod session;
mod stations;
mod sums;
mod worker;
mod writing;

pub use answer_law::answers_are_the_journals;
pub use asked::{Asked, serve, serve_asked};
pub use catalogue::run_catalogue;
pub use close::close_files;
pub use close_fault::CloseFault;
pub use closed::ClosedTable;
pub use closed_index::ClosedIndex;
pub use counts::CommandCounts;
pub use fault::{BadSetup, FileFault, ServeFault};
pub use gate::{Gate, OpenGate};
pub use load::load_entries;
pub use loaded::Loaded;
pub use opened_again::{one_noting, one_opening};
pub use opening::{open_loaded, open_setup};
pub use read_back::written_files_read_back;
pub use run::{load_setup, read_all, read_setup};
pub use run_fault::RunFault;
pub use run_files::RunFiles;
pub use stations::{Outcome, run_stations};
pub use writing::{put_tables, write_tables};
