//! A set of new files takes its place in a folder, all of them or none, whatever crashes and whenever.
//!
//! A [`Disk`] is one folder, and says what a crash may leave. A [`FileSet`] is written file by file under temporary
//! names; [`FileSet::finish`] puts all of its files in place, and [`FileSet::abandon`] removes them. [`recover`] is called
//! before anything is read: it finishes what a crash left, or removes it, and may crash too. [`old_or_new`] says it of any
//! number of crashes, and [`files_hold_what_was_written`] what the new files hold. [`SystemDisk`] is a folder of the
//! system, which one run has at a time; it makes the calls of [`SystemCalls`].
//!
//! Start with `recovered` in specs/Folder.antt, then specs/Staged.antt and `file_set.rt`. What is believed of a disk
//! stands at the calls of [`Disk`].
#![tactic(auto)]

mod calls;
mod clean;
mod commit;
mod disk;
mod faults;
mod file_set;
mod folder_lock;
mod history;
mod listed;
mod names;
mod new_name;
mod phase;
mod recovery;
mod replaced;
mod settle;
mod side_by_side;
mod stage;
mod system_calls;
mod system_disk;
mod system_file;
mod system_syncs;
mod written;

pub use calls::SystemCalls;
pub use disk::Disk;
pub use faults::{DiskFault, RecoveryFault, SetFault};
pub use file_set::FileSet;
pub use folder_lock::LockFault;
pub use history::old_or_new;
pub use names::is_reserved;
pub use phase::Phase;
pub use recovery::recover;
pub use system_disk::SystemDisk;
pub use written::files_hold_what_was_written;
