//! A disk in memory that keeps all that is believed of a disk, and loses in a crash whatever a disk may lose.
//!
//! [`MemoryDisk`] is a folder that is its own history: it keeps each call, and what reads show is what the calls have made.
//! What a crash may leave is as much as the calls of [`Disk`](files_in_place::Disk) and [`DiskInPlace`](disk_in_place::DiskInPlace)
//! allow: each change that no sync has brought to the disk may be there, or not, or in part, in any subset. So the promises of a disk can hold together, and
//! what is proved of each disk that keeps them holds here with no premise ([`recover_memory`]).
//!
//! [`MemoryDisk::left`] gives one of the folders that a crash may leave. What isn't on the disk may be left as anything
//! ([`unsynced_files_may_hold_anything`], and where a file was written over [`files_written_over_may_be_torn`]), and no disk that keeps
//! its promises leaves more after the same calls ([`do_calls`], [`do_calls_in_place`]). A test draws some of the folders, at a moment that it chooses by [`MemoryDisk::allow`].
//!
//! Start with `MayLeave` in specs/Outcomes.antt, then `disk.rt`.
#![tactic(auto)]

mod any_disk;
mod crash;
mod disk;
mod disk_call;
mod laws;
mod seen_files;

pub use any_disk::{do_calls, do_calls_in_place};
pub use disk::MemoryDisk;
pub use disk_call::DiskCall;
pub use laws::{files_written_over_may_be_torn, recover_memory, unsynced_files_may_hold_anything};
