//! Tests of sets of new files, and of folders, that no case says: folders of the system, a system that refuses a call, disks in memory
//! that crash, and calls that no program makes.
//!
//! `crashes.rt` has sets over [`MemoryDisk`](memory_disk::MemoryDisk), which keeps its promises: the folders that a crash leaves there are
//! proved to be among those that may be left, and a test draws some of them. `sets.rt` has refused calls of sets over the same disk.
//! `system.rt` and `system_refusals.rt` have folders of the system, `refused_calls.rt` one of a system that refuses a call. `reading.rt` has
//! files that are read, `memory.rt` folders and sources in memory.
#![tactic(auto)]

#[cfg(test)]
mod crashes;
#[cfg(test)]
mod memory;
#[cfg(test)]
mod reading;
#[cfg(test)]
mod refused_calls;
#[cfg(test)]
mod sets;
#[cfg(test)]
mod system;
#[cfg(test)]
mod system_refusals;
