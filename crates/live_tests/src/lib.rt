//! Tests of live days that no case says: disks that crash, folders of the system, and stations that are heard side by side, each with a
//! keyboard and a screen of its own.
//!
//! `samples.rt` has what all share. `one_keyboard.rt` has a day of one keyboard in memory, `crashes.rt` such days whose disk crashes, and
//! `folder.rt` one in a folder of the system. Of days of several stations `clerks.rt` has the clerks and `living.rt` their day; the other
//! files are named for what goes on in it.
#![tactic(auto)]

#[cfg(test)]
mod at_terminal;
#[cfg(test)]
mod clerks;
#[cfg(test)]
mod crashes;
#[cfg(test)]
mod days;
#[cfg(test)]
mod disks;
#[cfg(test)]
mod failing;
#[cfg(test)]
mod folder;
#[cfg(test)]
mod living;
#[cfg(test)]
mod many;
#[cfg(test)]
mod one_keyboard;
#[cfg(test)]
mod own_places;
#[cfg(test)]
mod paths;
#[cfg(test)]
mod samples;
#[cfg(test)]
mod setups;
#[cfg(test)]
mod telling;
