//! Tests of the calls below the commands.

mod chains;
mod keys;
mod locks;
mod orders;
mod sample;
mod sinks;
mod thousand;
mod writings;
