//! Each call that takes memory below the commands and beside them, where one of its requests after another is refused.
//!
//! Begin at [`sweep`]: each of the other files has a table of calls, which are all made on one sample.

mod closing;
mod fields;
mod images;
mod indexes;
mod keys;
mod lines;
mod office;
mod pages;
mod sample;
mod setups;
mod shared;
mod stack;
mod sweep;
mod tables;
