//! Tests of `table_tool`'s libraries by what no command line shows: sinks that fail in the middle of a text, numbers that no record
//! has, the century of a date, want of memory, and a call that no program makes.
#![tactic(auto)]

#[cfg(test)]
mod tests;
