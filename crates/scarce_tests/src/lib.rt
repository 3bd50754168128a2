//! Tests of calls where memory is scarce. They are a crate of their own, since a hoard takes all memory of the process that a test
//! runs in.
#![tactic(auto)]

#[cfg(test)]
mod tests;
