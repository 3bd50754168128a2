//! Tests of runs of stations that no text can say: threads that wait for one another, memory that is taken away, folders that
//! count their calls, and faults that nothing brings about.
#![tactic(auto)]

#[cfg(test)]
mod tests;
