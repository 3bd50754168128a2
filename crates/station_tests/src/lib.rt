//! What no case can say of stations that share tables, and of the lines of a journal: receipts, looks, threads, and commands that no
//! line of a script means. They are a crate of their own, since the gate proves a crate with tests twice.
#![tactic(auto)]

#[cfg(test)]
mod tests;
