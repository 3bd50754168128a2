//! Tests of key expressions, indexes, locks and what is told of tables, where no command and no program comes: calls that only a
//! library's caller makes, files of many thousand pages, and sinks that fail. All else stands in the cases.
#![tactic(auto)]

#[cfg(test)]
mod tests;
