//! Tests of `dbf_fields`, `dbf_image` and `table_core` that no case can say: calls that no command and no program makes, sinks
//! that fail in mid-stream, and the blocks of a store of memos. All else of tables is said by cases.
#![tactic(auto)]

#[cfg(test)]
mod tests;
