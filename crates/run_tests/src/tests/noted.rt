//! What is noted of the files that a run reads.

use journal_file::{FileSum, ReadSums};
use std::alloc::{AllocError, Global};
use std::test::Fail;

// What was noted of a file.
fn noted(alloc: Global, mut sums: ReadSums) -> Result<Vec<FileSum>, AllocError> {
    sums.note(alloc, b"FIRST.PRG", b"abc")?;
    Ok(sums.into_sums())
}

#[test]
fn files_are_noted_where_a_journal_is_wanted(rt: HostRuntime) -> Result<(), Fail> {
    let alloc = rt.alloc();
    let wanted = noted(alloc, ReadSums::wanted(alloc))?.len();
    let unwanted = noted(alloc, ReadSums::unwanted(alloc))?.len();
    assert!(rt; wanted == 1 && unwanted == 0);
    Ok(())
}
