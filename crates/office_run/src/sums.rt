//! What a journal says of the files that a run writes.

ghost use Rattle.std.specs.Prelude.{◌≡◌, ◌≢◌, ℕ, List, [], map, true, Some, Err, IfOk, IfErr};
ghost use Rattle.std.specs.List.{AllByRecursion};
ghost use Rattle.journal_file.specs.WholeText.{IsSum};
ghost use Rattle.office_run.specs.Closing.{run_files};
ghost use Rattle.office_run.specs.FileSums.{sum_of_named};
ghost use Rattle.office_run.specs.WholeRun.{IsWriteFault};

use crate::close_fault::CloseFault;
use crate::closed::ClosedTable;
use crate::fault::ServeFault;
use crate::run_files::RunFiles;
use byte_io::Bytes;
use dbf_fields::Day;
use journal_file::{FileSum, ReadSums};
use std::alloc::{AllocError, Global};

/// For the files that a run reads: each is noted where the journal is asked for. No file was read yet. Takes no memory.
pub(crate) fn asked_sums(alloc: Global, journal: bool) -> ReadSums
    ensures none_yet { journal ≡ true → result ≡ Some [] }
{
    if journal {
        ReadSums::wanted(alloc)
    } else {
        ReadSums::unwanted(alloc)
    }
}

// What a journal says of each file of a run, in their order. An error where memory is refused.
fn sums_of_files(alloc: Global, files: &RunFiles<'_>) -> Result<Vec<FileSum>, AllocError>
    ensures value { IfOk result (λ sums. sums.items ≡ map sum_of_named files.now) }
    ensures small { IfOk result (λ sums. AllByRecursion IsSum sums.items) }
{
    let mut sums = Vec::new(alloc);
    for index in 0..files.count() {
        sums.push(files.sum(alloc, index)?)?;
    }
    Ok(sums)
}

/// What a journal says of each file of tables and answers, in the order in which they are written. No file is begun for it: the
/// faults are those that come before one is, in the order of [`crate::close_files`].
pub(crate) fn sums_to_write(
    alloc: Global,
    tables: &[ClosedTable],
    answers: &[Bytes],
    today: Day,
) -> Result<Vec<FileSum>, ServeFault>
    ensures sums { IfOk result (λ sums. sums.items ≡ map sum_of_named (run_files today tables.now answers.now)) }
    // Lines can tell them.
    ensures small { IfOk result (λ sums. AllByRecursion IsSum sums.items) }
    ensures fault { IfErr result (IsWriteFault today.year tables.now) }
    ensures unbegun { (name : List ℕ) → result ≢ Err (ServeFault.Close (CloseFault.Write name)) }
{
    let files = RunFiles::plan(alloc, tables, answers, today)?;
    Ok(sums_of_files(alloc, &files)?)
}
