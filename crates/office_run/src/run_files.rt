//! The files of a run, before they are written.

ghost use Rattle.std.specs.Prelude.{◌≡◌, ◌≢◌, ◌↔◌, ◌<◌, ℕ, List, Err, Some, length, map, IfOk};
ghost use Rattle.std.specs.List.{slice_get};
ghost use Rattle.dbf_image.specs.Image.{IsOutside};
ghost use Rattle.journal_file.specs.WholeText.{IsSum};
ghost use Rattle.office_run.specs.Closing.{file_of, run_files, IsBlockedBy};
ghost use Rattle.office_run.specs.FileSums.{sum_of_named};

use crate::close::{first_too_many, write_content};
use crate::close_fault::CloseFault;
use crate::closed::ClosedTable;
use crate::plan::plan_files;
use crate::planned::Planned;
use byte_io::Bytes;
use dbf_fields::Day;
use journal_file::{FileSum, SumSink};
use std::alloc::{AllocError, Global};
use std::marker::Model;

/// The files of a run as they will be written, in their order. None of them is whole in memory. Contracts see the list of the
/// files.
#[derive(Drop)]
pub struct RunFiles<'a> {
    planned: Vec<Planned<'a>>,
}

impl<'a> Model for RunFiles<'a> {
    ghost use Rattle.std.specs.Prelude.{List, map};
    ghost use Rattle.folders.specs.declared.named.NamedFile.{NamedFile};
    ghost use Rattle.office_run.specs.Closing.{file_of};

    ghost Value = { List NamedFile };

    ghost view = { λ f. map file_of f.planned.items };
}

impl<'a> RunFiles<'a> {
    /// The files that [`close_files`] writes of these tables and answers. Its faults are those of [`close_files`] before a
    /// file is begun: `DateOutside`, `TooManyBlocks` of the first such table, and `NoMemory` after these.
    ///
    /// [`close_files`]: crate::close_files
    pub fn plan(
        alloc: Global,
        tables: &'a [ClosedTable],
        answers: &'a [Bytes],
        day: Day,
    ) -> Result<RunFiles<'a>, CloseFault>
        ensures files { IfOk result (λ files. files ≡ run_files day tables.now answers.now) }
        ensures outside { (result ≡ Err CloseFault.DateOutside) ↔ IsOutside day.year }
        ensures blocks { (number : ℕ) → (result ≡ Err (CloseFault.TooManyBlocks number)) ↔ IsBlockedBy day.year tables.now number }
        ensures unbegun { (name : List ℕ) → result ≢ Err (CloseFault.Write name) }
    {
        if day.year < 1900 || day.year > 2155 {
            return Err(CloseFault::DateOutside);
        }
        if let Some(number) = first_too_many(tables) {
            return Err(CloseFault::TooManyBlocks(number));
        }
        let planned = plan_files(alloc, tables, answers, day)?;
        Ok(RunFiles { planned })
    }

    /// How many files there are.
    pub fn count(&self) -> usize
        ensures value { result ≡ length self.now }
    {
        self.planned.len()
    }

    /// What a journal says of the file of an index. The file is summed as it is made, and is not kept. An error where memory is
    /// refused, for the name, or where the file would have 2^64 bytes.
    pub fn sum(&self, alloc: Global, index: usize) -> Result<FileSum, AllocError>
        requires inside { index < length self.now }
        ensures value { IfOk result (λ sum. slice_get (map sum_of_named self.now) index ≡ Some sum) }
        // A line can tell it.
        ensures small { IfOk result IsSum }
    {
        sum_of_planned(alloc, &self.planned[index])
    }
}

// What a journal says of a file that will be written.
#[tactic(auto, unfolding(byte_io::specs::Sink::grown))]
fn sum_of_planned(alloc: Global, planned: &Planned<'_>) -> Result<FileSum, AllocError>
    ensures value { IfOk result (λ sum. sum ≡ sum_of_named (file_of planned.now)) }
    ensures small { IfOk result IsSum }
{
    let mut sink = SumSink::new();
    match write_content(&mut sink, &planned.content) {
        Ok(()) => sink.sum(alloc, planned.name.as_slice()),
        Err(_) => Err(AllocError),
    }
}
