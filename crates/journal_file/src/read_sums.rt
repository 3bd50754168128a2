//! What a journal says of the files that a run reads.

ghost use Rattle.std.specs.Prelude.{◌≡◌, [], List, None, Some, OnOk, OnErr};
ghost use Rattle.journal_file.specs.declared.sum.FileSum.{FileSum as Sum};
ghost use Rattle.std.specs.List.{AllByRecursion};
ghost use Rattle.journal_file.specs.WholeText.{sum_of_file, with_sum, IsSum};

use crate::sum::{FileSum, sum_of};
use std::alloc::{AllocError, Global};
use std::marker::Model;

/// What a journal says of the files that were read, in their order. Contracts see the list, or `None` where no journal is
/// wanted.
#[derive(Debug, Drop)]
pub struct ReadSums {
    wanted: bool,
    sums: Vec<FileSum>,
}

impl Model for ReadSums {
    ghost use Rattle.std.specs.Prelude.{List, Option, Some, None, if◌then◌else◌};
    ghost use Rattle.std.specs.List.{AllByRecursion};
    ghost use Rattle.journal_file.specs.declared.sum.FileSum.{FileSum as Sum};
    ghost use Rattle.journal_file.specs.WholeText.{IsSum};

    ghost Value = { Option (List Sum) };

    ghost view = { λ s. if s.wanted then Some s.sums.items else None };

    ghost invariant = { λ s. AllByRecursion IsSum s.sums.items };
}

impl ReadSums {
    /// For a run of which no journal is wanted: nothing is noted.
    pub fn unwanted(alloc: Global) -> ReadSums
        ensures value { result ≡ None }
    {
        ReadSums {
            wanted: false,
            sums: Vec::new(alloc),
        }
    }

    /// For a run of which a journal is wanted: no file was read yet. Takes no memory.
    pub fn wanted(alloc: Global) -> ReadSums
        ensures value { result ≡ Some [] }
    {
        ReadSums {
            wanted: true,
            sums: Vec::new(alloc),
        }
    }

    /// Notes that the file of a path was read and has these bytes, where a journal is wanted. An error where memory is refused:
    /// then nothing was noted.
    pub fn note(&mut self, alloc: Global, path: &[u8], bytes: &[u8]) -> Result<(), AllocError>
        ensures noted { OnOk result (self.new ≡ with_sum self.old (sum_of_file path.now bytes.now)) }
        ensures kept { OnErr result (self.new ≡ self.old) }
    {
        if !self.wanted {
            return Ok(());
        }
        let sum = sum_of(alloc, path, bytes)?;
        self.sums.push(sum)?;
        Ok(())
    }

    /// What was noted, which is nothing where no journal is wanted.
    pub fn into_sums(self) -> Vec<FileSum>
        ensures sums { (sums : List Sum) → self ≡ Some sums → result.items ≡ sums }
        // Lines can tell them.
        ensures small { AllByRecursion IsSum result.items }
    {
        let ReadSums { wanted: _, sums } = self;
        sums
    }
}
