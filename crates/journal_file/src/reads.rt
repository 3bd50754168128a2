//! The lines of the files that a run has read, where they are first in a text.

ghost use Rattle.std.specs.Prelude.{◌≡◌, ◌≢◌, List, ℕ, IfErr, IfNone, IfOk, IfSome};
ghost use Rattle.journal_file.specs.WholeText.{read_word, reads_and, sum_and, sums_and, IsReadsFault};

use crate::cutting::after_word;
use crate::sum::FileSum;
use crate::writing::{push_sum, reindex_line};
use std::alloc::{AllocError, Global};

/// Why the lines of files that were read are not first in a text.
#[derive(Clone, Copy, Debug, PartialEq, Eq)]
pub enum ReadsFault {
    /// The line of the file at this place, counted from 0, is not there, and those of the files before it are.
    File(usize),
    /// The lines of all files are there, and after them not the one that says so whether the indexes were made anew.
    Reindex,
    /// Memory was refused.
    NoMemory,
}

impl From<AllocError> for ReadsFault {
    ghost use Rattle.std.specs.Prelude.{◌≡◌};
    ghost use Rattle.journal_file.specs.declared.reads.ReadsFault.TheVariants.{NoMemory};

    ghost from_gives = { λ _ fault. fault ≡ NoMemory };

    fn from(_refused: AllocError) -> ReadsFault {
        ReadsFault::NoMemory
    }
}

// What stands after the line of a file that was read, where it is first.
#[tactic(auto, using(crate::proofs::ReadLaws::line_first, crate::proofs::ReadLaws::no_line_first))]
fn after_read<'a>(
    alloc: Global,
    text: &'a [u8],
    sum: &FileSum,
) -> Result<Option<&'a [u8]>, AllocError>
    ensures found { IfOk result (λ cut. IfSome cut (λ rest. text.now ≡ sum_and read_word sum.now rest.now)) }
    ensures none { IfOk result (λ cut. IfNone cut ((more : List ℕ) → text.now ≢ sum_and read_word sum.now more)) }
{
    let mut line = Vec::new(alloc);
    push_sum(alloc, &mut line, b"read ", sum)?;
    match after_word(text, line.as_slice()) {
        Some(rest) => Ok(Some(rest)),
        None => Ok(None),
    }
}

// What stands after the lines of these files, where they are first.
#[tactic(auto, using(crate::proofs::ReadLaws::more_read, crate::proofs::ReadLaws::other_read, crate::proofs::ReadLaws::all_read))]
fn after_files<'a>(
    alloc: Global,
    text: &'a [u8],
    read: &[FileSum],
    reindex: bool,
) -> Result<&'a [u8], ReadsFault>
    ensures found { IfOk result (λ rest. text.now ≡ sums_and read_word read.now rest.now) }
    ensures fault { IfErr result (IsReadsFault text.now read.now reindex) }
{
    let mut rest = text;
    let mut place = 0;
    for sum in read {
        match after_read(alloc, rest, sum)? {
            Some(after) => rest = after,
            None => return Err(ReadsFault::File(place)),
        }
        place += 1;
    }
    Ok(rest)
}

/// What stands after the lines of these files and the one that says whether the indexes were made anew, where they are first.
#[tactic(auto, using(crate::proofs::ReadLaws::reads_first, crate::proofs::ReadLaws::no_reindex_first))]
pub fn after_reads<'a>(
    alloc: Global,
    text: &'a [u8],
    read: &[FileSum],
    reindex: bool,
) -> Result<&'a [u8], ReadsFault>
    ensures found { IfOk result (λ rest. text.now ≡ reads_and read.now reindex rest.now) }
    ensures fault { IfErr result (IsReadsFault text.now read.now reindex) }
{
    let rest = after_files(alloc, text, read, reindex)?;
    match after_word(rest, reindex_line(reindex)) {
        Some(rest) => Ok(rest),
        None => Err(ReadsFault::Reindex),
    }
}
