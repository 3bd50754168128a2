//! The lines before and after a journal's entries.

ghost use Rattle.std.specs.Prelude.{◌≡◌, ◌++◌, [], IfOk, OnOk};
ghost use Rattle.journal_file.specs.WholeText.{sum_and, sums_and, reads_and, reindex_and, head_and, tail_text as text_of_tail};

use crate::sum::FileSum;
use byte_io::Bytes;
use dbf_fields::BLANK;
use station_lines::LF;
use std::alloc::{AllocError, Global};

// Adds the line of a file, behind a word.
pub(crate) fn push_sum(
    alloc: Global,
    text: &mut Vec<u8>,
    word: &[u8],
    sum: &FileSum,
) -> Result<(), AllocError>
    ensures pushed { OnOk result (text.new.items ≡ text.old.items ++ sum_and word.now sum.now []) }
{
    let path_len = sum.path.as_slice().len();
    let length = sum.length;
    let counts = format!(in alloc; "{path_len} {length} ")?;
    text.extend_from_slice(word)?;
    text.extend_from_slice(counts.as_bytes())?;
    text.extend_from_slice(&sum.digest)?;
    text.push(BLANK)?;
    text.extend_from_slice(sum.path.as_slice())?;
    text.push(LF)?;
    Ok(())
}

// Adds the lines of files, each behind the same word.
fn push_sums(
    alloc: Global,
    text: &mut Vec<u8>,
    word: &[u8],
    sums: &[FileSum],
) -> Result<(), AllocError>
    ensures pushed { OnOk result (text.new.items ≡ text.old.items ++ sums_and word.now sums.now []) }
{
    for sum in sums {
        push_sum(alloc, text, word, sum)?;
    }
    Ok(())
}

// The line that says whether the indexes were made anew.
pub(crate) fn reindex_line(reindex: bool) -> &'static [u8]
    ensures value { result.now ≡ reindex_and reindex [] }
{
    if reindex {
        b"reindex yes\n"
    } else {
        b"reindex no\n"
    }
}

/// The lines of the files that were read, and after them whether the indexes were made anew. An error where memory is refused.
pub fn read_text(alloc: Global, read: &[FileSum], reindex: bool) -> Result<Bytes, AllocError>
    ensures value { IfOk result (λ text. text ≡ reads_and read.now reindex []) }
{
    let mut text = Vec::new(alloc);
    push_sums(alloc, &mut text, b"read ", read)?;
    text.extend_from_slice(reindex_line(reindex))?;
    Ok(Bytes::from_vec(text))
}

/// The lines before a journal's entries: the files that the run read, whether it made the indexes anew, and how many entries
/// there are. An error where memory is refused.
pub fn head_text(
    alloc: Global,
    read: &[FileSum],
    reindex: bool,
    count: u64,
) -> Result<Bytes, AllocError>
    ensures value { IfOk result (λ text. text ≡ head_and read.now reindex count []) }
{
    let mut text = Vec::new(alloc);
    push_sums(alloc, &mut text, b"read ", read)?;
    let entries = format!(in alloc; "entries {count}\n")?;
    text.extend_from_slice(reindex_line(reindex))?;
    text.extend_from_slice(entries.as_bytes())?;
    Ok(Bytes::from_vec(text))
}

/// The lines after a journal's entries: the files that the run wrote, and the end. An error where memory is refused.
pub fn tail_text(alloc: Global, wrote: &[FileSum]) -> Result<Bytes, AllocError>
    ensures value { IfOk result (λ text. text ≡ text_of_tail wrote.now) }
{
    let mut text = Vec::new(alloc);
    push_sums(alloc, &mut text, b"wrote ", wrote)?;
    text.extend_from_slice(b"end\n")?;
    Ok(Bytes::from_vec(text))
}
