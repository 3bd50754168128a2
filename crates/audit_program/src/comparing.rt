//! Whether the files of an audit are those of which a journal speaks.

ghost use Rattle.std.specs.Prelude.{◌≡◌, Some, None, IfNone, IfSome};
ghost use Rattle.journal_file.specs.WholeText.{read_word, sum_as, wrote_word};
ghost use Rattle.audit_program.specs.Comparing.{IfLinesOf, are_of_run, first_other, is_of_run, same_content, same_file};

use journal_file::{CutSum, FileSum, cut_read_sum, cut_wrote_sum};

// Whether a file is as long as the line says, with the same digest.
fn has_content(told: &CutSum<'_>, file: &FileSum) -> bool
    ensures value { result ≡ same_content (sum_as told.now.path.now told.now.length told.now.digest.now) file.now }
{
    told.length == file.length && told.digest == file.digest.as_slice()
}

// Whether it has the line's name too.
fn is_file(told: &CutSum<'_>, file: &FileSum) -> bool
    ensures value { result ≡ same_file (sum_as told.now.path.now told.now.length told.now.digest.now) file.now }
{
    told.path == file.path.as_slice() && has_content(told, file)
}

/// The path of the first file that is not the one whose line stands in its place, by their contents; and where there are more
/// lines or more files, the path of the first of these. `None` where each file is the one of its line. Takes no memory.
pub(crate) fn find_other<'a>(lines: &'a [u8], files: &'a [FileSum]) -> Option<&'a [u8]>
    ensures found { IfLinesOf read_word lines.now (λ told. IfSome result (λ path. first_other told files.now ≡ Some path.now)) }
    ensures none { IfLinesOf read_word lines.now (λ told. IfNone result (first_other told files.now ≡ None)) }
{
    let mut rest = lines;
    for file in files {
        let Some(told) = cut_read_sum(rest) else {
            return Some(file.path.as_slice());
        };
        if !has_content(&told, file) {
            return Some(file.path.as_slice());
        }
        rest = told.rest;
    }
    match cut_read_sum(rest) {
        Some(told) => Some(told.path),
        None => None,
    }
}

/// Whether one of the lines tells this file: its name, its length and its digest. Takes no memory.
pub(crate) fn is_written_by_run(lines: &[u8], file: &FileSum) -> bool
    ensures value { IfLinesOf wrote_word lines.now (λ wrote. result ≡ is_of_run wrote file.now) }
{
    let mut rest = lines;
    while let Some(told) = cut_wrote_sum(rest) {
        if is_file(&told, file) {
            return true;
        }
        rest = told.rest;
    }
    false
}

/// Whether of each file one of the lines tells it. Takes no memory.
pub(crate) fn are_written_by_run(lines: &[u8], files: &[FileSum]) -> bool
    ensures value { IfLinesOf wrote_word lines.now (λ wrote. result ≡ are_of_run wrote files.now) }
{
    for file in files {
        if !is_written_by_run(lines, file) {
            return false;
        }
    }
    true
}
