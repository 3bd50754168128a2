//! Files of a setup that stay as they are beside the new ones, in words.

ghost use Rattle.std.specs.Prelude.{◌≡◌, ◌++◌, option_map, IfOk, OnOk};
ghost use Rattle.kept_files.specs.KeptFiles.{kept_of, new_name};
ghost use Rattle.setup_check.specs.KeptLines.{kind_words as words_of_kind, kept_line, kept_words, entry_kept_lines, kept_lines};

use kept_files::{KeptFile, NewKind, kept_file, kept_memo_file};
use station_lines::{LF, SetupEntry};
use std::alloc::{AllocError, Global};

fn kind_words(kind: NewKind) -> &'static [u8]
    ensures value { result.now ≡ words_of_kind kind }
{
    match kind {
        NewKind::Table => b"table",
        NewKind::Memos => b"memo file",
        NewKind::Index => b"index",
    }
}

// Appends the name of the new file.
fn append_new_name(text: &mut Vec<u8>, file: KeptFile<'_>) -> Result<(), AllocError>
    ensures ok { OnOk result (text.new.items ≡ text.old.items ++ new_name (kept_of file.entry)) }
{
    text.extend_from_slice(file.name.as_slice())?;
    text.extend_from_slice(file.kind.ending())?;
    Ok(())
}

// Appends the line of a file that stays as it is.
fn append_kept_line(text: &mut Vec<u8>, file: KeptFile<'_>) -> Result<(), AllocError>
    ensures ok { OnOk result (text.new.items ≡ text.old.items ++ kept_line (kept_of file.entry)) }
{
    text.extend_from_slice(file.path.as_slice())?;
    text.extend_from_slice(b" stays as it is where new files go into its folder: the new ")?;
    text.extend_from_slice(kind_words(file.kind))?;
    text.extend_from_slice(b" is ")?;
    append_new_name(text, file)?;
    text.push(LF)?;
    Ok(())
}

// Appends the line of a file, where it stays as it is.
fn append_kept(text: &mut Vec<u8>, file: Option<KeptFile<'_>>) -> Result<(), AllocError>
    ensures ok { OnOk result (text.new.items ≡ text.old.items ++ kept_words (option_map kept_of file.entry)) }
{
    match file {
        Some(file) => append_kept_line(text, file),
        None => Ok(()),
    }
}

// Appends the lines of the files of an entry that stay as they are.
fn append_entry(text: &mut Vec<u8>, entry: &SetupEntry) -> Result<(), AllocError>
    ensures ok { OnOk result (text.new.items ≡ text.old.items ++ entry_kept_lines entry.now) }
{
    append_kept(text, kept_file(entry))?;
    append_kept(text, kept_memo_file(entry))
}

/// A line for each DBF, NDX and DBT file of a setup that stays as it is where new files go into its folder: its name
/// differs, by bytes, from the new file's, which is that of the table or index in capitals with `.DBF`, `.NDX` or `.DBT`.
///
/// An `Err` says that there was no memory.
pub fn kept_files_text(alloc: Global, entries: &[SetupEntry]) -> Result<Vec<u8>, AllocError>
    ensures value { IfOk result (λ text. text.items ≡ kept_lines entries.now) }
{
    let mut text = Vec::new(alloc);
    for entry in entries {
        append_entry(&mut text, entry)?;
    }
    Ok(text)
}
