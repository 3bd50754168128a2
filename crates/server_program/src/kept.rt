//! What the program says of a file that stays as it is beside the new one.

ghost use Rattle.std.specs.Prelude.{◌≡◌, OnOk};
ghost use Rattle.std.specs.Io.KnownBytes.{Appends};
ghost use Rattle.kept_files.specs.KeptFiles.{kept_of, new_name};
ghost use Rattle.server_program.specs.Kept.{kept_line, kind_word, new_words, old_words};

use byte_io::Bytes;
use kept_files::{KeptFile, NewKind};
use std::io;
use std::io::Write;

// What a new file is called.
fn word_of(kind: NewKind) -> &'static str
    ensures value { result.now ≡ kind_word kind }
{
    match kind {
        NewKind::Table => "table",
        NewKind::Memos => "memo file",
        NewKind::Index => "index",
    }
}

fn print_old<W: Write>(err: &mut W, path: &Bytes) -> io::Result<()>
    ensures text { OnOk result (Appends (W.contents err.old) (W.contents err.new) (old_words path.now)) }
{
    err.write_all(b"station_server: ")?;
    err.write_all(path.as_slice())?;
    err.write_all(b" stays as it is: the new ")?;
    Ok(())
}

fn print_name<W: Write>(err: &mut W, file: KeptFile<'_>) -> io::Result<()>
    ensures text { OnOk result (Appends (W.contents err.old) (W.contents err.new) (new_name (kept_of file.entry))) }
{
    err.write_all(file.name.as_slice())?;
    err.write_all(file.kind.ending())?;
    Ok(())
}

fn print_new<W: Write>(err: &mut W, file: KeptFile<'_>) -> io::Result<()>
    ensures text { OnOk result (Appends (W.contents err.old) (W.contents err.new) (new_words (kept_of file.entry))) }
{
    err.write_all(word_of(file.kind).as_bytes())?;
    err.write_all(b" is ")?;
    print_name(err, file)?;
    Ok(())
}

/// Prints that a file stays as it is, and by which name the new one comes:
/// `station_server: staff.dbf stays as it is: the new table is STAFF.DBF` and LF. Takes no memory. An error where a write
/// fails.
pub fn print_kept<W: Write>(err: &mut W, file: KeptFile<'_>) -> io::Result<()>
    ensures text { OnOk result (Appends (W.contents err.old) (W.contents err.new) (kept_line (kept_of file.entry))) }
{
    print_old(err, file.path)?;
    print_new(err, file)?;
    err.write_all(b"\n")?;
    Ok(())
}
