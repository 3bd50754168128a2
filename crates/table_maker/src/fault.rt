//! Why a table is not made.

ghost use Rattle.std.specs.Prelude.{◌≡◌, ◌++◌, codes, OnOk};
ghost use Rattle.std.specs.Io.KnownBytes.{Appends};
ghost use Rattle.field_list.specs.FaultWords.{field_list_words};
ghost use Rattle.table_maker.specs.MakeFaults.{exists_words, unread_words, unwritten_words};
ghost use Rattle.table_reader.specs.TableFiles.{load_words};

use crate::files::FilesFault;
use field_list::FieldListFault;
use folders::LoadFault;
use program_frame::Reason;
use std::io;
use std::io::Write;
use table_reader::print_load;

/// Why a table is not made.
#[derive(Clone, Copy, Debug, PartialEq, Eq)]
pub enum MakeFault<'a> {
    /// The list of fields, which has this path, can't be loaded.
    Load(&'a str, LoadFault),
    /// The text of this path is no list of fields.
    List(&'a str, FieldListFault),
    /// A file of the table was not written.
    Write,
    /// The table's name, or that of its memos, has a file that may not be replaced.
    Exists,
    /// The folder for the files can't be read.
    Unread,
    /// Memory was refused.
    NoMemory,
}

impl From<FilesFault> for MakeFault<'_> {
    ghost use Rattle.std.specs.Prelude.{◌≡◌};
    ghost use Rattle.table_maker.specs.Making.{made_of_writing};

    ghost from_gives = { λ why fault. fault ≡ made_of_writing why };

    fn from(why: FilesFault) -> Self {
        match why {
            FilesFault::Write => MakeFault::Write,
            FilesFault::NoMemory => MakeFault::NoMemory,
        }
    }
}

// Prints the path of a list of fields, and why the file can't be loaded.
fn print_unloaded<W: Write>(out: &mut W, path: &str, why: LoadFault) -> io::Result<()>
    ensures text { OnOk result (Appends (W.contents out.old) (W.contents out.new) (path.now ++ (codes ": " ++ load_words path.now why))) }
{
    out.write_all(path.as_bytes())?;
    out.write_all(b": ")?;
    print_load(out, path, why)
}

// Prints the path of a text, and why it is no list of fields.
fn print_no_list<W: Write>(out: &mut W, path: &str, why: FieldListFault) -> io::Result<()>
    ensures text { OnOk result (Appends (W.contents out.old) (W.contents out.new) (path.now ++ (codes ": " ++ field_list_words why))) }
{
    out.write_all(path.as_bytes())?;
    out.write_all(b": ")?;
    why.print(out)
}

/// Prints that a file of the table was not written.
pub(crate) fn print_unwritten<W: Write>(out: &mut W) -> io::Result<()>
    ensures text { OnOk result (Appends (W.contents out.old) (W.contents out.new) unwritten_words) }
{
    out.write_all(b"cannot write the table: is there room, and may the folder be written?")
}

/// Prints that one of the table's names has a file.
pub(crate) fn print_exists<W: Write>(out: &mut W) -> io::Result<()>
    ensures text { OnOk result (Appends (W.contents out.old) (W.contents out.new) exists_words) }
{
    out.write_all(b"the table, or the file of its memos, is there already: --replace replaces it")
}

/// Prints that the folder can't be read.
pub(crate) fn print_unread<W: Write>(out: &mut W) -> io::Result<()>
    ensures text { OnOk result (Appends (W.contents out.old) (W.contents out.new) unread_words) }
{
    out.write_all(b"cannot read the folder")
}

impl Reason for MakeFault<'_> {
    ghost use Rattle.table_maker.specs.MakeFaults.{make_status, make_words};
    ghost use Rattle.table_maker.specs.declared.fault.MakeFault.TheVariants.{NoMemory};

    ghost words = { make_words };

    ghost status = { make_status };

    ghost no_memory = { NoMemory };

    // 2 for the list and for a file that is there, 3 for want of memory, 4 for the folder.
    fn exit_status(&self) -> u8 {
        match self {
            MakeFault::Load(_, _) => 2,
            MakeFault::List(_, _) => 2,
            MakeFault::Write => 4,
            MakeFault::Exists => 2,
            MakeFault::Unread => 4,
            MakeFault::NoMemory => 3,
        }
    }

    fn print<W: Write>(&self, out: &mut W) -> io::Result<()> {
        match self {
            MakeFault::Load(path, why) => print_unloaded(out, path, *why),
            MakeFault::List(path, why) => print_no_list(out, path, *why),
            MakeFault::Write => print_unwritten(out),
            MakeFault::Exists => print_exists(out),
            MakeFault::Unread => print_unread(out),
            MakeFault::NoMemory => out.write_all(b"out of memory"),
        }
    }

    fn out_of_memory() -> Self {
        MakeFault::NoMemory
    }
}
