//! Why the records of a text of CSV are not loaded.

ghost use Rattle.std.specs.Prelude.{◌≡◌, ◌++◌, codes, OnOk};
ghost use Rattle.std.specs.Io.KnownBytes.{Appends};
ghost use Rattle.table_loader.specs.FaultWords.{fault_words};
ghost use Rattle.table_reader.specs.TableFiles.{load_words, table_read_words};

use crate::fault::{print_exists, print_unread, print_unwritten};
use crate::files::FilesFault;
use folders::LoadFault;
use program_frame::Reason;
use std::io;
use std::io::Write;
use table_loader::NamedFault;
use table_reader::{TableReadFault, print_load};

/// Why the records of a text of CSV are not loaded.
#[derive(Debug, PartialEq, Eq, Drop)]
pub enum LoadJobFault<'a> {
    /// The text of CSV, which has this path, can't be loaded.
    Csv(&'a str, LoadFault),
    /// The table can't be read that the records come after, for a fault of the file of this path.
    Old(&'a str, TableReadFault),
    /// The text of this path says no records of the table.
    Text(&'a str, NamedFault),
    /// A file of the new table was not written.
    Write,
    /// The new table's name, or that of its memos, has a file that may not be replaced.
    Exists,
    /// The folder for the files can't be read.
    Unread,
    /// Memory was refused.
    NoMemory,
}

impl From<FilesFault> for LoadJobFault<'_> {
    ghost use Rattle.std.specs.Prelude.{◌≡◌};
    ghost use Rattle.table_maker.specs.LoadedTable.{loaded_of_writing};

    ghost from_gives = { λ why fault. fault ≡ loaded_of_writing why };

    fn from(why: FilesFault) -> Self {
        match why {
            FilesFault::Write => LoadJobFault::Write,
            FilesFault::NoMemory => LoadJobFault::NoMemory,
        }
    }
}

// Prints the path of a text of CSV, and why it can't be loaded.
fn print_unloaded<W: Write>(out: &mut W, path: &str, why: LoadFault) -> io::Result<()>
    ensures text { OnOk result (Appends (W.contents out.old) (W.contents out.new) (path.now ++ (codes ": " ++ load_words path.now why))) }
{
    out.write_all(path.as_bytes())?;
    out.write_all(b": ")?;
    print_load(out, path, why)
}

// Prints the path of a table's file, and why the table can't be read.
fn print_no_table<W: Write>(out: &mut W, path: &str, why: TableReadFault) -> io::Result<()>
    ensures text { OnOk result (Appends (W.contents out.old) (W.contents out.new) (path.now ++ (codes ": " ++ table_read_words path.now why))) }
{
    out.write_all(path.as_bytes())?;
    out.write_all(b": ")?;
    why.print(out, path)
}

// Prints the path of a text of CSV, and why it says no records of the table.
fn print_no_records<W: Write>(out: &mut W, path: &str, why: &NamedFault) -> io::Result<()>
    ensures text { OnOk result (Appends (W.contents out.old) (W.contents out.new) (path.now ++ (codes ": " ++ fault_words why.now))) }
{
    out.write_all(path.as_bytes())?;
    out.write_all(b": ")?;
    why.print(out)
}

impl Reason for LoadJobFault<'_> {
    ghost use Rattle.table_maker.specs.LoadFaults.{load_job_words, load_status};
    ghost use Rattle.table_maker.specs.declared.load_fault.LoadJobFault.TheVariants.{NoMemory};

    ghost words = { load_job_words };

    ghost status = { load_status };

    ghost no_memory = { NoMemory };

    // 2 for the files that are read and for one that is there, 3 for want of memory, 4 for the folder.
    fn exit_status(&self) -> u8 {
        match self {
            LoadJobFault::Csv(_, _) => 2,
            LoadJobFault::Old(_, _) => 2,
            LoadJobFault::Text(_, _) => 2,
            LoadJobFault::Write => 4,
            LoadJobFault::Exists => 2,
            LoadJobFault::Unread => 4,
            LoadJobFault::NoMemory => 3,
        }
    }

    fn print<W: Write>(&self, out: &mut W) -> io::Result<()> {
        match self {
            LoadJobFault::Csv(path, why) => print_unloaded(out, path, *why),
            LoadJobFault::Old(path, why) => print_no_table(out, path, *why),
            LoadJobFault::Text(path, why) => print_no_records(out, path, why),
            LoadJobFault::Write => print_unwritten(out),
            LoadJobFault::Exists => print_exists(out),
            LoadJobFault::Unread => print_unread(out),
            LoadJobFault::NoMemory => out.write_all(b"out of memory"),
        }
    }

    fn out_of_memory() -> Self {
        LoadJobFault::NoMemory
    }
}
