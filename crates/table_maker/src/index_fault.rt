//! Why an index is not made.

ghost use Rattle.std.specs.Prelude.{◌≡◌, ◌++◌, codes, OnOk};
ghost use Rattle.std.specs.Io.KnownBytes.{Appends};
ghost use Rattle.table_maker.specs.IndexFaults.{on_words};
ghost use Rattle.table_reader.specs.TableFiles.{table_read_words};

use crate::fault::print_unread;
use crate::files::FilesFault;
use key_expr::ExprFault;
use program_frame::Reason;
use std::io;
use std::io::Write;
use table_reader::TableReadFault;

/// Why an index of a table is not made.
#[derive(Clone, Copy, Debug, PartialEq, Eq)]
pub enum IndexJobFault<'a> {
    /// The table can't be read, for a fault of the file of this path.
    Table(&'a str, TableReadFault),
    /// The text is no key expression for the table of this path.
    Key(&'a str, ExprFault),
    /// The index's file was not written.
    Write,
    /// The index's name has a file, which may not be replaced.
    Exists,
    /// The folder for the file can't be read.
    Unread,
    /// Memory was refused.
    NoMemory,
}

impl From<FilesFault> for IndexJobFault<'_> {
    ghost use Rattle.std.specs.Prelude.{◌≡◌};
    ghost use Rattle.table_maker.specs.MadeIndex.{index_of_writing};

    ghost from_gives = { λ why fault. fault ≡ index_of_writing why };

    fn from(why: FilesFault) -> Self {
        match why {
            FilesFault::Write => IndexJobFault::Write,
            FilesFault::NoMemory => IndexJobFault::NoMemory,
        }
    }
}

// Prints the path of a table's file, and why the table can't be read.
fn print_no_table<W: Write>(out: &mut W, path: &str, why: TableReadFault) -> io::Result<()>
    ensures text { OnOk result (Appends (W.contents out.old) (W.contents out.new) (path.now ++ (codes ": " ++ table_read_words path.now why))) }
{
    out.write_all(path.as_bytes())?;
    out.write_all(b": ")?;
    why.print(out, path)
}

// Prints why a text is no key expression for a table.
fn print_on<W: Write>(out: &mut W, why: ExprFault) -> io::Result<()>
    ensures text { OnOk result (Appends (W.contents out.old) (W.contents out.new) (on_words why)) }
{
    let name = why.name();
    write!(
        out,
        "--on is no key expression for the table: {name}: {why}"
    )
}

// Prints the path of a table, and why a text is no key expression for it.
fn print_no_key<W: Write>(out: &mut W, path: &str, why: ExprFault) -> io::Result<()>
    ensures text { OnOk result (Appends (W.contents out.old) (W.contents out.new) (path.now ++ (codes ": " ++ on_words why))) }
{
    out.write_all(path.as_bytes())?;
    out.write_all(b": ")?;
    print_on(out, why)?;
    Ok(())
}

impl Reason for IndexJobFault<'_> {
    ghost use Rattle.table_maker.specs.IndexFaults.{index_job_words, index_status};
    ghost use Rattle.table_maker.specs.declared.index_fault.IndexJobFault.TheVariants.{NoMemory};

    ghost words = { index_job_words };

    ghost status = { index_status };

    ghost no_memory = { NoMemory };

    // 2 for the files that are read, for the expression and for a file that is there, 3 for want of memory, 4 for the folder.
    fn exit_status(&self) -> u8 {
        match self {
            IndexJobFault::Table(_, _) => 2,
            IndexJobFault::Key(_, _) => 2,
            IndexJobFault::Write => 4,
            IndexJobFault::Exists => 2,
            IndexJobFault::Unread => 4,
            IndexJobFault::NoMemory => 3,
        }
    }

    fn print<W: Write>(&self, out: &mut W) -> io::Result<()> {
        match self {
            IndexJobFault::Table(path, why) => print_no_table(out, path, *why),
            IndexJobFault::Key(path, why) => print_no_key(out, path, *why),
            IndexJobFault::Write => {
                out.write_all(
                    b"cannot write the index: is there room, and may the folder be written?",
                )
            }
            IndexJobFault::Exists => {
                out.write_all(b"the index is there already: --replace replaces it")
            }
            IndexJobFault::Unread => print_unread(out),
            IndexJobFault::NoMemory => out.write_all(b"out of memory"),
        }
    }

    fn out_of_memory() -> Self {
        IndexJobFault::NoMemory
    }
}
