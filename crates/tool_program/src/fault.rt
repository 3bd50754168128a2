//! Why nothing is shown or checked, or not all.

ghost use Rattle.std.specs.Prelude.{◌++◌, codes, OnOk};
ghost use Rattle.std.specs.Io.KnownBytes.{Appends};
ghost use Rattle.tool_program.specs.Faults.{tool_status, tool_words as words_of_tool};
ghost use Rattle.tool_program.specs.Reasons.{check_reason, journal_reason, key_reason, show_reason};

use crate::checking::CheckFault;
use crate::reason::{
    journal_reason as reason_of_journal, print_check_reason, print_key_reason, print_show_reason,
};
use crate::showing::ShowFault;
use journal_file::JournalFault;
use key_expr::ExprFault;
use program_frame::{Failure, Reason};
use std::io;
use std::io::Write;
use table_maker::{IndexJobFault, LoadJobFault, MakeFault};

// What is said of a form of dates that is none.
const BAD_DATES: &[u8] =
    b"--dates is none of YYYYMMDD, YYYY-MM-DD, MM/DD/YYYY, MM/DD/YY and DD.MM.YYYY";

/// Why a call of the program did not show, check or make what it was asked for, or not all.
#[derive(Debug, PartialEq, Eq, Drop)]
pub enum ToolFault<'a> {
    /// The range of records is none.
    BadRange,
    /// The number of a station is none.
    BadStation,
    /// Memory was refused.
    NoMemory,
    /// The table or the index can't be shown for a fault of the file of this path.
    Table(&'a str, ShowFault),
    /// The setup of this path can't be checked.
    Setup(&'a str, CheckFault),
    /// The output failed.
    Output,
    /// The name of a table that is to be made ends with neither `.DBF` nor `.dbf`.
    BadOut,
    /// The name of an index that is to be made ends with neither `.NDX` nor `.ndx`.
    BadIndexOut,
    /// The form of dates that is named is none.
    BadDates,
    /// The separator that is named is none.
    BadSeparator,
    /// The table is not made.
    Make(Failure<MakeFault<'a>>),
    /// The records of a text of CSV are not loaded.
    Load(Failure<LoadJobFault<'a>>),
    /// The index is not made.
    Index(Failure<IndexJobFault<'a>>),
    /// The file of this path is no journal, or one that is cut.
    Journal(&'a str, JournalFault),
    /// The text of `--key` is no key expression for the table of this path.
    Key(&'a str, ExprFault),
}

impl Reason for ToolFault<'_> {
    ghost use Rattle.tool_program.specs.Faults.{tool_status, tool_words};
    ghost use Rattle.tool_program.specs.declared.fault.ToolFault.TheVariants.{NoMemory};

    ghost words = { tool_words };

    ghost status = { tool_status };

    ghost no_memory = { NoMemory };

    // 1 for the command line, 2 for a file or a setup, 3 for want of memory, 4 for the output or a folder.
    fn exit_status(&self) -> u8 {
        match self {
            ToolFault::BadRange => 1,
            ToolFault::BadStation => 1,
            ToolFault::Table(_, _) => 2,
            ToolFault::Setup(_, _) => 2,
            ToolFault::NoMemory => 3,
            ToolFault::Output => 4,
            ToolFault::BadOut => 1,
            ToolFault::BadIndexOut => 1,
            ToolFault::BadDates => 1,
            ToolFault::BadSeparator => 1,
            ToolFault::Make(fault) => fault.exit_status(),
            ToolFault::Load(fault) => fault.exit_status(),
            ToolFault::Index(fault) => fault.exit_status(),
            ToolFault::Journal(_, _) => 2,
            ToolFault::Key(_, _) => 2,
        }
    }

    fn print<W: Write>(&self, out: &mut W) -> io::Result<()> {
        print_fault(out, self)
    }

    fn out_of_memory() -> Self {
        ToolFault::NoMemory
    }
}

// Prints why, without the program's name and a line's end.
fn print_fault<W: Write>(out: &mut W, fault: &ToolFault<'_>) -> io::Result<()>
    ensures text { OnOk result (Appends (W.contents out.old) (W.contents out.new) (words_of_tool fault.now)) }
{
    match fault {
        ToolFault::BadRange => out.write_all(b"--records wants a number N or a range N-M"),
        ToolFault::BadStation => out.write_all(b"--station wants a number N"),
        ToolFault::NoMemory => out.write_all(b"out of memory"),
        ToolFault::Table(path, fault) => print_table(out, path, *fault),
        ToolFault::Setup(path, fault) => print_setup(out, path, fault),
        ToolFault::Output => out.write_all(b"the output failed"),
        ToolFault::BadOut => out.write_all(b"--out wants a name that ends with .DBF or .dbf"),
        ToolFault::BadIndexOut => {
            out.write_all(b"--out wants a name that ends with .NDX or .ndx")
        }
        ToolFault::BadDates => out.write_all(BAD_DATES),
        ToolFault::BadSeparator => out.write_all(b"--separator is none of , ; and tab"),
        ToolFault::Make(fault) => fault.print(out),
        ToolFault::Load(fault) => fault.print(out),
        ToolFault::Index(fault) => fault.print(out),
        ToolFault::Journal(path, fault) => print_journal(out, path, *fault),
        ToolFault::Key(path, fault) => print_key(out, path, *fault),
    }
}

fn print_table<W: Write>(out: &mut W, path: &str, fault: ShowFault) -> io::Result<()>
    ensures text { OnOk result (Appends (W.contents out.old) (W.contents out.new) (path.now ++ (codes ": " ++ show_reason path.now fault))) }
{
    out.write_all(path.as_bytes())?;
    out.write_all(b": ")?;
    print_show_reason(out, path, fault)?;
    Ok(())
}

fn print_setup<W: Write>(out: &mut W, path: &str, fault: &CheckFault) -> io::Result<()>
    ensures text { OnOk result (Appends (W.contents out.old) (W.contents out.new) (path.now ++ (codes ": " ++ check_reason path.now fault.now))) }
{
    out.write_all(path.as_bytes())?;
    out.write_all(b": ")?;
    print_check_reason(out, path, fault)?;
    Ok(())
}

fn print_journal<W: Write>(out: &mut W, path: &str, fault: JournalFault) -> io::Result<()>
    ensures text { OnOk result (Appends (W.contents out.old) (W.contents out.new) (path.now ++ journal_reason fault)) }
{
    out.write_all(path.as_bytes())?;
    out.write_all(reason_of_journal(fault))?;
    Ok(())
}

fn print_key<W: Write>(out: &mut W, path: &str, fault: ExprFault) -> io::Result<()>
    ensures text { OnOk result (Appends (W.contents out.old) (W.contents out.new) (path.now ++ (codes ": " ++ key_reason fault))) }
{
    out.write_all(path.as_bytes())?;
    out.write_all(b": ")?;
    print_key_reason(out, fault)?;
    Ok(())
}
