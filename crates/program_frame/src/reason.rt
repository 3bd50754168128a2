//! Why a whole run did not come to its end, as programs print it.

ghost use Rattle.std.specs.Prelude.{◌≡◌, ◌++◌, OnOk};
ghost use Rattle.std.specs.Io.KnownBytes.{Appends};
ghost use Rattle.program_frame.specs.Reasons.{bad_setup_told, close_reason, fault_reason, fault_status as status_of_fault, file_reason, open_place, open_reason, unread_file, unwritten};

use crate::ending::Reason;
use crate::names::{close_name, open_name, run_name};
use byte_io::Bytes;
use catalogue_core::OpenFault;
use folders::folder_of;
use office_run::{BadSetup, CloseFault, FileFault, ServeFault};
use std::io;
use std::io::Write;

/// The exit status of a program whose whole run did not come to its end: 1 for the setup, 2 for a file and the opening, 3
/// for the run and for want of memory, 4 for the writing.
pub fn fault_status(fault: &ServeFault) -> u8
    ensures value { result ≡ status_of_fault fault.now }
{
    match fault {
        ServeFault::Setup(_) => 1,
        ServeFault::File(_, _) => 2,
        ServeFault::Refused(_) => 2,
        ServeFault::Run(_) => 3,
        ServeFault::NoMemory => 3,
        ServeFault::Close(_) => 4,
    }
}

/// Prints why a whole run did not come to its end. Takes no memory. An error where a write fails.
pub fn print_fault<W: Write>(out: &mut W, fault: &ServeFault) -> io::Result<()>
    ensures text { OnOk result (Appends (W.contents out.old) (W.contents out.new) (fault_reason fault.now)) }
{
    match fault {
        ServeFault::Setup(bad) => print_bad_setup(out, bad),
        ServeFault::File(path, fault) => print_unread(out, path, *fault),
        ServeFault::Refused(fault) => print_open(out, *fault),
        ServeFault::Run(fault) => print_both(out, b"run: ", run_name(*fault)),
        ServeFault::Close(fault) => print_close(out, fault),
        ServeFault::NoMemory => out.write_all(b"run: NoMemory"),
    }
}

// Prints which line of a setup is bad, and why.
fn print_bad_setup<W: Write>(out: &mut W, bad: &BadSetup) -> io::Result<()>
    ensures text { OnOk result (Appends (W.contents out.old) (W.contents out.new) (bad_setup_told bad.now.number bad.now.told)) }
{
    let number = bad.number;
    match &bad.told {
        Some(told) => out.write_all(told.as_slice()),
        None => { write!(out, "setup line {number} is bad: table_tool check says why") }
    }
}

impl Reason for ServeFault {
    ghost use Rattle.program_frame.specs.Reasons.{fault_reason, fault_status, no_memory};

    ghost words = { fault_reason };

    ghost status = { fault_status };

    ghost no_memory = { no_memory };

    fn exit_status(&self) -> u8 {
        fault_status(self)
    }

    fn print<W: Write>(&self, out: &mut W) -> io::Result<()> {
        print_fault(out, self)
    }

    fn out_of_memory() -> ServeFault {
        ServeFault::NoMemory
    }
}

/// Prints why the file of a path was not read. Takes no memory. An error where a write fails.
pub fn print_unread<W: Write>(out: &mut W, path: &Bytes, fault: FileFault) -> io::Result<()>
    ensures text { OnOk result (Appends (W.contents out.old) (W.contents out.new) (unread_file path.now fault)) }
{
    out.write_all(path.as_slice())?;
    out.write_all(b": ")?;
    print_file_fault(out, path, fault)?;
    Ok(())
}

fn print_file_fault<W: Write>(out: &mut W, path: &Bytes, fault: FileFault) -> io::Result<()>
    ensures text { OnOk result (Appends (W.contents out.old) (W.contents out.new) (file_reason path.now fault)) }
{
    match fault {
        FileFault::CannotRead => out.write_all(
            b"cannot read: is it there, a file, and may it be read?",
        ),
        FileFault::Unrecovered => print_unrecovered(out, path),
        FileFault::Image(fault) => out.write_all(fault.name().as_bytes()),
        FileFault::Ndx(fault) => out.write_all(fault.name().as_bytes()),
    }
}

// That the folder of a path is not recovered, and what to do.
fn print_unrecovered<W: Write>(out: &mut W, path: &Bytes) -> io::Result<()>
    ensures text { OnOk result (Appends (W.contents out.old) (W.contents out.new) (file_reason path.now FileFault.Unrecovered)) }
{
    out.write_all(b"the folder is not recovered: start with --out ")?;
    out.write_all(folder_of(path.as_slice()))?;
    Ok(())
}

// Prints where the tables, indexes and stations of a setup don't go together, and what to do.
fn print_open_place<W: Write>(out: &mut W, fault: OpenFault) -> io::Result<()>
    ensures text { OnOk result (Appends (W.contents out.old) (W.contents out.new) (open_place fault)) }
{
    match fault {
        OpenFault::NoStation => out.write_all(b": the setup has no STATION line"),
        OpenFault::TooManyStations => out.write_all(b": a setup has at most 16 STATION lines"),
        OpenFault::TooManyTables => out.write_all(b": a setup has at most 10 TABLE lines"),
        OpenFault::DuplicateTable(table) => {
            write!(
                out,
                ": table {table} of the setup has the name of an earlier one"
            )
        }
        OpenFault::TooManyIndexes(table) => {
            write!(out, ": table {table} of the setup has more than 7 indexes")
        }
        OpenFault::DuplicateIndex(table, index) => {
            write!(
                out,
                ": index {index} of table {table} of the setup has the name of an earlier one"
            )
        }
        OpenFault::BadExpression(table, index, _) => {
            write!(
                out,
                ": index {index} of table {table} of the setup has no key expression for it: table_tool check says why"
            )
        }
        OpenFault::IndexStale(table, index) => {
            write!(
                out,
                ": index {index} of table {table} of the setup is stale: --reindex makes it anew, table_tool check says more"
            )
        }
        OpenFault::NoMemory => out.write_all(b": out of memory"),
    }
}

// Prints why a catalogue was not opened: the fault's name, and where.
fn print_open<W: Write>(out: &mut W, fault: OpenFault) -> io::Result<()>
    ensures text { OnOk result (Appends (W.contents out.old) (W.contents out.new) (open_reason fault)) }
{
    print_both(out, b"open: ", open_name(fault))?;
    print_open_place(out, fault)?;
    Ok(())
}

fn print_close<W: Write>(out: &mut W, fault: &CloseFault) -> io::Result<()>
    ensures text { OnOk result (Appends (W.contents out.old) (W.contents out.new) (close_reason fault.now)) }
{
    match fault {
        CloseFault::Write(name) => print_unwritten(out, name),
        CloseFault::DateOutside => print_both(out, b"close: ", close_name(fault)),
        CloseFault::TooManyBlocks(_) => print_both(out, b"close: ", close_name(fault)),
        CloseFault::NoMemory => print_both(out, b"close: ", close_name(fault)),
    }
}

fn print_unwritten<W: Write>(out: &mut W, name: &Bytes) -> io::Result<()>
    ensures text { OnOk result (Appends (W.contents out.old) (W.contents out.new) (unwritten name.now)) }
{
    out.write_all(b"cannot write ")?;
    out.write_all(name.as_slice())?;
    out.write_all(b": is there room, and may the folder be written?")?;
    Ok(())
}

// Prints a text and a name after it.
fn print_both<W: Write>(out: &mut W, before: &[u8], name: &str) -> io::Result<()>
    ensures text { OnOk result (Appends (W.contents out.old) (W.contents out.new) (before.now ++ name.now)) }
{
    out.write_all(before)?;
    out.write_all(name.as_bytes())?;
    Ok(())
}
