//! Why a day did not come to its end, and what the program says then.

ghost use Rattle.std.specs.Prelude.{◌≡◌, OnOk};
ghost use Rattle.std.specs.Io.KnownBytes.{Appends};
ghost use Rattle.live_program.specs.Endings.{difference_reason, entry_reason, other_reason, own_name_reason, unmarked_reason};

use audit::{AuditFault, Difference};
use byte_io::Bytes;
use files_in_place::DiskFault;
use live_day::{RunFault, StartFault};
use live_log::LogFault;
use office_run::ServeFault;
use program_frame::{Reason, fault_status, print_fault};
use std::alloc::AllocError;
use std::io;
use std::io::Write;

/// Why a day did not come to its end. Where it had begun, the log stands, and the next start goes on with it.
#[derive(Debug, PartialEq, Eq, Drop)]
pub enum LiveFailure {
    /// The tables were not opened as a run opens them or not written, or memory was refused.
    Serve(ServeFault),
    /// The file of the log's name is no log, or somebody has changed it: the entry of this number is the first that does not stand in it as
    /// it was put.
    NoLog(u64),
    /// The file of this path is not the one with which the day of the log began.
    OtherFile(Bytes),
    /// The day of the log began with these files, but what it says of --reindex is not what is asked for now.
    OtherReindex,
    /// The file of the log's name is no log of this version, or somebody has changed its head.
    OtherVersion,
    /// An entry of the log does not hold on the tables.
    Entry(AuditFault),
    /// The log took no more entries.
    Log(LogFault),
    /// The folder of the log failed, before the day began.
    Unstarted,
    /// The folder of this path, from which the day reads, can't be given its mark, before the day began.
    Unmarked(Bytes),
    /// The file of this path, which the day reads, has the name of one of its own.
    OwnName(Bytes),
    /// The answers can't be printed.
    Unshown,
    /// The lines can't be read.
    Unread,
}

impl From<AllocError> for LiveFailure {
    ghost use Rattle.std.specs.Prelude.{◌≡◌};
    ghost use Rattle.live_program.specs.Endings.{no_memory};

    ghost from_gives = { λ _ failure. failure ≡ no_memory };

    fn from(_refused: AllocError) -> LiveFailure {
        LiveFailure::Serve(ServeFault::NoMemory)
    }
}

impl From<ServeFault> for LiveFailure {
    ghost use Rattle.std.specs.Prelude.{◌≡◌};
    ghost use Rattle.live_program.specs.declared.failure.LiveFailure.TheVariants.{Serve};

    ghost from_gives = { λ fault failure. failure ≡ Serve fault };

    fn from(fault: ServeFault) -> LiveFailure {
        LiveFailure::Serve(fault)
    }
}

impl From<StartFault> for LiveFailure {
    ghost use Rattle.std.specs.Prelude.{◌≡◌};
    ghost use Rattle.live_program.specs.Endings.{start_failure};

    ghost from_gives = { λ fault failure. failure ≡ start_failure fault };

    fn from(fault: StartFault) -> LiveFailure {
        match fault {
            StartFault::Changed(number) => LiveFailure::NoLog(number),
            StartFault::Audit(fault) => LiveFailure::Entry(fault),
            StartFault::NoMemory => LiveFailure::Serve(ServeFault::NoMemory),
        }
    }
}

impl From<DiskFault> for LiveFailure {
    ghost use Rattle.std.specs.Prelude.{◌≡◌};
    ghost use Rattle.live_program.specs.Endings.{unread_log};

    ghost from_gives = { λ fault failure. failure ≡ unread_log fault };

    fn from(fault: DiskFault) -> LiveFailure {
        match fault {
            DiskFault::NoMemory => LiveFailure::Serve(ServeFault::NoMemory),
            DiskFault::Failed => LiveFailure::Unstarted,
        }
    }
}

impl From<RunFault> for LiveFailure {
    ghost use Rattle.std.specs.Prelude.{◌≡◌};
    ghost use Rattle.live_program.specs.Endings.{run_failure};

    ghost from_gives = { λ fault failure. failure ≡ run_failure fault };

    fn from(fault: RunFault) -> LiveFailure {
        match fault {
            RunFault::Log(LogFault::NoMemory) => LiveFailure::Serve(ServeFault::NoMemory),
            RunFault::Log(fault) => LiveFailure::Log(fault),
            RunFault::Screen => LiveFailure::Unshown,
            RunFault::Unread => LiveFailure::Unread,
            RunFault::NoMemory => LiveFailure::Serve(ServeFault::NoMemory),
        }
    }
}

impl Reason for LiveFailure {
    ghost use Rattle.live_program.specs.Endings.{no_memory, reason, status};

    ghost words = { reason };

    ghost status = { status };

    ghost no_memory = { no_memory };

    fn exit_status(&self) -> u8 {
        match self {
            LiveFailure::Serve(fault) => fault_status(fault),
            LiveFailure::NoLog(_) => 5,
            LiveFailure::OtherFile(_) => 5,
            LiveFailure::OtherReindex => 5,
            LiveFailure::OtherVersion => 5,
            LiveFailure::Entry(_) => 5,
            LiveFailure::Log(_) => 4,
            LiveFailure::Unstarted => 4,
            LiveFailure::Unmarked(_) => 4,
            LiveFailure::OwnName(_) => 2,
            LiveFailure::Unshown => 4,
            LiveFailure::Unread => 2,
        }
    }

    fn print<W: Write>(&self, out: &mut W) -> io::Result<()> {
        match self {
            LiveFailure::Serve(fault) => print_fault(out, fault),
            LiveFailure::NoLog(number) => {
                write!(
                    out,
                    "entry {number} of the log: STATIONS.LOG is no log of this version, or somebody has changed it"
                )
            }
            LiveFailure::OtherFile(path) => print_other(out, path),
            LiveFailure::OtherReindex => {
                out.write_all(
                    b"the day of the log did not begin with --reindex as it is given here",
                )
            }
            LiveFailure::OtherVersion => {
                out.write_all(b"STATIONS.LOG is no log of this version, or somebody has changed it")
            }
            LiveFailure::Entry(fault) => print_entry(out, fault),
            LiveFailure::Log(_) => {
                out.write_all(b"cannot write the log: the next start goes on with it")
            }
            LiveFailure::Unstarted => out.write_all(b"cannot read or write the log"),
            LiveFailure::Unmarked(folder) => print_unmarked(out, folder.as_slice()),
            LiveFailure::OwnName(path) => print_own_name(out, path.as_slice()),
            LiveFailure::Unshown => {
                out.write_all(b"cannot print the answers: the next start goes on with the log")
            }
            LiveFailure::Unread => {
                out.write_all(b"cannot read the lines: the next start goes on with the log")
            }
        }
    }

    fn out_of_memory() -> LiveFailure {
        LiveFailure::Serve(ServeFault::NoMemory)
    }
}

// A file that is not the one with which the day of the log began.
fn print_other<W: Write>(out: &mut W, path: &Bytes) -> io::Result<()>
    ensures text { OnOk result (Appends (W.contents out.old) (W.contents out.new) (other_reason path.now)) }
{
    out.write_all(path.as_slice())?;
    out.write_all(b" is not the file with which the day of the log began")
}

// Why an entry of the log does not hold.
fn print_entry<W: Write>(out: &mut W, fault: &AuditFault) -> io::Result<()>
    ensures text { OnOk result (Appends (W.contents out.old) (W.contents out.new) (entry_reason fault.now)) }
{
    match fault {
        AuditFault::NoEntry(number) => {
            write!(
                out,
                "entry {number} of the log: no entry of a station stands here"
            )
        }
        AuditFault::Differs(difference) => print_difference(out, difference),
        AuditFault::TooLong => out.write_all(b"the log has too many entries"),
        AuditFault::NoMemory => out.write_all(b"run: NoMemory"),
    }
}

// An entry of the log whose answer is another on the tables.
fn print_difference<W: Write>(out: &mut W, difference: &Difference) -> io::Result<()>
    ensures text { OnOk result (Appends (W.contents out.old) (W.contents out.new) (difference_reason difference.now)) }
{
    let number = difference.number;
    let station = difference.station;
    write!(
        out,
        "entry {number} of the log: station {station} has another answer on these tables"
    )
}

// Prints that a folder can't be given the mark of a day.
fn print_unmarked<W: Write>(out: &mut W, folder: &[u8]) -> io::Result<()>
    ensures text { OnOk result (Appends (W.contents out.old) (W.contents out.new) (unmarked_reason folder.now)) }
{
    out.write_all(b"cannot put STATIONS.DAY into ")?;
    out.write_all(folder)?;
    Ok(())
}

// Prints that a file has the name of one of a day's own.
fn print_own_name<W: Write>(out: &mut W, path: &[u8]) -> io::Result<()>
    ensures text { OnOk result (Appends (W.contents out.old) (W.contents out.new) (own_name_reason path.now)) }
{
    out.write_all(path)?;
    out.write_all(b": STATIONS.LOG and STATIONS.DAY are files of a day's own")?;
    Ok(())
}
