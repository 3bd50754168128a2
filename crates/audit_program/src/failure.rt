//! Why an audit failed, and what the program says then.

ghost use Rattle.std.specs.Prelude.{◌≡◌, ◌++◌, OnOk};
ghost use Rattle.std.specs.Io.KnownBytes.{Appends};
ghost use Rattle.audit_program.specs.Endings.{audit_reason, difference_reason, entry_named, performed_answer, reindex_reason, shortened, told_answer};

use audit::{AuditFault, Difference};
use byte_io::Bytes;
use office_run::{FileFault, ServeFault};
use program_frame::{Reason, fault_status, print_fault, print_unread};
use std::alloc::AllocError;
use std::io;
use std::io::Write;

/// How many bytes of a command's line or of an answer are printed.
pub const MAX_SHOWN_BYTES: usize = 200;

/// Why an audit failed.
#[derive(Debug, PartialEq, Eq, Drop)]
pub enum AuditFailure {
    /// The tables were not opened as a run opens them or not written, or memory was refused.
    Serve(ServeFault),
    /// The journal can't be read.
    Unread,
    /// The list of a set of new files lies in the folder of the journal, which has this path: not all of them are in place.
    UnrecoveredJournal(Bytes),
    /// The file of the journal, which has this path, does not begin as a journal.
    NoJournal(Bytes),
    /// The file of the journal, which has this path, begins as a journal and is not a whole one.
    CutJournal(Bytes),
    /// The run made the indexes anew, or not, as this says, and is to be audited the other way round.
    OtherReindex(bool),
    /// The file of this path is not the one that the run read.
    OtherFile(Bytes),
    /// An entry does not hold.
    Audit(AuditFault),
}

impl From<AllocError> for AuditFailure {
    ghost use Rattle.std.specs.Prelude.{◌≡◌};
    ghost use Rattle.audit_program.specs.declared.failure.AuditFailure.TheVariants.{Serve};
    ghost use Rattle.office_run.specs.declared.fault.ServeFault.TheVariants.{NoMemory};

    ghost from_gives = { λ _ failure. failure ≡ Serve NoMemory };

    fn from(_refused: AllocError) -> AuditFailure {
        AuditFailure::Serve(ServeFault::NoMemory)
    }
}

impl From<ServeFault> for AuditFailure {
    ghost use Rattle.std.specs.Prelude.{◌≡◌};
    ghost use Rattle.audit_program.specs.declared.failure.AuditFailure.TheVariants.{Serve};

    ghost from_gives = { λ fault failure. failure ≡ Serve fault };

    fn from(fault: ServeFault) -> AuditFailure {
        AuditFailure::Serve(fault)
    }
}

// Want of memory in the audit is that of the whole program.
impl From<AuditFault> for AuditFailure {
    ghost use Rattle.std.specs.Prelude.{◌≡◌};
    ghost use Rattle.audit_program.specs.Program.{audit_failure};

    ghost from_gives = { λ fault failure. failure ≡ audit_failure fault };

    fn from(fault: AuditFault) -> AuditFailure {
        match fault {
            AuditFault::NoMemory => AuditFailure::Serve(ServeFault::NoMemory),
            fault => AuditFailure::Audit(fault),
        }
    }
}

impl Reason for AuditFailure {
    ghost use Rattle.audit_program.specs.Endings.{no_memory, reason, status};

    ghost words = { reason };

    ghost status = { status };

    ghost no_memory = { no_memory };

    fn exit_status(&self) -> u8 {
        match self {
            AuditFailure::Serve(fault) => fault_status(fault),
            AuditFailure::Unread => 2,
            AuditFailure::UnrecoveredJournal(_) => 2,
            AuditFailure::NoJournal(_) => 6,
            AuditFailure::CutJournal(_) => 6,
            AuditFailure::OtherReindex(_) => 6,
            AuditFailure::OtherFile(_) => 6,
            AuditFailure::Audit(_) => 5,
        }
    }

    fn print<W: Write>(&self, out: &mut W) -> io::Result<()> {
        match self {
            AuditFailure::Serve(fault) => print_fault(out, fault),
            AuditFailure::Unread => {
                out.write_all(b"cannot read the journal: is it there, a file, and may it be read?")
            }
            AuditFailure::UnrecoveredJournal(path) => print_unread(
                out,
                path,
                FileFault::Unrecovered,
            ),
            AuditFailure::NoJournal(path) => print_path(out, path, b" is no journal"),
            AuditFailure::CutJournal(path) => print_path(out, path, b" is cut"),
            AuditFailure::OtherReindex(of_run) => print_reindex(out, *of_run),
            AuditFailure::OtherFile(path) => print_path(
                out,
                path,
                b" is not the file that the run read",
            ),
            AuditFailure::Audit(fault) => print_audit(out, fault),
        }
    }

    fn out_of_memory() -> AuditFailure {
        AuditFailure::Serve(ServeFault::NoMemory)
    }
}

// A path, and what is said of its file.
fn print_path<W: Write>(out: &mut W, path: &Bytes, said: &[u8]) -> io::Result<()>
    ensures text { OnOk result (Appends (W.contents out.old) (W.contents out.new) (path.now ++ said.now)) }
{
    out.write_all(path.as_slice())?;
    out.write_all(said)?;
    Ok(())
}

// Whether the run made the indexes anew.
fn print_reindex<W: Write>(out: &mut W, of_run: bool) -> io::Result<()>
    ensures text { OnOk result (Appends (W.contents out.old) (W.contents out.new) (reindex_reason of_run)) }
{
    if of_run {
        return out.write_all(b"the run was with --reindex");
    }
    out.write_all(b"the run was without --reindex")
}

// Why not all entries hold.
fn print_audit<W: Write>(out: &mut W, fault: &AuditFault) -> io::Result<()>
    ensures text { OnOk result (Appends (W.contents out.old) (W.contents out.new) (audit_reason fault.now)) }
{
    match fault {
        AuditFault::NoEntry(number) => {
            write!(out, "entry {number}: no entry of a station stands here")
        }
        AuditFault::Differs(difference) => print_difference(out, difference),
        AuditFault::TooLong => out.write_all(b"there are too many entries"),
        AuditFault::NoMemory => out.write_all(b"run: NoMemory"),
    }
}

// An entry whose answer is another, and both answers, each in a line of its own.
fn print_difference<W: Write>(out: &mut W, difference: &Difference) -> io::Result<()>
    ensures text { OnOk result (Appends (W.contents out.old) (W.contents out.new) (difference_reason difference.now)) }
{
    print_entry(out, difference)?;
    print_told(out, difference)?;
    print_performed(out, difference)?;
    Ok(())
}

// A command's line or an answer, or its first bytes and how many there are.
fn print_shortened<W: Write>(out: &mut W, text: &[u8]) -> io::Result<()>
    ensures text { OnOk result (Appends (W.contents out.old) (W.contents out.new) (shortened text.now)) }
{
    let count = text.len();
    if count <= MAX_SHOWN_BYTES {
        return out.write_all(text);
    }
    let (front, _) = text.split_at(MAX_SHOWN_BYTES);
    out.write_all(front)?;
    write!(out, ".. ({count} bytes)")
}

fn print_entry<W: Write>(out: &mut W, difference: &Difference) -> io::Result<()>
    ensures text { OnOk result (Appends (W.contents out.old) (W.contents out.new) (entry_named difference.now)) }
{
    let number = difference.number;
    let station = difference.station;
    write!(out, "entry {number}: station {station}: ")?;
    print_shortened(out, difference.command.as_slice())?;
    Ok(())
}

fn print_told<W: Write>(out: &mut W, difference: &Difference) -> io::Result<()>
    ensures text { OnOk result (Appends (W.contents out.old) (W.contents out.new) (told_answer difference.now)) }
{
    out.write_all(b"\n  the journal says: ")?;
    print_shortened(out, difference.told.as_slice())?;
    Ok(())
}

fn print_performed<W: Write>(out: &mut W, difference: &Difference) -> io::Result<()>
    ensures text { OnOk result (Appends (W.contents out.old) (W.contents out.new) (performed_answer difference.now)) }
{
    out.write_all(b"\n  the answer is: ")?;
    print_shortened(out, difference.performed.as_slice())?;
    Ok(())
}
