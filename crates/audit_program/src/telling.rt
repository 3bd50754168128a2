//! What the program says where all entries hold: on standard output which files it has read, how many entries there are and
//! which files it has written; and its exit status.

ghost use Rattle.std.specs.Prelude.{◌≡◌, flat_map, OnOk};
ghost use Rattle.std.specs.Io.KnownBytes.{Appends};
ghost use Rattle.journal_file.specs.WholeText.{wrote_word};
ghost use Rattle.audit_program.specs.Comparing.{IfLinesOf};
ghost use Rattle.audit_program.specs.Endings.{audited_status, count_line, file_line, read_line, written_line, AppendsAudited};

use crate::audited::Audited;
use crate::comparing::{are_written_by_run, is_written_by_run};
use journal_file::FileSum;
use program_frame::Report;
use std::io;
use std::io::Write;

// Prints how many entries hold: `station_audit: N entries hold` and LF. Takes no memory. An error where a write fails.
fn print_count<W: Write>(out: &mut W, count: u64) -> io::Result<()>
    ensures text { OnOk result (Appends (W.contents out.old) (W.contents out.new) (count_line count)) }
{
    write!(out, "station_audit: {count} entries hold\n")
}

// Prints what is said of a file: `station_audit: `, its path, this, and LF.
fn print_file<W: Write>(out: &mut W, file: &FileSum, said: &[u8]) -> io::Result<()>
    ensures text { OnOk result (Appends (W.contents out.old) (W.contents out.new) (file_line file.now said.now)) }
{
    out.write_all(b"station_audit: ")?;
    out.write_all(file.path.as_slice())?;
    out.write_all(said)?;
    out.write_all(b"\n")?;
    Ok(())
}

// Prints a line of each file that was read.
fn print_read<W: Write>(out: &mut W, files: &[FileSum]) -> io::Result<()>
    ensures text { OnOk result (Appends (W.contents out.old) (W.contents out.new) (flat_map read_line files.now)) }
{
    for file in files {
        print_file(out, file, b" is the file that the run read")?;
    }
    Ok(())
}

// Prints whether a file is one of those of the lines, which the run wrote.
fn print_written_file<W: Write>(out: &mut W, lines: &[u8], file: &FileSum) -> io::Result<()>
    ensures text { IfLinesOf wrote_word lines.now (λ wrote. OnOk result (Appends (W.contents out.old) (W.contents out.new) (written_line wrote file.now))) }
{
    if is_written_by_run(lines, file) {
        return print_file(out, file, b" is the file that the run wrote");
    }
    print_file(out, file, b" is not the file that the run wrote")
}

// Prints the same of each file.
fn print_written<W: Write>(out: &mut W, lines: &[u8], files: &[FileSum]) -> io::Result<()>
    ensures text { IfLinesOf wrote_word lines.now (λ wrote. OnOk result (Appends (W.contents out.old) (W.contents out.new) (flat_map (written_line wrote) files.now))) }
{
    for file in files {
        print_written_file(out, lines, file)?;
    }
    Ok(())
}

// Prints what is said where all entries hold. Takes no memory. An error where a write fails.
fn print_audited<W: Write>(out: &mut W, audited: &Audited) -> io::Result<()>
    ensures text { OnOk result (AppendsAudited audited.now (W.contents out.old) (W.contents out.new)) }
{
    print_read(out, &audited.read)?;
    print_count(out, audited.count)?;
    print_written(out, audited.wrote.as_slice(), &audited.written)?;
    Ok(())
}

// The exit status where all entries hold: 0 where all files that were written are the run's, and else 7.
fn audited_code(audited: &Audited) -> u8
    ensures value { IfLinesOf wrote_word audited.now.wrote (λ wrote. result ≡ audited_status wrote audited.now) }
{
    if are_written_by_run(audited.wrote.as_slice(), &audited.written) {
        return 0;
    }
    7
}

impl Report for Audited {
    ghost use Rattle.std.specs.Prelude.{[]};
    ghost use Rattle.audit_program.specs.Endings.{AppendsAudited, IsAuditedStatus};

    ghost has_status = { IsAuditedStatus };

    ghost prints = { AppendsAudited };

    ghost aside = { λ _. [] };

    fn exit_status(&self) -> u8 {
        audited_code(self)
    }

    fn print<W: Write>(&self, out: &mut W) -> io::Result<()> {
        print_audited(out, self)
    }

    fn print_aside<W: Write>(&self, err: &mut W) -> io::Result<()> {
        Ok(())
    }
}
