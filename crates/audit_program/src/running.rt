//! What the program does with the words of its command line.

ghost use Rattle.std.specs.Prelude.{◌≡◌, IfErr, IfOk, IsErrOf, map};
ghost use Rattle.audit_program.specs.Asked.{AskForOpenDay, IsAuditedAsAsked, IsAuditedFor, IsForOpenDay, IsUnaudited, IsUnauditedAsAsked};

use crate::audited::Audited;
use crate::auditing::audit_options;
use crate::failure::AuditFailure;
use crate::job::AuditJob;
use crate::options::{Options, read_options};
use folders::Source;
use program_frame::{Ending, Failure, FolderFault, System, run_into};
use std::alloc::Global;
use std::convert::AsStr;
use std::io::Write;

/// The program's name, as it begins what is printed.
pub const PROGRAM: &str = "station_audit";

// Audits the journal of a command line, and where it names a folder, writes the tables at its end into it.
#[tactic(auto, using(crate::proofs::AskingLaws::with_no_day))]
fn run_options<Y: System, S: Source, E: Write>(
    alloc: Global,
    system: &Y,
    source: &mut S,
    err: &mut E,
    options: Options<'_>,
) -> Result<Audited, Failure<AuditFailure>>
    ensures audited { IfOk result (IsAuditedFor Y.Disk.meaning (Y.opens system.now) (Y.answers system.now) (S.files source.old) options.entry options.entry.written) }
    ensures fault { IfErr result (IsUnaudited (S.files source.old) options.entry options.entry.written) }
    ensures open_day { IsErrOf result (Failure.Folder FolderFault.DayOpen)
        → IsForOpenDay Y.Disk.meaning (Y.opens system.now) (Y.answers system.now) (S.files source.old) options.entry }
    ensures kept { S.files source.new ≡ S.files source.old }
{
    match options.written {
        Some(written) => {
            let job = AuditJob {
                options,
                today: written.today,
            };
            run_into(alloc, &job, source, system, written.out, err)
        }
        None => match audit_options(alloc, &options, source) {
            Ok(audited) => Ok(audited),
            Err(failure) => Err(Failure::Work(failure)),
        },
    }
}

/// Audits as the words of a command line ask for, of which the first is the program's name. Files are read from the source; where
/// the words name a folder, the tables at the journal's end are put into it, which no other run has meanwhile; not where a live day is
/// open in it, or in one from which the audit reads.
pub fn run_program<Y: System, S: Source, E: Write, T: AsStr>(
    alloc: Global,
    system: &Y,
    source: &mut S,
    err: &mut E,
    words: &[T],
) -> Result<Audited, Ending<Failure<AuditFailure>>>
    ensures audited { IfOk result (IsAuditedAsAsked Y.Disk.meaning (Y.opens system.now) (Y.answers system.now) (S.files source.old) (map T.text words.entry.now)) }
    ensures fault { IfErr result (IsUnauditedAsAsked (S.files source.old) (map T.text words.entry.now)) }
    // That a day is open is said only where it is: in the folder that the words name, or in one from which the audit reads.
    ensures open_day { IsErrOf result (Ending.Failed (Failure.Folder FolderFault.DayOpen))
        → AskForOpenDay Y.Disk.meaning (Y.opens system.now) (Y.answers system.now) (S.files source.old) (map T.text words.entry.now) }
    ensures kept { S.files source.new ≡ S.files source.old }
{
    let options = read_options(alloc, words)?;
    Ok(run_options(alloc, system, source, err, options)?)
}
