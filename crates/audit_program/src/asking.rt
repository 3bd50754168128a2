//! Live days in the folders from which an audit reads.

ghost use Rattle.std.specs.Prelude.{◌≡◌, true, false, IfErr, IsErrOf, OnOk};
ghost use Rattle.program_frame.specs.InputDays.{HasInputDay, HasNoInputDay, IsWorkRefusal};
ghost use Rattle.program_frame.specs.Jobs.{IsLoadFailure as IsLoadFailureOf};
ghost use Rattle.audit_program.specs.Asking.{of_serving, IsAuditDay};
ghost use Rattle.audit_program.specs.Endings.{no_memory};
ghost use Rattle.audit_program.specs.Program.{IsFailedBy, IsLoadFailure};

use crate::failure::AuditFailure;
use crate::options::Options;
use folders::Source;
use office_run::ServeFault;
use program_frame::{Beside, Failure, FolderFault, refuse_open_beside, refuse_open_inputs};
use std::alloc::Global;

// What is said of an audit where the setup's files are not read for this.
fn refused(why: Failure<ServeFault>) -> Failure<AuditFailure>
    ensures value { result ≡ of_serving why }
{
    match why {
        Failure::BadDate => Failure::BadDate,
        Failure::Work(fault) => Failure::Work(AuditFailure::Serve(fault)),
        Failure::Folder(fault) => Failure::Folder(fault),
    }
}

// Refuses an audit where a live day is open in the folder of its setup, or of a table, a memo file or an index that the setup names.
fn refuse_open_setup<S: Source, B: Beside>(
    alloc: Global,
    options: &Options<'_>,
    source: &mut S,
    system: &B,
) -> Result<(), Failure<AuditFailure>>
    ensures closed { OnOk result (HasNoInputDay (B.answers system.now) (S.files source.old) options.now.setup.now) }
    ensures open { IsErrOf result (Failure.Folder FolderFault.DayOpen) → HasInputDay (B.answers system.now) (S.files source.old) options.now.setup.now }
    ensures refused { IfErr result (IsWorkRefusal (B.answers system.now) (IsFailedBy (S.files source.old) options.now) no_memory) }
    ensures kept { S.files source.new ≡ S.files source.old }
    ensures loads { OnOk result (S.failures source.new ≡ S.failures source.old) }
    ensures failure { IfErr result (IsLoadFailureOf (IsLoadFailure (S.files source.old) options.now (S.failures source.old) (S.failures source.new)) no_memory
        (S.failures source.new ≡ S.failures source.old)) }
{
    match refuse_open_inputs(system, alloc, source, options.setup) {
        Ok(()) => Ok(()),
        Err(why) => Err(refused(why)),
    }
}

/// Refuses an audit where a live day is open in the folder of its journal, of its setup, or of a table, a memo file or an index that the
/// setup names, or where that isn't known. The setup's faults are those of an audit.
pub(crate) fn refuse_open_run<S: Source, B: Beside>(
    alloc: Global,
    options: &Options<'_>,
    source: &mut S,
    system: &B,
) -> Result<(), Failure<AuditFailure>>
    ensures closed { OnOk result (IsAuditDay (B.answers system.now) (S.files source.old) options.now false) }
    ensures open { IsErrOf result (Failure.Folder FolderFault.DayOpen) → IsAuditDay (B.answers system.now) (S.files source.old) options.now true }
    ensures refused { IfErr result (IsWorkRefusal (B.answers system.now) (IsFailedBy (S.files source.old) options.now) no_memory) }
    ensures kept { S.files source.new ≡ S.files source.old }
    ensures loads { OnOk result (S.failures source.new ≡ S.failures source.old) }
    ensures failure { IfErr result (IsLoadFailureOf (IsLoadFailure (S.files source.old) options.now (S.failures source.old) (S.failures source.new)) no_memory
        (S.failures source.new ≡ S.failures source.old)) }
{
    match refuse_open_beside(system, alloc, options.journal.as_bytes()) {
        Ok(()) => refuse_open_setup(alloc, options, source, system),
        Err(fault) => Err(Failure::from(fault)),
    }
}
