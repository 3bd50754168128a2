//! An audit whose tables are written at the journal's end.

ghost use Rattle.std.specs.Prelude.{◌≡◌, ◌≢◌, ℕ, List, Err, IfOk, IfErr, OnOk};
ghost use Rattle.byte_io.specs.Sink.{Rises};
ghost use Rattle.folders.specs.Placed.{IsListedAfter};
ghost use Rattle.audit_program.specs.declared.failure.AuditFailure.TheVariants.{Serve};
ghost use Rattle.audit_program.specs.Program.{IsLoadFailure};
ghost use Rattle.audit_program.specs.Writing.{IsCutAudit, IsWrittenBy, IsUnwritten};

use crate::audited::Audited;
use crate::auditing::{AuditedTables, audited_tables};
use crate::failure::AuditFailure;
use crate::options::Options;
use dbf_fields::Day;
use folders::{Folder, Source};
use office_run::{CloseFault, ServeFault, write_tables};
use std::alloc::Global;

/// Audits the journal of a command line, and writes the tables and indexes at its end into the folder, dated: where the
/// journal is that of a run of this date these are the run's. Nothing is written where an entry does not hold.
pub fn audit_into<S: Source, F: Folder>(
    alloc: Global,
    options: &Options<'_>,
    today: Day,
    source: &mut S,
    folder: &mut F,
) -> Result<Audited, AuditFailure>
    ensures wrote { IfOk result (λ audited.
        IsListedAfter (λ written. IsWrittenBy (S.files source.old) options.now today written audited) (F.written folder.old) (F.written folder.new)) }
    ensures no_failure { OnOk result (F.failures folder.new ≡ F.failures folder.old) }
    ensures fault { IfErr result (IsUnwritten (S.files source.old) options.now today.year) }
    ensures kept { S.files source.new ≡ S.files source.old }
    // A file can't be read only where a load has failed, or where it is over the limit.
    ensures loads { OnOk result (S.failures source.new ≡ S.failures source.old) }
    ensures failure { IfErr result (IsLoadFailure (S.files source.old) options.now (S.failures source.old) (S.failures source.new)) }
    ensures no_file_begun { IfErr result (λ failure. ((name : List ℕ) → failure ≢ Serve (ServeFault.Close (CloseFault.Write name))) → folder.new ≡ folder.old) }
    ensures failed { (name : List ℕ) → result ≡ Err (Serve (ServeFault.Close (CloseFault.Write name))) → Rises (F.failures folder.old) (F.failures folder.new) }
    ensures whole_before_fault { IfErr result (IsCutAudit (S.files source.old) options.now today (F.written folder.old) (F.written folder.new)) }
{
    let AuditedTables {
        catalogue,
        mut audited,
    } = audited_tables(alloc, options, source)?;
    audited.written = write_tables(alloc, &catalogue, today, folder)?;
    Ok(audited)
}
