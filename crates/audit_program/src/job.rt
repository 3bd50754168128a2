//! The audit that a command line asks for with a folder for the tables.

use crate::asking::refuse_open_run;
use crate::audited::Audited;
use crate::failure::AuditFailure;
use crate::options::Options;
use crate::writing::audit_into;
use dbf_fields::Day;
use folders::{Folder, Source};
use office_run::{CloseFault, ServeFault};
use program_frame::{Beside, Failure, Job, Work};
use std::alloc::Global;
use std::io::Write;

/// The audit of a command line's journal, at whose end the tables are written, dated. See [`audit_into`].
#[derive(Drop)]
pub(crate) struct AuditJob<'a> {
    /// What the command line says.
    pub options: Options<'a>,
    /// The date that the written tables tell.
    pub today: Day,
}

impl<'a> Job for AuditJob<'a> {
    ghost use Rattle.std.specs.Prelude.{◌≡◌};
    ghost use Rattle.audit_program.specs.Asking.{IsAuditDay};
    ghost use Rattle.audit_program.specs.Program.{IsLoadFailure};
    ghost use Rattle.audit_program.specs.Writing.{says_unwritten, IsUnwritten, IsWrittenBy};

    type Report = Audited;

    type Fault = AuditFailure;

    ghost writes = { λ job files written audited. IsWrittenBy files job.options job.today written audited };

    ghost fails = { λ job files failure. IsUnwritten files job.options job.today.year failure };

    ghost loads = { λ job files before after failure. IsLoadFailure files job.options before after failure };

    ghost is_unwritten = { says_unwritten };

    ghost finds_day = { λ job answers files found. IsAuditDay answers files job.options found };

    fn refuse_open_day<S: Source, B: Beside>(
        &self,
        alloc: Global,
        source: &mut S,
        system: &B,
    ) -> Result<(), Failure<AuditFailure>> {
        refuse_open_run(alloc, &self.options, source, system)
    }

    fn is_unwritten(fault: &AuditFailure) -> bool
        ensures value { result ≡ says_unwritten fault.now }
    {
        matches!(
            fault,
            AuditFailure::Serve(ServeFault::Close(CloseFault::Write(_)))
        )
    }
}

impl<'a> Work for AuditJob<'a> {
    fn work<S: Source, F: Folder, E: Write>(
        &self,
        alloc: Global,
        source: &mut S,
        folder: &mut F,
        err: &mut E,
    ) -> Result<Audited, AuditFailure> {
        audit_into(alloc, &self.options, self.today, source, folder)
    }
}
