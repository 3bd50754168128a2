//! The whole run that a command line asks for.

ghost use Rattle.std.specs.Prelude.{◌≡◌, IfErr, IfOk, OnOk};
ghost use Rattle.folders.specs.Placed.{IsListedAfter};
ghost use Rattle.server_program.specs.Program.{IsServedBy};
ghost use Rattle.office_run.specs.Loading.{IsFailure};
ghost use Rattle.office_run.specs.WholeRun.{IsServeFault};

use crate::options::Options;
use crate::served::Served;
use crate::warning::warn_of_files;
use byte_io::Bytes;
use folders::{Folder, Source};
use office_run::{Asked, CloseFault, Gate, ServeFault, serve_asked};
use program_frame::{Beside, Failure, Job, System, refuse_open_inputs};
use std::alloc::Global;
use std::io::Write;
use std::sync::Wait;
use std::thread::Threads;

/// The whole run of a command line: of the setup of its path, on its day, with the indexes made anew where it says so, and with
/// the journal's file where it asks for it. See [`serve_asked`].
#[derive(Drop)]
pub struct ServeJob<'a, R: Threads + Wait + Sync, Y: System, G: Gate + Sync> {
    /// Where the stations' threads run.
    pub rt: &'a R,
    /// Where the files of the setup lie.
    pub system: &'a Y,
    /// What the command line says.
    pub options: Options<'a>,
    /// What a station passes before each of its commands.
    pub gate: &'a G,
}

impl<'a, R: Threads + Wait + Sync, Y: System, G: Gate + Sync> Job for ServeJob<'a, R, Y, G> {
    ghost use Rattle.program_frame.specs.InputDays.{IsInputDay};
    ghost use Rattle.server_program.specs.Program.{says_unwritten};

    type Report = Served;

    type Fault = ServeFault;

    ghost writes = { λ job files written served. IsServedBy files job.options written served };

    ghost fails = { λ job files fault. IsServeFault files job.options.setup.now job.options.reindex job.options.today.year fault };

    ghost loads = { λ job files before after fault. IsFailure files before after fault };

    ghost is_unwritten = { says_unwritten };

    ghost finds_day = { λ job answers files found. IsInputDay answers files job.options.setup.now found };

    fn refuse_open_day<S: Source, B: Beside>(
        &self,
        alloc: Global,
        source: &mut S,
        system: &B,
    ) -> Result<(), Failure<ServeFault>> {
        refuse_open_inputs(system, alloc, source, self.options.setup)
    }

    fn is_unwritten(fault: &ServeFault) -> bool {
        matches!(fault, ServeFault::Close(CloseFault::Write(_)))
    }
}

impl<'a, R: Threads + Wait + Sync, Y: System, G: Gate + Sync> ServeJob<'a, R, Y, G> {
    /// Serves the run: files are read from the source, and written into the folder. Which files of the setup stay as they are, and
    /// which others are replaced, is printed on `err`; a stream that takes no text changes nothing.
    pub fn work<S: Source, F: Folder, E: Write>(
        &self,
        alloc: Global,
        source: &mut S,
        folder: &mut F,
        err: &mut E,
    ) -> Result<Served, ServeFault>
        ensures done { IfOk result (λ served.
            IsListedAfter (λ written. IsServedBy (S.files source.old) self.now.options written served) (F.written folder.old) (F.written folder.new)) }
        ensures no_failure { OnOk result (F.failures folder.new ≡ F.failures folder.old) }
        ensures fault { IfErr result (IsServeFault (S.files source.old) self.now.options.setup.now self.now.options.reindex self.now.options.today.year) }
        ensures kept { S.files source.new ≡ S.files source.old }
        ensures loads { OnOk result (S.failures source.new ≡ S.failures source.old) }
        ensures failure { IfErr result (IsFailure (S.files source.old) (S.failures source.old) (S.failures source.new)) }
    {
        let options = self.options;
        let setup = Bytes::from_slice(alloc, options.setup.as_bytes())?;
        warn_of_files(self.system, alloc, &setup, source, options.out, err)?;
        let asked = Asked {
            setup: &setup,
            today: options.today,
            reindex: options.reindex,
            journal: options.journal,
        };
        let counts = serve_asked(self.rt, alloc, &asked, source, folder, self.gate)?;
        Ok(Served { counts })
    }
}
