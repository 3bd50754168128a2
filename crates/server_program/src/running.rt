//! What the program does with the words of its command line.

ghost use Rattle.std.specs.Prelude.{◌≡◌, ◌⊎◌, IfErr, IfOk, IsErrOf, OnOk, map};
ghost use Rattle.program_frame.specs.Placing.{HasPutInto};
ghost use Rattle.program_frame.specs.declared.folder.FolderFault.{FolderFault};
ghost use Rattle.program_frame.specs.BesideDay.{HasOpenDayIn, IsWithoutDay};
ghost use Rattle.program_frame.specs.InputDays.{HasInputDay, HasNoInputDay};
ghost use Rattle.server_program.specs.Program.{AskForOpenDay, IsServedAsAsked, IsServedBy, IsUnserved, IsUnservedAsAsked};

use crate::in_place::serve_into;
use crate::job::ServeJob;
use crate::options::{Options, read_options};
use crate::served::Served;
use folders::Source;
use office_run::{OpenGate, ServeFault};
use program_frame::{Ending, Failure, System};
use std::alloc::Global;
use std::convert::AsStr;
use std::io::Write;
use std::sync::Wait;
use std::thread::Threads;

/// The program's name, as it begins what is printed.
pub const PROGRAM: &str = "station_server";

// Serves the run of a command line into its folder.
fn serve_options<R: Threads + Wait + Sync, Y: System, S: Source, E: Write>(
    rt: &R,
    alloc: Global,
    system: &Y,
    source: &mut S,
    err: &mut E,
    options: &Options<'_>,
) -> Result<Served, Failure<ServeFault>>
    ensures served { IfOk result (λ served.
        HasPutInto Y.Disk.meaning (IsWithoutDay Y.Disk.meaning (Y.answers system.now) (Y.opens system.now options.now.out.now))
        (λ written. IsServedBy (S.files source.old) options.now written served)) }
    ensures inputs { OnOk result (HasNoInputDay (Y.answers system.now) (S.files source.old) options.now.setup.now) }
    ensures fault { IfErr result (IsUnserved (S.files source.old) options.now) }
    ensures kept { S.files source.new ≡ S.files source.old }
    ensures open_day { IsErrOf result (Failure.Folder FolderFault.DayOpen) → HasOpenDayIn Y.Disk.meaning (Y.answers system.now) (Y.opens system.now options.now.out.now)
        ⊎ HasInputDay (Y.answers system.now) (S.files source.old) options.now.setup.now }
{
    let job = ServeJob {
        rt,
        system,
        options: *options,
        gate: &OpenGate,
    };
    serve_into(alloc, &job, source, err)
}

/// Serves the run that the words of a command line ask for, of which the first is the program's name. Files are read from the
/// source, and the new ones put into the folder that the words name, which no other run has meanwhile. What its user has to know
/// before the end is printed on `err`.
pub fn run_program<R: Threads + Wait + Sync, Y: System, S: Source, E: Write, T: AsStr>(
    rt: &R,
    alloc: Global,
    system: &Y,
    source: &mut S,
    err: &mut E,
    words: &[T],
) -> Result<Served, Ending<Failure<ServeFault>>>
    ensures served { IfOk result
        (IsServedAsAsked Y.Disk.meaning (Y.opens system.now) (Y.answers system.now) (S.files source.old) (map T.text words.entry.now)) }
    ensures fault { IfErr result (IsUnservedAsAsked (S.files source.old) (map T.text words.entry.now)) }
    ensures kept { S.files source.new ≡ S.files source.old }
    // That a day is open is said only where it is: in the folder that the words name, or in one from which the run reads.
    ensures open_day { IsErrOf result (Ending.Failed (Failure.Folder FolderFault.DayOpen))
        → AskForOpenDay Y.Disk.meaning (Y.opens system.now) (Y.answers system.now) (S.files source.old) (map T.text words.entry.now) }
{
    let options = read_options(alloc, words)?;
    Ok(serve_options(rt, alloc, system, source, err, &options)?)
}
