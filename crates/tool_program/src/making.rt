//! A table that is made from a list of its fields.

ghost use Rattle.std.specs.Prelude.{◌≡◌, IfErr, IfOk, IsErrOf};
ghost use Rattle.program_frame.specs.declared.ending.Failure.TheVariants.{Work as OfWork};
ghost use Rattle.table_maker.specs.declared.fault.MakeFault.TheVariants.{Exists};
ghost use Rattle.table_maker.specs.Placing.{HasFailed};
ghost use Rattle.folders.specs.Paths.{folder_of_path};
ghost use Rattle.tool_program.specs.Faults.{TellsUnreadFolder};
ghost use Rattle.tool_program.specs.TableMade.{told_of, IsBadMake, IsJobOf, IsPlacedBy, IsTakenBy, IsWhyNoTableMade};

use crate::asked::MakeOptions;
use crate::fault::ToolFault;
use crate::placing::place_table;
use crate::report::ToolReport;
use folders::{Source, file_name};
use program_frame::{Failure, System, date_of};
use std::alloc::Global;
use table_maker::{MakeFault, MakeJob, stem_of};

// The work that makes the table of a command line.
fn job_of<'a>(options: &MakeOptions<'a>) -> Result<MakeJob<'a>, ToolFault<'a>>
    ensures job { IfOk result (IsJobOf options.now) }
    ensures fault { IfErr result (IsBadMake options.now) }
{
    let Some((stem, in_capitals)) = stem_of(file_name(options.out.as_bytes())) else {
        return Err(ToolFault::BadOut);
    };
    match date_of(options.today.as_bytes()) {
        Some(today) => Ok(MakeJob {
            list: options.list,
            stem,
            in_capitals,
            today,
        }),
        None => Err(ToolFault::Make(Failure::BadDate)),
    }
}

// What is told of the work of making a table that failed.
fn not_worked(fault: MakeFault<'_>) -> ToolFault<'_>
    ensures value { result ≡ told_of (OfWork fault.entry) }
{
    match fault {
        MakeFault::NoMemory => ToolFault::NoMemory,
        fault => ToolFault::Make(Failure::Work(fault)),
    }
}

// What is told of a table that is not made.
fn not_made(why: Failure<MakeFault<'_>>) -> ToolFault<'_>
    ensures value { result ≡ told_of why.entry }
{
    match why {
        Failure::Work(fault) => not_worked(fault),
        why => ToolFault::Make(why),
    }
}

/// Makes the table of a command line, in the folder that its path is in.
///
/// `BadOut` where its name ends with neither `.DBF` nor `.dbf`, `NoMemory` where memory is refused; else `Make` says why it is not made.
#[tactic(auto, using(crate::proofs::MadeLaws::bad_unread))]
pub(crate) fn make_table<'a, F: Source, Y: System>(
    alloc: Global,
    source: &mut F,
    system: &Y,
    options: &MakeOptions<'a>,
) -> Result<ToolReport, ToolFault<'a>>
    ensures report { IfOk result (λ report. report ≡ ToolReport.Good) }
    ensures made { IfOk result (λ _. IsPlacedBy Y.Disk.meaning (Y.opens system.now (folder_of_path options.now.out.now)) (Y.answers system.now) (F.files source.old) options.now) }
    ensures taken { IsErrOf result (ToolFault.Make (OfWork Exists))
        → IsTakenBy Y.Disk.meaning (Y.opens system.now (folder_of_path options.now.out.now)) options.now }
    ensures unread { (told : ToolFault) → TellsUnreadFolder told → IsErrOf result told
        → HasFailed Y.Disk.meaning (Y.opens system.now (folder_of_path options.now.out.now)) }
    ensures fault { IfErr result (IsWhyNoTableMade (F.files source.old) options.now) }
    ensures kept { F.files source.new ≡ F.files source.old }
{
    let job = job_of(options)?;
    match place_table(alloc, &job, options.replace, source, system, options.out) {
        Ok(_) => Ok(ToolReport::Good),
        Err(why) => Err(not_made(why)),
    }
}
