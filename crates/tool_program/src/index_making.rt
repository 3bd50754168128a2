//! An index that is made of a table.

ghost use Rattle.std.specs.Prelude.{◌≡◌, IfErr, IfOk, IsErrOf};
ghost use Rattle.program_frame.specs.declared.ending.Failure.TheVariants.{Work as OfWork};
ghost use Rattle.table_maker.specs.declared.index_fault.IndexJobFault.TheVariants.{Exists};
ghost use Rattle.table_maker.specs.Placing.{HasFailed};
ghost use Rattle.folders.specs.Paths.{folder_of_path};
ghost use Rattle.tool_program.specs.Faults.{TellsUnreadFolder};
ghost use Rattle.tool_program.specs.TableIndexed.{told_of_index, IsBadIndex, IsIndexJobOf, IsIndexPlacedBy, IsIndexTakenBy, IsWhyNoIndexMade};

use crate::asked::IndexOptions;
use crate::fault::ToolFault;
use crate::placing::place_table;
use crate::report::ToolReport;
use folders::{Source, file_name};
use program_frame::{Failure, System};
use std::alloc::Global;
use table_maker::{IndexJob, IndexJobFault, is_index_name};

// The work that makes the index of a command line.
fn job_of<'a>(options: &IndexOptions<'a>) -> Result<IndexJob<'a>, ToolFault<'a>>
    ensures job { IfOk result (IsIndexJobOf options.now) }
    ensures fault { IfErr result (IsBadIndex options.now) }
{
    let name = file_name(options.out.as_bytes());
    if !is_index_name(name) {
        return Err(ToolFault::BadIndexOut);
    }
    Ok(IndexJob {
        table: options.table,
        memos: options.memos,
        expression: options.expression,
        name,
    })
}

// What is told of the work of making an index that failed.
fn not_worked(fault: IndexJobFault<'_>) -> ToolFault<'_>
    ensures value { result ≡ told_of_index (OfWork fault.entry) }
{
    match fault {
        IndexJobFault::NoMemory => ToolFault::NoMemory,
        fault => ToolFault::Index(Failure::Work(fault)),
    }
}

// What is told of an index that is not made.
fn not_made(why: Failure<IndexJobFault<'_>>) -> ToolFault<'_>
    ensures value { result ≡ told_of_index why.entry }
{
    match why {
        Failure::Work(fault) => not_worked(fault),
        why => ToolFault::Index(why),
    }
}

/// Makes the index of a command line, in the folder that its path is in: the pairs of all records of the table, in the order of their keys.
///
/// `BadIndexOut` where its name ends with neither `.NDX` nor `.ndx`, `NoMemory` where memory is refused; else `Index` says why it is not
/// made. The index has not been written then.
#[tactic(auto, using(crate::proofs::IndexLaws::bad_index_unread))]
pub(crate) fn make_index<'a, F: Source, Y: System>(
    alloc: Global,
    source: &mut F,
    system: &Y,
    options: &IndexOptions<'a>,
) -> Result<ToolReport, ToolFault<'a>>
    ensures report { IfOk result (λ report. report ≡ ToolReport.Good) }
    ensures made { IfOk result (λ _. IsIndexPlacedBy Y.Disk.meaning (Y.opens system.now (folder_of_path options.now.out.now)) (Y.answers system.now) (F.files source.old) options.now) }
    ensures taken { IsErrOf result (ToolFault.Index (OfWork Exists))
        → IsIndexTakenBy Y.Disk.meaning (Y.opens system.now (folder_of_path options.now.out.now)) options.now }
    ensures unread { (told : ToolFault) → TellsUnreadFolder told → IsErrOf result told
        → HasFailed Y.Disk.meaning (Y.opens system.now (folder_of_path options.now.out.now)) }
    ensures fault { IfErr result (IsWhyNoIndexMade (F.files source.old) options.now) }
    ensures kept { F.files source.new ≡ F.files source.old }
{
    let job = job_of(options)?;
    match place_table(alloc, &job, options.replace, source, system, options.out) {
        Ok(_) => Ok(ToolReport::Good),
        Err(why) => Err(not_made(why)),
    }
}
