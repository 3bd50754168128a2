//! What is said at the end of a call of the program.

ghost use Rattle.std.specs.Prelude.{◌≡◌, codes, IfErr, IfOk, IfSome, OnOk};
ghost use Rattle.std.specs.Io.KnownBytes.{Appends};
ghost use Rattle.std.specs.Process.{exit_status};
ghost use Rattle.program_frame.specs.Endings.{ending_line, ending_status};
ghost use Rattle.tool_program.specs.declared.fault.ToolFault.TheVariants.{NoMemory};
ghost use Rattle.tool_program.specs.Answers.{report_status};
ghost use Rattle.tool_program.specs.Faults.{tool_status, tool_words};

use crate::fault::ToolFault;
use crate::report::ToolReport;
use program_frame::{Ending, Told, tell};
use std::io::Write;

/// Says how a call of the program ended, as [`tell`] does: why it has not shown or checked what it was asked for, or the help.
pub fn tell_end<O: Write, E: Write>(
    out: &mut O,
    err: &mut E,
    ended: &Result<ToolReport, Ending<ToolFault<'_>>>,
) -> Told
    ensures done { IfOk ended.now (λ report. exit_status result.status ≡ report_status report) }
    ensures failed { IfErr ended.now (λ ending. exit_status result.status ≡ ending_status tool_status ending) }
    ensures line { IfErr ended.now (λ ending. IfSome (ending_line tool_words NoMemory (codes "table_tool") ending) (λ line.
        OnOk result.err (Appends (E.contents err.old) (E.contents err.new) line))) }
{
    tell(out, err, "table_tool", ended)
}
