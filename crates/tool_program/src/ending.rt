//! What a call of the program ends in that could not do what it was asked for, or not all of it.

ghost use Rattle.std.specs.Prelude.{◌≡◌, ◌≢◌, true, false, Err, Ok, IfErr, IfOk, OnOk};
ghost use Rattle.tool_program.specs.Faults.{path_at_fault, IsToolFaultOf, IsToolFaultOfAnswers, IsToolFaultOfDiff, IsToolFaultOfSetup};
ghost use Rattle.tool_program.specs.Faults.{is_no_memory as is_want_of_memory, shown_fault as fault_of_showing};
ghost use Rattle.tool_program.specs.Faults.{is_ndx_no_memory as is_want_of_ndx, is_expression_no_memory as is_want_of_expression};
ghost use Rattle.tool_program.specs.Faults.{is_order_no_memory as is_want_of_order};

use crate::asked::Options;
use crate::checking::CheckFault;
use crate::comparing::CompareFault;
use crate::fault::ToolFault;
use crate::journal::AnswersFault;
use crate::order::OrderFault;
use crate::report::ToolReport;
use crate::showing::ShowFault;
use key_expr::ExprFault;
use ndx_index::NdxFault;
use table_reader::{TableReadFault, is_image_without_memory, is_load_without_memory};
use table_text::TextFault;

// Whether a fault of an index file's bytes is a want of memory.
fn is_ndx_no_memory(why: NdxFault) -> bool
    ensures value { result ≡ is_want_of_ndx why }
{
    matches!(why, NdxFault::NoMemory)
}

// Whether a fault of a key expression is one.
fn is_expression_no_memory(why: ExprFault) -> bool
    ensures value { result ≡ is_want_of_expression why }
{
    matches!(why, ExprFault::NoMemory)
}

// Whether a fault of an index is one.
fn is_order_no_memory(why: OrderFault) -> bool
    ensures value { result ≡ is_want_of_order why }
{
    match why {
        OrderFault::Load(why) => is_load_without_memory(why),
        OrderFault::Index(why) => is_ndx_no_memory(why),
        OrderFault::Expression(why) => is_expression_no_memory(why),
        OrderFault::Stale => false,
        OrderFault::NoMemory => true,
    }
}

// Whether a fault is one.
fn is_no_memory(fault: ShowFault) -> bool
    ensures value { result ≡ is_want_of_memory fault }
{
    match fault {
        ShowFault::Load(why) => is_load_without_memory(why),
        ShowFault::Memos(why) => is_load_without_memory(why),
        ShowFault::Table(why) => is_image_without_memory(why),
        ShowFault::Order(why) => is_order_no_memory(why),
        ShowFault::Text(TextFault::NoMemory) => true,
        ShowFault::Text(TextFault::Sink) => false,
    }
}

/// The path of the index or of the file of memos, where the fault is one of it, and else of the table.
pub(crate) fn faulty_path<'a>(options: &Options<'a>, fault: ShowFault) -> &'a str
    ensures value { result.now ≡ path_at_fault options.now fault }
{
    match fault {
        ShowFault::Order(_) => options.order.unwrap_or(options.table),
        ShowFault::Memos(_) => options.memos.unwrap_or(options.table),
        _ => options.table,
    }
}

/// What a call ends in whose output failed. That nobody reads it any more is no fault.
pub(crate) fn output_failed<'a>(is_closed: bool) -> Result<ToolReport, ToolFault<'a>>
    ensures unread { is_closed ≡ true → result ≡ Ok ToolReport.Unread }
    ensures failed { is_closed ≡ false → result ≡ Err ToolFault.Output }
{
    if is_closed {
        Ok(ToolReport::Unread)
    } else {
        Err(ToolFault::Output)
    }
}

// What is told of a fault of the file of a path.
fn file_fault(fault: ShowFault, path: &str) -> ToolFault<'_>
    ensures told { IsToolFaultOf fault path.now result }
    ensures unsent { result ≢ ToolFault.Output }
{
    if is_no_memory(fault) {
        ToolFault::NoMemory
    } else {
        ToolFault::Table(path, fault)
    }
}

/// What a call ends in that could not show the file of a path, or not all of it.
pub fn not_shown(fault: ShowFault, is_closed: bool, path: &str) -> Result<ToolReport, ToolFault<'_>>
    ensures fault { IfErr result (IsToolFaultOf fault path.now) }
    ensures output { result ≡ Err ToolFault.Output → is_closed ≡ false }
    ensures unread { IfOk result (λ report. report ≡ ToolReport.Unread) }
    ensures closed { OnOk result ((fault ≡ ShowFault.Text TextFault.Sink) × (is_closed ≡ true)) }
{
    match fault {
        ShowFault::Text(TextFault::Sink) => output_failed(is_closed),
        fault => Err(file_fault(fault, path)),
    }
}

/// What a call ends in that could not check the setup of a path, or not tell all of it.
pub fn not_checked(
    fault: CheckFault,
    is_closed: bool,
    path: &str,
) -> Result<ToolReport, ToolFault<'_>>
    ensures fault { IfErr result (IsToolFaultOfSetup fault path.now) }
    ensures output { result ≡ Err ToolFault.Output → is_closed ≡ false }
    ensures unread { IfOk result (λ report. report ≡ ToolReport.Unread) }
    ensures closed { OnOk result ((fault ≡ CheckFault.Sink) × (is_closed ≡ true)) }
{
    match fault {
        CheckFault::Sink => output_failed(is_closed),
        CheckFault::NoMemory => Err(ToolFault::NoMemory),
        fault => Err(ToolFault::Setup(path, fault)),
    }
}

// Why a table is not read, as why it is not shown.
fn shown_fault(why: TableReadFault) -> ShowFault
    ensures value { result ≡ fault_of_showing why }
{
    match why {
        TableReadFault::Load(why) => ShowFault::Load(why),
        TableReadFault::Memos(why) => ShowFault::Memos(why),
        TableReadFault::NoTable(why) => ShowFault::Table(why),
    }
}

/// What a call ends in that could not compare two tables, or not tell all of them.
pub(crate) fn not_compared(
    fault: CompareFault<'_>,
    is_closed: bool,
) -> Result<ToolReport, ToolFault<'_>>
    ensures fault { IfErr result (IsToolFaultOfDiff fault.entry) }
    ensures output { result ≡ Err ToolFault.Output → (fault.entry ≡ CompareFault.Text TextFault.Sink) × (is_closed ≡ false) }
    ensures unread { IfOk result (λ report. report ≡ ToolReport.Unread) }
    ensures closed { OnOk result ((fault.entry ≡ CompareFault.Text TextFault.Sink) × (is_closed ≡ true)) }
{
    match fault {
        CompareFault::Table(path, why) => Err(file_fault(shown_fault(why), path)),
        CompareFault::Key(_, ExprFault::NoMemory) => Err(ToolFault::NoMemory),
        CompareFault::Key(path, why) => Err(ToolFault::Key(path, why)),
        CompareFault::Text(TextFault::NoMemory) => Err(ToolFault::NoMemory),
        CompareFault::Text(TextFault::Sink) => output_failed(is_closed),
    }
}

/// What a call ends in that could not show the answers of the journal of a path, or not all of them.
pub(crate) fn no_answers(
    fault: AnswersFault,
    is_closed: bool,
    path: &str,
) -> Result<ToolReport, ToolFault<'_>>
    ensures fault { IfErr result (IsToolFaultOfAnswers fault path.now) }
    ensures output { result ≡ Err ToolFault.Output → (fault ≡ AnswersFault.Sink) × (is_closed ≡ false) }
    ensures unread { IfOk result (λ report. report ≡ ToolReport.Unread) }
    ensures closed { OnOk result ((fault ≡ AnswersFault.Sink) × (is_closed ≡ true)) }
{
    match fault {
        AnswersFault::BadStation => Err(ToolFault::BadStation),
        AnswersFault::Load(why) => Err(file_fault(ShowFault::Load(why), path)),
        AnswersFault::Journal(why) => Err(ToolFault::Journal(path, why)),
        AnswersFault::NoMemory => Err(ToolFault::NoMemory),
        AnswersFault::Sink => output_failed(is_closed),
    }
}
