//! Why a file can't be shown, or a setup not checked, in words.

ghost use Rattle.std.specs.Prelude.{◌≡◌, OnOk};
ghost use Rattle.std.specs.Io.KnownBytes.{Appends};
ghost use Rattle.key_expr.specs.FaultWords.{expression_name, expression_words};
ghost use Rattle.tool_program.specs.Reasons.{check_reason, journal_reason as reason_of_journal, key_reason, named_reason, order_reason, show_reason, table_reason, text_reason as reason_of_text};

use crate::checking::CheckFault;
use crate::order::OrderFault;
use crate::showing::ShowFault;
use dbf_image::ImageFault;
use folders::LoadFault;
use journal_file::JournalFault;
use key_expr::ExprFault;
use std::io;
use std::io::Write;
use table_reader::print_load;
use table_text::TextFault;

fn text_reason(fault: TextFault) -> &'static [u8]
    ensures value { result.now ≡ reason_of_text fault }
{
    match fault {
        TextFault::Sink => b"the sink failed",
        TextFault::NoMemory => b"out of memory",
    }
}

// Prints a fault by its name, and what it says.
fn print_named<W: Write>(err: &mut W, name: &str, words: &str) -> io::Result<()>
    ensures text { OnOk result (Appends (W.contents err.old) (W.contents err.new) (named_reason name.now words.now)) }
{
    write!(err, "{name}: {words}")
}

fn print_expression<W: Write>(err: &mut W, fault: ExprFault) -> io::Result<()>
    ensures text { OnOk result (Appends (W.contents err.old) (W.contents err.new) (named_reason (expression_name fault) (expression_words fault))) }
{
    let name = fault.name();
    write!(err, "{name}: {fault}")
}

// That the text of an index is no key expression for its table, and why.
fn print_no_expression<W: Write>(err: &mut W, path: &str, fault: ExprFault) -> io::Result<()>
    ensures text { OnOk result (Appends (W.contents err.old) (W.contents err.new) (order_reason path.now (OrderFault.Expression fault))) }
{
    err.write_all(b"its key expression is not one for the table: ")?;
    print_expression(err, fault)?;
    Ok(())
}

fn print_order<W: Write>(err: &mut W, path: &str, fault: OrderFault) -> io::Result<()>
    ensures text { OnOk result (Appends (W.contents err.old) (W.contents err.new) (order_reason path.now fault)) }
{
    match fault {
        OrderFault::Load(why) => print_load(err, path, why),
        OrderFault::Index(why) => print_named(err, why.name(), why.words()),
        OrderFault::Expression(why) => print_no_expression(err, path, why),
        OrderFault::Stale => {
            err.write_all(b"the index is stale: its keys are not those of the table's records")
        }
        OrderFault::NoMemory => err.write_all(b"out of memory"),
    }
}

// Why the bytes of a file are no table, and what to do where the file of its memos is missing.
fn print_table_fault<W: Write>(err: &mut W, why: ImageFault) -> io::Result<()>
    ensures text { OnOk result (Appends (W.contents err.old) (W.contents err.new) (table_reason why)) }
{
    match why {
        ImageFault::MemoFileMissing => err.write_all(
            b"MemoFileMissing: the file of memos is missing: put it beside the table, or name it by --memo (diff: --memo-old, --memo-new)",
        ),
        why => print_named(err, why.name(), why.words()),
    }
}

/// Prints why the file of a path, or its table, is not shown. Takes no memory. An error where a write fails.
pub(crate) fn print_show_reason<W: Write>(
    err: &mut W,
    path: &str,
    fault: ShowFault,
) -> io::Result<()>
    ensures text { OnOk result (Appends (W.contents err.old) (W.contents err.new) (show_reason path.now fault)) }
{
    match fault {
        ShowFault::Load(why) => print_load(err, path, why),
        ShowFault::Memos(why) => print_load(err, path, why),
        ShowFault::Table(why) => print_table_fault(err, why),
        ShowFault::Order(why) => print_order(err, path, why),
        ShowFault::Text(why) => err.write_all(text_reason(why)),
    }
}

/// Prints why the setup of a path is not checked. Takes no memory. An error where a write fails.
pub(crate) fn print_check_reason<W: Write>(
    err: &mut W,
    path: &str,
    fault: &CheckFault,
) -> io::Result<()>
    ensures text { OnOk result (Appends (W.contents err.old) (W.contents err.new) (check_reason path.now fault.now)) }
{
    match fault {
        CheckFault::CannotRead => print_load(err, path, LoadFault::CannotRead),
        CheckFault::Unrecovered => print_load(err, path, LoadFault::Unrecovered),
        CheckFault::BadLine(_, Some(told)) => err.write_all(told.as_slice()),
        CheckFault::BadLine(number, None) => write!(err, "setup line {number} is bad"),
        CheckFault::NoMemory => err.write_all(b"out of memory"),
        CheckFault::Sink => err.write_all(b"the sink failed"),
    }
}

/// Why a file is no journal, after its path, as `station_audit` says it.
pub(crate) fn journal_reason(fault: JournalFault) -> &'static [u8]
    ensures value { result.now ≡ reason_of_journal fault }
{
    match fault {
        JournalFault::Cut => b" is cut",
        JournalFault::NoJournal => b" is no journal",
    }
}

/// Prints why the text of `--key` is no key expression for a table. Takes no memory. An error where a write fails.
pub(crate) fn print_key_reason<W: Write>(err: &mut W, fault: ExprFault) -> io::Result<()>
    ensures text { OnOk result (Appends (W.contents err.old) (W.contents err.new) (key_reason fault)) }
{
    err.write_all(b"--key is no key expression for the table: ")?;
    print_expression(err, fault)?;
    Ok(())
}
