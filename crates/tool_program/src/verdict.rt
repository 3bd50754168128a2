//! Whether the server opens what a setup names, in words.

ghost use Rattle.std.specs.Prelude.{◌≡◌, ◌++◌, OnOk};
ghost use Rattle.std.specs.Fmt.{decimal};
ghost use Rattle.tool_program.specs.Verdict.{file_words as words_of_file, good_line as line_of_good, index_words, open_words, unopened_words, table_words, verdict_line};

use catalogue_core::OpenFault;
use office_run::{FileFault, ServeFault};
use station_lines::LF;
use std::alloc::{AllocError, Global};

fn append_number(alloc: Global, text: &mut Vec<u8>, number: usize) -> Result<(), AllocError>
    ensures ok { OnOk result (text.new.items ≡ text.old.items ++ decimal number) }
{
    let digits = format!(in alloc; "{number}")?;
    text.extend_from_slice(digits.as_bytes())
}

// A table by its number, and then more.
fn append_table(
    alloc: Global,
    text: &mut Vec<u8>,
    table: u32,
    more: &[u8],
) -> Result<(), AllocError>
    ensures ok { OnOk result (text.new.items ≡ text.old.items ++ (table_words table ++ more.now)) }
{
    text.extend_from_slice(b"table ")?;
    append_number(alloc, text, table as usize)?;
    text.extend_from_slice(more)
}

// An index by its number and that of its table, and then more.
fn append_index(
    alloc: Global,
    text: &mut Vec<u8>,
    table: u32,
    index: u32,
    more: &[u8],
) -> Result<(), AllocError>
    ensures ok { OnOk result (text.new.items ≡ text.old.items ++ (index_words table index ++ more.now)) }
{
    text.extend_from_slice(b"index ")?;
    append_number(alloc, text, index as usize)?;
    text.extend_from_slice(b" of ")?;
    append_table(alloc, text, table, more)
}

fn file_words(fault: FileFault) -> &'static [u8]
    ensures value { result.now ≡ words_of_file fault }
{
    match fault {
        FileFault::CannotRead => b" can't be read",
        FileFault::Unrecovered => b" lies in a folder that is not recovered",
        FileFault::Image(_) => b" is no table",
        FileFault::Ndx(_) => b" is no index",
    }
}

fn append_open_fault(alloc: Global, text: &mut Vec<u8>, fault: OpenFault) -> Result<(), AllocError>
    ensures ok { OnOk result (text.new.items ≡ text.old.items ++ open_words fault) }
{
    match fault {
        OpenFault::NoStation => text.extend_from_slice(b"there is no station"),
        OpenFault::TooManyStations => text.extend_from_slice(b"there are too many stations"),
        OpenFault::TooManyTables => text.extend_from_slice(b"there are too many tables"),
        OpenFault::DuplicateTable(table) => {
            append_table(alloc, text, table, b" has the name of an earlier one")
        }
        OpenFault::TooManyIndexes(table) => {
            append_table(alloc, text, table, b" has too many indexes")
        }
        OpenFault::DuplicateIndex(table, index) => {
            append_index(
                alloc,
                text,
                table,
                index,
                b" has the name of an earlier one",
            )
        }
        OpenFault::BadExpression(table, index, _) => {
            append_index(
                alloc,
                text,
                table,
                index,
                b" has no key expression for its table",
            )
        }
        OpenFault::IndexStale(table, index) => append_index(
            alloc,
            text,
            table,
            index,
            b" is stale",
        ),
        OpenFault::NoMemory => text.extend_from_slice(b"out of memory"),
    }
}

// Why the server opens nothing.
fn append_reason(alloc: Global, text: &mut Vec<u8>, fault: &ServeFault) -> Result<(), AllocError>
    ensures ok { OnOk result (text.new.items ≡ text.old.items ++ unopened_words fault.now) }
{
    match fault {
        ServeFault::Setup(bad) => {
            text.extend_from_slice(b"line ")?;
            append_number(alloc, text, bad.number)?;
            text.extend_from_slice(b" of the setup is bad")
        }
        ServeFault::File(path, fault) => {
            text.extend_from_slice(path.as_slice())?;
            text.extend_from_slice(file_words(*fault))
        }
        ServeFault::Refused(fault) => append_open_fault(alloc, text, *fault),
        // What a run or a close ends in is none of opening.
        ServeFault::Run(_) => Ok(()),
        ServeFault::Close(_) => Ok(()),
        ServeFault::NoMemory => text.extend_from_slice(b"out of memory"),
    }
}

// That the server opens all, and if a day is open, when.
fn good_line(is_day_open: bool) -> &'static [u8]
    ensures value { result.now ≡ line_of_good is_day_open }
{
    if is_day_open {
        b"good: the server opens all once the day is closed\n"
    } else {
        b"good: the server opens all\n"
    }
}

/// Appends the last line of a check: that the server opens all, or why it opens nothing. While a day is open beside a table it opens all
/// only once that is closed.
///
/// An `Err` says that there was no memory.
pub fn append_verdict(
    alloc: Global,
    text: &mut Vec<u8>,
    is_day_open: bool,
    fault: &Option<ServeFault>,
) -> Result<(), AllocError>
    ensures ok { OnOk result (text.new.items ≡ text.old.items ++ verdict_line is_day_open fault.now) }
{
    let Some(fault) = fault else {
        return text.extend_from_slice(good_line(is_day_open));
    };
    text.extend_from_slice(b"bad: the server opens nothing: ")?;
    append_reason(alloc, text, fault)?;
    text.push(LF)?;
    Ok(())
}
