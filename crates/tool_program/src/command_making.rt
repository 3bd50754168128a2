//! The sub-commands that make tables and indexes, as `clap` is told them.

ghost use Rattle.std.specs.Prelude.{◌≡◌, IfOk};
ghost use Rattle.clap.specs.Words.{app_of};
ghost use Rattle.tool_program.specs.Command.{index_app, load_app, make_app};
ghost use Rattle.tool_program.specs.Command.{with_csv_form as with_csv_rules, with_csv_paths, with_new_table_path};

use crate::command_parts::{path, sub_command, with_table};
use clap::Command;
use program_frame::{flag, option, required_option};
use std::alloc::{AllocError, Global};

/// The sub-command that makes an empty table. An error where memory is refused.
pub(crate) fn make_command<'a>(alloc: Global) -> Result<Command<'a>, AllocError>
    ensures app { IfOk result (λ command. app_of command ≡ make_app) }
{
    sub_command(
        alloc,
        "make",
        "Makes an empty table, and the file of its memos, from a list of its fields",
        "Example:\n  table_tool make FIELDS.TXT --out PEOPLE.DBF --today 19870302",
    )
    .arg(path(
        alloc,
        "list",
        "FIELDS.TXT",
        "The list: a line for each field, as `fields` prints it",
    ))?
    .arg(required_option(alloc, "out", "FILE.DBF", "The table, FILE.DBF or file.dbf"))?
    .arg(required_option(alloc, "today", "YYYYMMDD", "The date that the table tells"))?
    .arg(flag(alloc, "replace", "Replace files that are there"))
}

/// The sub-command that puts records of a text of CSV after those of a table. An error where memory is refused.
pub(crate) fn load_command<'a>(alloc: Global) -> Result<Command<'a>, AllocError>
    ensures app { IfOk result (λ command. app_of command ≡ load_app) }
{
    with_csv_form(
        alloc,
        with_new_table(
            alloc,
            with_csv(
                alloc,
                sub_command(
                    alloc,
                    "load",
                    "Makes a table of another one and the records of a file of CSV, which come after its own",
                    "Example:\n  table_tool load LEDGER.CSV --into LEDGER.DBF --out TWICE.DBF --today 19870302",
                ),
            )?,
        )?,
    )?
    .arg(flag(
        alloc,
        "cut",
        "Cut a text that is too wide for its field, in place of refusing it",
    ))?
    .arg(flag(alloc, "replace", "Replace files that are there"))
}

/// The sub-command that makes an index of a table. An error where memory is refused.
pub(crate) fn index_command<'a>(alloc: Global) -> Result<Command<'a>, AllocError>
    ensures app { IfOk result (λ command. app_of command ≡ index_app) }
{
    with_table(
        alloc,
        sub_command(
            alloc,
            "index",
            "Makes an index of a table by a key expression, as INDEX ON does",
            "Example:\n  table_tool index MEMBERS.DBF --on NAME --out BYNAME.NDX",
        ),
    )?
    .arg(required_option(alloc, "on", "EXPRESSION", "The key expression"))?
    .arg(required_option(alloc, "out", "FILE.NDX", "The index, FILE.NDX or file.ndx"))?
    .arg(flag(alloc, "replace", "Replace a file that is there"))
}

// A command with the paths of a text of CSV and of the table whose records come first.
fn with_csv<'a>(alloc: Global, command: Command<'a>) -> Result<Command<'a>, AllocError>
    ensures app { IfOk result (λ more. app_of more ≡ with_csv_paths (app_of command.entry)) }
{
    command
        .arg(path(
            alloc,
            "csv",
            "DATA.CSV",
            "The file of CSV: the names of fields, then a line for each record, as `csv` prints them",
        ))?
        .arg(required_option(
            alloc,
            "into",
            "OLD.DBF",
            "The table whose records come first",
        ))?
        .arg(option(
            alloc,
            "memo",
            "OLD.DBT",
            "The file of its memos; if not given, the one beside it",
        ))
}

// A command with the path of a new table, and the date that it tells.
fn with_new_table<'a>(alloc: Global, command: Command<'a>) -> Result<Command<'a>, AllocError>
    ensures app { IfOk result (λ more. app_of more ≡ with_new_table_path (app_of command.entry)) }
{
    command
        .arg(required_option(alloc, "out", "NEW.DBF", "The new table, NEW.DBF or new.dbf"))?
        .arg(required_option(
            alloc,
            "today",
            "YYYYMMDD",
            "The date that the new table tells",
        ))
}

// A command with how a text of CSV is written.
fn with_csv_form<'a>(alloc: Global, command: Command<'a>) -> Result<Command<'a>, AllocError>
    ensures app { IfOk result (λ more. app_of more ≡ with_csv_rules (app_of command.entry)) }
{
    command
        .arg(option(
            alloc,
            "dates",
            "FORM",
            "How its dates are written: YYYYMMDD (if not given), YYYY-MM-DD, MM/DD/YYYY, MM/DD/YY of the years from 1900 to 1999, or DD.MM.YYYY",
        ))?
        .arg(option(
            alloc,
            "separator",
            "MARK",
            "What separates its cells: , (if not given), ; or tab",
        ))
}
