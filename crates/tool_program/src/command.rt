//! The command line as `clap` is told it: the program's sub-commands, and what their help says.

ghost use Rattle.std.specs.Prelude.{◌≡◌, false, IfOk};
ghost use Rattle.clap.specs.Words.{app_of, rule_of};
ghost use Rattle.tool_program.specs.Command.{check_app, csv_app, fields_app, from_rule, show_app, tool_app};
ghost use Rattle.tool_program.specs.Command.{answers_app, bare_app, diff_app};
ghost use Rattle.tool_program.specs.Command.{with_record_choice, with_two_table_paths};

use crate::command_making::{index_command, load_command, make_command};
use crate::command_parts::{path, sub_command, with_table};
use clap::builder::ValueParser;
use clap::{Arg, Command};
use program_frame::{flag, option, program};
use std::alloc::{AllocError, Global};

// What the help tells after the commands.
const EXAMPLES: &str = "Examples:
  table_tool show MEMBERS.DBF --memo MEMBERS.DBT --records 1-20
  table_tool show MEMBERS.DBF --memo MEMBERS.DBT --order BYNAME.NDX --from M
  table_tool fields STOCK.DBF > FIELDS.TXT
  table_tool check OFFICE.SET --lines
  table_tool csv LEDGER.DBF --deleted --deleted-column > LEDGER.CSV
  table_tool make FIELDS.TXT --out PEOPLE.DBF --today 19870302
  table_tool load LEDGER.CSV --into LEDGER.DBF --out TWICE.DBF --today 19870302
  table_tool index MEMBERS.DBF --on NAME --out BYNAME.NDX
  table_tool diff MEMBERS.DBF NEW/MEMBERS.DBF
  table_tool answers NEW/JOURNAL.TXT --station 2 --refused

Exit status:
  0  all is shown or made, the server would open the setup, the tables are the same, no answer is a refusal; or the reader of the output is gone
  1  the command line is bad; or the two tables differ, or some of the answers are refusals
  2  a file can't be read or is not what it should be, the server would not open the setup, or the table or the index is there
  3  memory was refused
  4  the output failed, or the folder has not got the table or the index";

/// The command line, for `clap` to read. An error where memory is refused.
pub(crate) fn command<'a>(alloc: Global) -> Result<Command<'a>, AllocError>
    ensures app { IfOk result (λ command. app_of command ≡ tool_app) }
{
    bare_command(alloc)
        .subcommand(show_command(alloc)?)?
        .subcommand(fields_command(alloc)?)?
        .subcommand(csv_command(alloc)?)?
        .subcommand(check_command(alloc)?)?
        .subcommand(make_command(alloc)?)?
        .subcommand(load_command(alloc)?)?
        .subcommand(index_command(alloc)?)?
        .subcommand(diff_command(alloc)?)?
        .subcommand(answers_command(alloc)?)
}

// The command line without its sub-commands, of which one is wanted.
fn bare_command<'a>(alloc: Global) -> Command<'a>
    ensures app { app_of result ≡ bare_app }
{
    let about =
        "Shows dBASE III PLUS tables and answers, compares tables, makes them and loads them";
    program(alloc, "table_tool", about, EXAMPLES)
        .subcommand_required(true)
        .arg_required_else_help(true)
}

fn show_command<'a>(alloc: Global) -> Result<Command<'a>, AllocError>
    ensures app { IfOk result (λ command. app_of command ≡ show_app) }
{
    with_records(
        alloc,
        with_table(
            alloc,
            sub_command(
                alloc,
                "show",
                "Prints a line for each record",
                "Example:\n  table_tool show MEMBERS.DBF --records 1-20",
            ),
        )?,
    )?
    .arg(flag(alloc, "memos", "Print memos whole, not their first line"))
}

fn fields_command<'a>(alloc: Global) -> Result<Command<'a>, AllocError>
    ensures app { IfOk result (λ command. app_of command ≡ fields_app) }
{
    with_table(
        alloc,
        sub_command(
            alloc,
            "fields",
            "Prints a line for each field",
            "Example:\n  table_tool fields STOCK.DBF",
        ),
    )
}

fn csv_command<'a>(alloc: Global) -> Result<Command<'a>, AllocError>
    ensures app { IfOk result (λ command. app_of command ≡ csv_app) }
{
    with_records(
        alloc,
        with_table(
            alloc,
            sub_command(
                alloc,
                "csv",
                "Prints the records as CSV",
                "Example:\n  table_tool csv LEDGER.DBF --deleted --deleted-column > LEDGER.CSV",
            ),
        )?,
    )?
    .arg(flag(
        alloc,
        "deleted-column",
        "Tell in a last column which records are marked",
    ))
}

fn check_command<'a>(alloc: Global) -> Result<Command<'a>, AllocError>
    ensures app { IfOk result (λ command. app_of command ≡ check_app) }
{
    sub_command(
        alloc,
        "check",
        "Looks at every file of a setup, and says whether the server would open all",
        "Example:\n  table_tool check OFFICE.SET --lines",
    )
    .arg(path(alloc, "setup", "OFFICE.SET", "The setup"))?
    .arg(flag(
        alloc,
        "lines",
        "Tell each line of a script that is no command, and why",
    ))
}

fn diff_command<'a>(alloc: Global) -> Result<Command<'a>, AllocError>
    ensures app { IfOk result (λ command. app_of command ≡ diff_app) }
{
    with_two_tables(
        alloc,
        sub_command(
            alloc,
            "diff",
            "Prints what has changed from one table to another, a line a change",
            "Example:\n  table_tool diff STAFF.DBF NEW/STAFF.DBF --key NAME",
        ),
    )?
    .arg(option(
        alloc,
        "key",
        "EXPRESSION",
        "Match records by the keys of this expression, as an index has them, not by their numbers",
    ))
}

fn answers_command<'a>(alloc: Global) -> Result<Command<'a>, AllocError>
    ensures app { IfOk result (λ command. app_of command ≡ answers_app) }
{
    sub_command(
        alloc,
        "answers",
        "Prints each command of a run, with its station and its answer",
        "Example:\n  table_tool answers NEW/JOURNAL.TXT --station 2 --refused",
    )
    .arg(path(
        alloc,
        "journal",
        "JOURNAL.TXT",
        "The journal of the run, as `station_server --journal` wrote it",
    ))?
    .arg(option(alloc, "station", "N", "Only the commands of this station"))?
    .arg(flag(
        alloc,
        "refused",
        "Print the refused commands alone, and how many they are",
    ))
}

// A command with the paths of two tables.
fn with_two_tables<'a>(alloc: Global, command: Command<'a>) -> Result<Command<'a>, AllocError>
    ensures app { IfOk result (λ more. app_of more ≡ with_two_table_paths (app_of command.entry)) }
{
    command
        .arg(path(alloc, "old", "OLD.DBF", "The old table"))?
        .arg(path(alloc, "new", "NEW.DBF", "The new table"))?
        .arg(option(
            alloc,
            "memo-old",
            "OLD.DBT",
            "The file of the old table's memos; if not given, the one beside it",
        ))?
        .arg(option(
            alloc,
            "memo-new",
            "NEW.DBT",
            "The file of the new table's memos; if not given, the one beside it",
        ))
}

// A command with a choice of records.
fn with_records<'a>(alloc: Global, command: Command<'a>) -> Result<Command<'a>, AllocError>
    ensures app { IfOk result (λ more. app_of more ≡ with_record_choice (app_of command.entry)) }
{
    command
        .arg(option(
            alloc,
            "records",
            "N-M",
            "Only the record N, or those from N to M",
        ))?
        .arg(flag(
            alloc,
            "deleted",
            "Print records that are marked as deleted, too",
        ))?
        .arg(option(
            alloc,
            "order",
            "FILE.NDX",
            "Print them in the order of this index of the table",
        ))?
        .arg(from_option(alloc)?)
}

// The text of the first key. It may be empty.
fn from_option<'a>(alloc: Global) -> Result<Arg<'a>, AllocError>
    ensures rule { IfOk result (λ arg. rule_of arg ≡ from_rule) }
    ensures local { IfOk result (λ arg. arg.global ≡ false) }
{
    option(
        alloc,
        "from",
        "TEXT",
        "Only from the first key on that is not less than TEXT",
    )
    .value_parser(ValueParser::String)
    .requires_arg("order")
}
