//! What the sub-commands are made of, as `clap` is told it.

ghost use Rattle.std.specs.Prelude.{◌≡◌, false, IfOk};
ghost use Rattle.clap.specs.Words.{app_of, new_app, rule_of};
ghost use Rattle.tool_program.specs.Command.{path_rule, with_table_paths};

use clap::builder::ValueParser;
use clap::{Arg, ArgAction, Command};
use program_frame::option;
use std::alloc::{AllocError, Global};

/// A sub-command of a name, with no option yet: what it does, and what its help says after the options.
pub(crate) fn sub_command<'a>(
    alloc: Global,
    name: &'a str,
    about: &'a str,
    example: &'a str,
) -> Command<'a>
    ensures app { app_of result ≡ new_app name.entry.now }
{
    Command::new(alloc, name).about(about).after_help(example)
}

/// A command with the paths of a table. An error where memory is refused.
pub(crate) fn with_table<'a>(alloc: Global, command: Command<'a>) -> Result<Command<'a>, AllocError>
    ensures app { IfOk result (λ more. app_of more ≡ with_table_paths (app_of command.entry)) }
{
    command
        .arg(path(alloc, "table", "FILE.DBF", "The table"))?
        .arg(option(
            alloc,
            "memo",
            "FILE.DBT",
            "The file of its memos, where it has such fields; if not given, FILE.DBT beside FILE.DBF, or file.dbt beside file.dbf",
        ))
}

/// A path that has to be given, and is not empty.
pub(crate) fn path<'a>(alloc: Global, name: &'a str, value_name: &'a str, help: &'a str) -> Arg<'a>
    ensures rule { rule_of result ≡ path_rule name.entry.now }
    ensures local { result.global ≡ false }
{
    Arg::new(alloc, name)
        .value_name(value_name)
        .help(help)
        .required(true)
        .action(ArgAction::Set)
        .value_parser(ValueParser::NonEmptyString)
}
