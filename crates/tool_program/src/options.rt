//! What is read of a command line.

ghost use Rattle.std.specs.Prelude.{◌≡◌, map, None, IfErr, IfOk, IfSome, IsSome, codes, option_map};
ghost use Rattle.clap.specs.Words.{first_of, subcommand_rows_of};
ghost use Rattle.program_frame.specs.CommandLine.{option_rows};
ghost use Rattle.tool_program.specs.Command.{IsAskedIn, IsWhyNotRead};
ghost use Rattle.tool_program.specs.Options.{is_each, path_of, range_given, shows_whole, AsksBadRange, HasBadRange, HasPath};
ghost use Rattle.tool_program.specs.Options.{compared_table, indexed_table, loaded_text, made_list};
ghost use Rattle.tool_program.specs.Options.{IsAskedBy, IsAskedOf, IsOfAnswers, IsOfDiff, IsOfIndex, IsOfLoad, IsOfMake, IsOfSetup, IsOfTable, IsSelection, IsView};

use crate::asked::{
    AnswersOptions, Asked, CheckOptions, DiffOptions, IndexOptions, LoadOptions, MakeOptions,
    Options, View,
};
use crate::command::command;
use crate::fault::ToolFault;
use crate::range::range_of;
use clap::ArgMatches;
use program_frame::{Ending, has_flag, value_of};
use setup_check::BadLinesTold;
use std::alloc::Global;
use std::convert::AsStr;
use table_text::{MemoForm, Selection};

// The sub-command of a command line, and what is read of its options.
fn subcommand_of<'a, 'b>(matches: &'b ArgMatches<'a>) -> Option<(&'a str, &'b ArgMatches<'a>)>
    ensures value { option_map (λ read. (read.0.now, option_rows read.1.now)) result ≡ subcommand_rows_of matches.now }
{
    matches.subcommand()
}

// The first and the last record that are asked for: all, where no range is given. `None` where the range is none.
fn range_asked(matches: &ArgMatches<'_>) -> Option<(u32, u32)>
    ensures value { result ≡ range_given (first_of (codes "records") (option_rows matches.now)) }
{
    match value_of(matches, "records") {
        Some(text) => range_of(text.as_bytes()),
        None => Some((1, u32::MAX)),
    }
}

// Which records are asked for. `None` where the range is none.
fn selection_of(matches: &ArgMatches<'_>) -> Option<Selection>
    ensures asked { IfSome result (IsSelection (option_rows matches.now)) }
    ensures bad { result ≡ None → HasBadRange (option_rows matches.now) }
{
    let (first, last) = range_asked(matches)?;
    Some(Selection {
        first,
        last,
        with_deleted: has_flag(matches, "deleted"),
    })
}

fn memo_form(whole: bool) -> MemoForm
    ensures value { shows_whole result ≡ whole }
{
    if whole {
        MemoForm::Whole
    } else {
        MemoForm::FirstLine
    }
}

// What the sub-command of a name shows of a table. `None` where the range of records is none.
fn view_of(name: &str, matches: &ArgMatches<'_>) -> Option<View>
    ensures asked { IfSome result (IsView name.now (option_rows matches.now)) }
    ensures bad { result ≡ None → HasBadRange (option_rows matches.now) }
{
    match name {
        "fields" => Some(View::Fields),
        "csv" => Some(View::Csv(selection_of(matches)?, has_flag(matches, "deleted-column"))),
        _ => Some(View::Records(
            selection_of(matches)?,
            memo_form(has_flag(matches, "memos")),
        )),
    }
}

fn bad_lines_told(each: bool) -> BadLinesTold
    ensures value { is_each result ≡ each }
{
    if each {
        BadLinesTold::Each
    } else {
        BadLinesTold::First
    }
}

// What is asked for of a table. `None` where its path is missing or the range of records is none.
fn table_asked<'a>(name: &str, matches: &ArgMatches<'a>) -> Option<Options<'a>>
    ensures asked { IfSome result (IsOfTable name.now (option_rows matches.now)) }
    ensures bad { result ≡ None → IsSome (first_of (codes "table") (option_rows matches.now)) → HasBadRange (option_rows matches.now) }
{
    Some(Options {
        table: value_of(matches, "table")?,
        memos: value_of(matches, "memo"),
        order: value_of(matches, "order"),
        from: value_of(matches, "from"),
        view: view_of(name, matches)?,
    })
}

// What is asked for of a setup. `None` where its path is missing.
fn setup_asked<'a>(matches: &ArgMatches<'a>) -> Option<CheckOptions<'a>>
    ensures asked { IfSome result (IsOfSetup (option_rows matches.now)) }
    ensures bad { result ≡ None → first_of (codes "setup") (option_rows matches.now) ≡ None }
{
    Some(CheckOptions {
        setup: value_of(matches, "setup")?,
        bad_lines: bad_lines_told(has_flag(matches, "lines")),
    })
}

// What is asked for of a table that is made. `None` where one of its three texts is missing.
#[tactic(auto, using(crate::proofs::MadeLaws::none_first, crate::proofs::MadeLaws::none_second, crate::proofs::MadeLaws::none_third))]
fn make_asked<'a>(matches: &ArgMatches<'a>) -> Option<MakeOptions<'a>>
    ensures asked { IfSome result (IsOfMake (option_rows matches.now)) }
    ensures bad { result ≡ None → made_list (option_rows matches.now) ≡ None }
{
    Some(MakeOptions {
        list: value_of(matches, "list")?,
        out: value_of(matches, "out")?,
        today: value_of(matches, "today")?,
        replace: has_flag(matches, "replace"),
    })
}

// What is asked for of records that are loaded. `None` where one of four texts is missing.
#[tactic(auto, using(crate::proofs::MadeLaws::none_of_two, crate::proofs::MadeLaws::none_after, crate::proofs::MadeLaws::none_first, crate::proofs::MadeLaws::none_second, crate::proofs::MadeLaws::none_third))]
fn load_asked<'a>(matches: &ArgMatches<'a>) -> Option<LoadOptions<'a>>
    ensures asked { IfSome result (IsOfLoad (option_rows matches.now)) }
    ensures bad { result ≡ None → loaded_text (option_rows matches.now) ≡ None }
{
    Some(LoadOptions {
        csv: value_of(matches, "csv")?,
        table: value_of(matches, "into")?,
        memos: value_of(matches, "memo"),
        out: value_of(matches, "out")?,
        today: value_of(matches, "today")?,
        dates: value_of(matches, "dates"),
        separator: value_of(matches, "separator"),
        cut: has_flag(matches, "cut"),
        replace: has_flag(matches, "replace"),
    })
}

// What is asked for of an index that is made. `None` where one of its three texts is missing.
#[tactic(auto, using(crate::proofs::MadeLaws::none_first, crate::proofs::MadeLaws::none_second, crate::proofs::MadeLaws::none_third))]
fn index_asked<'a>(matches: &ArgMatches<'a>) -> Option<IndexOptions<'a>>
    ensures asked { IfSome result (IsOfIndex (option_rows matches.now)) }
    ensures bad { result ≡ None → indexed_table (option_rows matches.now) ≡ None }
{
    Some(IndexOptions {
        table: value_of(matches, "table")?,
        memos: value_of(matches, "memo"),
        expression: value_of(matches, "on")?,
        out: value_of(matches, "out")?,
        replace: has_flag(matches, "replace"),
    })
}

// What is asked for of two tables that are compared. `None` where the path of one is missing.
#[tactic(auto, using(crate::proofs::MadeLaws::none_of_two, crate::proofs::MadeLaws::none_after))]
fn diff_asked<'a>(matches: &ArgMatches<'a>) -> Option<DiffOptions<'a>>
    ensures asked { IfSome result (IsOfDiff (option_rows matches.now)) }
    ensures bad { result ≡ None → compared_table (option_rows matches.now) ≡ None }
{
    Some(DiffOptions {
        old_table: value_of(matches, "old")?,
        new_table: value_of(matches, "new")?,
        old_memos: value_of(matches, "memo-old"),
        new_memos: value_of(matches, "memo-new"),
        key: value_of(matches, "key"),
    })
}

// What is asked for of a journal's answers. `None` where its path is missing.
fn answers_asked<'a>(matches: &ArgMatches<'a>) -> Option<AnswersOptions<'a>>
    ensures asked { IfSome result (IsOfAnswers (option_rows matches.now)) }
    ensures bad { result ≡ None → first_of (codes "journal") (option_rows matches.now) ≡ None }
{
    Some(AnswersOptions {
        journal: value_of(matches, "journal")?,
        station: value_of(matches, "station"),
        refused_only: has_flag(matches, "refused"),
    })
}

// What a sub-command asks for. `None` where its path is missing or its range of records is none.
fn asked_by<'a>(name: &str, matches: &ArgMatches<'a>) -> Option<Asked<'a>>
    ensures asked { IfSome result (IsAskedBy name.now (option_rows matches.now)) }
    ensures bad { result ≡ None → IsSome (path_of name.now (option_rows matches.now)) → HasBadRange (option_rows matches.now) }
{
    match name {
        "check" => Some(Asked::Check(setup_asked(matches)?)),
        "make" => Some(Asked::Make(make_asked(matches)?)),
        "load" => Some(Asked::Load(load_asked(matches)?)),
        "index" => Some(Asked::Index(index_asked(matches)?)),
        "diff" => Some(Asked::Diff(diff_asked(matches)?)),
        "answers" => Some(Asked::Answers(answers_asked(matches)?)),
        _ => Some(Asked::Show(table_asked(name, matches)?)),
    }
}

/// What a command line asks for that `clap` has read. `None` where the range of records is none. Takes no memory.
pub(crate) fn asked_of<'a>(matches: &ArgMatches<'a>) -> Option<Asked<'a>>
    ensures asked { IfSome result (IsAskedOf (subcommand_rows_of matches.now)) }
    ensures bad { result ≡ None → HasPath (subcommand_rows_of matches.now) → AsksBadRange (subcommand_rows_of matches.now) }
{
    let (name, found) = subcommand_of(matches)?;
    asked_by(name, found)
}

/// What the words of a command line ask for, of which the first is the program's name.
///
/// `CommandLine` says that the words give no options, and `BadRange` that their range of records is none.
#[tactic(auto, using(crate::proofs::Commands::refused_words))]
pub(crate) fn read_options<'a, T: AsStr>(
    alloc: Global,
    words: &'a [T],
) -> Result<Asked<'a>, Ending<ToolFault<'a>>>
    ensures asked { IfOk result (IsAskedIn (map T.text words.entry.now)) }
    ensures fault { IfErr result (IsWhyNotRead (map T.text words.entry.now)) }
{
    let matches = command(alloc)?.try_get_matches_from(words)?;
    match asked_of(&matches) {
        Some(asked) => Ok(asked),
        None => Err(Ending::Failed(ToolFault::BadRange)),
    }
}
