//! What a command line asks for.

use setup_check::BadLinesTold;
use table_text::{MemoForm, Selection};

/// What of a table is shown.
#[derive(Clone, Copy, Debug, PartialEq, Eq)]
pub(crate) enum View {
    /// The records as people read them, and how much of memos.
    Records(Selection, MemoForm),
    /// The records as CSV, with or without a column of marks.
    Csv(Selection, bool),
    /// The fields.
    Fields,
}

/// What a command line says of a table.
#[derive(Clone, Copy, Debug)]
pub(crate) struct Options<'a> {
    /// The path of the table.
    pub table: &'a str,
    /// The path of the file of its memos, where it is given.
    pub memos: Option<&'a str>,
    /// The path of the index in whose order records are shown.
    pub order: Option<&'a str>,
    /// The text from which keys are shown in that order.
    pub from: Option<&'a str>,
    /// What is shown of it.
    pub view: View,
}

/// What a command line says of a setup that is checked.
#[derive(Clone, Copy, Debug)]
pub(crate) struct CheckOptions<'a> {
    /// The path of the setup.
    pub setup: &'a str,
    /// Which bad lines of its scripts are told.
    pub bad_lines: BadLinesTold,
}

/// What a command line says of a table that is made.
#[derive(Clone, Copy, Debug)]
pub(crate) struct MakeOptions<'a> {
    /// The path of the list of its fields.
    pub list: &'a str,
    /// The path of the table.
    pub out: &'a str,
    /// The text of the date that it tells.
    pub today: &'a str,
    /// Whether files that are there are replaced.
    pub replace: bool,
}

/// What a command line says of records of a text of CSV that are put after those of a table.
#[derive(Clone, Copy, Debug)]
pub(crate) struct LoadOptions<'a> {
    /// The path of the text of CSV.
    pub csv: &'a str,
    /// The path of the table whose records come first.
    pub table: &'a str,
    /// The path of the file of its memos, where it is given.
    pub memos: Option<&'a str>,
    /// The path of the new table.
    pub out: &'a str,
    /// The text of the date that it tells.
    pub today: &'a str,
    /// The text of how its dates are written, where it is given.
    pub dates: Option<&'a str>,
    /// The text of what separates its cells, where it is given.
    pub separator: Option<&'a str>,
    /// Whether a text that is too wide for its field is cut.
    pub cut: bool,
    /// Whether files that are there are replaced.
    pub replace: bool,
}

/// What a command line says of an index that is made of a table.
#[derive(Clone, Copy, Debug)]
pub(crate) struct IndexOptions<'a> {
    /// The path of the table.
    pub table: &'a str,
    /// The path of the file of its memos, where it is given.
    pub memos: Option<&'a str>,
    /// The text of the key expression.
    pub expression: &'a str,
    /// The path of the index.
    pub out: &'a str,
    /// Whether a file that is there is replaced.
    pub replace: bool,
}

/// What a command line says of two tables that are compared.
#[derive(Clone, Copy, Debug)]
pub(crate) struct DiffOptions<'a> {
    /// The path of the old table.
    pub old_table: &'a str,
    /// The path of the new table.
    pub new_table: &'a str,
    /// The path of the file of the old table's memos, where it is given.
    pub old_memos: Option<&'a str>,
    /// The path of the file of the new table's memos, where it is given.
    pub new_memos: Option<&'a str>,
    /// The key expression by which records are matched, where it is given.
    pub key: Option<&'a str>,
}

/// What a command line says of a journal whose answers are shown.
#[derive(Clone, Copy, Debug)]
pub(crate) struct AnswersOptions<'a> {
    /// The path of the journal.
    pub journal: &'a str,
    /// The number of the station whose answers are shown, as it is given; those of all stations, where none is.
    pub station: Option<&'a str>,
    /// Whether the refused entries alone are shown.
    pub refused_only: bool,
}

/// What a command line asks for.
#[derive(Clone, Copy, Debug)]
pub(crate) enum Asked<'a> {
    /// A table, or its fields.
    Show(Options<'a>),
    /// The check of a setup.
    Check(CheckOptions<'a>),
    /// A table that is made.
    Make(MakeOptions<'a>),
    /// A table with the records of a text of CSV after its own.
    Load(LoadOptions<'a>),
    /// An index of a table.
    Index(IndexOptions<'a>),
    /// What has changed from one table to another.
    Diff(DiffOptions<'a>),
    /// The answers of a journal.
    Answers(AnswersOptions<'a>),
}
