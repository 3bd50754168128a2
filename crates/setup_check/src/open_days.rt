//! Days that are open beside the tables of a setup, in words.

ghost use Rattle.std.specs.Prelude.{◌≡◌, ◌++◌, IfOk, OnOk};
ghost use Rattle.catalogue_core.specs.Names.{with_name};
ghost use Rattle.setup_check.specs.OpenDays.{day_line, log_paths as paths_of_logs, log_words, with_log, AreDaysTold, IsFoundOfLog, IsLogFinding};

use crate::lines::numbers::append_words;
use byte_io::Bytes;
use catalogue_core::Names;
use folders::{LoadFault, Source};
use open_day::{count_entries, is_open, log_beside};
use setup_files::LoadRefusal;
use station_lines::{LF, SetupEntry};
use std::alloc::{AllocError, Global};

/// What is found of the log in the folder of a table.
#[derive(Clone, Copy, PartialEq, Eq)]
pub enum LogFinding {
    /// A day is open, and so many commands were answered. `None` where the file is no log, or somebody has changed it.
    Open(Option<u64>),
    /// No day is open.
    Closed,
    /// No log was read, for this.
    Unread(LoadRefusal),
}

// Adds a path, unless it is one of these, which are known by name, too.
fn add_path(
    alloc: Global,
    paths: &mut Vec<Bytes>,
    known: &mut Names,
    path: Bytes,
) -> Result<(), AllocError>
    requires known { known.old ≡ paths.old.items }
    ensures known { OnOk result (known.new ≡ paths.new.items) }
    ensures ok { OnOk result (paths.new.items ≡ with_name paths.old.items path) }
{
    if !known.add(alloc, &path)? {
        return Ok(());
    }
    paths.push(path)?;
    Ok(())
}

// Adds the path of the log in the folder of an entry's table.
fn add_log(
    alloc: Global,
    paths: &mut Vec<Bytes>,
    known: &mut Names,
    entry: &SetupEntry,
) -> Result<(), AllocError>
    requires known { known.old ≡ paths.old.items }
    ensures known { OnOk result (known.new ≡ paths.new.items) }
    ensures ok { OnOk result (paths.new.items ≡ with_log paths.old.items entry.now) }
{
    match entry {
        SetupEntry::Table { dbf, .. } => {
            let path = Bytes::from_vec(log_beside(alloc, dbf.as_slice())?);
            add_path(alloc, paths, known, path)
        }
        _ => Ok(()),
    }
}

// The paths of the logs in the folders of a setup's tables.
fn log_paths(alloc: Global, entries: &[SetupEntry]) -> Result<Vec<Bytes>, AllocError>
    ensures value { IfOk result (λ paths. paths.items ≡ paths_of_logs entries.now) }
{
    let mut paths = Vec::new(alloc);
    let mut known = Names::new(alloc);
    for entry in entries {
        add_log(alloc, &mut paths, &mut known, entry)?;
    }
    Ok(paths)
}

// What is found of a log of these bytes.
fn find_day(alloc: Global, log: &[u8]) -> Result<LogFinding, AllocError>
    ensures found { IfOk result (IsFoundOfLog log.now) }
{
    if is_open(log) {
        Ok(LogFinding::Open(count_entries(alloc, log)?))
    } else {
        Ok(LogFinding::Closed)
    }
}

// What is found of the log of a path.
fn look_at_log<S: Source>(
    alloc: Global,
    source: &mut S,
    path: &[u8],
) -> Result<LogFinding, AllocError>
    ensures found { IfOk result (IsLogFinding (S.files source.old) path.now (S.failures source.old) (S.failures source.new)) }
    ensures kept { S.files source.new ≡ S.files source.old }
{
    match source.load(alloc, path) {
        Ok(log) => find_day(alloc, log.as_slice()),
        Err(LoadFault::CannotRead) => Ok(LogFinding::Unread(LoadRefusal::CannotRead)),
        Err(LoadFault::Unrecovered) => Ok(LogFinding::Unread(LoadRefusal::Unrecovered)),
        Err(LoadFault::NoMemory) => Err(AllocError),
    }
}

// Appends what a log that is not the one without entries says.
fn append_log_words(alloc: Global, text: &mut Vec<u8>, count: Option<u64>) -> Result<(), AllocError>
    ensures ok { OnOk result (text.new.items ≡ text.old.items ++ log_words count) }
{
    match count {
        Some(count) => {
            append_words(alloc, text, b": a day is open, ", count as usize)?;
            text.extend_from_slice(b" commands")?;
            Ok(())
        }
        None => text.extend_from_slice(b": no log of a day, or a damaged one"),
    }
}

// Appends the line of a day that is open.
fn append_open_day(
    alloc: Global,
    text: &mut Vec<u8>,
    path: &[u8],
    count: Option<u64>,
) -> Result<(), AllocError>
    ensures ok { OnOk result (text.new.items ≡ text.old.items ++ day_line path.now (LogFinding.Open count)) }
{
    text.extend_from_slice(path)?;
    append_log_words(alloc, text, count)?;
    text.push(LF)?;
    Ok(())
}

// Appends the line of a log's finding, where there is one.
fn append_day(
    alloc: Global,
    text: &mut Vec<u8>,
    path: &[u8],
    finding: LogFinding,
) -> Result<(), AllocError>
    ensures ok { OnOk result (text.new.items ≡ text.old.items ++ day_line path.now finding) }
{
    match finding {
        LogFinding::Open(count) => append_open_day(alloc, text, path, count),
        _ => Ok(()),
    }
}

/// Looks for the log of a live day in the folder of each table of a setup, and tells of each day that is open: the log's path, and how
/// many commands were answered. A log that can't be read is taken for none.
///
/// An `Err` says that there was no memory.
pub fn open_days_text<S: Source>(
    alloc: Global,
    source: &mut S,
    entries: &[SetupEntry],
) -> Result<Vec<u8>, AllocError>
    ensures told { IfOk result (λ text. AreDaysTold (S.files source.old) (S.failures source.old) (S.failures source.new) entries.now text.items) }
    ensures kept { S.files source.new ≡ S.files source.old }
{
    let paths = log_paths(alloc, entries)?;
    let mut text = Vec::new(alloc);
    for path in &paths {
        let finding = look_at_log(alloc, source, path.as_slice())?;
        append_day(alloc, &mut text, path.as_slice(), finding)?;
    }
    Ok(text)
}
