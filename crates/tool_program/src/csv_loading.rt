//! Records of a text of CSV that are put after those of a table.

ghost use Rattle.std.specs.Prelude.{◌≡◌, IfErr, IfOk, IsErrOf, option_copied};
ghost use Rattle.program_frame.specs.declared.ending.Failure.TheVariants.{Work as OfWork};
ghost use Rattle.table_maker.specs.declared.load_fault.LoadJobFault.TheVariants.{Exists};
ghost use Rattle.table_maker.specs.Placing.{HasFailed};
ghost use Rattle.folders.specs.Paths.{folder_of_path};
ghost use Rattle.tool_program.specs.Answers.{IsOfLoaded};
ghost use Rattle.tool_program.specs.Faults.{TellsUnreadFolder};
ghost use Rattle.tool_program.specs.TableLoaded.{dates_named as dates_by, separator_named as separator_by, IsFormOf};
ghost use Rattle.tool_program.specs.TableLoaded.{told_of_load, IsBadLoad, IsLoadJobOf, IsLoadPlacedBy, IsLoadTakenBy, IsWhyNoTableLoaded};

use crate::asked::LoadOptions;
use crate::fault::ToolFault;
use crate::placing::place_table;
use crate::report::ToolReport;
use crate::stale::{fitting_indexes, stale_told};
use byte_io::Bytes;
use folders::{Source, file_name};
use program_frame::{Failure, System, date_of};
use std::alloc::Global;
use table_loader::{CsvForm, DateForm, Separator};
use table_maker::{LoadJob, LoadJobFault, stem_of};

// The form of dates that a word names; eight digits, where none is given.
fn dates_named(word: Option<&str>) -> Option<DateForm>
    ensures value { result ≡ dates_by (option_copied word.entry) }
{
    let Some(word) = word else {
        return Some(DateForm::Digits);
    };
    match word {
        "YYYYMMDD" => Some(DateForm::Digits),
        "YYYY-MM-DD" => Some(DateForm::Iso),
        "MM/DD/YYYY" => Some(DateForm::American),
        "MM/DD/YY" => Some(DateForm::AmericanShort),
        "DD.MM.YYYY" => Some(DateForm::German),
        _ => None,
    }
}

// The separator that a word names; the comma, where none is given.
fn separator_named(word: Option<&str>) -> Option<Separator>
    ensures value { result ≡ separator_by (option_copied word.entry) }
{
    let Some(word) = word else {
        return Some(Separator::Comma);
    };
    match word {
        "," => Some(Separator::Comma),
        ";" => Some(Separator::Semicolon),
        "tab" => Some(Separator::Tab),
        _ => None,
    }
}

// How the text of CSV of a command line is written.
fn form_of<'a>(options: &LoadOptions<'a>) -> Result<CsvForm, ToolFault<'a>>
    ensures form { IfOk result (IsFormOf options.now) }
    ensures fault { IfErr result (IsBadLoad options.now) }
{
    let Some(dates) = dates_named(options.dates) else {
        return Err(ToolFault::BadDates);
    };
    let Some(separator) = separator_named(options.separator) else {
        return Err(ToolFault::BadSeparator);
    };
    Ok(CsvForm {
        separator,
        dates,
        cut: options.cut,
    })
}

// The work that loads the records of a command line.
fn job_of<'a>(options: &LoadOptions<'a>) -> Result<LoadJob<'a>, ToolFault<'a>>
    ensures job { IfOk result (IsLoadJobOf options.now) }
    ensures fault { IfErr result (IsBadLoad options.now) }
{
    let Some((stem, in_capitals)) = stem_of(file_name(options.out.as_bytes())) else {
        return Err(ToolFault::BadOut);
    };
    let form = form_of(options)?;
    match date_of(options.today.as_bytes()) {
        Some(today) => Ok(LoadJob {
            csv: options.csv,
            table: options.table,
            memos: options.memos,
            stem,
            in_capitals,
            today,
            form,
        }),
        None => Err(ToolFault::Load(Failure::BadDate)),
    }
}

// What is told of the work of loading records that failed.
fn not_worked(fault: LoadJobFault<'_>) -> ToolFault<'_>
    ensures value { result ≡ told_of_load (OfWork fault.entry) }
{
    match fault {
        LoadJobFault::NoMemory => ToolFault::NoMemory,
        fault => ToolFault::Load(Failure::Work(fault)),
    }
}

// What is told of records that are not loaded.
fn not_loaded(why: Failure<LoadJobFault<'_>>) -> ToolFault<'_>
    ensures value { result ≡ told_of_load why.entry }
{
    match why {
        Failure::Work(fault) => not_worked(fault),
        why => ToolFault::Load(why),
    }
}

// Puts the records of a command line's text of CSV after those of its table, in a new table, in the folder that the new one's path is in.
#[tactic(auto, using(crate::proofs::LoadLaws::bad_load_unread))]
fn place_records<'a, F: Source, Y: System>(
    alloc: Global,
    source: &mut F,
    system: &Y,
    options: &LoadOptions<'a>,
) -> Result<(), ToolFault<'a>>
    ensures made { IfOk result (λ _. IsLoadPlacedBy Y.Disk.meaning (Y.opens system.now (folder_of_path options.now.out.now)) (Y.answers system.now) (F.files source.old) options.now) }
    ensures taken { IsErrOf result (ToolFault.Load (OfWork Exists))
        → IsLoadTakenBy Y.Disk.meaning (Y.opens system.now (folder_of_path options.now.out.now)) options.now }
    ensures unread { (told : ToolFault) → TellsUnreadFolder told → IsErrOf result told
        → HasFailed Y.Disk.meaning (Y.opens system.now (folder_of_path options.now.out.now)) }
    ensures fault { IfErr result (IsWhyNoTableLoaded (F.files source.old) options.now) }
    ensures kept { F.files source.new ≡ F.files source.old }
{
    let job = job_of(options)?;
    match place_table(alloc, &job, options.replace, source, system, options.out) {
        Ok(_) => Ok(()),
        Err(why) => Err(not_loaded(why)),
    }
}

// The indexes that fit the table that may be replaced. None where that can't be told.
fn fitting_before<F: Source, Y: System>(
    alloc: Global,
    source: &mut F,
    system: &Y,
    options: &LoadOptions<'_>,
) -> Vec<Bytes>
    ensures kept { F.files source.new ≡ F.files source.old }
{
    if !options.replace {
        return Vec::new(alloc);
    }
    match fitting_indexes(alloc, source, system, options.out) {
        Ok(names) => names,
        Err(_) => Vec::new(alloc),
    }
}

// What is said of indexes of these names that don't fit the new table: nothing where there is none, or where that can't be told.
fn told_of_indexes<F: Source, Y: System>(
    alloc: Global,
    source: &mut F,
    system: &Y,
    path: &str,
    before: &[Bytes],
) -> Bytes
    ensures kept { F.files source.new ≡ F.files source.old }
{
    if before.is_empty() {
        return Bytes::new(alloc);
    }
    match stale_told(alloc, source, system, path, before) {
        Ok(told) => told,
        Err(_) => Bytes::new(alloc),
    }
}

/// Puts the records of a command line's text of CSV after those of its table, in a new table, in the folder that the new one's path is in.
/// The report tells which indexes of that folder fitted a table that was replaced, and don't fit the new one.
///
/// `BadOut` where the new table's name ends with neither `.DBF` nor `.dbf`, `BadDates` and `BadSeparator` where the form of dates or the
/// separator is none, `NoMemory` where memory is refused; else `Load` says why they are not loaded. The new table has not been written
/// then.
pub(crate) fn load_records<'a, F: Source, Y: System>(
    alloc: Global,
    source: &mut F,
    system: &Y,
    options: &LoadOptions<'a>,
) -> Result<ToolReport, ToolFault<'a>>
    ensures report { IfOk result IsOfLoaded }
    ensures made { IfOk result (λ _. IsLoadPlacedBy Y.Disk.meaning (Y.opens system.now (folder_of_path options.now.out.now)) (Y.answers system.now) (F.files source.old) options.now) }
    ensures taken { IsErrOf result (ToolFault.Load (OfWork Exists))
        → IsLoadTakenBy Y.Disk.meaning (Y.opens system.now (folder_of_path options.now.out.now)) options.now }
    ensures unread { (told : ToolFault) → TellsUnreadFolder told → IsErrOf result told
        → HasFailed Y.Disk.meaning (Y.opens system.now (folder_of_path options.now.out.now)) }
    ensures fault { IfErr result (IsWhyNoTableLoaded (F.files source.old) options.now) }
    ensures kept { F.files source.new ≡ F.files source.old }
{
    let before = fitting_before(alloc, source, system, options);
    place_records(alloc, source, system, options)?;
    Ok(ToolReport::Loaded(told_of_indexes(alloc, source, system, options.out, &before)))
}
