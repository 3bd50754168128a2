//! The folders from which a program reads its setup, tables, memo files and indexes, and the one for its new files: no day may be open in
//! them, nor by the log that a mark in them names.

ghost use Rattle.std.specs.Prelude.{◌≡◌, ◌⊎◌, ◌<◌, ◌≤◌, true, false, Ok, Some, IfErr, IfOk, IsErrOf, OnOk};
ghost use Rattle.files_in_place.specs.Disk.{OnlyReads};
ghost use Rattle.open_day.specs.OpenDay.{log_beside as log_beside_path, mark_name};
ghost use Rattle.office_run.specs.Loading.{IsFailure};
ghost use Rattle.office_run.specs.WholeRun.{IsReadFault, IsSaid};
ghost use Rattle.office_run.specs.declared.fault.ServeFault.TheVariants.{NoMemory as NoMemoryToServe};
ghost use Rattle.program_frame.specs.InputDays.{unread_log, HasNoInputDay, IsClosedBeside, IsInput, IsInputRefusal, IsLogAt, IsMarkAt, IsMarkedBeside, IsMarkRefusal, IsNamedBy, IsNamedIn, IsOpenAmong, IsOpenBeside, IsPlaceRefusal, IsUnreadAmong, IsUnreadAt};
ghost use Rattle.program_frame.specs.Jobs.{IsLoadFailure};
ghost use Rattle.program_frame.specs.declared.folder.PlaceFault.TheVariants.{NoMemory};

use crate::beside::Beside;
use crate::ending::{Failure, Reason};
use crate::folder::{FolderFault, PlaceFault};
use byte_io::Bytes;
use files_in_place::{Disk, DiskFault};
use folders::{LoadFault, Source};
use office_run::{FileFault, ServeFault, read_setup};
use open_day::{is_open, log_beside, mark_beside, marked_log};
use station_lines::SetupEntry;
use std::alloc::Global;

// What is said of the log of a path whose bytes can't be had.
fn unread(log: Bytes, fault: LoadFault) -> PlaceFault
    ensures value { result ≡ unread_log log fault }
{
    match fault {
        LoadFault::NoMemory => PlaceFault::NoMemory,
        LoadFault::CannotRead => {
            PlaceFault::Folder(FolderFault::UnknownDay(log, FileFault::CannotRead))
        }
        LoadFault::Unrecovered => {
            PlaceFault::Folder(FolderFault::UnknownDay(log, FileFault::Unrecovered))
        }
    }
}

// Whether the log of a path is that of a day that is open.
fn is_open_at<Y: Beside>(system: &Y, alloc: Global, log: Bytes) -> Result<bool, PlaceFault>
    ensures found { IfOk result (IsLogAt (Y.answers system.now) log) }
    ensures unread { IfErr result (IsUnreadAt (Y.answers system.now) log) }
{
    match system.read_if_there(alloc, log.as_slice()) {
        Ok(Some(found)) => Ok(is_open(found.as_slice())),
        Ok(None) => Ok(false),
        Err(fault) => Err(unread(log, fault)),
    }
}

// Whether the log in the folder of the file of a path is that of a day that is open.
fn is_log_open_beside<Y: Beside>(system: &Y, alloc: Global, path: &[u8]) -> Result<bool, PlaceFault>
    ensures found { IfOk result (IsLogAt (Y.answers system.now) (log_beside_path path.now)) }
    ensures unread { IfErr result (λ fault. (fault ≡ NoMemory) ⊎ IsUnreadAt (Y.answers system.now) (log_beside_path path.now) fault) }
{
    let log = Bytes::from_vec(log_beside(alloc, path)?);
    is_open_at(system, alloc, log)
}

// Whether the mark in the folder of the file of a path names the log of a day that is open.
#[tactic(auto, using(crate::proofs::InputDays::unread_mark, crate::proofs::InputDays::unread_marked))]
fn is_marked_beside<Y: Beside>(system: &Y, alloc: Global, path: &[u8]) -> Result<bool, PlaceFault>
    ensures found { IfOk result (IsMarkedBeside (Y.answers system.now) path.now) }
    ensures unread { IfErr result (λ fault. (fault ≡ NoMemory) ⊎ IsUnreadAmong (Y.answers system.now) (λ own. own ≡ path.now) fault) }
{
    let mark = Bytes::from_vec(mark_beside(alloc, path)?);
    match system.read_if_there(alloc, mark.as_slice()) {
        Ok(Some(log)) => is_open_at(system, alloc, log),
        Ok(None) => Ok(false),
        Err(fault) => Err(unread(mark, fault)),
    }
}

// Whether a day is open in the folder of the file of a path: by the log that lies there, or by the one that its mark names.
#[tactic(auto, using(crate::proofs::InputDays::own_open, crate::proofs::InputDays::among_one, crate::proofs::InputDays::unread_one))]
fn is_open_beside<Y: Beside>(system: &Y, alloc: Global, path: &[u8]) -> Result<bool, PlaceFault>
    ensures found { IfOk result (IsOpenAmong (Y.answers system.now) (λ own. own ≡ path.now)) }
    ensures unread { IfErr result (λ fault. (fault ≡ NoMemory) ⊎ IsUnreadAmong (Y.answers system.now) (λ own. own ≡ path.now) fault) }
{
    if is_log_open_beside(system, alloc, path)? {
        return Ok(true);
    }
    is_marked_beside(system, alloc, path)
}

// Refuses work where the log of a path is that of a day that is open, or where that is not known.
fn refuse_open_log<F: Reason, Y: Beside>(
    system: &Y,
    alloc: Global,
    log: Bytes,
) -> Result<(), Failure<F>>
    ensures closed { OnOk result (IsLogAt (Y.answers system.now) log false) }
    ensures open { IsErrOf result (Failure.Folder FolderFault.DayOpen) → IsLogAt (Y.answers system.now) log true }
    ensures refused { IfErr result (IsMarkRefusal (Y.answers system.now) F.no_memory) }
    ensures no_disk { ¬ IsErrOf result (Failure.Folder FolderFault.Unrecovered) }
{
    match is_open_at(system, alloc, log) {
        Ok(false) => Ok(()),
        Ok(true) => Err(Failure::Folder(FolderFault::DayOpen)),
        Err(fault) => Err(Failure::from(fault)),
    }
}

/// Refuses work where the mark in the folder of a disk for the new files names the log of a day that is open, or where that is not known.
pub fn refuse_marked_day<F: Reason, Y: Beside, D: Disk>(
    alloc: Global,
    system: &Y,
    disk: &mut D,
) -> Result<(), Failure<F>>
    ensures closed { D.meaning.keeps_promises → OnOk result (IsMarkAt (Y.answers system.now) (D.meaning.seen disk.old mark_name) false) }
    ensures open { D.meaning.keeps_promises → IsErrOf result (Failure.Folder FolderFault.DayOpen)
        → IsMarkAt (Y.answers system.now) (D.meaning.seen disk.old mark_name) true }
    ensures refused { IfErr result (IsMarkRefusal (Y.answers system.now) F.no_memory) }
    ensures unread { IsErrOf result (Failure.Folder FolderFault.Unrecovered) → D.meaning.faults disk.old < D.meaning.faults disk.new }
    ensures later { D.meaning.faults disk.old ≤ D.meaning.faults disk.new }
    ensures only { OnlyReads D.meaning disk.old disk.new }
{
    match marked_log(alloc, disk) {
        Ok(None) => Ok(()),
        Ok(Some(log)) => refuse_open_log(system, alloc, log),
        Err(DiskFault::NoMemory) => Err(Failure::Work(F::out_of_memory())),
        Err(DiskFault::Failed) => Err(Failure::Folder(FolderFault::Unrecovered)),
    }
}

// Whether a day is open in the folder of the memo file of a path, where one is named.
fn is_open_beside_memos<Y: Beside>(
    system: &Y,
    alloc: Global,
    dbt: &Option<Bytes>,
) -> Result<bool, PlaceFault>
    ensures found { IfOk result (IsOpenAmong (Y.answers system.now) (λ own. dbt.now ≡ Some own)) }
    ensures unread { IfErr result (λ fault. (fault ≡ NoMemory) ⊎ IsUnreadAmong (Y.answers system.now) (λ own. dbt.now ≡ Some own) fault) }
{
    match dbt {
        Some(dbt) => is_open_beside(system, alloc, dbt.as_slice()),
        None => Ok(false),
    }
}

// Whether a day is open in the folder of one of a table's two files.
fn is_open_beside_table<Y: Beside>(
    system: &Y,
    alloc: Global,
    dbf: &[u8],
    dbt: &Option<Bytes>,
) -> Result<bool, PlaceFault>
    ensures found { IfOk result (IsOpenAmong (Y.answers system.now) (λ own. (own ≡ dbf.now) ⊎ (dbt.now ≡ Some own))) }
    ensures unread { IfErr result (λ fault. (fault ≡ NoMemory) ⊎ IsUnreadAmong (Y.answers system.now) (λ own. (own ≡ dbf.now) ⊎ (dbt.now ≡ Some own)) fault) }
{
    if is_open_beside(system, alloc, dbf)? {
        return Ok(true);
    }
    is_open_beside_memos(system, alloc, dbt)
}

// Whether a day is open in the folder of a table, a memo file or an index that an entry names.
fn is_open_beside_entry<Y: Beside>(
    system: &Y,
    alloc: Global,
    entry: &SetupEntry,
) -> Result<bool, PlaceFault>
    ensures found { IfOk result (IsOpenAmong (Y.answers system.now) (IsNamedBy entry.now)) }
    ensures unread { IfErr result (λ fault. (fault ≡ NoMemory) ⊎ IsUnreadAmong (Y.answers system.now) (IsNamedBy entry.now) fault) }
{
    match entry {
        SetupEntry::Table { dbf, dbt, .. } => {
            is_open_beside_table(system, alloc, dbf.as_slice(), dbt)
        }
        SetupEntry::Index { ndx, .. } => is_open_beside(system, alloc, ndx.as_slice()),
        SetupEntry::Station { .. } => Ok(false),
    }
}

// Whether a day is open in the folder of a table, a memo file or an index that one of the entries names.
fn is_open_beside_entries<Y: Beside>(
    system: &Y,
    alloc: Global,
    entries: &[SetupEntry],
) -> Result<bool, PlaceFault>
    ensures found { IfOk result (IsOpenAmong (Y.answers system.now) (IsNamedIn entries.now)) }
    ensures unread { IfErr result (λ fault. (fault ≡ NoMemory) ⊎ IsUnreadAmong (Y.answers system.now) (IsNamedIn entries.now) fault) }
{
    for entry in entries {
        if is_open_beside_entry(system, alloc, entry)? {
            return Ok(true);
        }
    }
    Ok(false)
}

// Whether a day is open in a folder from which a run of a setup of these entries reads.
fn is_open_beside_inputs<Y: Beside>(
    system: &Y,
    alloc: Global,
    setup: &[u8],
    entries: &[SetupEntry],
) -> Result<bool, PlaceFault>
    ensures found { IfOk result (IsOpenAmong (Y.answers system.now) (IsInput setup.now entries.now)) }
    ensures unread { IfErr result (λ fault. (fault ≡ NoMemory) ⊎ IsUnreadAmong (Y.answers system.now) (IsInput setup.now entries.now) fault) }
{
    if is_open_beside(system, alloc, setup)? {
        return Ok(true);
    }
    is_open_beside_entries(system, alloc, entries)
}

/// Refuses to read the file of a path where a day is open in its folder, or where that isn't known.
pub fn refuse_open_beside<Y: Beside>(
    system: &Y,
    alloc: Global,
    path: &[u8],
) -> Result<(), PlaceFault>
    ensures closed { OnOk result (IsClosedBeside (Y.answers system.now) path.now) }
    ensures refused { IfErr result (IsPlaceRefusal (Y.answers system.now) (IsOpenBeside (Y.answers system.now) path.now)) }
{
    match is_open_beside(system, alloc, path) {
        Ok(false) => Ok(()),
        Ok(true) => Err(PlaceFault::Folder(FolderFault::DayOpen)),
        Err(fault) => Err(fault),
    }
}

// What the setup of a path says.
fn entries_of<S: Source>(
    alloc: Global,
    source: &mut S,
    setup: &[u8],
) -> Result<Vec<SetupEntry>, ServeFault>
    ensures said { IfOk result (λ entries. IsSaid (S.files source.old) setup.now (Ok entries.items)) }
    ensures fault { IfErr result (IsReadFault (S.files source.old) setup.now) }
    ensures kept { S.files source.new ≡ S.files source.old }
    ensures loads { OnOk result (S.failures source.new ≡ S.failures source.old) }
    ensures failure { IfErr result (IsFailure (S.files source.old) (S.failures source.old) (S.failures source.new)) }
{
    let setup = Bytes::from_slice(alloc, setup)?;
    read_setup(alloc, source, &setup)
}

/// Refuses to read what the setup of a path names where a day is open in its folder, or in that of a table, a memo file or an index that
/// it names, or where that isn't known.
///
/// `Work` has the faults of [`read_setup`].
pub fn refuse_open_inputs<Y: Beside, S: Source>(
    system: &Y,
    alloc: Global,
    source: &mut S,
    setup: &str,
) -> Result<(), Failure<ServeFault>>
    ensures closed { OnOk result (HasNoInputDay (Y.answers system.now) (S.files source.old) setup.now) }
    ensures refused { IfErr result (IsInputRefusal (Y.answers system.now) (S.files source.old) setup.now) }
    ensures kept { S.files source.new ≡ S.files source.old }
    ensures loads { OnOk result (S.failures source.new ≡ S.failures source.old) }
    ensures failure { IfErr result (IsLoadFailure (IsFailure (S.files source.old) (S.failures source.old) (S.failures source.new)) NoMemoryToServe
        (S.failures source.new ≡ S.failures source.old)) }
{
    let setup = setup.as_bytes();
    let entries = match entries_of(alloc, source, setup) {
        Ok(entries) => entries,
        Err(fault) => return Err(Failure::Work(fault)),
    };
    match is_open_beside_inputs(system, alloc, setup, &entries) {
        Ok(false) => Ok(()),
        Ok(true) => Err(Failure::Folder(FolderFault::DayOpen)),
        Err(fault) => Err(Failure::from(fault)),
    }
}
