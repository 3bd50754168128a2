//! A day is closed: its files and a closed log take their places all together.
#![tactic(auto, using(byte_io::specs::Laws::Sinks::sinks))]

ghost use Rattle.std.specs.Prelude.{◌≡◌, Some, length, OnOk, IfErr, IfOk};
ghost use Rattle.files_in_place.specs.Disk.{LeavesOnly, IsSyncedDisk};
ghost use Rattle.files_in_place.specs.Recovery.{IsClean};
ghost use Rattle.std.specs.List.{AllByRecursion};
ghost use Rattle.byte_io.specs.Sink.{grown};
ghost use Rattle.folders.specs.Files.{listing, IsOfBytes};
ghost use Rattle.live_program.specs.Closings.{closed_log_file, AreDayWritten, AreFilesWritten, IsDayPlaced, IsOldOrDay};
ghost use Rattle.open_day.specs.OpenDay.{log_name};
ghost use Rattle.live_program.specs.Endings.{no_memory, says_unwritten};
ghost use Rattle.live_program.specs.Failures.{IsDayFailure, IsFileUnwritten, IsUnclosed};
ghost use Rattle.program_frame.specs.Endings.{place_failure};
ghost use Rattle.program_frame.specs.Jobs.{given_up};
ghost use Rattle.program_frame.specs.PlaceFaults.{unplaced_files};

use crate::answers::{write_answers, write_file};
use crate::failure::LiveFailure;
use crate::lived::Lived;
use byte_io::Bytes;
use catalogue_core::Catalogue;
use dbf_fields::Day;
use files_in_place::{Disk, SetFault};
use folders::{DiskFolder, FinishFault, Folder, Origin};
use office_run::{CloseFault, ServeFault, put_tables};
use open_day::{LOG_NAME, closed_log};
use program_frame::{Failure, FolderFault, PlaceFault, Reason};
use std::alloc::{AllocError, Global};
use std::marker::Brand;

/// The name of the log's file. An error where memory is refused.
pub(crate) fn log_file_name(alloc: Global) -> Result<Bytes, AllocError>
    ensures value { IfOk result (λ name. name ≡ log_name) }
{
    Bytes::from_slice(alloc, LOG_NAME)
}

/// What the end of a day tells beside what was performed in it.
#[derive(Clone, Copy, Debug)]
pub struct DayEnd {
    /// The date of the day.
    pub today: Day,
    /// How many commands the day had that was closed before, or 0 where that is not known. A day without a command leaves it in its log.
    pub earlier: u64,
}

// Writes the log of a day that is closed with so many commands into a folder.
fn write_log<F: Folder>(alloc: Global, count: u64, folder: &mut F) -> Result<(), ServeFault>
    ensures wrote { OnOk result (F.written folder.new ≡ grown (F.written folder.old) (listing (closed_log_file count))) }
    ensures fault { IfErr result (IsFileUnwritten (λ unwritten. unwritten ≡ log_name)) }
    ensures no_failure { OnOk result (F.failures folder.new ≡ F.failures folder.old) }
    ensures bytes { OnOk result (AllByRecursion IsOfBytes (closed_log_file count)) }
{
    let log = closed_log(alloc, count)?;
    write_file(folder, log_file_name(alloc)?, log.as_slice())
}

// Writes the files of the end of a day that has commands into a folder: its tables and indexes, dated, each station's answers and the
// closed log.
fn write_files<F: Folder>(
    alloc: Global,
    catalogue: &Catalogue,
    today: Day,
    folder: &mut F,
) -> Result<(), LiveFailure>
    ensures wrote { OnOk result (AreFilesWritten catalogue.now today (F.written folder.old) (F.written folder.new)) }
    ensures fault { IfErr result (IsDayFailure catalogue.now today) }
    ensures no_failure { OnOk result (F.failures folder.new ≡ F.failures folder.old) }
{
    let journal = catalogue.journal();
    put_tables(alloc, catalogue, today, folder)?;
    write_answers(alloc, journal, catalogue.station_count(), folder)?;
    write_log(alloc, journal.len() as u64, folder)?;
    Ok(())
}

// Writes the files of a day's end into a folder. Where the day has no command it is the closed log alone.
#[tactic(auto, using(crate::proofs::DayLaws::log_written, crate::proofs::DayLaws::day_written))]
fn write_day<F: Folder>(
    alloc: Global,
    catalogue: &Catalogue,
    end: DayEnd,
    folder: &mut F,
) -> Result<Lived, LiveFailure>
    ensures wrote { OnOk result (AreDayWritten catalogue.now end (F.written folder.old) (F.written folder.new)) }
    ensures count { IfOk result (λ lived. lived.count ≡ length catalogue.now.journal) }
    ensures fault { IfErr result (IsDayFailure catalogue.now end.today) }
    ensures no_failure { OnOk result (F.failures folder.new ≡ F.failures folder.old) }
{
    let count = catalogue.journal().len() as u64;
    if count == 0 {
        write_log(alloc, end.earlier, folder)?;
        return Ok(Lived { count });
    }
    write_files(alloc, catalogue, end.today, folder)?;
    Ok(Lived { count })
}

// Why the files of a day's end were not written, where the folder says why it did not take one: want of memory is no fault of the disk.
fn why_unwritten(why: LiveFailure, last: Option<SetFault>) -> LiveFailure
    ensures value { result ≡ given_up (says_unwritten why) no_memory last why }
{
    let is_unwritten = matches!(
        &why,
        LiveFailure::Serve(ServeFault::Close(CloseFault::Write(_)))
    );
    match (is_unwritten, last) {
        (true, Some(SetFault::NoMemory)) => LiveFailure::out_of_memory(),
        (_, _) => why,
    }
}

// Why the files of a day's end are not in place.
fn unplaced(fault: FinishFault) -> Failure<LiveFailure>
    ensures value { result ≡ place_failure no_memory (unplaced_files fault) }
{
    match fault {
        FinishFault::NoMemory => Failure::from(PlaceFault::NoMemory),
        FinishFault::Unwritten => Failure::Folder(FolderFault::Unwritten),
        FinishFault::Unfinished => Failure::Folder(FolderFault::Unfinished),
    }
}

// Closes a day into the folder of a disk, which is this one.
fn close_into<D: Disk + Drop, O: Origin<D>>(
    alloc: Global,
    catalogue: &Catalogue,
    end: DayEnd,
    disk: D,
) -> (Result<Lived, Failure<LiveFailure>>, D)
    requires synced { D.meaning.keeps_promises → IsSyncedDisk D.meaning disk }
    requires clean { D.meaning.keeps_promises → IsClean (D.meaning.seen disk) }
    requires origin { O.origin ≡ Some disk }
    ensures count { IfOk result.0 (λ lived. lived.count ≡ length catalogue.now.journal) }
    ensures fault { IfErr result.0 (IsUnclosed catalogue.now end.today) }
    ensures placed { D.meaning.keeps_promises → OnOk result.0 (IsDayPlaced catalogue.now end (D.meaning.seen disk) (D.meaning.seen result.1)) }
    ensures any_moment { D.meaning.keeps_promises → LeavesOnly D.meaning disk result.1 (IsOldOrDay catalogue.now end (D.meaning.seen disk)) }
{
    let mut folder = DiskFolder::<D, O>::new(alloc, disk);
    match write_day(alloc, catalogue, end, &mut folder) {
        Err(why) => {
            // Where it fails the next start removes them.
            let _ = folder.abandon();
            let why = why_unwritten(why, folder.fault());
            (Err(Failure::Work(why)), folder.into_disk())
        }
        Ok(lived) => match folder.finish() {
            (Ok(()), disk) => (Ok(lived), disk),
            (Err(fault), disk) => (Err(unplaced(fault)), disk),
        },
    }
}

/// Closes a day: the files of its tables and indexes at the journal's end, dated, those of the stations' answers and a log that tells how
/// many commands there are take their places in the folder of the disk, all of them or none. Of a day without a command it is the log
/// alone, which tells still of the day before it.
pub fn close_day<D: Disk + Drop>(
    alloc: Global,
    catalogue: &Catalogue,
    end: DayEnd,
    disk: D,
) -> (Result<Lived, Failure<LiveFailure>>, D)
    requires synced { D.meaning.keeps_promises → IsSyncedDisk D.meaning disk }
    requires clean { D.meaning.keeps_promises → IsClean (D.meaning.seen disk) }
    ensures count { IfOk result.0 (λ lived. lived.count ≡ length catalogue.now.journal) }
    ensures fault { IfErr result.0 (IsUnclosed catalogue.now end.today) }
    ensures placed { D.meaning.keeps_promises → OnOk result.0 (IsDayPlaced catalogue.now end (D.meaning.seen disk) (D.meaning.seen result.1)) }
    // A crash at any moment leaves the old files and their log, or the new ones and the closed log.
    ensures any_moment { D.meaning.keeps_promises → LeavesOnly D.meaning disk result.1 (IsOldOrDay catalogue.now end (D.meaning.seen disk)) }
{
    // Which disk the new files begin on is picked for contracts, at `Brand`.
    close_into::<D, Brand>(alloc, catalogue, end, disk)
}
