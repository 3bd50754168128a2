//! Writing the files of a run.
#![tactic(auto, using(byte_io::specs::Laws::Sinks::sinks))]

ghost use Rattle.std.specs.Prelude.{◌≡◌, ◌≢◌, ◌+◌, ◌<◌, ◌↔◌, ◌∷◌, [], ℕ, List, Err, length, map, Some, None, true, false, OnOk, OnErr, IfErr};
ghost use Rattle.std.specs.List.{list_all, AllByRecursion};
ghost use Rattle.dbf_image.specs.Blocks.{memo_image};
ghost use Rattle.dbf_image.specs.Image.{image, IsOutside};
ghost use Rattle.byte_io.specs.Sink.{grown, is_byte, IsFront, Rises};
ghost use Rattle.folders.specs.Files.{files_in, listing, IsOfBytes};
ghost use Rattle.office_run.specs.Closing.{bytes_of, file_named, file_of, run_files, first_blocked, listing_of_first, IsBlockedBy, IsCutBy};
ghost use Rattle.office_run.specs.Writable.{has_too_many as has_too_many_blocks, CanBeWritten};

use crate::close_fault::CloseFault;
use crate::closed::ClosedTable;
use crate::content::Content;
use crate::plan::plan_files;
use crate::planned::Planned;
use byte_io::{ByteSink, Bytes, SinkFault, write_all};
use dbf_fields::Day;
use dbf_image::{TableData, next_free_block, write_dbf, write_dbt};
use folders::Folder;
use std::alloc::Global;

// Whether the memos take more blocks than 32 bits count.
fn has_too_many(table: &TableData) -> bool
    ensures value { result ≡ has_too_many_blocks table.now }
{
    next_free_block(table).is_none()
}

// The number of the first table whose memos take too many blocks. Takes no memory.
pub(crate) fn first_too_many(tables: &[ClosedTable]) -> Option<usize>
    ensures value { result ≡ first_blocked 1 tables.now }
{
    let mut number = 0;
    for closed in tables {
        number += 1;
        if has_too_many(&closed.content) {
            return Some(number);
        }
    }
    None
}

// Writes the file of a table.
fn write_table<S: ByteSink>(sink: &mut S, table: &TableData, day: Day) -> Result<(), SinkFault>
    requires dated { ¬ IsOutside day.year }
    requires blocks_fit { has_too_many_blocks table.now ≡ false }
    ensures wrote { OnOk result (S.written sink.new ≡ grown (S.written sink.old) (image table.now day.year day.month day.day)) }
    ensures no_failure { OnOk result (S.failures sink.new ≡ S.failures sink.old) }
    ensures failed { OnErr result (Rises (S.failures sink.old) (S.failures sink.new)) }
    ensures kept { IsFront (S.written sink.old) (S.written sink.new) }
    ensures front { OnErr result (IsFront (S.written sink.new) (grown (S.written sink.old) (image table.now day.year day.month day.day))) }
    ensures bytes { OnOk result (list_all is_byte (image table.now day.year day.month day.day) ≡ true) }
{
    write_dbf(sink, table, day).map_err(|_| SinkFault)
}

// Writes the file of a table's memos.
fn write_memos<S: ByteSink>(sink: &mut S, table: &TableData) -> Result<(), SinkFault>
    requires blocks_fit { has_too_many_blocks table.now ≡ false }
    ensures wrote { OnOk result (S.written sink.new ≡ grown (S.written sink.old) (memo_image table.now)) }
    ensures no_failure { OnOk result (S.failures sink.new ≡ S.failures sink.old) }
    ensures failed { OnErr result (Rises (S.failures sink.old) (S.failures sink.new)) }
    ensures kept { IsFront (S.written sink.old) (S.written sink.new) }
    ensures front { OnErr result (IsFront (S.written sink.new) (grown (S.written sink.old) (memo_image table.now))) }
    ensures bytes { OnOk result (list_all is_byte (memo_image table.now) ≡ true) }
{
    write_dbt(sink, table).map_err(|_| SinkFault)
}

// Writes the content of a file.
pub(crate) fn write_content<S: ByteSink>(
    sink: &mut S,
    content: &Content<'_>,
) -> Result<(), SinkFault>
    requires can { CanBeWritten content.now }
    ensures wrote { OnOk result (S.written sink.new ≡ grown (S.written sink.old) (bytes_of content.now)) }
    ensures no_failure { OnOk result (S.failures sink.new ≡ S.failures sink.old) }
    ensures failed { OnErr result (Rises (S.failures sink.old) (S.failures sink.new)) }
    ensures kept { IsFront (S.written sink.old) (S.written sink.new) }
    ensures front { OnErr result (IsFront (S.written sink.new) (grown (S.written sink.old) (bytes_of content.now))) }
    ensures bytes { OnOk result (list_all is_byte (bytes_of content.now) ≡ true) }
{
    match content {
        Content::Table(table, day) => write_table(sink, *table, *day),
        Content::Memos(table) => write_memos(sink, *table),
        Content::Index(index) => index.write(sink),
        Content::Text(text) => write_all(sink, text.as_slice()),
    }
}

// Writes a file of a name.
fn write_file<F: Folder>(
    folder: &mut F,
    name: &[u8],
    content: &Content<'_>,
) -> Result<(), SinkFault>
    requires can { CanBeWritten content.now }
    ensures wrote { OnOk result (F.written folder.new ≡ grown (F.written folder.old) (listing (file_named name.now content.now ∷ []))) }
    ensures no_failure { OnOk result (F.failures folder.new ≡ F.failures folder.old) }
    ensures failed { OnErr result (Rises (F.failures folder.old) (F.failures folder.new)) }
    ensures kept { IsFront (F.written folder.old) (F.written folder.new) }
    ensures front { OnErr result (IsFront (F.written folder.new) (grown (F.written folder.old) (listing (file_named name.now content.now ∷ [])))) }
    ensures bytes { OnOk result (IsOfBytes (file_named name.now content.now)) }
{
    folder.begin(name)?;
    write_content(folder, content)
}

// Writes the files in their order. An error tells the place of the one that was not written, or not whole.
fn write_files<F: Folder>(folder: &mut F, planned: &[Planned<'_>]) -> Result<(), usize>
    ensures wrote { OnOk result (F.written folder.new ≡ grown (F.written folder.old) (listing (map file_of planned.now))) }
    ensures no_failure { OnOk result (F.failures folder.new ≡ F.failures folder.old) }
    ensures failed { OnErr result (Rises (F.failures folder.old) (F.failures folder.new)) }
    ensures inside { IfErr result (λ place. place < length planned.now) }
    ensures whole { IfErr result (λ place. IsFront (grown (F.written folder.old) (listing_of_first place planned.now)) (F.written folder.new)) }
    ensures front { IfErr result (λ place. IsFront (F.written folder.new) (grown (F.written folder.old) (listing_of_first (place + 1) planned.now))) }
    ensures bytes { OnOk result (AllByRecursion IsOfBytes (map file_of planned.now)) }
{
    let mut place = 0;
    for file in planned {
        if write_file(folder, file.name.as_slice(), &file.content).is_err() {
            return Err(place);
        }
        place += 1;
    }
    Ok(())
}

/// Writes the files of a run into a folder: of each table `NAME.DBF`, `NAME.DBT` where a field is a memo, and
/// `INDEX.NDX` of each index; then `STATION1.TXT` and so on with the stations' answers.
///
/// `DateOutside`, `TooManyBlocks` of the first such table, and `NoMemory` come before any file is begun, and
/// the first two whatever memory there is. `Write` tells the name of a file: those before it are whole, and of
/// it, if it was begun, a front part was written.
pub fn close_files<F: Folder>(
    alloc: Global,
    tables: &[ClosedTable],
    answers: &[Bytes],
    day: Day,
    folder: &mut F,
) -> Result<(), CloseFault>
    ensures wrote { OnOk result (F.written folder.new ≡ grown (F.written folder.old) (listing (run_files day tables.now answers.now))) }
    ensures no_failure { OnOk result (F.failures folder.new ≡ F.failures folder.old) }
    // Names and files are of bytes, so what is added to the folder's list tells them, and no other files.
    ensures bytes { OnOk result (AllByRecursion IsOfBytes (run_files day tables.now answers.now)) }
    ensures told { OnOk result (files_in (listing (run_files day tables.now answers.now)) ≡ run_files day tables.now answers.now) }
    ensures outside { (result ≡ Err CloseFault.DateOutside) ↔ IsOutside day.year }
    ensures blocks { (number : ℕ) → (result ≡ Err (CloseFault.TooManyBlocks number)) ↔ IsBlockedBy day.year tables.now number }
    ensures no_file_begun { IfErr result (λ fault. ((name : List ℕ) → fault ≢ CloseFault.Write name) → folder.new ≡ folder.old) }
    ensures failed { (name : List ℕ) → result ≡ Err (CloseFault.Write name) → Rises (F.failures folder.old) (F.failures folder.new) }
    ensures whole_before_fault { IfErr result (IsCutBy (run_files day tables.now answers.now) (F.written folder.old) (F.written folder.new)) }
{
    if day.year < 1900 || day.year > 2155 {
        return Err(CloseFault::DateOutside);
    }
    if let Some(number) = first_too_many(tables) {
        return Err(CloseFault::TooManyBlocks(number));
    }
    let mut planned = plan_files(alloc, tables, answers, day)?;
    match write_files(folder, &planned) {
        Ok(()) => Ok(()),
        Err(place) => Err(CloseFault::Write(planned.remove(place).name)),
    }
}
