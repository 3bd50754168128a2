//! A look at what each entry of a setup names.

ghost use Rattle.std.specs.Prelude.{◌≡◌, ℕ, List, [], Option, MatchOption, length, IfOk, IsOk, option_copied};
ghost use Rattle.folders.specs.declared.named.NamedFile.{NamedFile};
ghost use Rattle.station_lines.specs.declared.setup.entry.SetupEntry.{SetupEntry as Entry};
ghost use Rattle.setup_files.specs.EntryFiles.{AreEntriesRead, IsContentOf, IsEntryRead, IsIndexOfFile};
ghost use Rattle.setup_files.specs.Loads.{AreEntryLoads};
ghost use Rattle.setup_check.specs.declared.finding.Finding.{Finding as Found};
ghost use Rattle.setup_check.specs.Findings.{first_table, table_in, IsCounts};
ghost use Rattle.setup_check.specs.TablePlaces.{ArePlacesIn};
ghost use Rattle.setup_check.specs.Findings.{AreFindings, AreFoundOf, IsBeside, IsFinding, IsFoundOf, IsIndexFinding, IsNamed, IsRefusedAt};

use crate::finding::{Finding, IndexFinding, Looked, TableCounts};
use crate::freshness::{IndexState, state_of};
use crate::table_places::TablePlaces;
use byte_io::Bytes;
use dbf_image::GrowingTable;
use folders::Source;
use journal_file::ReadSums;
use ndx_index::NdxFile;
use setup_files::{EntryContent, EntryFault, read_entry};
use station_lines::SetupEntry;
use std::alloc::{AllocError, Global};

// The table that was read, where a table was.
fn table_of(read: &Result<EntryContent, EntryFault>) -> Option<&GrowingTable>
    ensures value { option_copied result ≡ table_in read.now }
{
    match read {
        Ok(EntryContent::Table(records)) => Some(records),
        _ => None,
    }
}

// The table that was read of the first entry of this name.
fn table_named<'a>(
    tables: &TablePlaces,
    reads: &'a [Result<EntryContent, EntryFault>],
    table: &Bytes,
) -> Option<&'a GrowingTable>
    ensures named { (files : Option (List NamedFile)) (before : List Entry) (findings : List Found) → ArePlacesIn tables.now before
        → AreEntriesRead files before reads.now → AreFoundOf reads.now findings
        → MatchOption result (IsRefusedAt findings (first_table table.now before)) (λ records. IsNamed files before table.now records.now.table) }
{
    let position = tables.place(table)?;
    table_of(reads.get(position)?)
}

// What an index's file is beside the table of this name.
fn beside_table(
    alloc: Global,
    tables: &TablePlaces,
    reads: &[Result<EntryContent, EntryFault>],
    table: &Bytes,
    file: &NdxFile,
) -> Result<IndexState, AllocError>
    ensures state { (files : Option (List NamedFile)) (before : List Entry) (findings : List Found) → ArePlacesIn tables.now before
        → AreEntriesRead files before reads.now → AreFoundOf reads.now findings
        → IfOk result (IsBeside files before findings table.now file.now) }
{
    match table_named(tables, reads, table) {
        Some(records) => state_of(alloc, records, file),
        None => Ok(IndexState::NoTable),
    }
}

// What is found of an index's file beside the table of this name.
fn look_at_index(
    alloc: Global,
    tables: &TablePlaces,
    reads: &[Result<EntryContent, EntryFault>],
    table: &Bytes,
    file: &NdxFile,
) -> Result<IndexFinding, AllocError>
    ensures finding { (files : Option (List NamedFile)) (before : List Entry) (findings : List Found) (ndx : List ℕ) → ArePlacesIn tables.now before
        → AreEntriesRead files before reads.now → AreFoundOf reads.now findings → IsIndexOfFile files ndx file.now
        → IfOk result (IsIndexFinding files before findings table.now ndx) }
{
    let state = beside_table(alloc, tables, reads, table, file)?;
    Ok(IndexFinding {
        keys: file.pairs.len(),
        state,
    })
}

// How many records a table has, and how many of them are marked as deleted.
fn counts_of(table: &GrowingTable) -> TableCounts
    ensures counts { IsCounts table.now.table result }
{
    let mut marked = 0;
    for earlier in 0..table.record_count() {
        if table.is_deleted(earlier + 1) {
            marked += 1;
        }
    }
    TableCounts {
        records: table.record_count(),
        marked,
    }
}

// What is found at an entry whose files are this. It is told what was read of the entries before it, and where their tables stand.
fn look_at_content(
    alloc: Global,
    tables: &TablePlaces,
    reads: &[Result<EntryContent, EntryFault>],
    entry: &SetupEntry,
    content: &EntryContent,
) -> Result<Finding, AllocError>
    requires of_entry { (files : Option (List NamedFile)) × IsContentOf files entry.now content.now }
    ensures finding { (files : Option (List NamedFile)) (before : List Entry) (findings : List Found) → ArePlacesIn tables.now before
        → AreEntriesRead files before reads.now → AreFoundOf reads.now findings → IsContentOf files entry.now content.now
        → IfOk result (IsFinding files before findings entry.now) }
{
    match (entry, content) {
        (SetupEntry::Table { .. }, EntryContent::Table(records)) => {
            Ok(Finding::Table(counts_of(records)))
        }
        (SetupEntry::Index { table, .. }, EntryContent::Index(file)) => {
            let index = look_at_index(alloc, tables, reads, table, file)?;
            Ok(Finding::Index(index))
        }
        (SetupEntry::Station { .. }, EntryContent::Script(_)) => Ok(Finding::Script),
        _ => unreachable!(),
    }
}

// What is found at an entry of which this was read.
fn look_at(
    alloc: Global,
    tables: &TablePlaces,
    reads: &[Result<EntryContent, EntryFault>],
    entry: &SetupEntry,
    read: &Result<EntryContent, EntryFault>,
) -> Result<Finding, AllocError>
    requires of_entry { (files : Option (List NamedFile)) × IsEntryRead files entry.now read.now }
    ensures finding { (files : Option (List NamedFile)) (before : List Entry) (findings : List Found) → ArePlacesIn tables.now before
        → AreEntriesRead files before reads.now → AreFoundOf reads.now findings → IsEntryRead files entry.now read.now
        → IfOk result (IsFinding files before findings entry.now) }
    ensures found { IfOk result (IsFoundOf read.now) }
{
    match read {
        Ok(content) => look_at_content(alloc, tables, reads, entry, content),
        Err(fault) => Ok(Finding::Refused(*fault)),
    }
}

/// What is found at each entry of a setup, whatever was found at the others, and what was read of it: each file is loaded once. What
/// was read is kept to the end, since each index is compared with the table that it names, among the entries before it.
///
/// An `Err` says that there was no memory.
pub fn look_at_all<S: Source>(
    alloc: Global,
    source: &mut S,
    entries: &[SetupEntry],
) -> Result<Looked, AllocError>
    ensures found { IfOk result (λ looked. AreFindings (S.files source.old) entries.now looked.findings.items) }
    ensures one_each { IfOk result (λ looked. length looked.findings.items ≡ length entries.now) }
    ensures read { IfOk result (λ looked. AreEntriesRead (S.files source.old) entries.now looked.reads.items) }
    ensures refused { IfOk result (λ looked. AreFoundOf looked.reads.items looked.findings.items) }
    ensures loads { IfOk result (λ looked. AreEntryLoads (S.files source.old) (S.failures source.old) (S.failures source.new) entries.now looked.reads.items) }
    ensures early { entries.now ≡ [] → IsOk result }
    ensures kept { S.files source.new ≡ S.files source.old }
{
    let mut findings = Vec::new(alloc);
    let mut reads = Vec::new(alloc);
    let mut tables = TablePlaces::new(alloc);
    for (index, entry) in entries.iter().enumerate() {
        let read = read_entry(alloc, source, entry, &mut ReadSums::unwanted(alloc))?;
        findings.push(look_at(alloc, &tables, &reads, entry, &read)?)?;
        reads.push(read)?;
        tables.add(alloc, entry, index)?;
    }
    Ok(Looked { findings, reads })
}
