//! The tables of a setup are opened for its stations.

ghost use Rattle.std.specs.Prelude.{◌≡◌, ◌≤◌, [], Ok, IfErr, IfOk, OnOk};
ghost use Rattle.catalogue_core.specs.Opening.{Opening};
ghost use Rattle.station_lines.specs.Setup.{IndexesFollowTables};
ghost use Rattle.live_program.specs.Openings.{names_station, seats_in, tables_in, with_table, AreFilesRead, AreTablesOpened, AreTablesUnopened, IsSeatFault};

use byte_io::Bytes;
use catalogue_core::{Catalogue, OpenFault, TableSource};
use folders::Source;
use journal_file::{FileSum, ReadSums};
use office_run::{ServeFault, load_entries, load_setup};
use station_lines::SetupEntry;
use std::alloc::{AllocError, Global};

// Whether an entry is a station's.
fn is_station(entry: &SetupEntry) -> bool
    ensures value { result ≡ names_station entry.now }
{
    matches!(entry, SetupEntry::Station { .. })
}

// For how many stations a day is: as many as its setup names, and one where it names none.
fn seat_count(entries: &[SetupEntry]) -> usize
    ensures count { result ≡ seats_in entries.now }
{
    match entries.iter().filter(|entry| is_station(entry)).count() {
        0 => 1,
        count => count,
    }
}

// Keeps an entry that is no station's.
fn keep_table(tables: &mut Vec<SetupEntry>, entry: SetupEntry) -> Result<(), AllocError>
    ensures kept { OnOk result (tables.new.items ≡ with_table tables.old.items entry) }
{
    match entry {
        SetupEntry::Station { .. } => Ok(()),
        entry => {
            tables.push(entry)?;
            Ok(())
        }
    }
}

// The entries of tables and indexes, in their order.
fn table_entries(alloc: Global, entries: Vec<SetupEntry>) -> Result<Vec<SetupEntry>, AllocError>
    requires tables_first { IndexesFollowTables entries.items }
    ensures tables_first { IfOk result (λ tables. IndexesFollowTables tables.items) }
    ensures value { IfOk result (λ tables. tables.items ≡ tables_in entries.items) }
{
    let mut tables = Vec::new(alloc);
    for entry in entries {
        keep_table(&mut tables, entry)?;
    }
    Ok(tables)
}

// Opens tables for so many stations.
fn open_for(
    alloc: Global,
    tables: Vec<TableSource>,
    seats: usize,
    reindex: bool,
) -> Result<Catalogue, ServeFault>
    ensures opened { IfOk result (λ catalogue. Opening reindex seats tables.items (Ok catalogue.opened.tables)) }
    ensures stations { IfOk result (λ catalogue. catalogue.opened.stations ≡ seats) }
    ensures empty { IfOk result (λ catalogue. catalogue.journal ≡ []) }
    ensures fault { IfErr result (IsSeatFault reindex seats tables.items) }
{
    let Ok(stations) = u32::try_from(seats) else {
        return Err(ServeFault::Refused(OpenFault::TooManyStations));
    };
    Ok(Catalogue::open(alloc, tables, stations, reindex)?)
}

/// The tables of a setup, opened for its stations, and what was read for that.
#[derive(Drop)]
pub struct OpenedTables {
    /// The tables, with an empty journal.
    pub catalogue: Catalogue,
    /// The setup, and then the files of its tables and indexes, in their order.
    pub read: Vec<FileSum>,
}

/// Opens the tables and indexes that the setup of a path names, as `office_run` opens them, for as many stations as it names, and one at
/// least. The stations' scripts are not read. The faults come in the order of [`ServeFault`].
#[tactic(auto, using(crate::proofs::OpeningLaws::all_noted))]
pub fn open_tables<S: Source>(
    alloc: Global,
    setup: &Bytes,
    reindex: bool,
    source: &mut S,
) -> Result<OpenedTables, ServeFault>
    ensures opened { IfOk result (λ opened. AreTablesOpened (S.files source.old) setup.now reindex opened.catalogue.opened) }
    ensures read { IfOk result (λ opened. AreFilesRead (S.files source.old) setup.now opened.read.items) }
    ensures fault { IfErr result (AreTablesUnopened (S.files source.old) setup.now reindex) }
    ensures empty { IfOk result (λ opened. opened.catalogue.journal ≡ []) }
    ensures stations { IfOk result (λ opened. 1 ≤ opened.catalogue.opened.stations) }
    ensures kept { S.files source.new ≡ S.files source.old }
{
    let mut sums = ReadSums::wanted(alloc);
    let entries = load_setup(alloc, source, setup, &mut sums)?;
    let seats = seat_count(&entries);
    let tables = table_entries(alloc, entries)?;
    let loaded = load_entries(alloc, source, &tables, &mut sums)?;
    let catalogue = open_for(alloc, loaded.tables, seats, reindex)?;
    Ok(OpenedTables {
        catalogue,
        read: sums.into_sums(),
    })
}
