//! The catalogue: the tables as they were opened, the journal of the commands since, and their state.

ghost use Rattle.std.specs.Prelude.{◌≡◌, ◌↔◌, ◌-◌, ◌<◌, ◌≤◌, [], ◌∷◌, ◌++◌, length, map, slice_get, vec_len, vec_capacity, Some, Ok, Err, IfOk, IfErr, OnErr, IsErrOf};
ghost use Rattle.catalogue_core.specs.declared.catalogue.TheConstants.{MAX_ENTRIES};
ghost use Rattle.catalogue_core.specs.declared.opening.TheConstants.{MAX_TABLES};
ghost use Rattle.catalogue_core.specs.Replay.{entry};

use crate::answer::Answer;
use crate::command::Command;
use crate::entry::Entry;
use crate::kept_table::{KeptTable, kept_tables};
use crate::opening::{OpenFault, check_counts, open_tables};
use crate::plan::plan;
use crate::source::TableSource;
use crate::state::State;
use crate::status::StatusRow;
use byte_io::Bytes;
use dbf_image::TableData;
use std::alloc::{AllocError, Global};
use std::marker::Model;
use table_core::Table;
use thiserror::Error;

/// The greatest number of entries of a journal.
pub const MAX_ENTRIES: usize = 4_294_967_295;

/// Why a command was not performed. It is in no journal and has changed nothing.
#[derive(Clone, Copy, Debug, PartialEq, Eq, Error)]
pub enum Stop {
    /// The journal has 4,294,967,295 entries.
    #[error("the journal is full")]
    JournalFull,
    /// Memory was refused.
    #[error("out of memory")]
    NoMemory,
}

impl From<AllocError> for Stop {
    ghost use Rattle.std.specs.Prelude.{◌≡◌};
    ghost use Rattle.catalogue_core.specs.declared.catalogue.Stop.TheVariants.{NoMemory};

    ghost from_gives = { λ _ stop. stop ≡ NoMemory };

    fn from(_refused: AllocError) -> Stop {
        Stop::NoMemory
    }
}

/// A catalogue, which contracts see as what was opened and the journal since. Every value of this type has the
/// state that its journal's commands make of the opened tables, one after another, and each answer in the
/// journal is the one that its command has at its place. In this state no record is locked by two stations, a
/// station has locks only in tables that it has open, each in one area at most, and a table that is open
/// exclusively is open at no other station.
#[derive(Drop)]
pub struct Catalogue {
    opened: Vec<KeptTable>,
    stations: u32,
    state: State,
    journal: Vec<Entry>,
}

impl Model for Catalogue {
    ghost use Rattle.std.specs.Coded.{codes};
    ghost use Rattle.key_expr.specs.ExprCode.{expr_code};
    ghost use Rattle.catalogue_core.specs.Kept.{IsKept};
    ghost use Rattle.catalogue_core.specs.Replay.{History, history, opened_as};
    ghost use Rattle.catalogue_core.specs.Rooms.{seen};
    ghost use Rattle.catalogue_core.specs.Tables.{kept_table};
    ghost use Rattle.std.specs.Prelude.{map};

    ghost Value = { History };

    ghost coded = { Prim.hlevel (codes, expr_code) };

    ghost view = { λ c. history (opened_as c.stations (map kept_table c.opened.items)) c.journal.items };

    ghost invariant = { λ c. IsKept (opened_as c.stations (map kept_table c.opened.items)) (seen c.state) c.journal.items };
}

impl Catalogue {
    ghost use Rattle.catalogue_core.specs.Status.{row};
    ghost use Rattle.catalogue_core.specs.declared.answer.Answer.{Answer};
    ghost use Rattle.table_core.specs.declared.refusal.Refusal.{Refusal};
    ghost use Rattle.catalogue_core.specs.Opening.{Opening};
    ghost use Rattle.catalogue_core.specs.Replay.{state_of, answer_of, with_entry, opened_at, names_of, IsLegal, AreOfStations};
    ghost use Rattle.catalogue_core.specs.State.{table_at as content_at, IsState, KeepIndexes, OtherStationsStay};

    /// Opens tables for stations: no table is open in any area, no lock is held, and the journal is empty.
    ///
    /// The faults are tested in this order: `NoStation`, `TooManyStations` (more than 16), `TooManyTables` (more
    /// than 10); then, table by table, `DuplicateTable` (a name used by an earlier table), `TooManyIndexes` (more
    /// than 7), and for each of its indexes `DuplicateIndex` (a name used by any earlier index), `BadExpression`
    /// and `IndexStale`. An index is stale where its keys have another length than the expression's, or its pairs
    /// are not those of the table's records, each as often; in which order they stand doesn't matter. With
    /// `reindex` that is not asked, and the order is built from the records. `NoMemory` comes only where all tests
    /// before it pass.
    ///
    /// As a caller has it:
    ///
    /// ```text
    /// Ok(Catalogue::open(alloc, tables, stations, reindex)?)
    /// ```
    pub fn open(
        alloc: Global,
        sources: Vec<TableSource>,
        stations: u32,
        reindex: bool,
    ) -> Result<Catalogue, OpenFault>
        ensures opened { IfOk result (λ catalogue. Opening reindex stations sources.items (Ok catalogue.opened.tables)) }
        ensures stations { IfOk result (λ catalogue. catalogue.opened.stations ≡ stations) }
        ensures empty { IfOk result (λ catalogue. catalogue.journal ≡ []) }
        ensures refused { IfErr result (λ fault. Opening reindex stations sources.items (Err fault)) }
    {
        check_counts(sources.len(), stations)?;
        let tables = open_tables(alloc, sources, reindex)?;
        let Ok(opened) = kept_tables(alloc, &tables) else {
            return Err(OpenFault::NoMemory);
        };
        let Ok(state) = State::new(alloc, tables, stations) else {
            return Err(OpenFault::NoMemory);
        };
        Ok(Catalogue {
            opened,
            stations,
            state,
            journal: Vec::new(alloc),
        })
    }

    /// Performs a command of a station, from 1, as one step, and answers its number in the journal, from 1, and
    /// its answer. A refused command is an entry too, and changes nothing. Nothing changes in the areas of other
    /// stations.
    ///
    /// `JournalFull` is tested first, and comes exactly where the journal has 4,294,967,295 entries. Then the
    /// command is planned, and all of its tests come before the plan takes memory, but for the last of INDEX ON, whose
    /// expression is read in memory before `BadExpression`, `IndexNameUsed` and `TooManyIndexes` can be told. `NoMemory`
    /// comes from the plan of a command that no test before it refuses, or from the journal's entry, which a refused
    /// command has too. After `JournalFull` and `NoMemory` the catalogue is as it was.
    ///
    /// As a caller has it:
    ///
    /// ```text
    /// if station < 1 || station > catalogue.station_count() {
    ///     return Err("there is no such station".into());
    /// }
    /// let before = catalogue.journal().len() as u64;
    /// let (number, answer) = catalogue.perform(alloc, station, command)?;
    /// ```
    pub fn perform(
        &mut self,
        alloc: Global,
        station: u32,
        command: &Command,
    ) -> Result<(u64, Answer), Stop>
        requires counted { 1 ≤ station }
        requires inside { station ≤ self.old.opened.stations }
        ensures number { IfOk result (λ done. done.0 ≡ length self.new.journal) }
        ensures answer { IfOk result (λ done. done.1 ≡ answer_of self.old station command.now) }
        ensures entry { IfOk result (λ _. self.new ≡ with_entry self.old station command.now) }
        ensures refused { IfOk result (λ done. (refusal : Refusal) → done.1 ≡ Answer.Refused refusal → state_of self.new ≡ state_of self.old) }
        ensures others { IfOk result (λ _. OtherStationsStay station (state_of self.old) (state_of self.new)) }
        ensures full { IsErrOf result Stop.JournalFull ↔ (length self.old.journal ≡ MAX_ENTRIES) }
        ensures stopped { OnErr result (self.new ≡ self.old) }
    {
        if self.journal.len() >= MAX_ENTRIES {
            return Err(Stop::JournalFull);
        }
        let plan = plan(alloc, &mut self.state, station, command)?;
        let answer = plan.answer.copy(alloc)?;
        let command_copy = command.copy(alloc)?;
        self.journal.reserve(1)?;
        self.state.apply(station, plan.change);
        write_entry(&mut self.journal, station, command_copy, plan.answer);
        Ok((self.journal.len() as u64, answer))
    }

    /// How many stations there are.
    pub fn station_count(&self) -> u32
        ensures value { result ≡ self.now.opened.stations }
    {
        self.stations
    }

    /// The status row: the journal's length, its last entry's station and answer, and who holds which table.
    pub fn status(&self) -> StatusRow
        ensures value { result ≡ row self.now }
    {
        let (last_station, last_answer) = match self.journal.last() {
            Some(entry) => (entry.station, entry.answer.code()),
            None => (0, 0),
        };
        StatusRow {
            journal_length: self.journal.len() as u64,
            last_station,
            last_answer,
            tables: self.state.table_statuses(),
        }
    }

    #[tactic(auto, using(crate::proofs::ReplayLaws::few_tables))]
    /// How many tables were opened: 10 at most.
    pub fn table_count(&self) -> usize
        ensures value { result ≡ length self.now.opened.tables }
        ensures count_bounded { length self.now.opened.tables ≤ MAX_TABLES }
    {
        self.opened.len()
    }

    /// The name under which the table of a number, from 1, was opened.
    pub fn table_name(&self, number: u32) -> &Bytes
        requires counted { 1 ≤ number }
        requires inside { number ≤ length self.now.opened.tables }
        ensures value { slice_get (names_of self.now.opened) (number - 1) ≡ Some result.now }
    {
        &self.opened[number as usize - 1].name
    }

    #[tactic(auto, using(crate::proofs::ReplayLaws::kept_tables))]
    /// The table of a number, from 1, with its indexes, as it stands now.
    pub fn table(&self, number: u32) -> &Table
        requires counted { 1 ≤ number }
        requires inside { number ≤ length self.now.opened.tables }
        ensures value { result.now.content ≡ content_at (state_of self.now).tables number }
    {
        self.state.table(number)
    }

    /// All tables with their indexes, as they stand now, in order. The indexes with which a table was opened are the first
    /// of those that it has. It takes no memory.
    pub fn into_tables(self) -> Vec<Table>
        ensures value { map (λ t. t.content) result.items ≡ (state_of self).tables }
        ensures indexes { KeepIndexes (map (λ t. t.content) self.opened.tables) (state_of self).tables }
    {
        self.state.into_tables()
    }

    /// All tables with their indexes, as they stand now, in order, and the entries of the journal. It takes no memory.
    pub fn into_parts(self) -> (Vec<Table>, Vec<Entry>)
        ensures tables { map (λ t. t.content) result.0.items ≡ (state_of self).tables }
        ensures indexes { KeepIndexes (map (λ t. t.content) self.opened.tables) (state_of self).tables }
        ensures entries { result.1.items ≡ self.journal }
    {
        let Catalogue { state, journal, .. } = self;
        (state.into_tables(), journal)
    }

    #[tactic(auto, using(crate::proofs::ReplayLaws::kept_tables))]
    /// The table of a number, from 1, as it stands now. It has the fields with which it was opened. An error where
    /// memory is refused.
    pub fn content(&self, alloc: Global, number: u32) -> Result<TableData, AllocError>
        requires counted { 1 ≤ number }
        requires inside { number ≤ length self.now.opened.tables }
        ensures value { IfOk result (λ table. table ≡ (content_at (state_of self.now).tables number).table) }
        ensures fields { IfOk result (λ table. table.schema ≡ (opened_at self.now.opened number).table.schema) }
    {
        let table = self.state.table(number).content(alloc)?;
        Ok(table)
    }

    /// The entries of the journal, in order. Each is of one of the stations, each answer is the one that its command
    /// has at its place, and what is true of every state is true of the one now.
    pub fn journal(&self) -> &[Entry]
        ensures entries { result.now ≡ self.now.journal }
        ensures legal { IsLegal self.now.opened self.now.journal }
        ensures of_stations { AreOfStations self.now.opened self.now.journal }
        ensures state { IsState (state_of self.now) }
        ensures count_bounded { length self.now.journal ≤ MAX_ENTRIES }
    {
        &self.journal
    }
}

// Puts an entry after the others of a journal, which has room for it.
fn write_entry(journal: &mut Vec<Entry>, station: u32, command: Command, answer: Answer)
    requires room { vec_len journal.old < vec_capacity journal.old }
    ensures entries { journal.new.items ≡ journal.old.items ++ entry station command answer ∷ [] }
{
    journal.push_reserved(Entry {
        station,
        command,
        answer,
    });
}
