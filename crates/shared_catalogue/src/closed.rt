//! A catalogue at its end.

ghost use Rattle.std.specs.Prelude.{◌≡◌, ◌-◌, ◌≤◌, length, map, slice_get, Some};
ghost use Rattle.catalogue_core.specs.declared.catalogue.TheConstants.{MAX_ENTRIES};
ghost use Rattle.catalogue_core.specs.declared.opening.TheConstants.{MAX_TABLES};
ghost use Rattle.catalogue_core.specs.Replay.{state_of, names_of, IsLegal, AreOfStations};
ghost use Rattle.catalogue_core.specs.State.{table_at};

use byte_io::Bytes;
use catalogue_core::{Catalogue, Entry};
use std::marker::Model;
use table_core::Table;

/// A catalogue that is closed: its tables and its journal can be read, and no command is performed any
/// more.
#[derive(Drop)]
pub struct Closed {
    catalogue: Catalogue,
}

impl Model for Closed {
    ghost use Rattle.std.specs.Coded.{codes};
    ghost use Rattle.key_expr.specs.ExprCode.{expr_code};
    ghost use Rattle.catalogue_core.specs.Replay.{History};

    ghost Value = { History };

    ghost coded = { Prim.hlevel (codes, expr_code) };

    ghost view = { λ c. c.catalogue };
}

impl Closed {
    pub(crate) fn new(catalogue: Catalogue) -> Closed
        ensures value { result ≡ catalogue }
    {
        Closed { catalogue }
    }

    /// How many stations there were.
    pub(crate) fn station_count(&self) -> u32
        ensures value { result ≡ self.now.opened.stations }
    {
        self.catalogue.station_count()
    }

    /// The entries of the journal, in order.
    pub(crate) fn journal(&self) -> &[Entry]
        ensures value { result.now ≡ self.now.journal }
    {
        self.catalogue.journal()
    }

    /// How many tables were opened: 10 at most.
    pub fn table_count(&self) -> usize
        ensures value { result ≡ length self.now.opened.tables }
        ensures count_bounded { length self.now.opened.tables ≤ MAX_TABLES }
    {
        self.catalogue.table_count()
    }

    /// The name under which a table was opened. Tables count from 1.
    pub fn table_name(&self, number: u32) -> &Bytes
        requires counted { 1 ≤ number }
        requires inside { number ≤ length self.now.opened.tables }
        ensures value { slice_get (names_of self.now.opened) (number - 1) ≡ Some result.now }
    {
        self.catalogue.table_name(number)
    }

    /// A table at the end, with its indexes. Tables count from 1.
    pub fn table(&self, number: u32) -> &Table
        requires counted { 1 ≤ number }
        requires inside { number ≤ length self.now.opened.tables }
        ensures value { result.now.content ≡ table_at (state_of self.now).tables number }
    {
        self.catalogue.table(number)
    }

    /// All tables at the end, with their indexes, in order. It takes no memory.
    pub fn into_tables(self) -> Vec<Table>
        ensures value { map (λ t. t.content) result.items ≡ (state_of self).tables }
        ensures count { length result.items ≡ length self.opened.tables }
    {
        self.catalogue.into_tables()
    }

    /// All tables at the end, with their indexes, in order, and the entries of the journal. It takes no memory.
    pub fn into_parts(self) -> (Vec<Table>, Vec<Entry>)
        ensures tables { map (λ t. t.content) result.0.items ≡ (state_of self).tables }
        ensures count { length result.0.items ≡ length self.opened.tables }
        ensures entries { result.1.items ≡ self.journal }
    {
        self.catalogue.into_parts()
    }

    /// How many entries the journal has: `MAX_ENTRIES` at most. Each is of one of the stations, and each answer in it is
    /// the one that its command has at its place.
    pub fn entry_count(&self) -> u64
        ensures value { result ≡ length self.now.journal }
        ensures count_bounded { length self.now.journal ≤ MAX_ENTRIES }
        ensures legal { IsLegal self.now.opened self.now.journal }
        ensures of_stations { AreOfStations self.now.opened self.now.journal }
    {
        self.catalogue.journal().len() as u64
    }

    /// An entry of the journal. Entries count from 1.
    pub fn entry(&self, number: u64) -> &Entry
        requires counted { 1 ≤ number }
        requires inside { number ≤ length self.now.journal }
        ensures value { slice_get self.now.journal (number - 1) ≡ Some result.now }
    {
        let index = number as usize - 1;
        &self.catalogue.journal()[index]
    }
}
