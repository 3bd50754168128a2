//! The tables, the locks and the areas of all stations, which commands read and change.

ghost use Rattle.std.specs.Prelude.{◌≡◌, ◌≤◌, length, map, IfSome};
ghost use Rattle.std.specs.List.{list_any};
ghost use Rattle.lock_table.specs.Locks.{free_record, free_records, free_whole};
ghost use Rattle.table_core.specs.Content.{has_index};
ghost use Rattle.catalogue_core.specs.IndexOn.{is_any_index};
ghost use Rattle.catalogue_core.specs.Rooms.{seen};
ghost use Rattle.catalogue_core.specs.State.{table_at as content_at, area_of, is_open_beside, is_in_use, IsArea, IsState, HasStation};
ghost use Rattle.catalogue_core.specs.Step.{table_named, can_write, can_append};

mod applying;
mod opening;
mod planning;
mod status;

use crate::area::Area;
use crate::names::Names;
use crate::stations::Stations;
use byte_io::Bytes;
use lock_table::Locks;
use std::marker::Model;
use table_core::Table;

/// The tables with their names, the locks, and the areas of each station. Contracts see the tables' room too.
#[derive(Drop)]
pub(crate) struct State {
    names: Names,
    tables: Vec<Table>,
    locks: Locks,
    stations: Stations,
}

impl Model for State {
    ghost use Rattle.std.specs.Coded.{codes};
    ghost use Rattle.key_expr.specs.ExprCode.{expr_code};
    ghost use Rattle.catalogue_core.specs.Rooms.{WithRoom};

    ghost Value = { WithRoom };

    ghost coded = { Prim.hlevel (codes, expr_code) };

    ghost view = { λ s. record { names = s.names; tables = s.tables.items; locks = s.locks; stations = s.stations } };
}

impl State {
    /// The station's current area, where a table is open in it.
    pub(crate) fn area(&self, station: u32) -> Option<Area>
        requires state { IsState (seen self.now) }
        requires station { HasStation (seen self.now) station }
        ensures value { result ≡ area_of (seen self.now) station }
        ensures is_area { IfSome result (IsArea (seen self.now).tables) }
    {
        self.stations.area(station)
    }

    /// The table of a number, from 1.
    pub(crate) fn table(&self, number: u32) -> &Table
        requires counted { 1 ≤ number }
        requires inside { number ≤ length (seen self.now).tables }
        ensures value { result.now.content ≡ content_at (seen self.now).tables number }
    {
        &self.tables[number as usize - 1]
    }

    /// All tables, in order. It takes no memory.
    pub(crate) fn into_tables(self) -> Vec<Table>
        ensures value { map (λ t. t.content) result.items ≡ (seen self).tables }
    {
        self.tables
    }

    /// The number of the table of a name, where there is one.
    pub(crate) fn table_named(&self, name: &Bytes) -> Option<u32>
        requires state { IsState (seen self.now) }
        ensures value { result ≡ table_named (seen self.now) name.now }
        ensures counted { IfSome result (λ number. 1 ≤ number) }
        ensures inside { IfSome result (λ number. number ≤ length (seen self.now).tables) }
    {
        match self.names.index_of(name) {
            Some(index) => Some(index as u32 + 1),
            None => None,
        }
    }

    /// Whether an index of one of the tables has the name.
    pub(crate) fn is_any_index(&self, name: &Bytes) -> bool
        ensures value { result ≡ is_any_index (seen self.now).tables name.now }
    {
        any_has_index(&self.tables, name)
    }

    /// Whether the station has the table open in another area than the current one.
    pub(crate) fn is_open_beside(&self, station: u32, table: u32) -> bool
        requires station { HasStation (seen self.now) station }
        ensures value { result ≡ is_open_beside (seen self.now).stations station table }
    {
        self.stations.is_open_beside(station, table)
    }

    /// Whether another station has the table open, and one of the two wants it exclusively.
    pub(crate) fn is_in_use(&self, station: u32, table: u32, exclusive: bool) -> bool
        requires station { HasStation (seen self.now) station }
        ensures value { result ≡ is_in_use (seen self.now).stations station table exclusive }
    {
        self.stations.is_in_use(station, table, exclusive)
    }

    /// Whether the station may write the record: it has the table exclusively, or a lock on the record or the
    /// table.
    pub(crate) fn can_write(&self, station: u32, area: Area, number: u32) -> bool
        requires state { IsState (seen self.now) }
        requires station { HasStation (seen self.now) station }
        requires area { IsArea (seen self.now).tables area }
        requires number { 1 ≤ number }
        ensures value { result ≡ can_write (seen self.now) station area number }
    {
        area.exclusive || self.locks.may_write(station, area.table, number)
    }

    /// Whether no other station has locked the whole table.
    pub(crate) fn can_append(&self, station: u32, area: Area) -> bool
        requires state { IsState (seen self.now) }
        requires area { IsArea (seen self.now).tables area }
        ensures value { result ≡ can_append (seen self.now) station area }
    {
        let holder = self.locks.file_holder(area.table);
        holder == 0 || holder == station
    }

    /// Whether the station can have a lock on the record.
    pub(crate) fn is_free_record(&self, station: u32, area: Area, number: u32) -> bool
        requires state { IsState (seen self.now) }
        requires area { IsArea (seen self.now).tables area }
        ensures value { result ≡ free_record self.now.locks.locks station area.table number }
    {
        self.locks.is_free_record(station, area.table, number)
    }

    /// Whether the station can have locks on all of the records.
    pub(crate) fn is_free_records(&self, station: u32, area: Area, numbers: &[u32]) -> bool
        requires state { IsState (seen self.now) }
        requires area { IsArea (seen self.now).tables area }
        ensures value { result ≡ free_records self.now.locks.locks station area.table numbers.now }
    {
        self.locks.is_free_records(station, area.table, numbers)
    }

    /// Whether the station can have a lock on the table.
    pub(crate) fn is_free_whole(&self, station: u32, area: Area) -> bool
        requires state { IsState (seen self.now) }
        requires area { IsArea (seen self.now).tables area }
        ensures value { result ≡ free_whole self.now.locks.locks station area.table }
    {
        self.locks.is_free_whole(station, area.table)
    }
}

fn any_has_index(tables: &[Table], name: &Bytes) -> bool
    ensures value { result ≡ list_any (λ t. has_index t.content name.now) tables.now }
{
    tables.iter().any(|table| table.has_index(name))
}
