//! The state at opening.

ghost use Rattle.std.specs.Prelude.{◌≡◌, ◌≤◌, length, map, IfOk};
ghost use Rattle.catalogue_core.specs.declared.opening.TheConstants.{MAX_TABLES};
ghost use Rattle.catalogue_core.specs.Opening.{NamesDiffer};
ghost use Rattle.catalogue_core.specs.Replay.{opened_as, start};
ghost use Rattle.catalogue_core.specs.Rooms.{seen};
ghost use Rattle.catalogue_core.specs.Tables.{named_table};

use crate::names::Names;
use crate::opening::OpenedTable;
use crate::state::State;
use crate::stations::Stations;
use lock_table::Locks;
use std::alloc::{AllocError, Global};
use table_core::Table;

impl State {
    /// The state at opening, which has the tables, no locks, and no table open in any area. An error is want of memory.
    pub(crate) fn new(
        alloc: Global,
        opened: Vec<OpenedTable>,
        stations: u32,
    ) -> Result<State, AllocError>
        requires count_bounded { length opened.items ≤ MAX_TABLES }
        requires named { NamesDiffer (map (λ t. t.name) opened.items) }
        ensures value { IfOk result (λ state. seen state ≡ start (opened_as stations (map named_table opened.items))) }
    {
        let names = collect_names(alloc, &opened)?;
        let locks = Locks::new(alloc, stations, opened.len() as u32)?;
        let tables = collect_tables(alloc, opened)?;
        let stations = Stations::new(alloc, stations)?;
        Ok(State {
            names,
            tables,
            locks,
            stations,
        })
    }
}

// The tables' names, in order.
fn collect_names(alloc: Global, opened: &[OpenedTable]) -> Result<Names, AllocError>
    requires named { NamesDiffer (map (λ t. t.name) opened.now) }
    ensures value { IfOk result (λ names. names ≡ map (λ t. t.name) opened.now) }
{
    let mut names = Names::new(alloc);
    for i in 0..opened.len() {
        names.add(alloc, &opened[i].name)?;
    }
    Ok(names)
}

// The tables, in order.
fn collect_tables(alloc: Global, opened: Vec<OpenedTable>) -> Result<Vec<Table>, AllocError>
    ensures value { IfOk result (λ tables. map (λ t. t.content) tables.items ≡ map (λ t. t.table.content) opened.items) }
{
    let mut tables = Vec::new(alloc);
    for OpenedTable { name: _, table } in opened {
        tables.push(table)?;
    }
    Ok(tables)
}
