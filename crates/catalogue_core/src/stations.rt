//! The areas of all stations.

ghost use Rattle.std.specs.Prelude.{◌≡◌, ◌<◌, length, replicate, IfSome, IfOk};
ghost use Rattle.std.specs.List.{list_any};
ghost use Rattle.catalogue_core.specs.State.{new_station, area_in, has_open, bars_use, is_open_beside, is_in_use, with_current_in, with_area_in, HasStationIn};
ghost use Rattle.catalogue_core.specs.Status.{has_exclusively, exclusive_user};

use crate::area::{Area, MAX_AREAS, Station};
use std::alloc::{AllocError, Global};
use std::marker::Model;

/// The stations with their areas. Stations, areas and tables count from 1.
#[derive(Debug, Drop)]
pub(crate) struct Stations {
    stations: Vec<Station>,
}

impl Model for Stations {
    ghost use Rattle.std.specs.Prelude.{List};
    ghost use Rattle.catalogue_core.specs.declared.area.Station.{Station};

    ghost Value = { List Station };

    ghost view = { λ s. s.stations.items };
}

impl Stations {
    /// A number of stations, each with no table open and area 1 as the current one. An error where memory is
    /// refused.
    pub(crate) fn new(alloc: Global, count: u32) -> Result<Stations, AllocError>
        ensures value { IfOk result (λ stations. stations ≡ replicate count new_station) }
    {
        let mut stations = Vec::new(alloc);
        let none = Station {
            current: 1,
            areas: [None; MAX_AREAS],
        };
        stations.resize(count as usize, none)?;
        Ok(Stations { stations })
    }

    /// The station's current area, where a table is open in it.
    pub(crate) fn area(&self, station: u32) -> Option<Area>
        requires station { HasStationIn self.now station }
        ensures value { result ≡ area_in self.now station }
    {
        let areas = &self.stations[station as usize - 1];
        areas.areas[areas.current as usize - 1]
    }

    /// Whether the station has the table open in another area than the current one.
    pub(crate) fn is_open_beside(&self, station: u32, table: u32) -> bool
        requires station { HasStationIn self.now station }
        ensures value { result ≡ is_open_beside self.now station table }
    {
        let areas = &self.stations[station as usize - 1];
        let current = areas.current as usize;
        any_has_open(&areas.areas[..current - 1], table)
            || any_has_open(&areas.areas[current..], table)
    }

    /// Whether another station has the table open, and one of the two wants it exclusively.
    pub(crate) fn is_in_use(&self, station: u32, table: u32, exclusive: bool) -> bool
        requires station { HasStationIn self.now station }
        ensures value { result ≡ is_in_use self.now station table exclusive }
    {
        let station = station as usize;
        any_station_bars(&self.stations[..station - 1], table, exclusive)
            || any_station_bars(&self.stations[station..], table, exclusive)
    }

    /// The index of the station that has the table open exclusively, where there is one.
    pub(crate) fn exclusive_user(&self, table: u32) -> Option<usize>
        ensures value { result ≡ exclusive_user self.now table }
        ensures inside { IfSome result (λ index. index < length self.now) }
    {
        self.stations
            .iter()
            .position(|station| any_has_exclusively(&station.areas, table))
    }

    /// Makes the area of a number the station's current one.
    pub(crate) fn select(&mut self, station: u32, number: u32)
        requires station { HasStationIn self.old station }
        ensures value { self.new ≡ with_current_in self.old station number }
    {
        self.stations[station as usize - 1].current = number;
    }

    /// Puts this into the station's current area.
    pub(crate) fn put_area(&mut self, station: u32, area: Option<Area>)
        requires station { HasStationIn self.old station }
        ensures value { self.new ≡ with_area_in self.old station area }
    {
        let areas = &mut self.stations[station as usize - 1];
        areas.areas[areas.current as usize - 1] = area;
    }
}

// Whether the table is open in one of the areas.
fn any_has_open(areas: &[Option<Area>], table: u32) -> bool
    ensures value { result ≡ list_any (has_open table) areas.now }
{
    areas.iter().any(|area| has_open(*area, table))
}

fn has_open(area: Option<Area>, table: u32) -> bool
    ensures value { result ≡ has_open table area }
{
    match area {
        Some(area) => area.table == table,
        None => false,
    }
}

// Whether the table is open exclusively in one of the areas.
fn any_has_exclusively(areas: &[Option<Area>], table: u32) -> bool
    ensures value { result ≡ list_any (has_exclusively table) areas.now }
{
    areas.iter().any(|area| has_exclusively(*area, table))
}

fn has_exclusively(area: Option<Area>, table: u32) -> bool
    ensures value { result ≡ has_exclusively table area }
{
    match area {
        Some(area) => area.table == table && area.exclusive,
        None => false,
    }
}

// Whether one of the stations has the table open, and one of the two wants it exclusively.
fn any_station_bars(stations: &[Station], table: u32, exclusive: bool) -> bool
    ensures value { result ≡ list_any (λ st. list_any (bars_use table exclusive) st.areas) stations.now }
{
    stations
        .iter()
        .any(|station| any_area_bars(&station.areas, table, exclusive))
}

fn any_area_bars(areas: &[Option<Area>], table: u32, exclusive: bool) -> bool
    ensures value { result ≡ list_any (bars_use table exclusive) areas.now }
{
    areas.iter().any(|area| bars(*area, table, exclusive))
}

fn bars(area: Option<Area>, table: u32, exclusive: bool) -> bool
    ensures value { result ≡ bars_use table exclusive area }
{
    match area {
        Some(area) => area.table == table && (area.exclusive || exclusive),
        None => false,
    }
}
