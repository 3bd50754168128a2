//! Where the steps of a case are performed.

use crate::program_steps::Coming;
use crate::scarce_lines::Walls;
use crate::setup_steps::{self, Setup};
use crate::{file_steps, seen_steps, station_steps, tool_steps};
use case_files::words::cut_answer;
use case_files::{Opening, Place, Report, Step, Trouble};
use catalogue_core::Catalogue;
use std::alloc::Global;
use std::sync::Wait;
use std::thread::Threads;

/// The files of a case, its stations, and what is to come.
#[derive(Drop)]
pub(crate) struct Stage {
    alloc: Global,
    place: Place,
    // The tables and indexes that were made, and the stations that use those that were opened.
    setup: Setup,
    catalogue: Option<Catalogue>,
    // Where memory is scarce: what holds most of it.
    walls: Option<Walls>,
    // What the next program meets.
    coming: Coming,
}

impl Stage {
    /// Without files and stations.
    pub(crate) fn new(alloc: Global) -> Stage {
        Stage {
            alloc,
            place: Place::new(alloc),
            setup: Setup::new(alloc),
            catalogue: None,
            walls: None,
            coming: Coming::usual(),
        }
    }

    /// The files.
    pub(crate) fn place(&self) -> &Place {
        &self.place
    }

    /// Performs a step: what it is is said by its first word.
    pub(crate) fn perform<R: Threads + Wait + Sync>(
        &mut self,
        rt: &R,
        report: &mut Report<'_>,
        step: &Step<'_, '_>,
    ) -> Result<(), Trouble> {
        match step.word() {
            b"$" => {
                let coming = self.coming;
                self.coming = Coming::usual();
                coming.run(rt, self.alloc, &self.place, report, step)
            }
            b"read" => tool_steps::read(rt, self.alloc, &self.place, report, step),
            b"why" => tool_steps::why(rt, self.alloc, &self.place, report, step),
            word => match word.strip_suffix(b".") {
                Some(number) => self.perform_line(report, step, number),
                None => self.perform_other(report, step),
            },
        }
    }

    // A line of a station.
    fn perform_line(
        &mut self,
        report: &mut Report<'_>,
        step: &Step<'_, '_>,
        number: &[u8],
    ) -> Result<(), Trouble> {
        let is_scarce = self.walls.is_some();
        match &mut self.catalogue {
            Some(catalogue) => {
                station_steps::line(self.alloc, catalogue, is_scarce, report, step, number)
            }
            None => Err(Trouble::Bad("no stations")),
        }
    }

    // A step that makes or changes files, opens them, or says what is to come; or else one that looks at them.
    fn perform_other(
        &mut self,
        report: &mut Report<'_>,
        step: &Step<'_, '_>,
    ) -> Result<(), Trouble> {
        let (alloc, rest) = (self.alloc, step.rest());
        match step.word() {
            b"table" => setup_steps::make_table(alloc, &self.place, &mut self.setup, step),
            b"index" => setup_steps::make_index(alloc, &self.place, &mut self.setup, step),
            b"stations" => {
                let catalogue = self.setup.open_for(alloc, &self.place, rest)?;
                self.catalogue = Some(catalogue);
                Ok(())
            }
            b"open" => self.open(report, step),
            b"order" => match &self.catalogue {
                Some(catalogue) => station_steps::order(alloc, catalogue, report, step),
                None => Err(Trouble::Bad("no stations")),
            },
            b"scarce" => {
                self.walls = Some(Walls::new(alloc)?);
                Ok(())
            }
            b"each" => self.coming.sweep(rest),
            b"output" => self.coming.output(rest),
            b"errors" => self.coming.errors(rest),
            b"input" => self.coming.input(rest),
            _ => perform_on_files(alloc, &self.place, report, step),
        }
    }

    // Opens a setup for its stations, and compares what is said of it.
    fn open(&mut self, report: &mut Report<'_>, step: &Step<'_, '_>) -> Result<(), Trouble> {
        let alloc = self.alloc;
        let (form, wanted) = cut_answer(step.rest());
        let opened = setup_steps::open_setup(alloc, &self.place, form)?;
        let said = setup_steps::said_of(alloc, &opened)?;
        if let Some(catalogue) = opened.ok() {
            self.catalogue = Some(catalogue);
        }
        let wanted = seen_steps::wanted_of(alloc, wanted.or(Some(b"OK")))?;
        Ok(report.compare(step, &wanted, &said)?)
    }
}

// A step that makes, changes or looks at files.
fn perform_on_files(
    alloc: Global,
    place: &Place,
    report: &mut Report<'_>,
    step: &Step<'_, '_>,
) -> Result<(), Trouble> {
    let rest = step.rest();
    match step.word() {
        b"file" => file_steps::make_file(alloc, place, step),
        b"hex" => file_steps::make_hex(alloc, place, step),
        b"copy" => file_steps::copy(place, rest),
        b"put" => file_steps::put(alloc, place, rest),
        b"cut" => file_steps::cut(place, rest),
        b"remove" => file_steps::remove(place, rest),
        b"folder" => Ok(place.make_folder(rest, Opening::Free)?),
        b"busy" => Ok(place.make_folder(rest, Opening::Busy)?),
        b"closed" => Ok(place.make_folder(rest, Opening::Closed)?),
        b"fail" => file_steps::fail(place.devices(), rest),
        b"line" => station_steps::meaning(alloc, report, step),
        _ => look_at_files(alloc, place, report, step),
    }
}

// A step that looks at files.
fn look_at_files(
    alloc: Global,
    place: &Place,
    report: &mut Report<'_>,
    step: &Step<'_, '_>,
) -> Result<(), Trouble> {
    match step.word() {
        b"show" => seen_steps::show(alloc, place, report, step),
        b"bytes" => seen_steps::bytes(alloc, place, report, step),
        b"size" => seen_steps::size(alloc, place, report, step),
        b"files" => seen_steps::files(alloc, place, report, step),
        b"same" => seen_steps::same(place, report, step),
        _ => Err(Trouble::Bad("no such step")),
    }
}
