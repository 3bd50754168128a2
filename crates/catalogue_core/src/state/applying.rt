//! Changes of the state. None of them takes memory or fails.

ghost use Rattle.std.specs.Prelude.{◌≡◌};
ghost use Rattle.catalogue_core.specs.Planned.{state_after, with_planned, CanChange, CanEdit};
ghost use Rattle.catalogue_core.specs.Rooms.{seen};
ghost use Rattle.catalogue_core.specs.State.{closed, IsState, HasStation};
ghost use Rattle.catalogue_core.specs.declared.change.Change.{Change as ChangeValue};

use crate::area::Area;
use crate::change::Change;
use crate::state::State;
use table_core::Planned;

impl State {
    /// Applies a station's change.
    pub(crate) fn apply(&mut self, station: u32, change: Change)
        requires state { IsState (seen self.old) }
        requires station { HasStation (seen self.old) station }
        requires can { CanChange self.old station change }
        ensures value { seen self.new ≡ state_after (seen self.old) station change }
    {
        match change {
            Change::Nothing => (),
            Change::Select(number) => self.stations.select(station, number),
            Change::Close => self.close(station),
            Change::Open(area) => self.open(station, area),
            Change::Move(area) => self.stations.put_area(station, Some(area)),
            Change::Edit(area, planned) => self.edit(station, area, planned),
            Change::Pack(area, planned) => self.pack(station, area, planned),
            Change::RecordLock(area, number) => self.locks.lock_record(station, area.table, number),
            Change::RecordLocks(area, records) => {
                self.locks
                    .lock_records(station, area.table, records.as_slice());
            }
            Change::FileLock(area) => self.locks.lock_file(station, area.table),
            Change::Unlock(area) => self.locks.release(station, area.table),
            Change::UnlockAll => self.locks.release_all(station),
        }
    }

    // Closes the current area's table, in which the locks are released, where one is open in it.
    fn close(&mut self, station: u32)
        requires state { IsState (seen self.old) }
        requires station { HasStation (seen self.old) station }
        ensures value { seen self.new ≡ closed (seen self.old) station }
    {
        if let Some(area) = self.area(station) {
            self.locks.release(station, area.table);
        }
        self.stations.put_area(station, None);
    }

    // Opens a table in the current area, in place of the one that was open there.
    fn open(&mut self, station: u32, area: Area)
        requires state { IsState (seen self.old) }
        requires station { HasStation (seen self.old) station }
        ensures value { seen self.new ≡ state_after (seen self.old) station (ChangeValue.Open area) }
    {
        self.close(station);
        self.stations.put_area(station, Some(area));
    }

    // Carries out an edit of the table of the area, which is the current one.
    fn edit(&mut self, station: u32, area: Area, planned: Planned)
        requires state { IsState (seen self.old) }
        requires station { HasStation (seen self.old) station }
        requires can { CanEdit self.old area planned }
        ensures value { seen self.new ≡ with_planned (seen self.old) station area planned }
        ensures locks { self.new.locks ≡ self.old.locks }
    {
        let mut cursor = area.cursor;
        self.tables[area.table as usize - 1].carry_out(planned, &mut cursor);
        self.stations
            .put_area(station, Some(Area { cursor, ..area }));
    }

    // Carries out the packing of the table of the area, which is the current one, and releases the station's locks in
    // it.
    fn pack(&mut self, station: u32, area: Area, planned: Planned)
        requires state { IsState (seen self.old) }
        requires station { HasStation (seen self.old) station }
        requires can { CanEdit self.old area planned }
        ensures value { seen self.new ≡ state_after (seen self.old) station (ChangeValue.Pack area planned) }
    {
        self.edit(station, area, planned);
        self.locks.release(station, area.table);
    }
}
