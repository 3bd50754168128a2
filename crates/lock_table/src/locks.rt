//! The locks that are held.

ghost use Rattle.std.specs.Prelude.{◌≡◌, ◌+◌, ◌*◌, ◌<◌, ◌≤◌, ◌&&◌, ◌||◌, ◌==◌, not, true, false, [], length, replicate, IfOk};
ghost use Rattle.std.specs.List.{list_any};
ghost use Rattle.lock_table.specs.Numbers.{AreRecordNumbers, IsTableOrRecords};
ghost use Rattle.lock_table.specs.Locks.{held, in_table, free_record, free_records, free_whole, may_write, holder, record_locks, own_numbers, with_lock, with_records, without, without_all, AreApart, AreLocksInOrder};
ghost use Rattle.lock_table.specs.Slots.{slot_index_of, row_from, EachSlot, IsSlotRow};

use crate::MAX_RECORD_LOCKS;
use crate::slot::{Slot, WHOLE_TABLE};
use std::alloc::{AllocError, Global};
use std::marker::Model;

/// The locks that stations hold in tables, which contracts see as a list in order of table, station and record.
/// Stations, tables and records count from 1, and a lock on record 0 is one on the whole table.
///
/// After [`Locks::new`] no call takes memory. A call looks at the locks that are held in one table, once for each
/// record that it names, and counts none one by one; only [`Locks::release_all`] goes through the tables.
#[derive(Debug, Drop)]
pub struct Locks {
    stations: u32,
    tables: u32,
    // A slot for each table and station, table by table.
    slots: Vec<Slot>,
}

impl Model for Locks {
    ghost use Rattle.lock_table.specs.Locks.{HeldLocks, held};

    ghost Value = { HeldLocks };

    ghost use Rattle.lock_table.specs.Slots.{AreSlots, locks_of};

    ghost view = { λ l. held l.stations l.tables (locks_of l.stations l.slots.items) };

    ghost invariant = { λ l. AreSlots l.stations l.tables l.slots.items };
}

impl Locks {
    /// No locks, for a number of stations and of tables, with room for [`MAX_RECORD_LOCKS`] locks of each station in each
    /// table. An error is want of memory.
    pub fn new(alloc: Global, stations: u32, tables: u32) -> Result<Locks, AllocError>
        ensures value { IfOk result (λ locks. locks ≡ held stations tables []) }
    {
        let slots = empty_slots(alloc, tables as usize * stations as usize)?;
        Ok(Locks {
            stations,
            tables,
            slots,
        })
    }

    /// How many stations there are.
    pub fn station_count(&self) -> u32
        ensures value { result ≡ self.now.stations }
    {
        self.stations
    }

    /// Locks a record for a station that may have it. The lock replaces all that the station had in the table.
    pub fn lock_record(&mut self, station: u32, table: u32, number: u32)
        requires station { 1 ≤ station }
        requires stations { station ≤ self.old.stations }
        requires table { 1 ≤ table }
        requires tables { table ≤ self.old.tables }
        requires number { 1 ≤ number }
        requires free { free_record self.old.locks station table number ≡ true }
        ensures value { self.new ≡ held self.old.stations self.old.tables (with_lock self.old.locks station table number) }
    {
        self.lock_records(station, table, &[number]);
    }

    /// Locks the records of a list for a station that may have them all. The locks replace all that the station had
    /// in the table. A record that is listed twice is locked once.
    pub fn lock_records(&mut self, station: u32, table: u32, numbers: &[u32])
        requires station { 1 ≤ station }
        requires stations { station ≤ self.old.stations }
        requires table { 1 ≤ table }
        requires tables { table ≤ self.old.tables }
        requires some { 1 ≤ length numbers.now }
        requires count_bounded { length numbers.now ≤ MAX_RECORD_LOCKS }
        requires numbers { AreRecordNumbers numbers.now }
        requires free { free_records self.old.locks station table numbers.now ≡ true }
        ensures value { self.new ≡ held self.old.stations self.old.tables (with_records self.old.locks station table numbers.now) }
    {
        let index = self.slot_index(station, table);
        self.slots[index] = Slot::of_records(numbers);
    }

    /// Locks a whole table for a station that may have it. The lock replaces all that the station had in the
    /// table.
    pub fn lock_file(&mut self, station: u32, table: u32)
        requires station { 1 ≤ station }
        requires stations { station ≤ self.old.stations }
        requires table { 1 ≤ table }
        requires tables { table ≤ self.old.tables }
        requires free { free_whole self.old.locks station table ≡ true }
        ensures value { self.new ≡ held self.old.stations self.old.tables (with_lock self.old.locks station table 0) }
    {
        let index = self.slot_index(station, table);
        self.slots[index] = Slot::of_table();
    }

    /// Locks a record for a station, and answers whether it did: not where another station has a lock on the
    /// record or on the whole table. The lock replaces all that the station had in the table; where the answer is
    /// false nothing has changed.
    pub fn try_record(&mut self, station: u32, table: u32, number: u32) -> bool
        requires station { 1 ≤ station }
        requires stations { station ≤ self.old.stations }
        requires table { 1 ≤ table }
        requires tables { table ≤ self.old.tables }
        requires number { 1 ≤ number }
        ensures free { result ≡ free_record self.old.locks station table number }
        ensures taken { result ≡ true → self.new ≡ held self.old.stations self.old.tables (with_lock self.old.locks station table number) }
        ensures kept { result ≡ false → self.new ≡ self.old }
    {
        if !self.is_free_record(station, table, number) {
            return false;
        }
        self.lock_record(station, table, number);
        true
    }

    /// Locks the records of a list for a station, all or none, and answers whether it did: not where another
    /// station has a lock on one of them or on the whole table. The locks replace all that the station had in the
    /// table; where the answer is false nothing has changed. A record that is listed twice is locked once.
    pub fn try_records(&mut self, station: u32, table: u32, numbers: &[u32]) -> bool
        requires station { 1 ≤ station }
        requires stations { station ≤ self.old.stations }
        requires table { 1 ≤ table }
        requires tables { table ≤ self.old.tables }
        requires some { 1 ≤ length numbers.now }
        requires count_bounded { length numbers.now ≤ MAX_RECORD_LOCKS }
        requires numbers { AreRecordNumbers numbers.now }
        ensures free { result ≡ free_records self.old.locks station table numbers.now }
        ensures taken { result ≡ true → self.new ≡ held self.old.stations self.old.tables (with_records self.old.locks station table numbers.now) }
        ensures kept { result ≡ false → self.new ≡ self.old }
    {
        if !self.is_free_records(station, table, numbers) {
            return false;
        }
        self.lock_records(station, table, numbers);
        true
    }

    /// Locks a whole table for a station, and answers whether it did: not where another station has a lock
    /// in it. The lock replaces all that the station had in the table; where the answer is false nothing has
    /// changed.
    pub fn try_file(&mut self, station: u32, table: u32) -> bool
        requires station { 1 ≤ station }
        requires stations { station ≤ self.old.stations }
        requires table { 1 ≤ table }
        requires tables { table ≤ self.old.tables }
        ensures free { result ≡ free_whole self.old.locks station table }
        ensures taken { result ≡ true → self.new ≡ held self.old.stations self.old.tables (with_lock self.old.locks station table 0) }
        ensures kept { result ≡ false → self.new ≡ self.old }
    {
        if !self.is_free_whole(station, table) {
            return false;
        }
        self.lock_file(station, table);
        true
    }

    /// Releases all locks that the station has in a table.
    pub fn release(&mut self, station: u32, table: u32)
        requires station { 1 ≤ station }
        requires stations { station ≤ self.old.stations }
        requires table { 1 ≤ table }
        requires tables { table ≤ self.old.tables }
        ensures value { self.new ≡ held self.old.stations self.old.tables (without self.old.locks station table) }
    {
        let index = self.slot_index(station, table);
        self.slots[index] = Slot::empty();
    }

    /// Releases all locks of the station.
    pub fn release_all(&mut self, station: u32)
        requires station { 1 ≤ station }
        requires stations { station ≤ self.old.stations }
        ensures value { self.new ≡ held self.old.stations self.old.tables (without_all self.old.locks station) }
    {
        for table in 0..self.tables {
            self.release(station, table + 1);
        }
    }

    /// The station whose lock is on just this record, and 0 where there is none. A lock on the whole table
    /// doesn't count.
    pub fn holder_of_record(&self, table: u32, number: u32) -> u32
        requires table { 1 ≤ table }
        requires tables { table ≤ self.now.tables }
        requires number { 1 ≤ number }
        ensures value { result ≡ holder self.now.locks table number }
    {
        self.holder(table, number)
    }

    /// The station whose lock is on the whole table, and 0 where there is none.
    pub fn file_holder(&self, table: u32) -> u32
        requires table { 1 ≤ table }
        requires tables { table ≤ self.now.tables }
        ensures value { result ≡ holder self.now.locks table 0 }
    {
        self.holder(table, WHOLE_TABLE)
    }

    /// Whether the station has a lock on the record or on the whole table.
    pub fn may_write(&self, station: u32, table: u32, number: u32) -> bool
        requires station { 1 ≤ station }
        requires stations { station ≤ self.now.stations }
        requires table { 1 ≤ table }
        requires tables { table ≤ self.now.tables }
        requires number { 1 ≤ number }
        ensures value { result ≡ may_write self.now.locks station table number }
        ensures apart { AreApart self.now.locks }
        ensures order { AreLocksInOrder self.now.locks }
        ensures own { IsTableOrRecords MAX_RECORD_LOCKS (own_numbers self.now.locks station table) }
    {
        let own = station as usize - 1;
        self.row(table)[own].covers(number)
    }

    /// How many locks there are on records of a table. A lock on the whole table doesn't count.
    pub fn record_locks(&self, table: u32) -> u32
        requires table { 1 ≤ table }
        requires tables { table ≤ self.now.tables }
        ensures value { result ≡ record_locks self.now.locks table }
        ensures apart { AreApart self.now.locks }
        ensures order { AreLocksInOrder self.now.locks }
    {
        let row = self.row(table);
        let mut count = 0;
        for other in 0..self.stations {
            count += row[other as usize].record_count();
        }
        count
    }

    /// Whether the station may lock the record: no other station has a lock on it or on the whole table.
    pub fn is_free_record(&self, station: u32, table: u32, number: u32) -> bool
        requires table { 1 ≤ table }
        requires tables { table ≤ self.now.tables }
        ensures value { result ≡ free_record self.now.locks station table number }
    {
        let row = self.row(table);
        for other in 0..self.stations {
            if bars(&row[other as usize], other + 1, station, number) {
                return false;
            }
        }
        true
    }

    /// Whether the station may lock each of the records.
    pub fn is_free_records(&self, station: u32, table: u32, numbers: &[u32]) -> bool
        requires table { 1 ≤ table }
        requires tables { table ≤ self.now.tables }
        ensures value { result ≡ free_records self.now.locks station table numbers.now }
    {
        for i in 0..numbers.len() {
            if !self.is_free_record(station, table, numbers[i]) {
                return false;
            }
        }
        true
    }

    /// Whether the station may lock the whole table: no other station has a lock in it.
    pub fn is_free_whole(&self, station: u32, table: u32) -> bool
        requires table { 1 ≤ table }
        requires tables { table ≤ self.now.tables }
        ensures value { result ≡ free_whole self.now.locks station table }
    {
        let row = self.row(table);
        for other in 0..self.stations {
            if bars_table(&row[other as usize], other + 1, station) {
                return false;
            }
        }
        true
    }

    // The station whose lock is on just this record, where 0 is the whole table.
    fn holder(&self, table: u32, number: u32) -> u32
        requires table { 1 ≤ table }
        requires tables { table ≤ self.now.tables }
        ensures value { result ≡ holder self.now.locks table number }
    {
        let row = self.row(table);
        for other in 0..self.stations {
            if row[other as usize].is_on(number) {
                return other + 1;
            }
        }
        0
    }

    // The index of the slot of a station and a table.
    fn slot_index(&self, station: u32, table: u32) -> usize
        requires station { 1 ≤ station }
        requires stations { station ≤ self.now.stations }
        requires table { 1 ≤ table }
        requires tables { table ≤ self.now.tables }
        ensures value { result ≡ slot_index_of self.now.stations station table }
        ensures inside { result < self.now.tables * self.now.stations }
    {
        (table as usize - 1) * self.stations as usize + (station as usize - 1)
    }

    // The slots of a table, in order of station.
    fn row(&self, table: u32) -> &[Slot]
        requires table { 1 ≤ table }
        requires tables { table ≤ self.now.tables }
        ensures length { length result.now ≡ self.now.stations }
        ensures locks { in_table self.now.locks table ≡ row_from table 1 result.now }
        ensures each { EachSlot result.now }
        ensures own { IsSlotRow self.now.locks self.now.stations table result.now }
        ensures apart { AreApart self.now.locks }
        ensures order { AreLocksInOrder self.now.locks }
    {
        let start = (table as usize - 1) * self.stations as usize;
        &self.slots[start..start + self.stations as usize]
    }
}

// A number of slots without locks.
fn empty_slots(alloc: Global, count: usize) -> Result<Vec<Slot>, AllocError>
    ensures value { IfOk result (λ slots. slots.items ≡ replicate count []) }
{
    let mut slots = Vec::with_capacity(alloc, count)?;
    for i in 0..count {
        slots.push_reserved(Slot::empty());
    }
    Ok(slots)
}

// Whether a lock in the slot of a holder bars the station from the record.
fn bars(slot: &Slot, holder: u32, station: u32, number: u32) -> bool
    ensures value { result ≡ (not (holder == station) && list_any (λ n. n == number || n == 0) slot.now) }
{
    holder != station && slot.covers(number)
}

// Whether a lock in the slot of a holder bars the station from the whole table.
fn bars_table(slot: &Slot, holder: u32, station: u32) -> bool
    ensures value { result ≡ (not (holder == station) && not (length slot.now == 0)) }
{
    holder != station && !slot.is_empty()
}
