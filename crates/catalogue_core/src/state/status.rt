//! Who holds which table.

ghost use Rattle.std.specs.Prelude.{◌≡◌, ◌≤◌, length, map};
ghost use Rattle.ndx_index.specs.Places.{counted};
ghost use Rattle.catalogue_core.specs.Rooms.{seen};
ghost use Rattle.catalogue_core.specs.State.{IsState};
ghost use Rattle.catalogue_core.specs.Status.{table_holder, table_status};
ghost use Rattle.catalogue_core.specs.declared.opening.TheConstants.{MAX_TABLES as TABLES};

use crate::opening::MAX_TABLES;
use crate::state::State;
use crate::status::TableStatus;

const NO_TABLE: TableStatus = TableStatus {
    holder: 0,
    record_locks: 0,
};

impl State {
    /// The status of the tables 1 to 10, with zeros for one that does not exist.
    pub(crate) fn table_statuses(&self) -> [TableStatus; MAX_TABLES]
        requires state { IsState (seen self.now) }
        ensures value { result ≡ map (table_status (seen self.now)) (counted 1 TABLES) }
    {
        let mut statuses = [NO_TABLE; MAX_TABLES];
        for index in 0..MAX_TABLES {
            statuses[index] = self.table_status(index as u32 + 1);
        }
        statuses
    }

    // The status of the table of a number, and zeros where there is no such table.
    fn table_status(&self, number: u32) -> TableStatus
        requires state { IsState (seen self.now) }
        requires counted { 1 ≤ number }
        ensures value { result ≡ table_status (seen self.now) number }
    {
        if number as usize > self.tables.len() {
            return NO_TABLE;
        }
        TableStatus {
            holder: self.table_holder(number),
            record_locks: self.locks.record_locks(number),
        }
    }

    // The station that holds the whole table, and 0 where there is none.
    fn table_holder(&self, number: u32) -> u32
        requires state { IsState (seen self.now) }
        requires counted { 1 ≤ number }
        requires inside { number ≤ length (seen self.now).tables }
        ensures value { result ≡ table_holder (seen self.now) number }
    {
        // For contracts alone: a u32 counts the stations, which are as many as those of the locks.
        let _ = self.locks.station_count();
        match self.stations.exclusive_user(number) {
            Some(index) => index as u32 + 1,
            None => self.locks.file_holder(number),
        }
    }
}
