//! The status row, which DISPLAY STATUS shows.

ghost use Rattle.std.specs.Prelude.{◌≡◌};
ghost use Rattle.catalogue_core.specs.Status.{row_words};

use crate::opening::MAX_TABLES;

/// Who holds a table, and how many of its records are locked.
#[derive(Clone, Copy, Debug, PartialEq, Eq)]
pub struct TableStatus {
    /// The station that holds the whole table, by FLOCK() or by exclusive use, from 1; 0 for none.
    pub holder: u32,
    /// How many of the table's records are locked.
    pub record_locks: u32,
}

/// The status of a catalogue after the last entry of its journal.
#[derive(Clone, Copy, Debug, PartialEq, Eq)]
pub struct StatusRow {
    /// How many entries the journal has.
    pub journal_length: u64,
    /// The station of the last entry, from 1; 0 before the first entry.
    pub last_station: u32,
    /// The number that stands for the last entry's answer: 0 done, 1 false, 2 true, 3 a number, 4 a text,
    /// and 100 and the refusal's number; 0 before the first entry.
    pub last_answer: u32,
    /// The status of the tables 1 to 10; zeros for one that does not exist.
    pub tables: [TableStatus; MAX_TABLES],
}

impl StatusRow {
    /// The row as 23 numbers: the journal's length, the last entry's station and answer, and the holder
    /// and the number of locked records of each table.
    pub fn words(&self) -> [u64; 23]
        ensures value { result ≡ row_words self.now }
    {
        let mut words = [0; 23];
        words[0] = self.journal_length;
        words[1] = u64::from(self.last_station);
        words[2] = u64::from(self.last_answer);
        for (index, table) in self.tables.iter().enumerate() {
            words[3 + 2 * index] = u64::from(table.holder);
            words[4 + 2 * index] = u64::from(table.record_locks);
        }
        words
    }
}
