//! What a station has locked in a table.

ghost use Rattle.std.specs.Prelude.{◌≡◌, ℕ, nat_lt, nat_le, ◌+◌, ◌*◌, ◌<◌, ◌≤◌, ◌||◌, ◌==◌, List, [], ◌∷◌, length, take};
ghost use Rattle.std.specs.List.{list_any, filter, insert, position_or_len};
ghost use Rattle.lock_table.specs.declared.TheConstants.{MAX_RECORD_LOCKS};
ghost use Rattle.lock_table.specs.Numbers.{with_number, different, AreAtMost, IsTableOrRecords};

use crate::MAX_RECORD_LOCKS;
use std::marker::Model;

/// The number by which a lock is on the whole table.
pub(crate) const WHOLE_TABLE: u32 = 0;

/// The numbers that a station has locked in a table, which contracts see as a list: different records, ascending,
/// or 0 alone, which is the whole table.
#[derive(Debug, Drop)]
pub(crate) struct Slot {
    count: u32,
    // The first `count` are the locked ones.
    numbers: [u32; MAX_RECORD_LOCKS],
}

impl Model for Slot {
    ghost Value = { List ℕ };

    ghost view = { λ s. take s.count s.numbers };

    ghost invariant = { λ s. s.count ≤ MAX_RECORD_LOCKS };
}

impl Slot {
    /// No lock.
    pub(crate) fn empty() -> Slot
        ensures value { result ≡ [] }
    {
        Slot {
            count: 0,
            numbers: [0; MAX_RECORD_LOCKS],
        }
    }

    /// A lock on the whole table.
    pub(crate) fn of_table() -> Slot
        ensures value { result ≡ 0 ∷ [] }
    {
        Slot {
            count: 1,
            numbers: [WHOLE_TABLE; MAX_RECORD_LOCKS],
        }
    }

    /// Locks on the different records of a list.
    pub(crate) fn of_records(numbers: &[u32]) -> Slot
        requires count_bounded { length numbers.now ≤ MAX_RECORD_LOCKS }
        ensures value { result ≡ different numbers.now }
    {
        let mut slot = Slot::empty();
        for i in (0..numbers.len()).rev() {
            slot.insert(numbers[i]);
        }
        slot
    }

    // The locked numbers.
    fn as_slice(&self) -> &[u32]
        ensures value { result.now ≡ self.now }
    {
        &self.numbers[..self.count as usize]
    }

    // Puts a number among the ascending ones, unless it is one of them.
    fn insert(&mut self, number: u32)
        requires room { length self.old < MAX_RECORD_LOCKS }
        ensures value { self.new ≡ with_number number self.old }
    {
        let held = self.as_slice();
        let at = place_of(held, number);
        if at < held.len() && held[at] == number {
            return;
        }
        self.put(at, number);
    }

    // Puts a number before those from a place on.
    fn put(&mut self, at: usize, number: u32)
        requires room { length self.old < MAX_RECORD_LOCKS }
        requires place { at ≤ length self.old }
        ensures value { self.new ≡ insert self.old at number }
    {
        let count = self.count as usize;
        self.numbers.copy_within(at..count, at + 1);
        self.numbers[at] = number;
        self.count += 1;
    }

    /// Whether nothing is locked.
    pub(crate) fn is_empty(&self) -> bool
        ensures value { result ≡ (length self.now == 0) }
    {
        self.count == 0
    }

    /// Whether a lock is on the record or on the whole table.
    pub(crate) fn covers(&self, number: u32) -> bool
        ensures value { result ≡ list_any (λ n. n == number || n == 0) self.now }
    {
        self.as_slice()
            .iter()
            .any(|held| *held == number || *held == WHOLE_TABLE)
    }

    /// Whether a lock is on just this record, where 0 is the whole table.
    pub(crate) fn is_on(&self, number: u32) -> bool
        ensures value { result ≡ list_any (λ n. n == number) self.now }
    {
        self.as_slice().contains(&number)
    }

    /// How many records are locked. They are not counted one by one.
    pub(crate) fn record_count(&self) -> u32
        requires allowed { IsTableOrRecords MAX_RECORD_LOCKS self.now }
        ensures value { result ≡ length (filter (λ n. nat_lt 0 n) self.now) }
        ensures bounded { AreAtMost u32.MAX self.now }
    {
        records_in(self.as_slice())
    }
}

// How many of a slot's numbers are of records.
fn records_in(held: &[u32]) -> u32
    requires allowed { IsTableOrRecords MAX_RECORD_LOCKS held.now }
    ensures value { result ≡ length (filter (λ n. nat_lt 0 n) held.now) }
    ensures bounded { AreAtMost u32.MAX held.now }
{
    if held.len() > 0 && held[0] == WHOLE_TABLE {
        return 0;
    }
    held.len() as u32
}

// How many of the numbers at the front are below this one.
fn place_of(numbers: &[u32], number: u32) -> usize
    ensures value { result ≡ position_or_len (λ m. nat_le number m) numbers.now }
    ensures inside { result ≤ length numbers.now }
{
    for i in 0..numbers.len() {
        if number <= numbers[i] {
            return i;
        }
    }
    numbers.len()
}
