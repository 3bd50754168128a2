//! Locks of stations on records and on whole tables.
//!
//! [`Locks`] is seen by contracts as the list of the locks that are held (`specs/Locks.antt`). A station has in a
//! table one lock on the whole table, or locks on [`MAX_RECORD_LOCKS`] records at most. Locks are given, all that are
//! asked for or none, exactly where no lock of another station bars one of them, and then they replace those that
//! the station had in that table; so no record is locked by two stations. Start reading at `specs/Locks.antt`,
//! then `locks.rt`.
#![tactic(auto)]

ghost use Rattle.std.specs.Prelude.{◌≡◌, ◌≢◌, ℕ, List, [], ◌∷◌};
ghost use Rattle.lock_table.specs.Numbers.{different, AreAscending, HasAll};
ghost use Rattle.lock_table.specs.Locks.{Lock, lock_of, free_record, free_records, with_lock, with_records, without, without_all, IsHeld};
ghost use Rattle.lock_table.specs.Changes.{StayApart, StayApartAtRecord, StayApartAtTable, HasOnly, KeepsOthers, AddsOnly, LeavesOutOwn, TakingKeepsApart, TakingHoldsEach, TakingHoldsOnly, TakingKeepsOthers, TakingAddsOnly};

mod locks;
mod slot;

pub use locks::Locks;

/// The most records that a station may have locked in a table.
pub const MAX_RECORD_LOCKS: usize = 50;

/// The different numbers of a list: all of the list's numbers and no others, ascending; and only one list is so.
pub fn different_numbers()
    ensures ascending { (numbers : List ℕ) → AreAscending (different numbers) }
    ensures all { (numbers : List ℕ) → HasAll numbers (different numbers) }
    ensures only { (numbers : List ℕ) → HasAll (different numbers) numbers }
    ensures one_list { (xs ys : List ℕ) → AreAscending xs → AreAscending ys → HasAll xs ys → HasAll ys xs → xs ≡ ys }
{}

/// A list of one record is that record: it is free where the record is, and to lock it is to lock the record.
pub fn list_of_one()
    ensures free { (locks : List Lock) (station table number : ℕ) → free_records locks station table (number ∷ []) ≡ free_record locks station table number }
    ensures taken { (locks : List Lock) (station table number : ℕ) → with_records locks station table (number ∷ []) ≡ with_lock locks station table number }
{}

/// Whatever free records or table are locked and whatever is released, stations stay apart: no record is locked by
/// two of them, and no table in which another has a lock.
pub fn stations_stay_apart()
    ensures records { (locks : List Lock) (station table number : ℕ) → StayApartAtRecord locks (with_lock locks station table number) station table number }
    ensures listed { (locks : List Lock) (station table : ℕ) (numbers : List ℕ) → TakingKeepsApart locks station table numbers }
    ensures file { (locks : List Lock) (station table : ℕ) → StayApartAtTable locks (with_lock locks station table 0) station table }
    ensures released { (locks : List Lock) (station table : ℕ) → StayApart locks (without locks station table) }
    ensures all_released { (locks : List Lock) (station : ℕ) → StayApart locks (without_all locks station) }
{}

/// Which locks are held after some were taken or released: the new ones in place of all that the station had in that
/// table, and each that is none of the station's there; and no others.
pub fn other_locks_stay()
    ensures new_is_held { (locks : List Lock) (station table number : ℕ) → IsHeld (with_lock locks station table number) (lock_of table station number) }
    ensures alone { (locks : List Lock) (station table number : ℕ) → HasOnly (with_lock locks station table number) station table number }
    ensures others_stay { (locks : List Lock) (station table number : ℕ) → KeepsOthers locks (with_lock locks station table number) station table }
    ensures taken { (locks : List Lock) (station table number : ℕ) → AddsOnly locks (with_lock locks station table number) (lock_of table station number) }
    ensures listed_are_held { (locks : List Lock) (station table : ℕ) (numbers : List ℕ) → TakingHoldsEach locks station table numbers }
    ensures listed_alone { (locks : List Lock) (station table : ℕ) (numbers : List ℕ) → TakingHoldsOnly locks station table numbers }
    ensures others_stay_beside { (locks : List Lock) (station table : ℕ) (numbers : List ℕ) → TakingKeepsOthers locks station table numbers }
    ensures taken_listed { (locks : List Lock) (station table : ℕ) (numbers : List ℕ) → TakingAddsOnly locks station table numbers }
    ensures released { (locks : List Lock) (station table : ℕ) → LeavesOutOwn locks (without locks station table) station table }
    ensures others_left { (locks : List Lock) (station table : ℕ) → KeepsOthers locks (without locks station table) station table }
    ensures all_released { (locks : List Lock) (station : ℕ) (l : Lock) → IsHeld (without_all locks station) l → IsHeld locks l × (l.station ≢ station) }
    ensures all_others_left { (locks : List Lock) (station : ℕ) (l : Lock) → IsHeld locks l → l.station ≢ station → IsHeld (without_all locks station) l }
{}
