//! Which records are shown.

ghost use Rattle.std.specs.Prelude.{◌≡◌, ◌≤◌, ◌<◌, ◌↔◌, ℕ, List, Option, None, IsTrue, Contains, false, true, length, option_copied, slice_index};
ghost use Rattle.std.specs.List.Sorted.{IsStrictlyIncreasing};
ghost use Rattle.dbf_image.specs.Table.{Table};
ghost use Rattle.table_text.specs.declared.selection.Selection.{Selection as Chosen};
ghost use Rattle.table_text.specs.Selection.{is_selected, is_asked_for, numbers_in, selected};

use dbf_image::TableData;

/// Which records are shown: those whose number is `first` to `last`, and of these the marked ones only where
/// `with_deleted` says so. Records count from 1, and `last` may be greater than the number of the last one.
#[derive(Clone, Copy, Debug, PartialEq, Eq)]
pub struct Selection {
    /// The number of the first record.
    pub first: u32,
    /// The number of the last record.
    pub last: u32,
    /// Whether records that are marked as deleted are shown, too.
    pub with_deleted: bool,
}

impl Selection {
    /// All records that are not marked as deleted.
    pub fn kept() -> Selection
        ensures value { result ≡ record { first = 1; last = u32.MAX; with_deleted = false } }
    {
        Selection {
            first: 1,
            last: u32::MAX,
            with_deleted: false,
        }
    }

    // Whether the record of a number is shown, where there is one.
    pub(crate) fn takes(self, table: &TableData, number: u32) -> bool
        ensures value { result ≡ is_selected table.now self number }
        ensures inside { IsTrue result → (1 ≤ number) × (number ≤ length table.now.rows) }
    {
        if number < 1 || number > table.record_count() {
            return false;
        }
        self.asks_for(table, number)
    }

    // Whether a record of the table is shown.
    fn asks_for(self, table: &TableData, number: u32) -> bool
        requires number { 1 ≤ number }
        requires inside { number ≤ length table.now.rows }
        ensures value { result ≡ is_asked_for table.now self number }
    {
        let asked = number >= self.first && number <= self.last;
        asked && (self.with_deleted || !table.is_deleted(number))
    }
}

/// How many numbers there are in an order: those that are given, or one for each record.
pub(crate) fn number_count(table: &TableData, order: Option<&[u32]>) -> usize
    ensures count { result ≡ length (numbers_in table.now (option_copied order.entry)) }
{
    match order {
        Some(numbers) => numbers.len(),
        None => table.record_count() as usize,
    }
}

/// The number at a place of an order, from 0.
pub(crate) fn number_at(table: &TableData, order: Option<&[u32]>, place: usize) -> u32
    requires inside { place < length (numbers_in table.now (option_copied order)) }
    ensures value { result ≡ slice_index (numbers_in table.now (option_copied order.entry)) place }
{
    // For contracts alone: a number counts all records.
    let _count = table.record_count();
    match order {
        Some(numbers) => numbers[place],
        None => place as u32 + 1,
    }
}

/// A law: the records that are shown are those of the order that are selected, and no other. Where no order is given, each
/// record that is selected is shown once, by its number.
pub fn each_is_shown_once()
    ensures shown { (table : Table) (order : Option (List ℕ)) (selection : Chosen) (number : ℕ)
        → Contains (selected table order selection) number
        ↔ (Contains (numbers_in table order) number × (is_selected table selection number ≡ true)) }
    ensures all { (table : Table) (number : ℕ) → Contains (numbers_in table None) number ↔ ((1 ≤ number) × (number ≤ length table.rows)) }
    ensures once { (table : Table) (selection : Chosen) → IsStrictlyIncreasing (selected table None selection) }
{}
