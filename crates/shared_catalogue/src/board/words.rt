//! The status row as the words of the board's cell, and the way back.

ghost use Rattle.std.specs.Prelude.{◌≡◌, ◌%◌, ◌≤◌};
ghost use Rattle.catalogue_core.specs.declared.opening.TheConstants.{MAX_TABLES};
ghost use Rattle.catalogue_core.specs.Status.{row_words};
ghost use Rattle.shared_catalogue.specs.RowWords.{u32_count, status_in, row_of_words, IsSmallStatus, IsSmallRow};

use catalogue_core::{MAX_TABLES, StatusRow, TableStatus};

/// The words of a row, from which it is read back.
pub(crate) fn words_of_row(row: &StatusRow) -> [u64; 23]
    ensures words { result ≡ row_words row.now }
    ensures read_back { row_of_words result ≡ row.now }
{
    audit_row(row);
    row.words()
}

/// The row of these words.
pub(crate) fn row_of_words(words: &[u64; 23]) -> StatusRow
    ensures value { result ≡ row_of_words words.now }
{
    let mut tables = [TableStatus {
        holder: 0,
        record_locks: 0,
    }; MAX_TABLES];
    for index in 0..MAX_TABLES {
        tables[index] = status_in(words, index + 1);
    }
    StatusRow {
        journal_length: words[0],
        last_station: low_half(words[1]),
        last_answer: low_half(words[2]),
        tables,
    }
}

// The status of the table of a number, from 1, in the words of a row.
fn status_in(words: &[u64; 23], number: usize) -> TableStatus
    requires counted { 1 ≤ number }
    requires inside { number ≤ MAX_TABLES }
    ensures value { result ≡ status_in words.now number }
{
    TableStatus {
        holder: low_half(words[1 + 2 * number]),
        record_locks: low_half(words[2 + 2 * number]),
    }
}

// The low 32 bits of a word.
fn low_half(word: u64) -> u32
    ensures value { result ≡ word % u32_count }
{
    (word % 4_294_967_296) as u32
}

// For contracts alone: the row has ten tables, and its numbers, but for the length, have 32 bits.
fn audit_row(row: &StatusRow)
    ensures small { IsSmallRow row.now }
{
    let _station = row.last_station;
    let _answer = row.last_answer;
    for table in &row.tables {
        audit_status(table);
    }
}

// For contracts alone: the table's numbers have 32 bits.
fn audit_status(table: &TableStatus)
    ensures small { IsSmallStatus table.now }
{
    let _holder = table.holder;
    let _record_locks = table.record_locks;
}
