//! Dates in cells.

ghost use Rattle.std.specs.Prelude.{◌≡◌, ◌+◌, ◌<◌, ◌%◌, ◌^◌, ◌↔◌, length, true, IsSome, IfSome};
ghost use Rattle.std.specs.List.{list_all};
ghost use Rattle.std.specs.Char.{is_ascii_digit};
ghost use Rattle.dbf_fields.specs.Digits.{digits_after};
ghost use Rattle.dbf_fields.specs.Date.{year_in, month_in, day_in, is_date, IsDateCell, date_text as text_of, date_shown};

use crate::day::{Day, day_of};
use crate::decimal::{are_digits, number_of_digits};
use crate::format::{SLASH, ZERO_DIGIT};

/// What a cell of a date says.
#[derive(Clone, Copy, Debug, PartialEq, Eq)]
pub enum DateCell {
    /// Eight blanks: no date.
    Blank,
    /// Neither eight blanks nor a date.
    Odd,
    /// A date: four digits of the year, two of the month and two of the day.
    Is(Day),
}

// The number of at most four digits, which two bytes keep.
fn small_number(digits: &[u8]) -> u16
    requires digits { list_all is_ascii_digit digits.now ≡ true }
    requires count_bounded { length digits.now < 5 }
    ensures value { result ≡ digits_after 0 digits.now }
    ensures bounded { result < 10 ^ length digits.now }
{
    number_of_digits(digits) as u16
}

// The date that the eight digits of a cell are, where they are one.
#[tactic(auto, unfolding(crate::specs::Date::is_date))]
fn date_in(cell: &[u8]) -> Option<Day>
    ensures some { IsSome result ↔ (is_date cell.now ≡ true) }
    ensures year { IfSome result (λ date. year_in cell.now ≡ date.year) }
    ensures month { IfSome result (λ date. month_in cell.now ≡ date.month) }
    ensures day { IfSome result (λ date. day_in cell.now ≡ date.day) }
{
    if cell.len() != 8 || !are_digits(cell) {
        return None;
    }
    let year = small_number(&cell[..4]);
    let month = small_number(&cell[4..6]);
    let day = small_number(&cell[6..8]);
    day_of(year, month as u8, day as u8)
}

/// What a cell of a date says: the calendar date of the years 1 to 9999 that its eight digits
/// `YYYYMMDD` are, `Blank` for eight blanks, and `Odd` for every other cell. Takes no memory.
pub fn read_date(cell: &[u8]) -> DateCell
    ensures value { IsDateCell cell.now result }
{
    if cell == b"        ".as_slice() {
        return DateCell::Blank;
    }
    match date_in(cell) {
        Some(day) => DateCell::Is(day),
        None => DateCell::Odd,
    }
}

fn last_digit(number: u16) -> u8
    ensures value { result ≡ ZERO_DIGIT + number % 10 }
{
    ZERO_DIGIT + (number % 10) as u8
}

// A date as `YYYYMMDD`.
#[tactic(auto, unfolding(crate::specs::Date::date_text))]
pub(crate) fn date_text(date: &Day) -> [u8; 8]
    ensures value { result ≡ text_of date.now.year date.now.month date.now.day }
{
    let month = u16::from(date.month);
    let day = u16::from(date.day);
    [
        last_digit(date.year / 10 / 10 / 10),
        last_digit(date.year / 10 / 10),
        last_digit(date.year / 10),
        last_digit(date.year),
        last_digit(month / 10),
        last_digit(month),
        last_digit(day / 10),
        last_digit(day),
    ]
}

/// The date of a cell as commands and key expressions show it: `MM/DD/YY`, with blanks in place of the
/// digits for the blank date, and asterisks for a cell that is neither. Takes no memory.
#[tactic(auto, unfolding(crate::specs::Date::is_date))]
pub fn shown_date(cell: &[u8]) -> [u8; 8]
    ensures value { result ≡ date_shown cell.now }
{
    match read_date(cell) {
        DateCell::Is(_) => [
            cell[4], cell[5], SLASH, cell[6], cell[7], SLASH, cell[2], cell[3],
        ],
        DateCell::Blank => *b"  /  /  ",
        DateCell::Odd => *b"**/**/**",
    }
}
