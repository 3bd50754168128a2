//! Calendar dates.

ghost use Rattle.std.specs.Prelude.{◌≡◌, ◌↔◌, IsSome, IfSome};
ghost use Rattle.dbf_fields.specs.Day.{IsDay};

use jiff::civil::Date;

/// A calendar date of the years 1 to 9999: every value of this type is one.
#[derive(Clone, Copy, Debug, PartialEq, Eq)]
pub struct Day {
    /// The year, 1 to 9999.
    pub year: u16,
    /// The month, 1 to 12.
    pub month: u8,
    /// The day of the month, from 1.
    pub day: u8,
    ghost real: { IsDay year month day },
}

/// The date of a year, a month and a day of the month, and `None` exactly where the calendar of the
/// years 1 to 9999 (ISO 8601, so the Gregorian rule of leap years throughout) has no such date.
/// Takes no memory.
pub fn day_of(year: u16, month: u8, day: u8) -> Option<Day>
    ensures some { IsSome result ↔ IsDay year month day }
    ensures year { IfSome result (λ d. d.year ≡ year) }
    ensures month { IfSome result (λ d. d.month ≡ month) }
    ensures day { IfSome result (λ d. d.day ≡ day) }
{
    if year < 1 || year > 9999 || month > 12 || day > 31 {
        return None;
    }
    match Date::new(year as i16, month as i8, day as i8) {
        Ok(_) => Some(Day { year, month, day }),
        Err(_) => None,
    }
}
