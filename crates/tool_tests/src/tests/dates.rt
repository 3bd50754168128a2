//! The date in a header, of which a text shows two digits of the year.

use dbf_fields::{Day, day_of};
use std::process::Abort;
use std::test::*;
use table_text::header_date;

// Headers, each a version, the year less 1900, the month and the day of the month, and the day that they tell.
const HEADERS: [(&[u8], (u16, u8, u8)); 4] = [
    (&[0x03, 87, 3, 2], (1987, 3, 2)),
    (&[0x83, 126, 2, 28, 9], (2026, 2, 28)),
    (&[0x03, 0, 12, 31], (1900, 12, 31)),
    (&[0x03, 255, 1, 1], (2155, 1, 1)),
];

// The day of a year, a month and a day of the month.
fn day((year, month, day): (u16, u8, u8)) -> Option<Day> {
    day_of(year, month, day)
}

// The first header that tells another day.
fn first_other() -> Option<usize> {
    for i in 0..HEADERS.len() {
        let (header, told) = HEADERS[i];
        if header_date(header) != day(told) {
            return Some(i);
        }
    }
    None
}

#[test]
fn header_tells_the_year_less_1900(rt: HostRuntime) -> Result<(), Fail> {
    assert!(rt; first_other() == None && header_date(&[0x03, 87, 3]) == None);
    Ok(())
}
