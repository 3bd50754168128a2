//! The date that the written tables tell.

ghost use Rattle.std.specs.Prelude.{◌↔◌, IsSome, IfSome};
ghost use Rattle.dbf_fields.specs.Date.{SaysDay};
ghost use Rattle.dbf_image.specs.Image.{IsOutside};
ghost use Rattle.program_frame.specs.Dates.{IsRunDate};

use dbf_fields::{DateCell, Day, read_date};

/// The date that a text is: eight digits `YYYYMMDD` of a calendar date of the years 1900 to 2155. `None` for
/// every other text. Takes no memory.
pub fn date_of(text: &[u8]) -> Option<Day>
    ensures some { IsSome result ↔ IsRunDate text.now }
    ensures said { IfSome result (λ day. SaysDay text.now day) }
    ensures years { IfSome result (λ day. ¬ IsOutside day.year) }
{
    match read_date(text) {
        DateCell::Is(day) => {
            if day.year < 1900 || day.year > 2155 {
                return None;
            }
            Some(day)
        }
        DateCell::Blank => None,
        DateCell::Odd => None,
    }
}
