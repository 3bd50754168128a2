//! Dates as a text of CSV has them.

ghost use Rattle.std.specs.Prelude.{◌≡◌, ◌==◌, option_map, position};
ghost use Rattle.table_loader.specs.Dates.{after_mark, before_mark, date_digits as digits_by, digits_of as digits_of_texts, first_part, second_part, third_part};
ghost use Rattle.table_loader.specs.Dates.{four_bytes, joined as all_joined, two_bytes, two_digits as two_by, year_digits as year_by};

use crate::form::DateForm;
use dbf_fields::{MINUS, POINT, SLASH, ZERO_DIGIT};

// What stands before, between and after the first two marks of a text.
#[derive(Clone, Copy)]
struct DateParts<'a> {
    first: &'a [u8],
    second: &'a [u8],
    third: &'a [u8],
}

fn place_of(text: &[u8], mark: u8) -> Option<usize>
    ensures value { result ≡ position (λ b. b == mark) text.now }
{
    text.iter().position(|byte| *byte == mark)
}

// What stands before the first mark of a text, and what after it; a text without one stands before it.
fn cut_at(text: &[u8], mark: u8) -> (&[u8], &[u8])
    ensures before { result.0.now ≡ before_mark mark text.now }
    ensures after { result.1.now ≡ after_mark mark text.now }
{
    match place_of(text, mark) {
        Some(place) => (&text[..place], &text[place + 1..]),
        None => (text, &[]),
    }
}

fn parts_of(text: &[u8], mark: u8) -> DateParts<'_>
    ensures first { result.first.now ≡ first_part mark text.now }
    ensures second { result.second.now ≡ second_part mark text.now }
    ensures third { result.third.now ≡ third_part mark text.now }
{
    let (first, rest) = cut_at(text, mark);
    let (second, third) = cut_at(rest, mark);
    DateParts {
        first,
        second,
        third,
    }
}

// The four bytes of a year of two, which is one of 1900 to 1999.
fn short_year(text: &[u8]) -> Option<(u8, u8, u8, u8)>
    ensures value { option_map four_bytes result ≡ year_by DateForm.AmericanShort text.now }
{
    if text.len() == 2 {
        return Some((b'1', b'9', text[0], text[1]));
    }
    None
}

// The four bytes of a year of four.
fn long_year(text: &[u8]) -> Option<(u8, u8, u8, u8)>
    ensures value { option_map four_bytes result ≡ year_by DateForm.Digits text.now }
{
    if text.len() == 4 {
        return Some((text[0], text[1], text[2], text[3]));
    }
    None
}

// The four bytes of a year, of which a form may leave out the first two.
fn year_digits(form: DateForm, text: &[u8]) -> Option<(u8, u8, u8, u8)>
    ensures value { option_map four_bytes result ≡ year_by form text.now }
{
    match form {
        DateForm::AmericanShort => short_year(text),
        DateForm::Digits => long_year(text),
        DateForm::Iso => long_year(text),
        DateForm::American => long_year(text),
        DateForm::German => long_year(text),
    }
}

// The two bytes of a month or of a day, of which a zero in front may be left out.
fn two_digits(text: &[u8]) -> Option<(u8, u8)>
    ensures value { option_map two_bytes result ≡ two_by text.now }
{
    if text.len() == 1 {
        return Some((ZERO_DIGIT, text[0]));
    }
    if text.len() == 2 {
        return Some((text[0], text[1]));
    }
    None
}

// A year, a month and a day one after the other, where all three are there.
fn joined(
    year: Option<(u8, u8, u8, u8)>,
    month: Option<(u8, u8)>,
    day: Option<(u8, u8)>,
) -> Option<[u8; 8]>
    ensures value { result ≡ all_joined (option_map four_bytes year) (option_map two_bytes month) (option_map two_bytes day) }
{
    match (year, month, day) {
        (Some(year), Some(month), Some(day)) => Some([
            year.0, year.1, year.2, year.3, month.0, month.1, day.0, day.1,
        ]),
        _ => None,
    }
}

// Four digits of the year, two of the month and two of the day, of the texts that stand for them.
fn digits_of(form: DateForm, year: &[u8], month: &[u8], day: &[u8]) -> Option<[u8; 8]>
    ensures value { result ≡ digits_of_texts form year.now month.now day.now }
{
    joined(year_digits(form, year), two_digits(month), two_digits(day))
}

// The same of a text of eight bytes.
fn plain_digits(t: &[u8]) -> Option<[u8; 8]>
    ensures value { result ≡ digits_by DateForm.Digits t.now }
{
    if t.len() == 8 {
        return Some([t[0], t[1], t[2], t[3], t[4], t[5], t[6], t[7]]);
    }
    None
}

// The same of a text that has the month, the day and the year between slashes.
fn month_first(form: DateForm, text: &[u8]) -> Option<[u8; 8]>
    ensures value { result ≡ digits_of_texts form (third_part SLASH text.now) (first_part SLASH text.now) (second_part SLASH text.now) }
{
    let parts = parts_of(text, SLASH);
    digits_of(form, parts.third, parts.first, parts.second)
}

/// The eight digits of a date that is written in a form, as a cell has them. `None` where the text does not have the form. Of a month and
/// of a day a zero in front may be left out, where marks stand between them.
pub(crate) fn date_digits(form: DateForm, text: &[u8]) -> Option<[u8; 8]>
    ensures value { result ≡ digits_by form text.now }
{
    match form {
        DateForm::Digits => plain_digits(text),
        DateForm::Iso => {
            let parts = parts_of(text, MINUS);
            digits_of(form, parts.first, parts.second, parts.third)
        }
        DateForm::American => month_first(form, text),
        DateForm::AmericanShort => month_first(form, text),
        DateForm::German => {
            let parts = parts_of(text, POINT);
            digits_of(form, parts.third, parts.second, parts.first)
        }
    }
}
