//! The words of a command's texts, values and numbers. Where memory is refused a front part of a word may have been appended.

ghost use Rattle.std.specs.Prelude.{◌≡◌, ◌<◌, ◌++◌, ◌∷◌, [], ◌==◌, not, OnOk};
ghost use Rattle.std.specs.List.{list_all};
ghost use Rattle.std.specs.Fmt.{decimal};
ghost use Rattle.std.specs.Int.RustNames.{unsigned_abs};
ghost use Rattle.dbf_fields.specs.declared.format.TheConstants.{POINT};
ghost use Rattle.dbf_fields.specs.Digits.{last_digits};
ghost use Rattle.dbf_fields.specs.NumberText.{sign};
ghost use Rattle.station_lines.specs.CommandLines.{quoted, written_number, written_day, date_call, written_value, after_commas, with_commas};

use crate::script::format::{APOSTROPHE, COMMA, MAX_LITERAL_DIGITS, QUOTE};
use dbf_fields::{Day, Literal, NumberText, SLASH, ZERO_DIGIT};
use itoa::Buffer;
use std::alloc::AllocError;

/// Appends two texts, one after the other.
pub(crate) fn append_both(line: &mut Vec<u8>, first: &[u8], second: &[u8]) -> Result<(), AllocError>
    ensures ok { OnOk result (line.new.items ≡ line.old.items ++ (first.now ++ second.now)) }
{
    line.extend_from_slice(first)?;
    line.extend_from_slice(second)
}

// Appends the digits of a number that has two of them at most.
#[tactic(auto, using(crate::proofs::BoundLaws::one_put, crate::proofs::BoundLaws::two_put))]
fn append_short_number(line: &mut Vec<u8>, number: u64) -> Result<(), AllocError>
    requires short { number < 100 }
    ensures ok { OnOk result (line.new.items ≡ line.old.items ++ decimal number) }
{
    if number < 10 {
        line.push(ZERO_DIGIT + number as u8)?;
        return Ok(());
    }
    line.push(ZERO_DIGIT + (number / 10) as u8)?;
    line.push(ZERO_DIGIT + (number % 10) as u8)?;
    Ok(())
}

/// Appends the decimal digits of a number.
pub(crate) fn append_number(line: &mut Vec<u8>, number: u64) -> Result<(), AllocError>
    ensures ok { OnOk result (line.new.items ≡ line.old.items ++ decimal number) }
{
    // Nearly all numbers in a journal and in a status row are short.
    if number < 100 {
        return append_short_number(line, number);
    }
    let mut buffer = Buffer::new();
    line.extend_from_slice(buffer.format(number).as_bytes())
}

// Whether a text holds no `"`.
fn has_no_quote(text: &[u8]) -> bool
    ensures value { result ≡ list_all (λ b. not (b == QUOTE)) text.now }
{
    text.iter().all(|byte| *byte != QUOTE)
}

/// Appends a text between two `"`, or between two `'` where it holds a `"`.
pub(crate) fn append_quoted(line: &mut Vec<u8>, text: &[u8]) -> Result<(), AllocError>
    ensures ok { OnOk result (line.new.items ≡ line.old.items ++ quoted text.now) }
{
    let quote = if has_no_quote(text) {
        QUOTE
    } else {
        APOSTROPHE
    };
    line.push(quote)?;
    line.extend_from_slice(text)?;
    line.push(quote)?;
    Ok(())
}

// The sign of a number, and the point.
fn sign_and_point(digits: i128) -> &'static [u8]
    ensures value { result.now ≡ sign digits ++ (POINT ∷ []) }
{
    if digits < 0 { b"-." } else { b"." }
}

// Appends a number of whose digits none stands before the point.
#[tactic(auto, using(crate::proofs::CommandLaws::NumberLaws::text_end))]
fn append_decimals_alone(line: &mut Vec<u8>, digits: i128, scale: u8) -> Result<(), AllocError>
    ensures ok { OnOk result (line.new.items ≡ line.old.items ++ (sign digits ++ (POINT ∷ last_digits scale (unsigned_abs digits)))) }
{
    let text = NumberText::new(digits, scale, scale);
    let bytes = text.as_bytes();
    let (_, decimals) = bytes.split_at(bytes.len() - usize::from(scale));
    append_both(line, sign_and_point(digits), decimals)
}

// Appends a number with all its decimals. A line has room for a digit before the point of one with fewer decimals than the most
// digits of a number.
fn append_decimal_number(line: &mut Vec<u8>, digits: i128, scale: u8) -> Result<(), AllocError>
    ensures ok { OnOk result (line.new.items ≡ line.old.items ++ written_number digits scale) }
{
    if usize::from(scale) < MAX_LITERAL_DIGITS {
        let text = NumberText::new(digits, scale, scale);
        line.extend_from_slice(text.as_bytes())
    } else {
        append_decimals_alone(line, digits, scale)
    }
}

// The last two digits of a number.
fn two_digits(number: u16) -> [u8; 2]
    ensures value { result ≡ last_digits 2 number }
{
    [
        ZERO_DIGIT + (number / 10 % 10) as u8,
        ZERO_DIGIT + (number % 10) as u8,
    ]
}

// A day as MM/DD/YY.
fn day_text(day: &Day) -> [u8; 8]
    ensures value { result ≡ written_day day.now }
{
    let month = two_digits(u16::from(day.month));
    let date = two_digits(u16::from(day.day));
    let year = two_digits(day.year);
    [
        month[0], month[1], SLASH, date[0], date[1], SLASH, year[0], year[1],
    ]
}

// Appends CTOD with a text in its parentheses.
fn append_date_call(line: &mut Vec<u8>, text: &[u8]) -> Result<(), AllocError>
    ensures ok { OnOk result (line.new.items ≡ line.old.items ++ date_call text.now) }
{
    line.extend_from_slice(b"CTOD(\"")?;
    line.extend_from_slice(text)?;
    line.extend_from_slice(b"\")")
}

/// Appends the word of a value.
pub(crate) fn append_value(line: &mut Vec<u8>, value: &Literal) -> Result<(), AllocError>
    ensures ok { OnOk result (line.new.items ≡ line.old.items ++ written_value value.now) }
{
    match value {
        Literal::Text(text) => append_quoted(line, text.as_slice()),
        Literal::Number { digits, scale } => append_decimal_number(line, digits.get(), *scale),
        Literal::Truth(true) => line.extend_from_slice(b".T."),
        Literal::Truth(false) => line.extend_from_slice(b".F."),
        Literal::Date(day) => append_date_call(line, &day_text(day)),
        Literal::BlankDate => append_date_call(line, b"  /  /  "),
        Literal::BadDate => append_date_call(line, b"99/99/99"),
    }
}

// Appends numbers, each after a comma.
fn append_after_commas(line: &mut Vec<u8>, numbers: &[u64]) -> Result<(), AllocError>
    ensures ok { OnOk result (line.new.items ≡ line.old.items ++ after_commas numbers.now) }
{
    for number in numbers {
        line.push(COMMA)?;
        append_number(line, *number)?;
    }
    Ok(())
}

/// Appends numbers, apart by commas.
pub(crate) fn append_with_commas(line: &mut Vec<u8>, numbers: &[u64]) -> Result<(), AllocError>
    ensures ok { OnOk result (line.new.items ≡ line.old.items ++ with_commas numbers.now) }
{
    match numbers {
        [] => Ok(()),
        [first, others @ ..] => {
            append_number(line, *first)?;
            append_after_commas(line, others)
        }
    }
}
