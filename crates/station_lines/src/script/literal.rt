//! The values that commands give.

ghost use Rattle.std.specs.Prelude.{◌≡◌, ◌+◌, ◌++◌, ◌≤◌, true, length, take, option_map, IfOk, IsSome, OnErr};
ghost use Rattle.std.specs.List.{list_all};
ghost use Rattle.std.specs.Char.{is_ascii_digit};
ghost use Rattle.dbf_fields.specs.Digits.{digits_after};
ghost use Rattle.station_lines.specs.declared.script.format.TheConstants.{MAX_LITERAL_DIGITS};
ghost use Rattle.station_lines.specs.Script.Literals.{is_number_word as decimal_is, decimal_in as decimal_of, has_slashes as slashes_in, year_first as cell_in, is_negative as negative, without_sign as unsigned, number_in as number_of, truth_in as truth_of};
ghost use Rattle.station_lines.specs.Script.Reading.{date_of as cell_date, date_literal as date_of, before_close as part_before_close, date_text_in as date_text_of, literal_in as literal_of};

use crate::script::format::MAX_LITERAL_DIGITS;
use crate::script::value::text_in;
use byte_io::Bytes;
use dbf_fields::{
    DateCell, Literal, MINUS, PLUS, SLASH, WholeNumber, ZERO_DIGIT, are_digits, number_of_digits,
    number_parts, read_date,
};
use std::alloc::{AllocError, Global};

// Whether both parts are digits, 1 to 19 together.
#[tactic(auto, unfolding(crate::specs::Script::Literals::is_number_word))]
fn is_decimal(text: &[u8]) -> bool
    ensures value { result ≡ decimal_is text.now }
{
    let (whole, fraction) = number_parts(text);
    if !are_digits(whole) {
        return false;
    }
    if !are_digits(fraction) {
        return false;
    }
    if whole.len() > MAX_LITERAL_DIGITS || fraction.len() > MAX_LITERAL_DIGITS {
        return false;
    }
    let digits = whole.len() + fraction.len();
    1 <= digits && digits <= MAX_LITERAL_DIGITS
}

// Puts a part at an offset.
fn put(digits: &mut [u8; MAX_LITERAL_DIGITS], offset: usize, part: &[u8])
    requires room { offset + length part.now ≤ MAX_LITERAL_DIGITS }
    ensures value { take (offset + length part.now) digits.new ≡ take offset digits.old ++ part.now }
{
    digits[offset..offset + part.len()].copy_from_slice(part);
}

// The number that the digits of two parts are together.
fn number_of_parts(whole: &[u8], fraction: &[u8]) -> u64
    requires digits { list_all is_ascii_digit (whole.now ++ fraction.now) ≡ true }
    requires count_bounded { length whole.now + length fraction.now ≤ 19 }
    ensures value { result ≡ digits_after 0 (whole.now ++ fraction.now) }
{
    let mut digits = [ZERO_DIGIT; MAX_LITERAL_DIGITS];
    put(&mut digits, 0, whole);
    put(&mut digits, whole.len(), fraction);
    number_of_digits(&digits[..whole.len() + fraction.len()])
}

// The whole number of all digits, and how many of them stand after the point.
#[tactic(auto, unfolding(crate::specs::Script::Literals::is_number_word))]
fn decimal_in(text: &[u8]) -> Option<(u64, u8)>
    ensures value { result ≡ decimal_of text.now }
{
    if !is_decimal(text) {
        return None;
    }
    let (whole, fraction) = number_parts(text);
    Some((number_of_parts(whole, fraction), fraction.len() as u8))
}

fn is_negative(word: &[u8]) -> bool
    ensures value { result ≡ negative word.now }
{
    match word {
        [MINUS, ..] => true,
        _ => false,
    }
}

fn without_sign(word: &[u8]) -> &[u8]
    ensures value { result.now ≡ unsigned word.now }
{
    match word {
        [MINUS, digits @ ..] => digits,
        [PLUS, digits @ ..] => digits,
        _ => word,
    }
}

// The number that a word is: all its digits, and how many of them stand after the point.
fn number_in(word: &[u8]) -> Option<(i128, u8)>
    ensures value { result ≡ number_of word.now }
{
    let (number, scale) = decimal_in(without_sign(word))?;
    if is_negative(word) {
        Some((-i128::from(number), scale))
    } else {
        Some((i128::from(number), scale))
    }
}

// The logical value that a word is.
fn truth_in(word: &[u8]) -> Option<bool>
    ensures value { result ≡ truth_of word.now }
{
    if word.eq_ignore_ascii_case(b".T.") {
        Some(true)
    } else if word.eq_ignore_ascii_case(b".Y.") {
        Some(true)
    } else if word.eq_ignore_ascii_case(b".F.") {
        Some(false)
    } else if word.eq_ignore_ascii_case(b".N.") {
        Some(false)
    } else {
        None
    }
}

/// What stands before a closing parenthesis at the end. Takes no memory.
pub(crate) fn before_close(text: &[u8]) -> Option<&[u8]>
    ensures value { option_map (λ part. part.now) result ≡ part_before_close text.now }
{
    match text {
        [part @ .., b')'] => Some(part),
        _ => None,
    }
}

// The text of a CTOD.
fn date_text_in(word: &[u8]) -> Option<&[u8]>
    ensures value { option_map (λ text. text.now) result ≡ date_text_of word.now }
{
    let (name, argument) = word.split_at(word.len().min(5));
    if !name.eq_ignore_ascii_case(b"CTOD(") {
        return None;
    }
    let part = before_close(argument)?;
    text_in(part)
}

// The date of a cell.
fn date_of_cell(cell: &[u8]) -> Literal
    ensures value { result ≡ cell_date cell.now }
{
    match read_date(cell) {
        DateCell::Is(day) => Literal::Date(day),
        DateCell::Blank => Literal::BadDate,
        DateCell::Odd => Literal::BadDate,
    }
}

// Whether a text has the slashes of MM/DD/YY.
fn has_slashes(text: &[u8]) -> bool
    ensures value { result ≡ slashes_in text.now }
{
    text.len() == 8 && text[2] == SLASH && text[5] == SLASH
}

// The text MM/DD/YY as 19YYMMDD.
fn year_first(text: &[u8]) -> [u8; 8]
    requires long { length text.now ≡ 8 }
    ensures value { result ≡ cell_in text.now }
{
    [
        b'1', b'9', text[6], text[7], text[0], text[1], text[3], text[4],
    ]
}

// The date that the text of a CTOD is.
#[tactic(auto, using(crate::proofs::ScriptLaws::Dates::no_cell))]
fn date_literal(text: &[u8]) -> Literal
    ensures value { result ≡ date_of text.now }
{
    if text == b"  /  /  ".as_slice() {
        return Literal::BlankDate;
    }
    if !has_slashes(text) {
        return Literal::BadDate;
    }
    date_of_cell(&year_first(text))
}

/// The value that a word is: a text, a number, a logical value or a date. An error where memory is refused, which
/// only a text takes.
pub(crate) fn literal_in(alloc: Global, word: &[u8]) -> Result<Option<Literal>, AllocError>
    ensures value { IfOk result (λ literal. literal ≡ literal_of word.now) }
    ensures early { OnErr result (IsSome (literal_of word.now)) }
{
    if let Some(text) = text_in(word) {
        return Ok(Some(Literal::Text(Bytes::from_slice(alloc, text)?)));
    }
    if let Some((digits, scale)) = number_in(word) {
        return Ok(Some(Literal::Number {
            digits: WholeNumber::new(digits),
            scale,
        }));
    }
    if let Some(truth) = truth_in(word) {
        return Ok(Some(Literal::Truth(truth)));
    }
    match date_text_in(word) {
        Some(text) => Ok(Some(date_literal(text))),
        None => Ok(None),
    }
}
