//! Numbers in cells, as they are written.

ghost use Rattle.std.specs.Prelude.{◌≡◌, ◌+◌, ◌-◌, ◌/◌, ◌<◌, ◌≤◌, ◌^◌, ◌++◌, [], length, take, drop, replicate, IfOk, IfErr, Some, None};
ghost use Rattle.dbf_fields.specs.Cell.{IsNumberRefusal};
ghost use Rattle.dbf_fields.specs.Digits.{last_digits, numeral};
ghost use Rattle.dbf_fields.specs.declared.format.TheConstants.{ZERO_DIGIT};
ghost use Rattle.dbf_fields.specs.NumberText.{sign as sign_of, point as point_before, number_text as text_of, is_exact as exact, right_justified as justified, number_cell as cell_of};

use crate::cell::CellFault;
use crate::decimal::are_zeros;
use crate::format::{BLANK, ZERO_DIGIT};
use byte_io::Bytes;
use std::alloc::{AllocError, Global};
use std::marker::Model;

/// The most digits before a number's point: those of the greatest number of 128 bits.
const MAX_WHOLE_DIGITS: usize = 39;

/// The most digits after a number's point: one byte counts them.
const MAX_DECIMALS: usize = u8::MAX as usize;

/// The most bytes of a number's text: a sign, the digits before the point, a point and the decimals.
pub const MAX_NUMBER_TEXT: usize = 1 + MAX_WHOLE_DIGITS + 1 + MAX_DECIMALS;

/// The text of a number, which contracts see as the list of its bytes. It takes no memory.
#[derive(Drop)]
pub struct NumberText {
    bytes: [u8; MAX_NUMBER_TEXT],
    len: usize,
}

impl Model for NumberText {
    ghost use Rattle.std.specs.Prelude.{ℕ, ◌≤◌, List, take};

    ghost Value = { List ℕ };

    ghost view = { λ t. take t.len t.bytes };

    ghost use Rattle.dbf_fields.specs.declared.number_text.TheConstants.{MAX_NUMBER_TEXT};

    ghost invariant = { λ t. t.len ≤ MAX_NUMBER_TEXT };
}

impl NumberText {
    /// The text of the number whose digits are given, of which `scale` stand after its point, with this number of
    /// decimals: `-` before a number below zero, at least one digit before the point, a point where there are
    /// decimals, and the digits after it. Digits past the decimals are left out, and nothing is rounded. Takes
    /// no memory.
    pub fn new(digits: i128, scale: u8, decimals: u8) -> NumberText
        ensures value { result ≡ text_of digits scale decimals }
    {
        let (last, whole) = split_off(digits.unsigned_abs(), scale);
        let (kept, _) = last.split_at(usize::from(decimals));
        let (padded, start) = numeral_of(whole);
        let (_, before_point) = padded.split_at(start);
        let mut text = NumberText::empty();
        text.push(sign(digits));
        text.push(before_point);
        text.push(point(decimals));
        text.push(kept);
        text
    }

    fn empty() -> NumberText
        ensures value { result ≡ [] }
    {
        NumberText {
            bytes: [BLANK; MAX_NUMBER_TEXT],
            len: 0,
        }
    }

    fn push(&mut self, part: &[u8])
        requires room { length self.old + length part.now ≤ MAX_NUMBER_TEXT }
        ensures value { self.new ≡ self.old ++ part.now }
    {
        let end = self.len + part.len();
        self.bytes[self.len..end].copy_from_slice(part);
        self.len = end;
    }

    /// The bytes of the text.
    pub fn as_bytes(&self) -> &[u8]
        ensures bytes { result.now ≡ self.now }
        ensures short { length self.now ≤ MAX_NUMBER_TEXT }
    {
        &self.bytes[..self.len]
    }
}

// The last digits of a number, as many as are asked for and with zeros after them, and the number before them.
fn split_off(number: u128, digits: u8) -> ([u8; MAX_DECIMALS], u128)
    ensures digits { result.0 ≡ last_digits digits number ++ replicate (MAX_DECIMALS - digits) ZERO_DIGIT }
    ensures rest { result.1 ≡ number / 10 ^ digits }
{
    let mut last = [ZERO_DIGIT; MAX_DECIMALS];
    let mut rest = number;
    let mut index = usize::from(digits);
    while index > 0 {
        index -= 1;
        last[index] = ZERO_DIGIT + (rest % 10) as u8;
        rest /= 10;
    }
    (last, rest)
}

// The digits of a number after as many zeros as fill the array, and where its first digit stands.
fn numeral_of(number: u128) -> ([u8; MAX_WHOLE_DIGITS], usize)
    ensures start { result.1 < MAX_WHOLE_DIGITS }
    ensures digits { drop result.1 result.0 ≡ numeral number }
{
    let mut digits = [ZERO_DIGIT; MAX_WHOLE_DIGITS];
    let mut start = MAX_WHOLE_DIGITS - 1;
    digits[start] = ZERO_DIGIT + (number % 10) as u8;
    let mut rest = number / 10;
    while rest > 0 {
        start -= 1;
        digits[start] = ZERO_DIGIT + (rest % 10) as u8;
        rest /= 10;
    }
    (digits, start)
}

fn sign(number: i128) -> &'static [u8]
    ensures value { result.now ≡ sign_of number }
    ensures short { length result.now ≤ 1 }
{
    if number < 0 { b"-" } else { b"" }
}

fn point(decimals: u8) -> &'static [u8]
    ensures value { result.now ≡ point_before decimals }
    ensures short { length result.now ≤ 1 }
{
    if decimals == 0 { b"" } else { b"." }
}

// A text after as many blanks as fill the width.
fn right_justified(alloc: Global, width: usize, text: &[u8]) -> Result<Bytes, AllocError>
    requires fits { length text.now ≤ width }
    ensures value { IfOk result (λ cell. cell ≡ justified width text.now) }
{
    let mut cell = Vec::with_capacity(alloc, width)?;
    cell.resize(width - text.len(), BLANK)?;
    cell.extend_from_slice(text)?;
    Ok(Bytes::from_vec(cell))
}

// Whether a number keeps all its digits in that number of decimals.
fn is_exact(digits: i128, scale: u8, decimals: u8) -> bool
    ensures value { result ≡ exact digits scale decimals }
{
    let (last, _) = split_off(digits.unsigned_abs(), scale);
    let (_, cut) = last.split_at(usize::from(decimals));
    are_zeros(cut)
}

// The cell of a number, of whose digits `scale` stand after its point.
#[tactic(auto, unfolding(crate::specs::NumberText::number_cell))]
pub(crate) fn number_cell(
    alloc: Global,
    width: u8,
    decimals: u8,
    digits: i128,
    scale: u8,
) -> Result<Bytes, CellFault>
    ensures value { IfOk result (λ cell. cell_of width decimals digits scale ≡ Some cell) }
    ensures refused { IfErr result (λ fault. IsNumberRefusal fault width decimals digits scale) }
    ensures early { IfErr result (λ fault. cell_of width decimals digits scale ≡ None → fault ≡ CellFault.NumberTooWide) }
{
    let width = usize::from(width);
    let text = NumberText::new(digits, scale, decimals);
    if !is_exact(digits, scale, decimals) || text.as_bytes().len() > width {
        return Err(CellFault::NumberTooWide);
    }
    let cell = right_justified(alloc, width, text.as_bytes())?;
    Ok(cell)
}
