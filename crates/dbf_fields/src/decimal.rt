//! Decimal digits as bytes.

ghost use Rattle.std.specs.Prelude.{◌≡◌, ◌+◌, ◌*◌, ◌<◌, ◌≤◌, ◌==◌, ◌^◌, length, true};
ghost use Rattle.std.specs.List.{list_all};
ghost use Rattle.std.specs.Char.{is_ascii_digit};
ghost use Rattle.dbf_fields.specs.Digits.{digits_after};

use crate::format::{MAX_NUMBER_WIDTH, ZERO_DIGIT};

/// The most digits that are read as one number: those of the widest cell, and a zero for each decimal that it lacks.
pub(crate) const MAX_DIGITS: usize = 2 * MAX_NUMBER_WIDTH as usize - 1;

/// Whether all bytes are decimal digits. So no bytes are. Takes no memory.
pub fn are_digits(text: &[u8]) -> bool
    ensures value { result ≡ list_all is_ascii_digit text.now }
{
    text.iter().all(|byte| byte.is_ascii_digit())
}

pub(crate) fn are_zeros(text: &[u8]) -> bool
    ensures value { result ≡ list_all (λ b. b == ZERO_DIGIT) text.now }
{
    text.iter().all(|byte| *byte == ZERO_DIGIT)
}

// The number with these digits after it.
pub(crate) fn push_digits(number: u128, digits: &[u8]) -> u128
    requires digits { list_all is_ascii_digit digits.now ≡ true }
    requires room { (number + 1) * 10 ^ length digits.now ≤ 10 ^ MAX_DIGITS }
    ensures value { result ≡ digits_after number digits.now }
    ensures bounded { result < (number + 1) * 10 ^ length digits.now }
{
    let mut value = number;
    for digit in digits {
        value = value * 10 + u128::from(*digit - ZERO_DIGIT);
    }
    value
}

/// The number that decimal digits stand for, and 0 where there are none. Takes no memory.
#[tactic(auto, using(crate::proofs::Digits::below_64_bits, crate::proofs::Digits::room_for))]
pub fn number_of_digits(digits: &[u8]) -> u64
    requires digits { list_all is_ascii_digit digits.now ≡ true }
    requires count_bounded { length digits.now ≤ MAX_NUMBER_WIDTH }
    ensures value { result ≡ digits_after 0 digits.now }
    ensures bounded { result < 10 ^ length digits.now }
{
    push_digits(0, digits) as u64
}
