//! Numbers in cells, as they are read.

ghost use Rattle.std.specs.Prelude.{◌≡◌, ◌+◌, ◌*◌, ◌<◌, ◌≤◌, ◌==◌, ◌^◌, length, position, IfSome};
ghost use Rattle.dbf_fields.specs.Number.{whole_part, fraction_part, magnitude, number};

use crate::decimal::{MAX_DIGITS, are_digits, are_zeros, push_digits};
use crate::format::{MAX_NUMBER_WIDTH, MINUS, PLUS, POINT, ZERO_DIGIT};
use crate::trim::trimmed;

fn point_in(text: &[u8]) -> Option<usize>
    ensures value { result ≡ position (λ b. b == POINT) text.now }
{
    text.iter().position(|byte| *byte == POINT)
}

/// What stands before and after the first point of a text, without the sign of a number; a text without a point
/// stands before it. Takes no memory.
pub fn number_parts(text: &[u8]) -> (&[u8], &[u8])
    ensures whole { result.0.now ≡ whole_part text.now }
    ensures fraction { result.1.now ≡ fraction_part text.now }
    ensures short { length result.0.now + length result.1.now ≤ length text.now }
{
    match point_in(text) {
        Some(point) => (&text[..point], &text[point + 1..]),
        None => (text, &[]),
    }
}

// The number without its sign, times ten for each decimal.
#[tactic(auto, unfolding(crate::specs::Number::is_decimal, crate::specs::Number::scaled))]
fn magnitude_of(text: &[u8], decimals: u8) -> Option<u128>
    requires count_bounded { length text.now ≤ MAX_NUMBER_WIDTH }
    requires decimals { decimals < MAX_NUMBER_WIDTH }
    ensures value { result ≡ magnitude text.now decimals }
    ensures bounded { IfSome result (λ n. n < 10 ^ MAX_DIGITS) }
{
    let decimals = usize::from(decimals);
    let (whole, fraction) = number_parts(text);
    if !are_digits(whole) {
        return None;
    }
    if !are_digits(fraction) {
        return None;
    }
    if whole.len() + fraction.len() == 0 {
        return None;
    }
    let kept = decimals.min(fraction.len());
    if !are_zeros(&fraction[kept..]) {
        return None;
    }
    let number = push_digits(0, whole);
    let number = push_digits(number, &fraction[..kept]);
    let zeros = &[ZERO_DIGIT; MAX_NUMBER_WIDTH as usize][..decimals - kept];
    Some(push_digits(number, zeros))
}

/// The number in a cell of a field with these decimals, as a whole number: times ten for each decimal.
///
/// Blanks at both ends count for nothing, and a cell with nothing between them is zero. Else there stand
/// an optional `+` or `-` and digits, at least one, with at most one point among or beside them; the digits
/// after the point past the decimals are zeros. `None` for every other cell. Takes no memory.
#[tactic(auto, unfolding(crate::specs::Number::number))]
pub fn read_number(cell: &[u8], decimals: u8) -> Option<i128>
    requires count_bounded { length cell.now ≤ MAX_NUMBER_WIDTH }
    requires decimals { decimals < MAX_NUMBER_WIDTH }
    ensures value { result ≡ number cell.now decimals }
{
    match trimmed(cell) {
        [] => Some(0),
        [MINUS, digits @ ..] => {
            let n = magnitude_of(digits, decimals)?;
            Some(-(n as i128))
        }
        [PLUS, digits @ ..] => {
            let n = magnitude_of(digits, decimals)?;
            Some(n as i128)
        }
        digits => {
            let n = magnitude_of(digits, decimals)?;
            Some(n as i128)
        }
    }
}
