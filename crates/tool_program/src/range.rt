//! The numbers of records that a command line asks for.

ghost use Rattle.std.specs.Prelude.{◌≡◌, ◌==◌};
ghost use Rattle.std.specs.List.{position};
ghost use Rattle.dbf_fields.specs.declared.format.TheConstants.{MINUS as MINUS_BYTE};
ghost use Rattle.tool_program.specs.Range.{both as both_of, range_in, record_number as number_in};

use dbf_fields::{MINUS, are_digits, number_of_digits};

/// The most digits that the number of a record has.
pub const MAX_DIGITS: usize = 10;

/// The greatest number that a range may name.
pub const MAX_RECORD_NUMBER: u64 = 4_294_967_295;

/// The number that a text is: one to ten digits of a number that 32 bits keep. Takes no memory.
#[tactic(auto, unfolding(crate::specs::Range::record_number))]
pub(crate) fn record_number(text: &[u8]) -> Option<u32>
    ensures value { result ≡ number_in text.now }
{
    if text.is_empty() || text.len() > MAX_DIGITS || !are_digits(text) {
        return None;
    }
    let number = number_of_digits(text);
    if number > MAX_RECORD_NUMBER {
        return None;
    }
    Some(number as u32)
}

fn both(first: Option<u32>, last: Option<u32>) -> Option<(u32, u32)>
    ensures value { result ≡ both_of first last }
{
    match (first, last) {
        (Some(first), Some(last)) => Some((first, last)),
        _ => None,
    }
}

fn minus_at(text: &[u8]) -> Option<usize>
    ensures value { result ≡ position (λ b. b == MINUS_BYTE) text.now }
{
    text.iter().position(|byte| *byte == MINUS)
}

/// The first and the last number of a range: `N` for one record, `N-M` for those from N to M. `None` for every other
/// text. Takes no memory.
pub fn range_of(text: &[u8]) -> Option<(u32, u32)>
    ensures value { result ≡ range_in text.now }
{
    match minus_at(text) {
        Some(end) => both(record_number(&text[..end]), record_number(&text[end + 1..])),
        None => both(record_number(text), record_number(text)),
    }
}
