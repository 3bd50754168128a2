//! Lists of numbers in the parentheses of a call.

ghost use Rattle.std.specs.Prelude.{◌≡◌, map, option_map, is_some, IfOk, IsSome, OnErr};
ghost use Rattle.std.specs.List.{list_all};
ghost use Rattle.station_lines.specs.Script.Parts.{count_in as count_of, between_commas};
ghost use Rattle.station_lines.specs.Script.Reading.{number_or_zero, counts_in as counts_of, arguments_in as arguments_of};

use crate::script::format::COMMA;
use crate::script::keyword::split;
use crate::script::literal::before_close;
use crate::script::value::count_in;
use catalogue_core::Numbers;
use std::alloc::{AllocError, Global};

/// What stands in the parentheses of a function's call. The function's name comes with its opening parenthesis.
/// Takes no memory.
pub(crate) fn arguments_in<'a>(function: &[u8], word: &'a [u8]) -> Option<&'a [u8]>
    ensures value { option_map (λ part. part.now) result ≡ arguments_of function.now word.now }
{
    let (name, rest) = split(word, function.len());
    if !name.eq_ignore_ascii_case(function) {
        return None;
    }
    before_close(rest)
}

// Whether a part is a number of 1 to 10 digits.
fn is_number(part: &[u8]) -> bool
    ensures value { result ≡ is_some (count_of part.now) }
{
    count_in(part).is_some()
}

// The number that a part is, and 0 where it is none.
fn number_or_zero(part: &[u8]) -> u64
    ensures value { result ≡ number_or_zero (count_of part.now) }
{
    count_in(part).unwrap_or(0)
}

// Whether each part between commas is a number of 1 to 10 digits.
fn are_numbers(list: &[u8]) -> bool
    ensures value { result ≡ list_all (λ part. is_some (count_of part)) (between_commas list.now) }
{
    list.split(|byte| *byte == COMMA)
        .all(|part| is_number(part))
}

// The numbers of all parts between commas.
fn numbers_of(alloc: Global, list: &[u8]) -> Result<Vec<u64>, AllocError>
    ensures value { IfOk result (λ numbers. numbers.items ≡ map (λ part. number_or_zero (count_of part)) (between_commas list.now)) }
{
    list.split(|byte| *byte == COMMA)
        .map(|part| number_or_zero(part))
        .collect(alloc)
}

/// The numbers that stand between commas, each of 1 to 10 digits. An error where memory is refused, which only such a
/// list takes.
#[tactic(auto, using(crate::proofs::ScriptLaws::ListLaws::numbers_are, crate::proofs::ScriptLaws::ListLaws::numbers_none, crate::proofs::ScriptLaws::ListLaws::numbers_some))]
pub(crate) fn counts_in(alloc: Global, list: &[u8]) -> Result<Option<Numbers>, AllocError>
    ensures value { IfOk result (λ numbers. numbers ≡ counts_of (between_commas list.now)) }
    ensures early { OnErr result (IsSome (counts_of (between_commas list.now))) }
{
    if !are_numbers(list) {
        return Ok(None);
    }
    let numbers = numbers_of(alloc, list)?;
    Ok(Some(Numbers::from_vec(numbers)))
}
