//! Moves by the order of the record numbers, which is 1 to the count of records.

ghost use Rattle.std.specs.Prelude.{◌≡◌, ◌+◌, ◌-◌, ◌≤◌, length, slice_get};
ghost use Rattle.ndx_index.specs.Places.{counted, place_in, back_from};

/// The first number, where there is one.
pub(crate) fn first_number(count: u32) -> Option<u32>
    ensures value { result ≡ slice_get (counted 1 count) 0 }
{
    if count > 0 { Some(1) } else { None }
}

/// The last number, where there is one.
pub(crate) fn last_number(count: u32) -> Option<u32>
    ensures value { result ≡ slice_get (counted 1 count) (length (counted 1 count) - 1) }
{
    if count > 0 { Some(count) } else { None }
}

/// The number `steps` places after one.
pub(crate) fn number_after(count: u32, number: u32, steps: u64) -> Option<u32>
    requires one { 1 ≤ number }
    requires inside { number ≤ count }
    ensures value { result ≡ slice_get (counted 1 count) (place_in number (counted 1 count) + steps) }
{
    let to = u64::from(number).saturating_add(steps);
    if to <= u64::from(count) {
        Some(to as u32)
    } else {
        None
    }
}

/// The number `steps` places before one.
pub(crate) fn number_before(count: u32, number: u32, steps: u64) -> Option<u32>
    requires one { 1 ≤ number }
    requires inside { number ≤ count }
    ensures value { result ≡ back_from (counted 1 count) (place_in number (counted 1 count)) steps }
{
    if steps < u64::from(number) {
        Some(number - steps as u32)
    } else {
        None
    }
}

/// The number `steps` places before the end.
pub(crate) fn number_from_end(count: u32, steps: u64) -> Option<u32>
    requires some { 1 ≤ steps }
    ensures value { result ≡ back_from (counted 1 count) (length (counted 1 count)) steps }
{
    if steps <= u64::from(count) {
        Some(count - (steps - 1) as u32)
    } else {
        None
    }
}
