//! The log of a day that was closed: it tells how many commands the day had.

ghost use Rattle.std.specs.Prelude.{◌≡◌, ◌≢◌, ◌∷◌, ℕ, List, IfOk, IfSome, IfNone};
ghost use Rattle.open_day.specs.OpenDay.{closed_log as log_of_closed, IsEarlier, TellsNoCount};

use byte_io::Bytes;
use live_log::SHUT_GATE;
use station_lines::plain_number;
use std::alloc::{AllocError, Global};

// What stands after the count in a closed log.
const AFTER_COUNT: &[u8] = b" commands\n";

/// The log of a day that was closed with so many commands: `-104 commands` and LF. An error where memory is refused.
pub fn closed_log(alloc: Global, count: u64) -> Result<Bytes, AllocError>
    ensures value { IfOk result (λ log. log ≡ log_of_closed count) }
{
    let text = format!(in alloc; "-{count} commands\n")?;
    Bytes::from_slice(alloc, text.as_bytes())
}

// What stands in a log after a shut gate that is first.
fn after_shut_gate(log: &[u8]) -> Option<&[u8]>
    ensures found { IfSome result (λ rest. log.now ≡ SHUT_GATE ∷ rest.now) }
    ensures none { IfNone result ((rest : List ℕ) → log.now ≢ SHUT_GATE ∷ rest) }
{
    match log {
        [gate, rest @ ..] if *gate == SHUT_GATE => Some(rest),
        _ => None,
    }
}

// How many commands a closed log tells of. `None` where it is none.
#[tactic(auto, using(crate::proofs::ClosedLaws::no_gate, crate::proofs::ClosedLaws::no_end, crate::proofs::ClosedLaws::no_number, crate::proofs::ClosedLaws::is_closed))]
fn closed_count(log: &[u8]) -> Option<u64>
    ensures found { IfSome result (λ count. log.now ≡ log_of_closed count) }
    ensures none { IfNone result (TellsNoCount log.now) }
{
    let Some(rest) = after_shut_gate(log) else {
        return None;
    };
    let Some(digits) = rest.strip_suffix(AFTER_COUNT) else {
        return None;
    };
    match plain_number(digits) {
        Some(count) => Some(count),
        None => None,
    }
}

/// How many commands the day had that was closed with this log; 0 where the log tells no count.
pub fn earlier_count(log: &[u8]) -> u64
    ensures value { IsEarlier log.now result }
{
    match closed_count(log) {
        Some(count) => count,
        None => 0,
    }
}
