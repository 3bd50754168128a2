//! Cuts a line of a setup into words.

ghost use Rattle.std.specs.Prelude.{◌≡◌, ◌≤◌, ◌<◌, [], ◌∷◌, List, ℕ, length, position, IfSome, IfNone};
ghost use Rattle.std.specs.List.{position_or_len};
ghost use Rattle.station_lines.specs.Script.Words.{is_gap as gap};
ghost use Rattle.station_lines.specs.Setup.{AreWords, HasFirstWord};
ghost use Rattle.station_lines.specs.BadSetupLines.{plain_word, after_plain_word};

use crate::script::{is_gap, without_gaps};

// Where the first blank or tab stands.
fn gap_at(text: &[u8]) -> Option<usize>
    ensures value { result ≡ position (λ b. gap b) text.now }
{
    text.iter().position(|byte| is_gap(*byte))
}

// How many bytes stand before the first blank or tab, or all.
#[tactic(auto, using(crate::proofs::SetupLaws::WordCutting::position_none))]
fn word_length(text: &[u8]) -> usize
    ensures value { result ≡ position_or_len (λ b. gap b) text.now }
    ensures short { result ≤ length text.now }
{
    match gap_at(text) {
        Some(end) => end,
        None => text.len(),
    }
}

/// The first word of a line, which is empty where there is none, and what stands after it. Takes no memory.
pub fn cut_plain_word(line: &[u8]) -> (&[u8], &[u8])
    ensures word { result.0.now ≡ plain_word line.now }
    ensures after { result.1.now ≡ after_plain_word line.now }
{
    let text = without_gaps(line);
    text.split_at(word_length(text))
}

/// The first word of a line, and what stands after it. `None` where a line has no words. Takes no memory.
pub(crate) fn cut_first(line: &[u8]) -> Option<(&[u8], &[u8])>
    ensures words { IfSome result (λ cut. (others : List (List ℕ)) → AreWords others cut.1.now → AreWords (cut.0.now ∷ others) line.now) }
    ensures only { IfSome result (λ cut. HasFirstWord line.now cut.0.now cut.1.now) }
    ensures shorter { IfSome result (λ cut. length cut.1.now < length line.now) }
    ensures none { IfNone result ((words : List (List ℕ)) → AreWords words line.now → words ≡ []) }
{
    let text = without_gaps(line);
    if text.is_empty() {
        return None;
    }
    Some(text.split_at(word_length(text)))
}
