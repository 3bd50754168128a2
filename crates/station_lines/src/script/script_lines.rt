//! Cuts a script into lines.

ghost use Rattle.std.specs.Prelude.{◌≡◌, ◌≢◌, ◌<◌, ◌==◌, ℕ, List, [], ◌∷◌, length, position, IfSome, IfNone};
ghost use Rattle.station_lines.specs.declared.script.format.TheConstants.{LF};
ghost use Rattle.station_lines.specs.Script.Lines.{has_no_lf, without_cr, BeginsWithLine, AreLines};

use crate::script::format::{CR, LF};
use std::marker::Model;

/// A cursor over the lines of a script, which contracts see as what is left of the script.
#[derive(Debug, Drop)]
pub struct LineCursor<'a> {
    rest: &'a [u8],
}

impl<'a> Model for LineCursor<'a> {
    ghost Value = { List ℕ };

    ghost view = { λ l. l.rest.now };
}

/// A cursor before the first line of a script. Takes no memory.
pub fn lines(script: &[u8]) -> LineCursor<'_>
    ensures value { result ≡ script.now }
{
    LineCursor { rest: script }
}

// Where the first LF stands.
fn line_end(text: &[u8]) -> Option<usize>
    ensures value { result ≡ position (λ b. b == LF) text.now }
{
    text.iter().position(|byte| *byte == LF)
}

/// Whether a text can be a line of a script: it has no LF. Takes no memory.
pub fn is_one_line(text: &[u8]) -> bool
    ensures value { result ≡ has_no_lf text.now }
{
    text.iter().all(|byte| *byte != LF)
}

// The line without a CR at its end.
fn without_return(line: &[u8]) -> &[u8]
    ensures value { result.now ≡ without_cr line.now }
{
    match line {
        [front @ .., CR] => front,
        _ => line,
    }
}

// The first line, without its ending, and what stands after its ending.
#[tactic(auto, using(crate::proofs::ScriptLaws::LineLaws::line_ended, crate::proofs::ScriptLaws::LineLaws::last_line))]
fn split_line(text: &[u8]) -> (&[u8], &[u8])
    requires some { text.now ≢ [] }
    ensures line { BeginsWithLine text.now result.0.now result.1.now }
{
    match line_end(text) {
        Some(end) => {
            let (line, _) = text.split_at(end);
            let (_, rest) = text.split_at(end + 1);
            (without_return(line), rest)
        }
        None => (text, &[]),
    }
}

impl<'a> LineCursor<'a> {
    #[tactic(auto, using(crate::proofs::ScriptLaws::CuttingLaws::line_before))]
    /// The next line, without its ending: LF or CR LF, which the last line may lack. A CR elsewhere is a byte of
    /// the line. `None` where no line is left. Takes no memory.
    pub fn next_line(&mut self) -> Option<&'a [u8]>
        ensures line { IfSome result (λ line. BeginsWithLine self.old line.now self.new) }
        ensures joined { IfSome result (λ line. (others : List (List ℕ)) → AreLines others self.new → AreLines (line.now ∷ others) self.old) }
        ensures shorter { IfSome result (λ line. length self.new < length self.old) }
        ensures none { IfNone result (self.old ≡ []) }
        ensures kept { IfNone result (self.new ≡ []) }
    {
        if self.rest.is_empty() {
            return None;
        }
        let (line, rest) = split_line(self.rest);
        self.rest = rest;
        Some(line)
    }
}

/// A script is lines, one after another with their endings, and is cut into them in one way: each script is
/// some lines, and no script is these lines and others.
pub fn one_cutting()
    ensures some { (script : List ℕ) → (lines : List (List ℕ)) × AreLines lines script }
    ensures one { (script : List ℕ) (a b : List (List ℕ)) → AreLines a script → AreLines b script → a ≡ b }
{}
