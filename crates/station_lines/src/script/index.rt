//! The line that makes an index: INDEX ON, an expression, TO and a name.

ghost use Rattle.std.specs.Prelude.{◌≡◌, true, IfOk, OnErr};
ghost use Rattle.station_lines.specs.Script.Keeping.{keeps_text};
ghost use Rattle.station_lines.specs.Script.Reading.{index_line, after_on as line_after_on, after_index as line_after_index};

use crate::script::end::{cut_last_word, without_end_gaps};
use crate::script::keyword::is_keyword;
use crate::script::line::Line;
use crate::script::value::{in_capitals, is_name};
use crate::script::word::{cut_word, without_gaps};
use byte_io::Bytes;
use catalogue_core::Command;
use std::alloc::{AllocError, Global};

// The line of an expression, a word that is to be TO, and one that is to be a name.
fn index_of(alloc: Global, expr: &[u8], to: &[u8], name: &[u8]) -> Result<Line, AllocError>
    ensures value { IfOk result (λ line. line ≡ index_line expr.now to.now name.now) }
    ensures early { OnErr result (keeps_text (index_line expr.now to.now name.now) ≡ true) }
{
    // All is judged before anything is kept: a line that can't be read takes no memory.
    if expr.is_empty() || !is_keyword(to, b"TO") || !is_name(name) {
        return Ok(Line::Run(Command::Bad));
    }
    let name = in_capitals(alloc, name)?;
    let expr = Bytes::from_slice(alloc, expr)?;
    Ok(Line::Run(Command::IndexOn { expr, name }))
}

// The line of what stands after ON. The expression may hold blanks, tabs and the word TO, so TO and the name are cut off
// at the end.
fn after_on(alloc: Global, rest: &[u8]) -> Result<Line, AllocError>
    ensures value { IfOk result (λ line. line ≡ line_after_on rest.now) }
    ensures early { OnErr result (keeps_text (line_after_on rest.now) ≡ true) }
{
    let (rest, name) = cut_last_word(rest);
    let (rest, to) = cut_last_word(rest);
    index_of(alloc, without_gaps(without_end_gaps(rest)), to, name)
}

/// The line of what stands after INDEX. An error where memory for its expression or its name is refused.
pub(crate) fn after_index(alloc: Global, rest: &[u8]) -> Result<Line, AllocError>
    ensures value { IfOk result (λ line. line ≡ line_after_index rest.now) }
    ensures early { OnErr result (keeps_text (line_after_index rest.now) ≡ true) }
{
    let (on, rest) = cut_word(rest);
    if !is_keyword(on, b"ON") {
        return Ok(Line::Run(Command::Bad));
    }
    after_on(alloc, rest)
}
