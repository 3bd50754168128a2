//! The steps of a case: lines, each with what stands below it.

use crate::escapes::plain;
use crate::trouble::Trouble;
use crate::words::cut_word;
use std::alloc::{AllocError, Global};

/// The marks that the lines below a step begin with.
const MARKS: &[u8] = b"|><!=-*";

/// A line of a file of cases: its number there, from 1, and its text.
#[derive(Clone, Copy)]
pub struct NumberedLine<'a> {
    /// The number.
    pub number: u64,
    /// The text.
    pub text: &'a [u8],
}

impl<'a> NumberedLine<'a> {
    /// Whether the line begins a case: `== ITS NAME`.
    pub fn is_title(&self) -> bool {
        self.text.starts_with(b"== ")
    }

    /// Whether the line belongs to the step above it: it begins with a mark, and a blank behind it where more stands there.
    pub fn is_below(&self) -> bool {
        match self.text {
            [mark] => MARKS.contains(mark),
            [mark, b' ', ..] => MARKS.contains(mark),
            _ => false,
        }
    }

    /// What the line has behind a mark and a blank, where it begins with the mark.
    pub fn after(&self, mark: u8) -> Option<&'a [u8]> {
        match self.text {
            [first, b' ', rest @ ..] if *first == mark => Some(rest),
            [first, rest @ ..] if *first == mark => Some(rest),
            _ => None,
        }
    }
}

/// A step of a case: its line, and the lines below it.
#[derive(Clone, Copy)]
pub struct Step<'a, 't> {
    /// The line.
    pub line: NumberedLine<'t>,
    /// The lines below it, which begin with marks.
    pub below: &'a [NumberedLine<'t>],
}

impl<'a, 't> Step<'a, 't> {
    /// The first step of some lines, and the lines after it.
    pub fn cut(lines: &'a [NumberedLine<'t>]) -> Option<(Step<'a, 't>, &'a [NumberedLine<'t>])> {
        let (line, after) = lines.split_first()?;
        let count = match after.iter().position(|line| !line.is_below()) {
            Some(at) => at,
            None => after.len(),
        };
        let (below, rest) = after.split_at(count);
        Some((Step { line: *line, below }, rest))
    }

    /// The word that the step begins with.
    pub fn word(&self) -> &'t [u8] {
        cut_word(self.line.text).0
    }

    /// What stands behind that word.
    pub fn rest(&self) -> &'t [u8] {
        cut_word(self.line.text).1
    }

    /// The lines below the step that begin with a mark, as one text.
    pub fn text_below(&self, alloc: Global, mark: u8) -> Result<Vec<u8>, Trouble> {
        let mut text = Vec::new(alloc);
        for line in self.below {
            if let Some(written) = line.after(mark) {
                append_line(alloc, &mut text, written)?;
            }
        }
        Ok(text)
    }
}

// Appends the bytes of a line, and its end if it has one.
fn append_line(alloc: Global, text: &mut Vec<u8>, written: &[u8]) -> Result<(), Trouble> {
    let line = plain(alloc, written)?;
    text.extend_from_slice(&line.bytes)?;
    if !line.is_open {
        text.extend_from_slice(b"\n")?;
    }
    Ok(())
}

/// The lines of a text with their numbers, without remarks and empty lines.
pub fn lines_of(alloc: Global, text: &[u8]) -> Result<Vec<NumberedLine<'_>>, AllocError> {
    let mut lines = Vec::new(alloc);
    let mut number: u64 = 0;
    for text in text.split(|byte| *byte == b'\n') {
        number = number.saturating_add(1);
        if !text.is_empty() && !text.starts_with(b"#") {
            lines.push(NumberedLine { number, text })?;
        }
    }
    Ok(lines)
}
