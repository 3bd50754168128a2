//! What is told of cases.

use crate::escapes::append_shown;
use crate::step::Step;
use crate::trouble::Trouble;
use std::alloc::{AllocError, Global};

/// What has been seen of the cases of a file.
#[derive(Drop)]
pub struct Report<'a> {
    file: &'a str,
    text: Vec<u8>,
    answers: u64,
    wrong: u64,
}

impl<'a> Report<'a> {
    /// Of a file of which nothing has been seen yet.
    pub fn new(alloc: Global, file: &'a str) -> Report<'a> {
        Report {
            file,
            text: Vec::new(alloc),
            answers: 0,
            wrong: 0,
        }
    }

    /// What is told of the steps that are not as written, in the form of a case.
    pub fn text(&self) -> &[u8] {
        self.text.as_slice()
    }

    /// How many answers were compared.
    pub fn answers(&self) -> u64 {
        self.answers
    }

    /// How many steps were not as written.
    pub fn wrong(&self) -> u64 {
        self.wrong
    }

    // Tells which step is not as written.
    fn tell_step(&mut self, step: &Step<'_, '_>) -> Result<(), AllocError> {
        self.wrong = self.wrong.saturating_add(1);
        let alloc = *self.text.allocator();
        let head = format!(in alloc; "{}:{}: ", self.file, step.line.number)?;
        self.text.extend_from_slice(head.as_bytes())?;
        self.text.extend_from_slice(step.line.text)?;
        self.text.extend_from_slice(b"\n")
    }

    // Tells bytes behind some words, on a line of their own.
    fn tell_bytes(&mut self, words: &[u8], bytes: &[u8]) -> Result<(), AllocError> {
        self.text.extend_from_slice(words)?;
        append_shown(&mut self.text, bytes)?;
        self.text.extend_from_slice(b"\n")
    }

    // Tells a text below a heading, each of its lines behind a mark.
    fn tell_lines(&mut self, heading: &[u8], mark: &[u8], text: &[u8]) -> Result<(), AllocError> {
        self.text.extend_from_slice(heading)?;
        let (lines, is_open) = match text {
            [] => return Ok(()),
            [lines @ .., b'\n'] => (lines, false),
            _ => (text, true),
        };
        for line in lines.split(|byte| *byte == b'\n') {
            self.tell_bytes(mark, line)?;
        }
        if is_open {
            self.text.pop();
            self.text.extend_from_slice(b"\\\n")?;
        }
        Ok(())
    }

    /// Compares the answer of a step with the one that is wanted.
    pub fn compare(
        &mut self,
        step: &Step<'_, '_>,
        wanted: &[u8],
        shown: &[u8],
    ) -> Result<(), AllocError> {
        self.answers = self.answers.saturating_add(1);
        if wanted == shown {
            return Ok(());
        }
        self.tell_step(step)?;
        self.tell_bytes(b"  wanted: ", wanted)?;
        self.tell_bytes(b"  shown:  ", shown)
    }

    /// Compares an answer with the one that is wanted: where that ends with three points, with what stands before them.
    pub fn compare_front(
        &mut self,
        step: &Step<'_, '_>,
        wanted: &[u8],
        shown: &[u8],
    ) -> Result<(), AllocError> {
        match wanted.strip_suffix(b"...") {
            Some(front) if shown.starts_with(front) => self.compare(step, wanted, wanted),
            _ => self.compare(step, wanted, shown),
        }
    }

    /// Compares texts of several lines, of a stream that has this mark in cases.
    pub fn compare_lines(
        &mut self,
        step: &Step<'_, '_>,
        mark: &[u8],
        wanted: &[u8],
        shown: &[u8],
    ) -> Result<(), AllocError> {
        self.answers = self.answers.saturating_add(1);
        if is_as_wanted(wanted, shown) {
            return Ok(());
        }
        self.tell_step(step)?;
        self.tell_lines(b" wanted:\n", mark, wanted)?;
        self.tell_lines(b" shown:\n", mark, shown)
    }

    /// Compares whether something holds that these words say.
    pub fn compare_fact(
        &mut self,
        step: &Step<'_, '_>,
        words: &[u8],
        holds: bool,
    ) -> Result<(), AllocError> {
        if holds {
            self.compare(step, words, words)
        } else {
            self.compare(step, words, b"something else")
        }
    }

    /// Tells why a step can't be performed.
    pub fn trouble(&mut self, step: &Step<'_, '_>, trouble: Trouble) -> Result<(), AllocError> {
        self.tell_step(step)?;
        let why = match trouble {
            Trouble::NoMemory => "out of memory",
            Trouble::Bad(why) => why,
        };
        self.tell_bytes(b"  no step: ", why.as_bytes())
    }
}

// Whether a text is the one that is wanted: where that ends with a line of three points more may follow, and where it begins with one
// more may stand before. Three points and a question mark alone want nothing of it.
fn is_as_wanted(wanted: &[u8], shown: &[u8]) -> bool {
    if wanted == b"...?\n".as_slice() {
        return true;
    }
    if let Some(end) = wanted.strip_prefix(b"...\n") {
        return shown.ends_with(end) && !shown.is_empty();
    }
    match wanted.strip_suffix(b"...\n") {
        Some(front) => shown.starts_with(front) && shown.len() > front.len(),
        None => wanted == shown,
    }
}
