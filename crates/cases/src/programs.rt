//! The programs, run over the files of a case.

use case_files::escapes::plain;
use case_files::{Input, Output, Place, PlaceSource, PlaceSystem, Printed, Trouble, Typed};
use live_program::{PrintedAnswers, TypedLines};
use program_frame::tell;
use std::alloc::{AllocError, Global};
use std::io::BufReader;
use std::process::ExitCode;
use std::sync::Wait;
use std::thread::Threads;
use tool_program::{StreamSink, run_words, tell_end};

/// A call of a program.
#[derive(Clone, Copy)]
pub(crate) struct Call<'a, 'b> {
    /// The words of its command line, of which the first is its name.
    pub(crate) words: &'a [String],
    /// What is typed.
    pub(crate) typed: &'b [u8],
    /// How standard output takes what is printed.
    pub(crate) out: Output,
    /// How standard error does.
    pub(crate) err: Output,
    /// How standard input gives what is typed.
    pub(crate) input: Input,
}

/// What a program has printed on its two streams, and its exit status.
#[derive(Drop)]
pub(crate) struct Outcome {
    /// Standard output.
    pub(crate) out: Vec<u8>,
    /// Standard error.
    pub(crate) err: Vec<u8>,
    /// The exit status.
    pub(crate) status: u8,
}

impl Outcome {
    fn new(alloc: Global) -> Outcome {
        Outcome {
            out: Vec::new(alloc),
            err: Vec::new(alloc),
            status: 0,
        }
    }
}

// The number of an exit status.
fn status_number(status: ExitCode) -> u8 {
    for number in 0..u8::MAX {
        if ExitCode::from(number) == status {
            return number;
        }
    }
    u8::MAX
}

impl<'a, 'b> Call<'a, 'b> {
    /// A call with these words, at which nothing is typed.
    pub(crate) fn of(words: &'a [String]) -> Call<'a, 'b> {
        Call {
            words,
            typed: b"",
            out: Output::Open,
            err: Output::Open,
            input: Input::Open,
        }
    }

    /// The word after another.
    pub(crate) fn value_after(&self, word: &str) -> Option<&'a str> {
        let mut is_next = false;
        for own in self.words {
            if is_next {
                return Some(own.as_str());
            }
            is_next = own.as_str() == word;
        }
        None
    }

    /// Runs the program on the files of a case.
    pub(crate) fn run<R: Threads + Wait + Sync>(
        &self,
        rt: &R,
        alloc: Global,
        place: &Place,
    ) -> Result<Outcome, Trouble> {
        let Some(name) = self.words.first() else {
            return Err(Trouble::Bad("no program"));
        };
        let mut outcome = Outcome::new(alloc);
        let status = match name.as_str() {
            "table_tool" => self.use_tool(alloc, place, &mut outcome),
            "station_server" => self.serve(rt, alloc, place, &mut outcome),
            "station_audit" => self.audit(alloc, place, &mut outcome),
            "station_prompt" => self.type_lines(alloc, place, &mut outcome)?,
            _ => return Err(Trouble::Bad("no such program")),
        };
        outcome.status = status_number(status);
        Ok(outcome)
    }

    // Runs the program that shows, compares, checks and makes tables.
    fn use_tool(&self, alloc: Global, place: &Place, outcome: &mut Outcome) -> ExitCode {
        let mut source = PlaceSource::new(place);
        let mut sink = StreamSink::new(Printed::new(&mut outcome.out, self.out));
        let mut err = Printed::new(&mut outcome.err, self.err);
        let ended = run_words(
            alloc,
            &mut source,
            &mut sink,
            &PlaceSystem::new(place),
            &mut err,
            self.words,
        );
        drop(sink);
        let mut out = Printed::new(&mut outcome.out, self.out);
        tell_end(&mut out, &mut err, &ended).status
    }

    // Runs the server.
    fn serve<R: Threads + Wait + Sync>(
        &self,
        rt: &R,
        alloc: Global,
        place: &Place,
        outcome: &mut Outcome,
    ) -> ExitCode {
        let mut source = PlaceSource::new(place);
        let mut out = Printed::new(&mut outcome.out, self.out);
        let mut err = Printed::new(&mut outcome.err, self.err);
        let system = PlaceSystem::new(place);
        let ended = server_program::run_program(
            rt,
            alloc,
            &system,
            &mut source,
            &mut err,
            self.words,
        );
        tell(&mut out, &mut err, server_program::PROGRAM, &ended).status
    }

    // Runs the audit.
    fn audit(&self, alloc: Global, place: &Place, outcome: &mut Outcome) -> ExitCode {
        let mut source = PlaceSource::new(place);
        let mut out = Printed::new(&mut outcome.out, self.out);
        let mut err = Printed::new(&mut outcome.err, self.err);
        let system = PlaceSystem::new(place);
        let ended = audit_program::run_program(alloc, &system, &mut source, &mut err, self.words);
        tell(&mut out, &mut err, audit_program::PROGRAM, &ended).status
    }

    // Runs the program that is typed to.
    fn type_lines(
        &self,
        alloc: Global,
        place: &Place,
        outcome: &mut Outcome,
    ) -> Result<ExitCode, Trouble> {
        let mut source = PlaceSource::new(place);
        let Ok(reader) = BufReader::new(alloc, Typed::new(self.typed, self.input)) else {
            return Err(Trouble::NoMemory);
        };
        let prompt: Option<Vec<u8>> = None;
        let mut keyboard = TypedLines::new(reader, prompt);
        let mut screen = PrintedAnswers::new(Printed::new(&mut outcome.out, self.out));
        let mut err = Printed::new(&mut outcome.err, self.err);
        let ended = live_program::run_program(
            alloc,
            &PlaceSystem::new(place),
            &mut source,
            &mut keyboard,
            &mut screen,
            &mut err,
            self.words,
        );
        drop(screen);
        let mut out = Printed::new(&mut outcome.out, self.out);
        Ok(tell(&mut out, &mut err, live_program::PROGRAM, &ended).status)
    }
}

/// Words as texts, between blanks; what stands between single quotes is one word.
pub(crate) fn words_of(alloc: Global, line: &[u8]) -> Result<Vec<String>, Trouble> {
    let mut words = Vec::new(alloc);
    let mut rest = line;
    for _ in 0..line.len() {
        let (word, after) = cut_quoted(alloc, rest)?;
        match word {
            Some(word) => words.push(word_text(alloc, &word)?)?,
            None => break,
        }
        rest = after;
    }
    Ok(words)
}

// The first word of a line, without its quotes, and what stands after it; none where only blanks are left.
fn cut_quoted(alloc: Global, line: &[u8]) -> Result<(Option<Vec<u8>>, &[u8]), AllocError> {
    let line = line.trim_ascii_start();
    if line.is_empty() {
        return Ok((None, line));
    }
    let mut word = Vec::new(alloc);
    let mut is_quoted = false;
    for (at, byte) in line.iter().enumerate() {
        match *byte {
            b'\'' => is_quoted = !is_quoted,
            b' ' if !is_quoted => return Ok((Some(word), &line[at..])),
            byte => word.push(byte)?,
        }
    }
    Ok((Some(word), b""))
}

// The text of a word, with its escapes read.
fn word_text(alloc: Global, word: &[u8]) -> Result<String, Trouble> {
    let bytes = plain(alloc, word)?.bytes;
    match str::from_utf8(bytes.as_slice()) {
        Ok(text) => Ok(String::from_str(alloc, text)?),
        Err(_) => Err(Trouble::Bad("a word is no UTF-8 text")),
    }
}

/// The words of a call, as texts.
pub(crate) fn call_of(alloc: Global, words: &[&str]) -> Result<Vec<String>, AllocError> {
    let mut call = Vec::new(alloc);
    for word in words {
        call.push(String::from_str(alloc, word)?)?;
    }
    Ok(call)
}
