//! The streams of a program: what is typed, and what is printed.

use std::io::{self, ErrorKind, Read, Write};

/// How a stream takes what is printed.
#[derive(Clone, Copy, PartialEq, Eq)]
pub enum Output {
    /// All of it.
    Open,
    /// A byte a write.
    Slow,
    /// So many bytes, and then nothing, since it is full.
    Takes(usize),
    /// Nothing, since nobody reads it any more.
    Closed,
}

/// A stream in memory that text is printed to.
#[derive(Drop)]
pub struct Printed<'a> {
    text: &'a mut Vec<u8>,
    output: Output,
}

impl<'a> Printed<'a> {
    /// A stream that puts what it takes behind a text.
    pub fn new(text: &'a mut Vec<u8>, output: Output) -> Printed<'a> {
        Printed { text, output }
    }
}

impl<'a> Write for Printed<'a> {
    fn write(&mut self, bytes: &[u8]) -> io::Result<usize> {
        let count = match self.output {
            Output::Open => bytes.len(),
            Output::Slow => bytes.len().min(1),
            Output::Takes(most) if self.text.len() < most => {
                bytes.len().min(most.saturating_sub(self.text.len()))
            }
            Output::Takes(_) => return Err(io::Error::from(ErrorKind::StorageFull)),
            Output::Closed => return Err(io::Error::from(ErrorKind::BrokenPipe)),
        };
        self.text.extend_from_slice(&bytes[..count])?;
        Ok(count)
    }

    fn flush(&mut self) -> io::Result<()> {
        Ok(())
    }
}

/// How a stream gives what is typed.
#[derive(Clone, Copy, PartialEq, Eq)]
pub enum Input {
    /// As much as is wanted.
    Open,
    /// A byte a read.
    Slow,
    /// As much as is wanted, and then a failure in place of the end.
    Fails,
}

/// A stream in memory that text is read from.
#[derive(Drop)]
pub struct Typed<'a> {
    text: &'a [u8],
    input: Input,
}

impl<'a> Typed<'a> {
    /// A stream that gives a text.
    pub fn new(text: &'a [u8], input: Input) -> Typed<'a> {
        Typed { text, input }
    }
}

impl<'a> Read for Typed<'a> {
    fn read(&mut self, bytes: &mut [u8]) -> io::Result<usize> {
        if self.text.is_empty() && self.input == Input::Fails {
            return Err(io::Error::from(ErrorKind::BrokenPipe));
        }
        let most = match self.input {
            Input::Slow => bytes.len().min(1),
            _ => bytes.len(),
        };
        let count = self.text.len().min(most);
        let (given, rest) = self.text.split_at(count);
        bytes[..count].copy_from_slice(given);
        self.text = rest;
        Ok(count)
    }
}
