//! What is called around the lines of scripts.

/// Called around each line of a script that is not blank. A test waits in it; the program does not.
pub trait Gate {
    /// Before a station's line of a number, from 1, is run.
    fn before(&self, station: u32, line: u64);

    /// After that line was run.
    fn after(&self, station: u32, line: u64);
}

/// A gate that is always open: it does nothing.
#[derive(Clone, Copy, Debug)]
pub struct OpenGate;

impl Gate for OpenGate {
    fn before(&self, _station: u32, _line: u64) {}

    fn after(&self, _station: u32, _line: u64) {}
}
