//! Bytes that are shown to people.

ghost use Rattle.std.specs.Prelude.{◌≤◌, length};
ghost use Rattle.live_program.specs.declared.shown_bytes.TheConstants.{SHOWN_AT_ONCE};

use std::io;
use std::io::Write;

// How many bytes are shown by one write.
const SHOWN_AT_ONCE: usize = 512;

/// A writer that may be a terminal. There a control byte of a cell might colour or clear the screen of whoever reads it: so each but
/// the line feed, the carriage return and the tab is shown as `-`. A pipe or a file gets the bytes as they are.
///
/// Contracts know nothing of what stands on a screen.
#[derive(Drop)]
pub struct ShownBytes<W: Write + Drop> {
    out: W,
    is_terminal: bool,
}

impl<W: Write + Drop> ShownBytes<W> {
    /// A writer, of which it is known whether it is a terminal.
    pub fn new(out: W, is_terminal: bool) -> ShownBytes<W> {
        ShownBytes { out, is_terminal }
    }
}

// What is shown of a byte at a terminal.
fn shown_at_terminal(byte: u8) -> u8 {
    match byte {
        b'\n' | b'\r' | b'\t' => byte,
        0..=31 | 127 => b'-',
        _ => byte,
    }
}

// The first bytes, as they are shown at a terminal, and how many there are.
fn first_shown(bytes: &[u8]) -> ([u8; SHOWN_AT_ONCE], usize)
    ensures inside { (result.1 ≤ length bytes.now) × (result.1 ≤ SHOWN_AT_ONCE) }
{
    let count = bytes.len().min(SHOWN_AT_ONCE);
    let mut shown = [0; SHOWN_AT_ONCE];
    for index in 0..count {
        shown[index] = shown_at_terminal(bytes[index]);
    }
    (shown, count)
}

impl<W: Write + Drop> Write for ShownBytes<W> {
    ghost use Rattle.std.specs.Prelude.{None};

    ghost contents = { λ _. None };

    fn write(&mut self, bytes: &[u8]) -> io::Result<usize> {
        if !self.is_terminal {
            return self.out.write(bytes);
        }
        let (shown, count) = first_shown(bytes);
        self.out.write(&shown[..count])
    }

    fn flush(&mut self) -> io::Result<()> {
        self.out.flush()
    }
}
