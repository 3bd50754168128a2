//! What a program says of work that came to its end.

ghost use Rattle.std.specs.Prelude.{ℕ, List, OnOk, Option};
ghost use Rattle.std.specs.Io.KnownBytes.{Appends};

use std::io;
use std::io::Write;

/// What a program says of work that came to its end.
pub trait Report: Drop {
    // the exit status
    ghost has_status: { Self → ℕ → Type 0 };

    // standard output had the one text, and then has the other
    ghost prints: { Self → Option (List ℕ) → Option (List ℕ) → Type 0 };

    // what is said besides on standard error, of which standard output tells nothing
    ghost aside: { Self → List ℕ };

    /// The exit status.
    fn exit_status(&self) -> u8
        ensures status { has_status self.now result };

    /// Prints what standard output is told. An error where a write fails.
    fn print<W: Write>(&self, out: &mut W) -> io::Result<()>
        ensures text { OnOk result (prints self.now (W.contents out.old) (W.contents out.new)) };

    /// Prints what is said besides on standard error. An error where a write fails.
    fn print_aside<W: Write>(&self, err: &mut W) -> io::Result<()>
        ensures text { OnOk result (Appends (W.contents err.old) (W.contents err.new) (aside self.now)) };
}
