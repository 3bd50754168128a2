//! What the program says at the end of a day.

ghost use Rattle.std.specs.Prelude.{◌≡◌, OnOk};
ghost use Rattle.std.specs.Io.KnownBytes.{Appends};
ghost use Rattle.live_program.specs.Endings.{count_line};

use program_frame::Report;
use std::io;
use std::io::Write;

/// What is said of a day that was closed.
#[derive(Clone, Copy, Debug, PartialEq, Eq)]
pub struct Lived {
    /// How many commands were performed, those of earlier lives too.
    pub count: u64,
}

// Prints how many commands were performed: `station_prompt: N commands` and LF. Takes no memory. An error where a write fails.
fn print_count<W: Write>(out: &mut W, count: u64) -> io::Result<()>
    ensures text { OnOk result (Appends (W.contents out.old) (W.contents out.new) (count_line count)) }
{
    write!(out, "station_prompt: {count} commands\n")
}

impl Report for Lived {
    ghost use Rattle.std.specs.Prelude.{◌≡◌, []};
    ghost use Rattle.std.specs.Io.KnownBytes.{Appends};
    ghost use Rattle.live_program.specs.Endings.{count_line};

    ghost has_status = { λ _ status. status ≡ 0 };

    ghost prints = { λ lived old new. Appends old new (count_line lived.count) };

    ghost aside = { λ _. [] };

    fn exit_status(&self) -> u8 {
        0
    }

    fn print<W: Write>(&self, out: &mut W) -> io::Result<()> {
        print_count(out, self.count)
    }

    fn print_aside<W: Write>(&self, err: &mut W) -> io::Result<()> {
        Ok(())
    }
}
