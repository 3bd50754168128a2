//! How a call of the program came to its end.

use byte_io::Bytes;
use program_frame::Report;
use std::io;
use std::io::Write;

/// How a call of the program came to its end. All that there is to print on standard output has been printed.
#[derive(Debug, PartialEq, Eq, Drop)]
pub enum ToolReport {
    /// All that was asked for is shown or made, or the server would open the setup that was checked, or the tables that were compared are
    /// the same, or none of the answers that are shown is a refusal.
    Good,
    /// The records are loaded. This is said of indexes that don't fit the new table; nothing, where there is none.
    Loaded(Bytes),
    /// The server would not open the setup, which has been told.
    NotOpened,
    /// The tables that were compared differ, which has been told.
    Differ,
    /// Some of the answers that are shown are refusals.
    Refused,
    /// Nobody reads the output any more, so that not all of it was written.
    Unread,
}

impl Report for ToolReport {
    ghost use Rattle.std.specs.Prelude.{◌≡◌};
    ghost use Rattle.std.specs.Io.KnownBytes.{Keeps};
    ghost use Rattle.tool_program.specs.Answers.{report_aside, report_status};

    ghost has_status = { λ report status. status ≡ report_status report };

    ghost prints = { λ _ old new. Keeps old new };

    ghost aside = { report_aside };

    // 2 for a setup that the server would not open, 1 for tables that differ, and for answers that are refusals.
    fn exit_status(&self) -> u8 {
        match self {
            ToolReport::Good => 0,
            ToolReport::Loaded(_) => 0,
            ToolReport::NotOpened => 2,
            ToolReport::Differ => 1,
            ToolReport::Refused => 1,
            ToolReport::Unread => 0,
        }
    }

    fn print<W: Write>(&self, _out: &mut W) -> io::Result<()> {
        Ok(())
    }

    fn print_aside<W: Write>(&self, err: &mut W) -> io::Result<()> {
        match self {
            ToolReport::Loaded(told) => err.write_all(told.as_slice()),
            _ => Ok(()),
        }
    }
}
