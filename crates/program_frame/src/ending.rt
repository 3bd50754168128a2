//! Why a call of a program has not done what it was asked for.

ghost use Rattle.std.specs.Prelude.{◌≡◌, ℕ, List, OnOk};
ghost use Rattle.std.specs.Io.KnownBytes.{Appends};

use crate::folder::{FolderFault, PlaceFault, print_folder};
use std::alloc::AllocError;
use std::io;
use std::io::Write;

/// Why the work of a program failed, as its user is told.
pub trait Reason: Drop {
    // what is printed of it, without the program's name and a line's end
    ghost words: { Self → List ℕ };

    // the exit status
    ghost status: { Self → ℕ };

    // that memory was refused
    ghost no_memory: { Self };

    /// The exit status.
    fn exit_status(&self) -> u8
        ensures status { result ≡ status self.now };

    /// Prints why, without the program's name and a line's end. Takes no memory. An error where a write fails.
    fn print<W: Write>(&self, out: &mut W) -> io::Result<()>
        ensures text { OnOk result (Appends (W.contents out.old) (W.contents out.new) (words self.now)) };

    /// That memory was refused.
    fn out_of_memory() -> Self
        ensures value { result ≡ no_memory };
}

/// Why a call of a program that puts new files in place failed, where `clap` had nothing to object.
#[derive(Debug, PartialEq, Eq, Drop)]
pub enum Failure<F> {
    /// The date is no calendar date of the years 1900 to 2155.
    BadDate,
    /// The program's work failed, or memory was refused.
    Work(F),
    /// The folder for the new files has not got them.
    Folder(FolderFault),
}

impl<F: Reason> Reason for Failure<F> {
    ghost use Rattle.program_frame.specs.Endings.{failure_status, failure_words};
    ghost use Rattle.program_frame.specs.declared.ending.Failure.TheVariants.{Work};

    ghost words = { failure_words F.words };

    ghost status = { failure_status F.status };

    ghost no_memory = { Work F.no_memory };

    fn exit_status(&self) -> u8 {
        match self {
            Failure::BadDate => 1,
            Failure::Work(fault) => fault.exit_status(),
            Failure::Folder(FolderFault::UnknownDay(_, _)) => 2,
            Failure::Folder(_) => 4,
        }
    }

    fn print<W: Write>(&self, out: &mut W) -> io::Result<()> {
        match self {
            Failure::BadDate => out.write_all(
                b"bad date: --today wants a day like 19870315, of the years 1900 to 2155",
            ),
            Failure::Work(fault) => fault.print(out),
            Failure::Folder(fault) => print_folder(out, fault),
        }
    }

    fn out_of_memory() -> Failure<F> {
        Failure::Work(F::out_of_memory())
    }
}

impl<F: Reason> From<PlaceFault> for Failure<F> {
    ghost use Rattle.std.specs.Prelude.{◌≡◌};
    ghost use Rattle.program_frame.specs.Endings.{place_failure};

    ghost from_gives = { λ fault failure. failure ≡ place_failure F.no_memory fault };

    fn from(fault: PlaceFault) -> Failure<F> {
        match fault {
            PlaceFault::NoMemory => Failure::Work(F::out_of_memory()),
            PlaceFault::Folder(fault) => Failure::Folder(fault),
        }
    }
}

/// Why a call of a program has not done what it was asked for.
#[derive(Debug, Drop)]
pub enum Ending<F> {
    /// An argument is no UTF-8 text.
    NoText,
    /// `clap` gave no options: the help or the version is asked for, the command line is wrong, or memory was refused.
    CommandLine(clap::Error),
    /// It failed.
    Failed(F),
}

// A fault in reading the arguments: a want of memory, and else that one is no UTF-8 text.
impl<F: Reason> From<io::Error> for Ending<F> {
    ghost use Rattle.std.specs.Prelude.{◌≡◌};
    ghost use Rattle.std.specs.IoError.{error_kind};
    ghost use Rattle.program_frame.specs.Endings.{unread_arguments};

    ghost from_gives = { λ error ending. ending ≡ unread_arguments F.no_memory (error_kind error) };

    fn from(error: io::Error) -> Ending<F> {
        match error.kind() {
            io::ErrorKind::OutOfMemory => Ending::Failed(F::out_of_memory()),
            _ => Ending::NoText,
        }
    }
}

impl<F: Reason> From<AllocError> for Ending<F> {
    ghost use Rattle.std.specs.Prelude.{◌≡◌};
    ghost use Rattle.program_frame.specs.declared.ending.Ending.TheVariants.{Failed};

    ghost from_gives = { λ _ ending. ending ≡ Failed F.no_memory };

    fn from(_refused: AllocError) -> Ending<F> {
        Ending::Failed(F::out_of_memory())
    }
}

impl<F> From<clap::Error> for Ending<F> {
    ghost use Rattle.std.specs.Prelude.{◌≡◌};
    ghost use Rattle.program_frame.specs.declared.ending.Ending.TheVariants.{CommandLine};

    ghost from_gives = { λ error ending. ending ≡ CommandLine error };

    fn from(error: clap::Error) -> Ending<F> {
        Ending::CommandLine(error)
    }
}

impl<F> From<Failure<F>> for Ending<Failure<F>> {
    ghost use Rattle.std.specs.Prelude.{◌≡◌};
    ghost use Rattle.program_frame.specs.declared.ending.Ending.TheVariants.{Failed};

    ghost from_gives = { λ failure ending. ending ≡ Failed failure };

    fn from(failure: Failure<F>) -> Ending<Failure<F>> {
        Ending::Failed(failure)
    }
}
