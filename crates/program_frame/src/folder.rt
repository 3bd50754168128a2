//! Why new files have not got into their folder.

ghost use Rattle.std.specs.Prelude.{◌≡◌, OnOk};
ghost use Rattle.std.specs.Io.KnownBytes.{Appends};
ghost use Rattle.program_frame.specs.Reasons.{folder_reason, unreplaced};

use crate::reason::print_unread;
use byte_io::Bytes;
use files_in_place::LockFault;
use office_run::FileFault;
use std::alloc::AllocError;
use std::io;
use std::io::Write;

/// Why the folder for the new files has not got them.
#[derive(Debug, PartialEq, Eq, Drop)]
pub enum FolderFault {
    /// Another run writes into it.
    InUse,
    /// It isn't there, or can't be opened.
    Unopened,
    /// What an earlier run left in it was not brought to its end, or can't be read.
    Unrecovered,
    /// It has a list of new files that no run has written. Nothing in it was touched.
    BadList,
    /// The new file of this name, of an earlier run, can't take its place.
    Unreplaced(Bytes),
    /// A live day is open in it, whose answers are in none of its tables yet.
    DayOpen,
    /// Whether a day is open in a folder from which the program reads isn't known, since the log of this path can't be read.
    UnknownDay(Bytes, FileFault),
    /// The new files were not written whole, and none of them is in place.
    Unwritten,
    /// Not all new files are in place, and the next start goes on.
    Unfinished,
}

/// Prints why the folder for the new files has not got them. Takes no memory. An error where a write fails.
pub fn print_folder<W: Write>(out: &mut W, fault: &FolderFault) -> io::Result<()>
    ensures text { OnOk result (Appends (W.contents out.old) (W.contents out.new) (folder_reason fault.now)) }
{
    match fault {
        FolderFault::InUse => out.write_all(b"another run writes into the folder"),
        FolderFault::Unopened => {
            out.write_all(b"cannot open the folder of --out: is it there, and may it be opened?")
        }
        FolderFault::Unrecovered => out.write_all(b"cannot recover the folder"),
        FolderFault::BadList => {
            out.write_all(b"cannot recover the folder: ~niqarthu.list is no list of new files")
        }
        FolderFault::Unreplaced(name) => print_unreplaced(out, name.as_slice()),
        FolderFault::DayOpen => {
            out.write_all(b"a day is open in the folder: station_prompt goes on with it")
        }
        FolderFault::UnknownDay(log, why) => print_unread(out, log, *why),
        FolderFault::Unwritten => out.write_all(b"cannot write the new files"),
        FolderFault::Unfinished => {
            out.write_all(b"not all new files are in place: the next start goes on")
        }
    }
}

// Prints that a new file of this name can't take its place.
fn print_unreplaced<W: Write>(out: &mut W, name: &[u8]) -> io::Result<()>
    ensures text { OnOk result (Appends (W.contents out.old) (W.contents out.new) (unreplaced name.now)) }
{
    out.write_all(b"cannot recover the folder: ")?;
    out.write_all(name)?;
    out.write_all(b": cannot be replaced")?;
    Ok(())
}

/// Why new files are not in place, where that is no fault of the run itself.
#[derive(Debug, PartialEq, Eq, Drop)]
pub enum PlaceFault {
    /// Memory was refused.
    NoMemory,
    /// The folder has not got them.
    Folder(FolderFault),
}

// A fault in opening the folder.
impl From<LockFault> for PlaceFault {
    ghost use Rattle.std.specs.Prelude.{◌≡◌};
    ghost use Rattle.program_frame.specs.PlaceFaults.{unlocked_folder};

    ghost from_gives = { λ fault place. place ≡ unlocked_folder fault };

    fn from(fault: LockFault) -> PlaceFault {
        match fault {
            LockFault::InUse => PlaceFault::Folder(FolderFault::InUse),
            LockFault::NoMemory => PlaceFault::NoMemory,
            LockFault::Failed => PlaceFault::Folder(FolderFault::Unopened),
        }
    }
}

impl From<AllocError> for PlaceFault {
    ghost use Rattle.std.specs.Prelude.{◌≡◌};
    ghost use Rattle.program_frame.specs.declared.folder.PlaceFault.TheVariants.{NoMemory};

    ghost from_gives = { λ _ place. place ≡ NoMemory };

    fn from(_refused: AllocError) -> PlaceFault {
        PlaceFault::NoMemory
    }
}
