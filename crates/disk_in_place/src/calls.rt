//! The calls of the system that a file is written over by.

ghost use Rattle.std.specs.Prelude.{IfOk, IfErr, OnOk};
ghost use Rattle.disk_in_place.specs.SystemInPlace.{AnswersInPlace};

use files_in_place::SystemCalls;
use std::fs::{File, OpenFile, OpenOptions};
use std::io;
use std::os::unix::fs::FileExt;
use std::rt::Files;
use std::thread::Threads;

/// The calls of the system that a [`SystemDiskInPlace`](crate::SystemDiskInPlace) makes beside those of a
/// [`SystemDisk`](files_in_place::SystemDisk).
///
/// Its ghost member has what they have answered, as that of [`SystemCalls`] has for the others. `Err` of each is why the system
/// refuses the call.
pub trait SystemCallsInPlace: SystemCalls {
    // What the calls have answered.
    ghost answers_in_place: { AnswersInPlace Self.File };

    /// Opens a file, which is there, to be written over.
    fn open_over(&self, path: &str) -> io::Result<Self::File>
        ensures said { IfOk result (λ file. answers_in_place.opens_over file path.now) }
        ensures at { IfOk result (λ file. Self.answers.is_at file path.now) }
        ensures refused { IfErr result Self.answers.refuses };

    /// Writes all of the bytes at an offset of a file, and past its end where they don't fit (`pwrite`).
    fn write_over(&self, file: &mut Self::File, offset: u64, bytes: &[u8]) -> io::Result<()>
        ensures said { OnOk result (answers_in_place.writes_over file.old offset bytes.now file.new) }
        ensures at { (path : _) → Self.answers.is_at file.old path → Self.answers.is_at file.new path }
        ensures refused { IfErr result Self.answers.refuses };

    /// Brings all bytes of a file, and its length, to the disk (`fdatasync`).
    fn sync_data(&self, file: &Self::File) -> io::Result<()>
        ensures said { OnOk result (answers_in_place.syncs_data file.now) }
        ensures refused { IfErr result Self.answers.refuses };
}

/// The system itself. Of its answers contracts know nothing but what std says of them.
impl<R: Files<File = File> + Threads> SystemCallsInPlace for R {
    ghost use Rattle.disk_in_place.specs.SystemInPlace.{nothing_told_in_place};

    ghost answers_in_place = { nothing_told_in_place };

    fn open_over(&self, path: &str) -> io::Result<File> {
        OpenOptions::new().write(true).open(self, path)
    }

    // std's `write_all_at` goes on after a short write, and after one that a signal interrupts.
    fn write_over(&self, file: &mut File, offset: u64, bytes: &[u8]) -> io::Result<()> {
        file.write_all_at(bytes, offset)
    }

    fn sync_data(&self, file: &File) -> io::Result<()> {
        file.sync_data()
    }
}
