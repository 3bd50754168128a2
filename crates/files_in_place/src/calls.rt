//! The calls of the system that a folder's files are kept by.

ghost use Rattle.std.specs.Prelude.{◌≡◌, All, IfOk, IfErr, OnOk, IsErrOf};
ghost use Rattle.std.specs.declared.fs.TryLockError.TheVariants.{WouldBlock};
ghost use Rattle.std.specs.Fs.{permissions_mode};
ghost use Rattle.std.specs.Io.{ReadsAtMost};
ghost use Rattle.std.specs.Io.KnownBytes.{Appends};
ghost use Rattle.files_in_place.specs.System.{SystemAnswers, IsLockRefusal};

use crate::side_by_side::side_by_side;
use crate::system_calls::uninterrupted;
use std::alloc::Global;
use std::fs::{File, Metadata, OpenFile, OpenOptions, Permissions, TryLockError};
use std::io::{Read, Write};
use std::os::unix::fs::lchown;
use std::rt::Files;
use std::thread::Threads;
use std::{fs, io};

/// The calls of the system that a [`SystemDisk`](crate::SystemDisk) makes.
///
/// Its ghost member has what they have answered. Code for every system can show such an answer only by making the call: so
/// it swallows no error of the system, and tells nothing that the system has not said.
///
/// `Err` of each is why the system refuses the call.
pub trait SystemCalls {
    /// A file or a folder that is open.
    type File: Write + Drop;

    /// The names of a folder, as they are read.
    type Names: Drop;

    // What the calls have answered.
    ghost answers: { SystemAnswers Self.File Self.Names };

    /// What has a path (`lstat`). A link is not followed.
    fn find(&self, path: &str) -> io::Result<Metadata>
        ensures said { answers.finds path.now result }
        ensures refused { IfErr result answers.refuses };

    /// What a path leads to (`stat`).
    fn follow(&self, path: &str) -> io::Result<Metadata>
        ensures said { answers.leads_to path.now result }
        ensures refused { IfErr result answers.refuses };

    /// Opens a file or a folder to be read, synced or locked.
    fn open(&self, path: &str) -> io::Result<Self::File>
        ensures said { IfOk result (λ file. answers.is_at file path.now) }
        ensures refused { IfErr result answers.refuses };

    /// Makes an empty file where the path has nothing, and opens it to be written.
    fn create(&self, path: &str) -> io::Result<Self::File>
        ensures said { IfOk result (λ file. answers.makes file path.now) }
        ensures at { IfOk result (λ file. answers.is_at file path.now) }
        ensures refused { IfErr result answers.refuses };

    /// Writes all of the bytes at the end of a file.
    fn append(&self, file: &mut Self::File, bytes: &[u8]) -> io::Result<()>
        ensures said { OnOk result (Appends (Self.File.contents file.old) (Self.File.contents file.new) bytes.now) }
        ensures made { (path : _) → answers.makes file.old path → answers.makes file.new path }
        ensures at { (path : _) → answers.is_at file.old path → answers.is_at file.new path }
        ensures refused { IfErr result answers.refuses };

    /// Reads all that is left in a file.
    fn read(&self, alloc: Global, file: &mut Self::File) -> io::Result<Vec<u8>>
        ensures said { IfOk result (λ bytes. answers.reads file.old bytes.items) }
        ensures refused { IfErr result answers.refuses };

    /// Brings all bytes of a file, or the names of a folder, to the disk (`fsync`).
    fn sync(&self, file: &Self::File) -> io::Result<()>
        ensures said { OnOk result (answers.syncs file.now) }
        ensures refused { IfErr result answers.refuses };

    /// Brings all bytes of each of the files to the disk, side by side. A sync that a signal interrupts is made again.
    fn sync_all(&self, files: &[Self::File]) -> io::Result<()>
        ensures said { OnOk result (All answers.syncs files.now) }
        ensures refused { IfErr result answers.refuses };

    /// Locks a folder (`flock`), without waiting.
    fn try_lock(&self, file: &Self::File) -> Result<(), TryLockError>
        ensures said { OnOk result (answers.locks file.now) }
        ensures busy { IsErrOf result WouldBlock → answers.is_busy file.now }
        ensures refused { IfErr result (IsLockRefusal answers) };

    /// What an open file is (`fstat`).
    fn metadata(&self, file: &Self::File) -> io::Result<Metadata>
        ensures refused { IfErr result answers.refuses };

    /// Gives an open file a mode.
    fn set_mode(&self, file: &Self::File, mode: Permissions) -> io::Result<()>
        ensures said { OnOk result (answers.has_mode file.now (permissions_mode mode)) }
        ensures refused { IfErr result answers.refuses };

    /// Gives what has a path a group. A link is not followed.
    fn set_group(&self, path: &str, group: u32) -> io::Result<()>
        ensures refused { IfErr result answers.refuses };

    /// Gives what has a path another one, in the place of what had that (`rename`).
    fn rename(&self, from: &str, to: &str) -> io::Result<()>
        ensures said { OnOk result (answers.renames from.now to.now) }
        ensures refused { IfErr result answers.refuses };

    /// Removes the file that has a path (`unlink`).
    fn remove(&self, path: &str) -> io::Result<()>
        ensures said { OnOk result (answers.removes path.now) }
        ensures refused { IfErr result answers.refuses };

    /// Begins to read the names of a folder.
    fn open_names(&self, path: &str) -> io::Result<Self::Names>
        ensures said { IfOk result (λ names. answers.opens_names names path.now) }
        ensures refused { IfErr result answers.refuses };

    /// Reads whole names on, each ended by a NUL: how many bytes, and none where no name is left.
    fn read_names(&self, names: &mut Self::Names, bytes: &mut [u8]) -> io::Result<usize>
        ensures bound { ReadsAtMost result bytes.new }
        ensures ends { result ≡ Ok 0 → answers.ends names.new }
        ensures at { (path : _) → answers.opens_names names.old path → answers.opens_names names.new path }
        ensures refused { IfErr result answers.refuses };
}

/// The system itself. Of its answers contracts know nothing but what std says of them.
impl<R: Files<File = File> + Threads> SystemCalls for R {
    ghost use Rattle.files_in_place.specs.System.{nothing_told};

    type File = File;

    type Names = R::Dir;

    ghost answers = { nothing_told };

    fn find(&self, path: &str) -> io::Result<Metadata> {
        fs::symlink_metadata(self, path)
    }

    fn follow(&self, path: &str) -> io::Result<Metadata> {
        fs::metadata(self, path)
    }

    fn open(&self, path: &str) -> io::Result<File> {
        File::open(self, path)
    }

    fn create(&self, path: &str) -> io::Result<File> {
        OpenOptions::new()
            .write(true)
            .create_new(true)
            .open(self, path)
    }

    fn append(&self, file: &mut File, bytes: &[u8]) -> io::Result<()> {
        file.write_all(bytes)
    }

    fn read(&self, alloc: Global, file: &mut File) -> io::Result<Vec<u8>> {
        let mut bytes = Vec::new(alloc);
        file.read_to_end(&mut bytes)?;
        Ok(bytes)
    }

    fn sync(&self, file: &File) -> io::Result<()> {
        file.sync_all()
    }

    fn sync_all(&self, files: &[File]) -> io::Result<()> {
        side_by_side(
            self,
            files,
            &|file: &File| uninterrupted(|| file.sync_all()),
        )
    }

    fn try_lock(&self, file: &File) -> Result<(), TryLockError> {
        file.try_lock()
    }

    fn metadata(&self, file: &File) -> io::Result<Metadata> {
        file.metadata()
    }

    fn set_mode(&self, file: &File, mode: Permissions) -> io::Result<()> {
        file.set_permissions(mode)
    }

    fn set_group(&self, path: &str, group: u32) -> io::Result<()> {
        lchown(self, path, None, Some(group))
    }

    fn rename(&self, from: &str, to: &str) -> io::Result<()> {
        fs::rename(self, from, to)
    }

    fn remove(&self, path: &str) -> io::Result<()> {
        fs::remove_file(self, path)
    }

    fn open_names(&self, path: &str) -> io::Result<R::Dir> {
        self.open_dir(path)
    }

    fn read_names(&self, names: &mut R::Dir, bytes: &mut [u8]) -> io::Result<usize> {
        names.read(bytes)
    }
}
