//! A folder of a disk: what reads show, and what a crash may leave.

ghost use Rattle.std.specs.Prelude.{◌≡◌, ◌≢◌, ◌++◌, ◌↔◌, [], option_map, None, Some, IfOk, OnOk, IsErrOf, IsSome, IsTrue, Contains, All};
ghost use Rattle.files_in_place.specs.declared.faults.DiskFault.TheVariants.{Failed};
ghost use Rattle.files_in_place.specs.Folder.{Name};
ghost use Rattle.files_in_place.specs.Disk.{DiskMeaning, OnlyReads, ChangesFile, MovesFile, RemovesFile, HasMoved, IsDurable, Settles, HasDiskCause};

use crate::faults::DiskFault;
use byte_io::Bytes;
use std::alloc::Global;

/// A folder of a disk, by the names of its files. No other program writes into it meanwhile, and two names are two files.
///
/// Its ghost member is a model of what reads show and of what a crash leaves, by what POSIX says of `rename` and `fsync`
/// and what file systems with a journal keep. A type whose files are outside of its value, as a folder of the system,
/// can't prove that they follow a model: so the clauses that speak of values stand under `keeps_promises`. Such a
/// type doesn't claim it, and what is proved of every disk holds of its folder as far as that follows the model.
///
/// Of the files of a call that fails nothing is said but what the clauses name.
pub trait Disk {
    // What its files are, and what a crash leaves of them.
    ghost meaning: { DiskMeaning Self };

    /// The bytes of a file, or `None` where the name has none.
    fn read(&mut self, alloc: Global, name: &[u8]) -> Result<Option<Bytes>, DiskFault>
        ensures content { meaning.keeps_promises → IfOk result (λ content. content ≡ meaning.seen self.old name.now) }
        ensures only { OnlyReads meaning self.old self.new }
        ensures cause { HasDiskCause meaning self.old self.new (IsErrOf result Failed) };

    /// Whether the name has a file.
    fn has(&mut self, name: &[u8]) -> Result<bool, DiskFault>
        ensures found { meaning.keeps_promises → IfOk result (λ found. IsTrue found ↔ IsSome (meaning.seen self.old name.now)) }
        ensures only { OnlyReads meaning self.old self.new }
        ensures cause { HasDiskCause meaning self.old self.new (IsErrOf result Failed) };

    /// The names of all files, in any order.
    fn list(&mut self, alloc: Global) -> Result<Vec<Bytes>, DiskFault>
        ensures names { meaning.keeps_promises → IfOk result (λ names. (n : Name) → IsSome (meaning.seen self.old n) → Contains names.items n) }
        ensures only { OnlyReads meaning self.old self.new }
        ensures cause { HasDiskCause meaning self.old self.new (IsErrOf result Failed) };

    /// Makes an empty file (`open` with `O_CREAT` and `O_EXCL`). Until the folder is synced, a crash may leave anything at the
    /// name: no file, an empty one, or any bytes. It may leave no other name changed.
    fn create(&mut self, name: &[u8]) -> Result<(), DiskFault>
        requires free { meaning.keeps_promises → meaning.seen self.old name.now ≡ None }
        ensures done { meaning.keeps_promises → OnOk result (meaning.seen self.new name.now ≡ Some []) }
        ensures new { OnOk result (meaning.is_new self.new name.now) }
        ensures changes { ChangesFile meaning name.now self.old self.new }
        ensures cause { HasDiskCause meaning self.old self.new (IsErrOf result Failed) };

    /// Writes all of the bytes at the end of a file that `create` made (`write`). Until the file is synced, a crash may leave any
    /// bytes in it. A file that has been renamed takes no more: a crash might tear it under its former name.
    fn append(&mut self, name: &[u8], bytes: &[u8]) -> Result<(), DiskFault>
        requires new { meaning.keeps_promises → meaning.is_new self.old name.now }
        ensures done { meaning.keeps_promises → OnOk result (meaning.seen self.new name.now ≡ option_map (λ content. content ++ bytes.now) (meaning.seen self.old name.now)) }
        ensures new { OnOk result (meaning.is_new self.new name.now) }
        ensures changes { ChangesFile meaning name.now self.old self.new }
        ensures cause { HasDiskCause meaning self.old self.new (IsErrOf result Failed) };

    /// At `Ok`, the bytes of the file are on the disk, whoever has written them (`fsync`). Its name may not be yet. A name without a
    /// file has none to be brought there.
    ///
    /// So it is after a sync that has failed, too. Linux takes the bytes of a failed sync for written, and a later sync succeeds without
    /// them: so a disk over it answers no `Ok` to a sync once one has failed, as a [`SystemDisk`](crate::SystemDisk). That no
    /// sync of the file has failed before the disk was opened is believed.
    fn sync_file(&mut self, name: &[u8]) -> Result<(), DiskFault>
        ensures durable { OnOk result (meaning.is_whole self.new name.now) }
        ensures only { OnlyReads meaning self.old self.new }
        ensures cause { HasDiskCause meaning self.old self.new (IsErrOf result Failed) };

    /// At `Ok`, the bytes of each of the files are on the disk, as `sync_file` brings them there. In which order, or whether side by
    /// side, is the disk's affair.
    fn sync_files(&mut self, names: &[Bytes]) -> Result<(), DiskFault>
        ensures durable { OnOk result (All (meaning.is_whole self.new) names.now) }
        ensures only { OnlyReads meaning self.old self.new }
        ensures cause { HasDiskCause meaning self.old self.new (IsErrOf result Failed) }
    {
        for name in names {
            self.sync_file(name.as_slice())?;
        }
        Ok(())
    }

    /// Gives a file another name, in the place of the file that had it (`rename`). The file is on the disk under its name.
    ///
    /// A crash leaves at the new name the one file or the other, whole; and the file is not lost: while the new name has
    /// the other file, the former name has it still. POSIX says the first of a running system, and file systems with a
    /// journal keep both across a crash, since a rename is one entry of it.
    fn rename(&mut self, from: &[u8], to: &[u8]) -> Result<(), DiskFault>
        requires durable { meaning.keeps_promises → IsDurable from.now (meaning.seen self.old) (meaning.may_leave self.old) }
        requires other { from.now ≢ to.now }
        ensures done { meaning.keeps_promises → OnOk result (HasMoved from.now to.now (meaning.seen self.old) (meaning.seen self.new)) }
        ensures moved { OnOk result (meaning.is_whole self.old from.now → meaning.is_whole self.new to.now) }
        ensures moves { MovesFile meaning from.now to.now self.old self.new }
        ensures cause { HasDiskCause meaning self.old self.new (IsErrOf result Failed) };

    /// Removes a file, if the name has one (`unlink`).
    fn remove(&mut self, name: &[u8]) -> Result<(), DiskFault>
        ensures done { meaning.keeps_promises → OnOk result (meaning.seen self.new name.now ≡ None) }
        ensures removes { RemovesFile meaning name.now self.old self.new }
        ensures cause { HasDiskCause meaning self.old self.new (IsErrOf result Failed) };

    /// At `Ok`, the names are on the disk.
    fn sync_folder(&mut self) -> Result<(), DiskFault>
        ensures durable { OnOk result (Settles (meaning.seen self.old) (meaning.is_whole self.old) (meaning.may_leave self.new)) }
        ensures only { OnlyReads meaning self.old self.new }
        ensures cause { HasDiskCause meaning self.old self.new (IsErrOf result Failed) };
}
