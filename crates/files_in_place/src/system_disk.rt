//! A folder of the system.

ghost use Rattle.std.specs.Prelude.{◌≡◌, ◌++◌, ◌∷◌, ◌⊎◌, [], All, true, false, None, Some, IfOk, OnOk, IfNone, IfSome, IsErr, IsErrOf, IsTrue, IsFalse};
ghost use Rattle.files_in_place.specs.declared.faults.DiskFault.TheVariants.{Failed};
ghost use Rattle.files_in_place.specs.declared.folder_lock.LockFault.TheVariants as Lock;
ghost use Rattle.files_in_place.specs.Disk.{HasCause};
ghost use Rattle.files_in_place.specs.System.{CannotBegin, IsNoEntry, OneIsNoEntry, IsRefused, LeadsToNoFolder, HasNoFile, HasFile, HasNoRegularFile, HasNoBytes, HasRead, HasReadNames, HasSynced, HasMade, HasLocked, IsInUse, HasSyncedFolder, HasAppended, IsSyncMarked};

use crate::calls::SystemCalls;
use crate::disk::Disk;
use crate::faults::DiskFault;
use crate::folder_lock::{LockFault, lock};
use crate::system_calls::{
    folder_names, has_file, open_folder, read_file, remove_file, rename_file,
};
use crate::system_file::{SystemFile, append_to, is_current, sync_once};
use crate::system_syncs::{sync_each, sync_found, sync_open};
use byte_io::{Bytes, Failures};
use std::alloc::Global;
use std::marker::Model;

/// A folder of the system, which exists, and which no other run has meanwhile. Its files are those whose names are UTF-8; a link is a file, and a folder is none.
/// A file is made where its name has nothing, and takes bytes until it is synced or another one is made; a rename replaces a link, and not what
/// it leads to. A call that a signal interrupts is made again, and a short write goes on.
///
/// After a sync has failed the disk refuses each later one, of a file or of the folder, without asking the system: on Linux a sync that succeeds
/// after one that failed tells nothing of the bytes that the failed one was to bring to the disk.
///
/// Each answer is one that the system has given: `Ok` where it said so of the file that the name means, a failure where it
/// refused a call. That is proved for every [`SystemCalls`].
///
/// No contract knows what a file of the system holds. So `keeps_promises` is claimed of no folder of the system, and the
/// clauses that stand under it say nothing here, as a sink's do where nothing is known of what it has taken. What is
/// proved of every [`Disk`] holds of a folder of the system as far as it keeps the promises that the calls of [`Disk`]
/// name.
#[derive(Drop)]
pub struct SystemDisk<R: SystemCalls + Drop> {
    rt: R,
    alloc: Global,
    // Its path, ended by a slash.
    path: String,
    // The folder itself, locked, and opened to be synced.
    folder: R::File,
    // The file created last, until it is synced or a name changes.
    current: Option<SystemFile<R>>,
    // Whether a sync has failed.
    has_failed_sync: bool,
    // How often the disk has failed, for contracts.
    failures: Failures,
}

impl<R: SystemCalls + Drop> Model for SystemDisk<R> {
    ghost use Rattle.std.specs.Prelude.{IfSome, option_map, string_bytes};
    ghost use Rattle.files_in_place.specs.System.{SystemFolder, IsLockedFolder, IsMadeUnder};

    ghost Value = { SystemFolder };

    ghost view = { λ d. record {
      path = string_bytes d.path;
      current = option_map (λ c. c.name) d.current;
      has_failed_sync = d.has_failed_sync;
      failures = d.failures;
    } };

    ghost invariant = { λ d. IsLockedFolder R.answers (string_bytes d.path) d.folder × IfSome d.current (λ c. IsMadeUnder R.answers (string_bytes d.path) c.name c.file) };
}

impl<R: SystemCalls + Drop> SystemDisk<R> {
    /// Opens the folder of a path and locks it (`flock`), without waiting. As long as the disk is there no other one of the
    /// folder is opened, in this program or in another; the lock ends with it, or with the program, however that ends.
    ///
    /// `InUse` where another disk has the folder; `NoMemory` where memory is refused; `Failed` where there is no folder, or the
    /// system doesn't open it or gives no lock on it.
    pub fn open(rt: R, alloc: Global, path: &str) -> Result<SystemDisk<R>, LockFault>
        ensures path { IfOk result (λ disk. disk.path ≡ path.now ++ 47 ∷ []) }
        ensures failures { IfOk result (λ disk. disk.failures ≡ 0) }
        ensures believed { IfOk result (λ disk. disk.has_failed_sync ≡ false) }
        ensures locked { OnOk result (HasLocked R.answers path.now) }
        ensures in_use { IsErrOf result Lock.InUse → IsInUse R.answers path.now }
        ensures failed { IsErrOf result Lock.Failed → LeadsToNoFolder R.answers path.now ⊎ IsRefused R.answers }
    {
        let folder = open_folder(&rt, path)?;
        lock(&rt, &folder)?;
        let path = format!(in alloc; "{path}/")?;
        Ok(SystemDisk {
            rt,
            alloc,
            path,
            folder,
            current: None,
            has_failed_sync: false,
            failures: Failures::none(),
        })
    }

    /// Whether a sync has failed. Then each later one does.
    pub fn has_failed_sync(&self) -> bool
        ensures value { result ≡ self.now.has_failed_sync }
    {
        self.has_failed_sync
    }

    /// Has each later sync fail, where one of a file of the folder has failed that this disk has not made.
    pub fn fail_syncs(&mut self)
        ensures marked { self.new.has_failed_sync ≡ true }
        ensures folder { self.new.path ≡ self.old.path }
        ensures current { self.new.current ≡ self.old.current }
        ensures failures { self.new.failures ≡ self.old.failures }
    {
        self.has_failed_sync = true;
    }
}

impl<R: SystemCalls + Drop> SystemDisk<R> {
    // Counts a failure of the disk.
    fn told<T: Drop>(&mut self, outcome: Result<T, DiskFault>) -> Result<T, DiskFault>
        ensures same { result ≡ outcome }
        ensures folder { self.new.path ≡ self.old.path }
        ensures current { self.new.current ≡ self.old.current }
        ensures syncs { self.new.has_failed_sync ≡ self.old.has_failed_sync }
        ensures cause { HasCause self.old.failures self.new.failures (IsErrOf result Failed) }
    {
        match outcome {
            Ok(value) => Ok(value),
            Err(DiskFault::NoMemory) => Err(DiskFault::NoMemory),
            Err(DiskFault::Failed) => {
                self.failures.count();
                Err(DiskFault::Failed)
            }
        }
    }

    // Counts a failure of the disk at a sync, and remembers that one has failed.
    fn told_of_sync(&mut self, outcome: Result<(), DiskFault>) -> Result<(), DiskFault>
        ensures same { result ≡ outcome }
        ensures folder { self.new.path ≡ self.old.path }
        ensures current { self.new.current ≡ self.old.current }
        ensures failed { IsErr result → self.new.has_failed_sync ≡ true }
        ensures synced { OnOk result (self.new.has_failed_sync ≡ self.old.has_failed_sync) }
        ensures cause { HasCause self.old.failures self.new.failures (IsErrOf result Failed) }
    {
        if outcome.is_err() {
            self.has_failed_sync = true;
        }
        self.told(outcome)
    }
}

impl<R: SystemCalls + Drop> Disk for SystemDisk<R> {
    ghost use Rattle.files_in_place.specs.Disk.{nothing_promised};

    ghost meaning = { nothing_promised (λ d. d.failures) };

    fn read(&mut self, alloc: Global, name: &[u8]) -> Result<Option<Bytes>, DiskFault>
        ensures cause { HasCause self.old.failures self.new.failures (IsErrOf result Failed) }
        ensures folder { self.new.path ≡ self.old.path }
        ensures current { self.new.current ≡ self.old.current }
        ensures syncs { self.new.has_failed_sync ≡ self.old.has_failed_sync }
        ensures none { IfOk result (λ content. IfNone content (HasNoFile R.answers (self.old.path ++ name.now))) }
        ensures bytes { IfOk result (λ content. IfSome content (λ bytes. HasRead R.answers (self.old.path ++ name.now) bytes)) }
        ensures failed { IsErrOf result Failed → IsNoEntry name.now ⊎ HasNoRegularFile R.answers (self.old.path ++ name.now) ⊎ IsRefused R.answers }
    {
        let outcome = read_file(&self.rt, alloc, self.path.as_str(), name);
        self.told(outcome)
    }

    fn has(&mut self, name: &[u8]) -> Result<bool, DiskFault>
        ensures cause { HasCause self.old.failures self.new.failures (IsErrOf result Failed) }
        ensures folder { self.new.path ≡ self.old.path }
        ensures current { self.new.current ≡ self.old.current }
        ensures syncs { self.new.has_failed_sync ≡ self.old.has_failed_sync }
        ensures there { IfOk result (λ found. IsTrue found → HasFile R.answers (self.old.path ++ name.now)) }
        ensures none { IfOk result (λ found. IsFalse found → HasNoFile R.answers (self.old.path ++ name.now)) }
        ensures failed { IsErrOf result Failed → IsNoEntry name.now ⊎ IsRefused R.answers }
    {
        let outcome = has_file(&self.rt, self.alloc, self.path.as_str(), name);
        self.told(outcome)
    }

    fn list(&mut self, alloc: Global) -> Result<Vec<Bytes>, DiskFault>
        ensures cause { HasCause self.old.failures self.new.failures (IsErrOf result Failed) }
        ensures folder { self.new.path ≡ self.old.path }
        ensures current { self.new.current ≡ self.old.current }
        ensures syncs { self.new.has_failed_sync ≡ self.old.has_failed_sync }
        ensures all { OnOk result (HasReadNames R.answers self.old.path) }
    {
        let outcome = folder_names(&self.rt, alloc, self.path.as_str());
        self.told(outcome)
    }

    fn create(&mut self, name: &[u8]) -> Result<(), DiskFault>
        ensures cause { HasCause self.old.failures self.new.failures (IsErrOf result Failed) }
        ensures folder { self.new.path ≡ self.old.path }
        ensures current { OnOk result (self.new.current ≡ Some name.now) }
        ensures syncs { self.new.has_failed_sync ≡ self.old.has_failed_sync }
        ensures made { OnOk result (HasMade R.answers self.old.path name.now) }
        ensures failed { IsErrOf result Failed → CannotBegin R.answers self.old.path name.now ⊎ IsRefused R.answers }
    {
        let outcome = SystemFile::create(&self.rt, self.alloc, self.path.as_str(), name);
        let made = self.told(outcome)?;
        self.current = Some(made);
        Ok(())
    }

    fn append(&mut self, name: &[u8], bytes: &[u8]) -> Result<(), DiskFault>
        ensures cause { HasCause self.old.failures self.new.failures (IsErrOf result Failed) }
        ensures folder { self.new.path ≡ self.old.path }
        ensures syncs { self.new.has_failed_sync ≡ self.old.has_failed_sync }
        ensures written { OnOk result (HasAppended R.answers R.File.contents (self.old.path ++ name.now) bytes.now) }
    {
        let outcome = append_to(&self.rt, &mut self.current, name, bytes);
        self.told(outcome)
    }

    fn sync_file(&mut self, name: &[u8]) -> Result<(), DiskFault>
        ensures cause { HasCause self.old.failures self.new.failures (IsErrOf result Failed) }
        ensures folder { self.new.path ≡ self.old.path }
        ensures syncs { IsSyncMarked self.old.has_failed_sync self.new.has_failed_sync result }
        ensures synced { OnOk result (HasSynced R.answers (self.old.path ++ name.now) ⊎ HasNoBytes R.answers (self.old.path ++ name.now)) }
        ensures failed { IsErrOf result Failed → (self.old.has_failed_sync ≡ true) ⊎ IsNoEntry name.now ⊎ IsRefused R.answers }
    {
        if self.has_failed_sync {
            return self.told(Err(DiskFault::Failed));
        }
        let outcome = if is_current(&self.current, name) {
            sync_once(&self.rt, self.current.take(), name)
        } else {
            sync_found(&self.rt, self.alloc, self.path.as_str(), name)
        };
        self.told_of_sync(outcome)
    }

    // The file created last is closed, and takes no more bytes.
    fn sync_files(&mut self, names: &[Bytes]) -> Result<(), DiskFault>
        ensures cause { HasCause self.old.failures self.new.failures (IsErrOf result Failed) }
        ensures folder { self.new.path ≡ self.old.path }
        ensures syncs { IsSyncMarked self.old.has_failed_sync self.new.has_failed_sync result }
        ensures synced { OnOk result (All (λ name. HasSynced R.answers (self.old.path ++ name) ⊎ HasNoBytes R.answers (self.old.path ++ name)) names.now) }
        ensures failed { IsErrOf result Failed → (self.old.has_failed_sync ≡ true) ⊎ OneIsNoEntry names.now ⊎ IsRefused R.answers }
    {
        if self.has_failed_sync {
            return self.told(Err(DiskFault::Failed));
        }
        self.current = None;
        let outcome = sync_each(&self.rt, self.alloc, self.path.as_str(), names);
        self.told_of_sync(outcome)
    }

    fn rename(&mut self, from: &[u8], to: &[u8]) -> Result<(), DiskFault>
        ensures cause { HasCause self.old.failures self.new.failures (IsErrOf result Failed) }
        ensures folder { self.new.path ≡ self.old.path }
        ensures closed { self.new.current ≡ None }
        ensures syncs { self.new.has_failed_sync ≡ self.old.has_failed_sync }
        ensures renamed { OnOk result (R.answers.renames (self.old.path ++ from.now) (self.old.path ++ to.now)) }
        ensures failed { IsErrOf result Failed → IsNoEntry from.now ⊎ IsNoEntry to.now ⊎ IsRefused R.answers }
    {
        self.current = None;
        let outcome = rename_file(&self.rt, self.alloc, self.path.as_str(), from, to);
        self.told(outcome)
    }

    fn remove(&mut self, name: &[u8]) -> Result<(), DiskFault>
        ensures cause { HasCause self.old.failures self.new.failures (IsErrOf result Failed) }
        ensures folder { self.new.path ≡ self.old.path }
        ensures closed { self.new.current ≡ None }
        ensures syncs { self.new.has_failed_sync ≡ self.old.has_failed_sync }
        ensures removed { OnOk result (R.answers.removes (self.old.path ++ name.now) ⊎ HasNoFile R.answers (self.old.path ++ name.now)) }
        ensures failed { IsErrOf result Failed → IsNoEntry name.now ⊎ IsRefused R.answers }
    {
        self.current = None;
        let outcome = remove_file(&self.rt, self.alloc, self.path.as_str(), name);
        self.told(outcome)
    }

    fn sync_folder(&mut self) -> Result<(), DiskFault>
        ensures cause { HasCause self.old.failures self.new.failures (IsErrOf result Failed) }
        ensures folder { self.new.path ≡ self.old.path }
        ensures current { self.new.current ≡ self.old.current }
        ensures syncs { IsSyncMarked self.old.has_failed_sync self.new.has_failed_sync result }
        ensures synced { OnOk result (HasSyncedFolder R.answers self.old.path) }
        ensures failed { IsErrOf result Failed → (self.old.has_failed_sync ≡ true) ⊎ IsRefused R.answers }
    {
        if self.has_failed_sync {
            return self.told(Err(DiskFault::Failed));
        }
        let outcome = sync_open(&self.rt, &self.folder);
        self.told_of_sync(outcome)
    }
}
