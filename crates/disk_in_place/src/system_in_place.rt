//! A folder of the system of which a file is written over where it is.

ghost use Rattle.std.specs.Prelude.{◌≡◌, ◌++◌, ◌∷◌, ◌⊎◌, [], All, None, true, IfOk, IfNone, IfSome, IsSomeAnd, OnOk, IsErr, IsErrOf, IsTrue, IsFalse};
ghost use Rattle.files_in_place.specs.declared.faults.DiskFault.TheVariants.{Failed};
ghost use Rattle.files_in_place.specs.Disk.{HasCause};
ghost use Rattle.files_in_place.specs.System.{CannotBegin, IsNoEntry, OneIsNoEntry, IsRefused, HasNoFile, HasFile, HasNoRegularFile, HasNoBytes, HasRead, HasReadNames, HasSynced, HasMade, HasSyncedFolder, HasAppended, IsSyncMarked};
ghost use Rattle.disk_in_place.specs.SystemInPlace.{HasWrittenOver, HasSyncedOver};

use crate::calls::SystemCallsInPlace;
use crate::disk::DiskInPlace;
use crate::opened_file::{OpenedFile, reach};
use byte_io::{Bytes, Failures};
use files_in_place::{Disk, DiskFault, SystemDisk};
use std::alloc::{AllocError, Global};
use std::marker::Model;

/// A folder of the system of which one file at a time is written over where it is. It is opened at the first write, and kept open
/// until another file is written over or a name changes.
///
/// Each answer is one that the system has given, as that of a [`SystemDisk`]: `Ok` of a write where the system has taken all of the
/// bytes into the file that the name means, `Ok` of a sync where it has brought that file to the disk since, a failure where it
/// refused a call. That is proved for every [`SystemCallsInPlace`]. After a sync has failed each later one does, as a [`SystemDisk`] has it.
///
/// No contract knows what a file of the system holds. So `keeps_promises` is claimed of no folder of the system, as of a
/// [`SystemDisk`].
#[derive(Drop)]
pub struct SystemDiskInPlace<R: SystemCallsInPlace + Drop> {
    disk: SystemDisk<R>,
    rt: R,
    alloc: Global,
    // The folder's path, ended by a slash.
    path: String,
    // The file that was written over last.
    opened: Option<OpenedFile<R>>,
    // How often a write over a file has failed, for contracts.
    failures: Failures,
}

impl<R: SystemCallsInPlace + Drop> Model for SystemDiskInPlace<R> {
    ghost use Rattle.std.specs.Prelude.{◌≡◌, ◌+◌, ◌++◌, IfSome, option_map, string_bytes};
    ghost use Rattle.disk_in_place.specs.SystemInPlace.{SystemFolderInPlace};

    ghost Value = { SystemFolderInPlace R.File };

    ghost view = { λ d. record {
      path = string_bytes d.path;
      opened = option_map (λ o. record { name = o.name; file = o.file }) d.opened;
      has_failed_sync = d.disk.has_failed_sync;
      failures = d.disk.failures + d.failures;
    } };

    ghost invariant = { λ d. (d.disk.path ≡ string_bytes d.path) × IfSome d.opened (λ o. R.answers.is_at o.file (string_bytes d.path ++ o.name)) };
}

impl<R: SystemCallsInPlace + Drop> SystemDiskInPlace<R> {
    /// The folder of a disk, whose path this is. No file of it is open to be written over yet. An error where memory is refused.
    pub fn new(
        disk: SystemDisk<R>,
        rt: R,
        alloc: Global,
        path: &str,
    ) -> Result<SystemDiskInPlace<R>, AllocError>
        requires path { disk.path ≡ path.now ++ 47 ∷ [] }
        ensures path { IfOk result (λ placed. placed.path ≡ disk.path) }
        ensures failures { IfOk result (λ placed. placed.failures ≡ disk.failures) }
        ensures opened { IfOk result (λ placed. placed.opened ≡ None) }
        ensures syncs { IfOk result (λ placed. placed.has_failed_sync ≡ disk.has_failed_sync) }
    {
        let path = format!(in alloc; "{path}/")?;
        Ok(SystemDiskInPlace {
            disk,
            rt,
            alloc,
            path,
            opened: None,
            failures: Failures::none(),
        })
    }

    // Counts a failure of a write over a file.
    fn told(&mut self, outcome: Result<(), DiskFault>) -> Result<(), DiskFault>
        ensures same { result ≡ outcome }
        ensures folder { self.new.path ≡ self.old.path }
        ensures syncs { self.new.has_failed_sync ≡ self.old.has_failed_sync }
        ensures opened { self.new.opened ≡ self.old.opened }
        ensures cause { HasCause self.old.failures self.new.failures (IsErrOf result Failed) }
    {
        match outcome {
            Ok(()) => Ok(()),
            Err(DiskFault::NoMemory) => Err(DiskFault::NoMemory),
            Err(DiskFault::Failed) => {
                self.failures.count();
                Err(DiskFault::Failed)
            }
        }
    }

    // Counts a failure of a sync over a file, and has each later sync fail.
    fn told_of_sync(&mut self, outcome: Result<(), DiskFault>) -> Result<(), DiskFault>
        ensures same { result ≡ outcome }
        ensures folder { self.new.path ≡ self.old.path }
        ensures opened { self.new.opened ≡ self.old.opened }
        ensures failed { IsErr result → self.new.has_failed_sync ≡ true }
        ensures synced { OnOk result (self.new.has_failed_sync ≡ self.old.has_failed_sync) }
        ensures cause { HasCause self.old.failures self.new.failures (IsErrOf result Failed) }
    {
        if outcome.is_err() {
            self.disk.fail_syncs();
        }
        self.told(outcome)
    }
}

impl<R: SystemCallsInPlace + Drop> SystemDiskInPlace<R> {
    // Writes over bytes of the file of the name.
    fn write_over(&mut self, name: &[u8], offset: u64, bytes: &[u8]) -> Result<(), DiskFault>
        ensures folder { self.new.path ≡ self.old.path }
        ensures syncs { self.new.has_failed_sync ≡ self.old.has_failed_sync }
        ensures failures { self.new.failures ≡ self.old.failures }
        ensures written { OnOk result (IsSomeAnd self.new.opened
            (HasWrittenOver R.answers R.answers_in_place self.old.path name.now offset bytes.now self.old.opened)) }
        ensures failed { IsErrOf result Failed → IsNoEntry name.now ⊎ HasNoRegularFile R.answers (self.old.path ++ name.now) ⊎ IsRefused R.answers }
    {
        let opened = self.opened.take();
        let mut reached = reach(&self.rt, self.alloc, self.path.as_str(), opened, name)?;
        let outcome = reached.write_over(&self.rt, offset, bytes);
        self.opened = Some(reached);
        outcome
    }

    // Brings the bytes of the file of the name to the disk.
    fn sync_over(&mut self, name: &[u8]) -> Result<(), DiskFault>
        ensures folder { self.new.path ≡ self.old.path }
        ensures syncs { self.new.has_failed_sync ≡ self.old.has_failed_sync }
        ensures failures { self.new.failures ≡ self.old.failures }
        ensures synced { OnOk result (IsSomeAnd self.new.opened
            (HasSyncedOver R.answers R.answers_in_place self.old.path name.now self.old.opened)) }
        ensures failed { IsErrOf result Failed → IsNoEntry name.now ⊎ HasNoRegularFile R.answers (self.old.path ++ name.now) ⊎ IsRefused R.answers }
    {
        let opened = self.opened.take();
        let reached = reach(&self.rt, self.alloc, self.path.as_str(), opened, name)?;
        let outcome = reached.sync_data(&self.rt);
        self.opened = Some(reached);
        outcome
    }
}

impl<R: SystemCallsInPlace + Drop> Disk for SystemDiskInPlace<R> {
    ghost use Rattle.files_in_place.specs.Disk.{nothing_promised};

    ghost meaning = { nothing_promised (λ d. d.failures) };

    fn read(&mut self, alloc: Global, name: &[u8]) -> Result<Option<Bytes>, DiskFault>
        ensures cause { HasCause self.old.failures self.new.failures (IsErrOf result Failed) }
        ensures folder { self.new.path ≡ self.old.path }
        ensures syncs { self.new.has_failed_sync ≡ self.old.has_failed_sync }
        ensures opened { self.new.opened ≡ self.old.opened }
        ensures none { IfOk result (λ content. IfNone content (HasNoFile R.answers (self.old.path ++ name.now))) }
        ensures bytes { IfOk result (λ content. IfSome content (λ bytes. HasRead R.answers (self.old.path ++ name.now) bytes)) }
        ensures failed { IsErrOf result Failed → IsNoEntry name.now ⊎ HasNoRegularFile R.answers (self.old.path ++ name.now) ⊎ IsRefused R.answers }
    {
        self.disk.read(alloc, name)
    }

    fn has(&mut self, name: &[u8]) -> Result<bool, DiskFault>
        ensures cause { HasCause self.old.failures self.new.failures (IsErrOf result Failed) }
        ensures folder { self.new.path ≡ self.old.path }
        ensures syncs { self.new.has_failed_sync ≡ self.old.has_failed_sync }
        ensures opened { self.new.opened ≡ self.old.opened }
        ensures there { IfOk result (λ found. IsTrue found → HasFile R.answers (self.old.path ++ name.now)) }
        ensures none { IfOk result (λ found. IsFalse found → HasNoFile R.answers (self.old.path ++ name.now)) }
        ensures failed { IsErrOf result Failed → IsNoEntry name.now ⊎ IsRefused R.answers }
    {
        self.disk.has(name)
    }

    fn list(&mut self, alloc: Global) -> Result<Vec<Bytes>, DiskFault>
        ensures cause { HasCause self.old.failures self.new.failures (IsErrOf result Failed) }
        ensures folder { self.new.path ≡ self.old.path }
        ensures syncs { self.new.has_failed_sync ≡ self.old.has_failed_sync }
        ensures opened { self.new.opened ≡ self.old.opened }
        ensures all { OnOk result (HasReadNames R.answers self.old.path) }
    {
        self.disk.list(alloc)
    }

    fn create(&mut self, name: &[u8]) -> Result<(), DiskFault>
        ensures cause { HasCause self.old.failures self.new.failures (IsErrOf result Failed) }
        ensures folder { self.new.path ≡ self.old.path }
        ensures syncs { self.new.has_failed_sync ≡ self.old.has_failed_sync }
        ensures closed { self.new.opened ≡ None }
        ensures made { OnOk result (HasMade R.answers self.old.path name.now) }
        ensures failed { IsErrOf result Failed → CannotBegin R.answers self.old.path name.now ⊎ IsRefused R.answers }
    {
        self.opened = None;
        self.disk.create(name)
    }

    fn append(&mut self, name: &[u8], bytes: &[u8]) -> Result<(), DiskFault>
        ensures cause { HasCause self.old.failures self.new.failures (IsErrOf result Failed) }
        ensures folder { self.new.path ≡ self.old.path }
        ensures syncs { self.new.has_failed_sync ≡ self.old.has_failed_sync }
        ensures opened { self.new.opened ≡ self.old.opened }
        ensures written { OnOk result (HasAppended R.answers R.File.contents (self.old.path ++ name.now) bytes.now) }
    {
        self.disk.append(name, bytes)
    }

    fn sync_file(&mut self, name: &[u8]) -> Result<(), DiskFault>
        ensures cause { HasCause self.old.failures self.new.failures (IsErrOf result Failed) }
        ensures folder { self.new.path ≡ self.old.path }
        ensures syncs { IsSyncMarked self.old.has_failed_sync self.new.has_failed_sync result }
        ensures opened { self.new.opened ≡ self.old.opened }
        ensures synced { OnOk result (HasSynced R.answers (self.old.path ++ name.now) ⊎ HasNoBytes R.answers (self.old.path ++ name.now)) }
        ensures failed { IsErrOf result Failed → (self.old.has_failed_sync ≡ true) ⊎ IsNoEntry name.now ⊎ IsRefused R.answers }
    {
        self.disk.sync_file(name)
    }

    fn sync_files(&mut self, names: &[Bytes]) -> Result<(), DiskFault>
        ensures cause { HasCause self.old.failures self.new.failures (IsErrOf result Failed) }
        ensures folder { self.new.path ≡ self.old.path }
        ensures syncs { IsSyncMarked self.old.has_failed_sync self.new.has_failed_sync result }
        ensures opened { self.new.opened ≡ self.old.opened }
        ensures synced { OnOk result (All (λ name. HasSynced R.answers (self.old.path ++ name) ⊎ HasNoBytes R.answers (self.old.path ++ name)) names.now) }
        ensures failed { IsErrOf result Failed → (self.old.has_failed_sync ≡ true) ⊎ OneIsNoEntry names.now ⊎ IsRefused R.answers }
    {
        self.disk.sync_files(names)
    }

    fn rename(&mut self, from: &[u8], to: &[u8]) -> Result<(), DiskFault>
        ensures cause { HasCause self.old.failures self.new.failures (IsErrOf result Failed) }
        ensures folder { self.new.path ≡ self.old.path }
        ensures syncs { self.new.has_failed_sync ≡ self.old.has_failed_sync }
        ensures closed { self.new.opened ≡ None }
        ensures renamed { OnOk result (R.answers.renames (self.old.path ++ from.now) (self.old.path ++ to.now)) }
        ensures failed { IsErrOf result Failed → IsNoEntry from.now ⊎ IsNoEntry to.now ⊎ IsRefused R.answers }
    {
        self.opened = None;
        self.disk.rename(from, to)
    }

    fn remove(&mut self, name: &[u8]) -> Result<(), DiskFault>
        ensures cause { HasCause self.old.failures self.new.failures (IsErrOf result Failed) }
        ensures folder { self.new.path ≡ self.old.path }
        ensures syncs { self.new.has_failed_sync ≡ self.old.has_failed_sync }
        ensures closed { self.new.opened ≡ None }
        ensures removed { OnOk result (R.answers.removes (self.old.path ++ name.now) ⊎ HasNoFile R.answers (self.old.path ++ name.now)) }
        ensures failed { IsErrOf result Failed → IsNoEntry name.now ⊎ IsRefused R.answers }
    {
        self.opened = None;
        self.disk.remove(name)
    }

    fn sync_folder(&mut self) -> Result<(), DiskFault>
        ensures cause { HasCause self.old.failures self.new.failures (IsErrOf result Failed) }
        ensures folder { self.new.path ≡ self.old.path }
        ensures syncs { IsSyncMarked self.old.has_failed_sync self.new.has_failed_sync result }
        ensures opened { self.new.opened ≡ self.old.opened }
        ensures synced { OnOk result (HasSyncedFolder R.answers self.old.path) }
        ensures failed { IsErrOf result Failed → (self.old.has_failed_sync ≡ true) ⊎ IsRefused R.answers }
    {
        self.disk.sync_folder()
    }
}

impl<R: SystemCallsInPlace + Drop> DiskInPlace for SystemDiskInPlace<R> {
    fn write_at(&mut self, name: &[u8], offset: u64, bytes: &[u8]) -> Result<(), DiskFault>
        ensures cause { HasCause self.old.failures self.new.failures (IsErrOf result Failed) }
        ensures folder { self.new.path ≡ self.old.path }
        ensures syncs { self.new.has_failed_sync ≡ self.old.has_failed_sync }
        ensures written { OnOk result (IsSomeAnd self.new.opened
            (HasWrittenOver R.answers R.answers_in_place self.old.path name.now offset bytes.now self.old.opened)) }
        ensures failed { IsErrOf result Failed → IsNoEntry name.now ⊎ HasNoRegularFile R.answers (self.old.path ++ name.now) ⊎ IsRefused R.answers }
    {
        let outcome = self.write_over(name, offset, bytes);
        self.told(outcome)
    }

    fn sync_in_place(&mut self, name: &[u8]) -> Result<(), DiskFault>
        ensures cause { HasCause self.old.failures self.new.failures (IsErrOf result Failed) }
        ensures folder { self.new.path ≡ self.old.path }
        ensures syncs { IsSyncMarked self.old.has_failed_sync self.new.has_failed_sync result }
        ensures synced { OnOk result (IsSomeAnd self.new.opened
            (HasSyncedOver R.answers R.answers_in_place self.old.path name.now self.old.opened)) }
        ensures failed { IsErrOf result Failed → (self.old.has_failed_sync ≡ true) ⊎ IsNoEntry name.now ⊎ HasNoRegularFile R.answers (self.old.path ++ name.now) ⊎ IsRefused R.answers }
    {
        if self.disk.has_failed_sync() {
            return self.told(Err(DiskFault::Failed));
        }
        let outcome = self.sync_over(name);
        self.told_of_sync(outcome)
    }
}
