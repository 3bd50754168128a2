//! A folder in memory, as a disk.

ghost use Rattle.std.specs.Prelude.{◌≡◌, ◌∷◌, [], false, Some, IsErrOf, OnOk, OnErr, IfOk};
ghost use Rattle.files_in_place.specs.declared.faults.DiskFault.TheVariants.{Failed};
ghost use Rattle.files_in_place.specs.Folder.{SameBut, is_reserved};
ghost use Rattle.files_in_place.specs.Disk.{HasCause, IsSynced};
ghost use Rattle.files_in_place.specs.Recovery.{IsClean};
ghost use Rattle.memory_disk.specs.Seen.{seen_after};
ghost use Rattle.memory_disk.specs.Outcomes.{IsWhole, MayLeave};

use crate::crash::edits::{push_call, put_file};
use crate::crash::{left_by_crash, settle};
use crate::disk_call::DiskCall;
use crate::seen_files::{content_of, names_of};
use byte_io::{Bytes, Failures};
use disk_in_place::DiskInPlace;
use files_in_place::{Disk, DiskFault};
use std::alloc::{AllocError, Global};
use std::marker::Model;

/// A folder in memory, which keeps each promise of [`Disk`] and of [`DiskInPlace`]. Contracts see it as the calls that it has done, the latest
/// first, and how often it has failed.
///
/// Its calls are all done, until [`MemoryDisk::allow`] or [`MemoryDisk::fail_once`] says otherwise. A call that fails
/// changes nothing; it fails with `Failed`, and with `NoMemory` where memory is refused.
#[derive(Drop)]
pub struct MemoryDisk {
    alloc: Global,
    // The latest first.
    calls: Vec<DiskCall>,
    // How many calls more are done before one fails.
    calls_left: u64,
    // Whether the calls after the one that fails are done again.
    fails_once: bool,
    failures: Failures,
}

impl Model for MemoryDisk {
    ghost use Rattle.memory_disk.specs.Seen.{DiskHistory};

    ghost Value = { DiskHistory };

    ghost view = { λ d. record { calls = d.calls.items; failures = d.failures } };
}

impl MemoryDisk {
    // A folder that the calls have made.
    fn of_calls(alloc: Global, calls: Vec<DiskCall>) -> MemoryDisk
        ensures calls { result.calls ≡ calls.items }
        ensures failures { result.failures ≡ 0 }
    {
        MemoryDisk {
            alloc,
            calls,
            calls_left: u64::MAX,
            fails_once: false,
            failures: Failures::none(),
        }
    }

    /// A folder without files. Takes no memory.
    pub fn new(alloc: Global) -> MemoryDisk
        ensures calls { result.calls ≡ [] }
        ensures failures { result.failures ≡ 0 }
    {
        MemoryDisk::of_calls(alloc, Vec::new(alloc))
    }

    /// The folder with this file in it, in place of the one that has the name, and with all that is seen on the disk. Its
    /// calls are all done, and none has failed. An error where memory is refused.
    pub fn with_file(self, name: &[u8], bytes: &[u8]) -> Result<MemoryDisk, AllocError>
        ensures put { IfOk result (λ disk. seen_after disk.calls name.now ≡ Some bytes.now) }
        ensures others { IfOk result (λ disk. SameBut name.now (seen_after self.calls) (seen_after disk.calls)) }
        ensures clean { IfOk result (λ disk. is_reserved name.now ≡ false → IsClean (seen_after self.calls) → IsClean (seen_after disk.calls)) }
        ensures synced { IfOk result (λ disk. IsSynced (seen_after disk.calls) (IsWhole disk.calls) (MayLeave disk.calls)) }
    {
        let alloc = self.alloc;
        let mut calls = self.calls;
        put_file(alloc, &mut calls, name, bytes)?;
        settle(alloc, &mut calls)?;
        Ok(MemoryDisk::of_calls(alloc, calls))
    }

    /// From now on so many calls are done, and then all fail.
    pub fn allow(&mut self, calls: u64)
        ensures same { self.new ≡ self.old }
    {
        self.calls_left = calls;
        self.fails_once = false;
    }

    /// From now on so many calls are done, then one fails, and then all are done.
    pub fn fail_once(&mut self, calls: u64)
        ensures same { self.new ≡ self.old }
    {
        self.calls_left = calls;
        self.fails_once = true;
    }

    /// A folder that a crash at this moment may leave, by a number that stands for all choices: two numbers may give the
    /// same. All of it is on the disk, its calls are all done, and none has failed. An error where memory is refused.
    pub fn left(&self, choices: u64) -> Result<MemoryDisk, AllocError>
        ensures may { IfOk result (λ disk. MayLeave self.now.calls (seen_after disk.calls)) }
        ensures synced { IfOk result (λ disk. IsSynced (seen_after disk.calls) (IsWhole disk.calls) (MayLeave disk.calls)) }
    {
        let mut choices = choices;
        let mut calls = left_by_crash(self.alloc, &self.calls, &mut choices)?;
        settle(self.alloc, &mut calls)?;
        Ok(MemoryDisk::of_calls(self.alloc, calls))
    }

    // One call less is left.
    fn spend_call(&mut self) -> Result<(), DiskFault>
        ensures cause { HasCause self.old.failures self.new.failures (IsErrOf result Failed) }
        ensures same { self.new.calls ≡ self.old.calls }
    {
        if self.calls_left > 0 {
            self.calls_left -= 1;
            return Ok(());
        }
        if self.fails_once {
            self.allow(u64::MAX);
        }
        self.failures.count();
        Err(DiskFault::Failed)
    }

    // Does a call.
    fn do_call(&mut self, call: DiskCall) -> Result<(), DiskFault>
        ensures done { OnOk result (self.new.calls ≡ call ∷ self.old.calls) }
        ensures undone { OnErr result (self.new.calls ≡ self.old.calls) }
        ensures cause { HasCause self.old.failures self.new.failures (IsErrOf result Failed) }
    {
        self.spend_call()?;
        push_call(&mut self.calls, call)?;
        Ok(())
    }
}

impl Disk for MemoryDisk {
    ghost use Rattle.memory_disk.specs.Laws.{memory_meaning};

    ghost meaning = { memory_meaning };

    fn read(&mut self, alloc: Global, name: &[u8]) -> Result<Option<Bytes>, DiskFault> {
        self.spend_call()?;
        let content = content_of(alloc, &self.calls, name)?;
        Ok(content)
    }

    fn has(&mut self, name: &[u8]) -> Result<bool, DiskFault> {
        self.spend_call()?;
        let content = content_of(self.alloc, &self.calls, name)?;
        Ok(content.is_some())
    }

    fn list(&mut self, alloc: Global) -> Result<Vec<Bytes>, DiskFault> {
        self.spend_call()?;
        let names = names_of(alloc, &self.calls)?;
        Ok(names)
    }

    fn create(&mut self, name: &[u8]) -> Result<(), DiskFault> {
        let name = Bytes::from_slice(self.alloc, name)?;
        self.do_call(DiskCall::Create(name))?;
        Ok(())
    }

    fn append(&mut self, name: &[u8], bytes: &[u8]) -> Result<(), DiskFault> {
        let name = Bytes::from_slice(self.alloc, name)?;
        let bytes = Bytes::from_slice(self.alloc, bytes)?;
        self.do_call(DiskCall::Append(name, bytes))?;
        Ok(())
    }

    fn sync_file(&mut self, name: &[u8]) -> Result<(), DiskFault> {
        let name = Bytes::from_slice(self.alloc, name)?;
        self.do_call(DiskCall::SyncFile(name))?;
        Ok(())
    }

    fn rename(&mut self, from: &[u8], to: &[u8]) -> Result<(), DiskFault> {
        let from = Bytes::from_slice(self.alloc, from)?;
        let to = Bytes::from_slice(self.alloc, to)?;
        self.do_call(DiskCall::Rename(from, to))?;
        Ok(())
    }

    fn remove(&mut self, name: &[u8]) -> Result<(), DiskFault> {
        let name = Bytes::from_slice(self.alloc, name)?;
        self.do_call(DiskCall::Remove(name))?;
        Ok(())
    }

    fn sync_folder(&mut self) -> Result<(), DiskFault> {
        self.do_call(DiskCall::SyncFolder)?;
        Ok(())
    }
}

impl DiskInPlace for MemoryDisk {
    fn write_at(&mut self, name: &[u8], offset: u64, bytes: &[u8]) -> Result<(), DiskFault> {
        let name = Bytes::from_slice(self.alloc, name)?;
        let bytes = Bytes::from_slice(self.alloc, bytes)?;
        self.do_call(DiskCall::WriteAt(name, offset, bytes))?;
        Ok(())
    }

    fn sync_in_place(&mut self, name: &[u8]) -> Result<(), DiskFault> {
        let name = Bytes::from_slice(self.alloc, name)?;
        self.do_call(DiskCall::SyncInPlace(name))?;
        Ok(())
    }
}
