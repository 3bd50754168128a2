//! A folder of a disk, whose new files take their places all together.

ghost use Rattle.std.specs.Prelude.{◌≡◌, ◌≢◌, ◌+◌, ◌<◌, ◌≤◌, [], Some, None, Err, length, take, IfOk, IfSome, OnOk, OnErr, IsErr, IsErrOf, IfErr};
ghost use Rattle.byte_io.specs.Sink.{grown, Rises};
ghost use Rattle.files_in_place.specs.declared.phase.Phase.TheVariants.{Staging, Ended};
ghost use Rattle.files_in_place.specs.declared.faults.SetFault.TheVariants as F;
ghost use Rattle.files_in_place.specs.Faults.{IsOfDisk};
ghost use Rattle.files_in_place.specs.Folder.{without_reserved, Name};
ghost use Rattle.files_in_place.specs.Disk.{LeavesOnly, IsSyncedDisk, HasDiskCause};
ghost use Rattle.files_in_place.specs.Recovery.{IsClean, HasOldFiles};
ghost use Rattle.files_in_place.specs.Staged.{HasBeenReady, SameUnstaged};
ghost use Rattle.folders.specs.Files.{files_in, opening};
ghost use Rattle.folders.specs.Placed.{names_of, AreUnreserved, AreTemporary, IsPlaced, IsOldOrPlaced};

use crate::finish_fault::FinishFault;
use crate::folder::Folder;
use crate::listing::Listing;
use byte_io::{ByteSink, Failures, SinkFault};
use files_in_place::{Disk, FileSet, SetFault};
use std::alloc::Global;
use std::marker::{Brand, Model, PhantomData};

/// The disk as it is when new files for its folder begin, so that contracts can say what a crash leaves from then on. One call
/// picks it, by handing [`Brand`] to a function of its own; `None` where none asks.
pub trait Origin<D> {
    ghost use Rattle.std.specs.Prelude.{Option};

    ghost origin: { Option D };
}

impl<D> Origin<D> for Brand {
    ghost use Rattle.std.specs.Prelude.{None};

    ghost origin = { None };
}

/// New files for a folder of a disk. They are written under temporary names, and count from the moment on when
/// [`DiskFolder::finish`] puts all of them in place. Until then the folder keeps its old files, whatever crashes.
///
/// Contracts see as `written` what was given to it. That the disk holds that, and what a crash leaves, stands under the
/// disk's `keeps_promises`.
#[derive(Drop)]
pub struct DiskFolder<D: Disk + Drop, O: Origin<D>> {
    set: FileSet<D>,
    written: Listing,
    failures: Failures,
    fault: Option<SetFault>,
    origin: PhantomData<O>,
}

impl<D: Disk + Drop, O: Origin<D>> Model for DiskFolder<D, O> {
    ghost use Rattle.std.specs.Prelude.{◌≡◌, ◌≤◌, IfSome};
    ghost use Rattle.files_in_place.specs.declared.phase.Phase.TheVariants.{Staging};
    ghost use Rattle.folders.specs.Placed.{NewFiles as What, AreWritten, KeepsOld};

    ghost Value = { What D };

    ghost view = { λ f. record { set = f.set; written = f.written; failures = f.failures; fault = f.fault } };

    // Where no call has failed, the set takes files still.
    ghost invariant = { λ f. (D.meaning.keeps_promises → f.set.phase ≡ Staging → AreWritten f.written f.set.names f.set.current (D.meaning.seen f.set.disk))
        × (f.failures ≡ 0 → f.set.phase ≡ Staging)
        × (D.meaning.keeps_promises → IfSome O.origin (λ start. KeepsOld D.meaning start f.set))
        × IfSome O.origin (λ start. D.meaning.faults start ≤ D.meaning.faults f.set.disk) };
}

// Keeps why a call failed.
fn fail(failures: &mut Failures, last: &mut Option<SetFault>, fault: SetFault) -> SinkFault
    ensures counted { failures.new ≡ failures.old + 1 }
    ensures fault { last.new ≡ Some fault }
{
    failures.count();
    *last = Some(fault);
    SinkFault
}

// Removes the files of a set that was not finished for this, where none of them has been put in place, and says why it was not.
fn undo<D: Disk + Drop>(set: &mut FileSet<D>, fault: SetFault) -> FinishFault
    ensures ended { set.old.phase ≡ Ended → result ≡ FinishFault.Unfinished }
    ensures memory { set.old.phase ≢ Ended → fault ≡ F.NoMemory → result ≡ FinishFault.NoMemory }
    ensures other { set.old.phase ≢ Ended → fault ≢ F.NoMemory → result ≡ FinishFault.Unwritten }
    ensures kept { set.old.phase ≡ Ended → set.new ≡ set.old }
    ensures any_moment { D.meaning.keeps_promises → set.old.phase ≢ Ended
        → LeavesOnly D.meaning set.old.disk set.new.disk (HasOldFiles (D.meaning.seen set.old.disk)) }
    ensures later { D.meaning.faults set.old.disk ≤ D.meaning.faults set.new.disk }
{
    match (set.abandon(), fault) {
        (Err(SetFault::Closed), _) => FinishFault::Unfinished,
        (_, SetFault::NoMemory) => FinishFault::NoMemory,
        (_, _) => FinishFault::Unwritten,
    }
}

impl<D: Disk + Drop, O: Origin<D>> DiskFolder<D, O> {
    /// For the folder of a disk on which [`recover`](files_in_place::recover) has been called. There are no new files yet.
    pub fn new(alloc: Global, disk: D) -> DiskFolder<D, O>
        requires synced { D.meaning.keeps_promises → IsSyncedDisk D.meaning disk }
        requires clean { D.meaning.keeps_promises → IsClean (D.meaning.seen disk) }
        requires origin { IfSome O.origin (λ start. start ≡ disk) }
        ensures disk { result.set.disk ≡ disk }
        ensures phase { result.set.phase ≡ Staging }
        ensures written { result.written ≡ [] }
        ensures failures { result.failures ≡ 0 }
        ensures fault { result.fault ≡ None }
    {
        DiskFolder {
            set: FileSet::new(alloc, disk),
            written: Listing::empty(),
            failures: Failures::none(),
            fault: None,
            origin: PhantomData,
        }
    }

    /// The disk. New files stay under their temporary names, until [`recover`](files_in_place::recover) removes them.
    pub fn into_disk(self) -> D
        ensures disk { result ≡ self.set.disk }
        // Whatever was written and removed since the beginning, a crash at any moment leaves the old files.
        ensures since { D.meaning.keeps_promises → IfSome O.origin (λ start. LeavesOnly D.meaning start result (HasOldFiles (D.meaning.seen start))) }
    {
        self.set.into_disk()
    }

    /// Why the last call of `begin` or `write` failed that has failed.
    pub fn fault(&self) -> Option<SetFault>
        ensures fault { result ≡ self.now.fault }
    {
        self.fault
    }

    /// Puts all new files in place, and removes what was temporary. Where that fails before any of them is in place, they
    /// are removed as [`DiskFolder::abandon`] removes them.
    ///
    /// [`FinishFault::NoMemory`] where memory was refused before anything was put in place,
    /// [`FinishFault::Unwritten`] where the disk, or a call before this one, has failed before that, and
    /// [`FinishFault::Unfinished`] where some of the files may be in place: the next start puts in place the others too, or
    /// removes them.
    pub fn finish(self) -> (Result<(), FinishFault>, D)
        ensures placed { D.meaning.keeps_promises → OnOk result.0 (IsPlaced self.written (D.meaning.seen self.set.disk) (D.meaning.seen result.1)) }
        // So it has in the place of the old files those of the beginning's folder.
        ensures placed_since { D.meaning.keeps_promises → OnOk result.0 (IfSome O.origin (λ start. IsPlaced self.written (D.meaning.seen start) (D.meaning.seen result.1))) }
        ensures synced { D.meaning.keeps_promises → OnOk result.0 (IsSyncedDisk D.meaning result.1) }
        ensures closed { self.set.phase ≢ Staging → IsErr result.0 }
        // Where no call has failed, the set takes files still: so it is want of memory or a fault of the disk.
        ensures staging { self.failures ≡ 0 → self.set.phase ≡ Staging }
        ensures unwritten { self.set.phase ≡ Staging → IsErrOf result.0 FinishFault.Unwritten → D.meaning.faults self.set.disk < D.meaning.faults result.1 }
        // The disk has failed as often as at the beginning, or more often.
        ensures counted { IfSome O.origin (λ start. D.meaning.faults start ≤ D.meaning.faults self.set.disk) }
        // Before the call the new files are on the disk under their temporary names.
        ensures there { D.meaning.keeps_promises → self.set.phase ≡ Staging → AreTemporary (files_in self.written) (D.meaning.seen self.set.disk) }
        // None of them has a reserved name.
        ensures free { D.meaning.keeps_promises → self.set.phase ≡ Staging → AreUnreserved (files_in self.written) }
        // A crash at any moment leaves a folder of which recovery makes the old files or the new ones, all of them.
        ensures any_moment { D.meaning.keeps_promises → self.set.phase ≡ Staging
            → LeavesOnly D.meaning self.set.disk result.1 (IsOldOrPlaced self.written (D.meaning.seen self.set.disk)) }
        // It leaves no other file touched, even before recovery.
        ensures others { D.meaning.keeps_promises → self.set.phase ≡ Staging
            → LeavesOnly D.meaning self.set.disk result.1 (SameUnstaged self.set.names (D.meaning.seen self.set.disk)) }
        // Some of the new files may be in place only where all were on the disk before.
        ensures begun { D.meaning.keeps_promises → self.set.phase ≡ Staging → IsErrOf result.0 FinishFault.Unfinished → IfSome O.origin (λ start.
            HasBeenReady D.meaning (names_of (files_in self.written)) (D.meaning.moment start) (D.meaning.seen start) result.1) }
        // A crash at any moment since the beginning leaves such a folder,
        ensures since { D.meaning.keeps_promises → self.set.phase ≡ Staging
            → IfSome O.origin (λ start. LeavesOnly D.meaning start result.1 (IsOldOrPlaced self.written (D.meaning.seen start))) }
        // and where none of the new files is in place, one of which recovery makes the old files.
        ensures undone { D.meaning.keeps_promises → self.set.phase ≡ Staging → IfErr result.0 (λ fault. fault ≢ FinishFault.Unfinished
            → IfSome O.origin (λ start. LeavesOnly D.meaning start result.1 (HasOldFiles (D.meaning.seen start)))) }
        ensures later { D.meaning.faults self.set.disk ≤ D.meaning.faults result.1 }
    {
        let mut set = self.set;
        if let Err(fault) = set.finish() {
            let why = undo(&mut set, fault);
            return (Err(why), set.into_disk());
        }
        (Ok(()), set.into_disk())
    }

    /// Removes all new files, where none of them has been put in place. Then there are no new files again. It is tried once:
    /// after a failure the next start removes them.
    pub fn abandon(&mut self) -> Result<(), SetFault>
        ensures done { D.meaning.keeps_promises → OnOk result ((n : Name) → D.meaning.seen self.new.set.disk n ≡ without_reserved (D.meaning.seen self.old.set.disk) n) }
        ensures synced { D.meaning.keeps_promises → OnOk result (IsSyncedDisk D.meaning self.new.set.disk) }
        ensures written { OnOk result (self.new.written ≡ []) }
        ensures closed { self.old.set.phase ≡ Ended → (result ≡ Err F.Closed) × (self.new.set ≡ self.old.set) }
        ensures open { self.old.set.phase ≢ Ended → IfErr result IsOfDisk }
        ensures no_failure { OnOk result (self.new.failures ≡ self.old.failures) }
        ensures failed { OnErr result (self.new.failures ≡ self.old.failures + 1) }
        ensures fault { self.new.fault ≡ self.old.fault }
        // A crash at any moment leaves the old files.
        ensures any_moment { D.meaning.keeps_promises → self.old.set.phase ≢ Ended → LeavesOnly D.meaning self.old.set.disk self.new.set.disk (HasOldFiles (D.meaning.seen self.old.set.disk)) }
        ensures cause { HasDiskCause D.meaning self.old.set.disk self.new.set.disk (IsErrOf result F.Failed) }
    {
        match self.set.abandon() {
            Ok(()) => {
                self.written = Listing::empty();
                Ok(())
            }
            Err(fault) => {
                self.failures.count();
                Err(fault)
            }
        }
    }
}

impl<D: Disk + Drop, O: Origin<D>> ByteSink for DiskFolder<D, O> {
    ghost use Rattle.std.specs.Prelude.{Some};

    ghost written = { λ f. Some f.written };

    ghost failures = { λ f. Some f.failures };

    /// Writes all of the bytes at the end of the file begun last.
    #[tactic(auto, unfolding(byte_io::specs::Sink::grown))]
    fn write(&mut self, bytes: &[u8]) -> Result<usize, SinkFault>
        ensures within { IfOk result (λ n. n ≤ length bytes.now) }
        ensures some { IfOk result (λ n. 0 < length bytes.now → 0 < n) }
        ensures wrote { IfOk result (λ n. Some self.new.written ≡ grown (Some self.old.written) (take n bytes.now)) }
        ensures no_failure { OnOk result (Some self.new.failures ≡ Some self.old.failures) }
        ensures unwritten { OnErr result (Some self.new.written ≡ Some self.old.written) }
        ensures failed { OnErr result (Rises (Some self.old.failures) (Some self.new.failures)) }
        // A crash at any moment leaves the old files.
        ensures any_moment { D.meaning.keeps_promises → self.old.set.phase ≡ Staging → LeavesOnly D.meaning self.old.set.disk self.new.set.disk (HasOldFiles (D.meaning.seen self.old.set.disk)) }
    {
        match self.set.write(bytes) {
            Ok(()) => {
                self.written.append(bytes);
                Ok(bytes.len())
            }
            Err(fault) => Err(fail(&mut self.failures, &mut self.fault, fault)),
        }
    }
}

impl<D: Disk + Drop, O: Origin<D>> Folder for DiskFolder<D, O> {
    /// Begins an empty file under its temporary name. The file before it is on the disk then.
    #[tactic(auto, unfolding(byte_io::specs::Sink::grown))]
    fn begin(&mut self, name: &[u8]) -> Result<(), SinkFault>
        ensures begun { OnOk result (Some self.new.written ≡ grown (Some self.old.written) (opening name.now)) }
        ensures no_failure { OnOk result (Some self.new.failures ≡ Some self.old.failures) }
        ensures no_file_begun { OnErr result (Some self.new.written ≡ Some self.old.written) }
        ensures failed { OnErr result (Rises (Some self.old.failures) (Some self.new.failures)) }
        // A crash at any moment leaves the old files.
        ensures any_moment { D.meaning.keeps_promises → self.old.set.phase ≡ Staging → LeavesOnly D.meaning self.old.set.disk self.new.set.disk (HasOldFiles (D.meaning.seen self.old.set.disk)) }
    {
        match self.set.begin(name) {
            Ok(()) => {
                self.written.begin(name);
                Ok(())
            }
            Err(fault) => Err(fail(&mut self.failures, &mut self.fault, fault)),
        }
    }
}
