//! A set of new files, written in pieces.

ghost use Rattle.std.specs.Prelude.{◌≡◌, ◌≢◌, ◌++◌, ◌∷◌, [], true, false, None, Some, Err, IfErr, IsSome, option_map, OnOk, OnErr, IsErrOf};
ghost use Rattle.files_in_place.specs.declared.phase.Phase.TheVariants.{Staging, Ended};
ghost use Rattle.files_in_place.specs.Folder.{Name, SameBut, temporary, without_reserved};
ghost use Rattle.files_in_place.specs.Disk.{LeavesOnly, IsSyncedDisk, HasDiskCause};
ghost use Rattle.files_in_place.specs.Recovery.{IsClean, HasOldFiles};
ghost use Rattle.files_in_place.specs.Staged.{is_file_name, is_staged, with_staged, HasBeenReady, IsOldOrNew, RunsUncommitted, SameUnstaged};
ghost use Rattle.files_in_place.specs.Faults.{IsOfDisk};
ghost use Rattle.files_in_place.specs.declared.faults.SetFault.TheVariants as F;

use crate::clean::clean;
use crate::commit::commit;
use crate::disk::Disk;
use crate::faults::SetFault;
use crate::names::{list_bytes, temporary_names};
use crate::new_name::{NewName, new_name};
use crate::phase::Phase;
use crate::stage::{begin_file, write_list};
use byte_io::Bytes;
use std::alloc::Global;
use std::marker::Model;

/// A set of new files for a folder. They are written one after the other under temporary names, and count from the
/// moment on when [`FileSet::finish`] puts the set in place.
///
/// As a caller has it:
///
/// ```text
/// set.begin(b"A")?;
/// set.write(b"new a,")?;
/// set.write(b" longer")?;
/// set.begin(b"B")?;
/// set.begin(b"D")?;
/// set.write(b"new d")
/// write_files(set)?;
/// set.finish()
/// ```
#[derive(Drop)]
pub struct FileSet<D: Disk + Drop> {
    alloc: Global,
    disk: D,
    names: Vec<Bytes>,
    // The temporary name of the file begun last.
    current: Option<Bytes>,
    phase: Phase,
}

impl<D: Disk + Drop> Model for FileSet<D> {
    ghost use Rattle.files_in_place.specs.Staged.{Set as What, HoldsInPhase};

    ghost Value = { What D };

    ghost view = { λ s. record { disk = s.disk; names = s.names.items; current = s.current; phase = s.phase } };

    ghost invariant = { λ s. D.meaning.keeps_promises →
        HoldsInPhase D.meaning s.phase s.names.items s.current s.disk };
}

impl<D: Disk + Drop> FileSet<D> {
    /// A set without files, for the folder of a disk on which [`recover`](crate::recover) has been called.
    pub fn new(alloc: Global, disk: D) -> FileSet<D>
        requires synced { D.meaning.keeps_promises → IsSyncedDisk D.meaning disk }
        requires clean { D.meaning.keeps_promises → IsClean (D.meaning.seen disk) }
        ensures disk { result.disk ≡ disk }
        ensures names { result.names ≡ [] }
        ensures current { result.current ≡ None }
        ensures phase { result.phase ≡ Staging }
    {
        FileSet {
            alloc,
            disk,
            names: Vec::new(alloc),
            current: None,
            phase: Phase::Staging,
        }
    }

    /// The disk.
    pub fn into_disk(self) -> D
        ensures disk { result ≡ self.disk }
    {
        self.disk
    }

    /// Begins an empty file, to which what is written from now on goes. The set's files are on the disk no sooner than
    /// [`FileSet::finish`] has brought them there.
    ///
    /// A refused name and want of memory change nothing. After a failure of the disk the set can only be abandoned.
    pub fn begin(&mut self, name: &[u8]) -> Result<(), SetFault>
        ensures begun { OnOk result (self.new.names ≡ self.old.names ++ name.now ∷ []) }
        ensures current { OnOk result (self.new.current ≡ Some (temporary name.now)) }
        ensures empty { D.meaning.keeps_promises → OnOk result (D.meaning.seen self.new.disk (temporary name.now) ≡ Some []) }
        ensures others { SameBut (temporary name.now) (D.meaning.seen self.old.disk) (D.meaning.seen self.new.disk) }
        ensures staging { OnOk result (self.new.phase ≡ Staging) }
        ensures closed { self.old.phase ≢ Staging → (result ≡ Err F.Closed) × (self.new ≡ self.old) }
        ensures bad_name { self.old.phase ≡ Staging → is_file_name name.now ≡ false → (result ≡ Err F.BadName) × (self.new ≡ self.old) }
        ensures same_name { self.old.phase ≡ Staging → is_file_name name.now ≡ true → is_staged self.old.names name.now ≡ true
            → (result ≡ Err F.SameName) × (self.new ≡ self.old) }
        // Nothing else refuses a file but want of memory and a failure of the disk.
        ensures open { self.old.phase ≡ Staging → is_file_name name.now ≡ true → is_staged self.old.names name.now ≡ false → IfErr result IsOfDisk }
        ensures unchanged { OnErr result (self.new.phase ≡ Staging → self.new ≡ self.old) }
        // The set can still be abandoned.
        ensures not_ended { self.old.phase ≢ Ended → self.new.phase ≢ Ended }
        // A crash at any moment leaves the old files.
        ensures any_moment { D.meaning.keeps_promises → self.old.phase ≡ Staging
            → LeavesOnly D.meaning self.old.disk self.new.disk (HasOldFiles (D.meaning.seen self.old.disk)) }
        ensures cause { HasDiskCause D.meaning self.old.disk self.new.disk (IsErrOf result F.Failed) }
    {
        if self.phase != Phase::Staging {
            return Err(SetFault::Closed);
        }
        let begun = new_name(self.alloc, &mut self.names, name)?;
        let NewName { name, lies } = begun;
        self.phase = Phase::Failed;
        begin_file(&mut self.disk, &self.names, &self.current, lies.as_slice())?;
        self.names.push_reserved(name);
        self.current = Some(lies);
        self.phase = Phase::Staging;
        Ok(())
    }

    /// Writes all of the bytes at the end of the file begun last. After a failure of the disk the set can only be
    /// abandoned.
    pub fn write(&mut self, bytes: &[u8]) -> Result<(), SetFault>
        ensures written { D.meaning.keeps_promises → OnOk result ((lies : Name) → self.old.current ≡ Some lies
            → D.meaning.seen self.new.disk lies ≡ option_map (λ content. content ++ bytes.now) (D.meaning.seen self.old.disk lies)) }
        ensures others { (n : Name) → self.old.current ≢ Some n → D.meaning.seen self.new.disk n ≡ D.meaning.seen self.old.disk n }
        ensures names { self.new.names ≡ self.old.names }
        ensures current { self.new.current ≡ self.old.current }
        ensures staging { OnOk result (self.new.phase ≡ Staging) }
        ensures closed { self.old.phase ≢ Staging → (result ≡ Err F.Closed) × (self.new ≡ self.old) }
        ensures not_begun { self.old.phase ≡ Staging → self.old.current ≡ None → (result ≡ Err F.NotBegun) × (self.new ≡ self.old) }
        ensures open { self.old.phase ≡ Staging → IsSome self.old.current → IfErr result IsOfDisk }
        ensures unchanged { OnErr result (self.new.phase ≡ Staging → self.new ≡ self.old) }
        // The set can still be abandoned.
        ensures not_ended { self.old.phase ≢ Ended → self.new.phase ≢ Ended }
        // A crash at any moment leaves the old files.
        ensures any_moment { D.meaning.keeps_promises → self.old.phase ≡ Staging
            → LeavesOnly D.meaning self.old.disk self.new.disk (HasOldFiles (D.meaning.seen self.old.disk)) }
        ensures cause { HasDiskCause D.meaning self.old.disk self.new.disk (IsErrOf result F.Failed) }
    {
        if self.phase != Phase::Staging {
            return Err(SetFault::Closed);
        }
        let Some(lies) = &self.current else {
            return Err(SetFault::NotBegun);
        };
        self.phase = Phase::Failed;
        self.disk.append(lies.as_slice(), bytes)?;
        self.phase = Phase::Staging;
        Ok(())
    }

    /// Brings all files of the set to the disk, puts them in place, and removes what was temporary. Then the set is empty again.
    ///
    /// Want of memory before anything is written changes nothing. After another failure, [`FileSet::abandon`] removes the
    /// set if nothing of it was put in place yet; else the next start finishes what this call began, or removes it.
    pub fn finish(&mut self) -> Result<(), SetFault>
        ensures done { D.meaning.keeps_promises → OnOk result ((n : Name) → D.meaning.seen self.new.disk n ≡ with_staged self.old.names (D.meaning.seen self.old.disk) n) }
        ensures synced { D.meaning.keeps_promises → OnOk result (IsSyncedDisk D.meaning self.new.disk) }
        ensures empty { OnOk result ((self.new.names ≡ []) × (self.new.current ≡ None)) }
        ensures staging { OnOk result (self.new.phase ≡ Staging) }
        ensures closed { self.old.phase ≢ Staging → (result ≡ Err F.Closed) × (self.new ≡ self.old) }
        ensures open { self.old.phase ≡ Staging → IfErr result IsOfDisk }
        ensures unchanged { OnErr result (self.new.phase ≡ Staging → self.new ≡ self.old) }
        // A crash at any moment leaves a folder of which recovery makes the old files or the new ones, all of them.
        ensures any_moment { D.meaning.keeps_promises → self.old.phase ≡ Staging
            → LeavesOnly D.meaning self.old.disk self.new.disk (IsOldOrNew self.old.names (D.meaning.seen self.old.disk)) }
        // Where the set can still be abandoned none of its files is in place, and a crash at any moment leaves the old files.
        ensures undone { D.meaning.keeps_promises → self.old.phase ≡ Staging → OnErr result (self.new.phase ≢ Ended
            → RunsUncommitted D.meaning self.old.disk self.new.disk) }
        // It can't be only where all its files were on the disk, and putting them in place had begun.
        ensures begun { D.meaning.keeps_promises → self.old.phase ≡ Staging → OnErr result (self.new.phase ≡ Ended
            → HasBeenReady D.meaning self.old.names (D.meaning.moment self.old.disk) (D.meaning.seen self.old.disk) self.new.disk) }
        // It leaves no other file touched, even before recovery.
        ensures others { D.meaning.keeps_promises → self.old.phase ≡ Staging
            → LeavesOnly D.meaning self.old.disk self.new.disk (SameUnstaged self.old.names (D.meaning.seen self.old.disk)) }
        ensures cause { HasDiskCause D.meaning self.old.disk self.new.disk (IsErrOf result F.Failed) }
    {
        if self.phase != Phase::Staging {
            return Err(SetFault::Closed);
        }
        let list = list_bytes(self.alloc, &self.names)?;
        let temporaries = temporary_names(self.alloc, &self.names)?;
        self.phase = Phase::Failed;
        write_list(
            &mut self.disk,
            &self.names,
            &self.current,
            &temporaries,
            &list,
        )?;
        self.phase = Phase::Ended;
        commit(self.alloc, &mut self.disk, &self.names)?;
        self.names = Vec::new(self.alloc);
        self.current = None;
        self.phase = Phase::Staging;
        Ok(())
    }

    /// Removes all files of the set, where nothing of it has been put in place. Then the set is empty again. It is tried
    /// once: after a failure the next start removes them.
    pub fn abandon(&mut self) -> Result<(), SetFault>
        ensures done { D.meaning.keeps_promises → OnOk result ((n : Name) → D.meaning.seen self.new.disk n ≡ without_reserved (D.meaning.seen self.old.disk) n) }
        ensures synced { D.meaning.keeps_promises → OnOk result (IsSyncedDisk D.meaning self.new.disk) }
        ensures empty { OnOk result ((self.new.names ≡ []) × (self.new.current ≡ None)) }
        ensures staging { OnOk result (self.new.phase ≡ Staging) }
        ensures ended { OnErr result (self.new.phase ≡ Ended) }
        ensures closed { self.old.phase ≡ Ended → (result ≡ Err F.Closed) × (self.new ≡ self.old) }
        ensures open { self.old.phase ≢ Ended → IfErr result IsOfDisk }
        // A crash at any moment leaves the old files.
        ensures any_moment { D.meaning.keeps_promises → self.old.phase ≢ Ended
            → LeavesOnly D.meaning self.old.disk self.new.disk (HasOldFiles (D.meaning.seen self.old.disk)) }
        ensures cause { HasDiskCause D.meaning self.old.disk self.new.disk (IsErrOf result F.Failed) }
    {
        if self.phase == Phase::Ended {
            return Err(SetFault::Closed);
        }
        self.phase = Phase::Ended;
        clean(self.alloc, &mut self.disk)?;
        self.names = Vec::new(self.alloc);
        self.current = None;
        self.phase = Phase::Staging;
        Ok(())
    }
}
