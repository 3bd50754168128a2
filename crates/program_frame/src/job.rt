//! What a program does between the recovery of the folder for its files and their placing.

ghost use Rattle.std.specs.Prelude.{◌≡◌, ℕ, Bool, true, false, List, Option, IfOk, IfErr, IsErrOf, OnOk};
ghost use Rattle.folders.specs.Placed.{IsListedAfter};
ghost use Rattle.folders.specs.declared.named.NamedFile.{NamedFile};
ghost use Rattle.program_frame.specs.InputDays.{FileAnswers, IsWorkRefusal};
ghost use Rattle.program_frame.specs.Jobs.{IsLoadFailure};
ghost use Rattle.program_frame.specs.declared.folder.FolderFault.{FolderFault};

use crate::beside::Beside;
use crate::ending::{Failure, Reason};
use folders::{Folder, Source};
use std::alloc::Global;
use std::io::Write;

/// What the work of a program that writes new files promises.
pub trait Job {
    /// What is said of it where it came to its end.
    type Report: Drop;

    /// Why it failed.
    type Fault: Reason;

    // over these files, where they are known, it came to its end, wrote these, and reports this
    ghost writes: { Self → Option (List NamedFile) → List NamedFile → Self.Report → Type 0 };

    // over these files it may fail so
    ghost fails: { Self → Option (List NamedFile) → Self.Fault → Type 0 };

    // what a failure over these files says of how many loads have failed before the work and after it
    ghost loads: { Self → Option (List NamedFile) → Option ℕ → Option ℕ → Self.Fault → Type 0 };

    // a failure says that the folder has not taken a file
    ghost is_unwritten: { Self.Fault → Bool };

    // Whether a live day is open in a folder from which it reads, over these files, where a system has answered so.
    ghost finds_day: { Self → FileAnswers → Option (List NamedFile) → Bool → Type 0 };

    /// Refuses the work where a live day is open in a folder from which it reads, or where that isn't known.
    fn refuse_open_day<S: Source, B: Beside>(
        &self,
        alloc: Global,
        source: &mut S,
        system: &B,
    ) -> Result<(), Failure<Self::Fault>>
        ensures closed { OnOk result (Self.finds_day self.now (B.answers system.now) (S.files source.old) false) }
        ensures open { IsErrOf result (Failure.Folder FolderFault.DayOpen) → Self.finds_day self.now (B.answers system.now) (S.files source.old) true }
        ensures refused { IfErr result (IsWorkRefusal (B.answers system.now) (Self.fails self.now (S.files source.old)) Self.Fault.no_memory) }
        ensures kept { S.files source.new ≡ S.files source.old }
        ensures loads { OnOk result (S.failures source.new ≡ S.failures source.old) }
        ensures failure { IfErr result (IsLoadFailure (Self.loads self.now (S.files source.old) (S.failures source.old) (S.failures source.new))
            Self.Fault.no_memory (S.failures source.new ≡ S.failures source.old)) };

    /// Whether a failure says that the folder has not taken a file.
    fn is_unwritten(fault: &Self::Fault) -> bool
        ensures value { result ≡ is_unwritten fault.now };
}

/// The work of a program that writes new files, in one thread. A method of a trait can start no threads over a runtime that it is
/// given: such work is a function of its program's.
pub trait Work: Job {
    /// Does the work: files are read from the source, and written into the folder. What its user has to know before it ends
    /// is printed on `err`; a stream that takes no text changes nothing.
    fn work<S: Source, F: Folder, E: Write>(
        &self,
        alloc: Global,
        source: &mut S,
        folder: &mut F,
        err: &mut E,
    ) -> Result<Self::Report, Self::Fault>
        ensures done { IfOk result (λ report.
            IsListedAfter (λ written. Self.writes self.now (S.files source.old) written report) (F.written folder.old) (F.written folder.new)) }
        ensures no_failure { OnOk result (F.failures folder.new ≡ F.failures folder.old) }
        ensures fault { IfErr result (Self.fails self.now (S.files source.old)) }
        ensures kept { S.files source.new ≡ S.files source.old }
        ensures loads { OnOk result (S.failures source.new ≡ S.failures source.old) }
        ensures failure { IfErr result (Self.loads self.now (S.files source.old) (S.failures source.old) (S.failures source.new)) };
}
