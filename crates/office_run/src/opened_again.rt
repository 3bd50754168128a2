//! What a setup names opens as the same tables, however often it is read.

ghost use Rattle.std.specs.Prelude.{ℕ, List};
ghost use Rattle.folders.specs.declared.named.NamedFile.{NamedFile};
ghost use Rattle.office_run.specs.FileSums.{NotesAsBefore};
ghost use Rattle.office_run.specs.OpenedSetup.{HaveStill, NeverRefused, OpensAsBefore, OpensAsOne};

/// A law: what the setup of a path names opens as the same tables, for the same number of stations, whenever it is read from
/// the same files, or from later ones that have each of these still. So a run's tables are opened again for its audit. What opened
/// once is refused from these files only for want of memory, or since a file can't be read.
pub fn one_opening()
    ensures one { (files : List NamedFile) (setup : List ℕ) → OpensAsOne files setup }
    ensures still { (files later : List NamedFile) (setup : List ℕ) → HaveStill files later → OpensAsBefore files later setup }
    ensures never_refused { (files : List NamedFile) (setup : List ℕ) → NeverRefused files setup }
{}

/// A law: of the files that the setup of a path names a journal says the same, whenever they are read from the same files, or
/// from later ones that have each of these still.
pub fn one_noting()
    ensures still { (files later : List NamedFile) (setup : List ℕ) → HaveStill files later → NotesAsBefore files later setup }
{}
