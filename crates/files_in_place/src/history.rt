//! What is left after start upon start.

ghost use Rattle.std.specs.Prelude.{◌⊎◌, List};
ghost use Rattle.files_in_place.specs.Folder.{Name, Folder, without_reserved};
ghost use Rattle.files_in_place.specs.Staged.{IsOldOrNew, with_staged};
ghost use Rattle.files_in_place.specs.History.{AreAlike, EndsAfter};

use crate::disk::Disk;

/// Whatever crashes or is stopped, and however often: at each moment of a call of a set, all that a crash may leave stands for
/// the old files or for the new ones, and what is seen is one of these; recovery may crash or be stopped too, again and again;
/// once it ends, the folder has all the old files or all the new ones.
pub fn old_or_new<D: Disk>()
    ensures { D.meaning.keeps_promises → (names : List Name) (old last : Folder) (first : D) (others : List D) → ((c : Folder) → D.meaning.may_leave first c → IsOldOrNew names old c)
        → EndsAfter D.meaning others first last → AreAlike last (without_reserved old) ⊎ AreAlike last (with_staged names old) }
{}
