//! What a set's new files hold.

ghost use Rattle.std.specs.Prelude.{◌≡◌, List};
ghost use Rattle.files_in_place.specs.Folder.{Name, Folder};
ghost use Rattle.files_in_place.specs.Staged.{with_staged};
ghost use Rattle.files_in_place.specs.Written.{Call, Writing, LeadsTo, with_written};

/// Once a set is put in place, its files hold what was written to them, piece after piece, and each other file what it
/// held: where calls of `begin` and `write` that ended with `Ok` have led to a set, and `finish` does so too.
pub fn files_hold_what_was_written()
    ensures { (calls : List Call) (old last : Folder) (set : Writing) → LeadsTo calls old set
        → ((n : Name) → last n ≡ with_staged set.names set.folder n) → (n : Name) → last n ≡ with_written calls old n }
{}
