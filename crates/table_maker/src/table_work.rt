//! Work that makes files of a table.

ghost use Rattle.std.specs.Prelude.{◌≡◌, ◌≢◌, ℕ, List, Option, IfOk};
ghost use Rattle.folders.specs.declared.named.NamedFile.{NamedFile};
ghost use Rattle.table_maker.specs.Placing.{LookFaults};

use byte_io::Bytes;
use program_frame::Work;
use std::alloc::{AllocError, Global};

/// Work that makes files of a table in a folder: its own with that of its memos, or that of an index. Before the work it is looked
/// whether their names are free.
pub trait TableWork: Work {
    // the names that the files may have
    ghost names: { Self → List (List ℕ) };

    // what is told where a name is not free, or that is not known
    ghost look: { LookFaults Self.Fault };

    /// The names that the files may have. An error where memory is refused.
    fn names(&self, alloc: Global) -> Result<Vec<Bytes>, AllocError>
        ensures value { IfOk result (λ made. made.items ≡ names self.now) };

    /// That one of the names has a file, which may not be replaced.
    fn exists() -> Self::Fault
        ensures value { result ≡ look.exists };

    /// That the folder for the files can't be read.
    fn unread() -> Self::Fault
        ensures value { result ≡ look.unread };

    /// A law: that a name has a file is no fault of the work, no want of memory, and not that the folder can't be read.
    fn exists_is_of_names_alone(&self)
        ensures work { (files : Option (List NamedFile)) → ¬ Self.fails self.now files look.exists }
        ensures memory { look.exists ≢ Self.Fault.no_memory }
        ensures unread { look.exists ≢ look.unread };

    /// A law: that the folder can't be read is no fault of the work, and no want of memory.
    fn unread_is_of_the_folder_alone(&self)
        ensures work { (files : Option (List NamedFile)) → ¬ Self.fails self.now files look.unread }
        ensures memory { look.unread ≢ Self.Fault.no_memory };
}
