//! Files that lie beside those that a program reads.

ghost use Rattle.std.specs.Prelude.{◌≡◌, true, IfErr, IfOk, List, ℕ, Option, Result};
ghost use Rattle.folders.specs.declared.source.LoadFault.{LoadFault};
ghost use Rattle.folders.specs.declared.source.LoadFault.TheVariants.{NoMemory};

use byte_io::Bytes;
use folders::LoadFault;
use std::alloc::Global;

/// The system that a program runs on, as far as it looks for files beside those that the program reads.
pub trait Beside {
    // What it has answered where the file of a path was asked for: its bytes, that there is none, or why they can't be had. Nothing
    // else is known of it: so whoever says that it has answered so has asked.
    ghost answers: { Self → List ℕ → Result (Option (List ℕ)) LoadFault → Type 0 };

    // it has said that the file of the first path lies in the folder of the second
    ghost lies: { Self → List ℕ → List ℕ → Type 0 };

    /// The bytes of the file of a path. `None` where no file has this path: a link is one, and a folder is none.
    ///
    /// `CannotRead` where the system doesn't say what has the path, or where the file can't be read or is over the limit,
    /// `Unrecovered` where the list of a set of new files lies beside it, `NoMemory` where memory is refused.
    fn read_if_there(&self, alloc: Global, path: &[u8]) -> Result<Option<Bytes>, LoadFault>
        ensures said { answers self.now path.now result };

    /// Whether the file of a path lies in the folder of another, links followed. Where one of the two can't be found it doesn't. An error
    /// where memory is refused, and only then.
    fn lies_in(&self, alloc: Global, path: &[u8], folder: &str) -> Result<bool, LoadFault>
        ensures said { IfOk result (λ is. is ≡ true → lies self.now path.now folder.now) }
        ensures memory { IfErr result (λ fault. fault ≡ NoMemory) };
}
