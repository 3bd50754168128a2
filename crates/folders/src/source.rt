//! Where files are read from.

ghost use Rattle.std.specs.Prelude.{◌≡◌, ◌⊎◌, Err, Some, IfOk, OnOk, List, ℕ, Option};
ghost use Rattle.byte_io.specs.Sink.{Rises};
ghost use Rattle.folders.specs.declared.named.NamedFile.{NamedFile};
ghost use Rattle.folders.specs.Files.{IsFileOf, IsTooLong, IsUnrecovered, load_refusal};

use byte_io::Bytes;
use std::alloc::{AllocError, Global};
use std::io;
use thiserror::Error;

/// The most bytes of a file that is read.
pub const MAX_FILE_BYTES: usize = 1_073_741_824;

/// Why a file was not loaded.
#[derive(Clone, Copy, Debug, PartialEq, Eq, Error)]
pub enum LoadFault {
    /// Memory was refused.
    #[error("out of memory")]
    NoMemory,
    /// The file can't be read, or is over the limit, or its path ends with a reserved name.
    #[error("cannot read")]
    CannotRead,
    /// The list of a set of new files lies in the file's folder: not all of them are in place.
    #[error("the folder is not recovered")]
    Unrecovered,
}

impl From<AllocError> for LoadFault {
    ghost use Rattle.std.specs.Prelude.{◌≡◌};
    ghost use Rattle.folders.specs.declared.source.LoadFault.TheVariants.{NoMemory};

    ghost from_gives = { λ _ fault. fault ≡ NoMemory };

    fn from(_refused: AllocError) -> LoadFault {
        LoadFault::NoMemory
    }
}

impl From<io::Error> for LoadFault {
    ghost use Rattle.folders.specs.Files.{IsLoadFaultOf};

    ghost from_gives = { λ error fault. IsLoadFaultOf error fault };

    fn from(error: io::Error) -> LoadFault {
        if error.kind() == io::ErrorKind::OutOfMemory {
            LoadFault::NoMemory
        } else {
            LoadFault::CannotRead
        }
    }
}

/// A place that whole files are read from, by their paths.
///
/// A type says by two ghost members what contracts may know of its values: the files by their paths, and
/// how often a load has failed. Both are options, as a sink's are.
pub trait Source {
    // The files, where the type says.
    ghost files: { Self → Option (List NamedFile) };
    // How often a load has failed, where the type says.
    ghost failures: { Self → Option ℕ };

    /// The bytes of the file of a path.
    ///
    /// A path that ends with a reserved name is refused before anything is looked at: as `CannotRead`, and as a load that failed.
    /// Then a file is refused in whose folder the list of a set of new files lies: as `Unrecovered`, which is no failure. Else
    /// `CannotRead` says that the load failed, or that the file is over 1,073,741,824 bytes. `NoMemory` says that room was refused:
    /// for the file's bytes, which is asked for after all that, or for the path of the list.
    fn load(&mut self, alloc: Global, path: &[u8]) -> Result<Bytes, LoadFault>
        ensures found { IfOk result (λ bytes. IsFileOf (files self.old) path.now bytes) }
        ensures kept { files self.new ≡ files self.old }
        ensures no_failure { OnOk result (failures self.new ≡ failures self.old) }
        ensures early { (fault : LoadFault) → load_refusal (files self.old) path.now ≡ Some fault → result ≡ Err fault }
        ensures unrecovered { result ≡ Err LoadFault.Unrecovered → IsUnrecovered (files self.old) path.now }
        ensures seen { result ≡ Err LoadFault.Unrecovered → failures self.new ≡ failures self.old }
        ensures memory { result ≡ Err LoadFault.NoMemory → failures self.new ≡ failures self.old }
        ensures unread { result ≡ Err LoadFault.CannotRead → Rises (failures self.old) (failures self.new) ⊎ IsTooLong (files self.old) path.now };
}
