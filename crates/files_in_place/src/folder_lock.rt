//! One run at a time in a folder of the system.

ghost use Rattle.std.specs.Prelude.{OnOk, IsErrOf};
ghost use Rattle.files_in_place.specs.declared.folder_lock.LockFault.TheVariants as F;
ghost use Rattle.files_in_place.specs.System.{IsRefused};

use crate::calls::SystemCalls;
use std::alloc::AllocError;
use std::fs::TryLockError;
use std::io;
use thiserror::Error;

/// Why a folder was not locked.
#[derive(Clone, Copy, Debug, PartialEq, Eq, Error)]
pub enum LockFault {
    /// Another run has the lock.
    #[error("another run has the folder")]
    InUse,
    /// Memory was refused.
    #[error("out of memory")]
    NoMemory,
    /// There is no such folder, or the system gives no lock on it.
    #[error("the folder can't be locked")]
    Failed,
}

impl From<io::Error> for LockFault {
    ghost use Rattle.files_in_place.specs.Faults.{IsLockFaultOf};

    ghost from_gives = { λ error fault. IsLockFaultOf error fault };

    fn from(error: io::Error) -> Self {
        if error.kind() == io::ErrorKind::OutOfMemory {
            LockFault::NoMemory
        } else {
            LockFault::Failed
        }
    }
}

impl From<AllocError> for LockFault {
    ghost use Rattle.std.specs.Prelude.{◌≡◌};
    ghost use Rattle.files_in_place.specs.declared.folder_lock.LockFault.TheVariants.{NoMemory};

    ghost from_gives = { λ _ fault. fault ≡ NoMemory };

    fn from(_refused: AllocError) -> Self {
        LockFault::NoMemory
    }
}

// Locks a folder that is open (`flock`), without waiting. The lock is on the folder itself and leaves no file there; it ends with
// the handle, or with the program, however that ends.
pub(crate) fn lock<R: SystemCalls>(rt: &R, folder: &R::File) -> Result<(), LockFault>
    ensures locked { OnOk result (R.answers.locks folder.now) }
    ensures in_use { IsErrOf result F.InUse → R.answers.is_busy folder.now }
    ensures failed { IsErrOf result F.Failed → IsRefused R.answers }
{
    match rt.try_lock(folder) {
        Ok(()) => Ok(()),
        Err(TryLockError::WouldBlock) => Err(LockFault::InUse),
        Err(TryLockError::Error(e)) => Err(LockFault::from(e)),
    }
}
