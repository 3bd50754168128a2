//! Why a call failed.

ghost use Rattle.std.specs.Prelude.{◌≡◌};
ghost use Rattle.files_in_place.specs.declared.faults.DiskFault.TheVariants.{NoMemory as NoRoom};

use byte_io::Bytes;
use std::alloc::{AllocError, AllocFailed};
use std::io;
use thiserror::Error;

/// Why a call of a disk failed.
#[derive(Clone, Copy, Debug, PartialEq, Eq, Error)]
pub enum DiskFault {
    /// Memory was refused.
    #[error("out of memory")]
    NoMemory,
    /// The disk failed.
    #[error("the disk failed")]
    Failed,
}

impl From<AllocError> for DiskFault {
    ghost from_gives = { λ _ e. e ≡ NoRoom };

    fn from(_: AllocError) -> Self {
        DiskFault::NoMemory
    }
}

impl<T: Drop> From<AllocFailed<T>> for DiskFault {
    ghost from_gives = { λ _ e. e ≡ NoRoom };

    fn from(_: AllocFailed<T>) -> Self {
        DiskFault::NoMemory
    }
}

impl From<io::Error> for DiskFault {
    ghost use Rattle.files_in_place.specs.Faults.{IsDiskFaultOf};

    ghost from_gives = { λ error fault. IsDiskFaultOf error fault };

    fn from(error: io::Error) -> Self {
        if error.kind() == io::ErrorKind::OutOfMemory {
            DiskFault::NoMemory
        } else {
            DiskFault::Failed
        }
    }
}

/// Why a folder was not recovered.
#[derive(Debug, PartialEq, Eq, Drop, Error)]
pub enum RecoveryFault {
    /// Memory was refused.
    #[error("out of memory")]
    NoMemory,
    /// The disk failed.
    #[error("the disk failed")]
    Failed,
    /// The folder's list of new files is none that a set has written, or was cut. Nothing in the folder was touched.
    #[error("the list of new files is none of a set's")]
    BadList,
    /// The new file of this name, which the list has, can't take its place.
    #[error("a new file can't take its place")]
    Unreplaced(Bytes),
}

impl From<AllocError> for RecoveryFault {
    ghost use Rattle.files_in_place.specs.declared.faults.RecoveryFault.TheVariants.{NoMemory as NoRecoveryRoom};

    ghost from_gives = { λ _ e. e ≡ NoRecoveryRoom };

    fn from(_: AllocError) -> Self {
        RecoveryFault::NoMemory
    }
}

impl From<DiskFault> for RecoveryFault {
    ghost use Rattle.files_in_place.specs.Faults.{recovery_fault_of};

    ghost from_gives = { λ d e. e ≡ recovery_fault_of d };

    fn from(fault: DiskFault) -> Self {
        match fault {
            DiskFault::NoMemory => RecoveryFault::NoMemory,
            DiskFault::Failed => RecoveryFault::Failed,
        }
    }
}

/// Why a call of a set of files failed.
#[derive(Clone, Copy, Debug, PartialEq, Eq, Error)]
pub enum SetFault {
    /// An earlier call failed, and so the set takes no more.
    #[error("the set of files takes no more")]
    Closed,
    /// The name is reserved, or no name of a file.
    #[error("no file may have this name")]
    BadName,
    /// The set has a file of this name.
    #[error("the set has a file of this name")]
    SameName,
    /// No file was begun.
    #[error("no file was begun")]
    NotBegun,
    /// Memory was refused.
    #[error("out of memory")]
    NoMemory,
    /// The disk failed.
    #[error("the disk failed")]
    Failed,
}

impl From<AllocError> for SetFault {
    ghost use Rattle.files_in_place.specs.declared.faults.SetFault.TheVariants.{NoMemory as NoSetRoom};

    ghost from_gives = { λ _ e. e ≡ NoSetRoom };

    fn from(_: AllocError) -> Self {
        SetFault::NoMemory
    }
}

impl From<DiskFault> for SetFault {
    ghost use Rattle.files_in_place.specs.Faults.{set_fault_of};

    ghost from_gives = { λ d e. e ≡ set_fault_of d };

    fn from(fault: DiskFault) -> Self {
        match fault {
            DiskFault::NoMemory => SetFault::NoMemory,
            DiskFault::Failed => SetFault::Failed,
        }
    }
}
