//! Why a log took no group, or was not read.

use files_in_place::DiskFault;
use std::alloc::{AllocError, AllocFailed};
use thiserror::Error;

/// Why a log took no group.
#[derive(Clone, Copy, Debug, PartialEq, Eq, Error)]
pub enum LogFault {
    /// An earlier group failed, and so the log takes no more.
    #[error("the log takes no more")]
    Closed,
    /// The log would have 2^64 bytes or more.
    #[error("the log is too long")]
    TooLong,
    /// Memory was refused.
    #[error("out of memory")]
    NoMemory,
    /// The disk failed.
    #[error("the disk failed")]
    Failed,
}

/// Why a log was not read.
#[derive(Clone, Copy, Debug, PartialEq, Eq, Error)]
pub enum ReadFault {
    /// Somebody has changed the log, or it is no log: the entry of this number, counted from 1, is the first that does not stand in it as
    /// it was put.
    #[error("entry {0} of the log is changed")]
    Changed(u64),
    /// Memory was refused.
    #[error("out of memory")]
    NoMemory,
}

impl From<AllocError> for ReadFault {
    ghost use Rattle.std.specs.Prelude.{◌≡◌};
    ghost use Rattle.live_log.specs.declared.faults.ReadFault.TheVariants.{NoMemory};

    ghost from_gives = { λ _ e. e ≡ NoMemory };

    fn from(_: AllocError) -> Self {
        ReadFault::NoMemory
    }
}

impl<T: Drop> From<AllocFailed<T>> for ReadFault {
    ghost use Rattle.std.specs.Prelude.{◌≡◌};
    ghost use Rattle.live_log.specs.declared.faults.ReadFault.TheVariants.{NoMemory};

    ghost from_gives = { λ _ e. e ≡ NoMemory };

    fn from(_: AllocFailed<T>) -> Self {
        ReadFault::NoMemory
    }
}

impl From<AllocError> for LogFault {
    ghost use Rattle.std.specs.Prelude.{◌≡◌};
    ghost use Rattle.live_log.specs.declared.faults.LogFault.TheVariants.{NoMemory};

    ghost from_gives = { λ _ e. e ≡ NoMemory };

    fn from(_: AllocError) -> Self {
        LogFault::NoMemory
    }
}

impl From<DiskFault> for LogFault {
    ghost use Rattle.std.specs.Prelude.{◌≡◌};
    ghost use Rattle.live_log.specs.Faults.{log_fault_of};

    ghost from_gives = { λ d e. e ≡ log_fault_of d };

    fn from(fault: DiskFault) -> Self {
        match fault {
            DiskFault::NoMemory => LogFault::NoMemory,
            DiskFault::Failed => LogFault::Failed,
        }
    }
}
