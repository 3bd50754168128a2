//! Why a run did not come to its end.

use catalogue_core::Stop;
use shared_catalogue::SettleFault;
use std::alloc::AllocError;
use thiserror::Error;

/// Why a run did not come to its end. Stations count from 1.
#[derive(Clone, Copy, Debug, PartialEq, Eq, Error)]
pub enum RunFault {
    /// There are not as many scripts as seats.
    #[error("there are not as many scripts as stations")]
    ScriptCount,
    /// No thread could be started for the station.
    #[error("no thread for station {0}")]
    NoThread(u32),
    /// The station's worker was stopped.
    #[error("station {0} was stopped: {1}")]
    Stopped(u32, Stop),
    /// The catalogue was not settled.
    #[error("not settled: {0}")]
    Settle(SettleFault),
    /// Memory was refused.
    #[error("out of memory")]
    NoMemory,
}

impl From<AllocError> for RunFault {
    ghost use Rattle.std.specs.Prelude.{◌≡◌};
    ghost use Rattle.office_run.specs.declared.run_fault.RunFault.TheVariants.{NoMemory};

    ghost from_gives = { λ _ fault. fault ≡ NoMemory };

    fn from(_refused: AllocError) -> RunFault {
        RunFault::NoMemory
    }
}

impl From<SettleFault> for RunFault {
    ghost use Rattle.std.specs.Prelude.{◌≡◌};
    ghost use Rattle.office_run.specs.declared.run_fault.RunFault.TheVariants.{Settle};

    ghost from_gives = { λ fault run. run ≡ Settle fault };

    fn from(fault: SettleFault) -> RunFault {
        RunFault::Settle(fault)
    }
}
