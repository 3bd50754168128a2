//! Why a day did not start.

use audit::AuditFault;
use live_log::ReadFault;

/// Why what a log says was not performed once more.
#[derive(Debug, PartialEq, Eq, Drop)]
pub enum StartFault {
    /// Somebody has changed the log, or it is no log: the entry of this number is the first that does not stand in it as it was put.
    Changed(u64),
    /// An entry does not hold.
    Audit(AuditFault),
    /// Memory was refused.
    NoMemory,
}

impl From<ReadFault> for StartFault {
    ghost use Rattle.std.specs.Prelude.{◌≡◌};
    ghost use Rattle.live_day.specs.Starts.{read_fault_of};

    ghost from_gives = { λ read fault. fault ≡ read_fault_of read };

    fn from(fault: ReadFault) -> StartFault {
        match fault {
            ReadFault::Changed(number) => StartFault::Changed(number),
            ReadFault::NoMemory => StartFault::NoMemory,
        }
    }
}

impl From<AuditFault> for StartFault {
    ghost use Rattle.std.specs.Prelude.{◌≡◌};
    ghost use Rattle.live_day.specs.Starts.{audit_fault_of};

    ghost from_gives = { λ audit fault. fault ≡ audit_fault_of audit };

    fn from(fault: AuditFault) -> StartFault {
        match fault {
            AuditFault::NoMemory => StartFault::NoMemory,
            other => StartFault::Audit(other),
        }
    }
}
