//! Why a line has no answer.

use catalogue_core::Stop;
use std::alloc::AllocError;
use thiserror::Error;

/// Why a line has no answer.
#[derive(Clone, Copy, Debug, PartialEq, Eq, Error)]
pub enum LineFault {
    /// Memory was refused, and nothing was performed: the day goes on.
    #[error("out of memory")]
    NoMemory,
    /// The journal takes no more entries, and nothing was performed.
    #[error("the journal is full")]
    JournalFull,
    /// The line was performed, and memory was refused for its answer: the day takes no more lines.
    #[error("out of memory for the answer")]
    Unanswered,
}

impl From<AllocError> for LineFault {
    ghost use Rattle.std.specs.Prelude.{◌≡◌};
    ghost use Rattle.live_day.specs.declared.faults.LineFault.TheVariants.{NoMemory};

    ghost from_gives = { λ _ e. e ≡ NoMemory };

    fn from(_: AllocError) -> Self {
        LineFault::NoMemory
    }
}

impl From<Stop> for LineFault {
    ghost use Rattle.std.specs.Prelude.{◌≡◌};
    ghost use Rattle.live_day.specs.Faults.{line_fault_of};

    ghost from_gives = { λ stop e. e ≡ line_fault_of stop };

    fn from(stop: Stop) -> Self {
        match stop {
            Stop::NoMemory => LineFault::NoMemory,
            Stop::JournalFull => LineFault::JournalFull,
        }
    }
}
