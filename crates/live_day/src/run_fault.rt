//! Why the lines of a day were not all answered.

use crate::keyboard::TypingFault;
use crate::screen::ScreenFault;
use live_log::LogFault;

/// Why the lines of a day were not all answered. What was shown is in the log.
#[derive(Clone, Copy, Debug, PartialEq, Eq)]
pub enum RunFault {
    /// A line was performed, and its entry may be in the log or not: the next start finds which.
    Log(LogFault),
    /// The screen takes no more lines.
    Screen,
    /// The lines can't be read.
    Unread,
    /// Memory was refused for a line that was typed.
    NoMemory,
}

impl From<LogFault> for RunFault {
    ghost use Rattle.std.specs.Prelude.{◌≡◌};
    ghost use Rattle.live_day.specs.declared.run_fault.RunFault.TheVariants.{Log};

    ghost from_gives = { λ log fault. fault ≡ Log log };

    fn from(fault: LogFault) -> RunFault {
        RunFault::Log(fault)
    }
}

impl From<ScreenFault> for RunFault {
    ghost use Rattle.std.specs.Prelude.{◌≡◌};
    ghost use Rattle.live_day.specs.declared.run_fault.RunFault.TheVariants.{Screen};

    ghost from_gives = { λ _ fault. fault ≡ Screen };

    fn from(_: ScreenFault) -> RunFault {
        RunFault::Screen
    }
}

impl From<TypingFault> for RunFault {
    ghost use Rattle.std.specs.Prelude.{◌≡◌};
    ghost use Rattle.live_day.specs.Faults.{typing_fault_of};

    ghost from_gives = { λ typing fault. fault ≡ typing_fault_of typing };

    fn from(fault: TypingFault) -> RunFault {
        match fault {
            TypingFault::NoMemory => RunFault::NoMemory,
            TypingFault::Failed => RunFault::Unread,
        }
    }
}
