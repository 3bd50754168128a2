//! What a command will change.

ghost use Rattle.std.specs.Prelude.{◌≡◌};

use crate::answer::Answer;
use crate::area::Area;
use table_core::Planned;

/// A change of the state by a station. Every command moves such a value about, so none of the variants is large.
#[derive(Drop)]
pub(crate) enum Change {
    /// None.
    Nothing,
    /// The area of this number is the current one.
    Select(u32),
    /// The current area's table is closed.
    Close,
    /// This is open in the current area, in place of what was open there.
    Open(Area),
    /// The current area has another cursor, and is this.
    Move(Area),
    /// The table of this, which is the current area, is edited.
    Edit(Area, Planned),
    /// The table of this, which is the current area, is packed, and the station's locks in it are released.
    Pack(Area, Planned),
    /// A record of the area's table is locked.
    RecordLock(Area, u32),
    /// Records of the area's table are locked: these, in any order and as often as the command lists them.
    RecordLocks(Area, Vec<u32>),
    /// The area's table is locked.
    FileLock(Area),
    /// The station's locks in the area's table are released.
    Unlock(Area),
    /// All locks of the station are released.
    UnlockAll,
}

/// A change that a command asks for, and its answer.
#[derive(Drop)]
pub(crate) struct Plan {
    /// What will change.
    pub(crate) change: Change,
    /// What will be answered.
    pub(crate) answer: Answer,
}

impl Plan {
    ghost use Rattle.catalogue_core.specs.declared.change.Change.TheVariants.{Nothing};
    ghost use Rattle.catalogue_core.specs.declared.answer.Answer.TheVariants.{Done};

    /// A change that is answered by OK.
    pub(crate) fn done(change: Change) -> Plan
        ensures value { result ≡ record { change = change; answer = Done } }
    {
        Plan {
            change,
            answer: Answer::Done,
        }
    }

    /// An answer that changes nothing.
    pub(crate) fn answered(answer: Answer) -> Plan
        ensures value { result ≡ record { change = Nothing; answer = answer } }
    {
        Plan {
            change: Change::Nothing,
            answer,
        }
    }
}
