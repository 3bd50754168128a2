//! What is said where nothing was performed.

ghost use Rattle.std.specs.Prelude.{◌≡◌};
ghost use Rattle.live_day.specs.Shows.{notice_text};

/// What is said where nothing was performed.
#[derive(Clone, Copy, Debug, PartialEq, Eq)]
pub enum Notice {
    /// Memory was refused.
    NoMemory,
    /// The journal takes no more entries.
    JournalFull,
    /// No station has the number.
    NoStation,
    /// The line was cut.
    Cut,
}

/// The line that says it. Takes no memory.
pub(crate) fn notice_line(notice: Notice) -> &'static [u8]
    ensures value { result.now ≡ notice_text notice }
{
    match notice {
        Notice::NoMemory => b"NOT PERFORMED: OUT OF MEMORY",
        Notice::JournalFull => b"NOT PERFORMED: THE JOURNAL IS FULL",
        Notice::NoStation => b"NO SUCH STATION",
        Notice::Cut => b"NOT PERFORMED: THE LINE WAS CUT",
    }
}
