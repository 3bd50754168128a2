//! Where the lines of a day come from.

ghost use Rattle.std.specs.Prelude.{◌≡◌, ◌++◌, ◌∷◌, [], ℕ, List, Option, None, Ok, IfOk, IfSome, IsErrOf, OnErr};
ghost use Rattle.live_day.specs.Typing.{TypesNext};
ghost use Rattle.live_day.specs.declared.keyboard.Typed.{Typed as TypedLine};
ghost use Rattle.live_day.specs.declared.keyboard.TypingFault.TheVariants.{Failed};

use byte_io::Bytes;
use std::alloc::{AllocError, Global};

/// How many bytes a line may have that is performed.
pub const MAX_LINE_BYTES: usize = 70_000;

/// What is typed, up to the end of a line.
#[derive(Debug, Drop)]
pub enum Typed {
    /// A line without its ending, of at most [`MAX_LINE_BYTES`] bytes.
    Text(Bytes),
    /// A line that has more bytes. It is skipped.
    TooLong,
    /// The last bytes of a text, which no LF ends: the line was cut, as by a connection that broke. It is not performed.
    Cut,
}

/// Why there is no line.
#[derive(Clone, Copy, Debug, PartialEq, Eq)]
pub enum TypingFault {
    /// Memory was refused.
    NoMemory,
    /// The lines can't be read.
    Failed,
}

impl From<AllocError> for TypingFault {
    ghost use Rattle.std.specs.Prelude.{◌≡◌};
    ghost use Rattle.live_day.specs.declared.keyboard.TypingFault.TheVariants.{NoMemory};

    ghost from_gives = { λ _ fault. fault ≡ NoMemory };

    fn from(_: AllocError) -> TypingFault {
        TypingFault::NoMemory
    }
}

/// Where lines are typed.
pub trait Keyboard {
    // what was typed, up to now
    ghost typed: { Self → List TypedLine };

    // no more lines come
    ghost has_ended: { Self → Type 0 };

    // a line could not be read
    ghost has_failed: { Self → Type 0 };

    // the text that is still to be read, where it is known
    ghost text_left: { Self → Option (List ℕ) };

    /// The next line, typed for this station. `None` where no more come.
    fn next_line(&mut self, alloc: Global, station: u32) -> Result<Option<Typed>, TypingFault>
        ensures typed { IfOk result (λ next. IfSome next (λ line. typed self.new ≡ typed self.old ++ line ∷ [])) }
        ensures end { result ≡ Ok None → (typed self.new ≡ typed self.old) × has_ended self.new }
        ensures unread { OnErr result (typed self.new ≡ typed self.old) }
        ensures failed { IsErrOf result Failed → has_failed self.new }
        // It is the first line of the text that is left, and that goes on after it; and none comes only where nothing is left.
        ensures text { IfOk result (λ next. TypesNext (text_left self.old) next (text_left self.new)) };

    /// Whether a further whole line is there already. It is a hint for how many lines are put to the log at once: a `false` is always
    /// right, and where it is `true` the next call of [`Keyboard::next_line`] need not wait.
    fn has_line(&self) -> bool;
}
