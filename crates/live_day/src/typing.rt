//! The lines that are there together are read.

ghost use Rattle.std.specs.Prelude.{◌≡◌, ◌≢◌, ◌<◌, ◌≤◌, ◌++◌, ◌∷◌, [], length, true, false, vec_capacity, vec_len, Some, None, IfSome};
ghost use Rattle.std.specs.List.{AllByRecursion};
ghost use Rattle.live_day.specs.declared.keyboard.Typed.{Typed as TypedLine};
ghost use Rattle.live_day.specs.declared.keyboard.TypingFault.TheVariants as of_typing;
ghost use Rattle.live_day.specs.declared.typing.Then.TheVariants.{More, Failed};
ghost use Rattle.live_day.specs.declared.typing.TheConstants.{MAX_GROUP_LINES};
ghost use Rattle.live_day.specs.declared.wish.Wish.TheVariants.{Quit};
ghost use Rattle.live_day.specs.Groups.{IsGroupTyped, IsNoQuit};
ghost use Rattle.live_day.specs.Sessions.{IsWishTyped};
ghost use Rattle.live_day.specs.Typing.{TypesNext};

use crate::keyboard::{Keyboard, Typed, TypingFault};
use crate::wish::is_quit;
use std::alloc::Global;

/// How many lines a group has at most.
pub const MAX_GROUP_LINES: usize = 1_000;

/// What comes after the lines of a group.
#[derive(Clone, Copy, Debug, PartialEq, Eq)]
pub(crate) enum Then {
    // Further lines.
    More,
    // Nothing: QUIT was typed, or no more lines come.
    Over,
    // A line that could not be read.
    Failed(TypingFault),
}

// The lines of a group, and what comes after them.
#[derive(Debug, Drop)]
pub(crate) struct Group {
    pub(crate) lines: Vec<Typed>,
    pub(crate) then: Then,
}

// The lines of a group after which further ones come.
fn unended(lines: Vec<Typed>) -> Group
    ensures lines { result.lines.items ≡ lines.items }
    ensures then { result.then ≡ More }
{
    Group {
        lines,
        then: Then::More,
    }
}

// Whether a typed line is QUIT.
fn is_quit_typed(typed: &Typed) -> bool
    ensures no { result ≡ false → IsNoQuit typed.now }
    ensures yes { result ≡ true → IsWishTyped typed.now Quit }
{
    match typed {
        Typed::Text(line) => is_quit(line.as_slice()),
        Typed::TooLong => false,
        Typed::Cut => false,
    }
}

// Reads the next line of a group. `None` where it is one of the group's; else what comes after these.
fn read_next<K: Keyboard>(
    alloc: Global,
    keyboard: &mut K,
    station: u32,
    lines: &mut Vec<Typed>,
) -> Option<Then>
    requires room { vec_len lines.old < vec_capacity lines.old }
    ensures line { result ≡ None → (typed : TypedLine) × (lines.new.items ≡ lines.old.items ++ typed ∷ []) × IsNoQuit typed
        × (K.typed keyboard.new ≡ K.typed keyboard.old ++ typed ∷ []) × TypesNext (K.text_left keyboard.old) (Some typed) (K.text_left keyboard.new) }
    ensures over { IfSome result (λ then. then ≢ More) }
    ensures failed { result ≡ Some (Failed of_typing.Failed) → K.has_failed keyboard.new }
    ensures end { IfSome result (λ then. (lines.new.items ≡ lines.old.items)
        × IsGroupTyped (K.has_ended keyboard.new) (K.text_left keyboard.old) (K.text_left keyboard.new) (K.typed keyboard.old) (K.typed keyboard.new) [] then) }
{
    match keyboard.next_line(alloc, station) {
        Ok(Some(typed)) => {
            if is_quit_typed(&typed) {
                return Some(Then::Over);
            }
            lines.push_reserved(typed);
            None
        }
        Ok(None) => Some(Then::Over),
        Err(fault) => Some(Then::Failed(fault)),
    }
}

// Reads a line, and further ones while they are there already: up to QUIT, to the end of what is typed, or to as many as a group has.
pub(crate) fn read_group<K: Keyboard>(alloc: Global, keyboard: &mut K, station: u32) -> Group
    ensures no_quit { AllByRecursion IsNoQuit result.lines.items }
    ensures read { IsGroupTyped (K.has_ended keyboard.new) (K.text_left keyboard.old) (K.text_left keyboard.new)
        (K.typed keyboard.old) (K.typed keyboard.new) result.lines.items result.then }
    ensures some { result.then ≡ More → 0 < length result.lines.items }
    ensures few { length result.lines.items ≤ MAX_GROUP_LINES }
    ensures failed { result.then ≡ Failed of_typing.Failed → K.has_failed keyboard.new }
{
    let mut lines = Vec::new(alloc);
    let Ok(()) = lines.reserve(1) else {
        let then = Then::Failed(TypingFault::NoMemory);
        return Group { lines, then };
    };
    'reading: for _ in 0..MAX_GROUP_LINES {
        if let Some(then) = read_next(alloc, keyboard, station, &mut lines) {
            return Group { lines, then };
        }
        if !keyboard.has_line() {
            return unended(lines);
        }
        let Ok(()) = lines.reserve(1) else {
            return unended(lines);
        };
    }
    unended(lines)
}
