//! The thread that prints what a station is answered.

ghost use Rattle.std.specs.Prelude.{◌≡◌, ◌++◌, ◌∷◌, [], ℕ, List, None, true, IfSome};
ghost use Rattle.rtrb.specs.Ring.{received, SameConsumer};
ghost use Rattle.live_stations.specs.Handed.{HasTaken, IsPrintedAt, IsPrinterEnd};

use crate::office::{Office, Place};
use crate::terminals::Terminals;
use byte_io::Bytes;
use live_program::print_line;
use rtrb::Consumer;
use std::alloc::Global;
use std::io::Write;
use std::sync::Wait;

/// What the thread leaves that prints what a station is answered.
#[derive(Drop)]
pub(crate) struct Printer<W: Write + Drop> {
    pub(crate) screen: Option<W>,
    pub(crate) answers: Consumer<Bytes>,
    // Whether each answer was printed that was received.
    pub(crate) all_printed: bool,
}

// The next answer. `None` where none comes any more.
fn next_answer<R: Wait>(
    rt: &R,
    office: &Office,
    place: &Place,
    answers: &mut Consumer<Bytes>,
) -> Option<Bytes>
    ensures ring { SameConsumer answers.old answers.new }
    ensures some { IfSome result (λ line. received answers.new ≡ received answers.old ++ line ∷ []) }
    ensures none { result ≡ None → received answers.new ≡ received answers.old }
{
    for _ in rt.forever() {
        let count = place.bell.count(rt);
        let is_over = office.is_over();
        if let Ok(line) = answers.pop() {
            if place.take_waiting() {
                office.day.wake(rt);
            }
            return Some(line);
        }
        if is_over {
            return None;
        }
        place.bell.wait_past(rt, count);
    }
    unreachable!()
}

// Prints answers as they come, until none comes any more or one can't be printed: it is said whether all were printed.
fn print_lines<W: Write, R: Wait>(
    rt: &R,
    office: &Office,
    place: &Place,
    screen: &mut W,
    answers: &mut Consumer<Bytes>,
) -> bool
    ensures ring { SameConsumer answers.old answers.new }
    ensures taken { HasTaken (W.contents screen.old) (W.contents screen.new) (received answers.old) (received answers.new) result }
{
    for _ in rt.forever() {
        let Some(line) = next_answer(rt, office, place, answers) else {
            return true;
        };
        match print_line(screen, line.as_slice()) {
            Ok(()) => {}
            Err(_) => return false,
        }
    }
    unreachable!()
}

// Lets answers go as they come, until none comes any more. Says whether there was none.
fn drop_lines<R: Wait>(
    rt: &R,
    office: &Office,
    place: &Place,
    answers: &mut Consumer<Bytes>,
) -> bool
    ensures ring { SameConsumer answers.old answers.new }
    ensures more { (lines : List (List ℕ)) × (received answers.new ≡ received answers.old ++ lines) }
    ensures none { result ≡ true → received answers.new ≡ received answers.old }
{
    let mut was_none = true;
    for _ in rt.forever() {
        if next_answer(rt, office, place, answers).is_none() {
            return was_none;
        }
        was_none = false;
    }
    unreachable!()
}

// Prints on a station's screen what comes, once the day has begun. Says whether all of it was printed, and nothing is on a screen that
// can't be opened, or in a day that has not begun.
#[tactic(auto, using(crate::proofs::PrinterLaws::shown_there))]
fn print_begun<T: Terminals, R: Wait>(
    rt: &R,
    alloc: Global,
    office: &Office,
    place: &Place,
    terminals: &T,
    station: u32,
    answers: &mut Consumer<Bytes>,
) -> (Option<T::Screen>, bool)
    requires untaken { received answers.old ≡ [] }
    ensures ring { SameConsumer answers.old answers.new }
    ensures printed { IsPrintedAt T.Screen.contents (T.reads terminals.now station) result.0 (received answers.new) result.1 }
{
    if !office.wait_for_begin(rt, place) {
        return (None, true);
    }
    let Some(mut screen) = terminals.open_screen(alloc, station) else {
        place.set_gone();
        return (None, true);
    };
    let is_shown = print_lines(rt, office, place, &mut screen, answers);
    if !is_shown {
        place.set_gone();
    }
    (Some(screen), is_shown)
}

// Whether all were printed: all that came to the screen, and none came after these.
fn are_all_printed(is_printed: bool, was_none: bool) -> bool
    ensures both { result ≡ true → (is_printed ≡ true) × (was_none ≡ true) }
{
    is_printed && was_none
}

/// Prints what a station is answered once the day has begun, line by line. Where a line can't be printed the day takes no more lines of the
/// station, and its answers stand in its answer file alone.
pub(crate) fn print_answers<T: Terminals, R: Wait>(
    rt: &R,
    alloc: Global,
    office: &Office,
    place: &Place,
    terminals: &T,
    station: u32,
    mut answers: Consumer<Bytes>,
) -> Printer<T::Screen>
    requires untaken { received answers ≡ [] }
    ensures ended { IsPrinterEnd T.Screen.contents (T.reads terminals.now station) answers result }
{
    let (screen, is_printed) = print_begun(
        rt,
        alloc,
        office,
        place,
        terminals,
        station,
        &mut answers,
    );
    let was_none = drop_lines(rt, office, place, &mut answers);
    Printer {
        screen,
        answers,
        all_printed: are_all_printed(is_printed, was_none),
    }
}
