//! The thread that reads what a station types.

ghost use Rattle.std.specs.Prelude.{◌≡◌, ◌++◌, [], take, true, false};
ghost use Rattle.rtrb.specs.Ring.{sent, SameProducer};
ghost use Rattle.live_day.specs.Groups.{IsNoQuit};
ghost use Rattle.live_day.specs.Sessions.{IsWishTyped};
ghost use Rattle.live_day.specs.Wishes.{is_station_word as begins_with_station};
ghost use Rattle.live_day.specs.declared.wish.Wish.TheVariants.{Quit};
ghost use Rattle.live_stations.specs.Hearings.{over_mark};
ghost use Rattle.live_stations.specs.Items.{as_own as own_line};
ghost use Rattle.live_stations.specs.Typists.{typed_at, HasSent, IsTypistEnd};
ghost use Rattle.live_day.specs.declared.wish.TheConstants.{STATION_WORD_BYTES};

use crate::heard::Heard;
use crate::office::{Office, Place};
use crate::sending::send_waiting;
use crate::terminals::Terminals;
use live_day::{Keyboard, STATION_WORD_BYTES, Typed, TypingFault, Wish, wish_of};
use rtrb::Producer;
use std::alloc::Global;
use std::sync::Wait;

/// Why no more lines of a station come.
#[derive(Clone, Copy, Debug, PartialEq, Eq)]
pub enum LinesEnd {
    /// QUIT was typed.
    Quit,
    /// Its input has ended.
    Ended,
    /// A line could not be read, or memory was refused for it.
    Unread(TypingFault),
    /// Its answers can't be printed any more.
    Unprinted,
    /// Where it types can't be opened.
    Unopened,
    /// The day was over before.
    DayOver,
}

/// What the thread leaves that reads what a station types.
#[derive(Drop)]
pub(crate) struct Typist<K: Keyboard + Drop> {
    pub(crate) keyboard: Option<K>,
    pub(crate) lines: Producer<Heard>,
    // Why no more lines come, and whether that was sent.
    pub(crate) end: LinesEnd,
    pub(crate) is_told: bool,
}

// Whether a line is QUIT.
fn is_quit(typed: &Typed) -> bool
    ensures yes { result ≡ true → IsWishTyped typed.now Quit }
    ensures no { result ≡ false → IsNoQuit typed.now }
{
    match typed {
        Typed::Text(line) => wish_of(line.as_slice()) == Wish::Quit,
        Typed::TooLong => false,
        Typed::Cut => false,
    }
}

// Whether a line begins as one that gives the keyboard to a station.
fn is_of_keyboard(line: &[u8]) -> bool
    ensures value { result ≡ begins_with_station (take STATION_WORD_BYTES line.now) }
{
    let (word, _) = line.split_at(line.len().min(STATION_WORD_BYTES));
    word.eq_ignore_ascii_case(b"STATION ")
}

// A line as the day has it: a station gives the keyboard to no other, so such a line is one that can't be read.
fn as_own(typed: Typed) -> Typed
    ensures value { result ≡ own_line typed }
{
    match typed {
        Typed::Text(line) if is_of_keyboard(line.as_slice()) => Typed::TooLong,
        typed => typed,
    }
}

// Sends the lines that a station types, one after another, until no more come.
#[tactic(auto, using(crate::proofs::TypistLaws::none_gone, crate::proofs::TypistLaws::one_gone, crate::proofs::TypistLaws::gone_last, crate::proofs::TypistLaws::gone_unread, crate::proofs::TypistLaws::gone_to_end))]
fn send_lines<K: Keyboard, R: Wait>(
    rt: &R,
    alloc: Global,
    office: &Office,
    place: &Place,
    station: u32,
    keyboard: &mut K,
    lines: &mut Producer<Heard>,
) -> LinesEnd
    ensures ring { SameProducer lines.old lines.new }
    ensures sent { HasSent (K.text_left keyboard.old) (K.typed keyboard.old) (K.typed keyboard.new) (sent lines.old) (sent lines.new) result }
{
    for _ in rt.forever() {
        let typed = match keyboard.next_line(alloc, station) {
            Ok(Some(typed)) => typed,
            Ok(None) => return LinesEnd::Ended,
            Err(fault) => return LinesEnd::Unread(fault),
        };
        if is_quit(&typed) {
            return LinesEnd::Quit;
        }
        if place.is_gone() {
            return LinesEnd::Unprinted;
        }
        if !send_waiting(rt, office, &place.bell, lines, Heard::Line(as_own(typed))) {
            return LinesEnd::DayOver;
        }
        office.day.wake(rt);
    }
    unreachable!()
}

// Sends that no more lines come, and says whether it was sent.
fn send_over<R: Wait>(rt: &R, office: &Office, place: &Place, lines: &mut Producer<Heard>) -> bool
    ensures ring { SameProducer lines.old lines.new }
    ensures sent { sent lines.new ≡ sent lines.old ++ over_mark result }
{
    let is_sent = send_waiting(rt, office, &place.bell, lines, Heard::Over);
    office.day.wake(rt);
    is_sent
}

// Sends what a station types once the day has begun, and says why no more lines come.
#[tactic(auto, using(crate::proofs::TypistLaws::none_sent, crate::proofs::TypistLaws::sent_there))]
fn type_begun<T: Terminals, R: Wait>(
    rt: &R,
    alloc: Global,
    office: &Office,
    place: &Place,
    terminals: &T,
    station: u32,
    lines: &mut Producer<Heard>,
) -> (Option<T::Keyboard>, LinesEnd)
    requires unsent { sent lines.old ≡ [] }
    ensures ring { SameProducer lines.old lines.new }
    ensures sent { HasSent (T.types terminals.now station) [] (typed_at T.Keyboard.typed result.0) [] (sent lines.new) result.1 }
{
    if !office.wait_for_begin(rt, place) || office.is_over() {
        return (None, LinesEnd::DayOver);
    }
    let Some(mut keyboard) = terminals.open_keyboard(alloc, station) else {
        return (None, LinesEnd::Unopened);
    };
    let end = send_lines(rt, alloc, office, place, station, &mut keyboard, lines);
    (Some(keyboard), end)
}

/// Reads what a station types once the day has begun, and sends it line by line.
#[tactic(auto, using(crate::proofs::TypistLaws::sent_by))]
pub(crate) fn type_lines<T: Terminals, R: Wait>(
    rt: &R,
    alloc: Global,
    office: &Office,
    place: &Place,
    terminals: &T,
    station: u32,
    mut lines: Producer<Heard>,
) -> Typist<T::Keyboard>
    requires unsent { sent lines ≡ [] }
    ensures ended { IsTypistEnd T.Keyboard.typed (T.types terminals.now station) lines result }
{
    let (keyboard, end) = type_begun(rt, alloc, office, place, terminals, station, &mut lines);
    let is_told = send_over(rt, office, place, &mut lines);
    Typist {
        keyboard,
        lines,
        end,
        is_told,
    }
}
