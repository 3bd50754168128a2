//! The lines of all stations, as one day reads them.

ghost use Rattle.std.specs.Prelude.{◌≡◌, ◌++◌, ◌∷◌, [], List, None, true, false, length, IfOk, IfSome, OnErr, Ok};
ghost use Rattle.std.specs.List.{list_all};
ghost use Rattle.rtrb.specs.Ring.{SameConsumer};
ghost use Rattle.live_day.specs.declared.keyboard.Typed.{Typed as TypedLine};
ghost use Rattle.live_stations.specs.Done.{AreNamed};
ghost use Rattle.live_stations.specs.Hearings.{is_over_of, AreHeardFrom, AreOver, IsHeardAgain, IsHeardOf, IsNumbered, IsSaidNow};
ghost use Rattle.live_stations.specs.Items.{item_lines, station_line as line_of_station, Item};
ghost use Rattle.live_stations.specs.declared.hearing.Hearing.{Hearing as Hears};

use crate::hearing::Hearing;
use crate::office::Office;
use crate::rings::Rings;
use byte_io::Bytes;
use itoa::Buffer;
use live_day::{Keyboard, Typed, TypingFault};
use live_program::{NumberLists, Numbered};
use std::alloc::{AllocError, Global};
use std::marker::{Model, PhantomData};
use std::sync::Wait;

// That a station is given the keyboard, for contracts.
#[derive(Drop)]
struct Named {
    station: u32,
}

impl Numbered for Named {
    ghost use Rattle.live_stations.specs.Items.{named, numbers_of_item};

    ghost numbered = { λ n. numbers_of_item (named n.station) };
}

// That the station that has the keyboard said a line, for contracts.
#[derive(Drop)]
struct Said<'a> {
    line: &'a Typed,
}

impl<'a> Numbered for Said<'a> {
    ghost use Rattle.live_stations.specs.Items.{said, numbers_of_item};

    ghost numbered = { λ s. numbers_of_item (said s.line.now) };
}

// Where there is a line.
#[derive(Clone, Copy, PartialEq, Eq)]
enum Found {
    // Of the station of this index.
    Line(usize),
    // Nowhere, and no more come.
    Over,
    // Nowhere yet.
    Nothing,
}

/// The lines of all stations, as one day reads them: before a line of another station than the one that has the keyboard, the keyboard is
/// given to it.
#[derive(Drop)]
pub(crate) struct HeardLines<'a, R: Wait, J: Rings> {
    rt: &'a R,
    office: &'a Office,
    hearings: Vec<Hearing>,
    // Which is looked at first.
    next: usize,
    // The station that has the keyboard.
    seated: u32,
    // Whether a further line is there.
    has_more: bool,
    // What was read, and whether all stations are over, for contracts.
    items: NumberLists,
    ended: bool,
    of: PhantomData<J>,
}

impl<'a, R: Wait, J: Rings> Model for HeardLines<'a, R, J> {
    ghost use Rattle.std.specs.Prelude.{◌≡◌, true, map};
    ghost use Rattle.live_stations.specs.Hearings.{HeardValue, IsHearing, AreOver};
    ghost use Rattle.live_stations.specs.Items.{item_of_numbers};

    ghost Value = { HeardValue };

    ghost view = { λ k. record { hearings = k.hearings.items; items = map item_of_numbers k.items; ended = k.ended } };

    ghost invariant = { λ k. IsHearing J.hearings k.hearings.items (map item_of_numbers k.items) k.seated × (k.ended ≡ true → AreOver k.hearings.items) };
}

// The line that gives a station the keyboard.
fn station_line(alloc: Global, station: u32) -> Result<Typed, AllocError>
    ensures line { IfOk result (λ line. line ≡ line_of_station station) }
{
    let mut line = Vec::new(alloc);
    line.extend_from_slice(b"STATION ")?;
    let mut buffer = Buffer::new();
    line.extend_from_slice(buffer.format(station).as_bytes())?;
    Ok(Typed::Text(Bytes::from_vec(line)))
}

impl<'a, R: Wait, J: Rings> HeardLines<'a, R, J> {
    /// Of stations of which nothing was heard: the first has the keyboard.
    pub(crate) fn new(rt: &'a R, office: &'a Office, hearings: Vec<Hearing>) -> HeardLines<'a, R, J>
        requires named { hearings.items ≡ J.hearings }
        requires unheard { AreHeardFrom [] 1 hearings.items hearings.items }
        ensures hearings { result.hearings ≡ hearings.items }
        ensures unread { result.items ≡ [] }
        ensures open { result.ended ≡ false }
    {
        HeardLines {
            rt,
            office,
            hearings,
            next: 0,
            seated: 1,
            has_more: false,
            items: NumberLists::empty(),
            ended: false,
            of: PhantomData,
        }
    }

    /// Whether no more lines come.
    pub(crate) fn has_ended(&self) -> bool
        ensures value { result ≡ self.now.ended }
    {
        self.ended
    }

    /// What was heard of each station.
    pub(crate) fn into_hearings(self) -> Vec<Hearing>
        ensures hearings { result.items ≡ self.entry.hearings }
        ensures heard { AreHeardFrom self.entry.items 1 J.hearings result.items }
        ensures over { self.entry.ended ≡ true → AreOver result.items }
        ensures are_named { AreNamed (length result.items) self.entry.items }
    {
        self.hearings
    }
}

// Whether a line of a station is there that may be taken: where too many of its answers wait to be printed none is.
fn has_line(office: &Office, hearing: &mut Hearing) -> bool
    ensures station { hearing.new.station ≡ hearing.old.station }
    ensures ring { SameConsumer hearing.old.lines hearing.new.lines }
    ensures heard { (given : List TypedLine) → IsHeardOf given hearing.old → IsHeardOf given hearing.new }
{
    let is_busy = office
        .place(hearing.station)
        .is_some_and(|place| place.is_busy());
    !is_busy && hearing.has_line()
}

// Whether no more lines of a station come.
fn is_over(hearing: &Hearing) -> bool
    ensures value { result ≡ is_over_of hearing.now }
{
    hearing.is_over && hearing.ahead.is_none()
}

// Whether no more lines come.
fn are_over(hearings: &[Hearing]) -> bool
    ensures value { result ≡ list_all is_over_of hearings.now }
{
    hearings.iter().all(|hearing| is_over(hearing))
}

// The index after this one, in a circle of so many.
fn after(index: usize, count: usize) -> usize {
    if index < count && index + 1 < count {
        index + 1
    } else {
        0
    }
}

// Whether a line of the station of an index is there that may be taken.
fn has_line_at(office: &Office, hearings: &mut Vec<Hearing>, index: usize) -> bool
    ensures heard { IsHeardAgain hearings.old.items hearings.new.items }
{
    match hearings.get_mut(index) {
        Some(hearing) => has_line(office, hearing),
        None => false,
    }
}

// Looks for a line, from the station of this index on.
fn find_line(office: &Office, hearings: &mut Vec<Hearing>, first: usize) -> Found
    ensures heard { IsHeardAgain hearings.old.items hearings.new.items }
    ensures over { result ≡ Found.Over → AreOver hearings.new.items }
{
    let mut index = first;
    for _ in 0..hearings.len() {
        if has_line_at(office, hearings, index) {
            return Found::Line(index);
        }
        index = after(index, hearings.len());
    }
    if are_over(hearings) {
        Found::Over
    } else {
        Found::Nothing
    }
}

// The station of an index, if there is one.
fn station_at(hearings: &[Hearing], index: usize) -> Option<u32>
    ensures numbered { IfSome result (λ n. (items : List Item) (first : List Hears) → AreHeardFrom items 1 first hearings.now → IsNumbered n hearings.now) }
{
    let hearing = hearings.get(index)?;
    Some(hearing.station)
}

// Takes the line that was found of the station of an index, where that has the keyboard.
fn take_line(hearings: &mut Vec<Hearing>, index: usize, seated: u32) -> Option<Typed>
    ensures line { IfSome result (λ line. IsSaidNow seated line hearings.old.items hearings.new.items) }
    ensures none { result ≡ None → hearings.new.items ≡ hearings.old.items }
{
    let hearing = hearings.get_mut(index)?;
    if hearing.station != seated {
        return None;
    }
    hearing.take()
}

impl<'a, R: Wait, J: Rings> HeardLines<'a, R, J> {
    // Gives the keyboard to a station.
    fn name_station(&mut self, alloc: Global, station: u32) -> Result<Typed, AllocError>
        requires numbered { IsNumbered station self.old.hearings }
        ensures named { IfOk result (λ line. item_lines self.new.items ≡ item_lines self.old.items ++ line ∷ []) }
        ensures same { OnErr result (self.new ≡ self.old) }
        ensures ended { self.new.ended ≡ self.old.ended }
    {
        let line = station_line(alloc, station)?;
        self.items.push(&Named { station });
        self.seated = station;
        self.has_more = true;
        Ok(line)
    }

    // Looks whether there is a further line, after one of the station of an index.
    fn look_further(&mut self, index: usize)
        requires open { self.old.ended ≡ false }
        ensures items { self.new.items ≡ self.old.items }
        ensures ended { self.new.ended ≡ false }
    {
        self.next = after(index, self.hearings.len());
        let found = find_line(self.office, &mut self.hearings, self.next);
        self.has_more = matches!(found, Found::Line(_));
    }

    // Reads the line that was found of the station of an index, where that has the keyboard; else it is given the keyboard.
    fn read_found(&mut self, alloc: Global, index: usize) -> Result<Option<Typed>, AllocError>
        requires open { self.old.ended ≡ false }
        ensures read { IfOk result (λ next. IfSome next (λ line. item_lines self.new.items ≡ item_lines self.old.items ++ line ∷ [])) }
        ensures none { result ≡ Ok None → self.new.items ≡ self.old.items }
        ensures same { OnErr result (self.new.items ≡ self.old.items) }
        ensures ended { self.new.ended ≡ false }
    {
        self.next = index;
        let Some(station) = station_at(&self.hearings, index) else {
            return Ok(None);
        };
        if station != self.seated {
            return Ok(Some(self.name_station(alloc, station)?));
        }
        let Some(line) = take_line(&mut self.hearings, index, station) else {
            return Ok(None);
        };
        self.items.push(&Said { line: &line });
        self.look_further(index);
        if let Some(place) = self.office.place(station) {
            place.bell.wake(self.rt);
        }
        Ok(Some(line))
    }
}

impl<'a, R: Wait, J: Rings> Keyboard for HeardLines<'a, R, J> {
    ghost use Rattle.std.specs.Prelude.{◌≡◌, true, None};
    ghost use Rattle.live_stations.specs.Items.{item_lines};

    ghost typed = { λ k. item_lines k.items };

    ghost has_ended = { λ k. k.ended ≡ true };

    // A line that can't be read ends a station, and not the day.
    ghost has_failed = { λ k. ⊥ };

    ghost text_left = { λ k. None };

    fn next_line(&mut self, alloc: Global, _: u32) -> Result<Option<Typed>, TypingFault> {
        if self.ended {
            return Ok(None);
        }
        self.office.begin(self.rt);
        for _ in self.rt.forever() {
            let count = self.office.day.count(self.rt);
            match find_line(self.office, &mut self.hearings, self.next) {
                Found::Line(index) => {
                    if let Some(line) = self.read_found(alloc, index)? {
                        return Ok(Some(line));
                    }
                }
                Found::Over => {
                    self.ended = true;
                    return Ok(None);
                }
                Found::Nothing => self.office.day.wait_past(self.rt, count),
            }
        }
        unreachable!()
    }

    fn has_line(&self) -> bool {
        self.has_more
    }
}
