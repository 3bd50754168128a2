//! A day of several stations, each with a keyboard and a screen of its own.

ghost use Rattle.std.specs.Prelude.{◌≡◌, ◌≤◌, ℕ, Bool, true, List, [], length, map, vec_capacity, vec_len, IfErr, IfOk, Option};
ghost use Rattle.rtrb.specs.Ring.{IsPair};
ghost use Rattle.live_day.specs.Shows.{ShownLine};
ghost use Rattle.live_stations.specs.Hearings.{IsOver};
ghost use Rattle.live_stations.specs.Items.{Item};
ghost use Rattle.live_stations.specs.Tellings.{IsEndTold, IsThreadFault};
ghost use Rattle.live_stations.specs.Stations.{AreMeeting, AreMet, AreRings, HaveLeft, IsAnswerRing, IsHandedToPrinter, IsHeardOfTypist, IsLeft, IsLineRing, IsScopeLeft, IsStationsDay};

use crate::handed_answers::HandedAnswers;
use crate::heard::Heard;
use crate::heard_lines::HeardLines;
use crate::hearing::Hearing;
use crate::office::{ANSWERS_AHEAD, LINES_AHEAD, Office};
use crate::printer::Printer;
use crate::rings::Rings;
use crate::terminals::Terminals;
use crate::threads::{StationEnds, ThreadFault, join_printers, join_typists, start_threads};
use crate::typist::{LinesEnd, Typist};
use byte_io::Bytes;
use folders::Source;
use live_day::Keyboard;
use live_program::{LiveFailure, Lived, PROGRAM, Places, run_program};
use program_frame::{Ending, Failure, Told, tell};
use rtrb::{Producer, RingBuffer};
use std::alloc::{AllocError, Global};
use std::convert::AsStr;
use std::io::Write;
use std::marker::Brand;
use std::sync::Wait;
use std::thread;
use std::thread::{Scope, Threads};

/// What a station leaves.
#[derive(Drop)]
pub struct StationLeft<K: Drop, W: Drop> {
    /// Where its lines were typed, where that was opened.
    pub keyboard: Option<K>,
    /// Why no more came.
    pub end: LinesEnd,
    /// Where its answers were printed, where that was opened.
    pub screen: Option<W>,
    /// Whether each of its answers was printed.
    pub all_printed: bool,
}

/// What a day of several stations leaves.
#[derive(Drop)]
pub struct StationsDay<K: Drop, W: Drop, O: Drop, E: Drop> {
    /// How it ended.
    pub ended: Result<Lived, Ending<Failure<LiveFailure>>>,
    /// What was told of that.
    pub told: Told,
    /// Where this was told.
    pub out: O,
    /// Where warnings went, and why the day ended before its time.
    pub err: E,
    /// Whether all lines that were sent were read.
    pub all_heard: bool,
    /// What each station leaves, in their order.
    pub stations: Vec<StationLeft<K, W>>,
}

/// What the program is asked for, and on what.
#[derive(Drop)]
pub struct Asked<'a, Y, S: Drop, O: Drop, E: Drop, W> {
    /// The system, as far as it opens folders.
    pub places: &'a Y,
    /// The source of the setup's files.
    pub source: S,
    /// Where the end is told.
    pub out: O,
    /// Where warnings go, and why the day ended before its time.
    pub err: E,
    /// The words of the command line, of which the first is the program's name.
    pub words: &'a [W],
}

// The day's ends of the stations' rings, and the stations'.
#[derive(Drop)]
struct Ends {
    hearings: Vec<Hearing>,
    answers: Vec<Producer<Bytes>>,
    stations: Vec<StationEnds>,
}

// Makes a station's two rings: the day's ends, and the station's.
fn ring_station(
    alloc: Global,
    station: u32,
) -> Result<(Hearing, Producer<Bytes>, StationEnds), AllocError>
    ensures lines { IfOk result (λ ends. IsLineRing station ends.0 ends.2) }
    ensures answers { IfOk result (λ ends. IsAnswerRing station ends.1 ends.2) }
{
    let (lines, heard) = RingBuffer::new(alloc, LINES_AHEAD)?;
    let (handed, answers) = RingBuffer::new(alloc, ANSWERS_AHEAD)?;
    let ends = StationEnds {
        station,
        lines,
        answers,
    };
    Ok((Hearing::new(station, heard), handed, ends))
}

// Makes the rings of so many stations.
fn make_rings(alloc: Global, count: u32) -> Result<Ends, AllocError>
    ensures rings { IfOk result (λ ends. AreRings 1 ends.hearings.items ends.answers.items ends.stations.items) }
    ensures count { IfOk result (λ ends. length ends.hearings.items ≡ count) }
{
    let mut hearings = Vec::new(alloc);
    let mut answers = Vec::new(alloc);
    let mut stations = Vec::new(alloc);
    for index in 0..count {
        let (hearing, handed, ends) = ring_station(alloc, index + 1)?;
        hearings.push(hearing)?;
        answers.push(handed)?;
        stations.push(ends)?;
    }
    Ok(Ends {
        hearings,
        answers,
        stations,
    })
}

// What a scope leaves.
#[derive(Drop)]
struct ScopeLeft<K: Keyboard + Drop, W: Write + Drop, O: Drop, E: Drop> {
    ended: Result<Lived, Ending<Failure<LiveFailure>>>,
    told: Told,
    out: O,
    err: E,
    all_heard: bool,
    hearings: Vec<Hearing>,
    answers: Vec<Producer<Bytes>>,
    typists: Vec<Typist<K>>,
    printers: Vec<Printer<W>>,
}

// Lives the day while the stations' threads run.
fn live_in_scope<
    's,
    F,
    J: Rings,
    Y: Places,
    S: Source + Drop,
    T: Terminals + Sync,
    O: Write + Drop,
    E: Write + Drop,
    R: Threads + Wait + Sync,
    W: AsStr,
>(
    scope: &Scope<'s, F>,
    rt: &'s R,
    alloc: Global,
    office: &'s Office,
    terminals: &'s T,
    ends: Ends,
    asked: Asked<'_, Y, S, O, E, W>,
) -> Result<ScopeLeft<T::Keyboard, T::Screen, O, E>, ThreadFault>
    requires rings { AreRings 1 ends.hearings.items ends.answers.items ends.stations.items }
    requires hearings { ends.hearings.items ≡ J.hearings }
    requires answers { ends.answers.items ≡ J.answers }
    ensures left { IfOk result (IsScopeLeft Y.Disk.meaning (Y.opens asked.entry.places.now) (S.files asked.entry.source) (map W.text asked.entry.words.now)
        T.Keyboard.typed T.Screen.contents (T.types terminals.now) (T.reads terminals.now) ends.hearings.items ends.answers.items ends.stations.items) }
    ensures told { IfOk result (λ left. IsEndTold (S.files asked.entry.source) (map W.text asked.entry.words.now) O.contents E.contents
        asked.entry.out left.out asked.entry.err left.err left.ended left.told) }
    ensures fault { IfErr result (IsThreadFault (length ends.hearings.items)) }
{
    let Ends {
        hearings,
        answers,
        stations,
    } = ends;
    let mut typists = Vec::new(alloc);
    typists.reserve(stations.len())?;
    let mut printers = Vec::new(alloc);
    printers.reserve(stations.len())?;
    let threads = match start_threads(scope, rt, alloc, office, terminals, stations) {
        Ok(threads) => threads,
        Err(fault) => {
            office.end(rt);
            return Err(fault);
        }
    };
    let mut keyboard: HeardLines<'_, R, J> = HeardLines::new(rt, office, hearings);
    let mut screen: HandedAnswers<'_, R, J> = HandedAnswers::new(rt, alloc, office, answers);
    let Asked {
        places,
        mut source,
        mut out,
        mut err,
        words,
    } = asked;
    let ended = run_program(
        alloc,
        places,
        &mut source,
        &mut keyboard,
        &mut screen,
        &mut err,
        words,
    );
    // Before the threads are waited for: a clerk may not read for long.
    let told = tell(&mut out, &mut err, PROGRAM, &ended);
    office.end(rt);
    Ok(ScopeLeft {
        ended,
        told,
        out,
        err,
        all_heard: keyboard.has_ended(),
        hearings: keyboard.into_hearings(),
        answers: screen.into_rings(),
        typists: join_typists::<T, R>(rt, threads.typists, typists),
        printers: join_printers::<T, R>(rt, threads.printers, printers),
    })
}

// Whether all answers were printed, where so many were not received.
fn are_printed(all_printed: bool, left: usize) -> bool
    ensures both { result ≡ true → (all_printed ≡ true) × (left ≡ 0) }
{
    all_printed && left == 0
}

// Lets the ends of a station's rings meet.
fn meet<K: Keyboard + Drop, W: Write + Drop>(
    hearing: Hearing,
    answers: Producer<Bytes>,
    typist: Typist<K>,
    printer: Printer<W>,
) -> StationLeft<K, W>
    requires lines { IsPair typist.lines hearing.lines }
    requires answers { IsPair answers printer.answers }
    ensures left { (types reads : ℕ → Option (List ℕ)) (items : List Item) (shown : List ShownLine) (all_heard : Bool) (station : ℕ)
        → IsHeardOfTypist K.typed types items station hearing typist → IsHandedToPrinter W.contents reads shown station answers printer
        → (all_heard ≡ true → IsOver hearing) → IsLeft K.typed W.contents types reads items shown all_heard station result }
{
    let Hearing { mut lines, .. } = hearing;
    let mut answers = answers;
    let Typist {
        keyboard,
        lines: mut sent,
        end,
        ..
    } = typist;
    let Printer {
        screen,
        answers: mut received,
        all_printed,
    } = printer;
    // For contracts alone: what was received is the first that was sent.
    let _ = lines.slots_beside(&mut sent);
    let left = received.slots_beside(&mut answers);
    StationLeft {
        keyboard,
        end,
        screen,
        all_printed: are_printed(all_printed, left),
    }
}

// What each station leaves.
fn meet_all<K: Keyboard + Drop, W: Write + Drop>(
    hearings: Vec<Hearing>,
    answers: Vec<Producer<Bytes>>,
    typists: Vec<Typist<K>>,
    printers: Vec<Printer<W>>,
    mut room: Vec<StationLeft<K, W>>,
) -> Vec<StationLeft<K, W>>
    requires none { room.items ≡ [] }
    requires room { vec_len hearings ≤ vec_capacity room }
    requires met { AreMet 1 hearings.items answers.items typists.items printers.items }
    ensures many { length result.items ≡ length hearings.items }
    ensures left { (types reads : ℕ → Option (List ℕ)) (items : List Item) (shown : List ShownLine) (all_heard : Bool)
        → AreMeeting K.typed W.contents types reads items shown all_heard 1 hearings.items answers.items typists.items printers.items
        → HaveLeft K.typed W.contents types reads items shown all_heard result.items }
{
    let mut hearings = hearings.into_iter();
    let mut answers = answers.into_iter();
    let mut typists = typists.into_iter();
    let mut printers = printers.into_iter();
    'meeting: while let (Some(hearing), Some(ring), Some(typist), Some(printer)) = (
        hearings.next(),
        answers.next(),
        typists.next(),
        printers.next(),
    ) {
        room.push_reserved(meet(hearing, ring, typist, printer));
    }
    room
}

// Lives a day by these rings.
fn live_by_rings<
    J: Rings,
    Y: Places,
    S: Source + Drop,
    T: Terminals + Sync,
    O: Write + Drop,
    E: Write + Drop,
    R: Threads + Wait + Sync,
    W: AsStr,
>(
    rt: &R,
    alloc: Global,
    office: &Office,
    terminals: &T,
    ends: Ends,
    asked: Asked<'_, Y, S, O, E, W>,
) -> Result<ScopeLeft<T::Keyboard, T::Screen, O, E>, ThreadFault>
    requires rings { AreRings 1 ends.hearings.items ends.answers.items ends.stations.items }
    requires hearings { ends.hearings.items ≡ J.hearings }
    requires answers { ends.answers.items ≡ J.answers }
    ensures left { IfOk result (IsScopeLeft Y.Disk.meaning (Y.opens asked.entry.places.now) (S.files asked.entry.source) (map W.text asked.entry.words.now)
        T.Keyboard.typed T.Screen.contents (T.types terminals.now) (T.reads terminals.now) ends.hearings.items ends.answers.items ends.stations.items) }
    ensures told { IfOk result (λ left. IsEndTold (S.files asked.entry.source) (map W.text asked.entry.words.now) O.contents E.contents
        asked.entry.out left.out asked.entry.err left.err left.ended left.told) }
    ensures fault { IfErr result (IsThreadFault (length ends.hearings.items)) }
{
    thread::scope(
        thread::scope_env(),
        rt,
        |scope| -> Result<ScopeLeft<T::Keyboard, T::Screen, O, E>, ThreadFault>
            requires rings { AreRings 1 ends.hearings.items ends.answers.items ends.stations.items }
            requires hearings { ends.hearings.items ≡ J.hearings }
            requires answers { ends.answers.items ≡ J.answers }
            ensures left { IfOk result (IsScopeLeft Y.Disk.meaning (Y.opens asked.entry.places.now) (S.files asked.entry.source) (map W.text asked.entry.words.now)
                T.Keyboard.typed T.Screen.contents (T.types terminals.entry.now) (T.reads terminals.entry.now) ends.hearings.items ends.answers.items
                ends.stations.items) }
            ensures told { IfOk result (λ left. IsEndTold (S.files asked.entry.source) (map W.text asked.entry.words.now) O.contents E.contents
                asked.entry.out left.out asked.entry.err left.err left.ended left.told) }
            ensures fault { IfErr result (IsThreadFault (length ends.hearings.items)) }
        {
            live_in_scope::<_, J, Y, S, T, O, E, R, W>(
                scope, rt, alloc, office, terminals, ends, asked,
            )
        },
    )
}

// Lives a day, by rings that have no other use.
fn live_with<
    J: Rings,
    Y: Places,
    S: Source + Drop,
    T: Terminals + Sync,
    O: Write + Drop,
    E: Write + Drop,
    R: Threads + Wait + Sync,
    W: AsStr,
>(
    rt: &R,
    alloc: Global,
    office: &Office,
    terminals: &T,
    ends: Ends,
    asked: Asked<'_, Y, S, O, E, W>,
) -> Result<StationsDay<T::Keyboard, T::Screen, O, E>, ThreadFault>
    requires rings { AreRings 1 ends.hearings.items ends.answers.items ends.stations.items }
    requires hearings { ends.hearings.items ≡ J.hearings }
    requires answers { ends.answers.items ≡ J.answers }
    ensures day { IfOk result (IsStationsDay Y.Disk.meaning (Y.opens asked.entry.places.now) (S.files asked.entry.source) (map W.text asked.entry.words.now)
        T.Keyboard.typed T.Screen.contents (T.types terminals.now) (T.reads terminals.now) (length ends.hearings.items)) }
    ensures told { IfOk result (λ day. IsEndTold (S.files asked.entry.source) (map W.text asked.entry.words.now) O.contents E.contents
        asked.entry.out day.out asked.entry.err day.err day.ended day.told) }
    ensures fault { IfErr result (IsThreadFault (length ends.hearings.items)) }
{
    let mut room = Vec::new(alloc);
    room.reserve(ends.hearings.len())?;
    let left = live_by_rings::<J, Y, S, T, O, E, R, W>(rt, alloc, office, terminals, ends, asked)?;
    Ok(StationsDay {
        ended: left.ended,
        told: left.told,
        out: left.out,
        err: left.err,
        all_heard: left.all_heard,
        stations: meet_all(
            left.hearings,
            left.answers,
            left.typists,
            left.printers,
            room,
        ),
    })
}

/// Lives a day of so many stations as the words ask for, each with a keyboard and a screen of its own, which are opened once the day has begun.
/// `NoThread` names a station that has no threads, or stands for the stations from 2^32 on; `NoMemory` where memory is refused before the day begins.
pub fn live_stations<
    Y: Places,
    S: Source + Drop,
    T: Terminals + Sync,
    O: Write + Drop,
    E: Write + Drop,
    R: Threads + Wait + Sync,
    W: AsStr,
>(
    rt: &R,
    alloc: Global,
    terminals: &T,
    stations: usize,
    asked: Asked<'_, Y, S, O, E, W>,
) -> Result<StationsDay<T::Keyboard, T::Screen, O, E>, ThreadFault>
    ensures day { IfOk result (IsStationsDay Y.Disk.meaning (Y.opens asked.entry.places.now) (S.files asked.entry.source) (map W.text asked.entry.words.now)
        T.Keyboard.typed T.Screen.contents (T.types terminals.now) (T.reads terminals.now) stations) }
    ensures told { IfOk result (λ day. IsEndTold (S.files asked.entry.source) (map W.text asked.entry.words.now) O.contents E.contents
        asked.entry.out day.out asked.entry.err day.err day.ended day.told) }
    ensures fault { IfErr result (IsThreadFault stations) }
{
    let Ok(count) = u32::try_from(stations) else {
        return Err(ThreadFault::NoThread(u32::MAX));
    };
    let office = Office::new(alloc, stations)?;
    let ends = make_rings(alloc, count)?;
    live_with::<Brand, Y, S, T, O, E, R, W>(rt, alloc, &office, terminals, ends, asked)
}
