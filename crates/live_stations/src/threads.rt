//! The threads of the stations: two each, one for what is typed and one for what is printed.

ghost use Rattle.std.specs.Prelude.{◌≡◌, ◌+◌, ◌≤◌, [], length, map, vec_capacity, vec_len, IfErr, IfOk};
ghost use Rattle.rtrb.specs.Ring.{received, sent};
ghost use Rattle.live_stations.specs.Handed.{IsPrinterEnd};
ghost use Rattle.live_stations.specs.Typists.{IsTypistEnd};
ghost use Rattle.live_stations.specs.Stations.{answer_end, line_end, printing_of, typing_of, AreOf, AreUnused, HavePrinted, HaveTyped, IsUnused};
ghost use Rattle.live_stations.specs.Tellings.{IsThreadFault};
ghost use Rattle.live_stations.specs.declared.threads.ThreadFault.TheVariants.{NoThread};

use crate::heard::Heard;
use crate::office::{Office, Place};
use crate::printer::{Printer, print_answers};
use crate::terminals::Terminals;
use crate::typist::{Typist, type_lines};
use byte_io::Bytes;
use live_day::Keyboard;
use live_program::LiveFailure;
use office_run::{RunFault, ServeFault};
use program_frame::{Ending, Failure};
use rtrb::{Consumer, Producer};
use std::alloc::{AllocError, Global};
use std::io::Write;
use std::snapshot::Snapshot;
use std::sync::Wait;
use std::thread::{Promise, PromisedHandle, Scope, Threads};

/// A station's ends of its rings, as its threads get them.
#[derive(Drop)]
pub(crate) struct StationEnds {
    pub(crate) station: u32,
    pub(crate) lines: Producer<Heard>,
    pub(crate) answers: Consumer<Bytes>,
}

/// That what a station types at these terminals is sent by this end of a ring.
#[derive(Drop)]
pub(crate) struct Types<T> {
    pub(crate) terminals: Snapshot<T>,
    pub(crate) station: u32,
    pub(crate) lines: Snapshot<Producer<Heard>>,
}

impl<T: Terminals> Promise<Typist<T::Keyboard>> for Types<T> {
    ghost use Rattle.live_stations.specs.Typists.{IsTypistEnd};

    ghost kept_by = { λ p end. IsTypistEnd T.Keyboard.typed (T.types p.terminals.value p.station) p.lines.value end };
}

/// That what comes by this end of a ring is printed for a station at these terminals.
#[derive(Drop)]
pub(crate) struct Prints<T> {
    pub(crate) terminals: Snapshot<T>,
    pub(crate) station: u32,
    pub(crate) answers: Snapshot<Consumer<Bytes>>,
}

impl<T: Terminals> Promise<Printer<T::Screen>> for Prints<T> {
    ghost use Rattle.live_stations.specs.Handed.{IsPrinterEnd};

    ghost kept_by = { λ p end. IsPrinterEnd T.Screen.contents (T.reads p.terminals.value p.station) p.answers.value end };
}

/// The thread that reads what a station types.
pub(crate) type TypistThread<T> = PromisedHandle<Typist<<T as Terminals>::Keyboard>, Types<T>>;

/// The thread that prints what a station is answered.
pub(crate) type PrinterThread<T> = PromisedHandle<Printer<<T as Terminals>::Screen>, Prints<T>>;

/// Why a station has no threads.
#[derive(Clone, Copy, Debug, PartialEq, Eq)]
pub enum ThreadFault {
    /// No thread could be started for the station.
    NoThread(u32),
    /// Memory was refused.
    NoMemory,
}

impl From<AllocError> for ThreadFault {
    ghost use Rattle.std.specs.Prelude.{◌≡◌};
    ghost use Rattle.live_stations.specs.declared.threads.ThreadFault.TheVariants.{NoMemory};

    ghost from_gives = { λ _ fault. fault ≡ NoMemory };

    fn from(_: AllocError) -> ThreadFault {
        ThreadFault::NoMemory
    }
}

impl From<ThreadFault> for Ending<Failure<LiveFailure>> {
    ghost use Rattle.std.specs.Prelude.{◌≡◌};
    ghost use Rattle.live_stations.specs.Tellings.{unlived};

    ghost from_gives = { λ fault ending. ending ≡ unlived fault };

    fn from(fault: ThreadFault) -> Ending<Failure<LiveFailure>> {
        let why = match fault {
            ThreadFault::NoThread(station) => ServeFault::Run(RunFault::NoThread(station)),
            ThreadFault::NoMemory => ServeFault::NoMemory,
        };
        Ending::Failed(Failure::Work(LiveFailure::Serve(why)))
    }
}

// Starts the thread that reads what a station types.
fn start_typist<'s, E, T: Terminals + Sync, R: Threads + Wait + Sync>(
    scope: &Scope<'s, E>,
    rt: &'s R,
    alloc: Global,
    office: &'s Office,
    place: &'s Place,
    terminals: &'s T,
    station: u32,
    lines: Producer<Heard>,
) -> Result<TypistThread<T>, ThreadFault>
    requires unsent { sent lines ≡ [] }
    ensures of { IfOk result (λ thread. typing_of thread.promise ≡ (terminals.now, station, lines)) }
    ensures fault { IfErr result (λ fault. fault ≡ NoThread station) }
{
    let promise = Types {
        terminals: Snapshot::of(terminals),
        station,
        lines: Snapshot::of(&lines),
    };
    match scope.spawn_with(
        promise,
        move || -> Typist<T::Keyboard>
            requires unsent { sent lines ≡ [] }
            ensures ended { IsTypistEnd T.Keyboard.typed (T.types terminals.entry.now station) lines result }
        { type_lines(rt, alloc, office, place, terminals, station, lines) },
    ) {
        Ok(thread) => Ok(thread),
        Err(_) => Err(ThreadFault::NoThread(station)),
    }
}

// Starts the thread that prints what a station is answered.
fn start_printer<'s, E, T: Terminals + Sync, R: Threads + Wait + Sync>(
    scope: &Scope<'s, E>,
    rt: &'s R,
    alloc: Global,
    office: &'s Office,
    place: &'s Place,
    terminals: &'s T,
    station: u32,
    answers: Consumer<Bytes>,
) -> Result<PrinterThread<T>, ThreadFault>
    requires untaken { received answers ≡ [] }
    ensures of { IfOk result (λ thread. printing_of thread.promise ≡ (terminals.now, station, answers)) }
    ensures fault { IfErr result (λ fault. fault ≡ NoThread station) }
{
    let promise = Prints {
        terminals: Snapshot::of(terminals),
        station,
        answers: Snapshot::of(&answers),
    };
    match scope.spawn_with(
        promise,
        move || -> Printer<T::Screen>
            requires untaken { received answers ≡ [] }
            ensures ended { IsPrinterEnd T.Screen.contents (T.reads terminals.entry.now station) answers result }
        { print_answers(rt, alloc, office, place, terminals, station, answers) },
    ) {
        Ok(thread) => Ok(thread),
        Err(_) => Err(ThreadFault::NoThread(station)),
    }
}

/// The threads of all stations, in their order.
#[derive(Drop)]
pub(crate) struct StationThreads<T: Terminals> {
    pub(crate) typists: Vec<TypistThread<T>>,
    pub(crate) printers: Vec<PrinterThread<T>>,
}

/// Starts the threads of all stations, which wait until the day begins.
pub(crate) fn start_threads<'s, E, T: Terminals + Sync, R: Threads + Wait + Sync>(
    scope: &Scope<'s, E>,
    rt: &'s R,
    alloc: Global,
    office: &'s Office,
    terminals: &'s T,
    ends: Vec<StationEnds>,
) -> Result<StationThreads<T>, ThreadFault>
    requires unused { AreUnused ends.items }
    requires stations { AreOf (length ends.items) ends.items }
    ensures fault { IfErr result (IsThreadFault (length ends.items)) }
    ensures typists { IfOk result (λ threads. map (λ h. typing_of h.promise) threads.typists.items
        ≡ map (line_end terminals.now) ends.items) }
    ensures printers { IfOk result (λ threads. map (λ h. printing_of h.promise) threads.printers.items
        ≡ map (answer_end terminals.now) ends.items) }
{
    let mut typists = Vec::new(alloc);
    let mut printers = Vec::new(alloc);
    for end in ends {
        let StationEnds {
            station,
            lines,
            answers,
        } = end;
        let Some(place) = office.place(station) else {
            return Err(ThreadFault::NoThread(station));
        };
        typists.reserve(1)?;
        printers.reserve(1)?;
        typists.push_reserved(start_typist(
            scope, rt, alloc, office, place, terminals, station, lines,
        )?);
        printers.push_reserved(start_printer(
            scope, rt, alloc, office, place, terminals, station, answers,
        )?);
    }
    Ok(StationThreads { typists, printers })
}

/// Waits for the threads that read what the stations type. Their ends have room in a list.
pub(crate) fn join_typists<T: Terminals, R: Threads + Wait>(
    rt: &R,
    threads: Vec<TypistThread<T>>,
    mut room: Vec<Typist<T::Keyboard>>,
) -> Vec<Typist<T::Keyboard>>
    requires none { room.items ≡ [] }
    requires room { vec_len threads ≤ vec_capacity room }
    ensures typed { HaveTyped T.Keyboard.typed T.types (map (λ h. typing_of h.promise) threads.items)
        result.items }
{
    for thread in threads {
        room.push_reserved(thread.join(rt));
    }
    room
}

/// Waits for the threads that print what the stations are answered. Their ends have room in a list.
pub(crate) fn join_printers<T: Terminals, R: Threads + Wait>(
    rt: &R,
    threads: Vec<PrinterThread<T>>,
    mut room: Vec<Printer<T::Screen>>,
) -> Vec<Printer<T::Screen>>
    requires none { room.items ≡ [] }
    requires room { vec_len threads ≤ vec_capacity room }
    ensures printed { HavePrinted T.Screen.contents T.reads (map (λ h. printing_of h.promise) threads.items)
        result.items }
{
    for thread in threads {
        room.push_reserved(thread.join(rt));
    }
    room
}
