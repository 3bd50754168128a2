//! Clerks at their stations: what they type and when, and what their screens take.

use live_program::TypedLines;
use live_stations::Terminals;
use std::alloc::{AllocError, Global};
use std::io;
use std::io::{BufReader, Read, Write};
use std::sync::atomic::{AtomicU64, Ordering};
use std::sync::{Condvar, Mutex, Wait};

/// Room for all that is printed.
pub(crate) const ALL: usize = usize::MAX;

/// A station, a count, and the lines that a clerk types as soon as so many answers were shown there.
pub(crate) type Turn<'a> = (usize, u64, &'a [u8]);

/// What comes at a keyboard after the last turn.
#[derive(Clone, Copy, PartialEq, Eq)]
pub(crate) enum Then {
    /// Nothing: the input has ended.
    Ends,
    /// The keyboard fails.
    Fails,
    /// The last turn again, without end.
    Repeats,
    /// And there was none before either: the keyboard can't be opened.
    Unopened,
}

/// A clerk.
#[derive(Clone, Copy)]
pub(crate) struct Clerk<'a> {
    pub(crate) turns: &'a [Turn<'a>],
    pub(crate) then: Then,
    /// Nothing is printed before so many answers were shown at a station.
    pub(crate) waits: Option<(usize, u64)>,
    /// How many bytes the screen takes. `None` where it can't be opened.
    pub(crate) room: Option<usize>,
}

/// How many answers a station was shown, which others wait for.
#[derive(Drop)]
pub(crate) struct Count {
    answers: Mutex<u64>,
    changed: Condvar,
}

impl Count {
    fn new() -> Count {
        Count {
            answers: Mutex::new(0),
            changed: Condvar::new(),
        }
    }

    // So many more were shown.
    fn add<R: Wait>(&self, rt: &R, more: u64) {
        let mut answers = self.answers.lock(rt);
        *answers = answers.saturating_add(more);
        self.changed.notify_all();
    }

    // Waits until so many were shown.
    fn wait_for<R: Wait>(&self, rt: &R, wanted: u64) {
        let shown = self
            .changed
            .wait_while(rt, self.answers.lock(rt), |answers| *answers < wanted);
        drop(shown);
    }
}

/// The counts of so many stations, which were shown nothing.
pub(crate) fn counts_of(alloc: Global, stations: usize) -> Result<Vec<Count>, AllocError> {
    let mut counts = Vec::new(alloc);
    for _ in 0..stations {
        counts.push(Count::new())?;
    }
    Ok(counts)
}

/// What a clerk types, as bytes that are read.
#[derive(Drop)]
pub(crate) struct Tape<'a, R: Wait> {
    rt: &'a R,
    counts: &'a [Count],
    clerk: Clerk<'a>,
    // Which turn is next, and what is left of the last one.
    next: usize,
    rest: &'a [u8],
}

impl<'a, R: Wait> Tape<'a, R> {
    // The next turn. `None` where there is none.
    fn turn(&mut self) -> Option<Turn<'a>> {
        if self.clerk.then == Then::Repeats && self.next == self.clerk.turns.len() {
            self.next = self.next.checked_sub(1)?;
        }
        let turn = self.clerk.turns.get(self.next)?;
        self.next = self.next.saturating_add(1);
        Some(*turn)
    }

    // Waits for the next turn, and begins it.
    fn begin_turn(&mut self) {
        let Some((station, answers, text)) = self.turn() else {
            return;
        };
        if let Some(count) = self.counts.get(station.saturating_sub(1)) {
            count.wait_for(self.rt, answers);
        }
        self.rest = text;
    }
}

impl<'a, R: Wait> Read for Tape<'a, R> {
    fn read(&mut self, bytes: &mut [u8]) -> io::Result<usize> {
        if self.rest.is_empty() {
            self.begin_turn();
        }
        if self.rest.is_empty() && self.clerk.then == Then::Fails {
            return Err(io::Error::from(io::ErrorKind::BrokenPipe));
        }
        let count = bytes.len().min(self.rest.len());
        let (now, rest) = self.rest.split_at(count);
        bytes[..count].copy_from_slice(now);
        self.rest = rest;
        Ok(count)
    }
}

/// What a clerk reads.
#[derive(Drop)]
pub(crate) struct Sheet<'a, R: Wait> {
    rt: &'a R,
    count: Option<&'a Count>,
    // What is waited for.
    waits: Option<(&'a Count, u64)>,
    room: usize,
    /// What was printed.
    pub(crate) text: Vec<u8>,
}

// How many lines end in these bytes.
fn lines_in(bytes: &[u8]) -> u64 {
    bytes.iter().filter(|byte| **byte == b'\n').count() as u64
}

impl<'a, R: Wait> Write for Sheet<'a, R> {
    ghost use Rattle.std.specs.Prelude.{Some};

    ghost contents = { λ sheet. Some sheet.text.items };

    fn write(&mut self, bytes: &[u8]) -> io::Result<usize> {
        if let Some((count, answers)) = self.waits.take() {
            count.wait_for(self.rt, answers);
        }
        let (now, _) = bytes.split_at(bytes.len().min(self.room));
        if now.is_empty() && !bytes.is_empty() {
            return Err(io::Error::from(io::ErrorKind::BrokenPipe));
        }
        self.text.extend_from_slice(now)?;
        self.room -= now.len();
        if let Some(count) = self.count {
            count.add(self.rt, lines_in(now));
        }
        Ok(now.len())
    }

    fn flush(&mut self) -> io::Result<()> {
        Ok(())
    }
}

impl<'a> Clerk<'a> {
    /// A clerk whose screen takes all.
    pub(crate) fn new(turns: &'a [Turn<'a>], then: Then) -> Clerk<'a> {
        Clerk {
            turns,
            then,
            waits: None,
            room: Some(ALL),
        }
    }
}

/// Clerks, from the first station on.
#[derive(Drop)]
pub(crate) struct Clerks<'a, R: Wait> {
    rt: &'a R,
    clerks: &'a [Clerk<'a>],
    counts: &'a [Count],
    opens: AtomicU64,
}

impl<'a, R: Wait> Clerks<'a, R> {
    /// These clerks, each with a count of its own.
    pub(crate) fn new(rt: &'a R, clerks: &'a [Clerk<'a>], counts: &'a [Count]) -> Clerks<'a, R> {
        Clerks {
            rt,
            clerks,
            counts,
            opens: AtomicU64::new(0),
        }
    }

    /// How many keyboards and screens were to be opened.
    pub(crate) fn opens(&self) -> u64 {
        self.opens.load(Ordering::SeqCst)
    }

    // What a clerk waits for.
    fn awaited(&self, waits: Option<(usize, u64)>) -> Option<(&'a Count, u64)> {
        let (station, answers) = waits?;
        let count = self.counts.get(station.checked_sub(1)?)?;
        Some((count, answers))
    }

    // The index of a station, and its clerk.
    fn clerk(&self, station: u32) -> Option<(usize, Clerk<'a>)> {
        self.opens.fetch_add(1, Ordering::SeqCst);
        let index = (station as usize).checked_sub(1)?;
        let clerk = self.clerks.get(index)?;
        Some((index, *clerk))
    }
}

impl<'a, R: Wait + Sync> Terminals for Clerks<'a, R> {
    ghost use Rattle.std.specs.Prelude.{[], None, Some};

    // What a clerk types hangs on what the others are shown.
    ghost types = { λ clerks station. None };

    ghost reads = { λ clerks station. Some [] };

    type Keyboard = TypedLines<BufReader<Tape<'a, R>>, Vec<u8>>;

    type Screen = Sheet<'a, R>;

    fn open_keyboard(
        &self,
        alloc: Global,
        station: u32,
    ) -> Option<TypedLines<BufReader<Tape<'a, R>>, Vec<u8>>> {
        let (_, clerk) = self.clerk(station)?;
        if clerk.then == Then::Unopened {
            return None;
        }
        let tape = Tape {
            rt: self.rt,
            counts: self.counts,
            clerk,
            next: 0,
            rest: b"",
        };
        Some(TypedLines::new(BufReader::new(alloc, tape).ok()?, None))
    }

    fn open_screen(&self, alloc: Global, station: u32) -> Option<Sheet<'a, R>> {
        let (index, clerk) = self.clerk(station)?;
        Some(Sheet {
            rt: self.rt,
            count: self.counts.get(index),
            waits: self.awaited(clerk.waits),
            room: clerk.room?,
            text: Vec::new(alloc),
        })
    }
}
