//! Days of clerks in a folder of the system, and what they leave.

use crate::clerks::{Clerk, Clerks, Sheet, counts_of};
use crate::own_places::OwnPlaces;
use crate::samples::{SETUP, is_text, make_folder, read_file, source, words_of};
use folders::Source;
use live_program::{LiveFailure, Lived, Places};
use live_stations::{Asked, LinesEnd, StationLeft, StationsDay, live_stations, tell_day};
use program_frame::{Ending, Failure};
use std::fs;
use std::fs::File;
use std::process::ExitCode;
use std::rt::{Files, Runtime};
use std::sync::Wait;
use std::test::Fail;
use std::thread::Threads;

/// What a station leaves.
#[derive(Drop)]
pub(crate) struct Left {
    /// What was printed there. `None` where nothing could be.
    pub(crate) shown: Option<Vec<u8>>,
    pub(crate) end: LinesEnd,
    pub(crate) all_printed: bool,
    /// Its answer file. `None` where there is none.
    pub(crate) file: Option<Vec<u8>>,
}

impl Left {
    /// Whether this was printed there, all of it and no more, and is its answer file, and its lines ended so.
    pub(crate) fn is_whole(&self, answers: &[u8], end: LinesEnd) -> bool {
        is_text(&self.shown, answers)
            && is_text(&self.file, answers)
            && self.end == end
            && self.all_printed
    }
}

/// How a day ended.
pub(crate) type Ended = Result<Lived, Ending<Failure<LiveFailure>>>;

/// What a day leaves.
#[derive(Drop)]
pub(crate) struct LeftDay {
    pub(crate) ended: Ended,
    pub(crate) status: ExitCode,
    /// What was told of that, and what before.
    pub(crate) out: Vec<u8>,
    pub(crate) err: Vec<u8>,
    pub(crate) all_heard: bool,
    pub(crate) stations: Vec<Left>,
    /// How many keyboards and screens were to be opened.
    pub(crate) opens: u64,
}

impl LeftDay {
    /// How many commands were performed. `None` where the day was not closed.
    pub(crate) fn count(&self) -> Option<u64> {
        match &self.ended {
            Ok(lived) => Some(lived.count),
            Err(_) => None,
        }
    }

    /// Whether the exit status is this one, and this was said on the two streams.
    pub(crate) fn is_told(&self, status: u8, out: &str, err: &str) -> bool {
        self.status == ExitCode::from(status)
            && self.out.as_slice() == out.as_bytes()
            && self.err.as_slice() == err.as_bytes()
    }

    /// What a station left.
    pub(crate) fn station(&self, station: usize) -> Option<&Left> {
        self.stations.get(station.checked_sub(1)?)
    }

    /// Whether all the answers of a station were these, and its lines ended so.
    pub(crate) fn is_whole(&self, station: usize, answers: &[u8], end: LinesEnd) -> bool {
        match self.station(station) {
            Some(left) => left.is_whole(answers, end),
            None => false,
        }
    }
}

// The answer file of a station of a day in a folder, where it is there.
fn answer_file<R: Runtime + Files<File = File> + AllocGlobal>(
    rt: &R,
    folder: &str,
    number: u32,
) -> Result<Option<Vec<u8>>, Fail> {
    let path = format!(in rt.alloc(); "{folder}/STATION{number}.TXT")?;
    read_file(rt, path.as_str())
}

// What a station leaves that has this answer file. What was printed there is taken from it.
fn take_left<'a, R: Wait, K: Drop>(
    left: &mut StationLeft<K, Sheet<'a, R>>,
    file: Option<Vec<u8>>,
) -> Left {
    let shown = match left.screen.take() {
        Some(Sheet { text, .. }) => Some(text),
        None => None,
    };
    Left {
        shown,
        end: left.end,
        all_printed: left.all_printed,
        file,
    }
}

// What the stations of a day leave, with the answer files of its folder. What was printed is taken from them.
fn left_in<'a, R: Runtime + Files<File = File> + AllocGlobal + Wait, K: Drop>(
    rt: &R,
    folder: &str,
    stations: &mut [StationLeft<K, Sheet<'a, R>>],
) -> Result<Vec<Left>, Fail> {
    let mut found = Vec::new(rt.alloc());
    for (number, left) in (1u32..).zip(stations.iter_mut()) {
        let file = answer_file(rt, folder, number)?;
        found.push(take_left(left, file))?;
    }
    Ok(found)
}

// What a day leaves in a folder, for whose stations so many keyboards and screens were to be opened.
fn left_day<'a, R: Runtime + Files<File = File> + AllocGlobal + Wait, K: Drop>(
    rt: &R,
    folder: &str,
    mut day: StationsDay<K, Sheet<'a, R>, Vec<u8>, Vec<u8>>,
    opens: u64,
) -> Result<LeftDay, Fail> {
    let mut said: Vec<u8> = Vec::new(rt.alloc());
    let status = tell_day(&mut said, &day);
    let stations = left_in(rt, folder, &mut day.stations)?;
    let StationsDay {
        ended,
        out,
        err,
        all_heard,
        ..
    } = day;
    Ok(LeftDay {
        ended,
        status,
        out,
        err,
        all_heard,
        stations,
        opens,
    })
}

/// A day of clerks in a folder of these places.
pub(crate) fn live_at<
    R: Runtime + Files<File = File> + AllocGlobal + Threads + Wait + Sync,
    Y: Places,
    S: Source + Drop,
>(rt: &R, places: &Y, source: S, folder: &str, clerks: &[Clerk<'_>]) -> Result<LeftDay, Fail> {
    let alloc = rt.alloc();
    let counts = counts_of(alloc, clerks.len())?;
    let terminals = Clerks::new(rt, clerks, counts.as_slice());
    let asked = Asked {
        places,
        source,
        out: Vec::new(alloc),
        err: Vec::new(alloc),
        words: &words_of(folder),
    };
    let lived = live_stations(rt, alloc, &terminals, clerks.len(), asked);
    match lived {
        Ok(day) => left_day(rt, folder, day, terminals.opens()),
        Err(_) => Err("no threads".into()),
    }
}

/// A day of clerks in a new folder of the system, on the setup.
pub(crate) fn live<R: Runtime + Files<File = File> + AllocGlobal + Threads + Wait + Sync>(
    rt: &R,
    folder: &str,
    clerks: &[Clerk<'_>],
) -> Result<LeftDay, Fail> {
    make_folder(rt, folder)?;
    let source = source(rt.alloc(), SETUP, u64::MAX)?;
    let day = live_at(rt, &OwnPlaces::new(rt), source, folder, clerks)?;
    fs::remove_dir_all(rt, folder)?;
    Ok(day)
}
