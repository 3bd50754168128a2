//! What is said of a station whose lines or answers were not all had.

ghost use Rattle.std.specs.Prelude.{◌≡◌, option_map, true, false, IsErr, IsOk, OnOk};
ghost use Rattle.std.specs.List.{list_all};
ghost use Rattle.std.specs.Process.{exit_status};
ghost use Rattle.std.specs.Io.KnownBytes.{Appends};
ghost use Rattle.live_stations.specs.Tellings.{end_words, is_shown_all, said_if_some, said_unless, station_said, station_text, stations_text};
ghost use Rattle.live_program.specs.Endings.{status};
ghost use Rattle.live_program.specs.declared.failure.LiveFailure.TheVariants.{Unshown};

use crate::day::{StationLeft, StationsDay};
use crate::typist::LinesEnd;
use live_day::TypingFault;
use live_program::LiveFailure;
use program_frame::Reason;
use std::io;
use std::io::Write;
use std::process::ExitCode;

// What is said of a station whose answers were not all printed.
const UNSHOWN: &str = "not all its answers were shown";

// Why no more lines of a station are read, where it did not end them.
fn end_reason(end: LinesEnd) -> Option<&'static str>
    ensures value { option_map (λ reason. reason.now) result ≡ end_words end }
{
    match end {
        LinesEnd::Unopened => Some("its path can't be opened"),
        LinesEnd::Unprinted => Some("its answers can't be shown any more"),
        LinesEnd::Unread(TypingFault::Failed) => Some("its lines can't be read any more"),
        LinesEnd::Unread(TypingFault::NoMemory) => {
            Some("memory was refused for a line, and no more are read")
        }
        _ => None,
    }
}

// Prints a line on a station.
fn say<W: Write>(out: &mut W, station: usize, words: &str) -> io::Result<()>
    ensures text { OnOk result (Appends (W.contents out.old) (W.contents out.new) (station_said station words.now)) }
{
    write!(out, "station_prompt: station {station}: {words}\n")
}

// Prints what there is to say of a station: why no more of its lines were read, where it did not end them, and that not all its answers
// were printed. An error where a write fails.
fn tell_station<W: Write>(
    out: &mut W,
    station: usize,
    end: LinesEnd,
    all_printed: bool,
) -> io::Result<()>
    ensures text { OnOk result (Appends (W.contents out.old) (W.contents out.new) (station_text station end all_printed)) }
{
    if let Some(reason) = end_reason(end) {
        say(out, station, reason)?;
    }
    if !all_printed {
        say(out, station, UNSHOWN)?;
    }
    Ok(())
}

/// Prints what there is to say of each station. An error where a write fails.
pub fn tell_stations<W: Write, K: Drop, S: Drop>(
    out: &mut W,
    stations: &[StationLeft<K, S>],
) -> io::Result<()>
    ensures text { OnOk result (Appends (W.contents out.old) (W.contents out.new) (stations_text 1 stations.now)) }
{
    for (index, left) in stations.iter().enumerate() {
        tell_station(out, index + 1, left.end, left.all_printed)?;
    }
    Ok(())
}

// Whether a station was shown all its answers, and would have been shown more.
fn was_shown_all<K: Drop, S: Drop>(left: &StationLeft<K, S>) -> bool
    ensures value { result ≡ is_shown_all left.now }
{
    match left.end {
        LinesEnd::Unprinted => false,
        _ => left.all_printed,
    }
}

// Whether each station was.
fn were_shown_all<K: Drop, S: Drop>(stations: &[StationLeft<K, S>]) -> bool
    ensures value { result ≡ list_all is_shown_all stations.now }
{
    stations.iter().all(|left| was_shown_all(left))
}

/// Tells what there is to say of each station after a day, and answers the exit status: that of the day; but that of answers which can't be
/// printed, 4, where the day was closed and the answers of a station can't be shown any more or were not all shown. An error stream that takes
/// no text changes nothing.
pub fn tell_day<W: Write, K: Drop, S: Drop, O: Drop, E: Drop>(
    err: &mut W,
    day: &StationsDay<K, S, O, E>,
) -> ExitCode
    ensures unshown { IsOk day.now.ended → list_all is_shown_all day.now.stations.items ≡ false → exit_status result ≡ status Unshown }
    ensures shown { list_all is_shown_all day.now.stations.items ≡ true → result ≡ day.now.told.status }
    ensures failed { IsErr day.now.ended → result ≡ day.now.told.status }
{
    let _ = tell_stations(err, day.stations.as_slice());
    if day.ended.is_ok() && !were_shown_all(day.stations.as_slice()) {
        ExitCode::from(LiveFailure::Unshown.exit_status())
    } else {
        day.told.status
    }
}
