//! What is said of stations whose lines or answers were not all had.

use live_day::TypingFault;
use live_stations::{LinesEnd, StationLeft, tell_stations};
use std::alloc::{AllocError, Global};
use std::test::Fail;

// How stations ended, from the first on, and whether all their answers were printed.
const ENDS: [(LinesEnd, bool); 10] = [
    (LinesEnd::Quit, true),
    (LinesEnd::Ended, true),
    (LinesEnd::DayOver, true),
    (LinesEnd::Unprinted, true),
    (LinesEnd::Unopened, true),
    (LinesEnd::Unread(TypingFault::Failed), true),
    (LinesEnd::Unread(TypingFault::NoMemory), true),
    (LinesEnd::Quit, false),
    (LinesEnd::Unprinted, false),
    (LinesEnd::Unopened, false),
];

// What is said of them.
const SAID: &[u8] = b"station_prompt: station 4: its answers can't be shown any more
station_prompt: station 5: its path can't be opened
station_prompt: station 6: its lines can't be read any more
station_prompt: station 7: memory was refused for a line, and no more are read
station_prompt: station 8: not all its answers were shown
station_prompt: station 9: its answers can't be shown any more
station_prompt: station 9: not all its answers were shown
station_prompt: station 10: its path can't be opened
station_prompt: station 10: not all its answers were shown
";

// Stations that ended so.
fn stations(alloc: Global) -> Result<Vec<StationLeft<Vec<u8>, Vec<u8>>>, AllocError> {
    let mut stations = Vec::new(alloc);
    for (end, all_printed) in ENDS {
        stations.push(StationLeft {
            keyboard: None,
            end,
            screen: None,
            all_printed,
        })?;
    }
    Ok(stations)
}

// What is said of stations.
fn said_of(alloc: Global, stations: &[StationLeft<Vec<u8>, Vec<u8>>]) -> Result<Vec<u8>, Fail> {
    let mut out: Vec<u8> = Vec::new(alloc);
    tell_stations(&mut out, stations)?;
    Ok(out)
}

#[test]
fn each_sentence_is_told_of_its_station(rt: HostRuntime) -> Result<(), Fail> {
    let stations = stations(rt.alloc())?;
    let said = said_of(rt.alloc(), stations.as_slice())?;
    assert!(rt; said.as_slice() == SAID);
    Ok(())
}
