//! Which words and setups have live stations, and setups that are refused.

use crate::clerks::{Clerk, Then};
use crate::living::{Left, LeftDay, live_at};
use crate::own_places::OwnPlaces;
use crate::samples::{SETUP, make_folder, source};
use byte_io::Bytes;
use folders::{MemorySource, Source};
use live_stations::{LinesEnd, LiveSetup, WithSetup, live_setup};
use office_run::{FileFault, ServeFault};
use std::alloc::Global;
use std::fs;
use std::fs::File;
use std::rt::{Files, Runtime};
use std::sync::Wait;
use std::test::Fail;
use std::thread::Threads;

// Words that ask for live stations.
const LIVE: &[&str] = &[
    "station_prompt",
    "--live",
    "--setup=A.SET",
    "--out=x",
    "--today=19870315",
];

// Words that don't.
const ONE_KEYBOARD: &[&str] = &[
    "station_prompt",
    "--setup=A.SET",
    "--out=x",
    "--today=19870315",
];

// Three stations among two tables, of which the later two have one path.
const THREE: &[u8] =
    b"* two tables\nSTATION b/b.fifo\nTABLE T T.DBF\n\nSTATION a\nTABLE U u.dbf\nSTATION a\n";

// Whether these are the paths, in their order.
fn are_paths(found: &[Bytes], paths: &[&str]) -> bool {
    for (found, path) in found.iter().zip(paths) {
        if found.as_slice() != path.as_bytes() {
            return false;
        }
    }
    found.len() == paths.len()
}

// Whether the three stations are live.
fn are_three_live(found: &LiveSetup<MemorySource>) -> bool {
    match found {
        LiveSetup::Live { paths, .. } => are_paths(paths.as_slice(), &["b/b.fifo", "a", "a"]),
        _ => false,
    }
}

// What these words ask for, on this setup.
fn setup_of(alloc: Global, setup: &[u8], words: &[&str]) -> Result<LiveSetup<MemorySource>, Fail> {
    match live_setup(alloc, source(alloc, setup, u64::MAX)?, words) {
        Ok(found) => Ok(found),
        Err(_) => Err("the setup is not read".into()),
    }
}

// Whether the three stations are live where the words ask for it, and no station is where they don't.
fn are_live_if_asked(alloc: Global) -> Result<bool, Fail> {
    let live = setup_of(alloc, THREE, LIVE)?;
    let other = setup_of(alloc, THREE, ONE_KEYBOARD)?;
    Ok(are_three_live(&live) && matches!(other, LiveSetup::NotAsked { .. }))
}

#[test]
fn the_stations_of_a_setup_are_live_where_the_words_ask_for_it(
    rt: HostRuntime,
) -> Result<(), Fail> {
    assert!(rt; are_live_if_asked(rt.alloc())?);
    Ok(())
}

// Setups that were read and have no stations that can be live.
const NONE_LIVE: [&[u8]; 3] = [b"", b"TABLE T T.DBF\n", b"STATION one\nSTATON two\n"];

// Whether no stations are live, though the words ask for it, where a setup that was read has none.
fn are_none_live(alloc: Global) -> Result<bool, Fail> {
    let mut are_none = true;
    for setup in NONE_LIVE {
        let found = setup_of(alloc, setup, LIVE)?;
        are_none = are_none && matches!(found, LiveSetup::NoneLive { .. });
    }
    Ok(are_none)
}

// Whether a setup that can't be read is told with its path where the words ask for live stations, and not looked at where they don't.
fn is_unread_if_asked(alloc: Global) -> Result<bool, Fail> {
    let live = live_setup(alloc, source(alloc, SETUP, 0)?, LIVE);
    let other = live_setup(alloc, source(alloc, SETUP, 0)?, ONE_KEYBOARD);
    let is_told = match &live {
        Err(ServeFault::File(path, FileFault::CannotRead)) => {
            path.as_slice() == b"A.SET".as_slice()
        }
        _ => false,
    };
    Ok(is_told && matches!(other, Ok(LiveSetup::NotAsked { .. })))
}

#[test]
fn only_a_setup_that_was_read_says_that_no_station_is_live(rt: HostRuntime) -> Result<(), Fail> {
    assert!(rt; are_none_live(rt.alloc())?);
    assert!(rt; is_unread_if_asked(rt.alloc())?);
    Ok(())
}

// The source of live stations of the setup, of which so many loads are done.
fn live_after(alloc: Global, loads: u64) -> Result<WithSetup<MemorySource>, Fail> {
    match live_setup(alloc, source(alloc, SETUP, loads)?, LIVE) {
        Ok(LiveSetup::Live { source, .. }) => Ok(source),
        _ => Err("no live stations".into()),
    }
}

// A day of two clerks who type the same in a folder of the system.
fn live_in<R: Runtime + Files<File = File> + AllocGlobal + Threads + Wait + Sync, S: Source + Drop>(
    rt: &R,
    source: S,
    folder: &str,
) -> Result<LeftDay, Fail> {
    let clerk = Clerk::new(&[(1, 0, b"USE T\n? RECNO()\n")], Then::Ends);
    live_at(rt, &OwnPlaces::new(rt), source, folder, &[clerk, clerk])
}

// How many commands a day has whose setup was read before it, and of whose source so many loads are done in all.
fn count_after<R: Runtime + Files<File = File> + AllocGlobal + Threads + Wait + Sync>(
    rt: &R,
    loads: u64,
) -> Result<Option<u64>, Fail> {
    make_folder(rt, "live_setup")?;
    let day = live_in(rt, live_after(rt.alloc(), loads)?, "live_setup")?;
    fs::remove_dir_all(rt, "live_setup")?;
    Ok(day.count())
}

#[test]
fn a_day_takes_the_setup_that_was_read(rt: HostRuntime) -> Result<(), Fail> {
    // One load of the setup, and one of the table.
    assert!(rt; count_after(&rt, 2)? == Some(4));
    assert!(rt; count_after(&rt, 1)?.is_none());
    Ok(())
}

// Whether a station was not opened, and none of its lines performed.
fn is_untouched(left: &Left) -> bool {
    left.shown.is_none() && left.end == LinesEnd::DayOver && left.all_printed && left.file.is_none()
}

// Whether no station was opened.
fn are_untouched(day: &LeftDay) -> bool {
    let [one, two] = day.stations.as_slice() else {
        return false;
    };
    is_untouched(one) && is_untouched(two) && day.opens == 0 && !day.all_heard
}

// Whether a day in a folder, on this setup, is refused so before a station is opened.
fn is_refused<R: Runtime + Files<File = File> + AllocGlobal + Threads + Wait + Sync>(
    rt: &R,
    (setup, status, said): (&[u8], u8, &str),
    folder: &str,
) -> Result<bool, Fail> {
    let source = source(rt.alloc(), setup, u64::MAX)?;
    let day = live_in(rt, source, folder)?;
    Ok(are_untouched(&day) && day.is_told(status, "", said))
}

#[test]
fn what_is_refused_is_told_before_a_station_is_opened(rt: HostRuntime) -> Result<(), Fail> {
    make_folder(&rt, "refused_setup")?;
    let setup: (&[u8], u8, &str) = (
        b"STATION one\nSTATION two\nSTATON three\n",
        1,
        "station_prompt: setup line 3 is bad: STATON is none of TABLE, INDEX, STATION\n",
    );
    assert!(rt; is_refused(&rt, setup, "refused_setup")?);
    fs::remove_dir_all(&rt, "refused_setup")?;
    let folder: (&[u8], u8, &str) = (
        SETUP,
        4,
        "station_prompt: cannot open the folder of --out: is it there, and may it be opened?\n",
    );
    assert!(rt; is_refused(&rt, folder, "no_stations")?);
    Ok(())
}
