//! Stations at paths of the system.

use crate::own_places::OwnPlaces;
use crate::samples::{SETUP, is_text, make_folder, read_file, source, words_of};
use byte_io::Bytes;
use live_stations::{Asked, LinesEnd, StationLeft, StationPaths, Terminals, live_stations};
use std::alloc::{AllocError, Global};
use std::fs;
use std::fs::File;
use std::process::Abort;
use std::rt::{Files, Runtime};
use std::sync::Wait;
use std::test::Fail;
use std::thread::Threads;

// What stands at a station's path and at that of its answers before a day, where there is something; what stands at the latter after it; and
// why its lines end.
type Row = (
    Option<&'static str>,
    Option<&'static str>,
    Option<&'static str>,
    LinesEnd,
);

const ROWS: [Row; 5] = [
    (
        Some("USE T\n? RECNO()\n"),
        Some(""),
        Some("OK\n1\n"),
        LinesEnd::Ended,
    ),
    // What is there is not cut.
    (
        Some("USE T\nQUIT\nGO 2\n"),
        Some("yesterday\n"),
        Some("yesterday\nOK\n"),
        LinesEnd::Quit,
    ),
    // Nothing is made.
    (Some(""), None, None, LinesEnd::Ended),
    (None, Some(""), Some(""), LinesEnd::Unopened),
    (None, None, None, LinesEnd::Unopened),
];

// Writes a file of the system, where there is a text for it.
fn put<R: Runtime + Files<File = File>>(
    rt: &R,
    path: &str,
    text: Option<&str>,
) -> Result<(), Fail> {
    if let Some(text) = text {
        fs::write(rt, path, text.as_bytes())?;
    }
    Ok(())
}

// Whether a file of the system has this text, or is not there.
fn has<R: Runtime + Files<File = File> + AllocGlobal>(
    rt: &R,
    path: &str,
    text: Option<&str>,
) -> Result<bool, Fail> {
    let found = read_file(rt, path)?;
    Ok(match text {
        Some(text) => is_text(&found, text.as_bytes()),
        None => found.is_none(),
    })
}

// Writes what stands at the paths of two stations before a day.
fn put_all<R: Runtime + Files<File = File>>(rt: &R, one: &Row, two: &Row) -> Result<(), Fail> {
    put(rt, "paths/one", one.0)?;
    put(rt, "paths/one.OUT", one.1)?;
    put(rt, "paths/two", two.0)?;
    put(rt, "paths/two.OUT", two.1)
}

// Whether that stands there which does after the day.
fn has_all<R: Runtime + Files<File = File> + AllocGlobal>(
    rt: &R,
    one: &Row,
    two: &Row,
) -> Result<bool, Fail> {
    Ok(
        has(rt, "paths/one", one.0)?
            && has(rt, "paths/two", two.0)?
            && has(rt, "paths/one.OUT", one.2)?
            && has(rt, "paths/two.OUT", two.2)?,
    )
}

// The paths of two stations.
fn paths_of(alloc: Global) -> Result<Vec<Bytes>, AllocError> {
    let mut paths = vec![in alloc; Bytes::from_slice(alloc, b"paths/one")?]?;
    paths.push(Bytes::from_slice(alloc, b"paths/two")?)?;
    Ok(paths)
}

// Whether each of two stations ends so, and all its answers were printed.
fn are_ended<K: Drop, W: Drop>(stations: &[StationLeft<K, W>], rows: [&Row; 2]) -> bool {
    let mut are_so = stations.len() == 2;
    for (left, row) in stations.iter().zip(rows) {
        are_so = are_so && left.end == row.3 && left.all_printed;
    }
    are_so
}

// Whether a day of two stations is closed, and each ends so.
fn ends_so<
    R: Runtime + Files<File = File> + AllocGlobal + Threads + Wait + Sync,
    T: Terminals + Sync,
>(rt: &R, stations: &T, rows: [&Row; 2]) -> Result<bool, Fail> {
    let alloc = rt.alloc();
    let source = source(alloc, SETUP, u64::MAX)?;
    let out: Vec<u8> = Vec::new(alloc);
    let err: Vec<u8> = Vec::new(alloc);
    let asked = Asked {
        places: &OwnPlaces::new(rt),
        source,
        out,
        err,
        words: &words_of("paths"),
    };
    match live_stations(rt, alloc, stations, rows.len(), asked) {
        Ok(day) => Ok(day.ended.is_ok() && are_ended(day.stations.as_slice(), rows)),
        Err(_) => Err("no threads".into()),
    }
}

// Whether a day of two stations leaves this at their paths.
fn leaves<
    R: Runtime + Files<File = File> + AllocGlobal + Threads + Wait + Sync,
    T: Terminals + Sync,
>(rt: &R, stations: &T, one: &Row, two: &Row) -> Result<bool, Fail> {
    make_folder(rt, "paths")?;
    put_all(rt, one, two)?;
    let are_so = ends_so(rt, stations, [one, two])?;
    let are_left = has_all(rt, one, two)?;
    fs::remove_dir_all(rt, "paths")?;
    Ok(are_so && are_left)
}

// Asserts that days of two stations leave this at their paths, of each two rows.
fn assert_all_leave<
    R: Runtime + Files<File = File> + AllocGlobal + Threads + Wait + Sync + Abort,
    T: Terminals + Sync,
>(rt: &R, stations: &T) -> Result<(), Fail> {
    for one in &ROWS {
        for two in &ROWS {
            assert!(rt; leaves(rt, stations, one, two)?);
        }
    }
    Ok(())
}

#[test]
fn a_station_types_at_its_path_and_is_answered_beside_it(rt: HostRuntime) -> Result<(), Fail> {
    // Only here it is known that the system's runtime may be used by several threads.
    let stations = StationPaths::new(&rt, paths_of(rt.alloc())?);
    assert!(rt; stations.len() == 2);
    assert_all_leave(&rt, &stations)
}
