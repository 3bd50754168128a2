//! Days of one keyboard in a folder of the system.

use crate::own_places::OwnPlaces;
use crate::samples::{SETUP, is_text, make_folder, read_file, source};
use live_program::{LiveFailure, Lived, PrintedAnswers, TypedLines, run_program};
use program_frame::{Ending, Failure};
use std::fs::{self, File};
use std::io::{self, Write};
use std::rt::{Files, Runtime};
use std::test::Fail;
use std::thread::Threads;

// A screen that takes nothing.
#[derive(Drop)]
struct Full;

impl Write for Full {
    fn write(&mut self, _bytes: &[u8]) -> io::Result<usize> {
        Err(io::Error::from(io::ErrorKind::BrokenPipe))
    }

    fn flush(&mut self) -> io::Result<()> {
        Ok(())
    }
}

// A day in the folder `lived` of the system: how it ended, and what was said of its log.
fn live_in<R: Runtime + Files<File = File> + AllocGlobal + Threads, W: Write + Drop>(
    rt: &R,
    typed: &[u8],
    out: W,
) -> Result<(Result<Lived, Ending<Failure<LiveFailure>>>, Vec<u8>), Fail> {
    let alloc = rt.alloc();
    let mut files = source(alloc, SETUP, u64::MAX)?;
    let prompt: Option<Vec<u8>> = None;
    let mut said = Vec::new(alloc);
    let words = [
        "station_prompt",
        "--setup=A.SET",
        "--out=lived",
        "--today=19870315",
    ];
    let ended = run_program(
        alloc,
        &OwnPlaces::new(rt),
        &mut files,
        &mut TypedLines::new(typed, prompt),
        &mut PrintedAnswers::new(out),
        &mut said,
        &words,
    );
    Ok((ended, said))
}

// Whether a day is stopped since its answers can't be printed.
fn is_unshown<R: Runtime + Files<File = File> + AllocGlobal + Threads>(
    rt: &R,
) -> Result<bool, Fail> {
    let (ended, said) = live_in(rt, b"USE T\nGO 2\n", Full)?;
    Ok(
        said.is_empty()
            && matches!(
                ended,
                Err(Ending::Failed(Failure::Work(LiveFailure::Unshown)))
            ),
    )
}

// Whether the next day goes on with its log, and is closed.
fn goes_on<R: Runtime + Files<File = File> + AllocGlobal + Threads>(rt: &R) -> Result<bool, Fail> {
    let mut shown: Vec<u8> = Vec::new(rt.alloc());
    let (ended, said) = live_in(rt, b"? RECNO()\nQUIT\n", &mut shown)?;
    let told: &[u8] = b"station_prompt: 2 commands performed again\nstation 1: GO 2: OK\n";
    Ok(
        matches!(ended, Ok(Lived { count: 3 }))
            && shown.as_slice() == b"2\n".as_slice()
            && said.as_slice() == told,
    )
}

// The log of a day's two commands, behind its head. The sums are those of `sha256sum`.
const PUT: &[u8] =
    b"read 5 38 79a171ea0a9cba85847a9fcb499b192d5f0d9ab4ae834cd3db166afd1a93893f A.SET\n\
      read 5 88 7f2ba3d33b7041bc26f3fac6162fba6e976cc7f5b32ab4d63097eda13b8d2efa T.DBF\n\
      reindex no\n\
      earlier 0 commands\n\
      +8bec0ec40ff649fe 1 5 2 USE T OK\n+8c8236226da7c9ac 1 4 2 GO 2 OK\n-";

// Whether the folder's log is this one.
fn has_log<R: Runtime + Files<File = File> + AllocGlobal>(
    rt: &R,
    log: &[u8],
) -> Result<bool, Fail> {
    Ok(is_text(&read_file(rt, "lived/STATIONS.LOG")?, log))
}

#[test]
fn a_day_goes_on_in_a_folder_of_the_system(rt: HostRuntime) -> Result<(), Fail> {
    make_folder(&rt, "lived")?;
    assert!(rt; is_unshown(&rt)?);
    assert!(rt; has_log(&rt, PUT)?);
    assert!(rt; goes_on(&rt)? && has_log(&rt, b"-3 commands\n")?);
    assert!(rt; fs::exists(&rt, "lived/T.DBF")?);
    fs::remove_dir_all(&rt, "lived")?;
    Ok(())
}
