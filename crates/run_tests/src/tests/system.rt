//! A call of the server over files and a folder of the system.

use folders::DiskSource;
use program_frame::Host;
use server_program::run_program;
use std::fs::{self, File};
use std::rt::{Files, Runtime};
use std::sync::Wait;
use std::test::Fail;
use std::thread::Threads;

// The DBF file of a table with one field of characters, A, one byte wide, without records, dated 1985-01-02.
#[rattlefmt::skip]
const TABLE: [u8; 66] = [
    0x03, 0x55, 0x01, 0x02, 0x00, 0x00, 0x00, 0x00, 0x41, 0x00, 0x02, 0x00, 0, 0, 0, 0,
    0, 0, 0, 0, 0, 0, 0, 0, 0, 0, 0, 0, 0, 0, 0, 0,
    0x41, 0, 0, 0, 0, 0, 0, 0, 0, 0, 0, 0x43, 0, 0, 0, 0,
    0x01, 0x00, 0, 0, 0, 0, 0, 0, 0, 0, 0, 0, 0, 0, 0, 0,
    0x0d,
    0x1a,
];

// The files of a setup, and those that an earlier run has left: one that is to get its name, and one that isn't.
const FILES: [(&str, &[u8]); 6] = [
    (
        "placed/in/A.SET",
        b"TABLE T placed/in/t.dbf\nSTATION placed/in/s.prg\n",
    ),
    ("placed/in/t.dbf", &TABLE),
    ("placed/in/s.prg", b"USE T\n"),
    ("placed/out/~niqarthu~LAST.TXT", b"of the run before"),
    (
        "placed/out/~niqarthu.list",
        b"LAST.TXT\n~niqarthu: 1 names\n",
    ),
    ("placed/out/~niqarthu~LOST.TXT", b"of no run"),
];

const FOLDERS: [&str; 3] = ["placed", "placed/in", "placed/out"];

// Makes the folders anew, with the files in them.
fn make_folders<R: Runtime + Files<File = File>>(rt: &R) -> Result<(), Fail> {
    if fs::exists(rt, "placed")? {
        fs::remove_dir_all(rt, "placed")?;
    }
    for folder in FOLDERS {
        fs::create_dir(rt, folder)?;
    }
    for (path, bytes) in FILES {
        fs::write(rt, path, bytes)?;
    }
    Ok(())
}

const WORDS: [&str; 6] = [
    "station_server",
    "--setup=placed/in/A.SET",
    "--out=placed/out",
    "--today",
    "19870315",
    "--journal",
];

// How many commands a run of these words performs.
fn performed<R: Runtime + Files<File = File> + AllocGlobal + Threads + Wait + Sync>(
    rt: &R,
) -> Result<Option<u64>, Fail> {
    let alloc = rt.alloc();
    let mut source = DiskSource::new(rt.clone()?);
    let mut err: Vec<u8> = Vec::new(alloc);
    match run_program(rt, alloc, &Host::new(rt), &mut source, &mut err, &WORDS) {
        Ok(served) => Ok(Some(served.counts.all)),
        Err(_) => Ok(None),
    }
}

// Files, and whether they are there after the run.
const PLACED: [(&str, bool); 7] = [
    ("placed/out/T.DBF", true),
    ("placed/out/STATION1.TXT", true),
    ("placed/out/JOURNAL.TXT", true),
    ("placed/out/LAST.TXT", true),
    ("placed/out/~niqarthu.list", false),
    ("placed/out/~niqarthu~T.DBF", false),
    ("placed/out/~niqarthu~LOST.TXT", false),
];

// Whether the folder has the files that it is to have.
fn are_placed<R: Files>(rt: &R) -> Result<bool, Fail> {
    for (name, is_there) in PLACED {
        if fs::exists(rt, name)? != is_there {
            return Ok(false);
        }
    }
    Ok(true)
}

#[test]
fn files_take_their_places(rt: HostRuntime) -> Result<(), Fail> {
    make_folders(&rt)?;
    assert!(rt; performed(&rt)? == Some(1));
    assert!(rt; are_placed(&rt)?);
    fs::remove_dir_all(&rt, "placed")?;
    Ok(())
}
