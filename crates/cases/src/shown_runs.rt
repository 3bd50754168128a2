//! Programs on copies of files of the system, one after another: `demo/run` shows them so where no proved ones are there.
//!
//! The words are those of a folder and of files, and then, each behind `--then`, the words of programs. The files are read and stand
//! in memory under the last parts of their paths. The programs run over them, each on what the one before has left. A line with
//! `--then` and its name stands before what each prints. At the end the files of the folder `OUT` are written to the folder of the
//! system that the first word names. After a program that fails no other is run; tables that differ are no failure.

use crate::programs::{Call, Outcome};
use case_files::{Opening, Place, Trouble};
use folders::file_name;
use std::alloc::{AllocError, Global};
use std::fs::{self, File};
use std::io::{self, ErrorKind, Write};
use std::rt::{Files, Runtime};
use std::sync::Wait;
use std::thread::Threads;

/// The word before the words of a program.
const THEN: &str = "--then";

/// The folder of the new files.
const OUT: &[u8] = b"OUT";

/// Runs the programs. The status is that of the one that failed, and 0 where none did.
pub(crate) fn run_programs<
    R: Runtime + Files<File = File> + AllocGlobal + Threads + Wait + Sync,
    O: Write,
    E: Write,
>(rt: &R, out: &mut O, err: &mut E, words: &[String]) -> io::Result<u8> {
    let place = Place::new(rt.alloc());
    place.make_folder(OUT, Opening::Free)?;
    let mut parts = words.split(|word| word.as_str() == THEN);
    let Some([folder, files @ ..]) = parts.next() else {
        return Err(io::Error::from(ErrorKind::InvalidInput));
    };
    read_files(rt, &place, files)?;
    for part in parts {
        let status = run_program(rt, &place, out, err, part)?;
        if status != 0 {
            return Ok(status);
        }
    }
    write_files(rt, rt.alloc(), &place, folder.as_str())?;
    Ok(0)
}

// Reads files of the system.
fn read_files<R: Runtime + Files<File = File>>(
    rt: &R,
    place: &Place,
    paths: &[String],
) -> io::Result<()> {
    for path in paths {
        let bytes = fs::read(rt, path.as_str())?;
        let bytes = Vec::from_slice(place.alloc(), &bytes)?;
        place.put(file_name(path.as_str().as_bytes()), bytes)?;
    }
    Ok(())
}

// Runs a program, and prints what it prints: its status, and 0 where it tells of no failure.
fn run_program<R: Threads + Wait + Sync, O: Write, E: Write>(
    rt: &R,
    place: &Place,
    out: &mut O,
    err: &mut E,
    words: &[String],
) -> io::Result<u8> {
    let Some(name) = words.first() else {
        return Err(io::Error::from(ErrorKind::InvalidInput));
    };
    writeln!(out, "{THEN} {}", name.as_str())?;
    let outcome = outcome_of(rt, place, words)?;
    out.write_all(&outcome.out)?;
    err.write_all(&outcome.err)?;
    if outcome.status == 1 && name.as_str() == "table_tool" {
        return Ok(0);
    }
    Ok(outcome.status)
}

// What a program prints, and its status.
fn outcome_of<R: Threads + Wait + Sync>(
    rt: &R,
    place: &Place,
    words: &[String],
) -> io::Result<Outcome> {
    match Call::of(words).run(rt, place.alloc(), place) {
        Ok(outcome) => Ok(outcome),
        Err(Trouble::NoMemory) => Err(io::Error::from(ErrorKind::OutOfMemory)),
        Err(Trouble::Bad(_)) => Err(io::Error::from(ErrorKind::InvalidInput)),
    }
}

// Writes the new files to a folder of the system.
fn write_files<R: Runtime + Files<File = File>>(
    rt: &R,
    alloc: Global,
    place: &Place,
    folder: &str,
) -> io::Result<()> {
    for name in place.names(OUT)? {
        let path = path_of(alloc, folder, &name)?;
        if let Some(bytes) = new_file(alloc, place, &name)? {
            fs::write(rt, path.as_str(), &bytes)?;
        }
    }
    Ok(())
}

// The path of a file of a folder.
fn path_of(alloc: Global, folder: &str, name: &[u8]) -> io::Result<String> {
    match str::from_utf8(name) {
        Ok(name) => Ok(format!(in alloc; "{folder}/{name}")?),
        Err(_) => Err(io::Error::from(ErrorKind::InvalidData)),
    }
}

// The bytes of a new file.
fn new_file(alloc: Global, place: &Place, name: &[u8]) -> Result<Option<Vec<u8>>, AllocError> {
    let mut path = Vec::from_slice(alloc, OUT)?;
    path.push(b'/')?;
    path.extend_from_slice(name)?;
    place.get(&path)
}
