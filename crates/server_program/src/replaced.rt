//! Which files of the folder for the new ones are replaced though the run does not read them.

use kept_files::{KeptFile, is_own_name, new_file, new_memo_file, new_path};
use program_frame::System;
use station_lines::SetupEntry;
use std::alloc::{AllocError, Global};
use std::io;
use std::io::Write;

// Prints that a file is replaced which the run does not read: `station_server: NEW/STAFF.DBF is there and is not read: it is replaced` and LF.
fn print_replaced<W: Write>(err: &mut W, path: &[u8]) -> io::Result<()> {
    err.write_all(b"station_server: ")?;
    err.write_all(path)?;
    err.write_all(b" is there and is not read: it is replaced\n")?;
    Ok(())
}

// Whether the new file of a path takes the place of another file than the one that the setup names.
fn replaces_another<Y: System>(
    system: &Y,
    alloc: Global,
    out: &str,
    path: &[u8],
    file: KeptFile<'_>,
) -> Result<bool, AllocError> {
    if !system.is_there(path) {
        return Ok(false);
    }
    if !is_own_name(file) {
        return Ok(true);
    }
    match system.lies_in(alloc, file.path.as_slice(), out) {
        Ok(is_own) => Ok(!is_own),
        Err(_) => Err(AllocError),
    }
}

// Says of a new file that it takes the place of another file than the one that the setup names. A stream that takes no text changes
// nothing.
fn warn_of<Y: System, E: Write>(
    system: &Y,
    alloc: Global,
    err: &mut E,
    out: &str,
    file: Option<KeptFile<'_>>,
) -> Result<(), AllocError> {
    let Some(file) = file else {
        return Ok(());
    };
    let path = new_path(alloc, out, file)?;
    if replaces_another(system, alloc, out, path.as_slice(), file)? {
        let _ = print_replaced(err, path.as_slice());
    }
    Ok(())
}

/// Says on `err` which files of the folder `out` are replaced by the tables, memo files and indexes of a setup's entries though the run
/// does not read them: those of an earlier run, or of another table. It is said before the run, so that it can still be stopped. An
/// error where memory is refused.
pub(crate) fn warn_of_replaced_files<Y: System, E: Write>(
    system: &Y,
    alloc: Global,
    entries: &[SetupEntry],
    out: &str,
    err: &mut E,
) -> Result<(), AllocError> {
    for entry in entries {
        warn_of(system, alloc, err, out, new_file(entry))?;
        warn_of(system, alloc, err, out, new_memo_file(entry))?;
    }
    Ok(())
}
