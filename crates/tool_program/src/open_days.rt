//! A day that is open in the folder of a table that is shown or compared: what its stations were answered is not in the table yet.

use crate::asked::Asked;
use byte_io::Bytes;
use folders::folder_of;
use open_day::{count_entries, is_open, log_beside, mark_beside};
use program_frame::Beside;
use std::alloc::Global;
use std::io;
use std::io::Write;

// Says that a day is open in a folder, and how many of its commands are in no table yet; `None` where its log doesn't tell.
fn print_open_day<E: Write>(err: &mut E, folder: &[u8], count: Option<u64>) -> io::Result<()> {
    err.write_all(b"table_tool: a day is open in ")?;
    err.write_all(folder)?;
    match count {
        Some(count) => writeln!(err, ": {count} commands are not in its tables yet"),
        None => err.write_all(b": its log is damaged, or none of this version\n"),
    }
}

// The log of a path, where it is that of a day that is open.
fn open_log<B: Beside>(system: &B, alloc: Global, log: &[u8]) -> Option<Bytes> {
    let Ok(Some(found)) = system.read_if_there(alloc, log) else {
        return None;
    };
    if is_open(found.as_slice()) {
        Some(found)
    } else {
        None
    }
}

// The log of a day that is open in the folder of the file of a path: the one that lies there, or the one that its mark names.
fn open_log_beside<B: Beside>(system: &B, alloc: Global, path: &[u8]) -> Option<Bytes> {
    let log = log_beside(alloc, path).ok()?;
    if let Some(found) = open_log(system, alloc, log.as_slice()) {
        return Some(found);
    }
    let mark = mark_beside(alloc, path).ok()?;
    match system.read_if_there(alloc, mark.as_slice()) {
        Ok(Some(named)) => open_log(system, alloc, named.as_slice()),
        _ => None,
    }
}

// Says so of the folder of the table of a path, where a day is open there.
fn warn_of<B: Beside, E: Write>(system: &B, alloc: Global, err: &mut E, table: &str) {
    let Some(log) = open_log_beside(system, alloc, table.as_bytes()) else {
        return;
    };
    if let Ok(count) = count_entries(alloc, log.as_slice()) {
        let _ = print_open_day(err, folder_of(table.as_bytes()), count);
    }
}

/// Says on `err` of the tables that are shown or compared in whose folder a day is open, and how many of its commands are not in them yet.
/// Nothing is said where a log or a mark can't be read or memory is refused, and a stream that takes no text changes nothing.
pub(crate) fn warn_of_open_days<B: Beside, E: Write>(
    system: &B,
    alloc: Global,
    err: &mut E,
    asked: &Asked<'_>,
) {
    match asked {
        Asked::Show(options) => warn_of(system, alloc, err, options.table),
        Asked::Diff(options) => {
            warn_of(system, alloc, err, options.old_table);
            let old = folder_of(options.old_table.as_bytes());
            if folder_of(options.new_table.as_bytes()) != old {
                warn_of(system, alloc, err, options.new_table);
            }
        }
        _ => {}
    }
}
