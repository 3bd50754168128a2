//! Whether the journal's file will be too long to be read, before it is written.

ghost use Rattle.std.specs.Prelude.{◌<◌, ◌≤◌, ◌↔◌, length, IfOk, IsTrue};
ghost use Rattle.folders.specs.declared.source.TheConstants.{MAX_FILE_BYTES};
ghost use Rattle.station_lines.specs.JournalLines.{journal_text};
ghost use Rattle.office_run.specs.JournalFile.{parts_text};

use crate::journal::JournalText;
use catalogue_core::Entry;
use folders::MAX_FILE_BYTES;
use station_lines::{EntryLine, line_bound};
use std::alloc::{AllocError, Global};

// Whether the lines of the journal's entries have no more bytes than there is room even if each is as long as it may be. No line is
// made.
fn surely_fit(journal: &[Entry], room: usize) -> bool
    requires limited { room ≤ MAX_FILE_BYTES }
    ensures fit { IsTrue result → length (journal_text journal.now) ≤ room }
{
    let mut left = room;
    for entry in journal {
        let bytes = line_bound(entry);
        if bytes > left {
            return false;
        }
        left -= bytes;
    }
    true
}

// Whether the lines of the journal's entries have more bytes than there is room. One line at a time is in memory. An error where
// memory is refused.
fn lines_exceed(alloc: Global, journal: &[Entry], room: usize) -> Result<bool, AllocError>
    ensures value { IfOk result (λ more. IsTrue more ↔ (room < length (journal_text journal.now))) }
{
    let mut left = room;
    let mut line = EntryLine::new(alloc);
    for entry in journal {
        let text = line.of(entry.station, &entry.command, &entry.answer)?;
        let bytes = text.len();
        if bytes > left {
            return Ok(true);
        }
        left -= bytes;
    }
    Ok(false)
}

/// Whether the journal's file will have more bytes than a file that is read may have: `MAX_FILE_BYTES`. An error where memory is
/// refused.
pub(crate) fn is_too_long(alloc: Global, text: &JournalText<'_>) -> Result<bool, AllocError>
    ensures value { IfOk result (λ long. IsTrue long ↔ (MAX_FILE_BYTES < length (parts_text text.now))) }
{
    let others = text.head.len() + text.tail.len();
    if others > MAX_FILE_BYTES {
        return Ok(true);
    }
    let room = MAX_FILE_BYTES - others;
    if surely_fit(text.entries, room) {
        return Ok(false);
    }
    lines_exceed(alloc, text.entries, room)
}
