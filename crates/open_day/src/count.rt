//! How many entries a log has.

ghost use Rattle.std.specs.Prelude.{IfOk};
ghost use Rattle.open_day.specs.OpenDay.{IsBodyOf, IsEntryCount};

use crate::head::after_any_head;
use live_log::{ReadFault, read_log};
use std::alloc::{AllocError, Global};

// What stands behind a log's head, where it has one.
fn body_of(log: &[u8]) -> &[u8]
    ensures body { IsBodyOf log.now result.now }
{
    match after_any_head(log) {
        Some(body) => body,
        None => log,
    }
}

/// How many entries a log has. `None` where it is no log, or somebody has changed it. An error where memory is refused.
pub fn count_entries(alloc: Global, log: &[u8]) -> Result<Option<u64>, AllocError>
    ensures value { IfOk result (IsEntryCount log.now) }
{
    match read_log(alloc, body_of(log)) {
        Ok(text) => Ok(Some(text.count)),
        Err(ReadFault::Changed(_)) => Ok(None),
        Err(ReadFault::NoMemory) => Err(AllocError),
    }
}
