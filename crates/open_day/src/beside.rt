//! Where the log of a table's folder lies, and the mark of a day whose log lies elsewhere.

ghost use Rattle.std.specs.Prelude.{◌≡◌, IfOk};
ghost use Rattle.open_day.specs.OpenDay.{file_beside as path_of_file, log_beside as path_of_log, mark_beside as path_of_mark};

use crate::day::LOG_NAME;
use crate::mark::MARK_NAME;
use folders::file_name;
use std::alloc::{AllocError, Global};

// The path of the file of a name in the folder of a path.
fn file_beside(alloc: Global, path: &[u8], name: &[u8]) -> Result<Vec<u8>, AllocError>
    ensures value { IfOk result (λ own. own.items ≡ path_of_file path.now name.now) }
{
    let mut own = Vec::from_slice(alloc, &path[..path.len() - file_name(path).len()])?;
    own.extend_from_slice(name)?;
    Ok(own)
}

/// The path of a live day's log in the folder of a path. An error where memory is refused.
pub fn log_beside(alloc: Global, path: &[u8]) -> Result<Vec<u8>, AllocError>
    ensures value { IfOk result (λ log. log.items ≡ path_of_log path.now) }
{
    file_beside(alloc, path, LOG_NAME)
}

/// The path of the mark of a day whose log lies elsewhere, in the folder of a path. An error where memory is refused.
pub fn mark_beside(alloc: Global, path: &[u8]) -> Result<Vec<u8>, AllocError>
    ensures value { IfOk result (λ mark. mark.items ≡ path_of_mark path.now) }
{
    file_beside(alloc, path, MARK_NAME)
}
