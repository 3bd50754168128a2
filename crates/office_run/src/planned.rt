//! A file that will be written.

ghost use Rattle.office_run.specs.Writable.{CanBeWritten, CanBeWritten-prop};

use crate::content::Content;
use byte_io::Bytes;

/// A file that will be written, and can be.
#[derive(Drop)]
pub(crate) struct Planned<'a> {
    /// Its name.
    pub name: Bytes,
    /// Its content.
    pub content: Content<'a>,
    ghost writable: { CanBeWritten content } by { CanBeWritten-prop content },
}
