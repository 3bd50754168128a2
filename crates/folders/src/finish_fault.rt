//! Why new files did not take their places.

use thiserror::Error;

/// Why new files of a folder were not put in place, all of them.
#[derive(Clone, Copy, Debug, PartialEq, Eq, Error)]
pub enum FinishFault {
    /// Memory was refused. None of them is in place.
    #[error("there was no memory to put the new files in place")]
    NoMemory,
    /// The disk has failed. None of them is in place.
    #[error("the new files could not be written")]
    Unwritten,
    /// Some of them may be in place. The next start puts in place the others too, or none.
    #[error("the new files could not all be put in place")]
    Unfinished,
}
