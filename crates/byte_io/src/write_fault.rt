//! Why a file was not written.

use thiserror::Error;

/// Why a table, its memos or an index was not written, or not whole.
#[derive(Clone, Copy, Debug, PartialEq, Eq, Error)]
pub enum WriteFault {
    /// A table's header tells the year less 1900 in one byte, and this year is none of 1900 to 2155.
    #[error("the year is not one of 1900 to 2155")]
    DateOutside,
    /// The blocks of a file of memos are counted in 32 bits, and the table's memos take more.
    #[error("the memos take too many blocks")]
    TooManyBlocks,
    /// The sink failed.
    #[error("the sink failed")]
    Sink,
}
