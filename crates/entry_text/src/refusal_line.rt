//! The lines of refusals.

ghost use Rattle.std.specs.Prelude.{◌≡◌, IfOk};
ghost use Rattle.entry_text.specs.Refusals.{is_refusal_line as is_refusal, refusal_lines as lines_of_refusals};

use byte_io::Bytes;
use catalogue_core::{Answer, Refusal};
use station_lines::answer_line;
use std::alloc::{AllocError, Global};

/// All refusals, in the order of their numbers.
pub(crate) static REFUSALS: [Refusal; 23] = [
    Refusal::NoTable,
    Refusal::NoTableInUse,
    Refusal::TableInUse,
    Refusal::NeedsExclusive,
    Refusal::NotLocked,
    Refusal::OutOfRange,
    Refusal::EndOfFile,
    Refusal::BeginOfFile,
    Refusal::NotIndexed,
    Refusal::NoSuchField,
    Refusal::TypeMismatch,
    Refusal::NumberTooWide,
    Refusal::BadDate,
    Refusal::BadText,
    Refusal::BadArea,
    Refusal::AlreadyOpen,
    Refusal::TableFull,
    Refusal::NoSuchOrder,
    Refusal::BadCommand,
    Refusal::TooManyLocks,
    Refusal::BadExpression,
    Refusal::IndexNameUsed,
    Refusal::TooManyIndexes,
];

/// The lines of all refusals. An error where memory is refused.
pub(crate) fn refusal_lines(alloc: Global) -> Result<Vec<Bytes>, AllocError>
    ensures value { IfOk result (λ lines. lines.items ≡ lines_of_refusals) }
{
    let mut lines = Vec::new(alloc);
    for refusal in REFUSALS.iter() {
        lines.push(answer_line(alloc, &Answer::Refused(*refusal))?)?;
    }
    Ok(lines)
}

/// Whether a line is that of a refusal. Takes no memory.
pub(crate) fn is_refusal_line(refusals: &[Bytes], line: &[u8]) -> bool
    requires all { refusals.now ≡ lines_of_refusals }
    ensures value { result ≡ is_refusal line.now }
{
    refusals.iter().any(|refusal| refusal.as_slice() == line)
}
