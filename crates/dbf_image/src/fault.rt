//! Why bytes are no table.

ghost use Rattle.std.specs.Prelude.{◌≡◌};
ghost use Rattle.dbf_image.specs.FaultWords.{image_name, image_words};

use std::alloc::{AllocError, AllocFailed};
use std::fmt;
use thiserror::Error;

/// Why bytes are no table. Where several of these apply, the answer is the first in the order of the
/// reader's tests: those of the header, then those of the fields, then those of the records, then whether
/// the file of memos is there, and last those of the memos' cells, by record and field.
#[derive(Clone, Copy, Debug, PartialEq, Eq, Error)]
pub enum ImageFault {
    /// The bytes end before the header, or before the last record.
    Truncated,
    /// The first byte is neither 0x03 nor 0x83.
    BadVersion,
    /// The header ends before the list of fields does.
    BadHeaderLength,
    /// The fields are none that a table may have.
    BadSchema,
    /// The length of a record is not one more than the widths of the fields together.
    BadRecordLength,
    /// There are more than [`MAX_RECORDS`](crate::MAX_RECORDS) records.
    TooManyRecords,
    /// A field is a memo, and there is no file of memos.
    MemoFileMissing,
    /// A memo's cell is neither blank nor the number of a block in digits.
    BadMemoNumber,
    /// A memo's block does not begin in the file of memos, after its header.
    MemoOutside,
    /// A memo's text is over [`MAX_MEMO_BYTES`](crate::MAX_MEMO_BYTES) bytes long.
    MemoTooLong,
    /// Memory was refused.
    NoMemory,
}

impl ImageFault {
    /// The name of its variant, without what it carries. Takes no memory.
    pub fn name(self) -> &'static str
        ensures name { result.now ≡ image_name self }
    {
        match self {
            ImageFault::Truncated => "Truncated",
            ImageFault::BadVersion => "BadVersion",
            ImageFault::BadHeaderLength => "BadHeaderLength",
            ImageFault::BadSchema => "BadSchema",
            ImageFault::BadRecordLength => "BadRecordLength",
            ImageFault::TooManyRecords => "TooManyRecords",
            ImageFault::MemoFileMissing => "MemoFileMissing",
            ImageFault::BadMemoNumber => "BadMemoNumber",
            ImageFault::MemoOutside => "MemoOutside",
            ImageFault::MemoTooLong => "MemoTooLong",
            ImageFault::NoMemory => "NoMemory",
        }
    }

    /// What it says, for a reader. Takes no memory.
    pub fn words(self) -> &'static str
        ensures words { result.now ≡ image_words self }
    {
        match self {
            ImageFault::Truncated => "the file is too short",
            ImageFault::BadVersion => "the file is of no known version",
            ImageFault::BadHeaderLength => "the header's length is bad",
            ImageFault::BadSchema => "the fields are no schema",
            ImageFault::BadRecordLength => "the records' length is bad",
            ImageFault::TooManyRecords => "there are too many records",
            ImageFault::MemoFileMissing => "the file of memos is missing",
            ImageFault::BadMemoNumber => "a memo's number is bad",
            ImageFault::MemoOutside => "a memo is outside its file",
            ImageFault::MemoTooLong => "a memo is too long",
            ImageFault::NoMemory => "out of memory",
        }
    }
}

impl fmt::Display for ImageFault {
    ghost use Rattle.std.specs.Prelude.{Some};

    ghost output = { λ fault. Some (image_words fault) };

    fn fmt<W: fmt::Write>(&self, f: &mut fmt::Formatter<W>) -> fmt::Result {
        f.write_str(self.words())
    }
}

impl From<AllocError> for ImageFault {
    ghost use Rattle.std.specs.Prelude.{◌≡◌};
    ghost use Rattle.dbf_image.specs.declared.fault.ImageFault.TheVariants.{NoMemory};

    ghost from_gives = { λ _ e. e ≡ NoMemory };

    fn from(_e: AllocError) -> ImageFault {
        ImageFault::NoMemory
    }
}

impl<T: Drop> From<AllocFailed<T>> for ImageFault {
    ghost use Rattle.std.specs.Prelude.{◌≡◌};
    ghost use Rattle.dbf_image.specs.declared.fault.ImageFault.TheVariants.{NoMemory};

    ghost from_gives = { λ _ e. e ≡ NoMemory };

    fn from(_e: AllocFailed<T>) -> ImageFault {
        ImageFault::NoMemory
    }
}
