//! The numbers at the head of a file of an index.

ghost use Rattle.std.specs.Prelude.{◌≡◌};
ghost use Rattle.setup_files.specs.HeadNumbers.{index_numbers as index_numbers_in};

use ndx_index::header_numbers;

/// The numbers at the head of an index's file, as they stand there. But for the first they are 0 where the file is shorter
/// than its header page.
#[derive(Clone, Copy, Debug, PartialEq, Eq)]
pub struct IndexNumbers {
    /// How many bytes the file has.
    pub file_length: usize,
    /// The kind of the keys: 0 for characters.
    pub key_type: u16,
    /// Whether equal keys are left out: 0 where not.
    pub unique_flag: u8,
    /// How many bytes a key has.
    pub key_length: u16,
    /// How many bytes a key record has.
    pub record_size: u16,
}

/// The numbers at the head of an index's file.
pub(crate) fn index_numbers(bytes: &[u8]) -> IndexNumbers
    ensures value { result ≡ index_numbers_in bytes.now }
{
    match header_numbers(bytes) {
        Some(numbers) => IndexNumbers {
            file_length: bytes.len(),
            key_type: numbers.key_type,
            unique_flag: numbers.unique_flag,
            key_length: numbers.key_len,
            record_size: numbers.record_size,
        },
        None => IndexNumbers {
            file_length: bytes.len(),
            key_type: 0,
            unique_flag: 0,
            key_length: 0,
            record_size: 0,
        },
    }
}
