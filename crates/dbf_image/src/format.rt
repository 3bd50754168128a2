//! The constants of DBF and DBT files.

/// The first byte of a table without memos.
pub(crate) const VERSION: u8 = 0x03;

/// The first byte of a table with a file of memos beside it.
pub(crate) const VERSION_WITH_MEMOS: u8 = 0x83;

/// The first of the years that the header's date can tell.
pub(crate) const FIRST_YEAR: u16 = 1900;

/// The last of them.
pub(crate) const LAST_YEAR: u16 = 2155;

/// How many bytes stand before the descriptors.
pub const HEADER: usize = 32;

/// Where the number of records stands in the header: four bytes.
pub(crate) const RECORD_COUNT_OFFSET: usize = 4;

/// Where the length of the header stands in it: two bytes.
pub(crate) const HEADER_LENGTH_OFFSET: usize = 8;

/// Where the length of a record stands in the header: two bytes.
pub(crate) const RECORD_LENGTH_OFFSET: usize = 10;

/// How many bytes the descriptor of a field has.
pub(crate) const DESCRIPTOR: usize = 32;

/// How many bytes a name has in its descriptor, with the zeros after it.
pub(crate) const NAME_BYTES: usize = 11;

/// The byte after the descriptors.
pub(crate) const HEADER_END: u8 = 0x0d;

/// The flag of a record that is marked as deleted.
pub(crate) const DELETED: u8 = 0x2a;

/// The flag that is written of a record that is kept.
pub(crate) const KEPT: u8 = 0x20;

/// The byte after the last record.
pub(crate) const END_OF_FILE: u8 = 0x1a;

/// How many records a table has at most: the limit that dBASE III PLUS states for its files.
pub const MAX_RECORDS: u32 = 1_000_000_000;

/// How many bytes a block of the file of memos has.
pub const BLOCK: usize = 512;

/// The byte that ends a memo's text.
pub(crate) const MEMO_END: u8 = 0x1a;

/// How many bytes a memo's text has at most.
pub const MAX_MEMO_BYTES: usize = 65_535;

/// How many blocks a memo's text takes at most, with the two bytes after it.
pub(crate) const MAX_MEMO_BLOCKS: usize = (MAX_MEMO_BYTES + (BLOCK + 1)) / BLOCK;

/// The greatest number of a block: the header of the file of memos has 32 bits for the next free one.
pub(crate) const MAX_BLOCK_NUMBER: u64 = u32::MAX as u64;
