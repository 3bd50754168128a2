//! The numbers of the format of index files.

/// The bytes of a page. The header page is the first.
pub const PAGE: usize = 512;

/// The most bytes of a page's key records: the number of its keys and the last child's pointer take eight.
pub const MAX_RECORDS_BYTES: usize = 504;

/// Where the number of pages stands in the header page.
pub const PAGE_COUNT_OFFSET: usize = 4;

/// Where the length of keys stands in the header page.
pub const KEY_LENGTH_OFFSET: usize = 12;

/// Where the type of keys stands in the header page: 0 for characters.
pub const KEY_TYPE_OFFSET: usize = 16;

/// Where the size of a key record stands in the header page.
pub const RECORD_SIZE_OFFSET: usize = 18;

/// Where the unique flag stands in the header page: 0 where equal keys are kept.
pub const UNIQUE_FLAG_OFFSET: usize = 23;

/// Where the key expression's text begins in the header page.
pub const EXPRESSION_OFFSET: usize = 24;

/// The most pairs of an index that is written.
pub const MAX_PAIRS: usize = 1_000_000_000;
