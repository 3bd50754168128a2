//! The letters, bytes, widths and limits of the published layout of fields and cells.

/// The letter of the fields of characters, 1 to 254 bytes wide.
pub const CHARACTER: u8 = b'C';

/// The letter of the fields of numbers, 1 to 19 bytes wide, with no decimals or fewer than the width.
pub const NUMBER: u8 = b'N';

/// The letter of the fields of logical values, 1 byte wide.
pub const LOGICAL: u8 = b'L';

/// The letter of the fields of dates, 8 bytes wide.
pub const DATE: u8 = b'D';

/// The letter of the fields of memos, 10 bytes wide: the number of a block in a file of memos.
pub const MEMO: u8 = b'M';

/// The widest field of characters.
pub const MAX_CHARACTER_WIDTH: u8 = 254;

/// The widest field of numbers.
pub const MAX_NUMBER_WIDTH: u8 = 19;

/// How wide the fields of dates are.
pub const DATE_WIDTH: u8 = 8;

/// How wide the fields of memos are.
pub const MEMO_WIDTH: u8 = 10;

/// The most fields that a table has.
pub const MAX_FIELDS: usize = 128;

/// The most bytes that the cells of one record have together.
pub const MAX_RECORD_BYTES: u32 = 4000;

/// What fills a cell up to its width.
pub const BLANK: u8 = b' ';

/// The digit zero, which the other digits follow.
pub const ZERO_DIGIT: u8 = b'0';

/// What stands before the decimals of a number.
pub const POINT: u8 = b'.';

/// What stands before a number below zero.
pub const MINUS: u8 = b'-';

/// What may stand before any other number.
pub const PLUS: u8 = b'+';

/// What stands between the parts of a date that is shown.
pub const SLASH: u8 = b'/';

/// What stands in place of a value that can't be shown.
pub const ASTERISK: u8 = b'*';
