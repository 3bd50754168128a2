//! The bytes and the limits of script lines.

/// Separates words, as a blank does.
pub(crate) const TAB: u8 = b'\t';

/// Begins and ends a text.
pub(crate) const QUOTE: u8 = b'"';

/// Begins and ends a text that may hold a quote.
pub(crate) const APOSTROPHE: u8 = b'\'';

/// Ends a line.
pub const LF: u8 = b'\n';

/// Stands before an LF that ends a line, and is a byte of the line elsewhere.
pub(crate) const CR: u8 = b'\r';

/// Stands between the numbers of a list.
pub(crate) const COMMA: u8 = b',';

/// Two of them begin a remark elsewhere, but not here.
pub(crate) const AMPERSAND: u8 = b'&';

/// The first word of the commands that ask.
pub(crate) const QUESTION_MARK: u8 = b'?';

/// The mark of the end of a file, which old editors write.
pub(crate) const END_MARK: u8 = 0x1a;

/// The first byte of the byte order mark of UTF-8.
pub(crate) const MARK_FIRST: u8 = 0xef;

/// The second byte of the byte order mark of UTF-8.
pub(crate) const MARK_SECOND: u8 = 0xbb;

/// The third byte of the byte order mark of UTF-8.
pub(crate) const MARK_THIRD: u8 = 0xbf;

/// How many letters a keyword keeps where it is shortened.
pub(crate) const KEYWORD_LETTERS: usize = 4;

/// The most digits of a number of a record, an area or an order.
pub(crate) const MAX_COUNT_DIGITS: usize = 10;

/// The most digits of a number that is a value.
pub(crate) const MAX_LITERAL_DIGITS: usize = 19;
