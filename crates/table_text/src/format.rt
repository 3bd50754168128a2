//! The bytes that texts of tables have.

/// What ends a line.
pub const LF: u8 = b'\n';

/// What may stand before it in a memo's text.
pub const CR: u8 = b'\r';

/// The last printable character of ASCII; the blank is the first.
pub const LAST_PRINTABLE: u8 = b'~';

/// What stands before the two digits of a byte that isn't printable.
pub const BACKSLASH: u8 = b'\\';

/// What stands between the backslash and the digits.
pub const HEX_MARK: u8 = b'x';

/// The digit ten to the base 16, which the others above nine follow.
pub const LETTER_A: u8 = b'a';

/// What stands between two fields of CSV.
pub const COMMA: u8 = b',';

/// What stands around a field of CSV that has a comma, a line's end or this byte, which stands twice in it.
pub const QUOTE: u8 = b'"';
