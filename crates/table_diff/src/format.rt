//! The bytes that a line of changes has, beside the texts of fields and values.

/// What ends a line.
pub(crate) const LF: u8 = b'\n';

/// What may stand before it in a memo's text.
pub(crate) const CR: u8 = b'\r';

/// The last printable character of ASCII; the blank stands before the first.
pub(crate) const LAST_PRINTABLE: u8 = b'~';

/// What stands around a text that is no word.
pub(crate) const QUOTE: u8 = b'"';

/// What stands before a quote in such a text.
pub(crate) const BACKSLASH: u8 = b'\\';

/// What stands between two values of a record.
pub(crate) const COMMA: u8 = b',';
