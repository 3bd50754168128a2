//! The limits of key expressions, and the bytes that stand between their names.

/// The longest text of a key expression, in bytes.
pub const MAX_EXPRESSION_BYTES: usize = 488;

/// The longest key, in bytes.
pub const MAX_KEY_BYTES: usize = 100;

/// The longest name of a field or of a function, in bytes.
pub(crate) const MAX_NAME_BYTES: usize = 10;

/// Lengths of keys are exact up to here, which is above the length of the key of any text.
pub(crate) const MAX_LENGTH: usize = 1_000_000;

/// How many bytes a STR prints where no length is given.
pub(crate) const STR_LENGTH: usize = 10;

/// How many bytes a DTOC prints.
pub(crate) const DTOC_LENGTH: usize = 8;

/// Joins two parts.
pub(crate) const PLUS: u8 = b'+';

/// Begins an argument, or a part in parentheses.
pub(crate) const OPEN: u8 = b'(';

/// Ends what a parenthesis began.
pub(crate) const CLOSE: u8 = b')';

/// Stands between arguments.
pub(crate) const COMMA: u8 = b',';
