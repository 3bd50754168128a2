//! The tokens of a key expression.

/// What a token is.
#[derive(Clone, Copy, Debug, PartialEq, Eq)]
pub enum Kind {
    /// `+`
    Plus,
    /// `(`
    Open,
    /// `)`
    Close,
    /// `,`
    Comma,
    /// The name of the function `UPPER` before a parenthesis.
    Upper,
    /// The name of the function `SUBSTR` before a parenthesis.
    Substr,
    /// The name of the function `STR` before a parenthesis.
    Str,
    /// The name of the function `DTOC` before a parenthesis.
    Dtoc,
    /// A field's name: the field's index, or the number of all fields where none has it.
    Name(usize),
    /// A number of 1 to 3 digits.
    Number(u16),
    /// The end of the text.
    End,
    /// Anything else: it stands in no expression.
    Bad,
}

/// A token and the offset of its first byte in the text, counted from 0.
#[derive(Clone, Copy, Debug, PartialEq, Eq)]
pub struct Token {
    /// What the token is.
    pub kind: Kind,
    /// The offset of its first byte; of the end, the text's length.
    pub offset: usize,
}
