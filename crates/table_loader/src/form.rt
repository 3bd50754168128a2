//! How a text of CSV is written.

/// What stands between the cells of a line.
#[derive(Clone, Copy, Debug, PartialEq, Eq)]
pub enum Separator {
    /// `,`
    Comma,
    /// `;`
    Semicolon,
    /// A tab.
    Tab,
}

/// How the dates of a text are written. Where marks stand between its numbers, a zero in front of a month or of a day may be left out.
#[derive(Clone, Copy, Debug, PartialEq, Eq)]
pub enum DateForm {
    /// `19870315`.
    Digits,
    /// `1987-03-15`, or `1987-3-15`.
    Iso,
    /// `03/15/1987`, or `3/15/1987`.
    American,
    /// `03/15/87`, or `3/15/87`, of the years 1900 to 1999.
    AmericanShort,
    /// `15.03.1987`, or `15.3.1987`.
    German,
}

/// How a text of CSV is written, and what of it may be lost.
#[derive(Clone, Copy, Debug, PartialEq, Eq)]
pub struct CsvForm {
    /// What stands between the cells of a line.
    pub separator: Separator,
    /// How dates are written.
    pub dates: DateForm,
    /// Whether a text that is too wide for its field is cut.
    pub cut: bool,
}
