//! Refusals.

/// Why a command is refused. The numbers are those of the answer files, 1 to 23, in this order.
#[derive(Clone, Copy, Debug, PartialEq, Eq)]
pub enum Refusal {
    /// There is no table of this name.
    NoTable = 1,
    /// No table is open in the area.
    NoTableInUse = 2,
    /// Another station has the table.
    TableInUse = 3,
    /// The table has to be open exclusively.
    NeedsExclusive = 4,
    /// The record is not locked by the station.
    NotLocked = 5,
    /// The table has no record of this number.
    OutOfRange = 6,
    /// The cursor is after the last record.
    EndOfFile = 7,
    /// The cursor is before the first record.
    BeginOfFile = 8,
    /// The order is that of the record numbers, so there is nothing to seek in.
    NotIndexed = 9,
    /// The table has no field of this name.
    NoSuchField = 10,
    /// The value is of another type than the field.
    TypeMismatch = 11,
    /// The number has more digits than the field.
    NumberTooWide = 12,
    /// The value was to be a date and is none.
    BadDate = 13,
    /// The text holds 0x1A, or is over 65,535 bytes.
    BadText = 14,
    /// There is no area of this number.
    BadArea = 15,
    /// The table is open in another area of this station.
    AlreadyOpen = 16,
    /// The table has 1,000,000,000 records.
    TableFull = 17,
    /// The table has no order of this number.
    NoSuchOrder = 18,
    /// The line is no command.
    BadCommand = 19,
    /// The list of records to be locked has more than 50 numbers.
    TooManyLocks = 20,
    /// The text is no key expression for the table's fields.
    BadExpression = 21,
    /// An index of some table has the name.
    IndexNameUsed = 22,
    /// The table has as many indexes as a table can have.
    TooManyIndexes = 23,
}

impl Refusal {
    ghost use Rattle.std.specs.Prelude.{◌≡◌};
    ghost use Rattle.table_core.specs.Refusals.{code_of, name_of};

    /// The number of the refusal in answer files, 1 to 23.
    pub fn code(self) -> u8
        ensures value { result ≡ code_of self }
    {
        self as u8
    }

    /// The name of the refusal in answer files.
    pub fn name(self) -> &'static str
        ensures value { result.now ≡ name_of self }
    {
        match self {
            Refusal::NoTable => "NoTable",
            Refusal::NoTableInUse => "NoTableInUse",
            Refusal::TableInUse => "TableInUse",
            Refusal::NeedsExclusive => "NeedsExclusive",
            Refusal::NotLocked => "NotLocked",
            Refusal::OutOfRange => "OutOfRange",
            Refusal::EndOfFile => "EndOfFile",
            Refusal::BeginOfFile => "BeginOfFile",
            Refusal::NotIndexed => "NotIndexed",
            Refusal::NoSuchField => "NoSuchField",
            Refusal::TypeMismatch => "TypeMismatch",
            Refusal::NumberTooWide => "NumberTooWide",
            Refusal::BadDate => "BadDate",
            Refusal::BadText => "BadText",
            Refusal::BadArea => "BadArea",
            Refusal::AlreadyOpen => "AlreadyOpen",
            Refusal::TableFull => "TableFull",
            Refusal::NoSuchOrder => "NoSuchOrder",
            Refusal::BadCommand => "BadCommand",
            Refusal::TooManyLocks => "TooManyLocks",
            Refusal::BadExpression => "BadExpression",
            Refusal::IndexNameUsed => "IndexNameUsed",
            Refusal::TooManyIndexes => "TooManyIndexes",
        }
    }
}
