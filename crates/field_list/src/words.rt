//! Why a text is no list of fields, in words.

ghost use Rattle.std.specs.Prelude.{◌≡◌, ◌++◌, codes, OnOk};
ghost use Rattle.std.specs.Fmt.{decimal};
ghost use Rattle.std.specs.Io.KnownBytes.{Appends};
ghost use Rattle.field_list.specs.FaultWords.{field_line_words, field_list_words, field_words as words_of_field};

use crate::fault::{FieldLineFault, FieldListFault};
use dbf_fields::SchemaFault;
use std::io;
use std::io::Write;

// Why a line says no field.
fn line_words(why: FieldLineFault) -> &'static [u8]
    ensures value { result.now ≡ field_line_words why }
{
    match why {
        FieldLineFault::NoKind => {
            b"the word after the name is none of Character, Number, Logical, Date and Memo: blanks stand between the words, as in NAME Character 30"
        }
        FieldLineFault::NoWidth =>
            b"the word after the kind is no number up to 255: a width stands there, as in BORN Date 8",
        FieldLineFault::NoDecimals =>
            b"the word after the width is no number up to 255: decimals stand there, as in DUES Number 7 2",
        FieldLineFault::WordTooMany =>
            b"it has a word too many: name, kind, width and the decimals of a Number are all",
    }
}

// Why the fields up to one are no schema.
fn field_words(why: SchemaFault) -> &'static [u8]
    ensures value { result.now ≡ words_of_field why }
{
    match why {
        SchemaFault::BadFieldCount => b"the field is one too many: a table has at most 128",
        SchemaFault::BadName =>
            b"the field's name is bad: 1 to 10 letters, digits or _, a letter first",
        SchemaFault::DuplicateName => b"the field has the name of an earlier one",
        SchemaFault::BadKind => b"the field is of no known kind",
        SchemaFault::BadWidth =>
            b"the field's width is bad: Character 1 to 254, Number 1 to 19 and more than its decimals, Logical 1, Date 8, Memo 10",
        SchemaFault::RecordTooLong => b"with the field a record is too long: at most 4,000 bytes",
        SchemaFault::NoMemory => b"out of memory",
    }
}

// Prints why the line of this number is bad.
fn print_at<W: Write>(out: &mut W, line: usize, words: &[u8]) -> io::Result<()>
    ensures text { OnOk result (Appends (W.contents out.old) (W.contents out.new) (codes "line " ++ (decimal line ++ (codes ": " ++ words.now)))) }
{
    write!(out, "line {line}: ")?;
    out.write_all(words)?;
    Ok(())
}

impl FieldListFault {
    /// Prints why a text is no list of fields. Takes no memory. An error where a write fails.
    pub fn print<W: Write>(self, out: &mut W) -> io::Result<()>
        ensures text { OnOk result (Appends (W.contents out.old) (W.contents out.new) (field_list_words self)) }
    {
        match self {
            FieldListFault::BadLine { line, why } => print_at(out, line, line_words(why)),
            FieldListFault::BadField { line, why } => print_at(out, line, field_words(why)),
            FieldListFault::NoFields => out.write_all(b"there is no field"),
            FieldListFault::NoMemory => out.write_all(b"out of memory"),
        }
    }
}
