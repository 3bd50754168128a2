//! The lines of a text of CSV.

ghost use Rattle.std.specs.Prelude.{◌≡◌, true, IfOk, IfErr};
ghost use Rattle.csv.specs.Records.{fields_of};
ghost use Rattle.table_loader.specs.CsvText.{csv_lines, lines_left, separator_byte as byte_of, IsNextLine, ReadsCsv};

use crate::fault::CsvFault;
use crate::form::Separator;
use csv::{ByteRecord, Reader, ReaderBuilder};
use std::alloc::Global;

fn separator_byte(separator: Separator) -> u8
    ensures value { result ≡ byte_of separator }
{
    match separator {
        Separator::Comma => b',',
        Separator::Semicolon => b';',
        Separator::Tab => b'\t',
    }
}

/// A reader of the lines of a text.
pub(crate) fn lines_of(alloc: Global, text: &[u8], separator: Separator) -> Reader<&[u8]>
    ensures reads { ReadsCsv result }
    ensures all { lines_left result ≡ csv_lines (byte_of separator) text.now }
{
    ReaderBuilder::new()
        .delimiter(separator_byte(separator))
        .has_headers(false)
        .flexible(true)
        .from_reader(alloc, text)
}

/// Reads the next line, and says whether there was one.
///
/// An `Err` says that there was no memory; the reader reads no more lines then.
pub(crate) fn next_line(
    reader: &mut Reader<&[u8]>,
    cells: &mut ByteRecord,
) -> Result<bool, CsvFault>
    requires reads { ReadsCsv reader.old }
    ensures reads { IfOk result (λ found. found ≡ true → ReadsCsv reader.new) }
    ensures found { IfOk result (λ found. IsNextLine found (lines_left reader.old) (fields_of cells.new) (lines_left reader.new)) }
    ensures fault { IfErr result (λ fault. fault ≡ CsvFault.NoMemory) }
{
    let Ok(found) = reader.read_byte_record(cells) else {
        return Err(CsvFault::NoMemory);
    };
    Ok(found)
}
