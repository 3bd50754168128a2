//! The records of a text of CSV after those of a table.

ghost use Rattle.std.specs.Prelude.{◌≡◌, length, Ok, IfOk, IfErr, OnOk};
ghost use Rattle.std.specs.Prelude.{◌≢◌, ◌++◌, [], ℕ, Bool, List, ℤ, Some, true};
ghost use Rattle.dbf_fields.specs.declared.day.Day.{Day as OneDay};
ghost use Rattle.dbf_fields.specs.declared.field.Field.{Field as OneField};
ghost use Rattle.dbf_fields.specs.declared.format.TheConstants.{CHARACTER, DATE, LOGICAL, NUMBER};
ghost use Rattle.dbf_fields.specs.declared.literal.Literal.TheVariants.{Text, Number, Truth, Date};
ghost use Rattle.dbf_fields.specs.Cell.{stored};
ghost use Rattle.dbf_fields.specs.Date.{SaysDay};
ghost use Rattle.dbf_fields.specs.Field.{has_width};
ghost use Rattle.dbf_fields.specs.Number.{number};
ghost use Rattle.table_loader.specs.Values.{said_of, truth_said, value_of};
ghost use Rattle.dbf_image.specs.Table.{IsTable, Table, empty_table};
ghost use Rattle.table_loader.specs.declared.form.CsvForm.{CsvForm as OneForm};
ghost use Rattle.table_loader.specs.ComingBack.{ComesBack, IsPrintedForm, whole_csv};
ghost use Rattle.table_loader.specs.Dates.{date_digits};
ghost use Rattle.table_loader.specs.CsvText.{utf8_mark, lines_left, HasNoMark, ReadsCsv};
ghost use Rattle.table_loader.specs.Loading.{csv_loaded, with_lines, IsCsvFault};

use crate::fault::CsvFault;
use crate::form::CsvForm;
use crate::heading::Heading;
use crate::lines::{lines_of, next_line};
use crate::record::{Plan, add_line};
use csv::{ByteRecord, Reader};
use dbf_image::{GrowingTable, TableData};
use std::alloc::Global;

// Adds the records of the lines that are left, the first of which is line 2.
fn add_lines(
    alloc: Global,
    table: &mut GrowingTable,
    plan: &Plan,
    reader: &mut Reader<&[u8]>,
    cells: &mut ByteRecord,
) -> Result<(), CsvFault>
    requires schema { plan.now.schema ≡ table.old.table.schema }
    requires columns { length plan.now.heading.of_fields ≡ length plan.now.schema }
    requires reads { ReadsCsv reader.old }
    ensures ok { OnOk result (with_lines plan.now.form plan.now.heading 2 table.old.table (lines_left reader.old) ≡ Ok table.new.table) }
    ensures refused { IfErr result (λ fault. IsCsvFault fault (with_lines plan.now.form plan.now.heading 2 table.old.table (lines_left reader.old))) }
{
    let first = table.record_count();
    'lines: while next_line(reader, cells)? {
        let line = table.record_count() - first + 2;
        add_line(alloc, table, plan, line, cells)?;
    }
    Ok(())
}

/// Adds a record for each line of a text of CSV after its heading to a table.
///
/// The heading names the field of each column, in any letters and any order; a field that it does not name stays blank. A column
/// `deleted`, in small letters, tells which records are marked. Of a cell: a text stands before blanks, and one that is too wide is
/// cut only where the form says so; blanks at its end don't count. A number is any text that [`dbf_fields::read_number`] reads, of at
/// most [`dbf_fields::MAX_NUMBER_WIDTH`] bytes; a logical value is one of `T`, `Y`, `TRUE`, `YES`, `F`, `N`, `FALSE` and `NO`, in any
/// letters, or `?`, which is none that is known; a date is written in the form's way. Blanks around these three don't count. A memo is the whole
/// text, a mark `true` or `false`. A cell without a text is blank, has no memo, or is no mark.
///
/// The fault is the first one: of the heading, `NoHeading`, then name by name `UnknownName` and `DoubledName`; then line by line
/// `CellCount`, `TableFull`, field by field in the schema's order `Value`, and `BadMark`. `NoMemory` says that there was no
/// memory, which may be so before any of them is seen.
pub fn load_csv(
    alloc: Global,
    table: TableData,
    text: &[u8],
    form: CsvForm,
) -> Result<TableData, CsvFault>
    ensures loaded { IfOk result (λ new. csv_loaded form table text.now ≡ Ok new) }
    ensures refused { IfErr result (λ fault. IsCsvFault fault (csv_loaded form table text.now)) }
{
    let mut reader = lines_of(alloc, text, form.separator);
    let mut cells = ByteRecord::new(alloc);
    if !next_line(&mut reader, &mut cells)? {
        return Err(CsvFault::NoHeading);
    }
    let heading = Heading::new(alloc, table.schema().fields(), &cells)?;
    let schema = table.schema().copy(alloc)?;
    let plan = Plan {
        schema,
        heading,
        form,
    };
    let mut growing = table.into_growing();
    add_lines(alloc, &mut growing, &plan, &mut reader, &mut cells)?;
    Ok(TableData::from_growing(growing))
}

/// A law: a byte order mark before a text, as spreadsheets write it, is passed over.
pub fn mark_is_passed_over()
    ensures passed { (form : OneForm) (table : Table) (text : List ℕ) → HasNoMark text → csv_loaded form table (utf8_mark ++ text) ≡ csv_loaded form table text }
{}

/// A law: what [`table_text::write_csv`] prints of a table with all its records and the column of marks, loaded into the empty table
/// of its fields, is this table again: the same fields, rows, marks and memos. It
/// is read in the form in which it is printed: commas, and dates as eight digits. The law holds of each table whose cells mean
/// something: a cell of a number is blank or as REPLACE writes one, one of a logical value is blank, `T` or `F`, and one of a date
/// is blank or a date.
pub fn printed_table_is_loaded()
    ensures same { (form : OneForm) (table : Table) → IsPrintedForm form → IsTable table → ComesBack table → csv_loaded form (empty_table table.schema) (whole_csv table) ≡ Ok table }
{}

/// A law: a cell that a text says is the one that REPLACE keeps of the value that the text is: of the text itself, the number that it
/// is read as, the logical value, or the date. A text that is not there is blank, or the blank text.
pub fn values_are_those_of_replace()
    ensures text { (form : OneForm) (f : OneField) (text cell : List ℕ) → f.kind ≡ CHARACTER → value_of form f text ≡ Ok cell → stored f (Text text) ≡ Ok cell }
    ensures number { (form : OneForm) (f : OneField) (text cell : List ℕ) → f.kind ≡ NUMBER → said_of f text ≢ [] → value_of form f text ≡ Ok cell
        → (n : ℤ) × (number text f.decimals ≡ Some n) × (stored f (Number n f.decimals) ≡ Ok cell) }
    ensures truth { (form : OneForm) (f : OneField) (text cell : List ℕ) → f.kind ≡ LOGICAL → said_of f text ≢ [] → value_of form f text ≡ Ok cell
        → (truth : Bool) × (truth_said (said_of f text) ≡ Some truth) × (stored f (Truth truth) ≡ Ok cell) }
    ensures date { (form : OneForm) (f : OneField) (text cell : List ℕ) → f.kind ≡ DATE → has_width f ≡ true → said_of f text ≢ [] → value_of form f text ≡ Ok cell
        → (day : OneDay) × (digits : List ℕ) × (date_digits form.dates (said_of f text) ≡ Some digits) × SaysDay digits day × (stored f (Date day) ≡ Ok cell) }
{}
