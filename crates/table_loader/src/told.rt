//! What is told of a text of CSV that is not loaded: each cell that is refused, with its line of the file, what it has, and what is awaited.

ghost use Rattle.std.specs.Prelude.{◌≡◌, true, length, IfOk};
ghost use Rattle.dbf_fields.specs.Field.{has_width};
ghost use Rattle.dbf_fields.specs.Schema.{IsSchema};
ghost use Rattle.table_loader.specs.Values.{is_refusal, value_of};

use crate::awaited::awaited;
use crate::fault::CsvFault;
use crate::form::{CsvForm, DateForm, Separator};
use crate::heading::Heading;
use crate::lines::{lines_of, next_line};
use crate::value::{PutFault, cell_of};
use byte_io::Bytes;
use csv::ByteRecord;
use dbf_fields::{Field, MEMO, Schema};
use dbf_image::is_memo_text;
use std::alloc::{AllocError, Global};
use table_text::append_between_quotes;

/// The most lines that are told of a text.
const MAX_TOLD: usize = 100;

/// The most bytes that are shown of a cell.
const MAX_SHOWN: usize = 40;

const CR: u8 = b'\r';

const LF: u8 = b'\n';

// The lines that are told so far, with LF between them.
#[derive(Drop)]
struct Told {
    alloc: Global,
    text: Vec<u8>,
    count: usize,
}

impl Told {
    fn new(alloc: Global) -> Told {
        Told {
            alloc,
            text: Vec::new(alloc),
            count: 0,
        }
    }

    fn into_bytes(self) -> Bytes {
        let Told {
            alloc: _,
            text,
            count: _,
        } = self;
        Bytes::from_vec(text)
    }

    // Whether no more is told.
    fn is_full(&self) -> bool {
        self.count >= MAX_TOLD
    }

    fn add(&mut self, words: &str) -> Result<(), AllocError> {
        self.text.extend_from_slice(words.as_bytes())
    }

    // Begins what is told of a line of the file.
    fn begin(&mut self, line: u64) -> Result<(), AllocError> {
        if self.count > 0 {
            self.text.push(LF)?;
        }
        self.count = self.count.saturating_add(1);
        let alloc = self.alloc;
        let words = format!(in alloc; "line {line}")?;
        self.add(words.as_str())
    }

    // Adds what a cell has, or its first bytes.
    fn add_cell(&mut self, text: &[u8]) -> Result<(), AllocError> {
        let (shown, rest) = text.split_at(text.len().min(MAX_SHOWN));
        append_between_quotes(&mut self.text, shown)?;
        if rest.is_empty() {
            return Ok(());
        }
        self.add("...")
    }

    // Tells that a line has more or fewer cells than the heading.
    fn tell_count(&mut self, line: u64, found: usize, wanted: usize) -> Result<(), AllocError> {
        self.begin(line)?;
        let cells = if found == 1 { "cell" } else { "cells" };
        let alloc = self.alloc;
        let words = format!(in alloc; ": {found} {cells}, where the heading has {wanted}")?;
        self.add(words.as_str())
    }

    // Tells that a cell is no value of a field.
    fn tell_value(
        &mut self,
        line: u64,
        field: &Field,
        text: &[u8],
        dates: DateForm,
    ) -> Result<(), AllocError> {
        self.begin(line)?;
        self.add(", ")?;
        self.text.extend_from_slice(field.name.as_slice())?;
        self.add(": ")?;
        self.add_cell(text)?;
        self.add(": ")?;
        let words = awaited(self.alloc, field, text, dates)?;
        self.add(words.as_str())
    }

    // Tells that a mark is none.
    fn tell_mark(&mut self, line: u64, text: &[u8]) -> Result<(), AllocError> {
        self.begin(line)?;
        self.add(", deleted: ")?;
        self.add_cell(text)?;
        self.add(": true or false is awaited")
    }
}

// Whether a text is no value of a field.
#[tactic(auto, unfolding(crate::specs::Values::value_of))]
fn is_refused(alloc: Global, field: &Field, text: &[u8], form: CsvForm) -> Result<bool, AllocError>
    requires width { has_width field.now ≡ true }
    ensures value { IfOk result (λ refused. refused ≡ is_refusal (value_of form field.now text.now)) }
{
    if field.kind == MEMO {
        return Ok(!is_memo_text(text));
    }
    match cell_of(alloc, field, text, form) {
        Ok(_) => Ok(false),
        Err(PutFault::Value(_)) => Ok(true),
        Err(PutFault::NoMemory) => Err(AllocError),
    }
}

fn is_mark(text: &[u8]) -> bool {
    text == b"true".as_slice() || text == b"false".as_slice() || text.is_empty()
}

// The number of the line of the file in which a line's cells begin. The reader has counted the line ends before those that stand here.
fn line_of(text: &[u8], cells: &ByteRecord) -> u64 {
    let Some(place) = cells.position() else {
        return 1;
    };
    let start = place.byte.min(text.len() as u64) as usize;
    let mut line = place.line;
    for byte in &text[start..] {
        match *byte {
            LF => line = line.saturating_add(1),
            CR => {}
            _ => return line,
        }
    }
    line
}

// Tells the refused cells of a line.
fn tell_line(
    told: &mut Told,
    fields: &[Field],
    heading: &Heading,
    form: CsvForm,
    line: u64,
    cells: &ByteRecord,
) -> Result<(), AllocError>
    requires schema { IsSchema fields.now }
    requires columns { length heading.now.of_fields ≡ length fields.now }
{
    if cells.len() != heading.count() {
        return told.tell_count(line, cells.len(), heading.count());
    }
    for (index, field) in fields.iter().enumerate() {
        let text = heading.text_for(cells, index);
        if !told.is_full() && is_refused(told.alloc, field, text, form)? {
            told.tell_value(line, field, text, form.dates)?;
        }
    }
    let mark = heading.mark_in(cells);
    if !told.is_full() && !is_mark(mark) {
        told.tell_mark(line, mark)?;
    }
    Ok(())
}

// Tells each refused cell of a text, up to so many.
fn tell_cells(
    alloc: Global,
    fields: &[Field],
    text: &[u8],
    form: CsvForm,
) -> Result<Bytes, CsvFault>
    requires schema { IsSchema fields.now }
{
    let mut told = Told::new(alloc);
    let mut reader = lines_of(alloc, text, form.separator);
    let mut cells = ByteRecord::new(alloc);
    if !next_line(&mut reader, &mut cells)? {
        return Ok(Bytes::new(alloc));
    }
    let heading = Heading::new(alloc, fields, &cells)?;
    'lines: while next_line(&mut reader, &mut cells)? {
        if told.is_full() {
            break 'lines;
        }
        let line = line_of(text, &cells);
        tell_line(&mut told, fields, &heading, form, line, &cells)?;
    }
    Ok(told.into_bytes())
}

// What may be meant by a heading of which no field has a name.
fn separator_told(form: CsvForm, name: &[u8]) -> &'static str {
    if form.separator != Separator::Semicolon && name.contains(&b';') {
        "; it may want --separator ';'"
    } else if form.separator != Separator::Tab && name.contains(&b'\t') {
        "; it may want --separator tab"
    } else if form.separator != Separator::Comma && name.contains(&b',') {
        "; it may want --separator ,"
    } else {
        ""
    }
}

// Tells a name of the heading that no field has, and the fields.
fn tell_name(
    alloc: Global,
    fields: &[Field],
    text: &[u8],
    form: CsvForm,
    column: usize,
) -> Result<Bytes, CsvFault> {
    let mut told = Told::new(alloc);
    let mut reader = lines_of(alloc, text, form.separator);
    let mut heading = ByteRecord::new(alloc);
    next_line(&mut reader, &mut heading)?;
    let name = match heading.get(column.saturating_sub(1)) {
        Some(name) => name,
        None => &[],
    };
    let words = format!(in alloc; "column {column}: no field is named ")?;
    told.add(words.as_str())?;
    told.add_cell(name)?;
    told.add(separator_told(form, name))?;
    told.add(": the fields are")?;
    for (index, field) in fields.iter().enumerate() {
        told.add(if index == 0 { " " } else { ", " })?;
        told.text.extend_from_slice(field.name.as_slice())?;
    }
    Ok(told.into_bytes())
}

/// What is told of a text of CSV that is not loaded: of a name that no field has, the fields; of cells that are refused, a line for each
/// of the first hundred. Nothing where the fault is another. An error where memory is refused.
pub(crate) fn told_of(
    alloc: Global,
    schema: &Schema,
    text: &[u8],
    form: CsvForm,
    why: CsvFault,
) -> Result<Bytes, CsvFault> {
    let fields = schema.fields();
    match why {
        CsvFault::UnknownName(column) => tell_name(alloc, fields, text, form, column),
        CsvFault::CellCount(_) => tell_cells(alloc, fields, text, form),
        CsvFault::Value(_, _, _) => tell_cells(alloc, fields, text, form),
        CsvFault::BadMark(_) => tell_cells(alloc, fields, text, form),
        _ => Ok(Bytes::new(alloc)),
    }
}
