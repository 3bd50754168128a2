//! The cell of a field that a text says.

ghost use Rattle.std.specs.Prelude.{◌≡◌, ◌≢◌, ◌≤◌, ◌-◌, true, length, None, Err, IfOk, IfErr, replicate};
ghost use Rattle.dbf_fields.specs.Field.{has_width};
ghost use Rattle.dbf_fields.specs.Number.{number};
ghost use Rattle.table_loader.specs.Values.{cell_or_fault, cell_value, date_value, number_value, text_value, truth_said, truth_value, value_of, IsPutFault};
ghost use Rattle.table_loader.specs.Values.{is_false_word as says_false, is_true_word as says_true, said_of as said_by};

use crate::date::date_digits;
use crate::fault::ValueFault;
use crate::form::{CsvForm, DateForm};
use byte_io::Bytes;
use dbf_fields::{
    BLANK, CHARACTER, CellFault, DATE, DATE_WIDTH, DateCell, Field, LOGICAL, Literal,
    MAX_NUMBER_WIDTH, MEMO, NUMBER, WholeNumber, encode_cell, read_date, read_number, trimmed,
};
use std::alloc::{AllocError, Global};
use table_text::trimmed_end;

/// Why a value is not put into a record.
pub(crate) enum PutFault {
    /// The text is no value of the field.
    Value(ValueFault),
    /// Memory was refused.
    NoMemory,
}

impl From<AllocError> for PutFault {
    ghost use Rattle.std.specs.Prelude.{◌≡◌};
    ghost use Rattle.table_loader.specs.declared.value.PutFault.TheVariants.{NoMemory};

    ghost from_gives = { λ _ fault. fault ≡ NoMemory };

    fn from(_refused: AllocError) -> PutFault {
        PutFault::NoMemory
    }
}

// Blanks, as many as the field is wide.
fn blanks(alloc: Global, width: u8) -> Result<Bytes, AllocError>
    ensures value { IfOk result (λ cell. cell ≡ replicate width BLANK) }
{
    let mut cell = Vec::new(alloc);
    cell.resize(usize::from(width), BLANK)?;
    Ok(Bytes::from_vec(cell))
}

// The cell of a text.
fn text_cell(alloc: Global, field: &Field, text: &[u8], cut: bool) -> Result<Bytes, PutFault>
    requires kind { field.now.kind ≡ CHARACTER }
    ensures value { IfOk result (λ cell. text_value cut field.now.width text.now ≡ Ok cell) }
    ensures wide { IfOk result (λ cell. length cell ≡ field.now.width) }
    ensures refused { IfErr result (λ fault. IsPutFault fault (text_value cut field.now.width text.now)) }
{
    if !cut && trimmed_end(text).len() > usize::from(field.width) {
        return Err(PutFault::Value(ValueFault::TextTooWide));
    }
    let value = Literal::Text(Bytes::from_slice(alloc, text)?);
    match encode_cell(alloc, field, &value) {
        Ok(cell) => Ok(cell),
        Err(_) => Err(PutFault::NoMemory),
    }
}

// Why a text that no cell of a field keeps is none of its values.
fn why_no_number(text: &[u8]) -> ValueFault
    requires short { length text.now ≤ MAX_NUMBER_WIDTH }
    ensures value { cell_or_fault None (number text.now (MAX_NUMBER_WIDTH - 1)) ≡ Err result }
{
    match read_number(text, MAX_NUMBER_WIDTH - 1) {
        Some(_) => ValueFault::NumberTooWide,
        None => ValueFault::TypeMismatch,
    }
}

// The cell of a number.
#[tactic(auto, unfolding(crate::specs::Values::number_value))]
fn number_cell(alloc: Global, field: &Field, text: &[u8]) -> Result<Bytes, PutFault>
    requires kind { field.now.kind ≡ NUMBER }
    requires width { has_width field.now ≡ true }
    ensures value { IfOk result (λ cell. number_value field.now text.now ≡ Ok cell) }
    ensures wide { IfOk result (λ cell. length cell ≡ field.now.width) }
    ensures refused { IfErr result (λ fault. IsPutFault fault (number_value field.now text.now)) }
{
    if text.len() > usize::from(MAX_NUMBER_WIDTH) {
        return Err(PutFault::Value(ValueFault::NumberTooWide));
    }
    let Some(number) = read_number(text, field.decimals) else {
        return Err(PutFault::Value(why_no_number(text)));
    };
    let value = Literal::Number {
        digits: WholeNumber::new(number),
        scale: field.decimals,
    };
    match encode_cell(alloc, field, &value) {
        Ok(cell) => Ok(cell),
        Err(CellFault::NoMemory) => Err(PutFault::NoMemory),
        Err(_) => Err(PutFault::Value(why_no_number(text))),
    }
}

fn is_true_word(text: &[u8]) -> bool
    ensures value { result ≡ says_true text.now }
{
    text.eq_ignore_ascii_case(b"T")
        || text.eq_ignore_ascii_case(b"Y")
        || text.eq_ignore_ascii_case(b"TRUE")
        || text.eq_ignore_ascii_case(b"YES")
}

fn is_false_word(text: &[u8]) -> bool
    ensures value { result ≡ says_false text.now }
{
    text.eq_ignore_ascii_case(b"F")
        || text.eq_ignore_ascii_case(b"N")
        || text.eq_ignore_ascii_case(b"FALSE")
        || text.eq_ignore_ascii_case(b"NO")
}

// The logical value that a text is.
fn truth_in(text: &[u8]) -> Option<bool>
    ensures value { result ≡ truth_said text.now }
{
    if is_true_word(text) {
        Some(true)
    } else if is_false_word(text) {
        Some(false)
    } else {
        None
    }
}

// The cell of a logical value.
fn truth_cell(alloc: Global, field: &Field, text: &[u8]) -> Result<Bytes, PutFault>
    requires kind { field.now.kind ≡ LOGICAL }
    ensures value { IfOk result (λ cell. truth_value field.now.width text.now ≡ Ok cell) }
    ensures wide { IfOk result (λ cell. length cell ≡ field.now.width) }
    ensures refused { IfErr result (λ fault. IsPutFault fault (truth_value field.now.width text.now)) }
{
    let Some(truth) = truth_in(text) else {
        return Err(PutFault::Value(ValueFault::TypeMismatch));
    };
    match encode_cell(alloc, field, &Literal::Truth(truth)) {
        Ok(cell) => Ok(cell),
        Err(_) => Err(PutFault::NoMemory),
    }
}

// The cell of a date.
#[tactic(auto, using(crate::proofs::DateLaws::date_wide, crate::proofs::DateLaws::blank_no_date))]
fn date_cell(alloc: Global, text: &[u8], form: DateForm) -> Result<Bytes, PutFault>
    ensures value { IfOk result (λ cell. date_value form text.now ≡ Ok cell) }
    ensures wide { IfOk result (λ cell. length cell ≡ DATE_WIDTH) }
    ensures refused { IfErr result (λ fault. IsPutFault fault (date_value form text.now)) }
{
    let Some(digits) = date_digits(form, text) else {
        return Err(PutFault::Value(ValueFault::BadDate));
    };
    match read_date(&digits) {
        DateCell::Is(_) => Ok(Bytes::from_slice(alloc, &digits)?),
        DateCell::Blank => Err(PutFault::Value(ValueFault::BadDate)),
        DateCell::Odd => Err(PutFault::Value(ValueFault::BadDate)),
    }
}

// What of a text says a value of a field.
fn said_of<'a>(field: &Field, text: &'a [u8]) -> &'a [u8]
    ensures value { result.now ≡ said_by field.now text.now }
{
    if field.kind == CHARACTER {
        return text;
    }
    let said = trimmed(text);
    if field.kind == LOGICAL && said == b"?".as_slice() {
        return &[];
    }
    said
}

// The cell of what is said.
fn cell_said(alloc: Global, field: &Field, said: &[u8], form: CsvForm) -> Result<Bytes, PutFault>
    requires kind { field.now.kind ≢ MEMO }
    requires width { has_width field.now ≡ true }
    ensures value { IfOk result (λ cell. cell_value form field.now said.now ≡ Ok cell) }
    ensures wide { IfOk result (λ cell. length cell ≡ field.now.width) }
    ensures refused { IfErr result (λ fault. IsPutFault fault (cell_value form field.now said.now)) }
{
    if said.is_empty() {
        return Ok(blanks(alloc, field.width)?);
    }
    match field.kind {
        CHARACTER => text_cell(alloc, field, said, form.cut),
        NUMBER => number_cell(alloc, field, said),
        LOGICAL => truth_cell(alloc, field, said),
        DATE => date_cell(alloc, said, form.dates),
        _ => Err(PutFault::Value(ValueFault::TypeMismatch)),
    }
}

/// The cell of a field that a text says; the field is no memo.
///
/// The faults are tested before memory is taken: `Value` says why the text is no value of the field, and `NoMemory` comes only
/// for one that is.
#[tactic(auto, unfolding(crate::specs::Values::value_of))]
pub(crate) fn cell_of(
    alloc: Global,
    field: &Field,
    text: &[u8],
    form: CsvForm,
) -> Result<Bytes, PutFault>
    requires kind { field.now.kind ≢ MEMO }
    requires width { has_width field.now ≡ true }
    ensures value { IfOk result (λ cell. value_of form field.now text.now ≡ Ok cell) }
    ensures wide { IfOk result (λ cell. length cell ≡ field.now.width) }
    ensures refused { IfErr result (λ fault. IsPutFault fault (value_of form field.now text.now)) }
{
    cell_said(alloc, field, said_of(field, text), form)
}
