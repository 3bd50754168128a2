//! What is awaited of a cell that is refused, in words.

use crate::date::date_digits;
use crate::form::DateForm;
use dbf_fields::{CHARACTER, DATE, DateCell, Field, LOGICAL, NUMBER, read_date};
use std::alloc::{AllocError, Global};

// A date of a form.
fn example(form: DateForm) -> &'static str {
    match form {
        DateForm::Digits => "19870315",
        DateForm::Iso => "1987-03-15",
        DateForm::American => "03/15/1987",
        DateForm::AmericanShort => "03/15/87",
        DateForm::German => "15.03.1987",
    }
}

// Whether a text is a date of a form.
fn is_date_of(form: DateForm, text: &[u8]) -> bool {
    match date_digits(form, text) {
        Some(digits) => matches!(read_date(&digits), DateCell::Is(_)),
        None => false,
    }
}

// What is said of the form that a date has, where it is another one than the one that was named.
fn form_told(text: &[u8]) -> &'static str {
    if is_date_of(DateForm::Digits, text) {
        "; it is one of --dates YYYYMMDD"
    } else if is_date_of(DateForm::Iso, text) {
        "; it is one of --dates YYYY-MM-DD"
    } else if is_date_of(DateForm::American, text) {
        "; it is one of --dates MM/DD/YYYY"
    } else if is_date_of(DateForm::AmericanShort, text) {
        "; it is one of --dates MM/DD/YY"
    } else if is_date_of(DateForm::German, text) {
        "; it is one of --dates DD.MM.YYYY"
    } else {
        ""
    }
}

/// What a field awaits of a cell in place of this text, where dates are written in this form. An error where memory is refused.
pub(crate) fn awaited(
    alloc: Global,
    field: &Field,
    text: &[u8],
    dates: DateForm,
) -> Result<String, AllocError> {
    let width = field.width;
    match field.kind {
        CHARACTER => format!(in alloc; "at most {width} bytes are awaited, or --cut"),
        NUMBER => {
            let decimals = field.decimals;
            format!(in alloc;
                "a number of at most {width} characters with {decimals} decimals is awaited"
            )
        }
        LOGICAL => format!(in alloc; "T, F, Y, N, TRUE, FALSE, YES, NO or ? is awaited"),
        DATE => {
            let day = example(dates);
            let told = form_told(text);
            format!(in alloc; "a date of the calendar like {day} is awaited{told}")
        }
        _ => format!(in alloc; "a memo of at most 65535 bytes, with no byte 1A, is awaited"),
    }
}
