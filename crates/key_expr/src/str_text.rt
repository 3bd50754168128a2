//! What a STR prints.

ghost use Rattle.std.specs.Prelude.{◌≡◌, ◌≤◌, ◌<◌, length, replicate};
ghost use Rattle.key_expr.specs.declared.format.TheConstants.{MAX_KEY_BYTES};
ghost use Rattle.dbf_fields.specs.declared.format.TheConstants.{MAX_NUMBER_WIDTH};
ghost use Rattle.key_expr.specs.StrText.{text_in_width, str_text as str_of_number};

use crate::key::Key;
use dbf_fields::{ASTERISK, BLANK, NumberText, read_number};

// A byte, again and again.
fn fill(byte: u8, count: usize) -> Key
    requires short { count ≤ MAX_KEY_BYTES }
    ensures value { result ≡ replicate count byte }
{
    let mut key = Key::default();
    for _ in 0..count {
        key.push(byte);
    }
    key
}

// A text after blanks that fill the width, or asterisks where it is too long.
fn fit(width: usize, text: &[u8]) -> Key
    requires short { width ≤ MAX_KEY_BYTES }
    ensures value { result ≡ text_in_width width text.now }
{
    if text.len() > width {
        return fill(ASTERISK, width);
    }
    let mut printed = fill(BLANK, width - text.len());
    for byte in text {
        printed.push(*byte);
    }
    printed
}

/// What the number of a cell with these decimals prints in `width` bytes.
pub(crate) fn str_text(width: usize, decimals: u8, cell: &[u8]) -> Key
    requires short { width ≤ MAX_KEY_BYTES }
    requires count_bounded { length cell.now ≤ MAX_NUMBER_WIDTH }
    requires decimals { decimals < MAX_NUMBER_WIDTH }
    ensures value { result ≡ str_of_number width decimals cell.now }
{
    match read_number(cell, decimals) {
        Some(number) => {
            let text = NumberText::new(number, decimals, decimals);
            fit(width, text.as_bytes())
        }
        None => fill(ASTERISK, width),
    }
}
