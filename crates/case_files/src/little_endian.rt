//! Numbers in files, the lowest byte first.

use std::alloc::AllocError;

/// Puts zeros after bytes, up to a length.
pub(crate) fn fill(bytes: &mut Vec<u8>, length: usize) -> Result<(), AllocError> {
    for _ in bytes.len()..length {
        bytes.push(0)?;
    }
    Ok(())
}

/// Puts zeros after bytes, up to a multiple of a number.
pub(crate) fn fill_up(bytes: &mut Vec<u8>, unit: usize) -> Result<(), AllocError> {
    let over = match bytes.len().checked_rem(unit) {
        Some(over) => over,
        None => 0,
    };
    if over == 0 {
        return Ok(());
    }
    let length = bytes.len().saturating_add(unit.saturating_sub(over));
    fill(bytes, length)
}

/// The lowest byte of a number.
pub(crate) fn low(value: usize) -> u8 {
    (value % 256) as u8
}

/// Appends the two lowest bytes of a number.
pub(crate) fn append_two(bytes: &mut Vec<u8>, value: usize) -> Result<(), AllocError> {
    bytes.extend_from_slice(&[low(value), low(value / 256)])
}

/// Appends the four lowest bytes of a number.
pub(crate) fn append_four(bytes: &mut Vec<u8>, value: usize) -> Result<(), AllocError> {
    append_two(bytes, value)?;
    append_two(bytes, value / 65_536)
}

/// Appends a text in a cell of a width, with blanks behind it, or before it.
pub(crate) fn append_cell(
    cells: &mut Vec<u8>,
    text: &[u8],
    width: usize,
    at_right: bool,
) -> Result<(), AllocError> {
    let blanks = width.saturating_sub(text.len());
    if at_right {
        append_blanks(cells, blanks)?;
        return cells.extend_from_slice(text);
    }
    cells.extend_from_slice(text)?;
    append_blanks(cells, blanks)
}

// Appends so many blanks.
fn append_blanks(cells: &mut Vec<u8>, blanks: usize) -> Result<(), AllocError> {
    for _ in 0..blanks {
        cells.push(b' ')?;
    }
    Ok(())
}
