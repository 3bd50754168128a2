//! Values that no line of a script says: numbers of 128 bits, and dates outside of a century.

use byte_io::Bytes;
use dbf_fields::*;
use std::alloc::{AllocError, Global};
use std::process::Abort;
use std::test::*;

#[test]
fn texts_of_numbers(rt: HostRuntime) -> Result<(), Fail> {
    // the digits, how many of them stand after the point, the decimals of the text, and the text
    let cases: [(i128, u8, u8, &[u8]); 9] = [
        (0, 0, 0, b"0"),
        (0, 0, 2, b"0.00"),
        (-5, 1, 2, b"-0.50"),
        (12345, 2, 2, b"123.45"),
        (12345, 2, 0, b"123"),
        (-12345, 4, 1, b"-1.2"),
        (7, 0, 0, b"7"),
        (i128::MAX, 0, 0, b"170141183460469231731687303715884105727"),
        (
            i128::MIN,
            18,
            18,
            b"-170141183460469231731.687303715884105728",
        ),
    ];
    for (digits, scale, decimals, text) in cases {
        assert_eq!(rt; NumberText::new(digits, scale, decimals).as_bytes(), text);
    }
    Ok(())
}

// What a field keeps of a number, as its digits and how many of them stand after the point.
fn number_cell(alloc: Global, field: &Field, digits: i128, scale: u8) -> Result<Bytes, CellFault> {
    let value = Literal::Number {
        digits: WholeNumber::new(digits),
        scale,
    };
    encode_cell(alloc, field, &value)
}

// Whether a field finds a number too wide.
fn is_too_wide(alloc: Global, field: &Field, digits: i128, scale: u8) -> bool {
    number_cell(alloc, field, digits, scale).err() == Some(CellFault::NumberTooWide)
}

// Whether a field keeps zero, however many of its digits stand after the point.
fn keeps_zero(alloc: Global, field: &Field) -> bool {
    match number_cell(alloc, field, 0, 255) {
        Ok(cell) => cell.as_slice() == b"  0.00".as_slice(),
        Err(_) => false,
    }
}

#[test]
fn numbers_of_128_bits_are_too_wide(rt: HostRuntime) -> Result<(), Fail> {
    let field = Field::new(rt.alloc(), b"AMT", NUMBER, 6, 2)?;
    for (digits, scale) in [
        (1, 255),
        (i128::MAX, 0),
        (i128::MIN, 0),
        (i128::MAX, 255),
        (i128::MIN, 39),
    ] {
        assert!(rt; is_too_wide(rt.alloc(), &field, digits, scale), "{digits}");
    }
    assert!(rt; keeps_zero(rt.alloc(), &field));
    Ok(())
}

// Whether a field keeps a date as this cell.
fn keeps_date(alloc: Global, field: &Field, date: Option<Day>, cell: &[u8]) -> bool {
    let Some(date) = date else {
        return false;
    };
    match encode_cell(alloc, field, &Literal::Date(date)) {
        Ok(kept) => kept.as_slice() == cell,
        Err(_) => false,
    }
}

#[test]
fn dates_of_all_centuries_are_kept(rt: HostRuntime) -> Result<(), Fail> {
    let field = Field::new(rt.alloc(), b"BORN", DATE, 8, 0)?;
    let days: [(Option<Day>, &[u8]); 2] = [
        (day_of(1, 1, 1), b"00010101"),
        (day_of(9999, 12, 31), b"99991231"),
    ];
    for (day, cell) in days {
        assert!(rt; keeps_date(rt.alloc(), &field, day, cell));
    }
    assert!(rt; day_of(10_000, 1, 1).is_none());
    Ok(())
}
