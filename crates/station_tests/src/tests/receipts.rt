//! Receipts as values: copies of them, and whether they are equal.

use byte_io::Bytes;
use catalogue_core::{Answer, Command};
use shared_catalogue::{Receipt, Receipts};
use std::alloc::{AllocError, Global};
use std::test::Fail;

// A question for a field, which is answered by a text, or by `OK` where there is none.
type Asked = (&'static [u8], Option<&'static [u8]>);

fn receipt_of(alloc: Global, asked: Asked) -> Result<Receipt, AllocError> {
    let answer = match asked.1 {
        Some(text) => Answer::Text(Bytes::from_slice(alloc, text)?),
        None => Answer::Done,
    };
    let command = Command::Show(Bytes::from_slice(alloc, asked.0)?);
    Ok(Receipt { command, answer })
}

fn receipts_of(alloc: Global, list: &[Asked]) -> Result<Receipts, AllocError> {
    let mut receipts = Receipts::new(alloc);
    for asked in list {
        receipts.push(receipt_of(alloc, *asked)?)?;
    }
    Ok(receipts)
}

const FIRST: Asked = (b"NAME", Some(b"ADA"));

const SECOND: Asked = (b"NAME", None);

const OTHER: Asked = (b"CITY", Some(b"ADA"));

// Lists of receipts that differ from one another, each in one thing.
const LISTS: [&[Asked]; 7] = [
    &[],
    &[FIRST],
    &[SECOND],
    &[OTHER],
    &[FIRST, SECOND],
    &[SECOND, FIRST],
    &[FIRST, FIRST],
];

fn copy_of(alloc: Global, list: &[Asked]) -> Result<Receipts, AllocError> {
    receipts_of(alloc, list)?.copy(alloc)
}

// Whether a copy of a list is equal to another list.
fn is_copy_equal(alloc: Global, list: &[Asked], other: &[Asked]) -> Result<bool, AllocError> {
    let copy = copy_of(alloc, list)?;
    Ok(copy == receipts_of(alloc, other)?)
}

// The first two lists that are not equal to copies of each other exactly where they are the same list, by their indexes.
fn first_unequal(
    alloc: Global,
    lists: &[&'static [Asked]],
) -> Result<Option<(usize, usize)>, AllocError> {
    for i in 0..lists.len() {
        for k in 0..lists.len() {
            if is_copy_equal(alloc, lists[i], lists[k])? != (i == k) {
                return Ok(Some((i, k)));
            }
        }
    }
    Ok(None)
}

#[test]
fn copies_of_receipts_are_equal_to_them_alone(rt: HostRuntime) -> Result<(), Fail> {
    assert_eq!(rt; first_unequal(rt.alloc(), &LISTS)?, None);
    Ok(())
}

fn copy_of_first(alloc: Global) -> Result<Receipt, AllocError> {
    receipt_of(alloc, FIRST)?.copy(alloc)
}

// Whether a copy of the first receipt is equal to another receipt.
fn is_copy_of_first_equal(alloc: Global, other: Asked) -> Result<bool, AllocError> {
    let copy = copy_of_first(alloc)?;
    Ok(copy == receipt_of(alloc, other)?)
}

#[test]
fn a_copy_of_a_receipt_is_equal_to_it(rt: HostRuntime) -> Result<(), Fail> {
    for (other, is_equal) in [(FIRST, true), (SECOND, false), (OTHER, false)] {
        assert_eq!(rt; is_copy_of_first_equal(rt.alloc(), other)?, is_equal);
    }
    Ok(())
}
