//! The one sweep of all calls: each is made on a sample while one of its requests for memory after another is refused.

use super::sample::{Sample, files_of, is_kept, make_sample};
use scarce::{Attempt, refusals};
use std::alloc::{AllocError, Global};
use std::process::Abort;
use std::test::Fail;

/// Calls that take memory.
pub(super) trait Calls {
    /// Makes the call of a number, from 0, on a sample, and answers whether it ends as it is to. An error where it is refused
    /// memory.
    fn make(&self, alloc: Global, sample: &mut Sample, number: usize) -> Result<bool, AllocError>;
}

/// What a call answers that ends with a fault: with want of memory, or with another one, which none is to.
pub(super) fn refused(is_no_memory: bool) -> Result<bool, AllocError> {
    if is_no_memory {
        Err(AllocError)
    } else {
        Ok(false)
    }
}

// The most bytes that a call needs.
const ENOUGH: usize = 16_384;

// How a call ends: as it is to, or for want of memory, with the sample as it was.
fn attempt_of<C: Calls>(alloc: Global, sample: &mut Sample, calls: &C, number: usize) -> Attempt {
    match calls.make(alloc, sample, number) {
        Ok(is_right) => Attempt::right_if(is_right),
        Err(AllocError) => Attempt::refused_if(is_kept(sample)),
    }
}

// The files of the sample after a call with ample memory.
fn ample_files<C: Calls>(alloc: Global, calls: &C, number: usize) -> Result<Vec<u8>, Fail> {
    let mut sample = make_sample(alloc)?;
    if attempt_of(alloc, &mut sample, calls, number) != Attempt::Right {
        return Err("the call does not end as it is to".into());
    }
    files_of(alloc, sample)
}

// How often a call is refused memory before it ends as it is to, 0 where it doesn't, and the files of the sample then.
fn scarce_files<C: Calls>(
    alloc: Global,
    calls: &C,
    number: usize,
) -> Result<(usize, Vec<u8>), Fail> {
    let mut sample = make_sample(alloc)?;
    let found = refusals(alloc, ENOUGH, || {
        attempt_of(alloc, &mut sample, calls, number)
    })?;
    let files = files_of(alloc, sample)?;
    Ok((found.unwrap_or(0), files))
}

// How often a call is refused memory before it ends as it does where memory is ample; 0 where it doesn't.
fn swept<C: Calls>(alloc: Global, calls: &C, number: usize) -> Result<usize, Fail> {
    // First with ample memory, so that the stack has grown.
    let wanted = ample_files(alloc, calls, number)?;
    let (found, files) = scarce_files(alloc, calls, number)?;
    Ok(if files == wanted { found } else { 0 })
}

/// Makes each of so many calls with ample memory, and then with each of its requests refused in turn.
pub(super) fn assert_all<R: Abort + Print, C: Calls>(
    rt: &R,
    alloc: Global,
    calls: &C,
    count: usize,
) -> Result<(), Fail> {
    for number in 0..count {
        let found = swept(alloc, calls, number)?;
        println!(rt; "call {number}: {found}")?;
        assert!(rt; 0 < found);
    }
    Ok(())
}
