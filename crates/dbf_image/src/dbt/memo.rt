//! The texts of memos, in a file of blocks of 512 bytes.

ghost use Rattle.std.specs.Prelude.{◌≡◌, ◌+◌, ◌*◌, ◌<◌, ◌≤◌, ◌==◌, ℕ, List, length, Some, None, IfOk, IfErr, OnOk, MatchResult};
ghost use Rattle.std.specs.List.{position_or_len};
ghost use Rattle.dbf_fields.specs.Faults.{first_fault};
ghost use Rattle.dbf_fields.specs.declared.format.TheConstants.{MEMO_WIDTH};
ghost use Rattle.dbf_image.specs.Memo.{memo_number, memo_at, HasText};
ghost use Rattle.dbf_image.specs.Reading.{is_block, text_tests, IsRefusal};
ghost use Rattle.dbf_image.specs.declared.fault.ImageFault.{ImageFault};
ghost use Rattle.dbf_image.specs.Spans.{end_at, AreEnds, span_of};
ghost use Rattle.dbf_image.specs.declared.format.TheConstants.{MEMO_END};

use crate::dbt::span::Span;
use crate::fault::ImageFault;
use crate::format::{BLOCK, MAX_MEMO_BYTES, MEMO_END};
use byte_io::Bytes;
use dbf_fields::{are_digits, number_of_digits, trimmed};
use memchr::memchr;
use std::alloc::{AllocError, Global};

/// The number of the block that a memo's cell of a DBF file names: digits between blanks, as dBASE III PLUS writes them; 0,
/// or a blank cell, is no memo. `None` is a cell that has no number. Such a cell has at most
/// [`MEMO_WIDTH`](dbf_fields::MEMO_WIDTH) bytes.
#[tactic(auto, unfolding(crate::specs::Memo::memo_number))]
pub(crate) fn memo_block(cell: &[u8]) -> Option<u64>
    requires count_bounded { length cell.now ≤ MEMO_WIDTH }
    ensures value { result ≡ memo_number cell.now }
{
    let text = trimmed(cell);
    if are_digits(text) {
        Some(number_of_digits(text))
    } else {
        None
    }
}

// Where the first 0x1A stands, or how many bytes there are.
fn first_end(bytes: &[u8]) -> usize
    ensures value { result ≡ position_or_len (λ b. b == MEMO_END) bytes.now }
    ensures inside { result ≤ length bytes.now }
{
    memchr(MEMO_END, bytes).unwrap_or(bytes.len())
}

// Whether a block begins in the file, after the header's.
fn has_block(dbt: &[u8], block: u64) -> bool
    ensures value { result ≡ is_block dbt.now block }
{
    block > 0 && block <= (dbt.len().saturating_sub(1) / BLOCK) as u64
}

// Where a text ends that begins at `from`, where the end from `to` on is known.
fn end_from(dbt: &[u8], from: usize, to: usize, end: usize) -> usize
    requires order { from ≤ to }
    requires inside { to ≤ length dbt.now }
    requires known { end ≡ end_at dbt.now to }
    ensures value { result ≡ end_at dbt.now from }
{
    let (front, _) = dbt.split_at(to);
    let (_, part) = front.split_at(from);
    let offset = first_end(part);
    if offset < part.len() {
        from + offset
    } else {
        end
    }
}

/// Where the text of each block ends: each byte is looked at once, from the last block to the first.
pub(crate) fn block_ends(alloc: Global, dbt: &[u8]) -> Result<Vec<usize>, AllocError>
    ensures ends { IfOk result (λ ends. AreEnds dbt.now ends.items) }
{
    let mut ends = Vec::new(alloc);
    ends.resize(dbt.len() / BLOCK + 1, dbt.len())?;
    let mut block = ends.len();
    let mut to = dbt.len();
    let mut end = dbt.len();
    while block > 0 {
        block -= 1;
        end = end_from(dbt, BLOCK * block, to, end);
        to = BLOCK * block;
        ends[block] = end;
    }
    Ok(ends)
}

/// Where the text of a block stands, where the ends of all texts are known.
#[tactic(auto, unfolding(crate::specs::Reading::text_tests))]
pub(crate) fn span_at(dbt: &[u8], ends: &[usize], block: u64) -> Result<Span, ImageFault>
    requires ends { AreEnds dbt.now ends.now }
    ensures accepted { OnOk result (first_fault (text_tests dbt.now block) ≡ None) }
    ensures value { IfOk result (λ span. span ≡ span_of dbt.now block) }
    ensures refused { IfErr result (λ fault. first_fault (text_tests dbt.now block) ≡ Some fault) }
{
    if !has_block(dbt, block) {
        return Err(ImageFault::MemoOutside);
    }
    let start = BLOCK * block as usize;
    let length = ends[block as usize] - start;
    if length > MAX_MEMO_BYTES {
        return Err(ImageFault::MemoTooLong);
    }
    Ok(Span { start, length })
}

// The text of a block.
#[tactic(auto, unfolding(crate::specs::Reading::text_tests))]
fn block_text(dbt: &[u8], block: u64) -> Result<&[u8], ImageFault>
    ensures accepted { OnOk result (first_fault (text_tests dbt.now block) ≡ None) }
    ensures value { IfOk result (λ text. text.now ≡ memo_at dbt.now block) }
    ensures refused { IfErr result (λ fault. first_fault (text_tests dbt.now block) ≡ Some fault) }
{
    if !has_block(dbt, block) {
        return Err(ImageFault::MemoOutside);
    }
    let (_, rest) = dbt.split_at(BLOCK * block as usize);
    let (text, _) = rest.split_at(first_end(rest));
    if text.len() > MAX_MEMO_BYTES {
        return Err(ImageFault::MemoTooLong);
    }
    Ok(text)
}

// A copy of the text of a block.
fn text_of_block(alloc: Global, dbt: &[u8], block: u64) -> Result<Bytes, ImageFault>
    ensures accepted { IfOk result (λ _. first_fault (text_tests dbt.now block) ≡ None) }
    ensures value { IfOk result (λ text. text ≡ memo_at dbt.now block) }
    ensures refused { IfErr result (λ fault. IsRefusal fault (text_tests dbt.now block)) }
    ensures early { IfErr result (λ fault. (first : ImageFault) → first_fault (text_tests dbt.now block) ≡ Some first → fault ≡ first) }
{
    let text = block_text(dbt, block)?;
    let copy = Bytes::from_slice(alloc, text)?;
    Ok(copy)
}

/// Reads the text of a block from the bytes of a file of memos: from the block's head to the first 0x1A,
/// or to the file's end. Blocks have 512 bytes and count from 0; block 0 is the header.
///
/// An `Err` is the fault of the first test that fails: `MemoOutside` where the block is the header's or
/// does not begin in the file, then `MemoTooLong`; and `NoMemory` where no test fails
/// and memory is refused.
pub fn read_memo(alloc: Global, dbt: &[u8], block: u64) -> Result<Bytes, ImageFault>
    // What is read is the block's text.
    ensures found { IfOk result (HasText dbt.now block) }
    // A block that has a text is read, unless memory is refused.
    ensures only { (text : List ℕ) → HasText dbt.now block text → MatchResult result (λ t. t ≡ text) (λ fault. fault ≡ ImageFault.NoMemory) }
    // Which fault it is.
    ensures refused { IfErr result (λ fault. IsRefusal fault (text_tests dbt.now block)) }
    // `NoMemory` is answered only where no test fails.
    ensures early { IfErr result (λ fault. (first : ImageFault) → first_fault (text_tests dbt.now block) ≡ Some first → fault ≡ first) }
{
    text_of_block(alloc, dbt, block)
}
