//! The blocks that memos take in their file, and the cells that tell where they stand.

ghost use Rattle.std.specs.Prelude.{◌≡◌, ◌+◌, ◌*◌, ◌%◌, ◌≤◌, ◌==◌, ℕ, List, length, nat_le, if◌then◌else◌, Option, Some, None, sum_by};
ghost use Rattle.std.specs.List.{AllByRecursion};
ghost use Rattle.dbf_fields.specs.declared.format.TheConstants.{BLANK, MAX_FIELDS, MEMO_WIDTH, ZERO_DIGIT};
ghost use Rattle.dbf_image.specs.Blocks.{justified, blocks_of, block_number_cell as number_bytes, next_free};
ghost use Rattle.dbf_image.specs.Store.{text_of, IsMemo};
ghost use Rattle.dbf_image.specs.declared.format.TheConstants.{MAX_BLOCK_NUMBER, MAX_MEMO_BLOCKS, MAX_MEMO_BYTES, MAX_RECORDS};

use crate::format::{BLOCK, MAX_BLOCK_NUMBER};
use crate::table::TableData;
use crate::table::memo::memo_length;
use crate::table::store::Store;
use dbf_fields::{BLANK, MEMO_WIDTH, ZERO_DIGIT};

/// How many blocks a text of this length takes.
pub(crate) fn block_count(text_length: usize) -> u64
    requires short { text_length ≤ MAX_MEMO_BYTES }
    ensures value { (text : List ℕ) → length text ≡ text_length → result ≡ blocks_of text }
    ensures bounded { result ≤ MAX_MEMO_BLOCKS }
{
    if text_length == 0 {
        0
    } else {
        ((text_length + (BLOCK + 1)) / BLOCK) as u64
    }
}

// The last digit, or a blank for 0.
fn last_digit(number: u64) -> u8
    ensures value { result ≡ (if number == 0 then BLANK else ZERO_DIGIT + number % 10) }
{
    if number == 0 {
        BLANK
    } else {
        ZERO_DIGIT + (number % 10) as u8
    }
}

// A number at the right end of a memo's cell, with blanks before it; 0 is all blanks.
fn justified_number(number: u64) -> [u8; MEMO_WIDTH as usize]
    ensures value { result ≡ justified MEMO_WIDTH number }
{
    let mut cell = [BLANK; MEMO_WIDTH as usize];
    let mut rest = number;
    let mut at = usize::from(MEMO_WIDTH);
    while at > 0 {
        at -= 1;
        cell[at] = last_digit(rest);
        rest /= 10;
    }
    cell
}

/// The cell of a memo whose text has this length and takes the next free block: that number, or
/// blanks where there is no text.
pub(crate) fn block_number_cell(next: u64, text_length: usize) -> [u8; MEMO_WIDTH as usize]
    ensures value { (text : List ℕ) → length text ≡ text_length → result ≡ number_bytes next text }
{
    if text_length == 0 {
        justified_number(0)
    } else {
        justified_number(next)
    }
}

// The next free block after those of all texts.
fn blocks_after(store: Store<'_>) -> u64
    requires count_bounded { length store.memos.now ≤ MAX_RECORDS * MAX_FIELDS }
    requires each { AllByRecursion (IsMemo store.texts.now.texts) store.memos.now }
    ensures value { result ≡ 1 + sum_by (λ number. blocks_of (text_of store.entry.texts.now.texts number)) store.entry.memos.now }
{
    let mut next: u64 = 1;
    for number in store.memos {
        next += block_count(memo_length(store.texts, *number));
    }
    next
}

/// The next free block of the file of memos that is written of a table: one more than all blocks that its
/// texts take, since block 0 is the header. None says that it does not fit 32 bits. It takes no memory.
pub fn next_free_block(table: &TableData) -> Option<u32>
    ensures value { result ≡ (if nat_le (next_free table.now) MAX_BLOCK_NUMBER then Some (next_free table.now) else None) }
{
    // For contracts alone: how many memos there are at most.
    let _ = table.record_count();
    let next = blocks_after(table.store());
    if next <= MAX_BLOCK_NUMBER {
        Some(next as u32)
    } else {
        None
    }
}
