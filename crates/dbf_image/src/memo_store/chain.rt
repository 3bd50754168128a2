//! The chains of blocks in which texts are kept.
#![tactic(auto, using(byte_io::specs::Laws::Sinks::sinks))]

ghost use Rattle.std.specs.Prelude.{◌≡◌, ◌-◌, ◌<◌, ◌≤◌, length, IfOk};
ghost use Rattle.dbf_image.specs.MemoChains.{block_at, text_from, IsChain};
ghost use Rattle.dbf_image.specs.MemoSteps.{CanFill, Fills};
ghost use Rattle.byte_io.specs.Output.{Puts};

use crate::format::BLOCK;
use crate::memo_store::block::{FreeList, MemoBlock, piece_of};
use crate::table::reserved::extend_reserved;
use byte_io::{ByteSink, SinkWriter};
use std::alloc::{AllocError, Global};

/// Writes a text into the first `count` free blocks, and answers those that are left.
pub(crate) fn fill(
    blocks: &mut [MemoBlock],
    free: FreeList,
    owner: u32,
    count: u32,
    text: &[u8],
) -> FreeList
    requires room { CanFill blocks.old free owner count text.now }
    ensures fills { Fills blocks.old blocks.new free result owner count text.now }
{
    let mut rest = free;
    let mut more = text;
    let mut left = count;
    'write: while left > 0 {
        let size = more.len().min(BLOCK);
        let piece = piece_of(&more[..size]);
        let block = &mut blocks[rest.head as usize];
        block.piece = piece;
        block.owner = owner;
        block.count = left;
        rest = FreeList {
            head: block.next,
            count: rest.count - 1,
        };
        more = &more[size..];
        left -= 1;
    }
    rest
}

/// How many bytes the text with this number has.
pub(crate) fn text_length(blocks: &[MemoBlock], number: u32) -> usize
    requires positive { 0 < number }
    requires there { number ≤ length blocks.now }
    requires chain { IsChain number (block_at blocks.now (number - 1)).count blocks.now (number - 1) }
    ensures value { result ≡ length (text_from (block_at blocks.now (number - 1)).count blocks.now (number - 1)) }
{
    let mut length = 0;
    let mut at = number - 1;
    let mut left = blocks[at as usize].count;
    'lengths: while left > 0 {
        let block = &blocks[at as usize];
        length += block.piece.as_slice().len();
        at = block.next;
        left -= 1;
    }
    length
}

/// The text with this number, copied out. Room for the whole text is made first.
pub(crate) fn gather(
    alloc: Global,
    blocks: &[MemoBlock],
    number: u32,
) -> Result<Vec<u8>, AllocError>
    requires positive { 0 < number }
    requires there { number ≤ length blocks.now }
    requires chain { IsChain number (block_at blocks.now (number - 1)).count blocks.now (number - 1) }
    ensures value { IfOk result (λ text. text.items ≡ text_from (block_at blocks.now (number - 1)).count blocks.now (number - 1)) }
{
    let mut text = Vec::with_capacity(alloc, text_length(blocks, number))?;
    let mut at = number - 1;
    let mut left = blocks[at as usize].count;
    'pieces: while left > 0 {
        let block = &blocks[at as usize];
        extend_reserved(&mut text, block.piece.as_slice());
        at = block.next;
        left -= 1;
    }
    Ok(text)
}

/// Puts the text with this number into a writer, piece by piece.
pub(crate) fn put_pieces<S: ByteSink>(
    blocks: &[MemoBlock],
    number: u32,
    out: &mut SinkWriter<'_, S>,
)
    requires positive { 0 < number }
    requires there { number ≤ length blocks.now }
    requires chain { IsChain number (block_at blocks.now (number - 1)).count blocks.now (number - 1) }
    ensures put { Puts out.old (text_from (block_at blocks.now (number - 1)).count blocks.now (number - 1)) out.new }
{
    let mut at = number - 1;
    let mut left = blocks[at as usize].count;
    'put: while left > 0 {
        let block = &blocks[at as usize];
        out.put(block.piece.as_slice());
        at = block.next;
        left -= 1;
    }
}
