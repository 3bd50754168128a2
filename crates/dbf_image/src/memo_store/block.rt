//! The blocks of a store of memos.

ghost use Rattle.std.specs.Prelude.{◌≡◌, ◌+◌, ◌*◌, ◌<◌, ◌≤◌, ◌^◌, length, vec_capacity, IfOk};
ghost use Rattle.dbf_image.specs.MemoChains.{IsChain, Grown, blocks_in};
ghost use Rattle.dbf_image.specs.declared.format.TheConstants.{BLOCK};

use crate::format::BLOCK;
use arrayvec::ArrayVec;
use std::alloc::{AllocError, Global};

/// A block is free, or belongs to one text.
#[derive(Debug, Drop)]
pub(crate) struct MemoBlock {
    /// The bytes of the text that this block has.
    pub(crate) piece: ArrayVec<u8, BLOCK>,
    /// The number of the text, 0 for a free block.
    pub(crate) owner: u32,
    /// How many blocks there are from here to the end of the chain, this one too.
    pub(crate) count: u32,
    /// The index of the next block.
    pub(crate) next: u32,
    /// Whether the text that begins here stays, while texts are dropped.
    pub(crate) kept: bool,
}

/// The index of the first free block, and how many there are.
#[derive(Clone, Copy, Debug)]
pub(crate) struct FreeList {
    pub(crate) head: u32,
    pub(crate) count: u32,
}

/// How many blocks a text of this length takes.
pub(crate) fn blocks_for(length: usize) -> usize
    ensures enough { length ≤ BLOCK * result }
    ensures least { BLOCK * result < length + BLOCK }
    ensures value { result ≡ blocks_in length }
{
    length.div_ceil(BLOCK)
}

/// The bytes as those of a block.
pub(crate) fn piece_of(bytes: &[u8]) -> ArrayVec<u8, BLOCK>
    requires fits { length bytes.now ≤ BLOCK }
    ensures bytes { result.items ≡ bytes.now }
{
    let mut piece = ArrayVec::new();
    let done = piece.try_extend_from_slice(bytes);
    prove!(done.is_ok());
    piece
}

/// Puts `more` free blocks after the others, and answers all free ones. It takes the room that was reserved,
/// and no memory.
pub(crate) fn push_free(blocks: &mut Vec<MemoBlock>, free: FreeList, more: usize) -> FreeList
    requires room { length blocks.old.items + more ≤ vec_capacity blocks.old }
    requires numbers { length blocks.old.items + more < 2 ^ 32 }
    requires count_bounded { free.count ≤ length blocks.old.items }
    requires chain { IsChain 0 free.count blocks.old.items free.head }
    ensures grown { Grown blocks.old.items blocks.new.items }
    ensures longer { length blocks.new.items ≡ length blocks.old.items + more }
    ensures count { result.count ≡ free.count + more }
    ensures chain { IsChain 0 result.count blocks.new.items result.head }
    ensures capacity { vec_capacity blocks.new ≡ vec_capacity blocks.old }
{
    let mut all = free;
    'push: for i in 0..more {
        let head = blocks.len() as u32;
        blocks.push_reserved(MemoBlock {
            piece: ArrayVec::new(),
            owner: 0,
            count: all.count + 1,
            next: all.head,
            kept: false,
        });
        all = FreeList {
            head,
            count: all.count + 1,
        };
    }
    all
}

/// The same blocks once more. An `Err` says that there was no memory.
pub(crate) fn copied_blocks(
    alloc: Global,
    blocks: &[MemoBlock],
) -> Result<Vec<MemoBlock>, AllocError>
    ensures value { IfOk result (λ copied. copied.items ≡ blocks.now) }
{
    let mut copied = Vec::with_capacity(alloc, blocks.len())?;
    'copy: for block in blocks {
        copied.push(MemoBlock {
            piece: piece_of(block.piece.as_slice()),
            ..*block
        })?;
    }
    Ok(copied)
}
