//! Which texts stay: marks at their first blocks.

ghost use Rattle.std.specs.Prelude.{◌≡◌, ◌<◌, ◌^◌, length};
ghost use Rattle.dbf_image.specs.MemoChains.{is_kept};
ghost use Rattle.dbf_image.specs.MemoSteps.{Clears, Marks, Sweeps};

use crate::memo_store::block::{FreeList, MemoBlock};

// Takes all marks away.
fn clear(blocks: &mut [MemoBlock])
    ensures clears { Clears (length blocks.old) blocks.old blocks.new }
{
    'clear: for i in 0..blocks.len() {
        blocks[i].kept = false;
    }
}

/// Marks the first blocks of the texts with these numbers, and no other block.
pub(crate) fn mark(blocks: &mut [MemoBlock], numbers: &[u32])
    ensures marks { Marks blocks.old blocks.new numbers.now }
{
    clear(blocks);
    'mark: for number in numbers {
        let number = *number as usize;
        if number > 0 && number <= blocks.len() {
            blocks[number - 1].kept = true;
        }
    }
}

// Whether the text with this number is marked.
fn is_marked(blocks: &[MemoBlock], number: u32) -> bool
    ensures value { result ≡ is_kept blocks.now number }
{
    let number = number as usize;
    number > 0 && number <= blocks.len() && blocks[number - 1].kept
}

/// Makes each block free whose text isn't marked, and answers all free blocks.
pub(crate) fn sweep(blocks: &mut [MemoBlock]) -> FreeList
    requires numbers { length blocks.old < 2 ^ 32 }
    ensures sweeps { Sweeps (length blocks.old) blocks.old blocks.new result }
{
    let mut free = FreeList { head: 0, count: 0 };
    'sweep: for i in 0..blocks.len() {
        let stays = is_marked(blocks, blocks[i].owner);
        if !stays {
            let block = &mut blocks[i];
            block.owner = 0;
            block.count = free.count + 1;
            block.next = free.head;
            free = FreeList {
                head: i as u32,
                count: free.count + 1,
            };
        }
    }
    free
}
