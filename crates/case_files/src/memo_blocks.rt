//! The file of memos of a table that a case describes: each memo has blocks of its own.

use crate::little_endian::{append_four, fill, fill_up};
use std::alloc::{AllocError, Global};

/// The bytes of a block.
pub(crate) const BLOCK: usize = 512;

/// Memos in their blocks, of which block 0 is the file's header.
#[derive(Drop)]
pub(crate) struct MemoBlocks {
    // The blocks from 1 on; the last memo's last block has no zeros behind it yet.
    blocks: Vec<u8>,
}

impl MemoBlocks {
    /// No memos.
    pub(crate) fn new(alloc: Global) -> MemoBlocks {
        MemoBlocks {
            blocks: Vec::new(alloc),
        }
    }

    /// Puts a memo into the next block: the text of that block's number.
    pub(crate) fn add(&mut self, alloc: Global, text: &[u8]) -> Result<Vec<u8>, AllocError> {
        fill_up(&mut self.blocks, BLOCK)?;
        let number = (self.blocks.len() / BLOCK).saturating_add(1);
        self.blocks.extend_from_slice(text)?;
        self.blocks.extend_from_slice(b"\x1a\x1a")?;
        Ok(format!(in alloc; "{number}")?.into_bytes())
    }

    /// The file: its header has the number of the next block.
    pub(crate) fn file(&self, alloc: Global) -> Result<Vec<u8>, AllocError> {
        let next = self.blocks.len().div_ceil(BLOCK).saturating_add(1);
        let mut bytes = Vec::new(alloc);
        append_four(&mut bytes, next)?;
        fill(&mut bytes, BLOCK)?;
        bytes.extend_from_slice(&self.blocks)?;
        Ok(bytes)
    }
}
