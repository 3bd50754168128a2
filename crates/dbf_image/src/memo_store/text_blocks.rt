//! Texts in blocks that are used again.
#![tactic(auto, using(byte_io::specs::Laws::Sinks::sinks))]

ghost use Rattle.std.specs.Prelude.{◌≡◌, ◌+◌, ◌<◌, ◌≤◌, [], length, IfOk, OnOk, Some, None, IsSome, unwrap_or, nat_eq};
ghost use Rattle.std.specs.List.{list_any};
ghost use Rattle.std.specs.FinMap as map;
ghost use Rattle.dbf_image.specs.MemoChains.{blocks_in};
ghost use Rattle.dbf_image.specs.TextBlocks.{block_total};
ghost use Rattle.byte_io.specs.Output.{Puts};
ghost use Rattle.dbf_image.specs.declared.memo_store.file_text.TheConstants.{FILE_TEXTS};

use crate::memo_store::block::{FreeList, MemoBlock, blocks_for, copied_blocks, push_free};
use crate::memo_store::chain::{fill, gather, put_pieces, text_length};
use crate::memo_store::file_text::FILE_TEXTS;
use crate::memo_store::marks::{mark, sweep};
use byte_io::{ByteSink, Bytes, SinkWriter};
use std::alloc::{AllocError, Global};
use std::marker::Model;

// How many blocks there may be: no text's number is that of a text of a file.
const MAX_BLOCKS: usize = FILE_TEXTS as usize - 1;

/// Texts under numbers. Contracts see a finite map from the numbers to the texts, and how many blocks the next
/// text may have without memory being taken.
///
/// A text stands in blocks of 512 bytes, and the blocks of a dropped text are used again. A block that once
/// held a text is taken before one that never did.
#[derive(Debug, Drop)]
pub(crate) struct TextBlocks {
    blocks: Vec<MemoBlock>,
    free: FreeList,
    // how many blocks may still be pushed without memory being taken
    ready: usize,
}

impl Model for TextBlocks {
    ghost use Rattle.dbf_image.specs.TextBlocks.{BlockTexts, coded_blocks, blocks_view, IsTextBlocks};

    ghost Value = { BlockTexts };

    ghost coded = { coded_blocks };

    ghost view = { blocks_view };

    ghost invariant = { IsTextBlocks };
}

impl TextBlocks {
    /// No text. It takes no memory.
    pub(crate) fn new(alloc: Global) -> TextBlocks
        ensures texts { result.texts ≡ map.empty }
        ensures spare { result.spare ≡ 0 }
    {
        TextBlocks {
            blocks: Vec::new(alloc),
            free: FreeList { head: 0, count: 0 },
            ready: 0,
        }
    }

    /// Makes room for one text of at most `count` blocks.
    ///
    /// An `Err` says that there was no memory, or would be more than 2,147,483,647 blocks. No text changes and
    /// no room is lost in either case.
    pub(crate) fn reserve(&mut self, count: usize) -> Result<(), AllocError>
        ensures ok { OnOk result (count ≤ self.new.spare) }
        ensures texts { self.new.texts ≡ self.old.texts }
        ensures spare { self.old.spare ≤ self.new.spare }
    {
        let missing = count.saturating_sub(self.free.count as usize);
        if missing <= self.ready {
            return Ok(());
        }
        if missing > MAX_BLOCKS - self.blocks.len() {
            return Err(AllocError);
        }
        self.blocks.reserve(missing)?;
        self.ready = missing;
        Ok(())
    }

    /// Keeps a text, and answers its number, which had no text. Every other text stays. It takes no memory, and
    /// of the spare blocks those that the text has.
    pub(crate) fn put(&mut self, text: &[u8]) -> u32
        requires some { 0 < length text.now }
        requires room { blocks_in (length text.now) ≤ self.old.spare }
        ensures positive { 0 < result }
        ensures below { result < FILE_TEXTS }
        ensures fresh { map.get self.old.texts result ≡ None }
        ensures texts { self.new.texts ≡ map.insert self.old.texts result text.now }
        ensures spare { self.new.spare + blocks_in (length text.now) ≡ self.old.spare }
    {
        let count = blocks_for(text.len());
        // A block is new only where the free ones are too few.
        let more = count.saturating_sub(self.free.count as usize);
        self.free = push_free(&mut self.blocks, self.free, more);
        self.ready -= more;
        let number = self.free.head + 1;
        self.free = fill(&mut self.blocks, self.free, number, count as u32, text);
        number
    }

    /// The text with this number, copied out.
    ///
    /// An `Err` says that there was no memory.
    pub(crate) fn text(&self, alloc: Global, number: u32) -> Result<Bytes, AllocError>
        requires held { IsSome (map.get self.now.texts number) }
        ensures value { IfOk result (λ text. map.get self.now.texts number ≡ Some text) }
    {
        let text = gather(alloc, self.blocks.as_slice(), number)?;
        Ok(Bytes::from_vec(text))
    }

    /// How many bytes the text with this number has.
    pub(crate) fn text_length(&self, number: u32) -> usize
        requires held { IsSome (map.get self.now.texts number) }
        ensures value { result ≡ length (unwrap_or (map.get self.now.texts number) []) }
    {
        text_length(self.blocks.as_slice(), number)
    }

    /// Puts the text with this number into a writer.
    pub(crate) fn put_text<S: ByteSink>(&self, number: u32, out: &mut SinkWriter<'_, S>)
        requires held { IsSome (map.get self.now.texts number) }
        ensures put { Puts out.old (unwrap_or (map.get self.now.texts number) []) out.new }
    {
        put_pieces(self.blocks.as_slice(), number, out);
    }

    /// A store of its own with the same texts under the same numbers; how much room it has is not said.
    ///
    /// An `Err` says that there was no memory.
    pub(crate) fn copy(&self, alloc: Global) -> Result<TextBlocks, AllocError>
        ensures texts { IfOk result (λ copied. copied.texts ≡ self.now.texts) }
    {
        Ok(TextBlocks {
            blocks: copied_blocks(alloc, self.blocks.as_slice())?,
            free: self.free,
            ready: 0,
        })
    }

    /// Keeps the texts with these numbers, and no other: all blocks of the dropped ones are spare. A number may stand
    /// more than once, and 0 has no text. It takes no memory.
    pub(crate) fn drop_unused(&mut self, numbers: &[u32])
        ensures texts { self.new.texts ≡ map.retain_keys self.old.texts (λ q. list_any (nat_eq q) numbers.now) }
        ensures spare { self.old.spare ≤ self.new.spare }
        ensures blocks { block_total self.new ≡ block_total self.old }
    {
        mark(&mut self.blocks, numbers);
        self.free = sweep(&mut self.blocks);
    }
}
