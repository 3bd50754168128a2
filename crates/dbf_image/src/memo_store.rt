//! Texts under numbers, in the bytes of a file and in blocks that are used again.
#![tactic(auto, using(byte_io::specs::Laws::Sinks::sinks))]

ghost use Rattle.std.specs.Prelude.{◌≡◌, ◌+◌, ◌-◌, ◌<◌, ◌≤◌, [], length, take, drop, IfOk, OnOk, Some, None, IsSome, unwrap_or, nat_eq};
ghost use Rattle.std.specs.List.{list_any, AllByRecursion};
ghost use Rattle.std.specs.FinMap as map;
ghost use Rattle.dbf_image.specs.FileTexts.{file_texts, IsInFile};
ghost use Rattle.dbf_image.specs.MemoStore.{all_bytes, blocks_of_all, used_blocks};
ghost use Rattle.dbf_image.specs.Store.{texts_of};
ghost use Rattle.byte_io.specs.Output.{Puts};
ghost use Rattle.dbf_image.specs.declared.format.TheConstants.{BLOCK};
ghost use Rattle.dbf_image.specs.declared.memo_store.file_text.TheConstants.{FILE_TEXTS};

mod block;
mod chain;
pub(crate) mod file_text;
mod marks;
mod text_blocks;

use crate::memo_store::block::blocks_for;
use crate::memo_store::file_text::{
    FILE_TEXTS, FileText, blocks_of_file, bytes_at, keep_file_texts,
};
use crate::memo_store::text_blocks::TextBlocks;
use byte_io::{ByteSink, Bytes, SinkWriter};
use std::alloc::{AllocError, Global};
use std::marker::Model;

/// Texts under numbers. Contracts see a finite map from the numbers to the texts, and how many bytes the next
/// text may have without memory being taken.
///
/// A text that was read stands in the bytes of its file until it is dropped. Any other stands in blocks of 512 bytes,
/// and the blocks of a dropped text are used again: a block that once held a text is taken before one that never did.
/// For the texts in the file there is room for as many blocks as they would take, so that a dropped one is spare room too.
#[derive(Debug, Drop)]
pub struct MemoStore {
    file: Vec<u8>,
    texts: Vec<FileText>,
    blocks: TextBlocks,
    // how many blocks the texts in the file would take
    held: usize,
}

impl Model for MemoStore {
    ghost use Rattle.dbf_image.specs.MemoStore.{Memos, coded_memos};
    ghost use Rattle.dbf_image.specs.StoreView.{memos_view, IsMemoStore};

    ghost Value = { Memos };

    ghost coded = { coded_memos };

    ghost view = { memos_view };

    ghost invariant = { IsMemoStore };
}

impl MemoStore {
    /// No text. It takes no memory.
    pub fn new(alloc: Global) -> MemoStore
        ensures texts { result.texts ≡ map.empty }
        ensures spare { result.spare ≡ 0 }
    {
        MemoStore {
            file: Vec::new(alloc),
            texts: Vec::new(alloc),
            blocks: TextBlocks::new(alloc),
            held: 0,
        }
    }

    /// The texts that stand in the bytes of a file, which are kept as they are. Room for their blocks is made, and not used.
    ///
    /// An `Err` says that there was no memory, or would be more than 2,147,483,647 blocks.
    pub(crate) fn of_file(
        alloc: Global,
        file: Vec<u8>,
        texts: Vec<FileText>,
    ) -> Result<MemoStore, AllocError>
        requires few { length texts.items ≤ FILE_TEXTS }
        requires inside { AllByRecursion (IsInFile file.items) texts.items }
        ensures texts { IfOk result (λ store. store.texts ≡ file_texts file.items texts.items) }
    {
        let held = blocks_of_file(&texts);
        let mut blocks = TextBlocks::new(alloc);
        blocks.reserve(held)?;
        Ok(MemoStore {
            file,
            texts,
            blocks,
            held,
        })
    }

    /// Makes room for one text of at most `len` bytes.
    ///
    /// An `Err` says that there was no memory, or would be more than 2,147,483,647 blocks. No text changes and
    /// no room is lost in either case.
    pub fn reserve(&mut self, len: usize) -> Result<(), AllocError>
        ensures ok { OnOk result (len ≤ self.new.spare) }
        ensures texts { self.new.texts ≡ self.old.texts }
        ensures spare { self.old.spare ≤ self.new.spare }
    {
        self.blocks.reserve(blocks_for(len) + self.held)
    }

    /// Keeps a text, and answers its number, which had no text. Every other text stays. It takes no memory, and
    /// of the spare bytes those that the blocks of the text have.
    pub fn put(&mut self, text: &[u8]) -> u32
        requires some { 0 < length text.now }
        requires room { length text.now ≤ self.old.spare }
        ensures positive { 0 < result }
        ensures fresh { map.get self.old.texts result ≡ None }
        ensures texts { self.new.texts ≡ map.insert self.old.texts result text.now }
        ensures spare { self.old.spare < self.new.spare + length text.now + BLOCK }
        ensures blocks { all_bytes self.new ≡ all_bytes self.old }
    {
        self.blocks.put(text)
    }

    // The bytes of a text that stands in the file.
    fn file_text(&self, number: u32) -> &[u8]
        requires held { IsSome (map.get self.now.texts number) }
        requires high { FILE_TEXTS ≤ number }
        ensures value { map.get self.now.texts number ≡ Some result.now }
    {
        let index = (number - FILE_TEXTS) as usize;
        bytes_at(self.file.as_slice(), self.texts.as_slice(), index)
    }

    /// The text with this number, copied out.
    ///
    /// An `Err` says that there was no memory.
    pub fn text(&self, alloc: Global, number: u32) -> Result<Bytes, AllocError>
        requires held { IsSome (map.get self.now.texts number) }
        ensures value { IfOk result (λ text. map.get self.now.texts number ≡ Some text) }
    {
        if number < FILE_TEXTS {
            self.blocks.text(alloc, number)
        } else {
            Bytes::from_slice(alloc, self.file_text(number))
        }
    }

    /// How many bytes the text with this number has.
    pub(crate) fn text_length(&self, number: u32) -> usize
        requires held { IsSome (map.get self.now.texts number) }
        ensures value { result ≡ length (unwrap_or (map.get self.now.texts number) []) }
    {
        if number < FILE_TEXTS {
            self.blocks.text_length(number)
        } else {
            self.file_text(number).len()
        }
    }

    /// Puts the text with this number into a writer.
    pub(crate) fn put_text<S: ByteSink>(&self, number: u32, out: &mut SinkWriter<'_, S>)
        requires held { IsSome (map.get self.now.texts number) }
        ensures put { Puts out.old (unwrap_or (map.get self.now.texts number) []) out.new }
    {
        if number < FILE_TEXTS {
            self.blocks.put_text(number, out);
        } else {
            out.put(self.file_text(number));
        }
    }

    /// A store of its own with the same texts under the same numbers; how much room it has is not said.
    ///
    /// An `Err` says that there was no memory.
    pub(crate) fn copy(&self, alloc: Global) -> Result<MemoStore, AllocError>
        ensures texts { IfOk result (λ copied. copied.texts ≡ self.now.texts) }
    {
        let file = Vec::from_slice(alloc, self.file.as_slice())?;
        let texts = Vec::from_slice(alloc, self.texts.as_slice())?;
        let mut blocks = self.blocks.copy(alloc)?;
        blocks.reserve(self.held)?;
        Ok(MemoStore {
            file,
            texts,
            blocks,
            held: self.held,
        })
    }

    /// Keeps the texts with these numbers, and no other: all blocks of the dropped ones are spare. A number may stand
    /// more than once, and 0 has no text. It takes no memory.
    pub fn drop_unused(&mut self, numbers: &[u32])
        ensures texts { self.new.texts ≡ map.retain_keys self.old.texts (λ q. list_any (nat_eq q) numbers.now) }
        ensures spare { self.old.spare ≤ self.new.spare }
        ensures blocks { all_bytes self.new ≡ all_bytes self.old }
        ensures used { used_blocks self.new.texts ≤ blocks_of_all (texts_of self.old.texts numbers.now) }
    {
        keep_file_texts(&mut self.texts, numbers);
        self.held = blocks_of_file(&self.texts);
        self.blocks.drop_unused(numbers);
    }
}
