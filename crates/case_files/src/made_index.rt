//! An index of one leaf that a case describes by its keys.

use crate::escapes::plain;
use crate::little_endian::{append_cell, append_four, append_two, fill, fill_up};
use crate::trouble::Trouble;
use crate::words::{count, cut_word};
use std::alloc::{AllocError, Global};

/// The bytes of a page.
const PAGE: usize = 512;

/// The bytes that a page has for its keys, with what stands before each.
const ROOM: usize = 508;

/// An index of one leaf as a case describes it.
#[derive(Drop)]
pub struct MadeIndex<'a> {
    expression: &'a [u8],
    key_length: usize,
    leaf: Vec<u8>,
    key_count: usize,
}

impl<'a> MadeIndex<'a> {
    /// An index without keys: `LENGTH EXPRESSION`.
    pub fn read(alloc: Global, text: &'a [u8]) -> Result<MadeIndex<'a>, Trouble> {
        let (length, expression) = cut_word(text);
        Ok(MadeIndex {
            expression,
            key_length: count(length)?,
            leaf: Vec::new(alloc),
            key_count: 0,
        })
    }

    /// Appends a key: `RECORD KEY`.
    pub fn add_key(&mut self, alloc: Global, text: &[u8]) -> Result<(), Trouble> {
        let (record, key) = cut_word(text);
        let key = plain(alloc, key)?.bytes;
        append_four(&mut self.leaf, 0)?;
        append_four(&mut self.leaf, count(record)?)?;
        append_cell(&mut self.leaf, &key, self.key_length, false)?;
        fill_up(&mut self.leaf, 4)?;
        self.key_count = self.key_count.saturating_add(1);
        Ok(())
    }

    // The bytes of a key with what stands before it, a multiple of 4.
    fn entry_length(&self) -> usize {
        (self.key_length.saturating_add(11) / 4).saturating_mul(4)
    }

    /// The NDX file: a header, and a leaf.
    pub fn ndx(&self, alloc: Global) -> Result<Vec<u8>, AllocError> {
        let entry = self.entry_length();
        let mut bytes = Vec::new(alloc);
        append_four(&mut bytes, 1)?;
        append_four(&mut bytes, 2)?;
        append_four(&mut bytes, 0)?;
        append_two(&mut bytes, self.key_length)?;
        append_two(&mut bytes, ROOM / entry.max(1))?;
        append_two(&mut bytes, 0)?;
        append_four(&mut bytes, entry)?;
        append_two(&mut bytes, 0)?;
        bytes.extend_from_slice(self.expression)?;
        fill(&mut bytes, PAGE)?;
        append_four(&mut bytes, self.key_count)?;
        bytes.extend_from_slice(&self.leaf)?;
        fill(&mut bytes, 2 * PAGE)?;
        Ok(bytes)
    }
}
