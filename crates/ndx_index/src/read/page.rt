//! One page of an index file: the number of its keys in bytes 0 to 3, and then its key records, each a
//! child page (4 bytes), a record number (4 bytes) and a key.

ghost use Rattle.std.specs.Prelude.{◌≡◌, ◌+◌, ◌*◌, ◌<◌, ◌≤◌, length};
ghost use Rattle.ndx_index.specs.declared.format.TheConstants.{PAGE as PAGE_BYTES};
ghost use Rattle.ndx_index.specs.Pages.{IsPageLayout, u32_at, child, leaf_pair};

use byteorder::{ByteOrder, LittleEndian};

/// The sizes that a file's header gives.
#[derive(Clone, Copy, Debug, PartialEq, Eq)]
pub struct PageLayout {
    /// The bytes of a key.
    pub key_len: usize,
    /// The bytes from one key record to the next.
    pub size: usize,
}

/// A leaf.
#[derive(Clone, Copy)]
pub struct LeafPage<'a> {
    /// How its key records are laid out.
    pub layout: PageLayout,
    /// Its bytes.
    pub bytes: &'a [u8],
    /// How many keys it has.
    pub count: usize,
    ghost laid_out: { IsPageLayout layout },
    ghost whole: { length bytes.now ≡ PAGE_BYTES },
    ghost fits: { 4 + layout.size * count ≤ PAGE_BYTES },
}

/// An inner page.
#[derive(Clone, Copy)]
pub struct InnerPage<'a> {
    /// How its key records are laid out.
    pub layout: PageLayout,
    /// Its bytes.
    pub bytes: &'a [u8],
    /// How many children it has.
    pub count: usize,
    ghost laid_out: { IsPageLayout layout },
    ghost whole: { length bytes.now ≡ PAGE_BYTES },
    ghost fits: { 8 + layout.size * count ≤ PAGE_BYTES + layout.size },
}

/// The number in the four bytes at an offset.
#[tactic(auto, unfolding(crate::specs::Pages::u32_at))]
pub(crate) fn u32_at(bytes: &[u8], at: usize) -> u32
    requires inside { at + 4 ≤ length bytes.now }
    ensures value { result ≡ u32_at bytes.now at }
{
    LittleEndian::read_u32(&bytes[at..])
}

impl<'a> LeafPage<'a> {
    /// The key of one of its key records, the first of which is record 0.
    pub fn key(&self, i: usize) -> &'a [u8]
        requires there { i < self.now.count }
        ensures value { result.now ≡ (leaf_pair self.now.layout self.now.bytes.now i).key }
    {
        let at = 12 + self.layout.size * i;
        &self.bytes[at..at + self.layout.key_len]
    }

    /// The record number of one of its key records, the first of which is record 0.
    pub fn number(&self, i: usize) -> u32
        requires there { i < self.now.count }
        ensures value { result ≡ (leaf_pair self.now.layout self.now.bytes.now i).number }
    {
        u32_at(self.bytes, 8 + self.layout.size * i)
    }
}

impl<'a> InnerPage<'a> {
    /// The number of one of its children, the first of which is child 0.
    pub fn child(&self, i: usize) -> u32
        requires there { i < self.now.count }
        ensures value { result ≡ child self.now.layout self.now.bytes.now i }
    {
        u32_at(self.bytes, 4 + self.layout.size * i)
    }
}
