//! The bytes of a table's records.

ghost use Rattle.std.specs.Prelude.{◌≡◌, ◌+◌, ◌*◌, ◌<◌, ◌≤◌, ◌++◌, [], length, take, drop, slice_set, IfOk, OnOk};
ghost use Rattle.std.specs.List.{splice};
ghost use Rattle.dbf_image.specs.Packing.{Moved};

use crate::table::reserved::extend_reserved;
use byte_io::Bytes;
use std::alloc::{AllocError, Global};
use std::marker::Model;

/// The bytes of a table's records, one record after the other. Contracts see them, and how many more there may be without
/// memory being taken.
///
/// They are the end of a list of bytes. In front of them stands what they had before them in their file, which is not
/// looked at again: so they need not be moved when the file is read.
#[derive(Debug, Drop)]
pub(crate) struct RecordBytes {
    bytes: Vec<u8>,
    // where the first record begins
    start: usize,
}

impl Model for RecordBytes {
    ghost use Rattle.dbf_image.specs.RecordList.{RecordList};

    ghost Value = { RecordList };

    ghost use Rattle.std.specs.Prelude.{◌-◌, ◌≤◌, drop, vec_len, vec_capacity};

    ghost view = { λ r. record { items = drop r.start r.bytes.items; room = vec_capacity r.bytes - vec_len r.bytes } };

    ghost invariant = { λ r. r.start ≤ vec_len r.bytes };
}

impl RecordBytes {
    /// The `size` bytes that a file has from `start` on. It takes no memory.
    pub(crate) fn of_file(file: Bytes, start: usize, size: usize) -> RecordBytes
        requires inside { start + size ≤ length file }
        ensures items { result.items ≡ take size (drop start file) }
    {
        let mut bytes = file.into_vec();
        bytes.truncate(start + size);
        RecordBytes { bytes, start }
    }

    /// No bytes. It takes no memory.
    pub(crate) fn new(alloc: Global) -> RecordBytes
        ensures items { result.items ≡ [] }
    {
        RecordBytes {
            bytes: Vec::new(alloc),
            start: 0,
        }
    }

    /// All bytes.
    pub(crate) fn as_slice(&self) -> &[u8]
        ensures value { result.now ≡ self.now.items }
    {
        let (_, records) = self.bytes.as_slice().split_at(self.start);
        records
    }

    /// Makes room for so many more.
    ///
    /// An `Err` says that there was no memory. The bytes are the same in either case.
    pub(crate) fn reserve(&mut self, more: usize) -> Result<(), AllocError>
        ensures ok { OnOk result (more ≤ self.new.room) }
        ensures items { self.new.items ≡ self.old.items }
    {
        self.bytes.reserve(more)
    }

    /// Adds bytes after the others. It takes no memory.
    pub(crate) fn extend(&mut self, more: &[u8])
        requires room { length more.now ≤ self.old.room }
        ensures items { self.new.items ≡ self.old.items ++ more.now }
    {
        extend_reserved(&mut self.bytes, more);
    }

    /// Replaces the byte of an index.
    pub(crate) fn set(&mut self, index: usize, byte: u8)
        requires inside { index < length self.old.items }
        ensures items { self.new.items ≡ slice_set self.old.items index byte }
    {
        self.bytes[self.start + index] = byte;
    }

    /// Replaces the bytes from an index on by as many others.
    pub(crate) fn put(&mut self, index: usize, part: &[u8])
        requires inside { index + length part.now ≤ length self.old.items }
        ensures items { self.new.items ≡ splice self.old.items index (index + length part.now) part.now }
    {
        let start = self.start + index;
        self.bytes[start..start + part.len()].copy_from_slice(part);
    }

    /// Copies a part of `size` bytes to another place in front of it, both counted in such parts. It takes no memory.
    pub(crate) fn move_part(&mut self, size: usize, from: usize, to: usize)
        requires before { to ≤ from }
        requires inside { from * size + size ≤ length self.old.items }
        ensures moved { Moved size from to self.old.items self.new.items }
    {
        let start = self.start + from * size;
        self.bytes
            .copy_within(start..start + size, self.start + to * size);
    }

    /// Drops all bytes after the first `count`.
    pub(crate) fn truncate(&mut self, count: usize)
        requires inside { count ≤ length self.old.items }
        ensures items { self.new.items ≡ take count self.old.items }
    {
        self.bytes.truncate(self.start + count);
    }

    /// Equal bytes of their own; how many more there may be is not said.
    ///
    /// An `Err` says that there was no memory.
    pub(crate) fn copy(&self, alloc: Global) -> Result<RecordBytes, AllocError>
        ensures items { IfOk result (λ copied. copied.items ≡ self.now.items) }
    {
        Ok(RecordBytes {
            bytes: Vec::from_slice(alloc, self.as_slice())?,
            start: 0,
        })
    }
}
