//! A table that is changed in place: memory is taken first, and then no change can fail.

ghost use Rattle.std.specs.Prelude.{◌≡◌, ◌≢◌, ◌<◌, ◌≤◌, ◌+◌, true, [], length, IfOk, OnOk};
ghost use Rattle.dbf_fields.specs.Field.{widths};
ghost use Rattle.dbf_fields.specs.Layout.{width_of};
ghost use Rattle.dbf_fields.specs.declared.format.TheConstants.{MEMO};
ghost use Rattle.dbf_image.specs.Table.{IsTable, is_memo_text as may_be_memo, kind_at, blank_row, row_at, cell_at, with_row, with_cell, with_mark, packed};
ghost use Rattle.dbf_image.specs.Store.{texts_of, row_with, rows_of, rows_in, IsStore};
ghost use Rattle.dbf_image.specs.Growing.{IsRecord, memo_blocks, memo_bytes};
ghost use Rattle.dbf_image.specs.MemoChains.{blocks_in};
ghost use Rattle.dbf_image.specs.declared.format.TheConstants.{MAX_RECORDS};

use crate::format::{DELETED, MAX_RECORDS};
use crate::memo_store::MemoStore;
use crate::table::TableData;
use crate::table::flag::flag_of;
use crate::table::memo::{memo_text, put_memo};
use crate::table::offsets::{cell_start, memo_count_of, memo_index, record_start};
use crate::table::packing::keep_records;
use crate::table::records::RecordBytes;
use crate::table::reserved::push_no_memos;
use crate::table::store::Store;
use byte_io::Bytes;
use dbf_fields::{BLANK, MAX_RECORD_BYTES, Schema};
use std::alloc::{AllocError, Global};
use std::marker::Model;

/// A table that is changed in place. Contracts see the table, and the room that is left for changes
/// without memory being taken.
///
/// Its records stand in one list of bytes as in a DBF file: a flag of one byte, 0x2A where the record is
/// marked as deleted, and then the cells without separators, each as wide as its field. The texts of
/// memos stand in a [`MemoStore`], and each memo is a number in it, 0 for none; what the records' list has in
/// the place of a memo's cell has no meaning. Records count from 1, as RECNO() does; fields have an index from
/// 0 in the schema's list.
#[derive(Debug, Drop)]
pub struct GrowingTable {
    schema: Schema,
    count: u32,
    records: RecordBytes,
    texts: MemoStore,
    memos: Vec<u32>,
}

impl Model for GrowingTable {
    ghost use Rattle.dbf_image.specs.Growing.{Growing};

    ghost Value = { Growing };

    ghost use Rattle.std.specs.Prelude.{◌+◌, ◌-◌, ◌&&◌, nat_le, vec_len, vec_capacity};
    ghost use Rattle.dbf_fields.specs.Field.{widths};
    ghost use Rattle.dbf_image.specs.MemoStore.{used_blocks};
    ghost use Rattle.dbf_image.specs.Store.{memo_count, texts_of, rows_of, IsStore};

    ghost view = { λ t. record {
      table = record { schema = t.schema; rows = rows_of t.schema t.count t.records.items (texts_of t.texts.texts t.memos.items) };
      record_room = nat_le (1 + widths t.schema) t.records.room && nat_le (vec_len t.memos + memo_count t.schema) (vec_capacity t.memos);
      text_room = t.texts.spare;
      blocks_in_use = used_blocks t.texts.texts;
    } };

    ghost invariant = { λ t. IsStore t.schema t.count t.records.items t.texts.texts t.memos.items };
}

impl GrowingTable {
    /// The table of `count` records that stand in a list of bytes, and of memos whose texts stand in a store.
    pub(crate) fn new(
        schema: Schema,
        count: u32,
        records: RecordBytes,
        texts: MemoStore,
        memos: Vec<u32>,
    ) -> GrowingTable
        requires store { IsStore schema count records.items texts.texts memos.items }
        ensures value { result.table ≡ record { schema = schema; rows = rows_of schema count records.items (texts_of texts.texts memos.items) } }
    {
        GrowingTable {
            schema,
            count,
            records,
            texts,
            memos,
        }
    }

    /// The fields, in the order of the descriptors and cells.
    pub fn schema(&self) -> &Schema
        ensures value { result.now ≡ self.now.table.schema }
    {
        &self.schema
    }

    /// How many records there are, at most [`MAX_RECORDS`].
    pub fn record_count(&self) -> u32
        ensures count { result ≡ length self.now.table.rows }
        ensures each { IsTable self.now.table }
    {
        // For contracts alone: the fields are those of a schema.
        let _ = self.schema.fields();
        self.count
    }

    /// What is kept of the records and the memos.
    pub(crate) fn store(&self) -> Store<'_>
        ensures rows { self.now.table.rows ≡ rows_in self.now.table.schema (length self.now.table.rows) result }
        ensures kept { IsStore self.now.table.schema (length self.now.table.rows) result.records.now result.texts.now.texts result.memos.now }
    {
        Store {
            records: self.records.as_slice(),
            texts: &self.texts,
            memos: self.memos.as_slice(),
        }
    }

    /// Whether a record is marked as deleted. Records count from 1.
    pub fn is_deleted(&self, number: u32) -> bool
        requires number { 1 ≤ number }
        requires inside { number ≤ length self.now.table.rows }
        ensures value { result ≡ (row_at self.now.table number).deleted }
    {
        let start = record_start(&self.schema, number);
        self.store().records[start] == DELETED
    }

    /// A record's cell, as many bytes as its field is wide; its field is no memo. Records count from 1, fields
    /// from 0.
    pub fn cell(&self, number: u32, field: usize) -> &[u8]
        requires number { 1 ≤ number }
        requires inside { number ≤ length self.now.table.rows }
        requires field { field < length self.now.table.schema }
        requires kind { kind_at self.now.table.schema field ≢ MEMO }
        ensures value { result.now ≡ cell_at self.now.table number field }
        ensures wide { length result.now ≡ width_of self.now.table.schema field }
    {
        let store = self.store();
        let start = cell_start(&self.schema, number, field);
        let end = start + self.schema.width(field);
        &store.records[start..end]
    }

    /// The text of a record's memo, copied out; empty where there is none. Records count from 1, fields from 0.
    ///
    /// An `Err` says that there was no memory.
    pub fn memo(&self, alloc: Global, number: u32, field: usize) -> Result<Bytes, AllocError>
        requires number { 1 ≤ number }
        requires inside { number ≤ length self.now.table.rows }
        requires field { field < length self.now.table.schema }
        requires kind { kind_at self.now.table.schema field ≡ MEMO }
        ensures value { IfOk result (λ text. text ≡ cell_at self.now.table number field) }
        ensures text { IfOk result (λ text. may_be_memo text ≡ true) }
    {
        let store = self.store();
        let index = memo_index(&self.schema, number, field);
        memo_text(alloc, store.texts, store.memos[index])
    }

    /// A record's bytes: its flag and its cells, in which the place of a memo has no meaning. Records
    /// count from 1.
    pub fn record(&self, number: u32) -> &[u8]
        requires number { 1 ≤ number }
        requires inside { number ≤ length self.now.table.rows }
        ensures value { IsRecord self.now.table.schema result.now (row_at self.now.table number) }
    {
        let start = record_start(&self.schema, number);
        let end = start + self.schema.record_length();
        &self.store().records[start..end]
    }

    /// Makes room for one more record.
    ///
    /// An `Err` says that there was no memory. The table is the same in either case.
    pub fn reserve_record(&mut self) -> Result<(), AllocError>
        ensures ok { OnOk result (self.new.record_room ≡ true) }
        ensures table { self.new.table ≡ self.old.table }
    {
        let memos = memo_count_of(self.schema.fields());
        let length = self.schema.record_length();
        self.memos.reserve(memos)?;
        self.records.reserve(length)
    }

    /// Makes room for a memo of at most `length` bytes.
    ///
    /// An `Err` says that there was no memory. The table is the same in either case, and no room is lost.
    pub fn reserve_text(&mut self, length: usize) -> Result<(), AllocError>
        ensures ok { OnOk result (length ≤ self.new.text_room) }
        ensures table { self.new.table ≡ self.old.table }
        ensures room { self.old.text_room ≤ self.new.text_room }
        ensures used { self.new.blocks_in_use ≡ self.old.blocks_in_use }
    {
        self.texts.reserve(length)
    }

    /// Adds a record after the others: its flag and its cells, as they stand in the file. A flag other
    /// than 0x2A means kept. It has no memos, whatever stands in their cells. It takes no memory.
    pub(crate) fn append_record(&mut self, bytes: &[u8])
        requires room { self.old.record_room ≡ true }
        requires count_bounded { length self.old.table.rows < MAX_RECORDS }
        requires whole { length bytes.now ≡ 1 + widths self.old.table.schema }
        ensures value { self.new.table ≡ with_row self.old.table (row_with self.old.table.schema bytes.now []) }
    {
        push_no_memos(&mut self.memos, memo_count_of(self.schema.fields()));
        self.records.extend(bytes);
        self.count += 1;
    }

    /// Adds a kept record of blanks without memos after the others. It takes no memory.
    pub fn append_blank(&mut self)
        requires room { self.old.record_room ≡ true }
        requires count_bounded { length self.old.table.rows < MAX_RECORDS }
        ensures value { self.new.table ≡ with_row self.old.table (blank_row self.old.table.schema) }
    {
        let blanks = [BLANK; 1 + MAX_RECORD_BYTES as usize];
        let size = self.schema.record_length();
        self.append_record(&blanks[..size]);
    }

    /// Replaces a record's cell by as many bytes; its field is no memo. Records count from 1, fields from
    /// 0. It takes no memory.
    pub fn set_cell(&mut self, number: u32, field: usize, cell: &[u8])
        requires number { 1 ≤ number }
        requires inside { number ≤ length self.old.table.rows }
        requires field { field < length self.old.table.schema }
        requires kind { kind_at self.old.table.schema field ≢ MEMO }
        requires wide { length cell.now ≡ width_of self.old.table.schema field }
        ensures value { self.new.table ≡ with_cell self.old.table number field cell.now }
    {
        let start = cell_start(&self.schema, number, field);
        self.records.put(start, cell);
    }

    /// Replaces the text of a record's memo. Records count from 1, fields from 0. The old text stays where it is
    /// until the table is packed, so the cost is the new text's length. It takes no memory.
    pub fn set_memo(&mut self, number: u32, field: usize, text: &[u8])
        requires number { 1 ≤ number }
        requires inside { number ≤ length self.old.table.rows }
        requires field { field < length self.old.table.schema }
        requires kind { kind_at self.old.table.schema field ≡ MEMO }
        requires text { may_be_memo text.now ≡ true }
        requires room { length text.now ≤ self.old.text_room }
        ensures value { self.new.table ≡ with_cell self.old.table number field text.now }
        ensures used { self.new.blocks_in_use ≡ self.old.blocks_in_use + blocks_in (length text.now) }
        ensures blocks { memo_bytes self.new ≡ memo_bytes self.old }
    {
        let index = memo_index(&self.schema, number, field);
        self.memos[index] = put_memo(&mut self.texts, text);
    }

    /// Marks a record as deleted, or takes its mark away. Records count from 1. It takes no memory.
    pub fn set_deleted(&mut self, number: u32, deleted: bool)
        requires number { 1 ≤ number }
        requires inside { number ≤ length self.old.table.rows }
        ensures value { self.new.table ≡ with_mark self.old.table number deleted }
    {
        let start = record_start(&self.schema, number);
        self.records.set(start, flag_of(deleted));
    }

    /// Takes out the records that are marked as deleted. The others keep their order, and the blocks of all texts that no
    /// memo of theirs has are free. It takes no memory.
    pub fn pack(&mut self)
        ensures value { self.new.table ≡ packed self.old.table }
        ensures room { self.old.text_room ≤ self.new.text_room }
        ensures blocks { memo_bytes self.new ≡ memo_bytes self.old }
        ensures used { self.new.blocks_in_use ≤ memo_blocks (packed self.old.table) }
    {
        self.count = keep_records(&self.schema, self.count, &mut self.records, &mut self.memos);
        self.texts.drop_unused(&self.memos);
    }

    /// An equal table of its own; how much room it has is not said.
    ///
    /// An `Err` says that there was no memory.
    pub(crate) fn copy(&self, alloc: Global) -> Result<GrowingTable, AllocError>
        ensures ok { IfOk result (λ copied. copied.table ≡ self.now.table) }
    {
        let records = self.records.copy(alloc)?;
        let texts = self.texts.copy(alloc)?;
        let memos = Vec::from_slice(alloc, self.memos.as_slice())?;
        Ok(GrowingTable {
            schema: self.schema.copy(alloc)?,
            count: self.count,
            records,
            texts,
            memos,
        })
    }

    /// The table as it is now, copied out.
    ///
    /// An `Err` says that there was no memory.
    pub fn content(&self, alloc: Global) -> Result<TableData, AllocError>
        ensures ok { IfOk result (λ table. table ≡ self.now.table) }
    {
        let kept = self.copy(alloc)?;
        Ok(TableData::from_growing(kept))
    }
}
