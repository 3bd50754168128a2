//! A table in memory.

ghost use Rattle.std.specs.Prelude.{◌≡◌, ◌≢◌, ◌<◌, ◌≤◌, ◌+◌, ◌==◌, true, not, [], length, IfOk, OnOk, OnErr};
ghost use Rattle.std.specs.List.{list_all};
ghost use Rattle.dbf_fields.specs.Field.{widths};
ghost use Rattle.dbf_fields.specs.Layout.{width_of};
ghost use Rattle.dbf_image.specs.Table.{IsTable, is_memo_text as may_be_memo, kind_at, blank_row, row_at, cell_at, empty_table, with_row, with_cell};
ghost use Rattle.dbf_image.specs.Store.{texts_of, row_with, rows_of, rows_in, IsStore};
ghost use Rattle.dbf_image.specs.declared.format.TheConstants.{MAX_RECORDS, MEMO_END};

pub(crate) mod flag;
pub(crate) mod growing;
pub(crate) mod memo;
pub(crate) mod offsets;
mod packing;
pub(crate) mod records;
pub(crate) mod reserved;
pub(crate) mod store;

use crate::format::{MAX_MEMO_BYTES, MAX_RECORDS, MEMO_END};
use crate::memo_store::MemoStore;
use crate::table::growing::GrowingTable;
use crate::table::records::RecordBytes;
use crate::table::store::Store;
use byte_io::Bytes;
use dbf_fields::{MEMO, Schema};
use std::alloc::{AllocError, Global};
use std::marker::Model;

/// Whether a memo may have the text: at most [`MAX_MEMO_BYTES`] bytes, and no 0x1A, which would end it.
pub fn is_memo_text(text: &[u8]) -> bool
    ensures value { result ≡ may_be_memo text.now }
{
    text.len() <= MAX_MEMO_BYTES && has_no_end(text)
}

// No byte is 0x1A.
fn has_no_end(text: &[u8]) -> bool
    ensures value { result ≡ list_all (λ b. not (b == MEMO_END)) text.now }
{
    text.iter().all(|byte| *byte != MEMO_END)
}

/// A table, which contracts see as its fields and its rows in order. Records count from 1, as RECNO()
/// does; fields have an index from 0 in the schema's list.
#[derive(Debug, Drop)]
pub struct TableData {
    kept: GrowingTable,
}

impl Model for TableData {
    ghost use Rattle.dbf_image.specs.Table.{Table};

    ghost Value = { Table };

    ghost view = { λ t. t.kept.table };
}

impl TableData {
    /// The table of `count` records that stand in a list of bytes, and of memos whose texts stand in a store.
    pub(crate) fn new(
        schema: Schema,
        count: u32,
        records: RecordBytes,
        texts: MemoStore,
        memos: Vec<u32>,
    ) -> TableData
        requires store { IsStore schema count records.items texts.texts memos.items }
        ensures value { result ≡ record { schema = schema; rows = rows_of schema count records.items (texts_of texts.texts memos.items) } }
    {
        TableData::from_growing(GrowingTable::new(schema, count, records, texts, memos))
    }

    /// The table that was changed in place. It takes no memory.
    pub fn from_growing(kept: GrowingTable) -> TableData
        ensures value { result ≡ kept.table }
    {
        TableData { kept }
    }

    /// The table, to be changed in place. It takes no memory.
    pub fn into_growing(self) -> GrowingTable
        ensures value { result.table ≡ self }
    {
        self.kept
    }

    /// The table of these fields that has no records. It takes no memory.
    pub fn empty(alloc: Global, schema: Schema) -> TableData
        ensures value { result ≡ empty_table schema }
    {
        TableData::new(
            schema,
            0,
            RecordBytes::new(alloc),
            MemoStore::new(alloc),
            Vec::new(alloc),
        )
    }

    /// The fields, in the order of the descriptors and cells.
    pub fn schema(&self) -> &Schema
        ensures value { result.now ≡ self.now.schema }
    {
        self.kept.schema()
    }

    /// How many records there are, at most [`MAX_RECORDS`].
    pub fn record_count(&self) -> u32
        ensures count { result ≡ length self.now.rows }
        ensures each { IsTable self.now }
    {
        self.kept.record_count()
    }

    /// What is kept of the records and the memos.
    pub(crate) fn store(&self) -> Store<'_>
        ensures rows { self.now.rows ≡ rows_in self.now.schema (length self.now.rows) result }
        ensures kept { IsStore self.now.schema (length self.now.rows) result.records.now result.texts.now.texts result.memos.now }
    {
        self.kept.store()
    }

    /// Whether a record is marked as deleted. Records count from 1.
    pub fn is_deleted(&self, number: u32) -> bool
        requires number { 1 ≤ number }
        requires inside { number ≤ length self.now.rows }
        ensures value { result ≡ (row_at self.now number).deleted }
    {
        self.kept.is_deleted(number)
    }

    /// A record's cell, as many bytes as its field is wide; its field is no memo. Records count from 1, fields
    /// from 0.
    pub fn cell(&self, number: u32, field: usize) -> &[u8]
        requires number { 1 ≤ number }
        requires inside { number ≤ length self.now.rows }
        requires field { field < length self.now.schema }
        requires kind { kind_at self.now.schema field ≢ MEMO }
        ensures value { result.now ≡ cell_at self.now number field }
        ensures wide { length result.now ≡ width_of self.now.schema field }
    {
        self.kept.cell(number, field)
    }

    /// The text of a record's memo, copied out; empty where there is none. Records count from 1, fields from 0.
    ///
    /// An `Err` says that there was no memory.
    pub fn memo(&self, alloc: Global, number: u32, field: usize) -> Result<Bytes, AllocError>
        requires number { 1 ≤ number }
        requires inside { number ≤ length self.now.rows }
        requires field { field < length self.now.schema }
        requires kind { kind_at self.now.schema field ≡ MEMO }
        ensures value { IfOk result (λ text. text ≡ cell_at self.now number field) }
        ensures text { IfOk result (λ text. may_be_memo text ≡ true) }
    {
        self.kept.memo(alloc, number, field)
    }

    /// An equal table of its own.
    ///
    /// An `Err` says that there was no memory.
    pub fn copy(&self, alloc: Global) -> Result<TableData, AllocError>
        ensures ok { IfOk result (λ table. table ≡ self.now) }
    {
        self.kept.content(alloc)
    }

    /// Adds a record after the others: its flag and its cells, as they stand in the file. A flag other
    /// than 0x2A means kept. It has no memos, whatever stands in their cells.
    ///
    /// An `Err` says that there was no memory. It changes nothing.
    pub fn append_record(&mut self, bytes: &[u8]) -> Result<(), AllocError>
        requires room { length self.old.rows < MAX_RECORDS }
        requires whole { length bytes.now ≡ 1 + widths self.old.schema }
        ensures ok { OnOk result (self.new ≡ with_row self.old (row_with self.old.schema bytes.now [])) }
        ensures err { OnErr result (self.new ≡ self.old) }
    {
        self.kept.reserve_record()?;
        self.kept.append_record(bytes);
        Ok(())
    }

    /// Adds a kept record of blanks without memos after the others.
    ///
    /// An `Err` says that there was no memory. It changes nothing.
    pub fn append_blank(&mut self) -> Result<(), AllocError>
        requires room { length self.old.rows < MAX_RECORDS }
        ensures ok { OnOk result (self.new ≡ with_row self.old (blank_row self.old.schema)) }
        ensures err { OnErr result (self.new ≡ self.old) }
    {
        self.kept.reserve_record()?;
        self.kept.append_blank();
        Ok(())
    }

    /// Replaces a record's cell by as many bytes; its field is no memo. Records count from 1, fields from
    /// 0. It takes no memory.
    pub fn set_cell(&mut self, number: u32, field: usize, cell: &[u8])
        requires number { 1 ≤ number }
        requires inside { number ≤ length self.old.rows }
        requires field { field < length self.old.schema }
        requires kind { kind_at self.old.schema field ≢ MEMO }
        requires wide { length cell.now ≡ width_of self.old.schema field }
        ensures value { self.new ≡ with_cell self.old number field cell.now }
    {
        self.kept.set_cell(number, field, cell);
    }

    /// Replaces the text of a record's memo. Records count from 1, fields from 0. The old text stays where it is
    /// until the table is packed, so the cost is the new text's length.
    ///
    /// An `Err` says that there was no memory. It changes nothing.
    pub fn set_memo(&mut self, number: u32, field: usize, text: &[u8]) -> Result<(), AllocError>
        requires number { 1 ≤ number }
        requires inside { number ≤ length self.old.rows }
        requires field { field < length self.old.schema }
        requires kind { kind_at self.old.schema field ≡ MEMO }
        requires text { may_be_memo text.now ≡ true }
        ensures ok { OnOk result (self.new ≡ with_cell self.old number field text.now) }
        ensures err { OnErr result (self.new ≡ self.old) }
    {
        self.kept.reserve_text(text.len())?;
        self.kept.set_memo(number, field, text);
        Ok(())
    }
}
