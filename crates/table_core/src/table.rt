//! A table with its indexes.

ghost use Rattle.std.specs.Prelude.{◌≡◌, ◌<◌, ◌≤◌, length, map, Some, IfOk, IfErr, IfSome};
ghost use Rattle.std.specs.List.{AllByRecursion};
ghost use Rattle.table_core.specs.Content.{named, order_at, key_length_at, expr_at, name_at, IsReadFor, record_count};
ghost use Rattle.table_core.specs.Shown.{is_deleted, show as shown_field};
ghost use Rattle.table_core.specs.Edits.{field_named, target};
ghost use Rattle.table_core.specs.Outcomes.{IsFaultOf};
ghost use Rattle.table_core.specs.Planned.{IsTarget};
ghost use Rattle.table_core.specs.Cursors.{IsCursor};
ghost use Rattle.ndx_index.specs.Index.{HaveLength};
ghost use Rattle.ndx_index.specs.Order.{AreInOrder};
ghost use Rattle.dbf_image.specs.Table.{IsTable};

pub(crate) mod carrying;
pub(crate) mod indexing;
pub(crate) mod moving;
pub(crate) mod planning;
pub(crate) mod shown;

use crate::cursor::Cursor;
use crate::edits::planned::Target;
use crate::fault::TableFault;
use crate::indexes::TableIndex;
use crate::indexes::sort::made_all;
use crate::refusal::Refusal;
use crate::table::shown::shown;
use byte_io::Bytes;
use dbf_fields::{MEMO, Schema};
use dbf_image::{GrowingTable, TableData};
use key_expr::KeyExpr;
use ndx_index::PairList;
use std::alloc::{AllocError, Global};
use std::marker::Model;

/// A table with its indexes. Contracts see the table, the name and the expression of each index, and what has
/// room. Every value of this type has the pairs of each index in the order of the table by its expression.
#[derive(Drop)]
pub struct Table {
    records: GrowingTable,
    indexes: Vec<TableIndex>,
}

impl Model for Table {
    ghost use Rattle.std.specs.Prelude.{map};
    ghost use Rattle.std.specs.Coded.{codes};
    ghost use Rattle.key_expr.specs.ExprCode.{expr_code};
    ghost use Rattle.table_core.specs.Content.{Held};

    ghost Value = { Held };

    ghost coded = { Prim.hlevel (codes, expr_code) };

    ghost use Rattle.std.specs.List.{AllByRecursion};
    ghost use Rattle.table_core.specs.Indexes.{Follows, indexed, have_room};

    ghost view = { λ t. record {
      content = record { table = t.records.table; indexes = map indexed t.indexes.items };
      room = record {
        for_record = t.records.record_room;
        for_text = t.records.text_room;
        for_pairs = have_room t.indexes.items;
        blocks_in_use = t.records.blocks_in_use;
      };
    } };

    ghost invariant = { λ t. AllByRecursion (Follows t.records.table) t.indexes.items };
}

impl Table {
    /// The table with these indexes, each by its name and its expression, which was read for the table's
    /// fields. Each index is sorted anew.
    ///
    /// An `Err` says that there was no memory.
    pub fn new(
        alloc: Global,
        source: TableData,
        indexes: Vec<(Bytes, KeyExpr)>,
    ) -> Result<Table, AllocError>
        requires read { AllByRecursion (IsReadFor source.schema) indexes.items }
        ensures content { IfOk result (λ table. table.content ≡ record { table = source; indexes = map named indexes.items }) }
    {
        let records = source.into_growing();
        let indexes = made_all(alloc, &records, indexes)?;
        Ok(Table { records, indexes })
    }

    /// The fields of the table.
    pub fn schema(&self) -> &Schema
        ensures value { result.now ≡ self.now.content.table.schema }
    {
        self.records.schema()
    }

    /// How many records there are: RECCOUNT().
    pub fn record_count(&self) -> u32
        ensures count { result ≡ record_count self.now.content }
        ensures each { IsTable self.now.content.table }
    {
        self.records.record_count()
    }

    /// How many indexes there are.
    pub fn index_count(&self) -> usize
        ensures count { result ≡ length self.now.content.indexes }
    {
        self.indexes.len()
    }

    /// The name of the index of a number, from 1 to [`Table::index_count`].
    pub fn index_name(&self, number: usize) -> &Bytes
        requires one { 1 ≤ number }
        requires inside { number ≤ length self.now.content.indexes }
        ensures value { Some result.now ≡ name_at self.now.content number }
    {
        &self.indexes[number - 1].name
    }

    /// The key expression of the index of a number, from 1 to [`Table::index_count`]. It was read for the table's fields.
    pub fn expr(&self, number: usize) -> &KeyExpr
        requires one { 1 ≤ number }
        requires inside { number ≤ length self.now.content.indexes }
        ensures value { Some result.now ≡ expr_at self.now.content number }
        ensures fields { result.now.fields ≡ self.now.content.table.schema }
    {
        &self.indexes[number - 1].expr
    }

    /// The pairs of the index of a number, from 1 to [`Table::index_count`], in order.
    ///
    /// An `Err` says that there was no memory.
    pub fn index_pairs(&self, alloc: Global, number: usize) -> Result<PairList, AllocError>
        requires one { 1 ≤ number }
        requires inside { number ≤ length self.now.content.indexes }
        ensures key_len { IfOk result (λ list. list.key_len ≡ key_length_at self.now.content number) }
        ensures value { IfOk result (λ list. list.pairs ≡ order_at self.now.content number) }
        ensures ordered { AreInOrder (order_at self.now.content number) }
        ensures keys { HaveLength (key_length_at self.now.content number) (order_at self.now.content number) }
    {
        let index = &self.indexes[number - 1];
        index.order.pairs(alloc)
    }

    /// The table, copied out.
    ///
    /// An `Err` says that there was no memory.
    pub fn content(&self, alloc: Global) -> Result<TableData, AllocError>
        ensures value { IfOk result (λ table. table ≡ self.now.content.table) }
    {
        self.records.content(alloc)
    }

    /// Whether the record at the cursor is marked as deleted: DELETED(). At the end it is false.
    pub fn is_deleted(&self, cursor: &Cursor) -> bool
        requires cursor { IsCursor self.now.content cursor.now }
        ensures value { result ≡ is_deleted self.now.content cursor.now }
    {
        match cursor.at {
            Some(number) => self.records.is_deleted(number),
            None => false,
        }
    }

    /// The value of the field of a name, in capitals, in the record at the cursor, as `?` shows it: the cell
    /// itself for characters and numbers, `.T.` or `.F.`, a date as `MM/DD/YY`, and the text of a memo.
    ///
    /// The refusals, in order: `EndOfFile` where the cursor is at the end, and `NoSuchField`. They are tested
    /// before memory is taken, so `NoMemory` comes only where there is a value to show.
    pub fn show(&self, alloc: Global, cursor: &Cursor, field: &Bytes) -> Result<Bytes, TableFault>
        requires cursor { IsCursor self.now.content cursor.now }
        ensures shown { IfOk result (λ text. shown_field self.now.content cursor.now field.now ≡ Ok text) }
        ensures refused { IfErr result (λ fault. IsFaultOf fault (shown_field self.now.content cursor.now field.now)) }
    {
        let target = self.find_target(cursor, field)?;
        let field = &self.schema().fields()[target.field];
        if field.kind == MEMO {
            return Ok(self.records.memo(alloc, target.number, target.field)?);
        }
        let cell = self.records.cell(target.number, target.field);
        Ok(shown(alloc, field, cell)?)
    }

    // The field of a name in the record at the cursor.
    fn find_target(&self, cursor: &Cursor, name: &Bytes) -> Result<Target, Refusal>
        requires cursor { IsCursor self.now.content cursor.now }
        ensures value { result ≡ target self.now.content cursor.now name.now }
        ensures inside { IfOk result (λ t. IsTarget self.now.content.table t) }
    {
        let number = cursor.at.ok_or(Refusal::EndOfFile)?;
        let field = self.field_index(name).ok_or(Refusal::NoSuchField)?;
        Ok(Target { number, field })
    }

    // The index of the field of a name.
    fn field_index(&self, name: &Bytes) -> Option<usize>
        ensures value { result ≡ field_named self.now.content name.now }
        ensures inside { IfSome result (λ index. index < length self.now.content.table.schema) }
    {
        self.schema()
            .fields()
            .iter()
            .position(|field| field.name == *name)
    }
}
