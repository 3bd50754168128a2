//! Plans of edits: their refusals, in order, and the memory that they need.

ghost use Rattle.std.specs.Prelude.{◌≡◌, ◌≤◌, true, length, IfOk, IfErr, OnOk};
ghost use Rattle.table_core.specs.declared.cursor.Cursor.{Cursor as CursorValue};
ghost use Rattle.table_core.specs.Cursors.{IsCursor};
ghost use Rattle.table_core.specs.Edits.{edited, edit_value, append_blank, replace, memo, mark, pack};
ghost use Rattle.table_core.specs.Outcomes.{IsFaultOf};
ghost use Rattle.table_core.specs.Planned.{carried_out, IsPlanned, MakesIndex};

use crate::cursor::Cursor;
use crate::edits::Edit;
use crate::edits::planned::{AddedIndex, Planned, TableChange};
use crate::fault::TableFault;
use crate::indexes::TableIndex;
use crate::indexes::all::reserve_all;
use crate::indexes::sort::packed_all;
use crate::refusal::Refusal;
use crate::table::Table;
use byte_io::Bytes;
use dbf_fields::{Literal, MEMO, encode_cell};
use dbf_image::{MAX_RECORDS, is_memo_text};
use key_expr::KeyExpr;
use std::alloc::{AllocError, Global};

impl Table {
    /// Tests an edit, and takes all memory that it needs, in the table and in each index. It changes no row,
    /// no memo and no order, whatever it answers.
    ///
    /// The refusals, each edit's in order: of AppendBlank `TableFull`; of Replace `EndOfFile`, `NoSuchField`,
    /// `TypeMismatch`, `BadDate`, `NumberTooWide`; of Memo `EndOfFile`, `NoSuchField`, `TypeMismatch`, `BadText`; of
    /// Delete and Recall `EndOfFile`; of Pack none. All of them are tested before memory is taken, so
    /// `NoMemory` comes only for an edit that is not refused.
    ///
    /// As a caller has it:
    ///
    /// ```text
    /// match table.plan(alloc, cursor, edit) {
    ///     Ok(planned) => {
    ///         table.carry_out(planned, cursor);
    ///         Ok(has_order(table, 1, numbers))
    ///     }
    ///     Err(fault) => refused(fault == TableFault::NoMemory),
    /// }
    /// ```
    pub fn plan(
        &mut self,
        alloc: Global,
        cursor: &Cursor,
        edit: Edit<'_>,
    ) -> Result<Planned, TableFault>
        requires cursor { IsCursor self.old.content cursor.now }
        ensures outcome { IfOk result (λ plan. edited self.old.content cursor.now (edit_value edit.entry) ≡ carried_out self.old.content cursor.now plan) }
        ensures planned { IfOk result (λ planned. IsPlanned self.new planned) }
        ensures refused { IfErr result (λ fault. IsFaultOf fault (edited self.old.content cursor.now (edit_value edit.entry))) }
        ensures same { self.new.content ≡ self.old.content }
    {
        match edit {
            Edit::AppendBlank => self.plan_append_blank(),
            Edit::Replace { field, value } => self.plan_replace(alloc, cursor, field, value),
            Edit::Memo { field, text } => self.plan_memo(alloc, cursor, field, text),
            Edit::Delete => self.plan_mark(cursor, true),
            Edit::Recall => self.plan_mark(cursor, false),
            Edit::Pack => Ok(self.plan_pack(alloc)?),
        }
    }

    fn plan_append_blank(&mut self) -> Result<Planned, TableFault>
        ensures outcome { IfOk result (λ planned. (cursor : CursorValue) → append_blank self.old.content cursor ≡ carried_out self.old.content cursor planned) }
        ensures planned { IfOk result (λ planned. IsPlanned self.new planned) }
        ensures refused { IfErr result (λ fault. (cursor : CursorValue) → IsFaultOf fault (append_blank self.old.content cursor)) }
        ensures same { self.new.content ≡ self.old.content }
    {
        if self.record_count() >= MAX_RECORDS {
            return Err(Refusal::TableFull.into());
        }
        self.reserve_record()?;
        self.reserve_pairs()?;
        Ok(Planned {
            change: TableChange::AddBlank,
        })
    }

    // The plan of a Replace, by the name of the field and the value.
    fn plan_replace(
        &mut self,
        alloc: Global,
        cursor: &Cursor,
        name: &Bytes,
        value: &Literal,
    ) -> Result<Planned, TableFault>
        requires cursor { IsCursor self.old.content cursor.now }
        ensures outcome { IfOk result (λ planned. replace self.old.content cursor.now name.now value.now ≡ carried_out self.old.content cursor.now planned) }
        ensures planned { IfOk result (λ planned. IsPlanned self.new planned) }
        ensures refused { IfErr result (λ fault. IsFaultOf fault (replace self.old.content cursor.now name.now value.now)) }
        ensures same { self.new.content ≡ self.old.content }
    {
        let target = self.find_target(cursor, name)?;
        let cell = encode_cell(alloc, &self.schema().fields()[target.field], value)?;
        self.reserve_pairs()?;
        Ok(Planned {
            change: TableChange::SetCell { target, cell },
        })
    }

    // The plan of a Memo, by the name of the field and the text.
    fn plan_memo(
        &mut self,
        alloc: Global,
        cursor: &Cursor,
        name: &Bytes,
        text: &Bytes,
    ) -> Result<Planned, TableFault>
        requires cursor { IsCursor self.old.content cursor.now }
        ensures outcome { IfOk result (λ planned. memo self.old.content cursor.now name.now text.now ≡ carried_out self.old.content cursor.now planned) }
        ensures planned { IfOk result (λ planned. IsPlanned self.new planned) }
        ensures refused { IfErr result (λ fault. IsFaultOf fault (memo self.old.content cursor.now name.now text.now)) }
        ensures same { self.new.content ≡ self.old.content }
    {
        let target = self.find_target(cursor, name)?;
        if self.schema().fields()[target.field].kind != MEMO {
            return Err(Refusal::TypeMismatch.into());
        }
        if !is_memo_text(text.as_slice()) {
            return Err(Refusal::BadText.into());
        }
        let text = text.copy(alloc)?;
        self.reserve_text(text.as_slice().len())?;
        Ok(Planned {
            change: TableChange::SetMemo { target, text },
        })
    }

    fn plan_mark(&mut self, cursor: &Cursor, deleted: bool) -> Result<Planned, TableFault>
        requires cursor { IsCursor self.old.content cursor.now }
        ensures outcome { IfOk result (λ planned. mark self.old.content cursor.now deleted ≡ carried_out self.old.content cursor.now planned) }
        ensures planned { IfOk result (λ planned. IsPlanned self.new planned) }
        ensures refused { IfErr result (λ fault. IsFaultOf fault (mark self.old.content cursor.now deleted)) }
        ensures same { self.new.content ≡ self.old.content }
    {
        let number = cursor.at.ok_or(Refusal::EndOfFile)?;
        Ok(Planned {
            change: TableChange::SetMark { number, deleted },
        })
    }

    // The new indexes in order. The rows are packed in place when the plan is carried out.
    fn plan_pack(&self, alloc: Global) -> Result<Planned, AllocError>
        ensures outcome { IfOk result (λ planned. (cursor : CursorValue) → pack self.now.content cursor ≡ carried_out self.now.content cursor planned) }
        ensures planned { IfOk result (λ planned. IsPlanned self.now planned) }
    {
        let indexes = packed_all(alloc, &self.indexes, &self.records)?;
        Ok(Planned {
            change: TableChange::Pack { indexes },
        })
    }

    /// Makes an index of all records after the others, by its name and its expression, which was read for the table's
    /// fields: INDEX ON. It changes nothing; carrying the plan out leads the cursor to the top in the new order.
    ///
    /// An `Err` says that there was no memory.
    pub fn plan_index(
        &self,
        alloc: Global,
        name: Bytes,
        expr: KeyExpr,
    ) -> Result<Planned, AllocError>
        requires read { expr.fields ≡ self.now.content.table.schema }
        ensures outcome { IfOk result (MakesIndex self.now.content (record { name = name; expr = expr })) }
        ensures planned { IfOk result (λ planned. IsPlanned self.now planned) }
    {
        let list = Vec::with_capacity(alloc, self.indexes.len() + 1)?;
        let index = TableIndex::new(alloc, &self.records, name, expr)?;
        let added = Box::new(alloc, AddedIndex { index, list })?;
        Ok(Planned {
            change: TableChange::AddIndex(added),
        })
    }

    // Makes room for a memo of at most the given length.
    fn reserve_text(&mut self, length: usize) -> Result<(), AllocError>
        ensures ok { OnOk result (length ≤ self.new.room.for_text) }
        ensures same { self.new.content ≡ self.old.content }
    {
        self.records.reserve_text(length)
    }

    // Makes room for one more record.
    fn reserve_record(&mut self) -> Result<(), AllocError>
        ensures ok { OnOk result (self.new.room.for_record ≡ true) }
        ensures same { self.new.content ≡ self.old.content }
    {
        self.records.reserve_record()
    }

    // Makes room for one more pair in each index.
    fn reserve_pairs(&mut self) -> Result<(), AllocError>
        ensures ok { OnOk result (self.new.room.for_pairs ≡ true) }
        ensures same { self.new.content ≡ self.old.content }
        ensures for_record { self.new.room.for_record ≡ self.old.room.for_record }
    {
        reserve_all(&mut self.indexes)
    }
}
