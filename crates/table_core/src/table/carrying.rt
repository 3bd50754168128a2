//! Carrying out what was planned.

ghost use Rattle.std.specs.Prelude.{◌≡◌, ◌≤◌, length, vec_capacity};
ghost use Rattle.table_core.specs.Content.{with_index};
ghost use Rattle.table_core.specs.Edits.{with_value, with_deleted};
ghost use Rattle.table_core.specs.Indexes.{indexed};
ghost use Rattle.table_core.specs.Planned.{changed, cursor_after, CanAddIndex, IsMemoOf, IsPlanned, IsRecordOf, IsRoomAfter};

use crate::cursor::Cursor;
use crate::edits::changes::{add_blank, set_cell};
use crate::edits::planned::{AddedIndex, Planned, TableChange, Target};
use crate::indexes::all::add_in_list;
use crate::table::Table;

impl Table {
    /// Carries out a plan that was made for the table as it stands, and moves the cursor by it. It takes no
    /// memory, and can't fail. After PACK all blocks of memos are free but those of the memos that are left.
    pub fn carry_out(&mut self, planned: Planned, cursor: &mut Cursor)
        requires planned { IsPlanned self.old planned }
        requires order { cursor.old.order ≤ length self.old.content.indexes }
        ensures content { self.new.content ≡ changed self.old.content planned }
        ensures cursor { cursor.new ≡ cursor_after self.old.content cursor.old planned }
        ensures room { IsRoomAfter self.old planned.change self.new.room }
    {
        match planned.change {
            TableChange::AddBlank => {
                let number = add_blank(&mut self.records, &mut self.indexes);
                *cursor = cursor.at_record(number);
            }
            TableChange::SetCell { target, cell } => {
                set_cell(
                    &mut self.records,
                    &mut self.indexes,
                    target,
                    cell.as_slice(),
                );
            }
            TableChange::SetMemo { target, text } => self.set_memo(target, text.as_slice()),
            TableChange::SetMark { number, deleted } => self.set_mark(number, deleted),
            TableChange::Pack { indexes } => {
                self.records.pack();
                self.indexes = indexes;
                *cursor = self.at_top(cursor);
            }
            TableChange::AddIndex(added) => {
                self.put_index(Box::into_inner(added));
                *cursor = self.at_top(&cursor.in_order_of(self.index_count()));
            }
        }
    }

    // Puts an index after the others.
    fn put_index(&mut self, added: AddedIndex)
        requires index { CanAddIndex self.old added.index added.list.items (vec_capacity added.list) }
        ensures content { self.new.content ≡ with_index self.old.content (indexed added.index) }
    {
        add_in_list(&mut self.indexes, added.index, added.list);
    }

    // Replaces the text of a memo. No key depends on it, so the indexes follow as they are.
    fn set_memo(&mut self, target: Target, text: &[u8])
        requires memo { IsMemoOf self.old.content.table target text.now }
        requires room { length text.now ≤ self.old.room.for_text }
        ensures content { self.new.content ≡ with_value self.old.content target text.now }
    {
        self.records.set_memo(target.number, target.field, text);
    }

    // Sets the mark of a record, or takes it away. No key depends on it, so the indexes follow as they are.
    fn set_mark(&mut self, number: u32, deleted: bool)
        requires record_is { IsRecordOf self.old.content.table number }
        ensures content { self.new.content ≡ with_deleted self.old.content number deleted }
    {
        self.records.set_deleted(number, deleted);
    }
}
