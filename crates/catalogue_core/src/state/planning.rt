//! Plans of edits of the current area's table.

ghost use Rattle.std.specs.Prelude.{◌≡◌, IfOk, IfErr};
ghost use Rattle.table_core.specs.Edits.{edit_value};
ghost use Rattle.table_core.specs.Outcomes.{IsFaultOf};
ghost use Rattle.table_core.specs.Planned.{IsPlanned, MakesIndex};
ghost use Rattle.catalogue_core.specs.Planned.{edited_at, carried_at};
ghost use Rattle.catalogue_core.specs.Rooms.{seen, held_at};
ghost use Rattle.catalogue_core.specs.State.{table_of, IsArea};

use crate::area::Area;
use crate::state::State;
use byte_io::Bytes;
use key_expr::KeyExpr;
use std::alloc::{AllocError, Global};
use table_core::{Edit, Planned, TableFault};

impl State {
    /// The plan of an edit of the area's table, with all memory that it needs. Whatever it answers, the state is as
    /// it was but for its room.
    pub(crate) fn plan_edit(
        &mut self,
        alloc: Global,
        area: Area,
        edit: Edit<'_>,
    ) -> Result<Planned, TableFault>
        requires area { IsArea (seen self.old).tables area }
        ensures outcome { IfOk result (λ planned. edited_at (seen self.old) area (edit_value edit.entry) ≡ carried_at (seen self.old) area planned) }
        ensures planned { IfOk result (λ planned. IsPlanned (held_at self.new.tables area.table) planned) }
        ensures refused { IfErr result (λ fault. IsFaultOf fault (edited_at (seen self.old) area (edit_value edit.entry))) }
        ensures same { seen self.new ≡ seen self.old }
    {
        self.tables[area.table as usize - 1].plan(alloc, &area.cursor, edit)
    }

    /// The plan of one more index of the area's table, with all memory that it needs. An error where memory is refused.
    pub(crate) fn plan_index(
        &self,
        alloc: Global,
        area: Area,
        name: Bytes,
        expr: KeyExpr,
    ) -> Result<Planned, AllocError>
        requires area { IsArea (seen self.now).tables area }
        requires read { expr.fields ≡ (table_of (seen self.now) area).table.schema }
        ensures outcome { IfOk result (MakesIndex (table_of (seen self.now) area) (record { name = name; expr = expr })) }
        ensures planned { IfOk result (λ planned. IsPlanned (held_at self.now.tables area.table) planned) }
    {
        self.tables[area.table as usize - 1].plan_index(alloc, name, expr)
    }
}
