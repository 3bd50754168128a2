//! One index of a table.

ghost use Rattle.std.specs.Prelude.{◌≡◌, ◌+◌, ◌≤◌, length, slice_get, IfOk, OnOk};
ghost use Rattle.ndx_index.specs.Order.{AreInOrder};
ghost use Rattle.ndx_index.specs.Places.{back_from};
ghost use Rattle.table_core.specs.Indexes.{AtPlacesOf, Follows, FollowsAside, FollowsBut, HasRoom, indexed, seen_index};

pub(crate) mod all;
pub(crate) mod kept;
pub(crate) mod sort;

use crate::edits::planned::Target;
use crate::indexes::sort::sorted;
use byte_io::Bytes;
use dbf_image::GrowingTable;
use key_expr::KeyExpr;
use ndx_index::{OrderedIndex, Pair};
use std::alloc::{AllocError, Global};
use table_order::pair_of;

/// An index: its name, its key expression, and the pairs of the table's records in order.
#[derive(Drop)]
pub(crate) struct TableIndex {
    pub(crate) name: Bytes,
    pub(crate) expr: KeyExpr,
    pub(crate) order: OrderedIndex,
}

impl TableIndex {
    /// An index of a table. An `Err` says that there was no memory.
    pub(crate) fn new(
        alloc: Global,
        records: &GrowingTable,
        name: Bytes,
        expr: KeyExpr,
    ) -> Result<TableIndex, AllocError>
        requires fields { expr.fields ≡ records.now.table.schema }
        ensures follows { IfOk result (λ made. Follows records.now.table made) }
        ensures same { IfOk result (λ made. indexed made ≡ record { name = name; expr = expr }) }
    {
        // For contracts alone: the expression keeps the rules on the table's fields.
        let _ = expr.text();
        let order = sorted(alloc, records, &expr)?;
        Ok(TableIndex { name, expr, order })
    }

    /// The same index with another order. An `Err` says that there was no memory.
    pub(crate) fn with_order(
        &self,
        alloc: Global,
        order: OrderedIndex,
    ) -> Result<TableIndex, AllocError>
        ensures order { IfOk result (λ made. made.order ≡ order) }
        ensures same { IfOk result (λ made. indexed made ≡ indexed self.now) }
    {
        let name = self.name.copy(alloc)?;
        let expr = self.expr.copy(alloc)?;
        Ok(TableIndex { name, expr, order })
    }

    /// Makes room for one more pair. An `Err` says that there was no memory.
    pub(crate) fn reserve(&mut self) -> Result<(), AllocError>
        ensures ok { OnOk result (HasRoom self.new) }
        ensures same { seen_index self.new ≡ seen_index self.old }
    {
        self.order.reserve()
    }

    /// Takes a record's pair out. It takes no memory.
    pub(crate) fn take_out(&mut self, records: &GrowingTable, number: u32)
        requires one { 1 ≤ number }
        requires inside { number ≤ length records.now.table.rows }
        requires follows { Follows records.now.table self.old }
        ensures rest { FollowsBut number records.now.table self.new }
        ensures same { indexed self.new ≡ indexed self.old }
        ensures room { HasRoom self.old → HasRoom self.new }
    {
        self.order.remove(pair_of(&self.expr, records, number));
    }

    /// Puts a record's pair in. It takes no memory.
    pub(crate) fn put_in(&mut self, records: &GrowingTable, number: u32)
        requires one { 1 ≤ number }
        requires inside { number ≤ length records.now.table.rows }
        requires rest { FollowsBut number records.now.table self.old }
        requires room { HasRoom self.old }
        ensures follows { Follows records.now.table self.new }
        ensures same { indexed self.new ≡ indexed self.old }
    {
        self.order.insert(pair_of(&self.expr, records, number));
    }

    /// Takes a record's pair out where the key names the field that is to change. It takes no memory.
    pub(crate) fn take_out_named(&mut self, records: &GrowingTable, target: Target)
        requires one { 1 ≤ target.number }
        requires inside { target.number ≤ length records.now.table.rows }
        requires follows { Follows records.now.table self.old }
        ensures aside { FollowsAside target records.now.table self.new }
        ensures same { indexed self.new ≡ indexed self.old }
        ensures room { HasRoom self.old → HasRoom self.new }
    {
        if self.expr.names(target.field) {
            self.take_out(records, target.number);
        }
    }

    /// Puts a record's pair in where the key names the field that changed. It takes no memory.
    pub(crate) fn put_in_named(&mut self, records: &GrowingTable, target: Target)
        requires one { 1 ≤ target.number }
        requires inside { target.number ≤ length records.now.table.rows }
        requires aside { FollowsAside target records.now.table self.old }
        requires room { HasRoom self.old }
        ensures follows { Follows records.now.table self.new }
        ensures same { indexed self.new ≡ indexed self.old }
    {
        if self.expr.names(target.field) {
            self.put_in(records, target.number);
        }
    }

    /// The pair `steps` places after one that is there.
    pub(crate) fn after(&self, pair: Pair, steps: u64) -> Option<Pair>
        requires sorted { AreInOrder self.now.order.pairs }
        ensures value { AtPlacesOf pair self.now.order.pairs (λ place. result ≡ slice_get self.now.order.pairs (place + steps)) }
    {
        let mut here = Some(pair);
        for _ in 0..steps {
            let Some(at) = here else {
                return None;
            };
            here = self.order.next(at);
        }
        here
    }

    /// The pair `steps` places before one that is there; `None` before the first.
    pub(crate) fn back(&self, pair: Pair, steps: u64) -> Option<Pair>
        requires sorted { AreInOrder self.now.order.pairs }
        ensures value { AtPlacesOf pair self.now.order.pairs (λ place. result ≡ back_from self.now.order.pairs place steps) }
    {
        let mut here = Some(pair);
        for _ in 0..steps {
            let Some(at) = here else {
                return None;
            };
            here = self.order.previous(at);
        }
        here
    }
}
