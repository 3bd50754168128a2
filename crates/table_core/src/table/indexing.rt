//! Indexes that are added to a table.

ghost use Rattle.std.specs.Prelude.{◌≡◌, ◌↔◌, bytes_eq, [], map, IfOk, IfErr, IsTrue, IsPermutation, OnErr, OnOk};
ghost use Rattle.std.specs.List.{list_any, AllByRecursion};
ghost use Rattle.table_order.specs.TableOrder.{pairs_of};
ghost use Rattle.table_core.specs.Parts.{handed, handed_of, FitsTable};
ghost use Rattle.table_core.specs.Content.{has_index, with_index, with_index_if};

use crate::indexes::TableIndex;
use crate::parts::{IndexParts, all_parts};
use crate::table::Table;
use byte_io::Bytes;
use dbf_image::TableData;
use key_expr::KeyExpr;
use ndx_index::PairList;
use std::alloc::{AllocError, Global};

impl Table {
    /// The table without indexes. It takes no memory.
    pub fn without_indexes(alloc: Global, source: TableData) -> Table
        ensures content { result.content ≡ record { table = source; indexes = [] } }
    {
        Table {
            records: source.into_growing(),
            indexes: Vec::new(alloc),
        }
    }

    /// The table's fields and rows, without the indexes. It takes no memory.
    pub fn into_data(self) -> TableData
        ensures value { result ≡ self.content.table }
    {
        TableData::from_growing(self.records)
    }

    /// The table's fields and rows, and its indexes in order. The pairs of an index are copied out, and it is let go before
    /// those of the next are copied. An `Err` says that there was no memory.
    pub fn into_parts(self, alloc: Global) -> Result<(TableData, Vec<IndexParts>), AllocError>
        ensures data { IfOk result (λ parts. parts.0 ≡ self.content.table) }
        ensures indexes { IfOk result (λ parts. map handed parts.1.items ≡ map (handed_of self.content.table) self.content.indexes) }
        ensures fits { IfOk result (λ parts. AllByRecursion (FitsTable self.content.table) parts.1.items) }
    {
        let Table { records, indexes } = self;
        let parts = all_parts(alloc, &records, indexes)?;
        Ok((TableData::from_growing(records), parts))
    }

    /// Whether one of the indexes has the name.
    pub fn has_index(&self, name: &Bytes) -> bool
        ensures value { result ≡ has_index self.now.content name.now }
    {
        any_has_name(&self.indexes, name)
    }

    /// Adds an index after the others, by its name and its expression, which was read for the table's fields. The
    /// pairs of all records are sorted for it.
    ///
    /// An `Err` says that there was no memory. It changes nothing.
    pub fn add_index(&mut self, alloc: Global, name: Bytes, expr: KeyExpr) -> Result<(), AllocError>
        requires read { expr.fields ≡ self.old.content.table.schema }
        ensures added { OnOk result (self.new.content ≡ with_index self.old.content (record { name = name; expr = expr })) }
        ensures err { OnErr result (self.new.content ≡ self.old.content) }
    {
        let index = TableIndex::new(alloc, &self.records, name, expr)?;
        self.indexes.push(index)?;
        Ok(())
    }

    /// Adds an index after the others, made of the pairs that an index file has, in any order, and answers whether
    /// it is added: it is where these are the pairs of the table's records, each as often. Else nothing changes.
    /// The pairs are compared with the records in one pass; nothing is sorted or built beside them to compare with.
    /// Where they stand in no order, the index is made of the records then.
    ///
    /// An `Err` says that there was no memory for the pairs, which are the table's. It changes nothing.
    pub fn add_kept_index(
        &mut self,
        alloc: Global,
        name: Bytes,
        expr: KeyExpr,
        pairs: PairList,
    ) -> Result<bool, AllocError>
        requires read { expr.fields ≡ self.old.content.table.schema }
        ensures whole { IfOk result (λ added. IsTrue added ↔ IsPermutation (pairs_of self.old.content.table expr.expr) pairs.pairs) }
        ensures added { IfOk result (λ added. self.new.content ≡ with_index_if added self.old.content (record { name = name; expr = expr })) }
        ensures err { OnErr result (self.new.content ≡ self.old.content) }
        ensures tested { IfErr result (λ _. IsPermutation (pairs_of self.old.content.table expr.expr) pairs.pairs) }
    {
        let Some(index) = TableIndex::kept(alloc, &self.records, name, expr, pairs)? else {
            return Ok(false);
        };
        self.indexes.push(index)?;
        Ok(true)
    }
}

fn any_has_name(indexes: &[TableIndex], name: &Bytes) -> bool
    ensures value { result ≡ list_any (λ index. bytes_eq name.now index.name) indexes.now }
{
    indexes.iter().any(|index| *name == index.name)
}
