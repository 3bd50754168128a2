//! An index as its table hands it over.

ghost use Rattle.std.specs.Prelude.{◌≡◌, map, IfOk};
ghost use Rattle.std.specs.List.{AllByRecursion};
ghost use Rattle.table_core.specs.Parts.{handed, handed_of, FitsTable};
ghost use Rattle.table_core.specs.Indexes.{indexed, Follows};

use crate::indexes::TableIndex;
use byte_io::Bytes;
use dbf_image::GrowingTable;
use key_expr::KeyExpr;
use ndx_index::PairList;
use std::alloc::{AllocError, Global};

/// An index that its table has handed over.
#[derive(Drop)]
pub struct IndexParts {
    /// Its name.
    pub name: Bytes,
    /// Its key expression.
    pub expr: KeyExpr,
    /// Its pairs, in order.
    pub pairs: PairList,
}

// The parts of an index of these records: its pairs are copied out of its pages, which are let go. An `Err` says that there
// was no memory.
fn parts_of(
    alloc: Global,
    records: &GrowingTable,
    index: TableIndex,
) -> Result<IndexParts, AllocError>
    requires follows { Follows records.now.table index }
    ensures value { IfOk result (λ parts. handed parts ≡ handed_of records.now.table (indexed index)) }
    ensures fits { IfOk result (FitsTable records.now.table) }
{
    let TableIndex { name, expr, order } = index;
    let pairs = order.pairs(alloc)?;
    Ok(IndexParts { name, expr, pairs })
}

/// The parts of all indexes of these records, in order: each index is let go before the pairs of the next are copied. An `Err`
/// says that there was no memory.
pub(crate) fn all_parts(
    alloc: Global,
    records: &GrowingTable,
    indexes: Vec<TableIndex>,
) -> Result<Vec<IndexParts>, AllocError>
    requires follow { AllByRecursion (Follows records.now.table) indexes.items }
    ensures value { IfOk result (λ parts. map handed parts.items ≡ map (handed_of records.now.table) (map indexed indexes.items)) }
    ensures fits { IfOk result (λ parts. AllByRecursion (FitsTable records.now.table) parts.items) }
{
    let mut parts = Vec::new(alloc);
    for index in indexes {
        parts.push(parts_of(alloc, records, index)?)?;
    }
    Ok(parts)
}
