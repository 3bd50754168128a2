//! What the file of an index is beside its table.

ghost use Rattle.std.specs.Prelude.{◌≡◌, IfOk};
ghost use Rattle.setup_check.specs.Freshness.{IsIndexState, IsIndexStateWith};

use crate::wrong_pair::{WrongPair, first_wrong};
use dbf_image::GrowingTable;
use key_expr::{ExprFault, KeyExpr};
use ndx_index::{NdxFile, PairList};
use std::alloc::{AllocError, Global};
use table_core::are_all_pairs;

/// What the file of an index is beside its table.
#[derive(Clone, Copy, PartialEq, Eq)]
pub enum IndexState {
    /// It is the table's as it is.
    Fresh,
    /// Its table is refused.
    NoTable,
    /// Its text is no key expression for the table's fields.
    NoExpression(ExprFault),
    /// Its keys have the first length, and those of its expression the second.
    OtherLength(usize, usize),
    /// Its pairs are not those of the table's records, each as often. The first that isn't its record's is told; there is none
    /// where each is, but some record has no pair, or more than one.
    Stale(Option<WrongPair>),
}

/// What the file of an index is beside its table.
///
/// An `Err` says that there was no memory.
pub(crate) fn state_of(
    alloc: Global,
    records: &GrowingTable,
    file: &NdxFile,
) -> Result<IndexState, AllocError>
    ensures state { IfOk result (IsIndexState records.now.table file.now) }
{
    let expr = match KeyExpr::parse(alloc, file.expr.as_slice(), records.schema()) {
        Ok(expr) => expr,
        Err(ExprFault::NoMemory) => return Err(AllocError),
        Err(fault) => return Ok(IndexState::NoExpression(fault)),
    };
    state_with(alloc, records, &expr, file)
}

// The same pairs once more.
fn copy_of(alloc: Global, pairs: &PairList) -> Result<PairList, AllocError>
    ensures pairs { IfOk result (λ copy. copy.pairs ≡ pairs.now.pairs) }
{
    let mut copy = PairList::new(alloc, pairs.key_len());
    copy.reserve(pairs.len())?;
    for at in 0..pairs.len() {
        copy.push(&pairs.get(at))?;
    }
    Ok(copy)
}

// What the file of an index is beside its table where its text is a key expression. The pairs are compared in a copy, since they are
// put in order for it.
fn state_with(
    alloc: Global,
    records: &GrowingTable,
    expr: &KeyExpr,
    file: &NdxFile,
) -> Result<IndexState, AllocError>
    requires fields { expr.now.fields ≡ records.now.table.schema }
    ensures state { IfOk result (IsIndexStateWith records.now.table file.now expr.now.expr) }
{
    if file.key_len != expr.key_len() {
        return Ok(IndexState::OtherLength(file.key_len, expr.key_len()));
    }
    let first = first_wrong(records, expr, &file.pairs);
    if are_all_pairs(records, expr, copy_of(alloc, &file.pairs)?) {
        return Ok(IndexState::Fresh);
    }
    Ok(IndexState::Stale(first))
}
