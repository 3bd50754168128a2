//! The file of an index of a table.
#![tactic(auto, using(byte_io::specs::Laws::Sinks::sinks))]

ghost use Rattle.std.specs.Prelude.{◌≡◌, ◌≤◌, ◌∷◌, [], true, length, IfOk, OnOk};
ghost use Rattle.std.specs.List.{list_all};
ghost use Rattle.byte_io.specs.Sink.{grown, is_byte};
ghost use Rattle.folders.specs.Files.{listing, IsOfBytes};
ghost use Rattle.folders.specs.Placed.{IsListedAfter};
ghost use Rattle.key_expr.specs.Keys.{key_length};
ghost use Rattle.ndx_index.specs.declared.format.TheConstants.{MAX_PAIRS};
ghost use Rattle.ndx_index.specs.Index.{HaveLength};
ghost use Rattle.ndx_index.specs.IndexFile.{index_image, IsIndexOf};
ghost use Rattle.ndx_index.specs.Order.{AreInOrder};
ghost use Rattle.table_order.specs.TableOrder.{order};
ghost use Rattle.table_maker.specs.MadeIndex.{index_file};

use crate::files::FilesFault;
use byte_io::{ByteSink, Bytes, SinkFault};
use dbf_image::TableData;
use folders::Folder;
use key_expr::KeyExpr;
use ndx_index::{PairList, write_ndx};
use std::alloc::{AllocError, Global};
use table_core::Table;

// The pairs of all records of a table by a key expression, in their order. An error where memory is refused.
#[tactic(auto, using(crate::proofs::IndexLaws::few_pairs))]
fn order_of(alloc: Global, table: TableData, key: &KeyExpr) -> Result<PairList, AllocError>
    requires read { key.now.fields ≡ table.schema }
    ensures pairs { IfOk result (λ list. list.pairs ≡ order table key.now.expr) }
    ensures ordered { IfOk result (λ list. AreInOrder list.pairs) }
    ensures keys { IfOk result (λ list. HaveLength (key_length key.now.fields key.now.expr) list.pairs) }
    ensures few { IfOk result (λ list. length list.pairs ≤ MAX_PAIRS) }
{
    let mut indexed = Table::without_indexes(alloc, table);
    // The file of an index does not have its name.
    indexed.add_index(alloc, Bytes::new(alloc), key.copy(alloc)?)?;
    // For contracts alone: a table has no more records than an index may have pairs.
    let _count = indexed.record_count();
    indexed.index_pairs(alloc, 1)
}

// Puts the bytes of an index's file.
fn put_index<S: ByteSink>(sink: &mut S, key: &KeyExpr, pairs: &PairList) -> Result<(), SinkFault>
    requires few { length pairs.now.pairs ≤ MAX_PAIRS }
    requires keys { HaveLength (key_length key.now.fields key.now.expr) pairs.now.pairs }
    requires ordered { AreInOrder pairs.now.pairs }
    ensures wrote { OnOk result (S.written sink.new ≡ grown (S.written sink.old) (index_image key.now pairs.now.pairs)) }
    ensures no_failure { OnOk result (S.failures sink.new ≡ S.failures sink.old) }
    ensures bytes { OnOk result (list_all is_byte (index_image key.now pairs.now.pairs) ≡ true) }
    ensures reads_back { IsIndexOf (index_image key.now pairs.now.pairs) key.now pairs.now.pairs }
{
    write_ndx(sink, key, pairs).map_err(|_| SinkFault)
}

// Writes the file of an index.
fn write_pairs<F: Folder>(
    folder: &mut F,
    name: &[u8],
    key: &KeyExpr,
    pairs: &PairList,
) -> Result<(), SinkFault>
    requires few { length pairs.now.pairs ≤ MAX_PAIRS }
    requires keys { HaveLength (key_length key.now.fields key.now.expr) pairs.now.pairs }
    requires ordered { AreInOrder pairs.now.pairs }
    ensures wrote { OnOk result (F.written folder.new ≡ grown (F.written folder.old) (listing (index_file name.now key.now pairs.now.pairs ∷ []))) }
    ensures no_failure { OnOk result (F.failures folder.new ≡ F.failures folder.old) }
    ensures bytes { OnOk result (IsOfBytes (index_file name.now key.now pairs.now.pairs)) }
    ensures reads_back { OnOk result (IsIndexOf (index_image key.now pairs.now.pairs) key.now pairs.now.pairs) }
{
    folder.begin(name)?;
    put_index(folder, key, pairs)
}

/// Writes the file of the index of a table by a key expression, which was read for its fields, under a name.
pub(crate) fn write_index<F: Folder>(
    alloc: Global,
    folder: &mut F,
    name: &[u8],
    table: TableData,
    key: &KeyExpr,
) -> Result<(), FilesFault>
    requires read { key.now.fields ≡ table.schema }
    ensures written { OnOk result
        (IsListedAfter (λ made. made ≡ index_file name.now key.now (order table key.now.expr) ∷ []) (F.written folder.old) (F.written folder.new)) }
    ensures no_failure { OnOk result (F.failures folder.new ≡ F.failures folder.old) }
    ensures reads_back { OnOk result (IsIndexOf (index_image key.now (order table key.now.expr)) key.now (order table key.now.expr)) }
{
    let pairs = order_of(alloc, table, key)?;
    write_pairs(folder, name, key, &pairs)?;
    Ok(())
}
