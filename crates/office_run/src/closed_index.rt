//! An index as a run left it.
#![tactic(auto, using(byte_io::specs::Laws::Sinks::sinks))]

ghost use Rattle.std.specs.Prelude.{◌≡◌, ◌≤◌, true, length, OnOk, OnErr};
ghost use Rattle.std.specs.List.{list_all};
ghost use Rattle.byte_io.specs.Sink.{grown, is_byte, IsFront, Rises};
ghost use Rattle.key_expr.specs.Keys.{key_length};
ghost use Rattle.ndx_index.specs.declared.format.TheConstants.{MAX_PAIRS};
ghost use Rattle.ndx_index.specs.Image.{ndx_image};
ghost use Rattle.ndx_index.specs.Index.{HaveLength};
ghost use Rattle.ndx_index.specs.Order.{AreInOrder};
ghost use Rattle.office_run.specs.ClosedIndex.{index_with};

use byte_io::{ByteSink, Bytes, SinkFault};
use key_expr::KeyExpr;
use ndx_index::{PairList, write_ndx};
use std::marker::Model;

/// An index of a table as a run left it: its name, its key expression and its pairs, which stand in order.
#[derive(Drop)]
pub struct ClosedIndex {
    name: Bytes,
    expr: KeyExpr,
    pairs: PairList,
}

impl Model for ClosedIndex {
    ghost use Rattle.office_run.specs.ClosedIndex.{IndexContent, index_with, IsHeldIndex};

    ghost Value = { IndexContent };

    ghost view = { λ i. index_with i.name i.expr i.pairs.pairs };

    ghost invariant = { λ i. IsHeldIndex i.expr i.pairs.pairs };
}

impl ClosedIndex {
    /// The index of a name, a key expression and its pairs: each key has its length, and they stand in order,
    /// 1,000,000,000 at most. Takes no memory.
    pub fn new(name: Bytes, expr: KeyExpr, pairs: PairList) -> ClosedIndex
        requires count_bounded { length pairs.pairs ≤ MAX_PAIRS }
        requires keys { HaveLength (key_length expr.fields expr.expr) pairs.pairs }
        requires ordered { AreInOrder pairs.pairs }
        ensures value { result ≡ index_with name expr pairs.pairs }
    {
        ClosedIndex { name, expr, pairs }
    }

    /// The name.
    pub(crate) fn name(&self) -> &Bytes
        ensures value { result.now ≡ self.now.name }
    {
        &self.name
    }

    /// Writes the index's file into a sink. An error says that the sink failed.
    pub(crate) fn write<S: ByteSink>(&self, sink: &mut S) -> Result<(), SinkFault>
        ensures wrote { OnOk result (S.written sink.new ≡ grown (S.written sink.old) (ndx_image self.now.text self.now.key_len self.now.pairs)) }
        ensures no_failure { OnOk result (S.failures sink.new ≡ S.failures sink.old) }
        ensures failed { OnErr result (Rises (S.failures sink.old) (S.failures sink.new)) }
        ensures kept { IsFront (S.written sink.old) (S.written sink.new) }
        ensures front { OnErr result (IsFront (S.written sink.new) (grown (S.written sink.old) (ndx_image self.now.text self.now.key_len self.now.pairs))) }
        ensures bytes { OnOk result (list_all is_byte (ndx_image self.now.text self.now.key_len self.now.pairs) ≡ true) }
    {
        write_ndx(sink, &self.expr, &self.pairs).map_err(|_| SinkFault)
    }
}
