//! Writing an index as the bytes of an NDX file.
#![tactic(auto, using(crate::proofs::Sinks::puts))]

ghost use Rattle.std.specs.Prelude.{◌≡◌, ◌+◌, ◌≤◌, ◌<◌, ◌^◌, true, length, OnOk};
ghost use Rattle.std.specs.List.{list_all, AllByRecursion};
ghost use Rattle.byte_io.specs.Output.{Puts};
ghost use Rattle.byte_io.specs.Sink.{grown, is_byte, IsFront, Rises};
ghost use Rattle.key_expr.specs.Keys.{key_length};
ghost use Rattle.ndx_index.specs.Image.{header_page, ndx_image};
ghost use Rattle.ndx_index.specs.IndexFile.{index_image, IsIndexOf};
ghost use Rattle.ndx_index.specs.Index.{HaveLength};
ghost use Rattle.ndx_index.specs.ListParts.{listed};
ghost use Rattle.ndx_index.specs.Order.{AreInOrder};

mod inner;
mod leaf;
mod pieces;
mod plan;
mod shape;

use crate::format::MAX_PAIRS;
use crate::pair_list::PairList;
use crate::write::inner::put_inner_pages;
use crate::write::leaf::put_leaves;
use crate::write::pieces::{put_u16, put_u32, put_zeros};
use crate::write::plan::TreePlan;
use crate::write::shape::Shape;
use byte_io::{ByteSink, SinkFault, SinkWriter, WriteFault};
use key_expr::{KeyExpr, MAX_EXPRESSION_BYTES};

// The header page of a file whose last page is the root.
fn put_header<S: ByteSink>(out: &mut SinkWriter<'_, S>, text: &[u8], shape: Shape, root: u32)
    requires text { length text.now ≤ MAX_EXPRESSION_BYTES }
    requires root { root + 1 < 2 ^ 32 }
    ensures put { Puts out.old (header_page text.now shape.key_len (root + 1)) out.new }
{
    put_u32(out, root);
    put_u32(out, root + 1);
    put_zeros(out, 4);
    put_u16(out, shape.key_len as u16);
    put_u16(out, shape.keys as u16);
    put_zeros(out, 2);
    put_u16(out, shape.size as u16);
    put_zeros(out, 4);
    out.put(text);
    put_zeros(out, MAX_EXPRESSION_BYTES - text.len());
}

// The bytes of the file.
fn put_image<S: ByteSink>(out: &mut SinkWriter<'_, S>, text: &[u8], plan: &TreePlan<'_>)
    requires text { length text.now ≤ MAX_EXPRESSION_BYTES }
    ensures put { Puts out.old (ndx_image text.now plan.now.shape.key_len (listed plan.now.pairs)) out.new }
    ensures numbers { AllByRecursion (λ p. p.number < 2 ^ 32) (listed plan.now.pairs) }
{
    put_header(out, text, plan.shape, plan.root);
    put_leaves(out, plan.shape, plan.pairs);
    put_inner_pages(out, plan);
}

/// Writes the index file of these pairs into the sink: a header page, the leaves, and the inner pages
/// level by level up to the root, each page of 512 bytes. It takes no memory: pieces are gathered, up to
/// 65,536 bytes, before the sink is called.
///
/// The pairs are those of the key expression: each key has its length. They stand in order,
/// [`MAX_PAIRS`] at most. The one fault is `Sink`: the sink failed, and has then taken a front part of the
/// file, which may be all of it or nothing.
///
/// What is written reads back as these pairs, this length of keys, and the expression's text without the
/// blanks at its end.
pub fn write_ndx<S: ByteSink>(
    sink: &mut S,
    expr: &KeyExpr,
    pairs: &PairList,
) -> Result<(), WriteFault>
    requires count_bounded { length pairs.now.pairs ≤ MAX_PAIRS }
    requires keys { HaveLength (key_length expr.now.fields expr.now.expr) pairs.now.pairs }
    requires ordered { AreInOrder pairs.now.pairs }
    ensures wrote { OnOk result (S.written sink.new ≡ grown (S.written sink.old) (index_image expr.now pairs.now.pairs)) }
    ensures no_failure { OnOk result (S.failures sink.new ≡ S.failures sink.old) }
    ensures dated { result ≡ Err WriteFault.DateOutside → ⊥ }
    ensures blocks { result ≡ Err WriteFault.TooManyBlocks → ⊥ }
    ensures failed { result ≡ Err WriteFault.Sink → Rises (S.failures sink.old) (S.failures sink.new) }
    // What the sink held before the call it still holds.
    ensures kept { IsFront (S.written sink.old) (S.written sink.new) }
    // What a sink that failed has taken is a front part of the file.
    ensures front { result ≡ Err WriteFault.Sink → IsFront (S.written sink.new) (grown (S.written sink.old) (index_image expr.now pairs.now.pairs)) }
    ensures bytes { OnOk result (list_all is_byte (index_image expr.now pairs.now.pairs) ≡ true) }
    // What is written can be read.
    ensures reads_back { IsIndexOf (index_image expr.now pairs.now.pairs) expr.now pairs.now.pairs }
{
    let plan = TreePlan::new(Shape::new(expr.key_len()), pairs.all());
    let mut out = SinkWriter::new(sink);
    put_image(&mut out, expr.text(), &plan);
    match out.flush() {
        Ok(()) => Ok(()),
        Err(SinkFault) => Err(WriteFault::Sink),
    }
}
