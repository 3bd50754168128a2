//! Writing the leaves of an index.
#![tactic(auto, using(crate::proofs::Sinks::puts))]

ghost use Rattle.std.specs.Prelude.{◌+◌, ◌*◌, ◌≤◌, ◌<◌, ◌^◌, length, flat_map};
ghost use Rattle.std.specs.List.{AllByRecursion};
ghost use Rattle.byte_io.specs.Output.{Puts};
ghost use Rattle.ndx_index.specs.ListParts.{listed};
ghost use Rattle.ndx_index.specs.Image.{leaf_record, leaf_page, leaves};

use crate::format::PAGE;
use crate::pair_list::part::ListPart;
use crate::write::pieces::{put_key_record, put_u32, put_zeros};
use crate::write::shape::Shape;
use byte_io::{ByteSink, SinkWriter};

#[tactic(auto, using(crate::proofs::Sinks::puts), unfolding(crate::specs::Image::leaf_record))]
fn put_pairs<S: ByteSink>(out: &mut SinkWriter<'_, S>, shape: Shape, group: ListPart<'_>)
    ensures put { Puts out.old (flat_map (leaf_record shape.size) (listed group.entry)) out.new }
    ensures numbers { AllByRecursion (λ p. p.number < 2 ^ 32) (listed group.entry) }
{
    for at in 0..group.len() {
        put_key_record(out, shape, 0, group.number(at), group.key(at));
    }
}

fn put_leaf<S: ByteSink>(out: &mut SinkWriter<'_, S>, shape: Shape, group: ListPart<'_>)
    requires count_bounded { length (listed group) ≤ shape.keys }
    requires keys { AllByRecursion (λ p. length p.key + 8 ≤ shape.size) (listed group) }
    ensures put { Puts out.old (leaf_page shape.size (listed group.entry)) out.new }
    ensures numbers { AllByRecursion (λ p. p.number < 2 ^ 32) (listed group.entry) }
{
    let count = group.len();
    put_u32(out, count as u32);
    put_pairs(out, shape, group);
    put_zeros(out, PAGE - 4 - count * shape.size);
}

/// All leaves, each full but the last. An index without pairs has one empty leaf.
pub(crate) fn put_leaves<S: ByteSink>(
    out: &mut SinkWriter<'_, S>,
    shape: Shape,
    pairs: ListPart<'_>,
)
    requires keys { AllByRecursion (λ p. length p.key + 8 ≤ shape.size) (listed pairs) }
    ensures put { Puts out.old (flat_map (leaf_page shape.size) (leaves shape.keys (listed pairs.entry))) out.new }
    ensures numbers { AllByRecursion (λ p. p.number < 2 ^ 32) (listed pairs.entry) }
{
    if pairs.len() == 0 {
        put_leaf(out, shape, pairs);
        return;
    }
    let mut rest = pairs;
    while rest.len() > 0 {
        let n = shape.keys.min(rest.len());
        let (group, others) = rest.split_at(n);
        put_leaf(out, shape, group);
        rest = others;
    }
}
