//! Writing the inner pages of an index.
#![tactic(auto, using(crate::proofs::Sinks::puts))]

ghost use Rattle.std.specs.Prelude.{◌≡◌, ◌≢◌, min, ◌+◌, ◌-◌, ◌<◌, ◌≤◌, flat_map};
ghost use Rattle.byte_io.specs.Output.{Puts};
ghost use Rattle.ndx_index.specs.Image.{inner_group_size, inner_pages, inner_page};
ghost use Rattle.ndx_index.specs.ListParts.{listed};
ghost use Rattle.ndx_index.specs.Levels.{IsLevel, children_from, parent_pages};

use crate::format::MAX_RECORDS_BYTES;
use crate::write::pieces::{put_key_record, put_u32, put_zeros};
use crate::write::plan::{LevelSpan, TreePlan, greatest};
use crate::write::shape::Shape;
use byte_io::{ByteSink, SinkWriter};

// The page above `count` children, from index `at` of their level on. The last child has a pointer alone.
fn put_inner<S: ByteSink>(
    out: &mut SinkWriter<'_, S>,
    plan: &TreePlan<'_>,
    level: LevelSpan,
    at: usize,
    count: usize,
)
    requires height { level.height < plan.now.height }
    requires level { IsLevel plan.now.shape.keys (listed plan.now.pairs) level.height level.first level.count }
    requires inside { at + count ≤ level.count }
    requires child { 1 ≤ count }
    requires count_bounded { count ≤ plan.now.shape.keys + 1 }
    ensures put { Puts out.old (inner_page plan.now.shape.size (children_from plan.now.shape.keys (listed plan.now.pairs) level.height at count)) out.new }
{
    put_u32(out, (count - 1) as u32);
    for i in 0..count - 1 {
        let page = level.first + (at + i) as u32;
        let key = greatest(plan, level.height, at + i);
        put_key_record(out, plan.shape, page, 0, key);
    }
    put_u32(out, level.first + (at + count - 1) as u32);
    put_zeros(out, MAX_RECORDS_BYTES - (count - 1) * plan.shape.size);
}

// How many of `left` children the next page takes.
fn next_count(shape: Shape, left: usize) -> usize
    requires several { 2 ≤ left }
    ensures is { result ≡ min (inner_group_size shape.keys left) left }
    ensures some { 1 ≤ result }
    ensures count_bounded { result ≤ shape.keys + 1 }
    ensures inside { result ≤ left }
    ensures left { left - result ≢ 1 }
{
    if left == shape.keys + 2 {
        shape.keys
    } else if left < shape.keys + 1 {
        left
    } else {
        shape.keys + 1
    }
}

// The pages above a level.
fn put_level<S: ByteSink>(out: &mut SinkWriter<'_, S>, plan: &TreePlan<'_>, level: LevelSpan)
    requires height { level.height < plan.now.height }
    requires level { IsLevel plan.now.shape.keys (listed plan.now.pairs) level.height level.first level.count }
    ensures put { Puts out.old (flat_map (inner_page plan.now.shape.size) (parent_pages plan.now.shape.keys (listed plan.now.pairs) level.height)) out.new }
{
    let mut at = 0;
    while at < level.count {
        let n = next_count(plan.shape, level.count - at);
        put_inner(out, plan, level, at, n);
        at += n;
    }
}

/// All inner pages, level by level up to the root.
pub(crate) fn put_inner_pages<S: ByteSink>(out: &mut SinkWriter<'_, S>, plan: &TreePlan<'_>)
    ensures put { Puts out.old (flat_map (inner_page plan.now.shape.size) (inner_pages plan.now.shape.keys (listed plan.now.pairs))) out.new }
{
    let mut first = 1;
    for height in 0..plan.height {
        let count = plan.sizes[height];
        let level = LevelSpan {
            height,
            first,
            count,
        };
        put_level(out, plan, level);
        first += count as u32;
    }
}
