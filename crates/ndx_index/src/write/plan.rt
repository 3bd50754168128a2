//! The levels of an index's tree, as they will be written.

ghost use Rattle.std.specs.Prelude.{◌≡◌, ◌+◌, ◌*◌, ◌/◌, ◌^◌, ◌<◌, ◌≤◌, length};
ghost use Rattle.std.proofs.Props.{props};
ghost use Rattle.std.specs.List.{AllByRecursion};
ghost use Rattle.ndx_index.specs.declared.format.TheConstants.{MAX_PAIRS};
ghost use Rattle.ndx_index.specs.declared.write.plan.TheConstants.{LEVELS};
ghost use Rattle.key_expr.specs.declared.format.TheConstants.{MAX_KEY_BYTES};
ghost use Rattle.ndx_index.specs.Image.{leaves};
ghost use Rattle.ndx_index.specs.ListParts.{listed};
ghost use Rattle.ndx_index.specs.Levels.{IsLast, AreSizes, IsRootLevel, key_under, level as level_of};

use crate::format::MAX_PAIRS;
use crate::pair_list::part::ListPart;
use crate::write::shape::Shape;

// No tree of that many pairs has as many levels.
const LEVELS: usize = 32;

/// A level of the tree.
#[derive(Clone, Copy)]
pub(crate) struct LevelSpan {
    /// How many levels are below it: 0 for the leaves.
    pub(crate) height: usize,
    /// The number of its first page.
    pub(crate) first: u32,
    /// How many pages it has.
    pub(crate) count: usize,
}

/// What is known of a tree before any of it is written.
#[derive(Clone, Copy)]
pub(crate) struct TreePlan<'a> {
    pub(crate) shape: Shape,
    pub(crate) pairs: ListPart<'a>,
    /// How many pages each level below the root has, from the leaves on.
    pub(crate) sizes: [usize; LEVELS],
    /// How many levels are below the root.
    pub(crate) height: usize,
    /// The number of the root page, which is the last of the file.
    pub(crate) root: u32,
    ghost count_bounded: { length (listed pairs) ≤ MAX_PAIRS },
    ghost keys: { AllByRecursion (λ p. length p.key + 8 ≤ shape.size) (listed pairs) } by { Prim.hlevel props },
    ghost depth: { height ≤ length sizes },
    ghost below: { AreSizes shape.keys (listed pairs) height sizes },
    ghost top: { IsRootLevel shape.keys (listed pairs) height root },
}

impl<'a> TreePlan<'a> {
    /// The plan of these pairs' tree.
    pub(crate) fn new(shape: Shape, pairs: ListPart<'a>) -> TreePlan<'a>
        requires count_bounded { length (listed pairs) ≤ MAX_PAIRS }
        requires keys { AllByRecursion (λ p. length p.key + 8 ≤ shape.size) (listed pairs) }
        ensures shape { result.shape ≡ shape }
        ensures pairs { listed result.pairs ≡ listed pairs.entry }
    {
        let mut sizes = [0; LEVELS];
        let mut level = leaves_of(shape, pairs);
        while level.count > 1 {
            sizes[level.height] = level.count;
            level = above(shape, level);
        }
        TreePlan {
            shape,
            pairs,
            sizes,
            height: level.height,
            root: level.first,
        }
    }
}

// The level of the leaves.
fn leaves_of(shape: Shape, pairs: ListPart<'_>) -> LevelSpan
    requires count_bounded { length (listed pairs) ≤ MAX_PAIRS }
    ensures height { result.height ≡ 0 }
    ensures first { result.first ≡ 1 }
    ensures count { result.count ≡ length (leaves shape.keys (listed pairs.entry)) }
{
    LevelSpan {
        height: 0,
        first: 1,
        count: if pairs.len() == 0 {
            1
        } else {
            (pairs.len() - 1) / shape.keys + 1
        },
    }
}

// The level above a level of several pages.
fn above(shape: Shape, level: LevelSpan) -> LevelSpan
    requires numbers { level.first + level.count < 2 ^ 32 }
    requires height { level.height < LEVELS }
    ensures height { result.height ≡ level.height + 1 }
    ensures first { result.first ≡ level.first + level.count }
    ensures count { result.count ≡ (level.count + shape.keys) / (shape.keys + 1) }
{
    LevelSpan {
        height: level.height + 1,
        first: level.first + level.count as u32,
        count: (level.count + shape.keys) / (shape.keys + 1),
    }
}

// Which of `count` children is the last one of page `page` above them.
fn last_child(shape: Shape, count: usize, page: usize) -> usize
    requires child { page * (shape.keys + 1) < count }
    ensures last { IsLast shape.keys count page result }
{
    let start = page * (shape.keys + 1);
    let left = count - start;
    if left <= shape.keys + 1 {
        count - 1
    } else if left == shape.keys + 2 {
        start + shape.keys - 1
    } else {
        start + shape.keys
    }
}

/// The last key under a page of a level: down the levels by arithmetic, and then its leaf's last.
#[tactic(auto, using(crate::proofs::Planning::leaf_low))]
pub(crate) fn greatest<'a>(plan: &TreePlan<'a>, height: usize, page: usize) -> &'a [u8]
    requires height { height < plan.now.height }
    requires inside { page < length (level_of plan.now.shape.keys (listed plan.now.pairs) height).pages }
    ensures key { result.now ≡ key_under plan.now.shape.keys (listed plan.now.pairs) height page }
    ensures short { length result.now ≤ MAX_KEY_BYTES }
{
    let pairs = plan.pairs;
    let keys = plan.shape.keys;
    let mut at = page;
    for below in (0..height).rev() {
        at = last_child(plan.shape, plan.sizes[below], at);
    }
    let rest = pairs.len() - at * keys;
    if rest <= keys {
        pairs.key(pairs.len() - 1)
    } else {
        pairs.key(at * keys + keys - 1)
    }
}
