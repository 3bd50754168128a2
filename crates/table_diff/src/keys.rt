//! Records of two tables that are matched by their keys.

ghost use Rattle.std.specs.Prelude.{◌≡◌, ◌≤◌, drop, length, IfOk};
ghost use Rattle.ndx_index.specs.Order.{AreInOrder};
ghost use Rattle.table_order.specs.TableOrder.{order};
ghost use Rattle.table_diff.specs.KeySteps.{first_match, lesser_match as lesser};
ghost use Rattle.table_diff.specs.Matching.{all_matches, in_new, in_old, matches_by_key};

use crate::matching::{Match, RecordNumbers};
use dbf_image::GrowingTable;
use key_expr::KeyExpr;
use ndx_index::{OrderedIndex, PairList};
use std::alloc::{AllocError, Global};
use std::cmp::Ordering;
use table_order::record_pairs;

// The pairs of all records, in the order of the keys, and of the numbers where the keys are the same.
fn ordered_pairs(alloc: Global, table: &GrowingTable, key: &KeyExpr) -> Result<PairList, AllocError>
    requires fields { key.now.fields ≡ table.now.table.schema }
    ensures pairs { IfOk result (λ list. list.pairs ≡ order table.now.table key.now.expr) }
{
    let pairs = record_pairs(alloc, table, key)?;
    if pairs.is_in_order() {
        return Ok(pairs);
    }
    let index = OrderedIndex::from_pairs(alloc, pairs)?;
    index.pairs(alloc)
}

// Of the first pairs that are left of two tables, the one whose key stands before the other's; both where they have one key.
fn lesser_match(old_key: &[u8], new_key: &[u8], numbers: RecordNumbers) -> Match
    ensures value { result ≡ lesser old_key.now new_key.now numbers }
{
    match old_key.cmp(new_key) {
        Ordering::Less => Match::Old(numbers.old_number),
        Ordering::Equal => Match::Both(numbers),
        Ordering::Greater => Match::New(numbers.new_number),
    }
}

// The first match of the pairs from these places on; `None` where none are left.
fn next_match(olds: &PairList, old_place: usize, news: &PairList, new_place: usize) -> Option<Match>
    requires old_inside { old_place ≤ length olds.now.pairs }
    requires new_inside { new_place ≤ length news.now.pairs }
    ensures value { result ≡ first_match (drop old_place olds.now.pairs) (drop new_place news.now.pairs) }
{
    if old_place >= olds.len() {
        if new_place >= news.len() {
            return None;
        }
        return Some(Match::New(news.number(new_place)));
    }
    if new_place >= news.len() {
        return Some(Match::Old(olds.number(old_place)));
    }
    let numbers = RecordNumbers {
        old_number: olds.number(old_place),
        new_number: news.number(new_place),
    };
    Some(lesser_match(olds.key(old_place), news.key(new_place), numbers))
}

// How many records of the old table a match has.
fn count_of_old(found: Match) -> usize
    ensures value { result ≡ length (in_old found) }
{
    match found {
        Match::New(_) => 0,
        _ => 1,
    }
}

// How many records of the new table a match has.
fn count_of_new(found: Match) -> usize
    ensures value { result ≡ length (in_new found) }
{
    match found {
        Match::Old(_) => 0,
        _ => 1,
    }
}

// The matches of pairs that stand in order. An `Err` says that there was no memory.
fn matched(alloc: Global, olds: &PairList, news: &PairList) -> Result<Vec<Match>, AllocError>
    requires old_order { AreInOrder olds.now.pairs }
    requires new_order { AreInOrder news.now.pairs }
    ensures value { IfOk result (λ found. found.items ≡ all_matches olds.now.pairs news.now.pairs) }
{
    let old_count = olds.len();
    let new_count = news.len();
    let mut found = Vec::new(alloc);
    found.reserve(old_count.max(new_count))?;
    let mut old_place = 0;
    let mut new_place = 0;
    while let Some(next) = next_match(olds, old_place, news, new_place) {
        found.push(next)?;
        old_place += count_of_old(next);
        new_place += count_of_new(next);
    }
    Ok(found)
}

/// The records of two tables, matched by the keys that an expression gives of them, in the order of the keys: of those that have
/// one key the first with the first, by their numbers, and so on.
///
/// An `Err` says that there was no memory.
pub(crate) fn matched_by_key(
    alloc: Global,
    old_table: &GrowingTable,
    new_table: &GrowingTable,
    old_key: &KeyExpr,
    new_key: &KeyExpr,
) -> Result<Vec<Match>, AllocError>
    requires old_fields { old_key.now.fields ≡ old_table.now.table.schema }
    requires new_fields { new_key.now.fields ≡ new_table.now.table.schema }
    ensures value { IfOk result (λ found. found.items ≡ matches_by_key old_table.now.table new_table.now.table old_key.now.expr new_key.now.expr) }
{
    let olds = ordered_pairs(alloc, old_table, old_key)?;
    let news = ordered_pairs(alloc, new_table, new_key)?;
    matched(alloc, &olds, &news)
}
