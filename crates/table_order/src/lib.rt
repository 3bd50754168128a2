//! The order of a table by a key expression: the pairs of all its records, deleted ones too, sorted.
//!
//! Definitions, over those of tables, key expressions and pairs of an index: specs/TableOrder.antt has the order, and
//! specs/Packing.antt the new numbers of records when others are taken out. [`record_pairs`] makes the pairs. What follows from them, and callers' proofs may cite,
//! stands in specs/Laws/ with its proofs: a record's pair put in and taken out, where a record stands and what stands before and
//! after it, when given pairs are the order of a table, and what the order is after records were taken out.
#![tactic(auto)]

mod pairs;

ghost use Rattle.std.specs.Prelude.{IsPermutation};
ghost use Rattle.dbf_image.specs.Table.{Table};
ghost use Rattle.key_expr.specs.Grammar.{Expr};
ghost use Rattle.ndx_index.specs.Order.{AreInOrder};
ghost use Rattle.table_order.specs.TableOrder.{order, pairs_of};

pub use pairs::{pair_of, record_pairs};

/// The order of a table has each record's pair once, each before all later ones.
pub fn one_table_order()
    ensures in_order { (table : Table) (e : Expr) → AreInOrder (order table e) }
    ensures whole { (table : Table) (e : Expr) → IsPermutation (pairs_of table e) (order table e) }
{}
