//! Key expressions of dBASE III PLUS indexes: their text, and the key that they give of a record.
//!
//! `KeyExpr::parse` accepts exactly the texts of the grammar that keep the rules on fields and arguments
//! for a schema, and tells of every other text the first rule that it breaks; `KeyExpr::key_of` gives the
//! key of a record, which is defined by cases on the expression. Start reading at `expr.rt`, then
//! `specs/Grammar.antt`, `specs/Rules.antt` and `specs/Keys.antt`; the text becomes tokens in `lexer.rt`,
//! those become a tree in `parser.rt`, which `check.rt` judges and `evaluate.rt` evaluates. That a text has
//! one list of tokens, each where its bytes stand, and is one expression or none, is said by `one_reading`.
//! That no key depends on a memo, and what else follows for callers' proofs, stands in `specs/Laws.antt`.
#![tactic(auto)]

mod check;
mod evaluate;
mod expr;
mod fault;
mod format;
mod key;
mod lexer;
mod parser;
mod str_text;
mod token;
mod tree;

pub use expr::KeyExpr;
pub use fault::ExprFault;
pub use format::{MAX_EXPRESSION_BYTES, MAX_KEY_BYTES};
pub use key::Key;
pub use parser::one_reading;
pub use token::{Kind, Token};
