//! The tree of a key expression.

ghost use Rattle.std.specs.Prelude.{◌≡◌, List, IfOk};
ghost use Rattle.dbf_fields.specs.declared.field.Field.{Field};
ghost use Rattle.key_expr.specs.TreeExpr.{expr_of};
ghost use Rattle.key_expr.specs.Keys.{names};
ghost use Rattle.key_expr.specs.KeptLengths.{KeepsLengths};

use std::alloc::{AllocError, Global};

/// What a key expression is made of. A field is given by its index.
#[derive(Drop)]
pub(crate) enum Tree {
    /// A field's cell.
    Field(usize),
    /// A part and the part after it, and how many bytes the key of the first has.
    Concat(Box<Tree>, Box<Tree>, usize),
    /// A part in capitals.
    Upper(Box<Tree>),
    /// Some bytes of a part: the number of the first one, then how many.
    Substr(Box<Tree>, u16, u16),
    /// A field's number, with the length and the decimals that are given.
    Str(usize, Option<u16>, Option<u16>),
    /// A field's date.
    Dtoc(usize),
}

impl Tree {
    /// The same tree once more, or an error where memory is refused.
    pub(crate) fn copy(&self, alloc: Global) -> Result<Tree, AllocError>
        ensures lengths { IfOk result (λ tree. (fields : List Field) → KeepsLengths fields self.now → KeepsLengths fields tree) }
        ensures value { IfOk result (λ tree. expr_of tree ≡ expr_of self.now) }
    {
        match self {
            Tree::Field(index) => Ok(Tree::Field(*index)),
            Tree::Concat(first, second, length) => {
                let first = Box::new(alloc, first.copy(alloc)?)?;
                let second = Box::new(alloc, second.copy(alloc)?)?;
                Ok(Tree::Concat(first, second, *length))
            }
            Tree::Upper(inner) => {
                let inner = Box::new(alloc, inner.copy(alloc)?)?;
                Ok(Tree::Upper(inner))
            }
            Tree::Substr(inner, from, count) => {
                let inner = Box::new(alloc, inner.copy(alloc)?)?;
                Ok(Tree::Substr(inner, *from, *count))
            }
            Tree::Str(index, length, decimals) => Ok(Tree::Str(*index, *length, *decimals)),
            Tree::Dtoc(index) => Ok(Tree::Dtoc(*index)),
        }
    }

    /// Whether it names a field, which is given by its index from 0. Takes no memory.
    pub(crate) fn names(&self, field: usize) -> bool
        ensures value { result ≡ names field (expr_of self.now) }
    {
        match self {
            Tree::Field(index) => *index == field,
            Tree::Concat(first, second, _) => first.names(field) || second.names(field),
            Tree::Upper(inner) => inner.names(field),
            Tree::Substr(inner, _, _) => inner.names(field),
            Tree::Str(index, _, _) => *index == field,
            Tree::Dtoc(index) => *index == field,
        }
    }
}
