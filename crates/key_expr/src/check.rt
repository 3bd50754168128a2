//! The rules on fields and arguments.

ghost use Rattle.std.specs.Prelude.{◌≡◌, ◌≤◌, min, Some, None, IfOk, IfErr};
ghost use Rattle.dbf_fields.specs.Faults.{first_fault};
ghost use Rattle.dbf_fields.specs.Layout.{width_of as width_in};
ghost use Rattle.key_expr.specs.TreeExpr.{expr_of};
ghost use Rattle.key_expr.specs.KeptLengths.{KeepsLengths};
ghost use Rattle.key_expr.specs.declared.format.TheConstants.{MAX_LENGTH};
ghost use Rattle.key_expr.specs.Keys.{key_length, length_given as length_of_given, decimals_given as decimals_of_given};
ghost use Rattle.key_expr.specs.Rules.{kind_tests, has_kind as is_of_kind, can_print as may_print, tests, broken_rule};

use crate::fault::ExprFault;
use crate::format::{DTOC_LENGTH, MAX_KEY_BYTES, MAX_LENGTH, STR_LENGTH};
use crate::tree::Tree;
use dbf_fields::{CHARACTER, DATE, Field, NUMBER};

// How wide the cells of a field are.
#[tactic(auto, using(dbf_fields::proofs::LayoutLaws::width_of_field))]
fn width_of(fields: &[Field], index: usize) -> u8
    ensures value { result ≡ width_in fields.now index }
{
    match fields.get(index) {
        Some(field) => field.width,
        None => 0,
    }
}

/// The length that a STR prints: `STR_LENGTH` where none is given.
pub(crate) fn length_given(length: Option<u16>) -> usize
    ensures value { result ≡ length_of_given length }
    ensures bounded { result ≤ u16.MAX }
{
    match length {
        Some(length) => usize::from(length),
        None => STR_LENGTH,
    }
}

/// The decimals that a STR prints: none where none are given.
pub(crate) fn decimals_given(decimals: Option<u16>) -> usize
    ensures value { result ≡ decimals_of_given decimals }
{
    match decimals {
        Some(decimals) => usize::from(decimals),
        None => 0,
    }
}

/// How many bytes the key of an expression has, at most `MAX_LENGTH`.
pub(crate) fn length_of(tree: &Tree, fields: &[Field]) -> usize
    requires lengths { KeepsLengths fields.now tree.now }
    ensures value { result ≡ min MAX_LENGTH (key_length fields.now (expr_of tree.now)) }
{
    match tree {
        Tree::Field(index) => usize::from(width_of(fields, *index)),
        Tree::Concat(_, second, length) => (*length + length_of(second, fields)).min(MAX_LENGTH),
        Tree::Upper(inner) => length_of(inner, fields),
        Tree::Substr(inner, from, count) => {
            let before = usize::from(*from).saturating_sub(1);
            length_of(inner, fields)
                .saturating_sub(before)
                .min(usize::from(*count))
        }
        Tree::Str(_, length, _) => length_given(*length),
        Tree::Dtoc(_) => DTOC_LENGTH,
    }
}

// Whether the field is of the kind.
fn has_kind(fields: &[Field], index: usize, kind: u8) -> bool
    ensures value { result ≡ is_of_kind fields.now index kind }
{
    match fields.get(index) {
        Some(field) => field.kind == kind,
        None => false,
    }
}

// A field that has to be there and of the kind.
fn check_field(fields: &[Field], index: usize, kind: u8) -> Result<(), ExprFault>
    ensures kept { IfOk result (λ _. first_fault (kind_tests fields.now index kind) ≡ None) }
    ensures refused { IfErr result (λ fault. first_fault (kind_tests fields.now index kind) ≡ Some fault) }
{
    if index >= fields.len() {
        return Err(ExprFault::NoSuchField);
    }
    if !has_kind(fields, index, kind) {
        return Err(ExprFault::NotCharacter);
    }
    Ok(())
}

// Whether a field's number prints with these decimals in this number of bytes.
fn can_print(fields: &[Field], index: usize, length: usize, decimals: usize) -> bool
    ensures value { result ≡ may_print fields.now index length decimals }
{
    match fields.get(index) {
        Some(field) => {
            decimals == usize::from(field.decimals)
                && length >= usize::from(field.width)
                && length <= MAX_KEY_BYTES
        }
        None => false,
    }
}

// The rules on fields and arguments, from left to right.
#[tactic(auto, using(dbf_fields::proofs::FaultLaws::first_then, dbf_fields::proofs::FaultLaws::first_before))]
fn check(tree: &Tree, fields: &[Field]) -> Result<(), ExprFault>
    requires lengths { KeepsLengths fields.now tree.now }
    ensures kept { IfOk result (λ _. first_fault (tests fields.now (expr_of tree.now)) ≡ None) }
    ensures refused { IfErr result (λ fault. first_fault (tests fields.now (expr_of tree.now)) ≡ Some fault) }
{
    match tree {
        Tree::Field(index) => check_field(fields, *index, CHARACTER),
        Tree::Concat(first, second, _) => {
            check(first, fields)?;
            check(second, fields)
        }
        Tree::Upper(inner) => check(inner, fields),
        Tree::Substr(inner, from, count) => {
            check(inner, fields)?;
            let from = usize::from(*from);
            if from < 1 || from > length_of(inner, fields) || *count < 1 {
                return Err(ExprFault::BadArgument);
            }
            Ok(())
        }
        Tree::Str(index, length, decimals) => {
            check_field(fields, *index, NUMBER)?;
            if !can_print(
                fields,
                *index,
                length_given(*length),
                decimals_given(*decimals),
            ) {
                return Err(ExprFault::BadArgument);
            }
            Ok(())
        }
        Tree::Dtoc(index) => check_field(fields, *index, DATE),
    }
}

/// All the rules on an expression, and how many bytes its keys have.
#[tactic(auto, using(dbf_fields::proofs::FaultLaws::first_then, dbf_fields::proofs::FaultLaws::first_before))]
pub(crate) fn check_all(tree: &Tree, fields: &[Field]) -> Result<usize, ExprFault>
    requires lengths { KeepsLengths fields.now tree.now }
    ensures kept { IfOk result (λ _. broken_rule fields.now (expr_of tree.now) ≡ None) }
    ensures length { IfOk result (λ n. n ≡ key_length fields.now (expr_of tree.now)) }
    ensures refused { IfErr result (λ fault. broken_rule fields.now (expr_of tree.now) ≡ Some fault) }
{
    check(tree, fields)?;
    let length = length_of(tree, fields);
    if length > MAX_KEY_BYTES {
        return Err(ExprFault::KeyTooLong);
    }
    Ok(length)
}
