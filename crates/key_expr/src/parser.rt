//! Reads the tokens of a key expression.

ghost use Rattle.std.specs.Prelude.{◌≡◌, ◌↔◌, ℕ, ◌<◌, length, List, [], ◌∷◌, Some, IfOk, IfErr, IfSome, IfNone};
ghost use Rattle.key_expr.specs.declared.token.Kind.TheVariants.{Close, Open, Comma, Name, Number, Plus, End};
ghost use Rattle.key_expr.specs.Grammar.{Reads, a_term, an_expr, Begin, EndsPoints, EndsWith, EndsInEnd, IsWholeExpression, IsTokenRefusal, Expr};
ghost use Rattle.key_expr.specs.declared.token.Token.{Token};
ghost use Rattle.key_expr.specs.Parse.{expr_in};
ghost use Rattle.key_expr.specs.Rules.{IsKeyText};
ghost use Rattle.key_expr.specs.Tokens.{tokens_of};
ghost use Rattle.key_expr.specs.TokenOffsets.{StandIn};
ghost use Rattle.dbf_fields.specs.declared.field.Field.{Field};
ghost use Rattle.key_expr.specs.TreeExpr.{expr_of};
ghost use Rattle.key_expr.specs.KeptLengths.{KeepsLengths};
ghost use Rattle.key_expr.specs.Expected.{Expected, expr, more, name, number, open_, close, comma, lengths, points, finish, first_unexpected, FitsUpTo, FitsUpToNext, IsFirstUnexpected};
ghost use Rattle.key_expr.specs.declared.fault.ExprFault.TheVariants.{BadSyntax};

use crate::check::length_of;
use crate::fault::ExprFault;
use crate::token::{Kind, Token};
use crate::tree::Tree;
use dbf_fields::Field;
use std::alloc::Global;

// That the token doesn't fit.
fn unexpected(token: Token) -> ExprFault
    ensures fault { result ≡ BadSyntax token.offset }
{
    ExprFault::BadSyntax(token.offset)
}

/// The first token, and what is after it.
fn first(tokens: &[Token]) -> Result<(Token, &[Token]), ExprFault>
    ensures found { IfOk result (λ taken. tokens.now ≡ taken.0 ∷ taken.1.now) }
    ensures refused { IfErr result (λ fault. (w : Expected) (s : List Expected) → IsFirstUnexpected fault (w ∷ s) tokens.now) }
{
    match tokens {
        [token, rest @ ..] => Ok((*token, rest)),
        [] => Err(ExprFault::BadSyntax(0)),
    }
}

/// After a closing parenthesis.
fn skip_close(tokens: &[Token]) -> Result<&[Token], ExprFault>
    ensures found { IfOk result (λ rest. Begin (Close ∷ []) tokens.now rest.now) }
    ensures shorter { IfOk result (λ rest. length rest.now < length tokens.now) }
    ensures passed { IfOk result (λ rest. FitsUpTo (close ∷ []) tokens.now rest.now) }
    ensures refused { IfErr result (λ fault. (s : List Expected) → IsFirstUnexpected fault (close ∷ s) tokens.now) }
{
    let (token, rest) = first(tokens)?;
    match token.kind {
        Kind::Close => Ok(rest),
        _ => Err(unexpected(token)),
    }
}

/// The field whose name is first, and what is after it.
fn take_name(tokens: &[Token]) -> Result<(usize, &[Token]), ExprFault>
    ensures found { IfOk result (λ taken. Begin (Name taken.0 ∷ []) tokens.now taken.1.now) }
    ensures passed { IfOk result (λ taken. FitsUpTo (name ∷ []) tokens.now taken.1.now) }
    ensures refused { IfErr result (λ fault. (s : List Expected) → IsFirstUnexpected fault (name ∷ s) tokens.now) }
{
    let (token, rest) = first(tokens)?;
    match token.kind {
        Kind::Name(index) => Ok((index, rest)),
        _ => Err(unexpected(token)),
    }
}

/// After an opening parenthesis.
fn skip_open(tokens: &[Token]) -> Result<&[Token], ExprFault>
    ensures found { IfOk result (λ rest. Begin (Open ∷ []) tokens.now rest.now) }
    ensures shorter { IfOk result (λ rest. length rest.now < length tokens.now) }
    ensures passed { IfOk result (λ rest. FitsUpTo (open_ ∷ []) tokens.now rest.now) }
    ensures refused { IfErr result (λ fault. (s : List Expected) → IsFirstUnexpected fault (open_ ∷ s) tokens.now) }
{
    let (token, rest) = first(tokens)?;
    match token.kind {
        Kind::Open => Ok(rest),
        _ => Err(unexpected(token)),
    }
}

/// After a comma.
fn skip_comma(tokens: &[Token]) -> Result<&[Token], ExprFault>
    ensures found { IfOk result (λ rest. Begin (Comma ∷ []) tokens.now rest.now) }
    ensures shorter { IfOk result (λ rest. length rest.now < length tokens.now) }
    ensures passed { IfOk result (λ rest. FitsUpTo (comma ∷ []) tokens.now rest.now) }
    ensures refused { IfErr result (λ fault. (s : List Expected) → IsFirstUnexpected fault (comma ∷ s) tokens.now) }
{
    let (token, rest) = first(tokens)?;
    match token.kind {
        Kind::Comma => Ok(rest),
        _ => Err(unexpected(token)),
    }
}

/// The number that is first, and what is after it.
fn take_number(tokens: &[Token]) -> Result<(u16, &[Token]), ExprFault>
    ensures found { IfOk result (λ taken. Begin (Number taken.0 ∷ []) tokens.now taken.1.now) }
    ensures passed { IfOk result (λ taken. FitsUpTo (number ∷ []) tokens.now taken.1.now) }
    ensures refused { IfErr result (λ fault. (s : List Expected) → IsFirstUnexpected fault (number ∷ s) tokens.now) }
{
    let (token, rest) = first(tokens)?;
    match token.kind {
        Kind::Number(n) => Ok((n, rest)),
        _ => Err(unexpected(token)),
    }
}

/// The field in parentheses, and what is after its name.
fn take_field(tokens: &[Token]) -> Result<(usize, &[Token]), ExprFault>
    ensures found { IfOk result (λ taken. Begin (Open ∷ Name taken.0 ∷ []) tokens.now taken.1.now) }
    ensures passed { IfOk result (λ taken. FitsUpTo (open_ ∷ name ∷ []) tokens.now taken.1.now) }
    ensures refused { IfErr result (λ fault. (s : List Expected) → IsFirstUnexpected fault (open_ ∷ name ∷ s) tokens.now) }
{
    let inside = skip_open(tokens)?;
    let (index, tail) = take_name(inside)?;
    Ok((index, tail))
}

/// The number after a comma, and what is after it.
fn take_argument(tokens: &[Token]) -> Result<(u16, &[Token]), ExprFault>
    ensures found { IfOk result (λ taken. Begin (Comma ∷ Number taken.0 ∷ []) tokens.now taken.1.now) }
    ensures shorter { IfOk result (λ taken. length taken.1.now < length tokens.now) }
    ensures passed { IfOk result (λ taken. FitsUpTo (comma ∷ number ∷ []) tokens.now taken.1.now) }
    ensures refused { IfErr result (λ fault. (s : List Expected) → IsFirstUnexpected fault (comma ∷ number ∷ s) tokens.now) }
{
    let inside = skip_comma(tokens)?;
    let (n, tail) = take_number(inside)?;
    Ok((n, tail))
}

/// The field alone in parentheses, and what is after them.
#[tactic(auto, using(crate::proofs::ExpectedSteps::begin_then))]
fn take_only_field(tokens: &[Token]) -> Result<(usize, &[Token]), ExprFault>
    ensures found { IfOk result (λ taken. Begin (Open ∷ Name taken.0 ∷ Close ∷ []) tokens.now taken.1.now) }
    ensures shorter { IfOk result (λ taken. length taken.1.now < length tokens.now) }
    ensures passed { IfOk result (λ taken. FitsUpTo (open_ ∷ name ∷ close ∷ []) tokens.now taken.1.now) }
    ensures refused { IfErr result (λ fault. (s : List Expected) → IsFirstUnexpected fault (open_ ∷ name ∷ close ∷ s) tokens.now) }
{
    let (index, tail) = take_field(tokens)?;
    let after = skip_close(tail)?;
    Ok((index, after))
}

/// The end of a SUBSTR: where it begins, how many bytes it has, and what is after its parenthesis.
#[tactic(auto, using(crate::proofs::ExpectedSteps::begin_then))]
fn take_window(tokens: &[Token]) -> Result<(u16, u16, &[Token]), ExprFault>
    ensures found { IfOk result (λ taken. Begin (Comma ∷ Number taken.0 ∷ Comma ∷ Number taken.1 ∷ Close ∷ []) tokens.now taken.2.now) }
    ensures shorter { IfOk result (λ taken. length taken.2.now < length tokens.now) }
    ensures passed { IfOk result (λ taken. FitsUpTo (comma ∷ number ∷ comma ∷ number ∷ close ∷ []) tokens.now taken.2.now) }
    ensures refused { IfErr result (λ fault. (s : List Expected) → IsFirstUnexpected fault (comma ∷ number ∷ comma ∷ number ∷ close ∷ s) tokens.now) }
{
    let (from, rest) = take_argument(tokens)?;
    let (count, tail) = take_argument(rest)?;
    let after = skip_close(tail)?;
    Ok((from, count, after))
}

/// The end of a STR: its length, its decimals, and what is after its parenthesis.
fn take_lengths(tokens: &[Token]) -> Result<(Option<u16>, Option<u16>, &[Token]), ExprFault>
    ensures found { IfOk result (λ taken. EndsWith taken.0 taken.1 tokens.now taken.2.now) }
    ensures shorter { IfOk result (λ taken. length taken.2.now < length tokens.now) }
    ensures passed { IfOk result (λ taken. FitsUpTo (lengths ∷ []) tokens.now taken.2.now) }
    ensures refused { IfErr result (λ fault. (s : List Expected) → IsFirstUnexpected fault (lengths ∷ s) tokens.now) }
{
    let (token, rest) = first(tokens)?;
    match token.kind {
        Kind::Close => Ok((None, None, rest)),
        Kind::Comma => {
            let (n, tail) = take_number(rest)?;
            let (decimals, after) = take_decimals(tail)?;
            Ok((Some(n), decimals, after))
        }
        _ => Err(unexpected(token)),
    }
}

/// The end of a STR after its length.
fn take_decimals(tokens: &[Token]) -> Result<(Option<u16>, &[Token]), ExprFault>
    ensures found { IfOk result (λ taken. EndsPoints taken.0 tokens.now taken.1.now) }
    ensures passed { IfOk result (λ taken. FitsUpTo (points ∷ []) tokens.now taken.1.now) }
    ensures refused { IfErr result (λ fault. (s : List Expected) → IsFirstUnexpected fault (points ∷ s) tokens.now) }
{
    let (token, rest) = first(tokens)?;
    match token.kind {
        Kind::Close => Ok((None, rest)),
        Kind::Comma => {
            let (n, tail) = take_number(rest)?;
            let after = skip_close(tail)?;
            Ok((Some(n), after))
        }
        _ => Err(unexpected(token)),
    }
}

/// What is in the parentheses of a STR: its field, its length, its decimals, and what is after them.
fn take_shape(tokens: &[Token]) -> Result<(usize, Option<u16>, Option<u16>, &[Token]), ExprFault>
    ensures found { IfOk result (λ taken. (us : List Token) × Begin (Open ∷ Name taken.0 ∷ []) tokens.now us × EndsWith taken.1 taken.2 us taken.3.now) }
    ensures shorter { IfOk result (λ taken. length taken.3.now < length tokens.now) }
    ensures passed { IfOk result (λ taken. FitsUpTo (open_ ∷ name ∷ lengths ∷ []) tokens.now taken.3.now) }
    ensures refused { IfErr result (λ fault. (s : List Expected) → IsFirstUnexpected fault (open_ ∷ name ∷ lengths ∷ s) tokens.now) }
{
    let (index, tail) = take_field(tokens)?;
    let (length, decimals, after) = take_lengths(tail)?;
    Ok((index, length, decimals, after))
}

/// A term, and what is after it.
#[cycle(reader)]
#[tactic(auto, using(crate::proofs::ExpectedSteps::begin_then, crate::proofs::ExpectedSteps::begin_first, crate::specs::Grammar::field_term, crate::specs::Grammar::dtoc_term))]
fn read_term<'a>(
    alloc: Global,
    fields: &[Field],
    tokens: &'a [Token],
) -> Result<(Tree, &'a [Token]), ExprFault>
    ensures lengths { IfOk result (λ taken. KeepsLengths fields.now taken.0) }
    ensures found { IfOk result (λ taken. Reads a_term (expr_of taken.0) tokens.now taken.1.now) }
    ensures shorter { IfOk result (λ taken. length taken.1.now < length tokens.now) }
    ensures passed { IfOk result (λ taken. (s : List Expected) → first_unexpected (expr ∷ s) tokens.now ≡ first_unexpected (more ∷ s) taken.1.now) }
    ensures refused { IfErr result (λ fault. (s : List Expected) → IsFirstUnexpected fault (expr ∷ s) tokens.now) }
{
    let (token, rest) = first(tokens)?;
    match token.kind {
        Kind::Name(index) => Ok((Tree::Field(index), rest)),
        Kind::Open => {
            let (tree, tail) = read_expr(alloc, fields, rest)?;
            let after = skip_close(tail)?;
            Ok((tree, after))
        }
        Kind::Upper => {
            let inside = skip_open(rest)?;
            let (tree, tail) = read_expr(alloc, fields, inside)?;
            let after = skip_close(tail)?;
            Ok((Tree::Upper(Box::new(alloc, tree)?), after))
        }
        Kind::Substr => {
            let inside = skip_open(rest)?;
            let (tree, tail) = read_expr(alloc, fields, inside)?;
            let (from, count, after) = take_window(tail)?;
            Ok((Tree::Substr(Box::new(alloc, tree)?, from, count), after))
        }
        Kind::Dtoc => {
            let (index, after) = take_only_field(rest)?;
            Ok((Tree::Dtoc(index), after))
        }
        Kind::Str => {
            let (index, length, decimals, after) = take_shape(rest)?;
            Ok((Tree::Str(index, length, decimals), after))
        }
        _ => Err(unexpected(token)),
    }
}

/// An expression that is as long as it can be, and what is after it.
#[cycle(reader)]
#[tactic(auto, using(crate::specs::Grammar::one_term, crate::specs::Grammar::sum))]
fn read_expr<'a>(
    alloc: Global,
    fields: &[Field],
    tokens: &'a [Token],
) -> Result<(Tree, &'a [Token]), ExprFault>
    ensures lengths { IfOk result (λ taken. KeepsLengths fields.now taken.0) }
    ensures found { IfOk result (λ taken. Reads an_expr (expr_of taken.0) tokens.now taken.1.now) }
    ensures shorter { IfOk result (λ taken. length taken.1.now < length tokens.now) }
    ensures passed { IfOk result (λ taken. FitsUpToNext expr tokens.now taken.1.now) }
    ensures refused { IfErr result (λ fault. (s : List Expected) → IsFirstUnexpected fault (expr ∷ s) tokens.now) }
{
    let (tree, tail) = read_term(alloc, fields, tokens)?;
    let Some(rest) = skip_plus(tail) else {
        return Ok((tree, tail));
    };
    let length = length_of(&tree, fields);
    let (others, after) = read_expr(alloc, fields, rest)?;
    Ok((
        Tree::Concat(Box::new(alloc, tree)?, Box::new(alloc, others)?, length),
        after,
    ))
}

/// What is after a `+`, where one is first.
fn skip_plus(tokens: &[Token]) -> Option<&[Token]>
    ensures found { IfSome result (λ rest. Begin (Plus ∷ []) tokens.now rest.now) }
    ensures none { IfNone result (FitsUpToNext more tokens.now tokens.now) }
    ensures shorter { IfSome result (λ rest. length rest.now < length tokens.now) }
    ensures passed { IfSome result (λ rest. (s : List Expected) → first_unexpected (more ∷ s) tokens.now ≡ first_unexpected (expr ∷ s) rest.now) }
{
    match tokens {
        [
            Token {
                kind: Kind::Plus,
                ..
            },
            rest @ ..,
        ] => Some(rest),
        _ => None,
    }
}

/// Nothing but the end.
fn skip_end(tokens: &[Token]) -> Result<(), ExprFault>
    ensures found { IfOk result (λ _. Begin (End ∷ []) tokens.now []) }
    ensures refused { IfErr result (λ fault. IsFirstUnexpected fault (finish ∷ []) tokens.now) }
{
    match tokens {
        [
            Token {
                kind: Kind::End,
                ..
            },
        ] => Ok(()),
        [
            Token {
                kind: Kind::End,
                ..
            },
            second,
            ..
        ] => Err(unexpected(*second)),
        [token, ..] => Err(unexpected(*token)),
        [] => Err(ExprFault::BadSyntax(0)),
    }
}

/// The tree of the tokens of a whole text.
#[tactic(auto, using(crate::proofs::BadOffsets::refusal_at))]
pub(crate) fn read_tokens(
    alloc: Global,
    fields: &[Field],
    tokens: &[Token],
) -> Result<Tree, ExprFault>
    requires ended { EndsInEnd tokens.now }
    ensures lengths { IfOk result (λ tree. KeepsLengths fields.now tree) }
    ensures read { IfOk result (λ tree. IsWholeExpression (expr_of tree) tokens.now) }
    ensures refused { IfErr result (λ fault. IsTokenRefusal fault tokens.now) }
{
    let (tree, tail) = read_expr(alloc, fields, tokens)?;
    skip_end(tail)?;
    Ok(tree)
}

/// A text is read in one way: it has one list of tokens that stand in it one after the other, each of them where
/// its bytes stand and with blanks alone between them, and these are one expression or none. Which key expression
/// of a schema it is, where it is one, is what a function gives.
pub fn one_reading()
    ensures tokens { (fields : List Field) (text : List ℕ) → StandIn fields text 0 (tokens_of fields text) }
    ensures alone { (fields : List Field) (text : List ℕ) (ts : List Token) → StandIn fields text 0 ts → ts ≡ tokens_of fields text }
    ensures one { (ts : List Token) (e f : Expr) → IsWholeExpression e ts → IsWholeExpression f ts → e ≡ f }
    ensures function { (fields : List Field) (text : List ℕ) (e : Expr) → IsKeyText fields text e ↔ (expr_in fields text ≡ Some e) }
{}
