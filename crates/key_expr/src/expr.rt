//! Key expressions: how they are read, and the keys that they give.

ghost use Rattle.std.specs.Prelude.{◌≡◌, ◌≢◌, ◌↔◌, IsTrue, ◌+◌, ◌≤◌, ◌<◌, length, drop, Some, None, IfOk, IfErr};
ghost use Rattle.std.specs.List.{AllByRecursion};
ghost use Rattle.dbf_fields.specs.Field.{widths};
ghost use Rattle.key_expr.specs.declared.fault.ExprFault.TheVariants.{ExpressionTooLong, NoMemory};
ghost use Rattle.key_expr.specs.declared.format.TheConstants.{MAX_EXPRESSION_BYTES, MAX_KEY_BYTES};
ghost use Rattle.key_expr.specs.Grammar.{Expr};
ghost use Rattle.key_expr.specs.TreeExpr.{expr_of};
ghost use Rattle.key_expr.specs.KeptLengths.{KeepsLengths};
ghost use Rattle.key_expr.specs.Keys.{key, key_length, names, HasKeyWhateverMemos, IsKeyWhateverMemos};
ghost use Rattle.dbf_fields.specs.Layout.{cells_of};
ghost use Rattle.key_expr.specs.Rules.{IsKeyText, IsFault};
ghost use Rattle.key_expr.specs.Expression.{IsAnswer, expression_in};

use crate::check::check_all;
use crate::evaluate::{Window, put};
use crate::fault::ExprFault;
use crate::format::MAX_EXPRESSION_BYTES;
use crate::key::Key;
use crate::lexer::tokens_of;
use crate::parser::read_tokens;
use crate::tree::Tree;
use dbf_fields::{Field, Schema};
use std::alloc::{AllocError, Global};
use std::marker::Model;

/// A key expression that was read for the fields of a schema, and keeps all rules.
///
/// Contracts see its text, the fields, and the expression that the text is.
#[derive(Drop)]
pub struct KeyExpr {
    text: Vec<u8>,
    schema: Schema,
    tree: Tree,
    key_len: usize,
}

impl Model for KeyExpr {
    ghost use Rattle.key_expr.specs.Expression.{Expression, BelongsToText};
    ghost use Rattle.key_expr.specs.TreeExpr.{expr_of};
    ghost use Rattle.key_expr.specs.ExprCode.{expr_code};
    ghost use Rattle.std.specs.Coded.{codes};

    ghost Value = { Expression };

    ghost coded = { Prim.hlevel (codes, expr_code) };

    ghost view = { λ e. record { text = e.text.items; fields = e.schema; expr = expr_of e.tree } };

    ghost invariant = { λ e. BelongsToText e.text.items e.schema e.tree e.key_len };
}

// The tree of a text and the length of its keys.
#[tactic(auto, using(crate::proofs::Parsing::fault_of_rule))]
fn read_text(alloc: Global, text: &[u8], fields: &[Field]) -> Result<(Tree, usize), ExprFault>
    ensures read { IfOk result (λ pair. IsKeyText fields.now text.now (expr_of pair.0)) }
    ensures lengths { IfOk result (λ pair. KeepsLengths fields.now pair.0) }
    ensures long { IfOk result (λ pair. pair.1 ≡ key_length fields.now (expr_of pair.0)) }
    ensures early { IfErr result (λ fault. MAX_EXPRESSION_BYTES < length text.now → fault ≡ ExpressionTooLong) }
    ensures refused { IfErr result (λ fault. IsFault fault fields.now text.now) }
{
    if text.len() > MAX_EXPRESSION_BYTES {
        return Err(ExprFault::ExpressionTooLong);
    }
    let tokens = tokens_of(alloc, fields, text)?;
    let tree = read_tokens(alloc, fields, &tokens)?;
    let key_len = check_all(&tree, fields)?;
    Ok((tree, key_len))
}

impl KeyExpr {
    /// Reads a key expression for the fields of a schema.
    ///
    /// ```text
    /// expr  = term { "+" term }
    /// term  = field | "(" expr ")" | "UPPER(" expr ")"
    ///       | "SUBSTR(" expr "," number "," number ")"
    ///       | "STR(" field [ "," number [ "," number ] ] ")" | "DTOC(" field ")"
    /// ```
    ///
    /// Case doesn't matter, and blanks may stand before and after every token. A name before a parenthesis
    /// is a function's, else a field's, of up to 10 bytes; a number has 1 to 3 digits.
    ///
    /// - A field that stands alone is of characters, and gives its cell. `+` joins. `UPPER` raises the
    ///   letters a to z.
    /// - `SUBSTR(e, s, l)` gives the bytes s to s + l - 1 of e, counted from 1, as far as e goes; s is from 1 to
    ///   the length of e, and l at least 1.
    /// - `STR(f, length, decimals)` prints a number right-justified. The length is 10 and the decimals are 0
    ///   where they are missing; the decimals are those of the field, the length is at least the field's
    ///   width and at most 100. Where the cell can't be read or the text is too long, it prints asterisks.
    /// - `DTOC(f)` prints a date as `MM/DD/YY`: the blank date as `  /  /  `, a cell that is no date as
    ///   `**/**/**`.
    ///
    /// The faults, in order: `ExpressionTooLong` over 488 bytes, before any memory is taken; `BadSyntax`, judged
    /// for the whole text; then term by term from left to right, a term's arguments before the term,
    /// `NoSuchField`, `NotCharacter` for a field of another kind than is asked for there, and `BadArgument`;
    /// `KeyTooLong` for keys over 100 bytes. `NoMemory` may stand in place of what would have come after the
    /// growth that was refused, so never for a text over 488 bytes.
    #[tactic(auto, using(crate::proofs::Parsing::memory_only, crate::proofs::Parsing::one_expr, crate::proofs::ParseLaws::fault_none))]
    ///
    /// As a caller has it:
    ///
    /// ```text
    /// let schema = people(alloc)?;
    /// let expr = KeyExpr::parse(alloc, text, &schema)?;
    /// let record = b" Ada Lovela 3618151210".as_slice();
    /// if record.len() != schema.record_length() {
    ///     return Err("a record of another length".into());
    /// }
    /// Ok(expr.has_key(record, key))
    /// ```
    pub fn parse(alloc: Global, text: &[u8], schema: &Schema) -> Result<KeyExpr, ExprFault>
        ensures text { IfOk result (λ e. e.text ≡ text.now) }
        ensures fields { IfOk result (λ e. e.fields ≡ schema.now) }
        ensures read { IfOk result (λ e. IsKeyText schema.now text.now e.expr) }
        ensures only { (e : Expr) → IsKeyText schema.now text.now e → IsAnswer result e }
        ensures early { IfErr result (λ fault. MAX_EXPRESSION_BYTES < length text.now → fault ≡ ExpressionTooLong) }
        ensures refused { IfErr result (λ fault. IsFault fault schema.now text.now) }
        ensures one { IfOk result (λ e. expression_in schema.now text.now ≡ Some e) }
        ensures none { IfErr result (λ fault. fault ≢ NoMemory → expression_in schema.now text.now ≡ None) }
    {
        let (tree, key_len) = read_text(alloc, text, schema.fields())?;
        let text = Vec::from_slice(alloc, text)?;
        let schema = schema.copy(alloc)?;
        Ok(KeyExpr {
            text,
            schema,
            tree,
            key_len,
        })
    }

    /// The text that was read, byte for byte: at most 488, none of them zero. Takes no memory.
    #[tactic(auto, using(crate::proofs::NoZeros::no_zero))]
    pub fn text(&self) -> &[u8]
        ensures text { result.now ≡ self.now.text }
        ensures read { IsKeyText self.now.fields self.now.text self.now.expr }
        ensures short { length self.now.text ≤ MAX_EXPRESSION_BYTES }
        ensures plain { AllByRecursion (λ b. b ≢ 0) self.now.text }
    {
        self.text.as_slice()
    }

    /// How many bytes each key has, 1 to `MAX_KEY_BYTES`. Takes no memory.
    #[tactic(auto, using(crate::proofs::KeptRules::key_some, crate::proofs::KeptRules::refusal_tests, crate::proofs::KeptRules::refusal_short))]
    pub fn key_len(&self) -> usize
        ensures value { result ≡ key_length self.now.fields self.now.expr }
        ensures some { 1 ≤ result }
        ensures short { result ≤ MAX_KEY_BYTES }
    {
        self.key_len
    }

    /// The key of a record, which is lent as its bytes: the flag, then the cells in the order of the fields.
    /// What stands in the cells of memos doesn't matter. Takes no memory.
    #[tactic(auto, using(crate::specs::Laws::key_but_memos, crate::proofs::KeptRules::refusal_tests, crate::proofs::KeptRules::refusal_short, crate::proofs::KeyLengths::key_length_is, crate::proofs::Windows::whole_window))]
    pub fn key_of(&self, record_bytes: &[u8]) -> Key
        requires long { length record_bytes.now ≡ 1 + widths self.now.fields }
        ensures key { result ≡ key (cells_of self.now.fields (drop 1 record_bytes.now)) self.now.expr }
        ensures row { IsKeyWhateverMemos self.now.fields (cells_of self.now.fields (drop 1 record_bytes.now)) self.now.expr result }
        ensures long { length result ≡ key_length self.now.fields self.now.expr }
    {
        let whole = Window {
            from: 0,
            count: self.key_len,
            upper: false,
        };
        let mut out = Key::default();
        put(&mut out, &self.tree, &self.schema, record_bytes, whole);
        out
    }

    /// Whether a record, which is lent as its bytes, has a key, given by its bytes. The cell of a field that is the whole
    /// expression is compared where it stands. What stands in the cells of memos doesn't matter. Takes no memory.
    #[tactic(auto, using(crate::specs::Laws::key_but_memos, crate::proofs::KeptRules::refusal_tests, crate::proofs::KeptRules::refusal_short, crate::proofs::KeyLengths::key_length_is))]
    pub fn has_key(&self, record_bytes: &[u8], bytes: &[u8]) -> bool
        requires long { length record_bytes.now ≡ 1 + widths self.now.fields }
        ensures value { IsTrue result ↔ (key (cells_of self.now.fields (drop 1 record_bytes.now)) self.now.expr ≡ bytes.now) }
        ensures row { HasKeyWhateverMemos self.now.fields (cells_of self.now.fields (drop 1 record_bytes.now)) self.now.expr }
        ensures long { IsTrue result → length bytes.now ≡ key_length self.now.fields self.now.expr }
    {
        match &self.tree {
            Tree::Field(index) => self.schema.cell_in(record_bytes, *index) == bytes,
            _ => self.key_of(record_bytes).as_bytes() == bytes,
        }
    }

    /// Whether the expression names a field, which is given by its index from 0. Takes no memory.
    pub fn names(&self, field: usize) -> bool
        ensures value { result ≡ names field self.now.expr }
    {
        self.tree.names(field)
    }

    /// The same expression once more, or an error where memory is refused.
    pub fn copy(&self, alloc: Global) -> Result<KeyExpr, AllocError>
        ensures value { IfOk result (λ e. e ≡ self.now) }
    {
        Ok(KeyExpr {
            text: Vec::from_slice(alloc, self.text.as_slice())?,
            schema: self.schema.copy(alloc)?,
            tree: self.tree.copy(alloc)?,
            key_len: self.key_len,
        })
    }
}
