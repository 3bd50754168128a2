//! Key expressions.

ghost use Rattle.std.specs.Prelude.{◌≡◌};

use super::sample::{BOB, Sample, data};
use super::sweep::{Calls, assert_all, refused};
use dbf_fields::Schema;
use key_expr::{ExprFault, KeyExpr};
use std::alloc::{AllocError, Global};
use std::test::Fail;

// An expression with each form.
const EACH_FORM: &[u8] = b"UPPER(SUBSTR(NAME,1,3))+STR(AMT,6,2)+DTOC(BORN)";

// Whether an expression has a text, and this key of the first record.
fn has_key(expr: &KeyExpr, schema: &Schema, text: &[u8], key: &[u8]) -> bool
    requires fields { expr.now.fields ≡ schema.now }
{
    BOB.len() == schema.record_length() && expr.text() == text && expr.key_of(BOB).as_bytes() == key
}

// Whether an expression of a text has this key of the first record.
fn parses(alloc: Global, schema: &Schema, text: &[u8], key: &[u8]) -> Result<bool, AllocError> {
    match KeyExpr::parse(alloc, text, schema) {
        Ok(expr) => Ok(has_key(&expr, schema, text, key)),
        Err(fault) => refused(fault == ExprFault::NoMemory),
    }
}

// Whether an expression is copied with its text, its length of keys, and the fields that it names.
fn copies(alloc: Global, expr: &KeyExpr) -> Result<bool, AllocError> {
    let copy = expr.copy(alloc)?;
    Ok(
        copy.text() == expr.text()
            && copy.key_len() == expr.key_len()
            && (copy.names(0), copy.names(2), copy.names(3)) == (true, false, true),
    )
}

// Calls of expressions, and one that is there already.
#[derive(Drop)]
struct OfExpressions {
    expr: KeyExpr,
}

impl Calls for OfExpressions {
    fn make(&self, alloc: Global, sample: &mut Sample, number: usize) -> Result<bool, AllocError> {
        let schema = sample.data.schema();
        match number {
            0 => parses(alloc, schema, b"NAME", b"BOB       "),
            1 => parses(alloc, schema, EACH_FORM, b"BOB  1.0003/02/87"),
            2 => copies(alloc, &self.expr),
            _ => Ok(false),
        }
    }
}

// The expression with each form, for the sample's fields.
fn each_form(alloc: Global) -> Result<OfExpressions, Fail> {
    let data = data(alloc)?;
    let expr = KeyExpr::parse(alloc, EACH_FORM, data.schema())?;
    Ok(OfExpressions { expr })
}

#[test]
fn each_call_of_expressions_where_memory_is_refused(rt: HostRuntime) -> Result<(), Fail> {
    assert_all(&rt, rt.alloc(), &each_form(rt.alloc())?, 3)
}
