//! The key of a record, part by part.

ghost use Rattle.std.specs.Prelude.{◌≡◌, ◌+◌, ◌-◌, ◌<◌, ◌≤◌, ◌++◌, length, drop, map, min, None, true};
ghost use Rattle.dbf_fields.specs.Faults.{first_fault};
ghost use Rattle.key_expr.specs.TreeExpr.{expr_of};
ghost use Rattle.key_expr.specs.KeptLengths.{KeepsLengths};
ghost use Rattle.key_expr.specs.Grammar.{str};
ghost use Rattle.key_expr.specs.Keys.{key};
ghost use Rattle.dbf_fields.specs.Field.{widths};
ghost use Rattle.dbf_fields.specs.Layout.{cells_of};
ghost use Rattle.key_expr.specs.declared.format.TheConstants.{MAX_KEY_BYTES};
ghost use Rattle.key_expr.specs.Rules.{tests};
ghost use Rattle.key_expr.specs.Windows.{upper_if, bytes_in};

use crate::check::length_given;
use crate::key::Key;
use crate::str_text::str_text;
use crate::tree::Tree;
use dbf_fields::{Schema, shown_date};

// No window begins later: it begins within the bytes that a SUBSTR takes, and is moved by those that it leaves out.
const MAX_WINDOW_START: usize = 2 * u16::MAX as usize;

/// Which bytes of a part of the key are wanted: those after the first ones, up to a count of them, in capitals or as
/// they are.
#[derive(Clone, Copy)]
pub(crate) struct Window {
    pub(crate) from: usize,
    pub(crate) count: usize,
    pub(crate) upper: bool,
}

impl Window {
    // What is left of it after a part of this length.
    fn after(self, length: usize) -> Window
        ensures from { result.from ≡ self.from - length }
        ensures count { result.count ≡ self.count - (length - self.from) }
        ensures upper { result.upper ≡ self.upper }
    {
        let taken = length.saturating_sub(self.from);
        Window {
            from: self.from.saturating_sub(length),
            count: self.count.saturating_sub(taken),
            upper: self.upper,
        }
    }

    // The same bytes, where they are looked up among those from which a part of `most` bytes after the first
    // ones was cut.
    fn within(self, before: usize, most: usize) -> Window
        requires first { before ≤ u16.MAX }
        requires last { most ≤ u16.MAX }
        requires some { self.from < most }
        ensures from { result.from ≡ before + self.from }
        ensures near { result.from ≤ MAX_WINDOW_START }
        ensures count { result.count ≡ min self.count (most - self.from) }
        ensures upper { result.upper ≡ self.upper }
    {
        Window {
            from: before + self.from,
            count: self.count.min(most - self.from),
            upper: self.upper,
        }
    }
}

// Puts bytes at the end of a key, in capitals.
fn put_in_capitals(out: &mut Key, bytes: &[u8])
    requires room { length out.old + length bytes.now ≤ MAX_KEY_BYTES }
    ensures value { out.new ≡ out.old ++ map (upper_if true) bytes.now }
{
    for byte in bytes {
        out.push(byte.to_ascii_uppercase());
    }
}

// Puts bytes at the end of a key, in capitals if so asked.
#[tactic(auto, using(crate::proofs::Windows::as_they_are))]
fn put_bytes(out: &mut Key, bytes: &[u8], upper: bool)
    requires room { length out.old + length bytes.now ≤ MAX_KEY_BYTES }
    ensures value { out.new ≡ out.old ++ map (upper_if upper) bytes.now }
{
    if upper {
        put_in_capitals(out, bytes);
    } else {
        out.push_bytes(bytes);
    }
}

// Puts the wanted ones of some bytes at the end of a key.
fn put_window(out: &mut Key, bytes: &[u8], window: Window)
    requires room { length out.old + window.count ≤ MAX_KEY_BYTES }
    ensures value { out.new ≡ out.old ++ bytes_in window bytes.now }
{
    let start = window.from.min(bytes.len());
    let after = &bytes[start..];
    let count = window.count.min(after.len());
    put_bytes(out, &after[..count], window.upper);
}

// What the number in a field's cell prints. For contracts alone: `decimals`, those that the expression gives, which are
// the field's.
#[tactic(auto, using(crate::proofs::KeptRules::str_kept))]
fn str_of_cell(
    schema: &Schema,
    record_bytes: &[u8],
    index: usize,
    given: Option<u16>,
    decimals: Option<u16>,
) -> Key
    requires whole { length record_bytes.now ≡ 1 + widths schema.now }
    requires kept { first_fault (tests schema.now (str index given decimals)) ≡ None }
    ensures value { result ≡ key (cells_of schema.now (drop 1 record_bytes.now)) (str index given decimals) }
{
    let field = &schema.fields()[index];
    str_text(
        length_given(given),
        field.decimals,
        schema.cell_in(record_bytes, index),
    )
}

/// Puts the wanted bytes of the key of an expression at the end of a key.
#[tactic(auto, using(crate::proofs::KeptRules::kept_concat, crate::proofs::KeptRules::kept_substr, crate::proofs::Windows::bytes_within, crate::proofs::Windows::window_upper))]
pub(crate) fn put(out: &mut Key, tree: &Tree, schema: &Schema, record_bytes: &[u8], window: Window)
    requires whole { length record_bytes.now ≡ 1 + widths schema.now }
    requires kept { first_fault (tests schema.now (expr_of tree.now)) ≡ None }
    requires room { length out.old + window.count ≤ MAX_KEY_BYTES }
    requires near { window.from ≤ MAX_WINDOW_START }
    requires lengths { KeepsLengths schema.now tree.now }
    ensures value { out.new ≡ out.old ++ bytes_in window (key (cells_of schema.now (drop 1 record_bytes.now)) (expr_of tree.now)) }
{
    match tree {
        Tree::Field(index) => put_window(out, schema.cell_in(record_bytes, *index), window),
        Tree::Concat(first, second, length) => {
            let after = window.after(*length);
            put(out, first, schema, record_bytes, window);
            if after.count > 0 {
                put(out, second, schema, record_bytes, after);
            }
        }
        Tree::Upper(inner) => {
            let upper = Window {
                upper: true,
                ..window
            };
            put(out, inner, schema, record_bytes, upper);
        }
        Tree::Substr(inner, from, count) => {
            let most = usize::from(*count);
            if window.from < most {
                let before = usize::from(*from).saturating_sub(1);
                put(
                    out,
                    inner,
                    schema,
                    record_bytes,
                    window.within(before, most),
                );
            }
        }
        Tree::Str(index, length, decimals) => {
            let printed = str_of_cell(schema, record_bytes, *index, *length, *decimals);
            put_window(out, printed.as_bytes(), window);
        }
        Tree::Dtoc(index) => {
            let shown = shown_date(schema.cell_in(record_bytes, *index));
            put_window(out, &shown, window);
        }
    }
}
